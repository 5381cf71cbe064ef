ghost use Rattle.std.specs.Prelude.{Some};
ghost use Rattle.lists.specs.Places.{place_text};

use std::fmt;

// A place of a stripe: a box and a row of it. (`box` is a word of the language.)
#[derive(Clone, Copy, PartialEq, Eq, Debug, Default)]
pub struct Place {
    pub box_number: usize,
    pub row: usize,
}

// The box, a space and the row.
impl fmt::Display for Place {
    ghost output = { λ p. Some (place_text p) };

    fn fmt<W: fmt::Write>(&self, f: &mut fmt::Formatter<W>) -> fmt::Result {
        write!(f, "{} {}", self.box_number, self.row)
    }
}
