// Why a call is turned down, for every layer: one case for each ground, with the number that users know it by.
#![tactic(auto)]

ghost use Rattle.std.specs.Prelude.{◌≡◌, Some};
ghost use Rattle.refusal.specs.Numbers.{number_of, refusal_text};

use std::error::Error;
use std::fmt;

#[derive(Clone, Copy, PartialEq, Eq, Debug)]
pub enum Refusal {
    // the pair of m parity boxes and k data boxes is not admitted
    PairNotAdmitted = 2,
    // a parity number, a data box or a row lies outside its range
    IndexOutOfRange = 3,
    // there is no such box
    NoSuchBox = 8,
    // the lost box has no reading list of that number
    NoSuchList = 16,
    // the list that the caller brought has too few entries
    TooShort = 17,
    // the program's input is not one line of four numbers
    NotOneLine = 19,
}

impl Refusal {
    // The number of this ground, as users see it.
    pub fn number(&self) -> u8
        ensures { result ≡ number_of self.now }
    {
        *self as u8
    }
}

// `refused` and the number.
impl fmt::Display for Refusal {
    ghost output = { λ e. Some (refusal_text e) };

    fn fmt<W: fmt::Write>(&self, f: &mut fmt::Formatter<W>) -> fmt::Result {
        write!(f, "refused {}", self.number())
    }
}

impl Error for Refusal {}
