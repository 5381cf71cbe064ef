// Where a parity block finds its data, and so where the generator matrix has its 1s.
ghost use Rattle.std.specs.Prelude.{◌≡◌};
ghost use Rattle.refusal.specs.Numbers.{numbered};
ghost use Rattle.code.specs.PlaceLaws.{PlaceLawsHold};
ghost use Rattle.code.specs.Answers.{place_answer, GeneratorEntry};

use crate::pair::Pair;
use crate::table::admit;
use refusal::Refusal;

impl Pair {
    // The row of data box j whose block stands in the sum at row y of parity box i.
    pub fn place(&self, i: usize, j: usize, y: usize) -> Result<usize, Refusal>
        ensures { numbered result ≡ place_answer self.now.m self.now.k i j y }
    {
        if i >= self.m || j >= self.k || y >= self.r {
            return Err(Refusal::IndexOutOfRange);
        }
        let digits = self.lowered(i, j, self.digits(y));
        Ok(self.folded(digits))
    }
}

// The same for plain numbers of any size: the row y with each of its first j digits lowered by i modulo m. (It and `entry`
// take m and k, and no `Pair`, since a pair that is not admitted is one of their refusals.)
#[tactic(auto, using(crate::proofs::Places::place_laws))]
pub fn place(m: usize, k: usize, i: usize, j: usize, y: usize) -> Result<usize, Refusal>
    ensures answers { numbered result ≡ place_answer m k i j y }
    ensures place_laws { PlaceLawsHold }
{
    admit(m, k)?.place(i, j, y)
}

// Whether the generator has a 1 at matrix row i × r + y and column j × r + x, which is whether x is place(i, j, y).
pub fn entry(m: usize, k: usize, i: usize, y: usize, j: usize, x: usize) -> Result<bool, Refusal>
    ensures { GeneratorEntry m k i y j x result }
{
    let pair = admit(m, k)?;
    let spot = pair.place(i, j, y)?;
    if x >= pair.r {
        return Err(Refusal::IndexOutOfRange);
    }
    Ok(x == spot)
}
