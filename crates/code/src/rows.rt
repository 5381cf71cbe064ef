// A row of a stripe by its digits in base m, the digit that weighs most first.
ghost use Rattle.std.specs.Prelude.{◌≡◌, ℕ, pred, ◌<◌, ◌≤◌, if◌then◌else◌, nat_lt};
ghost use Rattle.code.specs.Rows.{digit, row, held, low};

use crate::pair::Pair;

// Room for the digits of every row, a_1 to a_(k - 1), and for the a_k after them, which counts as 0. An array by value,
// so that a row needs no memory of its own.
pub const DIGITS: usize = 11;

impl Pair {
    // The digits of the row y, and 0 after them.
    pub fn digits(&self, y: usize) -> [usize; DIGITS]
        ensures { (t : ℕ) → held result t ≡ digit self.now.m (pred self.now.k) t y }
    {
        let mut digits = [0; DIGITS];
        let mut rest = y;
        // the digit that weighs least is found first
        for digit in digits[..self.k - 1].iter_mut() {
            *digit = rest % self.m;
            rest /= self.m;
        }
        digits[..self.k - 1].reverse();
        digits
    }

    // The digits with each of the first j lowered by i modulo m.
    pub(crate) fn lowered(&self, i: usize, j: usize, digits: [usize; DIGITS]) -> [usize; DIGITS]
        requires by_less_than_m { i < self.now.m }
        requires at_most_k { j ≤ self.now.k }
        requires digits_below_m { (t : ℕ) → held digits t < self.now.m }
        ensures { (t : ℕ) → held result t ≡ (if nat_lt t j then low self.now.m i (held digits t) else held digits t) }
    {
        let mut lowered = digits;
        for digit in lowered[..j].iter_mut() {
            *digit = (*digit + (self.m - i)) % self.m;
        }
        lowered
    }

    // The row with these digits.
    pub(crate) fn folded(&self, digits: [usize; DIGITS]) -> usize
        requires { (t : ℕ) → held digits t < self.now.m }
        ensures { result ≡ row self.now.m (pred self.now.k) (held digits) }
    {
        digits[..self.k - 1]
            .iter()
            .fold(0, |y, digit| y * self.m + digit)
    }
}
