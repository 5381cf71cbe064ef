ghost use Rattle.std.specs.Prelude.{◌<◌};

use crate::place::Place;
use code::Pair;
use refusal::Refusal;

// Reading list c of the box `lost`, of a stripe of the pair.
#[derive(Clone, Copy)]
pub(crate) struct Reading {
    pair: Pair,
    lost: usize,
    c: usize,
    ghost number: { c < pair.m },
}

impl Reading {
    // below the struct, which these definitions name
    ghost use Rattle.std.specs.Prelude.{◌≡◌, ◌≤◌, length, Ok};
    ghost use Rattle.lists.specs.Readings.{Finds, given_by, places_given};
    ghost use Rattle.lists.specs.Answers.{filled};

    // List c of the lost box, where there are such a box and such a list.
    pub(crate) fn of(pair: Pair, lost: usize, c: usize) -> Result<Self, Refusal>
        ensures { Finds pair lost c result }
    {
        let boxes = pair.m + pair.k;
        let lists = if lost < pair.k { pair.m } else { 1 };
        if lost >= boxes {
            return Err(Refusal::NoSuchBox);
        }
        if c >= lists {
            return Err(Refusal::NoSuchList);
        }
        Ok(Reading { pair, lost, c })
    }

    // How many places the list has.
    #[tactic(auto, using(crate::proofs::Counted::count_of_data, crate::proofs::Counted::count_of_parity))]
    pub(crate) fn count(&self) -> usize
        ensures { result ≡ length (places_given self.now) }
    {
        let Pair { m, k, r } = self.pair;
        if self.lost < k {
            (m + k - 1) * (r / m)
        } else {
            k * r
        }
    }

    // Whether the list has this place of the stripe.
    #[tactic(auto, using(crate::proofs::Giving::gives_own, crate::proofs::Giving::gives_parity, crate::proofs::Giving::gives_later, crate::proofs::Giving::gives_first_data, crate::proofs::Giving::gives_first_reduced, code::proofs::Digits::digit_lt))]
    fn gives(&self, place: &Place) -> bool
        ensures { result ≡ given_by self.now place.now.box_number place.now.row }
    {
        let Pair { m, k, .. } = self.pair;
        let b = place.box_number;
        if self.lost >= k {
            return b < k;
        }
        if b == self.lost {
            return false;
        }
        let digits = self.pair.digits(place.row);
        if self.lost > 0 {
            return (digits[self.lost - 1] + (m - digits[self.lost])) % m == self.c;
        }
        if b < k {
            return digits[0] == self.c;
        }
        // b may be any number here, so b - k is reduced before the sum
        digits[0] == (self.c + (b - k) % m) % m
    }

    // Writes the whole list into the caller's places from the first on, and answers how many were written, by a count of
    // the writes themselves.
    pub(crate) fn fill(&self, places: &mut [Place]) -> usize
        requires { length (places_given self.now) ≤ length places.old }
        ensures places { places.new ≡ filled (places_given self.now) places.old (Ok result) }
        ensures count { result ≡ length (places_given self.now) }
    {
        let Pair { m, k, r } = self.pair;
        let mut count = 0;
        for b in 0..m + k {
            let rows = (0..r).map(|row| Place { box_number: b, row });
            for place in rows.filter(|place| self.gives(place)) {
                places[count] = place;
                count += 1;
            }
        }
        count
    }
}
