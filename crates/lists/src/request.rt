// Which reading list is asked for, by plain numbers of any size, and the calls that are open to callers.
ghost use Rattle.std.specs.Prelude.{◌≡◌, length};
ghost use Rattle.refusal.specs.Numbers.{numbered};
ghost use Rattle.lists.specs.ListLaws.{ListLawsHold};
ghost use Rattle.lists.specs.Readings.{Reads};
ghost use Rattle.lists.specs.Answers.{count_answer, list_answer, list_after};

use crate::place::Place;
use crate::reading::Reading;
use code::admit;
use refusal::Refusal;

// List `list` of the box `lost`, for m parity boxes and k data boxes.
#[derive(Clone, Copy, PartialEq, Eq, Debug)]
pub struct Request {
    pub m: usize,
    pub k: usize,
    pub lost: usize,
    pub list: usize,
}

impl Request {
    // The reading list that is asked for.
    #[tactic(auto, using(crate::proofs::Counted::found_reads))]
    fn reading(&self) -> Result<Reading, Refusal>
        ensures { Reads self.now result }
    {
        Reading::of(admit(self.m, self.k)?, self.lost, self.list)
    }

    // How many places the list has: how long a list a caller has to bring.
    pub fn count(&self) -> Result<usize, Refusal>
        ensures { numbered result ≡ count_answer self.now.m self.now.k self.now.lost self.now.list }
    {
        Ok(self.reading()?.count())
    }

    // Writes the list into the caller's places, boxes rising and then rows rising, and answers its length. What stands
    // after it stays, and a refusal changes nothing.
    #[tactic(auto, using(crate::proofs::Lengths::list_laws))]
    pub fn list(&self, places: &mut [Place]) -> Result<usize, Refusal>
        ensures answers { numbered result ≡ list_answer self.now.m self.now.k self.now.lost self.now.list (length places.old) }
        ensures places { places.new ≡ list_after self.now.m self.now.k self.now.lost self.now.list places.old }
        ensures list_laws { ListLawsHold }
    {
        let reading = self.reading()?;
        if places.len() < reading.count() {
            return Err(Refusal::TooShort);
        }
        Ok(reading.fill(places))
    }
}
