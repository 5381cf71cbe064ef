ghost use Rattle.code.specs.Table.{TableRule};
ghost use Rattle.code.specs.Answers.{Admits};

use crate::pair::Pair;
use crate::sizes::Sizes;
use refusal::Refusal;

const PAIRS: [Sizes; 21] = [
    Sizes { m: 2, k: 2, r: 2 },
    Sizes { m: 2, k: 3, r: 4 },
    Sizes { m: 2, k: 4, r: 8 },
    Sizes { m: 2, k: 5, r: 16 },
    Sizes { m: 2, k: 6, r: 32 },
    Sizes { m: 2, k: 7, r: 64 },
    Sizes { m: 2, k: 8, r: 128 },
    Sizes { m: 2, k: 9, r: 256 },
    Sizes {
        m: 2,
        k: 10,
        r: 512,
    },
    Sizes {
        m: 2,
        k: 11,
        r: 1024,
    },
    Sizes { m: 3, k: 2, r: 3 },
    Sizes { m: 3, k: 3, r: 9 },
    Sizes { m: 3, k: 4, r: 27 },
    Sizes { m: 3, k: 5, r: 81 },
    Sizes { m: 3, k: 6, r: 243 },
    Sizes { m: 3, k: 7, r: 729 },
    Sizes { m: 4, k: 2, r: 4 },
    Sizes { m: 4, k: 3, r: 16 },
    Sizes { m: 4, k: 4, r: 64 },
    Sizes { m: 4, k: 5, r: 256 },
    Sizes {
        m: 4,
        k: 6,
        r: 1024,
    },
];

// The admitted pairs.
pub fn pairs() -> [Sizes; 21]
    ensures { TableRule result }
{
    PAIRS
}

// The pair of m parity boxes and k data boxes, where it is admitted.
pub fn admit(m: usize, k: usize) -> Result<Pair, Refusal>
    ensures { Admits m k result }
{
    let table = pairs();
    let sizes = table
        .iter()
        .find(|p| p.m == m && p.k == k)
        .ok_or(Refusal::PairNotAdmitted)?;
    Ok(Pair { m, k, r: sizes.r })
}
