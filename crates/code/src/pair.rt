ghost use Rattle.code.specs.Pairs.{IsAdmitted};

// A pair that is admitted: m parity boxes (redundant storage nodes), k data boxes, and r = m^(k - 1) blocks in a chunk.
// Boxes 0 to k - 1 hold data, and box k + i is parity box i.
#[derive(Clone, Copy, PartialEq, Eq, Debug)]
pub struct Pair {
    pub m: usize,
    pub k: usize,
    pub r: usize,
    ghost admitted: { IsAdmitted m k r },
}
