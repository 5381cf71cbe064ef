// The numbers of a pair: m parity boxes, k data boxes, and r blocks in a chunk. Plain, where a `Pair` keeps a fact: the
// rule of the table is proved over the whole table, by computed tests.
#[derive(Clone, Copy, PartialEq, Eq, Debug)]
pub struct Sizes {
    pub m: usize,
    pub k: usize,
    pub r: usize,
}
