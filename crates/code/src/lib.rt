// The Z code: which pairs are admitted, how a row is written in digits, where a parity block finds its data, and the
// generator matrix.
#![tactic(auto)]

mod generator;
mod pair;
mod rows;
mod sizes;
mod table;

pub use generator::{entry, place};
pub use pair::Pair;
pub use rows::DIGITS;
pub use sizes::Sizes;
pub use table::{admit, pairs};
