// From one line of input to the printed reading list.
#![tactic(auto)]

mod failure;
mod line;
mod text;

pub use text::{answer, deciding_bytes};
