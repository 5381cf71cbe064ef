// Reading lists: which blocks a rebuild of a lost box fetches.
#![tactic(auto)]

mod place;
mod reading;
mod request;

pub use place::Place;
pub use request::Request;
