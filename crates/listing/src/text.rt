// The printed text.
ghost use Rattle.std.specs.Prelude.{◌≡◌, IfOk, MatchResult, string_bytes};
ghost use Rattle.listing.specs.Line.{ReaderFindsJustTheLines};
ghost use Rattle.listing.specs.Failures.{RefusedIn};
ghost use Rattle.listing.specs.Text.{places_text, answer_text, enough, FirstBytesDecide};

use crate::failure::Failure;
use crate::line::{MOST_DIGITS, parse};
use lists::Place;
use std::alloc::{AllocError, Global};

// The places that an input asks for.
fn places(heap: Global, input: &[u8]) -> Result<Vec<Place>, Failure>
    ensures { MatchResult result (λ v. places_text v.items ≡ answer_text input.now) (RefusedIn input.now) }
{
    let request = parse(input)?;
    let mut places = vec![in heap; Place::default(); request.count()?]?;
    request.list(places.as_mut_slice())?;
    Ok(places)
}

// The places as they are printed.
fn printed(heap: Global, places: &[Place]) -> Result<String, AllocError>
    ensures { IfOk result (λ s. string_bytes s ≡ places_text places.now) }
{
    let mut text = String::from_str(heap, "box row\n")?;
    for place in places {
        writeln!(text, "{place}")?;
    }
    writeln!(text, "blocks {}", places.len())?;
    Ok(text)
}

// How many bytes of an input decide what is printed for it, so that no more need be read: those of the longest line, and
// one that shows whether it ends there.
#[tactic(auto, using(crate::proofs::Lines::first_bytes_decide))]
pub fn deciding_bytes() -> usize
    ensures count { result ≡ enough }
    ensures first_bytes_decide { FirstBytesDecide result }
{
    4 * (MOST_DIGITS + 1) + 1
}

// What is printed for an input. The only error is want of memory.
pub fn answer(heap: Global, input: &[u8]) -> Result<String, AllocError>
    ensures text { IfOk result (λ s. string_bytes s ≡ answer_text input.now) }
    ensures reader_finds_just_the_lines { ReaderFindsJustTheLines }
{
    match places(heap, input) {
        Ok(places) => printed(heap, places.as_slice()),
        Err(Failure::Refused(refusal)) => format!(in heap; "{refusal}\n"),
        Err(Failure::OutOfMemory(error)) => Err(error),
    }
}
