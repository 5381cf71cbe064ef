// The reading of the one line of input.
ghost use Rattle.std.specs.Prelude.{◌≡◌, ◌≤◌, length, Some, None, MatchOption, ok_or};
ghost use Rattle.std.specs.List.{prefix_len, AllPass};
ghost use Rattle.refusal.specs.Numbers.{numbered};
ghost use Rattle.listing.specs.Line.{most_digits, is_digit, value_of, field_of, request_of};

use lists::Request;
use refusal::Refusal;

// The most digits of a number.
pub(crate) const MOST_DIGITS: usize = 5;

// How many digits the input begins with.
fn digits_ahead(input: &[u8]) -> usize
    ensures { result ≡ prefix_len is_digit input.now }
{
    input.iter().take_while(|b| b.is_ascii_digit()).count()
}

// The number that up to five digits write.
fn value(digits: &[u8]) -> usize
    requires all_digits { AllPass is_digit digits.now }
    requires few_digits { length digits.now ≤ most_digits }
    ensures { result ≡ value_of digits.now }
{
    let mut value = 0;
    for b in digits {
        value = value * 10 + (*b - b'0') as usize;
    }
    value
}

// The number that the input begins with, before the byte `stop`, and what follows that.
fn field(input: &[u8], stop: u8) -> Option<(usize, &[u8])>
    ensures { MatchOption result (field_of stop input.now ≡ None) (λ x. field_of stop input.now ≡ Some (x.0, x.1.now)) }
{
    let (digits, rest) = input.split_at(digits_ahead(input));
    if digits.is_empty() || digits.len() > MOST_DIGITS {
        return None;
    }
    let rest = rest.strip_prefix(&[stop])?;
    Some((value(digits), rest))
}

// What the input asks for, where it is one line of four numbers.
fn four_numbers(input: &[u8]) -> Option<Request>
    ensures { result ≡ request_of input.now }
{
    let (m, rest) = field(input, b' ')?;
    let (k, rest) = field(rest, b' ')?;
    let (lost, rest) = field(rest, b' ')?;
    let (list, rest) = field(rest, b'\n')?;
    if !rest.is_empty() {
        return None;
    }
    Some(Request { m, k, lost, list })
}

// What the line asks for. Any other input is refused. (No `TryFrom`, since neither the trait nor the request is of this
// crate.)
pub(crate) fn parse(input: &[u8]) -> Result<Request, Refusal>
    ensures { numbered result ≡ ok_or (request_of input.now) 19 }
{
    four_numbers(input).ok_or(Refusal::NotOneLine)
}
