// Reads one line, m k f c, and prints the reading list that it asks for, or the number of the refusal.
#![tactic(auto)]

ghost use Rattle.std.specs.Prelude.{◌≡◌, IfOk, IfSome, take, string_bytes};
ghost use Rattle.listing.specs.Text.{enough, answer_text};

use listing::{answer, deciding_bytes};
use std::alloc::Global;
use std::io;
use std::io::Read;

// What decides the answer: the first bytes of an input, which may be endless, or all of a short one.
fn deciding_part<R: Read + Drop>(heap: Global, input: R) -> io::Result<Vec<u8>>
    ensures { IfOk result (λ part. IfSome (R.remaining input) (λ bytes. part.items ≡ take enough bytes)) }
{
    let mut part = Vec::new(heap);
    input.take(deciding_bytes() as u64).read_to_end(&mut part)?;
    Ok(part)
}

// What is printed for an input.
#[tactic(auto, using(crate::proofs::Parts::part_decides))]
fn answered<R: Read + Drop>(heap: Global, input: R) -> io::Result<String>
    ensures { IfOk result (λ text. IfSome (R.remaining input) (λ bytes. string_bytes text ≡ answer_text bytes)) }
{
    let part = deciding_part(heap, input)?;
    Ok(answer(heap, part.as_slice())?)
}

fn main(rt: HostRuntime) -> io::Result<()> {
    rt.print(answered(rt.alloc(), rt.stdin())?)
}

#[cfg(test)]
mod tests {
    use super::*;
    use std::test::Fail;

    // A thousand bytes, handed out as asked for.
    #[derive(Drop)]
    struct Long {
        left: usize,
    }

    impl Read for Long {
        fn read(&mut self, buf: &mut [u8]) -> io::Result<usize> {
            let n = buf.len().min(self.left);
            self.left -= n;
            Ok(n)
        }
    }

    #[test]
    fn reads_no_more_than_decides(rt: HostRuntime) -> Result<(), Fail> {
        assert_eq!(rt; deciding_part(rt.alloc(), Long { left: 1000 })?.len(), 25);
        Ok(())
    }

    #[test]
    fn reads_a_short_input_whole(rt: HostRuntime) -> Result<(), Fail> {
        let line: &[u8] = b"00002 00003 00001 00000\n";
        assert_eq!(rt; deciding_part(rt.alloc(), line)?.as_slice(), line);
        Ok(())
    }

    #[test]
    fn answers_short_and_long_inputs(rt: HostRuntime) -> Result<(), Fail> {
        let line: &[u8] = b"2 2 3 1\n";
        assert_eq!(rt; answered(rt.alloc(), line)?.as_str(), "refused 16\n");
        assert_eq!(rt;
            answered(rt.alloc(), Long { left: 1000 })?.as_str(),
            "refused 19\n"
        );
        Ok(())
    }
}
