// Judges the encoding on standard input, and prints one line: `ok LENGTH DEPTH` or `no NUMBER PLACE`.
// It reads one byte more than an encoding may have, so that the reader itself meets what is too long. A read that fails, or a write, ends the program
// with its error.
#![tactic(auto)]

ghost use Rattle.std.specs.Prelude.{◌≡◌, ◌≤◌, ◌<◌, IfOk, IfSome, length, take};
ghost use Rattle.std.specs.Io.KnownBytes.{Consumes, IsAtEnd};
ghost use Rattle.meaning.specs.Reading.{reading};
ghost use Rattle.reader.specs.Said.{said};

use leaves::limits::MAX_BYTES;
use leaves::refusals::Refusal;
use reader::Accepted;
use std::io;
use std::io::Read;

// Reads until the buffer is full or the input ends: how many bytes came. They are what the input had next, where that is known.
fn read_full<R: Read>(input: &mut R, buffer: &mut [u8]) -> io::Result<usize>
    ensures within { IfOk result (λ n. n ≤ length buffer.new) }
    ensures came { IfOk result (λ n. Consumes (R.remaining input.old) (R.remaining input.new) (take n buffer.new)) }
    ensures end { IfOk result (λ n. n < length buffer.new → IsAtEnd (R.remaining input.new)) }
{
    let mut n = 0;
    // not one turn a byte: a read gives as many as there are
    while n < buffer.len() {
        let came = input.read(&mut buffer[n..])?;
        if came == 0 {
            return Ok(n);
        }
        n += came;
    }
    Ok(n)
}

// Judges all that an input has, and reads no more of it than tells.
fn judged<R: Read>(input: &mut R) -> io::Result<Result<Accepted, Refusal>>
    ensures { IfOk result (λ j. IfSome (R.remaining input.old) (λ bytes. j ≡ said (reading bytes))) }
{
    let mut bytes = [0u8; MAX_BYTES + 1];
    let n = read_full(input, &mut bytes)?;
    Ok(reader::read(&bytes[..n]))
}

fn main(rt: HostRuntime) -> io::Result<()> {
    match judged(&mut rt.stdin())? {
        Ok(shape) => println!(rt; "ok {} {}", shape.length, shape.depth),
        Err(refusal) => println!(rt; "no {} {}", refusal.fault.number(), refusal.place),
    }
}
