// Bytes written into a lent buffer, from a place on, and whether a made shape can be.
#![tactic(auto)]

ghost use Rattle.std.specs.Prelude.{◌≡◌, ◌∷◌, [], ◌≤◌, ◌<◌, ◌+◌, length};
ghost use Rattle.meaning.specs.Numbers.{two_bytes, leb128};
ghost use Rattle.buffers.specs.Written.{written};
ghost use Rattle.buffers.specs.Verdicts.{verdict_of};

use leaves::limits::{MAX_BYTES, MAX_LEVELS};
use leaves::refusals::{Fault, Refusal};

// What a made shape of so many bytes and levels comes to in a lent buffer of so many bytes: its length, where it can be written, or the refusal. Each
// test has a refusal of its own, in the order of the rules.
#[tactic(auto, using(meaning::proofs::Rules::tests), unfolding(crate::specs::Verdicts::verdict_of))]
pub fn verdict(length: usize, depth: usize, room: usize) -> Result<usize, Refusal>
    ensures { result ≡ verdict_of length depth room }
{
    if MAX_LEVELS < depth {
        return Err(Refusal {
            fault: Fault::MadeTooDeep,
            place: 0,
        });
    }
    if MAX_BYTES < length {
        return Err(Refusal {
            fault: Fault::MadeTooLong,
            place: 0,
        });
    }
    if room < length {
        return Err(Refusal {
            fault: Fault::BufferShort,
            place: length,
        });
    }
    Ok(length)
}

// One byte: a function, since its clause joins with what was written before it.
#[tactic(auto, using(crate::proofs::Written::written_one))]
pub fn put_byte(out: &mut [u8], to: usize, b: u8)
    requires { to < length out.old }
    ensures { out.new ≡ written out.old to (b ∷ []) }
{
    out[to] = b;
}

// A number of two bytes, low first.
#[tactic(auto, unfolding(crate::specs::Written::written, meaning::specs::Numbers::two_bytes))]
pub fn put_two(out: &mut [u8], to: usize, n: usize)
    requires { (to + 2 ≤ length out.old) × (n < 65536) }
    ensures { out.new ≡ written out.old to (two_bytes n) }
{
    out[to..to + 2].copy_from_slice(&(n as u16).to_le_bytes());
}

// A LEB128 number. The place after it.
#[tactic(auto, using(crate::proofs::Written::written_after, meaning::proofs::Rules::tests), unfolding(meaning::specs::Numbers::leb128))]
pub fn put_leb(out: &mut [u8], to: usize, n: usize) -> usize
    requires { (n < 16384) × (to + length (leb128 n) ≤ length out.old) }
    ensures after { result ≡ to + length (leb128 n) }
    ensures wrote { out.new ≡ written out.old to (leb128 n) }
{
    if n < 128 {
        put_byte(out, to, n as u8);
        return to + 1;
    }
    put_byte(out, to, (128 + n % 128) as u8);
    put_byte(out, to + 1, (n / 128) as u8);
    to + 2
}

// All of a slice's bytes, one after the other: of `copy_from_slice` the compiler makes a call of `memmove`, which every host would have to bring, and
// most parts have a byte or none.
pub fn put_bytes(out: &mut [u8], to: usize, bytes: &[u8])
    requires { to + length bytes.now ≤ length out.old }
    ensures { out.new ≡ written out.old to bytes.now }
{
    for i in 0..bytes.len() {
        out[to + i] = bytes[i];
    }
}
