// Heads and blanks of an encoding, written into a lent buffer.
ghost use Rattle.std.specs.Prelude.{◌≡◌, ◌≤◌, ◌<◌, ◌+◌, length};
ghost use Rattle.meaning.specs.Encode.{blank_bytes};
ghost use Rattle.buffers.specs.Written.{written};
ghost use Rattle.steps.specs.Heads.{kind_says, head_bytes};

use crate::{HEAD_SIZE, LONG_BLANK};
use buffers::{put_byte, put_two};
use payloads::first::{ARRAY, FUNCTION, Kind, MAP, RECORD, SHORT_BLANKS, SYMBOL, VARIABLE};

// The first byte of a kind.
fn kind_byte(kind: Kind) -> u8
    ensures { result ≡ kind_says kind }
{
    match kind {
        Kind::Array => ARRAY,
        Kind::Map => MAP,
        Kind::Record => RECORD,
        Kind::Function => FUNCTION,
        Kind::Symbol => SYMBOL,
        Kind::Variable => VARIABLE,
    }
}

// The head of a payload of so many bytes.
#[tactic(auto, using(buffers::proofs::Written::written_after))]
pub fn put_head(kind: Kind, size: usize, out: &mut [u8], to: usize)
    requires { (size < 65536) × (to + 3 ≤ length out.old) }
    ensures { out.new ≡ written out.old to (head_bytes kind size) }
{
    put_byte(out, to, kind_byte(kind));
    put_two(out, to + 1, size);
}

// The blank n. The place after it.
#[tactic(auto, using(buffers::proofs::Written::written_after, meaning::proofs::Rules::tests), unfolding(meaning::specs::Encode::blank_bytes))]
pub fn put_blank(n: usize, out: &mut [u8], to: usize) -> usize
    requires { (n < 65536) × (to + length (blank_bytes n) ≤ length out.old) }
    ensures after { result ≡ to + length (blank_bytes n) }
    ensures wrote { out.new ≡ written out.old to (blank_bytes n) }
{
    if n < SHORT_BLANKS as usize {
        put_byte(out, to, n as u8);
        return to + 1;
    }
    put_head(Kind::Variable, 2, out, to);
    put_two(out, to + HEAD_SIZE, n);
    to + LONG_BLANK
}
