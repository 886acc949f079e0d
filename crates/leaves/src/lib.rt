// The leaves of the codec: numbers of two bytes, LEB128 numbers and UTF-8 text. A window begins where the input does, so that its places are the
// input's, and ends where what is read in it ends.
#![tactic(auto)]

pub mod limits;
pub mod refusals;

ghost use Rattle.std.specs.Prelude.{◌≡◌, true, ◌+◌, ◌-◌, ◌<◌, ◌≤◌, length, get_or};
ghost use Rattle.std.proofs.Math.Seq.{slice};
ghost use Rattle.meaning.specs.Numbers.{of_two};
ghost use Rattle.meaning.specs.Utf8.{size_with, char_size, well_formed};
ghost use Rattle.leaves.specs.Leb.{leb_at, LebInside};
ghost use Rattle.leaves.specs.Onward.{Onward};

use refusals::{Fault, Refusal};

// A count has two bytes, as has every number of a sheet or a table but kinds.
pub const COUNT_SIZE: usize = 2;

// A number of two bytes, low first.
pub fn two_at(s: &[u8], at: usize) -> usize
    requires { at + 1 < length s.now }
    ensures is { result ≡ of_two (get_or s.now at 0) (get_or s.now (at + 1) 0) }
    ensures small { result < 65536 }
{
    usize::from(u16::from_le_bytes([s[at], s[at + 1]]))
}

// A LEB128 number, and the place after it.
#[derive(Clone, Copy)]
pub struct Leb {
    pub value: usize,
    pub next: usize,
}

// The LEB128 number at a place of a window.
#[tactic(auto, using(meaning::proofs::Rules::tests, crate::proofs::Numbers::leb_by_steps), unfolding(crate::proofs::Numbers::steps))]
pub fn leb128(w: &[u8], at: usize) -> Result<Leb, Refusal>
    ensures is { result ≡ leb_at w.now (length w.now) at }
    ensures inside { LebInside (length w.now) at result }
{
    if w.len() <= at {
        return Err(Refusal {
            fault: Fault::UNFINISHED,
            place: at,
        });
    }
    let low = w[at];
    if low < 128 {
        return Ok(Leb {
            value: usize::from(low),
            next: at + 1,
        });
    }
    if w.len() <= at + 1 {
        return Err(Refusal {
            fault: Fault::UNFINISHED,
            place: at,
        });
    }
    let high = w[at + 1];
    if 128 <= high {
        return Err(Refusal {
            fault: Fault::OVER_TWO_BYTES,
            place: at,
        });
    }
    if high == 0 {
        return Err(Refusal {
            fault: Fault::NOT_SHORTEST,
            place: at,
        });
    }
    Ok(Leb {
        value: usize::from(low % 128) + 128 * usize::from(high),
        next: at + 2,
    })
}

// The size of the character at a place whose first byte asks for 1 to 3 more, the first of them from low to high; 0 where they do not follow.
// A number and no Option: the clause is the meaning's `size_with`, which says 0.
#[tactic(auto, using(meaning::proofs::Rules::tests, crate::proofs::Text::size_by_steps), unfolding(crate::proofs::Text::size_steps))]
fn char_with(w: &[u8], at: usize, more: usize, low: u8, high: u8) -> usize
    requires { (at < length w.now) × (0 < more) × (more < 4) }
    ensures is { result ≡ size_with more low high (slice (at + 1) (length w.now) w.now) }
    ensures inside { result ≤ length w.now - at }
{
    if more < w.len() - at
        && (low..=high).contains(&w[at + 1])
        && (more < 2 || matches!(w[at + 2], 128..=191))
        && (more < 3 || matches!(w[at + 3], 128..=191))
    {
        more + 1
    } else {
        0
    }
}

// The size of the character at a place, or 0, as the meaning's `char_size` says it. Each class of first byte has a call of its own, which the compiler then specialises.
// Two tests are guards so that they come before the others: with ranges alone, characters of two bytes took a third longer.
#[tactic(auto, using(meaning::proofs::Rules::tests, crate::proofs::Text::char_by_first), unfolding(meaning::specs::Utf8::char_size))]
fn char_at(w: &[u8], at: usize) -> usize
    requires { at < length w.now }
    ensures is { result ≡ char_size (slice at (length w.now) w.now) }
    ensures inside { result ≤ length w.now - at }
{
    match w[at] {
        0..=127 => 1,
        b if b < 194 => 0,
        b if b < 224 => char_with(w, at, 1, 128, 191),
        224 => char_with(w, at, 2, 160, 191),
        237 => char_with(w, at, 2, 128, 159),
        225..=239 => char_with(w, at, 2, 128, 191),
        240 => char_with(w, at, 3, 144, 191),
        241..=243 => char_with(w, at, 3, 128, 191),
        244 => char_with(w, at, 3, 128, 143),
        _ => 0,
    }
}

// Whether a block of bytes stands at a place of a window, each of them a character: one test for all, of which the compiler makes vector code.
pub fn block_at(w: &[u8], at: usize, size: usize) -> bool
    requires { at ≤ length w.now }
    ensures { result ≡ true → Onward w.now (length w.now) at (at + size) }
{
    // first, since the slice below must lie in the window
    if w.len() - at < size {
        return false;
    }
    let mut bits = 0;
    for b in &w[at..at + size] {
        bits |= *b;
    }
    bits < 128
}

// The place after the blocks of bytes that are each a character. By hand: the one test says where the blocks end, the last one's end too.
fn past_blocks(w: &[u8], from: usize, size: usize) -> usize
    requires { (from ≤ length w.now) × (0 < size) }
    ensures { Onward w.now (length w.now) from result }
{
    let mut at = from;
    while block_at(w, at, size) {
        at += size;
    }
    at
}

// The size of the blocks that are tried first: measured, the best of 16, 32 and 64.
const WIDE: usize = 64;

// The size of those that are tried after them.
const NARROW: usize = 8;

// The place after the bytes that are each a character: most texts have no others.
fn past_ascii(w: &[u8], from: usize) -> usize
    requires { from ≤ length w.now }
    ensures { Onward w.now (length w.now) from result }
{
    let wide = past_blocks(w, from, WIDE);
    let narrow = past_blocks(w, wide, NARROW);
    for at in narrow..w.len() {
        if 128 <= w[at] {
            return at;
        }
    }
    w.len()
}

// The place up to which the text from a place on is well formed. By hand, since only the character found says where the next one is.
pub fn well_formed_to(w: &[u8], from: usize) -> usize
    requires { from ≤ length w.now }
    ensures { result ≡ from + well_formed (slice from (length w.now) w.now) }
{
    let mut at = from;
    while at < w.len() {
        if w[at] < 128 {
            at = past_ascii(w, at + 1);
        } else {
            let n = char_at(w, at);
            if n == 0 {
                return at;
            }
            at += n;
        }
    }
    at
}
