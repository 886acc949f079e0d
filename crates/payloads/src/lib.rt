// The parts of a payload: its texts, its list of items, and whether it stands in its short form's place.
#![tactic(auto)]

pub mod first;

ghost use Rattle.std.specs.Prelude.{◌≡◌, ◌≤◌, ◌<◌, ◌+◌, length};
ghost use Rattle.payloads.specs.Payload.{text_at, label_at, counted_at, list_of, opening_at, OpeningInside, primitive_at, small_at, short_form_of};

use first::{Kind, PAST_PRIMITIVES, PRIMITIVES, SHORT_BLANKS};
use leaves::refusals::{Fault, Refusal};

// A text with its length before it: where it starts, and the place after it.
#[derive(Clone, Copy)]
pub struct Text {
    pub start: usize,
    pub next: usize,
}

// The text whose length stands at a place.
#[tactic(auto, using(meaning::proofs::Rules::tests), unfolding(crate::specs::Payload::text_at, crate::specs::Payload::text_from))]
pub fn text_at(w: &[u8], at: usize) -> Result<Text, Refusal>
    ensures { result ≡ text_at w.now (length w.now) at }
{
    let size = leaves::leb128(w, at)?;
    let start = size.next;
    if w.len() - start < size.value {
        return Err(Refusal {
            fault: Fault::CutShort,
            place: at,
        });
    }
    let next = start + size.value;
    if leaves::well_formed_to(&w[..next], start) == next {
        Ok(Text { start, next })
    } else {
        Err(Refusal {
            fault: Fault::NotUtf8,
            place: start,
        })
    }
}

// An item's text, where it has one.
#[tactic(auto, unfolding(crate::specs::Payload::label_at))]
pub fn label_at(w: &[u8], at: usize, kind: Kind) -> Result<Text, Refusal>
    ensures { result ≡ label_at w.now (length w.now) at kind }
{
    if kind.is_named() {
        text_at(w, at)
    } else {
        Ok(Text {
            start: at,
            next: at,
        })
    }
}

// The list of a payload: where the payload ends, where the list starts, and how many items it has.
#[derive(Clone, Copy)]
pub struct Opening {
    pub stop: usize,
    pub from: usize,
    pub count: usize,
}

// A list with its count before it, in a payload's window; a Function's return is one item more.
#[tactic(auto, unfolding(crate::specs::Payload::counted_at, crate::specs::Payload::counted_by))]
fn counted(w: &[u8], start: usize, more: usize) -> Result<Opening, Refusal>
    requires { (start ≤ length w.now) × (more ≤ 1) }
    ensures is { result ≡ counted_at w.now (length w.now) start more }
    ensures inside { OpeningInside start (length w.now) result }
{
    let count = leaves::leb128(w, start)?;
    Ok(Opening {
        stop: w.len(),
        from: count.next,
        count: count.value + more,
    })
}

// The list of a payload from start to its window's end; at is the shape's place.
#[tactic(auto, using(meaning::proofs::Rules::tests), unfolding(crate::specs::Payload::list_of))]
fn list_of(w: &[u8], at: usize, start: usize, kind: Kind) -> Result<Opening, Refusal>
    requires { start ≤ length w.now }
    ensures is { result ≡ list_of w.now at start (length w.now) kind }
    ensures inside { OpeningInside start (length w.now) result }
{
    let stop = w.len();
    match kind {
        Kind::Array => Ok(Opening {
            stop,
            from: start,
            count: 1,
        }),
        Kind::Map => Ok(Opening {
            stop,
            from: start,
            count: 2,
        }),
        Kind::Record | Kind::Symbol => counted(w, start, 0),
        Kind::Function => counted(w, start, 1),
        Kind::Variable if stop - start == 2 => Ok(Opening {
            stop,
            from: stop,
            count: 0,
        }),
        Kind::Variable => Err(Refusal {
            fault: Fault::SizeWrong,
            place: at,
        }),
    }
}

// After the first byte at a place come the size and the payload with its list. Each test has a refusal of its own, in the order of the rules.
#[tactic(auto, using(meaning::proofs::Rules::tests, crate::proofs::Fronts::list_window), unfolding(crate::specs::Payload::opening_at))]
pub fn opening_at(w: &[u8], at: usize, kind: Kind) -> Result<Opening, Refusal>
    requires { at < length w.now }
    ensures is { result ≡ opening_at w.now (length w.now) at kind }
    ensures inside { OpeningInside (at + 3) (length w.now) result }
{
    let cut_short = Err(Refusal {
        fault: Fault::CutShort,
        place: at,
    });
    if w.len() - at < 3 {
        return cut_short;
    }
    let size = leaves::two_at(w, at + 1);
    if w.len() - at - 3 < size {
        return cut_short;
    }
    list_of(&w[..at + 3 + size], at, at + 3, kind)
}

// Whether a primitive stands at a place.
#[tactic(auto, using(meaning::proofs::Rules::tests), unfolding(crate::specs::Payload::primitive_at))]
fn primitive_at(w: &[u8], at: usize) -> bool
    ensures { result ≡ primitive_at w.now (length w.now) at }
{
    at < w.len() && matches!(w[at], PRIMITIVES..PAST_PRIMITIVES)
}

// Whether the two bytes at a place are the number of a short blank.
#[tactic(auto, using(meaning::proofs::Rules::tests), unfolding(crate::specs::Payload::small_at))]
fn small_at(w: &[u8], at: usize) -> bool
    requires { at ≤ length w.now }
    ensures { result ≡ small_at w.now (length w.now) at }
{
    2 <= w.len() - at && w[at + 1] == 0 && w[at] < SHORT_BLANKS
}

// Whether the shape whose payload is read to its end, its window's, has a form of one byte too.
#[tactic(auto, unfolding(crate::specs::Payload::short_form_of))]
pub fn short_form_of(w: &[u8], start: usize, kind: Kind) -> bool
    requires { start ≤ length w.now }
    ensures { result ≡ short_form_of w.now start (length w.now) kind }
{
    match kind {
        Kind::Array => primitive_at(w, start),
        Kind::Map => primitive_at(w, start) && primitive_at(w, start + 1),
        Kind::Record | Kind::Function | Kind::Symbol => false,
        Kind::Variable => small_at(w, start),
    }
}
