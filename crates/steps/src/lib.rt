// Steps over an accepted encoding, in place: a shape is passed over by its head and not read again. They stay inside the bytes whatever these are.
#![tactic(auto)]

pub mod put;

ghost use Rattle.std.specs.Prelude.{◌≡◌, ◌≤◌, max, length};
ghost use Rattle.leaves.specs.Leb.{leb_at};
ghost use Rattle.steps.specs.Steps.{first_at, FirstInside, past_long, past_shape, past_text, past_name, past_item, past_items, counted_by, list_at, ListingInside};

use payloads::first::{First, Kind};

// The first byte and the payload's size.
pub const HEAD_SIZE: usize = 3;

// A blank in its long form: head and number.
pub const LONG_BLANK: usize = 5;

// The place after the shape with a payload at a place. Each test must come before the read after it.
#[tactic(auto, using(meaning::proofs::Rules::tests), unfolding(crate::specs::Steps::past_long))]
pub fn past_long(s: &[u8], at: usize) -> usize
    requires { at ≤ length s.now }
    ensures is { result ≡ past_long s.now at }
    ensures onward { at ≤ result }
    ensures inside { result ≤ length s.now }
{
    if s.len() - at < HEAD_SIZE {
        return at;
    }
    let size = leaves::two_at(s, at + 1);
    if s.len() - at - HEAD_SIZE < size {
        return at;
    }
    at + HEAD_SIZE + size
}

// What the first byte at a place says; past the end nothing is assigned.
#[tactic(auto, using(meaning::proofs::Rules::tests), unfolding(crate::specs::Steps::first_at))]
pub fn first_at(s: &[u8], at: usize) -> First
    ensures is { result ≡ first_at s.now at }
    ensures inside { FirstInside s.now at result }
{
    match s.get(at) {
        Some(b) => First::from(*b),
        None => First::Unassigned,
    }
}

// The place after the shape at a place, by its head.
#[tactic(auto, unfolding(crate::specs::Steps::past_shape))]
pub fn past_shape(s: &[u8], at: usize) -> usize
    ensures is { result ≡ past_shape s.now at }
    ensures onward { at ≤ result }
{
    match first_at(s, at) {
        First::Unassigned => at,
        First::Short { .. } => at + 1,
        First::Long { .. } => past_long(s, at),
    }
}

// The place after the text whose length stands at a place.
#[tactic(auto, using(meaning::proofs::Rules::tests), unfolding(crate::specs::Steps::past_text))]
fn past_text(s: &[u8], at: usize) -> usize
    ensures is { result ≡ past_text s.now at }
    ensures inside { (at ≤ result) × (result ≤ max at (length s.now)) }
{
    match leaves::leb128(s, at) {
        Ok(size) if size.value <= s.len() - size.next => size.next + size.value,
        _ => at,
    }
}

// The place after an item's name, where its kind has names.
#[tactic(auto, unfolding(crate::specs::Steps::past_name))]
pub fn past_name(s: &[u8], at: usize, kind: Kind) -> usize
    ensures is { result ≡ past_name s.now at kind }
    ensures inside { (at ≤ result) × (result ≤ max at (length s.now)) }
{
    if kind.is_named() {
        past_text(s, at)
    } else {
        at
    }
}

// The place after an item.
#[tactic(auto, unfolding(crate::specs::Steps::past_item))]
fn past_item(s: &[u8], at: usize, kind: Kind) -> usize
    ensures { result ≡ past_item s.now at kind }
{
    let start = past_name(s, at, kind);
    if kind.is_shaped() {
        past_shape(s, start)
    } else {
        start
    }
}

// The place after k items.
#[tactic(auto, using(crate::proofs::Turns::items_more), unfolding(crate::specs::Steps::past_items))]
pub fn past_items(s: &[u8], kind: Kind, k: u64, from: usize) -> usize
    ensures { result ≡ past_items s.now kind k from }
{
    let mut at = from;
    for _ in 0..k {
        at = past_item(s, at, kind);
    }
    at
}

// The list of a payload: where it starts and how many items it has.
#[derive(Clone, Copy)]
pub struct Listing {
    pub from: usize,
    pub count: usize,
}

// A list with its count before it, at the payload's start; a Function's return is one item more.
fn counted_list(s: &[u8], start: usize, more: usize) -> Listing
    requires { more ≤ 1 }
    ensures is { result ≡ counted_by start more (leb_at s.now (length s.now) start) }
    ensures inside { ListingInside s.now start result }
{
    match leaves::leb128(s, start) {
        Ok(count) => Listing {
            from: count.next,
            count: count.value + more,
        },
        Err(_) => Listing {
            from: start,
            count: 0,
        },
    }
}

// The list of an accepted encoding's payload, from the payload's start on, by its kind.
#[tactic(auto, unfolding(crate::specs::Steps::list_at))]
pub fn list_at(s: &[u8], start: usize, kind: Kind) -> Listing
    ensures is { result ≡ list_at s.now start kind }
    ensures inside { ListingInside s.now start result }
{
    match kind {
        Kind::Array => Listing {
            from: start,
            count: 1,
        },
        Kind::Map => Listing {
            from: start,
            count: 2,
        },
        Kind::Record | Kind::Symbol => counted_list(s, start, 0),
        Kind::Function => counted_list(s, start, 1),
        Kind::Variable => Listing {
            from: start,
            count: 0,
        },
    }
}
