// Children and names of an accepted shape, in place (01-scope.md, "Children and names"): the bytes are judged once, and then the root's own list
// is gone through once; a child is passed over by its head and not read again.
#![tactic(auto)]

ghost use Rattle.std.specs.Prelude.{◌≡◌};
ghost use Rattle.meaning.specs.Refusals.{no_such_part};
ghost use Rattle.meaning.specs.Reading.{reading};
ghost use Rattle.leaves.specs.Faults.{refusal};
ghost use Rattle.parts.specs.Said.{child_said, name_said};
ghost use Rattle.parts.specs.Found.{child_from, name_from, child_in, name_in, packed_child, child_steps, name_steps};

use leaves::refusals::{Fault, Refusal};
use payloads::first::{First, Kind, PACKED, PACKED_MAPS};
use steps::{HEAD_SIZE, Listing, first_at, list_at, past_items, past_name, past_shape};

// Child k: place and length in the parent, or a primitive's number where the parent is packed.
#[derive(Clone, Copy)]
pub enum FoundChild {
    Part { place: usize, length: usize },
    Primitive { number: usize },
}

// Name k: the text's place and length.
#[derive(Clone, Copy)]
pub struct FoundName {
    pub place: usize,
    pub length: usize,
}

// The refusal where there is no part k: how many there are.
fn no_such_part(count: usize) -> Refusal
    ensures { result ≡ refusal no_such_part count }
{
    Refusal {
        fault: Fault::NoSuchPart,
        place: count,
    }
}

// The child that starts at a place.
fn child_from(s: &[u8], start: usize) -> FoundChild
    ensures { result ≡ child_from s.now start }
{
    let end = past_shape(s, start);
    FoundChild::Part {
        place: start,
        length: end - start,
    }
}

// The name whose length stands at a place. No accepted encoding lacks that length; where it is missing, there is no name.
#[tactic(auto, unfolding(crate::specs::Found::name_from))]
fn name_from(s: &[u8], at: usize) -> Result<FoundName, Refusal>
    ensures { result ≡ name_from s.now at }
{
    let Ok(size) = leaves::leb128(s, at) else {
        return Err(no_such_part(0));
    };
    Ok(FoundName {
        place: size.next,
        length: size.value,
    })
}

// Child k of a shape with a payload.
#[tactic(auto, using(meaning::proofs::Rules::tests), unfolding(crate::specs::Found::child_in))]
fn child_in(s: &[u8], kind: Kind, k: u64, list: Listing) -> Result<FoundChild, Refusal>
    ensures { result ≡ child_in s.now kind k list }
{
    let count = if kind.is_shaped() { list.count } else { 0 };
    if k < count as u64 {
        Ok(child_from(s, past_name(s, past_items(s, kind, k, list.from), kind)))
    } else {
        Err(no_such_part(count))
    }
}

// Name k of a shape with a payload.
#[tactic(auto, using(meaning::proofs::Rules::tests), unfolding(crate::specs::Found::name_in))]
fn name_in(s: &[u8], kind: Kind, k: u64, list: Listing) -> Result<FoundName, Refusal>
    ensures { result ≡ name_in s.now kind k list }
{
    let count = if kind.is_named() { list.count } else { 0 };
    if k < count as u64 {
        name_from(s, past_items(s, kind, k, list.from))
    } else {
        Err(no_such_part(count))
    }
}

// Child k of a shape of one byte.
#[tactic(auto, using(meaning::proofs::Rules::tests), unfolding(crate::specs::Found::packed_child))]
fn packed_child(b: u8, k: u64) -> Result<FoundChild, Refusal>
    ensures { result ≡ packed_child b k }
{
    let number = match (b, k) {
        (0..PACKED, _) => return Err(no_such_part(0)),
        (PACKED..PACKED_MAPS, 0) => b - PACKED,
        (PACKED..PACKED_MAPS, _) => return Err(no_such_part(1)),
        (_, 0) => (b - PACKED_MAPS) / 5,
        (_, 1) => (b - PACKED_MAPS) % 5,
        _ => return Err(no_such_part(2)),
    };
    Ok(FoundChild::Primitive {
        number: usize::from(number),
    })
}

// Child k of an accepted encoding.
#[tactic(auto, unfolding(crate::specs::Found::child_steps, crate::specs::Found::child_by))]
fn child_of(s: &[u8], k: u64) -> Result<FoundChild, Refusal>
    ensures { result ≡ child_steps s.now k }
{
    match first_at(s, 0) {
        First::Unassigned => Err(no_such_part(0)),
        First::Short { levels: _ } => packed_child(s[0], k),
        First::Long { kind } => child_in(s, kind, k, list_at(s, HEAD_SIZE, kind)),
    }
}

// Name k of an accepted encoding.
#[tactic(auto, unfolding(crate::specs::Found::name_steps, crate::specs::Found::name_with))]
fn name_of(s: &[u8], k: u64) -> Result<FoundName, Refusal>
    ensures { result ≡ name_steps s.now k }
{
    match first_at(s, 0) {
        First::Unassigned | First::Short { levels: _ } => Err(no_such_part(0)),
        First::Long { kind } => name_in(s, kind, k, list_at(s, HEAD_SIZE, kind)),
    }
}

// Child k of an encoding: the reader's refusals first, then 18 with how many children there are.
pub fn child(bytes: &[u8], k: u64) -> Result<FoundChild, Refusal>
    ensures { result ≡ child_said (reading bytes.now) k }
{
    reader::read(bytes)?;
    child_of(bytes, k)
}

// Name k of an encoding: the reader's refusals first, then 18 with how many names there are.
pub fn name(bytes: &[u8], k: u64) -> Result<FoundName, Refusal>
    ensures { result ≡ name_said (reading bytes.now) k }
{
    reader::read(bytes)?;
    name_of(bytes, k)
}
