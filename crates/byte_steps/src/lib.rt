// A reader that is fed byte by byte: what one byte leads to, by what it is.
#![tactic(auto)]

pub mod modes;

ghost use Rattle.std.specs.Prelude.{◌≡◌, ◌+◌, ◌*◌, ◌<◌, ◌≤◌, leb, Option};
ghost use Rattle.byte_steps.specs.Automaton.{after_child, asks, blank_taken, char_first, char_taken, count_more, count_taken, first_taken, item_due, length_due, length_more, length_taken, shape_due, size_taken, text_done, text_due, text_taken, took};
ghost use Rattle.meaning.specs.Rules.{◌⇒◌∣◌};
ghost use Rattle.meaning.specs.Limits.{max_bytes, max_levels};
ghost use Rattle.meaning.specs.Refusals.{unfinished};
ghost use Rattle.meaning.specs.FirstByte.{class_of};
ghost use Rattle.leaves.specs.Faults.{number_of};
ghost use Rattle.payloads.specs.First.{first_said};
ghost use Rattle.payloads.specs.Payload.{primitive};
ghost use Rattle.byte_steps.specs.declared.modes.Mode.TheVariants.{Faulty};

use leaves::refusals::Fault;
use modes::{Items, LEVELS, Level, Mode};
use payloads::first::{First, Kind, PAST_PRIMITIVES, PRIMITIVES, SHORT_BLANKS};

// What a byte leads to.
#[derive(Clone, Copy)]
pub struct Took {
    pub mode: Mode,
    pub top: Level,
    pub deepest: u16,
}

// How many bytes a character asks for yet, the first of them from low to high.
#[derive(Clone, Copy)]
pub struct Asked {
    pub more: u8,
    pub low: u8,
    pub high: u8,
}

// Whether a first byte is a primitive.
#[tactic(auto, using(meaning::proofs::Rules::tests))]
fn primitive(b: u8) -> bool
    ensures { result ≡ primitive b }
{
    PRIMITIVES <= b && b < PAST_PRIMITIVES
}

// The payload in hand after a shape, by its first byte.
pub fn after_child(top: Level, b: u8) -> Level
    ensures { result ≡ after_child top b }
{
    if primitive(b) {
        top
    } else {
        top.no_primitive()
    }
}

// A byte that is refused.
fn refused(fault: Fault, at: u16, top: Level, deepest: u16) -> Took
    ensures { result ≡ took (Faulty (number_of fault) at) top deepest }
{
    Took {
        mode: Mode::faulty(fault, at),
        top,
        deepest,
    }
}

// A shape's first byte at a place, with so many levels open.
#[tactic(auto, using(meaning::proofs::Rules::tests), unfolding(crate::specs::Automaton::first_taken))]
pub fn first_taken(top: Level, n: u16, deepest: u16, at: u16, b: u8) -> Took
    requires { (n ≤ max_levels) × (at < max_bytes) }
    ensures { result ≡ first_taken top n deepest at b (first_said (class_of b)) }
{
    match First::from(b) {
        First::Unassigned => refused(Fault::NotAssigned, at, top, deepest),
        First::Short { levels } => {
            let deep = n + levels as u16;
            if LEVELS < deep {
                return refused(Fault::TooDeep, at, top, deepest);
            }
            Took {
                mode: Mode::Between,
                top: after_child(top, b),
                deepest: deepest.max(deep),
            }
        }
        First::Long { kind } => {
            if LEVELS <= n {
                return refused(Fault::TooDeep, at, top, deepest);
            }
            if top.stop < at + 3 {
                return refused(Fault::CutShort, at, top, deepest);
            }
            Took {
                mode: Mode::SizeLow { kind, at },
                top: top.no_primitive(),
                deepest,
            }
        }
    }
}

// The size's second byte; the payload starts at next.
#[tactic(auto, using(meaning::proofs::Rules::tests), unfolding(crate::specs::Automaton::size_taken))]
pub fn size_taken(top: Level, kind: Kind, at: u16, next: u16, low: u8, high: u8) -> Mode
    requires { next ≤ max_bytes }
    ensures { result ≡ size_taken top kind at next (low + 256 * high) }
{
    let stop = next as u32 + (low as u32 + 256 * high as u32);
    if (top.stop as u32) < stop {
        return Mode::faulty(Fault::CutShort, at);
    }
    Mode::Opening {
        kind,
        at,
        stop: stop as u16,
    }
}

// What is due at a place of the payload in hand: a shape, a text, an item.
#[tactic(auto, using(meaning::proofs::Rules::tests), unfolding(crate::specs::Automaton::shape_due))]
fn shape_due(top: Level, at: u16) -> Mode
    ensures { result ≡ shape_due top at }
{
    if top.stop <= at {
        Mode::faulty(Fault::CutShort, at)
    } else {
        Mode::Head
    }
}

#[tactic(auto, using(meaning::proofs::Rules::tests), unfolding(crate::specs::Automaton::length_due))]
fn length_due(top: Level, at: u16) -> Mode
    ensures { result ≡ length_due top at }
{
    if top.stop <= at {
        Mode::faulty(Fault::UNFINISHED, at)
    } else {
        Mode::Length
    }
}

pub fn item_due(items: Items, top: Level, at: u16) -> Mode
    ensures { result ≡ item_due items top at }
{
    match items {
        Items::Plain | Items::Bare => shape_due(top, at),
        Items::Fields | Items::Texts => length_due(top, at),
    }
}

// What is due after an item's text.
pub fn text_done(items: Items, top: Level, at: u16) -> Mode
    ensures { result ≡ text_done items top at }
{
    match items {
        Items::Plain | Items::Bare | Items::Fields => shape_due(top, at),
        Items::Texts => Mode::Between,
    }
}

// A text of so many bytes, whose length stands at at.
#[tactic(auto, using(meaning::proofs::Rules::tests), unfolding(crate::specs::Automaton::text_due))]
fn text_due(top: Level, at: u16, from: u16, size: u16) -> Mode
    requires { (from ≤ max_bytes) × (size < 65536) }
    ensures { result ≡ text_due top at from size }
{
    if (top.stop as u32) < from as u32 + size as u32 {
        return Mode::faulty(Fault::CutShort, at);
    }
    if size == 0 {
        return text_done(top.items, top, from);
    }
    Mode::Letters {
        from,
        left: size,
        more: 0,
        low: 0,
        high: 0,
    }
}

// So many bytes are asked for yet, the first of them from low to high.
fn asks(more: u8, low: u8, high: u8) -> Option<Asked>
    ensures { result ≡ asks more low high }
{
    Some(Asked { more, low, high })
}

// What a character's first byte asks for, if it is one.
#[tactic(auto, using(meaning::proofs::Rules::tests), unfolding(crate::specs::Automaton::char_first))]
fn char_first(b: u8) -> Option<Asked>
    ensures { result ≡ char_first b }
{
    match b {
        0..128 => asks(0, 0, 0),
        128..194 => None,
        194..224 => asks(1, 128, 191),
        224 => asks(2, 160, 191),
        237 => asks(2, 128, 159),
        225..240 => asks(2, 128, 191),
        240 => asks(3, 144, 191),
        241..244 => asks(3, 128, 191),
        244 => asks(3, 128, 143),
        _ => None,
    }
}

// A character's byte: its first, or one of those that it asks for.
#[tactic(auto, using(meaning::proofs::Rules::tests), unfolding(crate::specs::Automaton::char_taken))]
pub fn char_taken(more: u8, low: u8, high: u8, b: u8) -> Option<Asked>
    ensures { result ≡ char_taken more low high b }
{
    if more == 0 {
        char_first(b)
    } else if b < low || high < b {
        None
    } else if more == 1 {
        asks(0, 0, 0)
    } else {
        asks(more - 1, 128, 191)
    }
}

// A text after a byte, of which so many are left with this one.
#[tactic(auto, using(meaning::proofs::Rules::tests), unfolding(crate::specs::Automaton::text_taken))]
pub fn text_taken(top: Level, from: u16, left: u16, next: u16, char: Option<Asked>) -> Mode
    ensures { result ≡ text_taken top from left next char }
{
    match char {
        None => Mode::faulty(Fault::NotUtf8, from),
        Some(Asked { more, low, high }) => {
            if 1 < left {
                Mode::Letters {
                    from,
                    left: left - 1,
                    more,
                    low,
                    high,
                }
            } else if more == 0 {
                text_done(top.items, top, next)
            } else {
                Mode::faulty(Fault::NotUtf8, from)
            }
        }
    }
}

// A LEB128 number's first byte asks for another, which must stand in the payload.
#[tactic(auto, using(meaning::proofs::Rules::tests))]
fn leb_more(top: Level, at: u16, going: Mode) -> Mode
    requires { at < max_bytes }
    ensures { result ≡ (leb top.stop (at + 1) ⇒ Faulty unfinished at ∣ λ _. going) }
{
    if top.stop <= at + 1 {
        Mode::faulty(Fault::UNFINISHED, at)
    } else {
        going
    }
}

// The second byte of a long Variable's number.
#[tactic(auto, using(meaning::proofs::Rules::tests), unfolding(crate::specs::Automaton::blank_taken))]
pub fn blank_taken(at: u16, low: u8, b: u8) -> Mode
    ensures { result ≡ blank_taken at low b }
{
    if b == 0 && low < SHORT_BLANKS {
        Mode::faulty(Fault::LongForm, at)
    } else {
        Mode::Between
    }
}

// A count's first byte, and its second.
#[tactic(auto, using(meaning::proofs::Rules::tests), unfolding(crate::specs::Automaton::count_taken, crate::specs::Automaton::leb_first))]
pub fn count_taken(top: Level, deepest: u16, at: u16, b: u8) -> Took
    requires { at < max_bytes }
    ensures { result ≡ count_taken top deepest at b }
{
    if b < 128 {
        return Took {
            mode: Mode::Between,
            top: top.with_due(b as u16 + top.items.more()),
            deepest,
        };
    }
    Took {
        mode: leb_more(top, at, Mode::CountMore { at, low: b }),
        top,
        deepest,
    }
}

#[tactic(auto, using(meaning::proofs::Rules::tests), unfolding(crate::specs::Automaton::count_more, crate::specs::Automaton::leb_second))]
pub fn count_more(top: Level, deepest: u16, from: u16, low: u8, b: u8) -> Took
    ensures { result ≡ count_more top deepest from low b }
{
    let all = top.with_due(low as u16 % 128 + 128 * b as u16 + top.items.more());
    if 128 <= b {
        return refused(Fault::OVER_TWO_BYTES, from, all, deepest);
    }
    if b == 0 {
        return refused(Fault::NOT_SHORTEST, from, all, deepest);
    }
    Took {
        mode: Mode::Between,
        top: all,
        deepest,
    }
}

// A text length's first byte, and its second.
#[tactic(auto, using(meaning::proofs::Rules::tests), unfolding(crate::specs::Automaton::length_taken, crate::specs::Automaton::leb_first))]
pub fn length_taken(top: Level, at: u16, b: u8) -> Mode
    requires { at < max_bytes }
    ensures { result ≡ length_taken top at b }
{
    if b < 128 {
        text_due(top, at, at + 1, b as u16)
    } else {
        leb_more(top, at, Mode::LengthMore { at, low: b })
    }
}

#[tactic(auto, using(meaning::proofs::Rules::tests), unfolding(crate::specs::Automaton::length_more, crate::specs::Automaton::leb_second))]
pub fn length_more(top: Level, from: u16, low: u8, next: u16, b: u8) -> Mode
    requires { next ≤ max_bytes }
    ensures { result ≡ length_more top from low next b }
{
    if 128 <= b {
        Mode::faulty(Fault::OVER_TWO_BYTES, from)
    } else if b == 0 {
        Mode::faulty(Fault::NOT_SHORTEST, from)
    } else {
        text_due(top, from, next, low as u16 % 128 + 128 * b as u16)
    }
}
