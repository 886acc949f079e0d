// The state of a reader that is fed, as numbers, so that a host can keep it; and back.
#![tactic(auto)]

ghost use Rattle.std.specs.Prelude.{◌≡◌};
ghost use Rattle.states.specs.Kept.{entry_of, items_of, kind_in, kinds_with, level_in, mode_in, word_of, word_with};

use byte_steps::modes::{Items, Level, Mode};
use leaves::limits::MAX_LEVELS;
use payloads::first::Kind;

// A level as numbers, so that a host can keep it. What its items are stands in the state's `kinds`.
#[repr(C)]
#[derive(Clone, Copy)]
pub struct Entry {
    pub at: u16,
    pub stop: u16,
    pub due: u16,
}

// What the next byte is, as numbers.
#[repr(C)]
#[derive(Clone, Copy)]
pub struct Word {
    pub a: u16,
    pub b: u16,
    pub code: u8,
    pub more: u8,
    pub low: u8,
    pub high: u8,
}

// The state between two parts: what the next byte is, how many bytes came, how many the root has, how many entries are in use, how deep the root is,
// what the items of all levels are, the level in hand, whether it was finished, and an entry for each of the 16 levels (the input's own first).
// It has 128 bytes, which compilers copy without a loop, and what a byte of a text changes stands together: each call copies a state, and so does its caller.
#[repr(C)]
#[derive(Clone, Copy)]
pub struct State {
    pub next: Word,
    pub count: u16,
    pub whole: u16,
    pub used: u16,
    pub deepest: u16,
    pub kinds: u64,
    pub top: Entry,
    pub closed: u16,
    pub levels: [Entry; MAX_LEVELS],
}

// The base of kinds: a digit for each level says what its items are, that of the level in hand the lowest.
pub const DIGIT: u64 = 4;

// The kinds of 16 levels are below this.
const KINDS_LAID_BY: u64 = 4294967296;

// What items are, as a digit of kinds. TEXTS stands for every number that is none of the others.
pub const PLAIN: u64 = Items::Plain as u64;

pub const BARE: u64 = Items::Bare as u64;

pub const FIELDS: u64 = Items::Fields as u64;

pub const TEXTS: u64 = Items::Texts as u64;

// What the next byte is, as a word has it, which a host keeps: numbers, as C has them. FAULTY stands for every number that is none of the others.
pub const HEAD: u8 = 0;

pub const SIZE_LOW: u8 = 1;

pub const SIZE_HIGH: u8 = 2;

pub const COUNT: u8 = 3;

pub const COUNT_MORE: u8 = 4;

pub const LENGTH: u8 = 5;

pub const LENGTH_MORE: u8 = 6;

pub const LETTERS: u8 = 7;

pub const BLANK_LOW: u8 = 8;

pub const BLANK_HIGH: u8 = 9;

pub const DONE: u8 = 10;

pub const FAULTY: u8 = 11;

// An entry that is not in use.
pub const NO_ENTRY: Entry = Entry {
    at: 0,
    stop: 0,
    due: 0,
};

// What items are, by their digit. No From of `Items`, since that every other digit is a Symbol's texts is so of a state alone.
#[tactic(auto, using(meaning::proofs::Rules::tests))]
fn items_of(number: u64) -> Items
    ensures { result ≡ items_of number }
{
    match number {
        PLAIN => Items::Plain,
        BARE => Items::Bare,
        FIELDS => Items::Fields,
        _ => Items::Texts,
    }
}

// A level as numbers, and what its items are before the kinds of the levels laid by; and back.
impl From<Level> for Entry {
    ghost from_gives = { λ top entry. entry ≡ entry_of top };

    fn from(top: Level) -> Entry {
        Entry {
            at: top.at,
            stop: top.stop,
            due: top.due,
        }
    }
}

// The kinds of the levels laid by, and over them that of one more.
pub fn kinds_with(kinds: u64, top: Level) -> u64
    ensures { result ≡ kinds_with kinds top }
{
    kinds % KINDS_LAID_BY * DIGIT + top.items as u64
}

// The level of an entry, its items by the lowest digit of kinds.
pub fn level_of(entry: Entry, kinds: u64) -> Level
    ensures { result ≡ level_in entry kinds }
{
    Level {
        at: entry.at,
        stop: entry.stop,
        due: entry.due,
        items: items_of(kinds % DIGIT),
    }
}

// A kind by its number, as a word has it. No `From<u16>` of `Kind`, since that every other number is a Variable is so of a word alone.
#[tactic(auto, using(meaning::proofs::Rules::tests))]
fn kind_of(number: u16) -> Kind
    ensures { result ≡ kind_in number }
{
    match number {
        0 => Kind::Array,
        1 => Kind::Map,
        2 => Kind::Record,
        3 => Kind::Function,
        4 => Kind::Symbol,
        _ => Kind::Variable,
    }
}

// The numbers that most modes have.
fn numbered(code: u8, a: u16, b: u16, low: u8) -> Word
    ensures { result ≡ word_with code a b 0 low 0 }
{
    Word {
        a,
        b,
        code,
        more: 0,
        low,
        high: 0,
    }
}

// What the next byte is, as numbers, and back. Where a part ends no payload is about to open, and no item is just read.
impl From<Mode> for Word {
    ghost from_gives = { λ mode word. word ≡ word_of mode };

    #[tactic(auto, unfolding(crate::specs::Kept::word_of))]
    fn from(mode: Mode) -> Word {
        match mode {
            Mode::Head => numbered(HEAD, 0, 0, 0),
            Mode::SizeLow { kind, at } => numbered(SIZE_LOW, at, kind as u16, 0),
            Mode::SizeHigh { kind, at, low } => numbered(SIZE_HIGH, at, kind as u16, low),
            Mode::Count => numbered(COUNT, 0, 0, 0),
            Mode::CountMore { at, low } => numbered(COUNT_MORE, at, 0, low),
            Mode::Length => numbered(LENGTH, 0, 0, 0),
            Mode::LengthMore { at, low } => numbered(LENGTH_MORE, at, 0, low),
            Mode::Letters {
                from,
                left,
                more,
                low,
                high,
            } => Word {
                code: LETTERS,
                a: from,
                b: left,
                more,
                low,
                high,
            },
            Mode::BlankLow { at } => numbered(BLANK_LOW, at, 0, 0),
            Mode::BlankHigh { at, low } => numbered(BLANK_HIGH, at, 0, low),
            Mode::Opening { .. } | Mode::Between | Mode::Done => numbered(DONE, 0, 0, 0),
            Mode::Faulty { number, place } => numbered(FAULTY, number, place, 0),
        }
    }
}

impl From<Word> for Mode {
    ghost from_gives = { λ word mode. mode ≡ mode_in word };

    #[tactic(auto, using(meaning::proofs::Rules::tests), unfolding(crate::specs::Kept::mode_in, crate::specs::Kept::mode_high))]
    fn from(word: Word) -> Mode {
        let Word {
            a,
            b,
            code,
            more,
            low,
            high,
        } = word;
        match code {
            HEAD => Mode::Head,
            SIZE_LOW => Mode::SizeLow {
                kind: kind_of(b),
                at: a,
            },
            SIZE_HIGH => Mode::SizeHigh {
                kind: kind_of(b),
                at: a,
                low,
            },
            COUNT => Mode::Count,
            COUNT_MORE => Mode::CountMore { at: a, low },
            LENGTH => Mode::Length,
            LENGTH_MORE => Mode::LengthMore { at: a, low },
            LETTERS => Mode::Letters {
                from: a,
                left: b,
                more,
                low,
                high,
            },
            BLANK_LOW => Mode::BlankLow { at: a },
            BLANK_HIGH => Mode::BlankHigh { at: a, low },
            DONE => Mode::Done,
            _ => Mode::Faulty {
                number: a,
                place: b,
            },
        }
    }
}
