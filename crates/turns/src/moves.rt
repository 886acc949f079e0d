// What is done without a byte: an item is read to its end, or a payload opens.
ghost use Rattle.std.specs.Prelude.{◌≡◌, ◌≤◌, eqb};
ghost use Rattle.byte_steps.specs.Automaton.{count_due, level_of};
ghost use Rattle.turns.specs.Moves.{between_moved, blank_due, opening_moved, sized};
ghost use Rattle.meaning.specs.Rules.{◌⇒◌∣◌};
ghost use Rattle.meaning.specs.Limits.{max_levels};

use byte_steps::item_due;
use byte_steps::modes::{Items, Level, Mode};
use leaves::refusals::Fault;
use payloads::first::Kind;

// What becomes of the levels laid by: they stay; the level in hand is laid by; the one laid by last is taken up again. Rest: they stay, and the
// part is at its end.
#[derive(Clone, Copy)]
pub enum Act {
    Rest,
    Stay,
    Push,
    Pop,
}

// What a step without a byte leads to.
#[derive(Clone, Copy)]
pub struct Moved {
    pub mode: Mode,
    pub top: Level,
    pub whole: u16,
    pub deepest: u16,
    pub act: Act,
}

// 1 where a payload is about to open, which takes a level.
pub fn sized(mode: Mode) -> u16
    ensures is { result ≡ sized mode }
    ensures small { result ≤ 1 }
{
    match mode {
        Mode::SizeLow { .. } | Mode::SizeHigh { .. } | Mode::Opening { .. } => 1,
        _ => 0,
    }
}

// An item is read to its end.
#[tactic(auto, using(meaning::proofs::Rules::tests), unfolding(crate::specs::Moves::between_moved))]
pub fn between_moved(top: Level, n: u16, at: u16, whole: u16, deepest: u16) -> Moved
    ensures { result ≡ between_moved top n at whole deepest }
{
    let still = Moved {
        mode: Mode::Done,
        top,
        whole,
        deepest,
        act: Act::Stay,
    };
    if n == 0 {
        still
    } else if 0 < top.due {
        Moved {
            mode: item_due(top.items, top, at),
            top: top.with_due(top.due - 1),
            ..still
        }
    } else if at != top.stop {
        Moved {
            mode: Mode::faulty(Fault::SizeWrong, top.at),
            ..still
        }
    } else if top.items.is_plain() {
        Moved {
            mode: Mode::faulty(Fault::LongForm, top.at),
            ..still
        }
    } else {
        Moved {
            mode: Mode::Between,
            act: Act::Pop,
            ..still
        }
    }
}

// What is due where a payload with a count opens.
#[tactic(auto, using(meaning::proofs::Rules::tests), unfolding(byte_steps::specs::Automaton::count_due))]
fn count_due(stop: u16, next: u16) -> Mode
    ensures { result ≡ count_due stop next }
{
    if stop <= next {
        Mode::faulty(Fault::UNFINISHED, next)
    } else {
        Mode::Count
    }
}

// A long Variable has two bytes.
#[tactic(auto, using(meaning::proofs::Rules::tests), unfolding(crate::specs::Moves::blank_due))]
fn blank_due(from: u16, stop: u16, at: u16) -> Mode
    ensures { result ≡ blank_due from stop at }
{
    if stop as u32 == at as u32 + 2 {
        Mode::BlankLow { at: from }
    } else {
        Mode::faulty(Fault::SizeWrong, from)
    }
}

// The root's payload says how many bytes the root has.
#[tactic(auto, using(meaning::proofs::Rules::tests))]
fn whole_of(n: u16, stop: u16, whole: u16) -> u16
    ensures { result ≡ (eqb n 0 ⇒ stop ∣ λ _. whole) }
{
    if n == 0 { stop } else { whole }
}

// The payload that opens, as a level: a Function's return, or a list's items, are counted in once its count is read.
fn level_of(kind: Kind, at: u16, stop: u16) -> Level
    ensures { result ≡ level_of kind at stop }
{
    let (due, items) = match kind {
        Kind::Array => (1, Items::Plain),
        Kind::Map => (2, Items::Plain),
        Kind::Record => (0, Items::Fields),
        Kind::Function | Kind::Variable => (0, Items::Bare),
        Kind::Symbol => (0, Items::Texts),
    };
    Level {
        at,
        stop,
        due,
        items,
    }
}

// A payload opens.
#[tactic(auto, unfolding(crate::specs::Moves::opening_moved))]
pub fn opening_moved(
    kind: Kind,
    from: u16,
    stop: u16,
    top: Level,
    n: u16,
    at: u16,
    whole: u16,
    deepest: u16,
) -> Moved
    requires { n ≤ max_levels }
    ensures { result ≡ opening_moved kind from stop top n at whole deepest }
{
    let opens = Moved {
        mode: Mode::Between,
        top: level_of(kind, from, stop),
        whole: whole_of(n, stop, whole),
        deepest: deepest.max(n + 1),
        act: Act::Push,
    };
    match kind {
        Kind::Array | Kind::Map => opens,
        Kind::Record | Kind::Function | Kind::Symbol => Moved {
            mode: count_due(stop, at),
            ..opens
        },
        Kind::Variable => Moved {
            mode: blank_due(from, stop, at),
            top,
            deepest,
            act: Act::Stay,
            ..opens
        },
    }
}
