// A turn of the loop over a part's bytes: some of them are taken, or something is done without a byte. A turn goes by the mode once.
#![tactic(auto)]

pub mod moves;

ghost use Rattle.std.specs.Prelude.{◌≡◌, ◌+◌, ◌-◌, ◌<◌, ◌≤◌, length};
ghost use Rattle.byte_steps.specs.Automaton.{with_due};
ghost use Rattle.turns.specs.Moves.{sized};
ghost use Rattle.turns.specs.Leads.{Leads, counted_to, rested, run_from, stayed, turned, waited};
ghost use Rattle.meaning.specs.Limits.{max_bytes, max_levels};
ghost use Rattle.byte_steps.specs.declared.modes.Mode.TheVariants.{Head, Length, Letters};

use byte_steps::modes::{BYTES, Level, Mode};
use byte_steps::{
    Took, after_child, blank_taken, char_taken, count_more, count_taken, first_taken, length_more,
    length_taken, size_taken, text_done, text_taken,
};
use items::{Run, items_run, shape_item, window_end};
use moves::{Act, Moved, between_moved, opening_moved};

// What a turn leads to: what the reader is in the middle of then, the place of the next byte, the farthest fault that a walk has met, and what becomes
// of the levels laid by.
#[derive(Clone, Copy)]
pub struct Turned {
    pub mode: Mode,
    pub top: Level,
    pub count: u16,
    pub whole: u16,
    pub deepest: u16,
    pub i: usize,
    pub fault: usize,
    pub act: Act,
}

impl Turned {
    // What a byte led to.
    fn took(self, took: Took) -> Turned
        ensures { result ≡ turned took.mode took.top self.count self.whole took.deepest self.i self.fault self.act }
    {
        Turned {
            mode: took.mode,
            top: took.top,
            deepest: took.deepest,
            ..self
        }
    }

    // What was done without a byte.
    fn moved(self, moved: Moved) -> Turned
        ensures { result ≡ turned moved.mode moved.top self.count moved.whole moved.deepest self.i self.fault moved.act }
    {
        Turned {
            mode: moved.mode,
            top: moved.top,
            whole: moved.whole,
            deepest: moved.deepest,
            act: moved.act,
            ..self
        }
    }

    // No item of the list in hand is taken yet.
    fn run(self) -> Run
        ensures { result ≡ run_from self.i self.top.due self.deepest self.fault }
    {
        Run {
            i: self.i,
            due: self.top.due,
            deepest: self.deepest,
            fault: self.fault,
        }
    }

    // Items of a list that were taken one after the other.
    fn ran(self, mode: Mode, run: Run) -> Turned
        requires { (self.i ≤ run.i) × (self.count + (run.i - self.i) ≤ max_bytes) }
        ensures { result ≡ stayed mode (with_due self.top run.due) (self.count + (run.i - self.i)) self.whole run.deepest run.i run.fault }
    {
        Turned {
            mode,
            top: self.top.with_due(run.due),
            count: self.count + (run.i - self.i) as u16,
            deepest: run.deepest,
            i: run.i,
            fault: run.fault,
            act: Act::Stay,
            ..self
        }
    }

    // The part is at its end, with so many bytes counted.
    fn rest(self, count: u16, i: usize) -> Turned
        ensures { result ≡ rested self.mode self.top count self.whole self.deepest i }
    {
        Turned {
            count,
            i,
            fault: 0,
            act: Act::Rest,
            ..self
        }
    }
}

// So many bytes more, counted up to one over the limit.
#[tactic(auto, using(meaning::proofs::Rules::tests))]
fn count_on(count: u16, more: usize) -> u16
    requires { count ≤ max_bytes }
    ensures { result ≡ counted_to count more }
{
    let room = (BYTES - count) as usize;
    if room < more {
        return BYTES + 1;
    }
    count + more as u16
}

// Nothing is read any more: the bytes left are counted, since an input that is too long is refused for that, whatever else is wrong in it.
fn skipped(s: &[u8], t: Turned) -> Turned
    requires { (t.i ≤ length s.now) × (t.count ≤ max_bytes) }
    ensures { result ≡ rested t.mode t.top (counted_to t.count (length s.now - t.i)) t.whole t.deepest (length s.now) }
{
    t.rest(count_on(t.count, s.len() - t.i), s.len())
}

// A shape is due: those of a list that lie whole in the part, but for the last; one that does; or a first byte.
fn shape_turn(s: &[u8], t: Turned, n: u16) -> Turned
    requires { (t.i < length s.now) × (t.count < max_bytes) × (n ≤ max_levels) }
    ensures { Leads s.now t.i Head t.top n t.count t.whole t.deepest result }
{
    let mut fault = t.fault;
    if 0 < n {
        if t.top.items.is_bare() {
            let end = window_end(s, t.i, t.top, t.count, t.fault);
            let run = items_run(&s[..end], t.top.items, n, t.run());
            if t.i < run.i {
                return t.ran(Mode::Head, run);
            }
            fault = run.fault;
        }
        let end = window_end(s, t.i, t.top, t.count, fault);
        match shape_item(&s[..end], t.i, n, t.deepest) {
            Err(cut) => {
                fault = fault.max(cut.fault);
            }
            Ok(item) => {
                return Turned {
                    mode: Mode::Between,
                    top: after_child(t.top, s[t.i]),
                    count: t.count + (item.next - t.i) as u16,
                    deepest: item.deepest,
                    i: item.next,
                    fault,
                    act: Act::Stay,
                    ..t
                };
            }
        }
    }
    let next = Turned {
        count: t.count + 1,
        i: t.i + 1,
        fault,
        act: Act::Stay,
        ..t
    };
    next.took(first_taken(t.top, n, t.deepest, t.count, s[t.i]))
}

// An item with a text is due: those that lie whole in the part, but for the last; or a length's first byte.
fn text_turn(s: &[u8], t: Turned, n: u16) -> Turned
    requires { (t.i < length s.now) × (t.count < max_bytes) × (n ≤ max_levels) }
    ensures { Leads s.now t.i Length t.top n t.count t.whole t.deepest result }
{
    let mut fault = t.fault;
    if 0 < n && t.top.items.is_named() {
        let end = window_end(s, t.i, t.top, t.count, t.fault);
        let run = items_run(&s[..end], t.top.items, n, t.run());
        if t.i < run.i {
            return t.ran(Mode::Length, run);
        }
        fault = run.fault;
    }
    Turned {
        mode: length_taken(t.top, t.count, s[t.i]),
        count: t.count + 1,
        i: t.i + 1,
        fault,
        act: Act::Stay,
        ..t
    }
}

// A text goes on: between two characters as far as it is well formed, or by a byte.
fn letters_turn(
    s: &[u8],
    from: u16,
    left: u16,
    more: u8,
    low: u8,
    high: u8,
    t: Turned,
    n: u16,
) -> Turned
    requires { (t.i < length s.now) × (t.count < max_bytes) × (n ≤ max_levels) }
    ensures { Leads s.now t.i (Letters from left more low high) t.top n t.count t.whole t.deepest result }
{
    if more == 0 {
        let room = (BYTES - t.count).min(left) as usize;
        let to = leaves::well_formed_to(&s[..t.i + room.min(s.len() - t.i)], t.i);
        if t.i < to {
            let size = (to - t.i) as u16;
            let mode = if left <= size {
                text_done(t.top.items, t.top, t.count + size)
            } else {
                Mode::Letters {
                    from,
                    left: left - size,
                    more: 0,
                    low: 0,
                    high: 0,
                }
            };
            return Turned {
                mode,
                count: t.count + size,
                i: to,
                act: Act::Stay,
                ..t
            };
        }
    }
    let char = char_taken(more, low, high, s[t.i]);
    Turned {
        mode: text_taken(t.top, from, left, t.count + 1, char),
        count: t.count + 1,
        i: t.i + 1,
        act: Act::Stay,
        ..t
    }
}

// A byte is there, and the input is not too long: at least the byte is taken, or what comes before it is done.
fn byte_turn(s: &[u8], t: Turned, n: u16) -> Turned
    requires { (t.i < length s.now) × (t.count < max_bytes) × (n + sized t.mode ≤ max_levels) }
    ensures { Leads s.now t.i t.mode t.top n t.count t.whole t.deepest result }
{
    let b = s[t.i];
    let next = Turned {
        count: t.count + 1,
        i: t.i + 1,
        act: Act::Stay,
        ..t
    };
    match t.mode {
        Mode::Head => shape_turn(s, t, n),
        Mode::SizeLow { kind, at } => Turned {
            mode: Mode::SizeHigh { kind, at, low: b },
            ..next
        },
        Mode::SizeHigh { kind, at, low } => Turned {
            mode: size_taken(t.top, kind, at, next.count, low, b),
            ..next
        },
        Mode::Count => next.took(count_taken(t.top, t.deepest, t.count, b)),
        Mode::CountMore { at, low } => next.took(count_more(t.top, t.deepest, at, low, b)),
        Mode::Length => text_turn(s, t, n),
        Mode::LengthMore { at, low } => Turned {
            mode: length_more(t.top, at, low, next.count, b),
            ..next
        },
        Mode::Letters {
            from,
            left,
            more,
            low,
            high,
        } => letters_turn(s, from, left, more, low, high, t, n),
        Mode::BlankLow { at } => Turned {
            mode: Mode::BlankHigh { at, low: b },
            ..next
        },
        Mode::BlankHigh { at, low } => Turned {
            mode: blank_taken(at, low, b),
            deepest: t.deepest.max(n + 1),
            ..next
        },
        Mode::Opening { kind, at, stop } => {
            t.moved(opening_moved(kind, at, stop, t.top, n, t.count, t.whole, t.deepest))
        }
        Mode::Between => t.moved(between_moved(t.top, n, t.count, t.whole, t.deepest)),
        Mode::Done | Mode::Faulty { .. } => skipped(s, t),
    }
}

// Where a byte would have to come: the part is at its end, or one byte more is one too many.
#[tactic(auto, using(meaning::proofs::Rules::tests))]
fn waits(s: &[u8], t: Turned) -> Turned
    ensures { result ≡ waited (length s.now) t.mode t.top t.count t.whole t.deepest t.i }
{
    if s.len() <= t.i {
        t.rest(t.count, t.i)
    } else {
        t.rest(BYTES + 1, s.len())
    }
}

// No byte can be taken: what is left to be done without one, or the end.
fn last_turn(s: &[u8], t: Turned, n: u16) -> Turned
    requires { (t.i ≤ length s.now) × (t.i < length s.now → max_bytes ≤ t.count) × (n + sized t.mode ≤ max_levels) }
    ensures { Leads s.now t.i t.mode t.top n t.count t.whole t.deepest result }
{
    match t.mode {
        Mode::Opening { kind, at, stop } => {
            t.moved(opening_moved(kind, at, stop, t.top, n, t.count, t.whole, t.deepest))
        }
        Mode::Between => t.moved(between_moved(t.top, n, t.count, t.whole, t.deepest)),
        _ => waits(s, t),
    }
}

// What the reader is in the middle of where a part begins.
pub fn begun(mode: Mode, top: Level, count: u16, whole: u16, deepest: u16) -> Turned
    ensures { result ≡ stayed mode top count whole deepest 0 0 }
{
    Turned {
        mode,
        top,
        count,
        whole,
        deepest,
        i: 0,
        fault: 0,
        act: Act::Stay,
    }
}

// A turn, whatever the reader is in the middle of.
pub fn turn(s: &[u8], t: Turned, n: u16) -> Turned
    requires { (t.i ≤ length s.now) × (n + sized t.mode ≤ max_levels) }
    ensures { Leads s.now t.i t.mode t.top n t.count t.whole t.deepest result }
{
    if t.i < s.len() && t.count < BYTES {
        byte_turn(s, t, n)
    } else {
        last_turn(s, t, n)
    }
}
