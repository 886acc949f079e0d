// The reader of encoded shapes: judges any bytes, in place, by one walk from the left.
#![tactic(auto)]

ghost use Rattle.std.specs.Prelude.{◌≡◌, ◌≤◌, ◌+◌, length, Ok};
ghost use Rattle.meaning.specs.Limits.{max_levels};
ghost use Rattle.meaning.specs.Reading.{reading};
ghost use Rattle.reader.specs.Said.{said};
ghost use Rattle.reader.specs.declared.Head.TheVariants.{More};
ghost use Rattle.reader.specs.Walk.{closing, walk_items, walk_shape, depths, told, WalkedInside, HeadIs};

use leaves::limits::{MAX_BYTES, MAX_LEVELS};
use leaves::refusals::{Fault, Refusal};
use payloads::first::{First, Kind};

// An accepted encoding: its length, and how deep its shape is.
#[derive(Clone, Copy)]
pub struct Accepted {
    pub length: usize,
    pub depth: usize,
}

// What the walk over a shape or a list of items finds: the place after it, and its depth.
#[derive(Clone, Copy)]
pub struct Walked {
    pub next: usize,
    pub depth: usize,
}

// The end of a payload, its window's, whose items came to next.
#[tactic(auto, using(meaning::proofs::Rules::tests, crate::proofs::Steps::walking), unfolding(crate::specs::Walk::closing))]
fn closing_at(w: &[u8], at: usize, kind: Kind, items: Walked) -> Result<Walked, Refusal>
    requires { (at + 3 ≤ length w.now) × (items.depth ≤ max_levels) }
    ensures is { told result ≡ closing depths w.now at (length w.now) kind items.next items.depth }
    ensures inside { WalkedInside (items.depth + 1) result }
{
    if items.next != w.len() {
        return Err(Refusal {
            fault: Fault::SizeWrong,
            place: at,
        });
    }
    if payloads::short_form_of(w, at + 3, kind) {
        return Err(Refusal {
            fault: Fault::LongForm,
            place: at,
        });
    }
    Ok(Walked {
        next: items.next,
        depth: items.depth + 1,
    })
}

// What the head of a shape says: a shape of one byte with its depth, or a kind with a payload.
#[derive(Clone, Copy)]
pub enum Head {
    One { depth: usize },
    More { kind: Kind },
}

// The head of the shape at a place of a window, with so many levels left, the shape's own among them.
#[tactic(auto, using(meaning::proofs::Rules::tests, crate::proofs::Steps::walking), unfolding(crate::specs::Walk::shape_with, crate::specs::Walk::by_first))]
fn head_at(w: &[u8], at: usize, left: usize) -> Result<Head, Refusal>
    ensures { HeadIs left w.now (length w.now) at result }
{
    if w.len() <= at {
        return Err(Refusal {
            fault: Fault::CutShort,
            place: at,
        });
    }
    let too_deep = Err(Refusal {
        fault: Fault::TooDeep,
        place: at,
    });
    match First::from(w[at]) {
        First::Unassigned => Err(Refusal {
            fault: Fault::NotAssigned,
            place: at,
        }),
        First::Short { levels } => {
            if left < levels {
                too_deep
            } else {
                Ok(Head::One { depth: levels })
            }
        }
        First::Long { kind } => {
            if left == 0 {
                too_deep
            } else {
                Ok(Head::More { kind })
            }
        }
    }
}

// A shape with a payload, whose head is read: its opening, its items and its end.
#[cycle(items_shape)]
fn shape(w: &[u8], at: usize, left: usize, kind: Kind) -> Result<Walked, Refusal>
    requires { (left ≤ max_levels) × HeadIs left w.now (length w.now) at (Ok (More kind)) }
    ensures is { told result ≡ walk_shape depths left w.now (length w.now) at }
    ensures inside { WalkedInside left result }
{
    let list = payloads::opening_at(w, at, kind)?;
    let payload = &w[..list.stop];
    let all = items(payload, list.from, left - 1, kind, list.count)?;
    closing_at(payload, at, kind, all)
}

// A list that is read in part: where the next item stands, how many are due, and how deep those before are.
#[derive(Clone, Copy)]
pub struct Run {
    pub at: usize,
    pub due: usize,
    pub deep: usize,
}

// A payload's list after the shapes of one byte at its front, where its items are shapes alone; else as it is. By hand: the loop leaves with what is
// left of the list, and as a `for` it took twice as long where it fell badly (docs/LOOK-BACK.md).
fn run_of(w: &[u8], from: usize, left: usize, kind: Kind, count: usize) -> Run
    ensures is { walk_items depths (walk_shape depths left) kind count w.now (length w.now) from 0 ≡ walk_items depths (walk_shape depths left) kind result.due w.now (length w.now) result.at result.deep }
    ensures inside { (result.due ≤ count) × (result.deep ≤ left) }
{
    let mut run = Run {
        at: from,
        due: count,
        deep: 0,
    };
    if kind.is_named() || !kind.is_shaped() {
        return run;
    }
    while 0 < run.due {
        let Ok(Head::One { depth }) = head_at(w, run.at, left) else {
            return run;
        };
        run.due -= 1;
        run.at += 1;
        run.deep = run.deep.max(depth);
    }
    run
}

// The items of a payload's list. The pair of levels left and items left falls: a shape here has these levels and no items left, and each turn
// leaves one item less. A shape of one byte is taken without a call.
#[cycle(items_shape)]
#[tactic(auto, using(crate::proofs::Steps::taking))]
fn items(w: &[u8], from: usize, left: usize, kind: Kind, count: usize) -> Result<Walked, Refusal>
    requires { left ≤ max_levels }
    ensures is { told result ≡ walk_items depths (walk_shape depths left) kind count w.now (length w.now) from 0 }
    ensures inside { WalkedInside left result }
{
    let front = run_of(w, from, left, kind, count);
    let mut at = front.at;
    let mut deep = front.deep;
    // The pair is this loop's measure too, as it is the cycle's (proofs/+items_shape/Invariants.antt, docs/DECISIONS.md).
    for _ in 0..front.due {
        at = payloads::label_at(w, at, kind)?.next;
        if kind.is_shaped() {
            match head_at(w, at, left)? {
                Head::One { depth } => {
                    at += 1;
                    deep = deep.max(depth);
                }
                Head::More { kind: inner } => {
                    let part = shape(w, at, left, inner)?;
                    at = part.next;
                    deep = deep.max(part.depth);
                }
            }
        }
    }
    Ok(Walked {
        next: at,
        depth: deep,
    })
}

// A shape at a place, whatever its head says.
pub fn shape_at(w: &[u8], at: usize, left: usize) -> Result<Walked, Refusal>
    requires { left ≤ max_levels }
    ensures is { told result ≡ walk_shape depths left w.now (length w.now) at }
    ensures inside { WalkedInside left result }
{
    match head_at(w, at, left)? {
        Head::One { depth } => Ok(Walked {
            next: at + 1,
            depth,
        }),
        Head::More { kind } => shape(w, at, left, kind),
    }
}

// Judges an encoding, whatever the bytes are.
pub fn read(bytes: &[u8]) -> Result<Accepted, Refusal>
    ensures { result ≡ said (reading bytes.now) }
{
    if MAX_BYTES < bytes.len() {
        return Err(Refusal {
            fault: Fault::InputTooLong,
            place: MAX_BYTES,
        });
    }
    let root = shape_at(bytes, 0, MAX_LEVELS)?;
    if root.next != bytes.len() {
        return Err(Refusal {
            fault: Fault::SizeWrong,
            place: root.next,
        });
    }
    Ok(Accepted {
        length: root.next,
        depth: root.depth,
    })
}
