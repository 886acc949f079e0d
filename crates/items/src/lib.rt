// What lies whole in a part: its items are taken at once, by the whole reader's own walk. Only what a part's end cuts is read byte by byte.
#![tactic(auto)]

ghost use Rattle.std.specs.Prelude.{◌-◌, ◌<◌, ◌≡◌, ◌≤◌, length};
ghost use Rattle.items.specs.Fed.{ItemFed, RunFed, ShapeFed, WindowEnd, run_past};
ghost use Rattle.meaning.specs.Limits.{max_bytes, max_levels};
ghost use Rattle.byte_steps.specs.declared.modes.Items.TheVariants.{Bare, Fields, Texts};

use byte_steps::modes::{BYTES, Items, LEVELS, Level};
use leaves::refusals::Refusal;
use payloads::first::First;

// An item that lies whole in a window: the place after it, and how deep the deepest shape is then.
#[derive(Clone, Copy)]
pub struct Item {
    pub next: usize,
    pub deepest: u16,
}

// An item that does not, or something is wrong in it: the walk has met that at a place.
#[derive(Clone, Copy)]
pub struct Cut {
    pub fault: usize,
}

impl From<Refusal> for Cut {
    ghost from_gives = { λ refusal cut. cut.fault ≡ refusal.place };

    fn from(refusal: Refusal) -> Cut {
        Cut {
            fault: refusal.place,
        }
    }
}

// A shape with a payload.
fn long_item(w: &[u8], at: usize, n: u16, deepest: u16) -> Result<Item, Cut>
    requires { (0 < n) × (n ≤ max_levels) }
    ensures { ShapeFed w.now (length w.now) at n deepest result }
{
    let shape = reader::shape_at(w, at, (LEVELS - n) as usize)?;
    Ok(Item {
        next: shape.next,
        deepest: deepest.max(n + shape.depth as u16),
    })
}

// A shape of a list at a level: most have one byte, and are taken without a call.
pub fn shape_item(w: &[u8], at: usize, n: u16, deepest: u16) -> Result<Item, Cut>
    requires { (0 < n) × (n ≤ max_levels) }
    ensures { ShapeFed w.now (length w.now) at n deepest result }
{
    let cut = Err(Cut { fault: at });
    if w.len() <= at {
        return cut;
    }
    match First::from(w[at]) {
        First::Unassigned => cut,
        First::Short { levels } => {
            let deep = n + levels as u16;
            if LEVELS < deep {
                return cut;
            }
            Ok(Item {
                next: at + 1,
                deepest: deepest.max(deep),
            })
        }
        First::Long { .. } => long_item(w, at, n, deepest),
    }
}

// A field: its name and its shape.
fn field_item(w: &[u8], at: usize, n: u16, deepest: u16) -> Result<Item, Cut>
    requires { (0 < n) × (n ≤ max_levels) }
    ensures { ItemFed Fields w.now (length w.now) at n deepest result }
{
    let name = payloads::text_at(w, at)?;
    shape_item(w, name.next, n, deepest)
}

// A Symbol's text.
fn text_item(w: &[u8], at: usize, n: u16, deepest: u16) -> Result<Item, Cut>
    requires { 0 < n }
    ensures { ItemFed Texts w.now (length w.now) at n deepest result }
{
    let text = payloads::text_at(w, at)?;
    Ok(Item {
        next: text.next,
        deepest,
    })
}

// An item of a list that has no short form.
fn item_at(w: &[u8], at: usize, items: Items, n: u16, deepest: u16) -> Result<Item, Cut>
    requires { (0 < n) × (n ≤ max_levels) }
    ensures { ItemFed items w.now (length w.now) at n deepest result }
{
    match items {
        Items::Plain => Err(Cut { fault: at }),
        Items::Bare => shape_item(w, at, n, deepest),
        Items::Fields => field_item(w, at, n, deepest),
        Items::Texts => text_item(w, at, n, deepest),
    }
}

// Items taken one after the other: where the next stands, how many are due after it, how deep the deepest shape is, and the farthest fault that a walk
// has met, 0 before any: the farthest of two is the larger.
#[derive(Clone, Copy)]
pub struct Run {
    pub i: usize,
    pub due: u16,
    pub deepest: u16,
    pub fault: usize,
}

impl Run {
    // After items of one byte up to a place.
    fn past(self, i: usize, deepest: u16) -> Run
        requires { (self.i ≤ i) × (i - self.i ≤ self.due) }
        ensures { result ≡ run_past self i deepest }
    {
        Run {
            i,
            due: self.due - (i - self.i) as u16,
            deepest,
            ..self
        }
    }
}

// The shapes of one byte at the front of a list of shapes, each with another byte after it in the window. None has more than two levels, so where two
// are left none is too deep, and the loop does not ask how deep each is. Nearer to the last level none is taken here.
// A turn keeps its place and the deepest alone, and `deep` stands first at `max`, which compiles to one move less.
fn shorts_run(w: &[u8], n: u16, run: Run) -> Run
    requires { (0 < n) × (n ≤ max_levels) }
    ensures { RunFed Bare w.now (length w.now) run.i n run.due run.deepest result }
{
    if w.len() <= run.i || LEVELS < n + 2 {
        return run;
    }
    let stop = run.i + (run.due as usize).min(w.len() - run.i - 1);
    let mut deepest = run.deepest;
    for i in run.i..stop {
        let First::Short { levels } = First::from(w[i]) else {
            return run.past(i, deepest);
        };
        let deep = n + levels as u16;
        deepest = deep.max(deepest);
    }
    run.past(stop, deepest)
}

// The items of a list from a place on that lie whole in a window, each with another after it there. Shapes of one byte at the front of a list of shapes
// are taken first.
pub fn items_run(w: &[u8], items: Items, n: u16, from: Run) -> Run
    requires { (0 < n) × (n ≤ max_levels) }
    ensures { RunFed items w.now (length w.now) from.i n from.due from.deepest result }
{
    let mut run = front_run(w, items, n, from);
    for due in (0..run.due).rev() {
        match item_at(w, run.i, items, n, run.deepest) {
            Err(cut) => {
                run.fault = run.fault.max(cut.fault);
                return run;
            }
            Ok(item) => {
                if w.len() <= item.next {
                    return run;
                }
                run.due = due;
                run.i = item.next;
                run.deepest = item.deepest;
            }
        }
    }
    run
}

// Where the items of a list are taken from: after the shapes of one byte at its front, where its items are shapes alone; else from the place itself.
fn front_run(w: &[u8], items: Items, n: u16, from: Run) -> Run
    requires { (0 < n) × (n ≤ max_levels) }
    ensures { RunFed items w.now (length w.now) from.i n from.due from.deepest result }
{
    if items.is_bare() {
        shorts_run(w, n, from)
    } else {
        from
    }
}

// Where a window of a part's bytes from a place on ends: with the payload in hand, with the part, with the longest input, or with a fault ahead that a
// walk has met. A shape round that fault is then refused at its head, and is not walked once more for each level that is round it.
pub fn window_end(s: &[u8], i: usize, top: Level, count: u16, fault: usize) -> usize
    requires { (i ≤ length s.now) × (count < max_bytes) }
    ensures { WindowEnd (length s.now) i top.stop count result }
{
    if top.stop <= count {
        return i;
    }
    let room = (top.stop - count).min(BYTES - count) as usize;
    let end = i + room.min(s.len() - i);
    if i < fault { end.min(fault) } else { end }
}
