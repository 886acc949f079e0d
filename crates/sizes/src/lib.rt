// What a shape measures once its blanks are filled (01-scope.md, "Sheets"): found by one pass over the accepted bytes, before anything is written.
#![tactic(auto)]

ghost use Rattle.std.specs.Prelude.{◌≡◌, false, ◌≤◌, ◌<◌, ◌+◌, length};
ghost use Rattle.meaning.specs.Limits.{max_bytes, max_levels};
ghost use Rattle.meaning.specs.Shape.{blank};
ghost use Rattle.meaning.specs.Reading.{reading};
ghost use Rattle.payloads.specs.declared.first.First.TheVariants.{Long};
ghost use Rattle.payloads.specs.Payload.{shaped};
ghost use Rattle.steps.specs.Steps.{first_at};
ghost use Rattle.steps.specs.Pass.{came, pass_items, pass_shape};
ghost use Rattle.sheets.specs.Index.{blank_in};
ghost use Rattle.sizes.specs.Sizes.{size, size_of, prim_in, SizeInside, short_size, sum_item, packs, list_size, sizes, sized_said, SizedInside, summed_said, SummedInside, MeasureIs};

use leaves::limits::MAX_LEVELS;
use payloads::first::{First, Kind, PAST_PRIMITIVES, PRIMITIVES, SHORT_BLANKS};
use sheets::Sheet;
use steps::{HEAD_SIZE, LONG_BLANK};

// The length and the depth of a shape, and whether it is a primitive: beside them and no Option, since a short blank has the same two and is none.
#[derive(Clone, Copy)]
pub struct Size {
    pub length: usize,
    pub depth: usize,
    pub prim: bool,
}

// A shape's size, and the place after it in the template.
#[derive(Clone, Copy)]
pub struct Sized {
    pub next: usize,
    pub size: Size,
}

// The items of a list so far: their bytes, the depth of the deepest, and whether all are primitives, which a list asks for at its end.
#[derive(Clone, Copy)]
pub struct Sum {
    pub length: usize,
    pub depth: usize,
    pub prims: bool,
}

// What the items of a list are together, and the place after them in the template.
#[derive(Clone, Copy)]
pub struct Summed {
    pub next: usize,
    pub sum: Sum,
}

// Whether an encoding is a primitive's.
#[tactic(auto, using(meaning::proofs::Rules::tests), unfolding(crate::specs::Sizes::prim_in))]
fn prim_in(bytes: &[u8]) -> bool
    ensures { result ≡ prim_in bytes.now }
{
    matches!(bytes, [PRIMITIVES..PAST_PRIMITIVES])
}

// The size of a blank that the sheet does not name: it stays.
#[tactic(auto, using(meaning::proofs::Rules::tests), unfolding(meaning::specs::Encode::encode, meaning::specs::Encode::blank_bytes, meaning::specs::Encode::as_prim, meaning::specs::Shape::depth))]
fn stays_size(n: usize) -> Size
    ensures { result ≡ size_of (blank n) }
{
    Size {
        length: if n < SHORT_BLANKS as usize {
            1
        } else {
            LONG_BLANK
        },
        depth: 1,
        prim: false,
    }
}

// The size of what becomes of the blank n.
fn blank_size(sheet: &Sheet, n: usize) -> Size
    ensures is { result ≡ size_of (blank_in sheet.now.bytes.now n) }
    ensures inside { SizeInside result }
{
    match sheet.get(n) {
        None => stays_size(n),
        Some(part) => Size {
            length: part.end - part.start,
            depth: part.depth,
            prim: prim_in(&sheet.bytes[part.start..part.end]),
        },
    }
}

// The size of a shape of one byte.
fn short_size(sheet: &Sheet, b: u8, levels: usize) -> Size
    requires { levels ≤ 2 }
    ensures is { result ≡ short_size (blank_in sheet.now.bytes.now) b levels }
    ensures inside { SizeInside result }
{
    if b < SHORT_BLANKS {
        return blank_size(sheet, b as usize);
    }
    Size {
        length: 1,
        depth: levels,
        prim: levels == 1,
    }
}

// The items with one more, whose name has so many bytes.
fn with_item(sum: Sum, name: usize, size: Size) -> Sum
    requires { sum.length + name + size.length < 4294967296 }
    ensures { result ≡ sum_item sum name size }
{
    Sum {
        length: sum.length + name + size.length,
        depth: sum.depth.max(size.depth),
        prims: sum.prims && size.prim,
    }
}

// Whether a list of a kind has a form of one byte, where its items are all primitives.
fn packs_kind(kind: Kind) -> bool
    ensures { result ≡ packs kind }
{
    matches!(kind, Kind::Array | Kind::Map)
}

// The size of a list whose head and count have so many bytes.
fn list_size(kind: Kind, front: usize, sum: Sum) -> Size
    requires { (front + sum.length < 4294967296) × (sum.depth < 4294967296) }
    ensures { result ≡ list_size kind front sum }
{
    if packs_kind(kind) && sum.prims {
        return Size {
            length: 1,
            depth: 2,
            prim: false,
        };
    }
    Size {
        length: front + sum.length,
        depth: sum.depth + 1,
        prim: false,
    }
}

// No shape stands at a place.
fn nothing(at: usize) -> Sized
    ensures { sized_said result ≡ came at (size 0 0 false) }
{
    Sized {
        next: at,
        size: Size {
            length: 0,
            depth: 0,
            prim: false,
        },
    }
}

// A shape with a payload that is no list of shapes: a Symbol stays as it is, a Variable is a blank.
fn plain_size(s: &[u8], sheet: &Sheet, at: usize, left: usize, kind: Kind) -> Sized
    requires { (at < length s.now) × (first_at s.now at ≡ Long kind) × (shaped kind ≡ false) }
    ensures is { sized_said result ≡ pass_shape (sizes (blank_in sheet.now.bytes.now)) left s.now at }
    ensures inside { SizedInside left s.now at result }
{
    if kind.is_named() {
        let next = steps::past_long(s, at);
        return Sized {
            next,
            size: Size {
                length: next - at,
                depth: 1,
                prim: false,
            },
        };
    }
    if s.len() - at < LONG_BLANK {
        return nothing(at);
    }
    Sized {
        next: at + LONG_BLANK,
        size: blank_size(sheet, leaves::two_at(s, at + HEAD_SIZE)),
    }
}

// A shape with a payload, whose first byte is read.
#[cycle(items_size_shape_size)]
fn shape_size(s: &[u8], sheet: &Sheet, at: usize, left: usize, kind: Kind) -> Sized
    requires { (length s.now ≤ max_bytes) × (at < length s.now) × (left ≤ max_levels) × (first_at s.now at ≡ Long kind) }
    ensures is { sized_said result ≡ pass_shape (sizes (blank_in sheet.now.bytes.now)) left s.now at }
    ensures inside { SizedInside left s.now at result }
{
    if kind.is_shaped() {
        if left == 0 || s.len() - at < HEAD_SIZE {
            return nothing(at);
        }
        let list = steps::list_at(s, at + HEAD_SIZE, kind);
        let from = list.from;
        let all = items_size(s, sheet, from, left - 1, kind, list.count);
        return Sized {
            next: all.next,
            size: list_size(kind, from - at, all.sum),
        };
    }
    plain_size(s, sheet, at, left, kind)
}

// The items of a list. The pair of levels left and items left falls, as the reader's does; a shape of one byte is taken without a call.
#[cycle(items_size_shape_size)]
fn items_size(s: &[u8], sheet: &Sheet, from: usize, left: usize, kind: Kind, count: usize) -> Summed
    requires { (length s.now ≤ max_bytes) × (from ≤ length s.now) × (left ≤ max_levels) × (count ≤ 16384) }
    ensures is { summed_said result ≡ pass_items (sizes (blank_in sheet.now.bytes.now)) (pass_shape (sizes (blank_in sheet.now.bytes.now)) left) kind count s.now from (sizes (blank_in sheet.now.bytes.now)).start }
    ensures inside { SummedInside left s.now from result }
{
    let mut at = from;
    let mut sum = Sum {
        length: 0,
        depth: 0,
        prims: true,
    };
    for _ in 0..count {
        let start = steps::past_name(s, at, kind);
        let name = start - at;
        match steps::first_at(s, start) {
            First::Unassigned => {
                at = start;
                sum = with_item(sum, name, nothing(start).size);
            }
            First::Short { levels } => {
                at = start + 1;
                sum = with_item(sum, name, short_size(sheet, s[start], levels));
            }
            First::Long { kind: inner } => {
                let part = shape_size(s, sheet, start, left, inner);
                at = part.next;
                sum = with_item(sum, name, part.size);
            }
        }
    }
    Summed { next: at, sum }
}

// The size of an accepted template, its blanks filled by an accepted sheet.
pub fn measure(template: &[u8], sheet: &Sheet) -> Size
    requires { length template.now ≤ max_bytes }
    ensures { MeasureIs (blank_in sheet.now.bytes.now) (reading template.now) result }
{
    match steps::first_at(template, 0) {
        First::Unassigned => nothing(0).size,
        First::Short { levels } => short_size(sheet, template[0], levels),
        First::Long { kind } => shape_size(template, sheet, 0, MAX_LEVELS, kind).size,
    }
}
