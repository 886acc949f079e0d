// Writes a filled shape into a lent buffer (01-scope.md, "Sheets") by one pass over the accepted bytes. It is measured before, so it is known to
// fit. A payload is written before its head, which says how long it is; what becomes one byte is found out before anything of it is written.
#![tactic(auto)]

ghost use Rattle.std.specs.Prelude.{◌≡◌, false, ◌∷◌, [], ◌≤◌, ◌<◌, ◌+◌, length};
ghost use Rattle.meaning.specs.Limits.{max_levels};
ghost use Rattle.meaning.specs.Encode.{encode};
ghost use Rattle.meaning.specs.Reading.{reading};
ghost use Rattle.buffers.specs.Written.{written};
ghost use Rattle.payloads.specs.declared.first.First.TheVariants.{Long};
ghost use Rattle.payloads.specs.Payload.{shaped};
ghost use Rattle.steps.specs.Steps.{first_at};
ghost use Rattle.steps.specs.Pass.{pass_items, pass_shape};
ghost use Rattle.sheets.specs.Index.{blank_in};
ghost use Rattle.writes.specs.Writes.{prim_code, PeekIs, PackedIs, short_bytes, writes, Fits, Wrote, FitsItems, WroteItems, RoomFor, WroteFor};

use buffers::{put_byte, put_bytes};
use leaves::limits::MAX_LEVELS;
use payloads::first::{
    First, Kind, PACKED, PACKED_MAPS, PAST_PRIMITIVES, PRIMITIVES, SHORT_BLANKS,
};
use sheets::Sheet;
use steps::put::{put_blank, put_head};
use steps::{HEAD_SIZE, LONG_BLANK};

// The next place of the template, and of the buffer.
#[derive(Clone, Copy)]
pub struct Places {
    pub next: usize,
    pub to: usize,
}

// What becomes of the blank n: the sheet's encoding, or the blank itself. The place after it.
fn put_filled(sheet: &Sheet, n: usize, out: &mut [u8], to: usize) -> usize
    requires { (n < 65536) × (to + length (encode (blank_in sheet.now.bytes.now n)) ≤ length out.old) }
    ensures after { result ≡ to + length (encode (blank_in sheet.now.bytes.now n)) }
    ensures wrote { out.new ≡ written out.old to (encode (blank_in sheet.now.bytes.now n)) }
{
    match sheet.get(n) {
        None => put_blank(n, out, to),
        Some(part) => {
            put_bytes(out, to, &sheet.bytes[part.start..part.end]);
            to + (part.end - part.start)
        }
    }
}

// A shape of one byte. The place after it.
fn put_short(sheet: &Sheet, b: u8, out: &mut [u8], to: usize) -> usize
    requires { to + length (short_bytes (blank_in sheet.now.bytes.now) b) ≤ length out.old }
    ensures after { result ≡ to + length (short_bytes (blank_in sheet.now.bytes.now) b) }
    ensures wrote { out.new ≡ written out.old to (short_bytes (blank_in sheet.now.bytes.now) b) }
{
    if b < SHORT_BLANKS {
        return put_filled(sheet, b as usize, out, to);
    }
    put_byte(out, to, b);
    to + 1
}

// The number of the primitive whose encoding is this byte.
fn prim_of(b: u8) -> Option<u8>
    ensures { result ≡ prim_code (b ∷ []) }
{
    match b {
        PRIMITIVES..PAST_PRIMITIVES => Some(b - PRIMITIVES),
        _ => None,
    }
}

// The number of the primitive that the blank n becomes.
fn blank_prim(sheet: &Sheet, n: usize) -> Option<u8>
    ensures { result ≡ prim_code (encode (blank_in sheet.now.bytes.now n)) }
{
    let part = sheet.get(n)?;
    if part.end - part.start == 1 {
        prim_of(sheet.bytes[part.start])
    } else {
        None
    }
}

// The number of the primitive that a shape of one byte becomes.
fn short_prim(sheet: &Sheet, b: u8) -> Option<u8>
    ensures { result ≡ prim_code (short_bytes (blank_in sheet.now.bytes.now) b) }
{
    if b < SHORT_BLANKS {
        blank_prim(sheet, b as usize)
    } else {
        prim_of(b)
    }
}

// The number of the primitive that a shape becomes, and the place after the shape.
#[derive(Clone, Copy)]
pub struct Peek {
    pub next: usize,
    pub code: u8,
}

// Looks at the shape at a place: only a primitive or a blank becomes a primitive.
fn prim_at(s: &[u8], sheet: &Sheet, at: usize) -> Option<Peek>
    ensures { PeekIs (blank_in sheet.now.bytes.now) s.now at result }
{
    match steps::first_at(s, at) {
        First::Unassigned => None,
        First::Short { levels: _ } => {
            let code = short_prim(sheet, s[at])?;
            Some(Peek { next: at + 1, code })
        }
        First::Long { kind } => {
            if kind.is_shaped() || kind.is_named() || s.len() - at < LONG_BLANK {
                return None;
            }
            let code = blank_prim(sheet, leaves::two_at(s, at + HEAD_SIZE))?;
            Some(Peek {
                next: at + LONG_BLANK,
                code,
            })
        }
    }
}

// The one byte that a list becomes, and the place after the list.
#[derive(Clone, Copy)]
pub struct Packed {
    pub next: usize,
    pub byte: u8,
}

// The one byte that an Array or a Map becomes, whose items start at a place; none where it keeps its payload.
fn packed_at(s: &[u8], sheet: &Sheet, from: usize, kind: Kind) -> Option<Packed>
    ensures { PackedIs (blank_in sheet.now.bytes.now) s.now from kind result }
{
    match kind {
        Kind::Array => {
            let item = prim_at(s, sheet, from)?;
            Some(Packed {
                next: item.next,
                byte: PACKED + item.code,
            })
        }
        Kind::Map => {
            let key = prim_at(s, sheet, from)?;
            let value = prim_at(s, sheet, key.next)?;
            Some(Packed {
                next: value.next,
                byte: PACKED_MAPS + 5 * key.code + value.code,
            })
        }
        Kind::Record | Kind::Function | Kind::Symbol | Kind::Variable => None,
    }
}

// A shape with a payload that is no list of shapes: a Symbol stays as it is, a Variable is a blank.
fn put_plain(
    s: &[u8],
    sheet: &Sheet,
    at: usize,
    left: usize,
    kind: Kind,
    out: &mut [u8],
    to: usize,
) -> Places
    requires { (at < length s.now) × (first_at s.now at ≡ Long kind) × (shaped kind ≡ false) × Fits (length out.old) to (pass_shape (writes (blank_in sheet.now.bytes.now)) left s.now at) }
    ensures { Wrote out.old out.new to result (pass_shape (writes (blank_in sheet.now.bytes.now)) left s.now at) }
{
    if kind.is_named() {
        let next = steps::past_long(s, at);
        put_bytes(out, to, &s[at..next]);
        return Places {
            next,
            to: to + (next - at),
        };
    }
    if s.len() - at < LONG_BLANK {
        return Places { next: at, to };
    }
    let after = put_filled(sheet, leaves::two_at(s, at + HEAD_SIZE), out, to);
    Places {
        next: at + LONG_BLANK,
        to: after,
    }
}

// A shape with a payload, whose first byte is read.
#[cycle(put_items_put_shape)]
fn put_shape(
    s: &[u8],
    sheet: &Sheet,
    at: usize,
    left: usize,
    kind: Kind,
    out: &mut [u8],
    to: usize,
) -> Places
    requires { (at < length s.now) × (left ≤ max_levels) × (first_at s.now at ≡ Long kind) × Fits (length out.old) to (pass_shape (writes (blank_in sheet.now.bytes.now)) left s.now at) }
    ensures { Wrote out.old out.new to result (pass_shape (writes (blank_in sheet.now.bytes.now)) left s.now at) }
{
    if !kind.is_shaped() {
        return put_plain(s, sheet, at, left, kind, out, to);
    }
    if left == 0 || s.len() - at < HEAD_SIZE {
        return Places { next: at, to };
    }
    let list = steps::list_at(s, at + HEAD_SIZE, kind);
    let from = list.from;
    if let Some(one) = packed_at(s, sheet, from, kind) {
        put_byte(out, to, one.byte);
        return Places {
            next: one.next,
            to: to + 1,
        };
    }
    put_bytes(out, to + HEAD_SIZE, &s[at + HEAD_SIZE..from]);
    let all = put_items(
        s,
        sheet,
        from,
        left - 1,
        kind,
        list.count,
        out,
        to + (from - at),
    );
    put_head(kind, all.to - to - HEAD_SIZE, out, to);
    all
}

// The items of a list. The pair of levels left and items left falls, as the reader's does; a shape of one byte is taken without a call.
#[cycle(put_items_put_shape)]
fn put_items(
    s: &[u8],
    sheet: &Sheet,
    from: usize,
    left: usize,
    kind: Kind,
    count: usize,
    out: &mut [u8],
    first: usize,
) -> Places
    requires { (from ≤ length s.now) × (left ≤ max_levels) × (count ≤ 16384) × FitsItems (length out.old) first (pass_items (writes (blank_in sheet.now.bytes.now)) (pass_shape (writes (blank_in sheet.now.bytes.now)) left) kind count s.now from (writes (blank_in sheet.now.bytes.now)).start) }
    ensures { WroteItems out.old out.new first result (pass_items (writes (blank_in sheet.now.bytes.now)) (pass_shape (writes (blank_in sheet.now.bytes.now)) left) kind count s.now from (writes (blank_in sheet.now.bytes.now)).start) }
{
    let mut places = Places {
        next: from,
        to: first,
    };
    for _ in 0..count {
        let at = places.next;
        let start = steps::past_name(s, at, kind);
        put_bytes(out, places.to, &s[at..start]);
        let to = places.to + (start - at);
        places = match steps::first_at(s, start) {
            First::Unassigned => Places { next: start, to },
            First::Short { levels: _ } => Places {
                next: start + 1,
                to: put_short(sheet, s[start], out, to),
            },
            First::Long { kind: inner } => put_shape(s, sheet, start, left, inner, out, to),
        };
    }
    places
}

// Writes an accepted template, its blanks filled by an accepted sheet, from a place of the buffer on. The place after it.
pub fn write(template: &[u8], sheet: &Sheet, out: &mut [u8], to: usize) -> usize
    requires { RoomFor (blank_in sheet.now.bytes.now) (length out.old) to (reading template.now) }
    ensures { WroteFor (blank_in sheet.now.bytes.now) out.old out.new to result (reading template.now) }
{
    match steps::first_at(template, 0) {
        First::Unassigned => to,
        First::Short { levels: _ } => put_short(sheet, template[0], out, to),
        First::Long { kind } => put_shape(template, sheet, 0, MAX_LEVELS, kind, out, to).to,
    }
}
