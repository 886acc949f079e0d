// The way back: from an encoding to the node table of its shape (01-scope.md, "Node table"). Nothing is shared: children first, then the node. The
// entries are counted first, so a refusal has written nothing; then each section is written by a pass of its own.
#![tactic(auto)]

ghost use Rattle.std.specs.Prelude.{◌≡◌, false, ◌≤◌, ◌<◌, length, ◌++◌};
ghost use Rattle.meaning.specs.Limits.{max_levels};
ghost use Rattle.meaning.specs.Numbers.{two_bytes};
ghost use Rattle.meaning.specs.Answers.{table_answer, buffer_after};
ghost use Rattle.buffers.specs.Said.{made_said};
ghost use Rattle.payloads.specs.declared.first.First.TheVariants.{Long};
ghost use Rattle.payloads.specs.declared.first.Kind.TheVariants.{Array, Map};
ghost use Rattle.payloads.specs.Payload.{shaped};
ghost use Rattle.steps.specs.Steps.{first_at};
ghost use Rattle.steps.specs.Pass.{pass_shape};
ghost use Rattle.counts.specs.Pieces.{none, plus, Few, packed_array, packed_map, list_piece, short_piece, symbol_piece, pieces, Linked, table_size, sections};
ghost use Rattle.counts.specs.Counts.{FewItems, shapes_at};
ghost use Rattle.entries.specs.Entries.{Wrote, Room};
ghost use Rattle.way_back.specs.Puts.{bare_entry, PutIs, PutItemsIs};

use buffers::put_two;
use counts::items::Items;
use counts::{Counts, Section, count_at, count_plain, own_counts, short_counts};
use entries::{put_link, put_list, put_node};
use leaves::COUNT_SIZE;
use leaves::limits::MAX_LEVELS;
use leaves::refusals::{Fault, Refusal};
use payloads::first::{First, Kind, PACKED, PACKED_MAPS, PRIMITIVES, SHORT_BLANKS};
use steps::{HEAD_SIZE, LONG_BLANK};
use tables::{ARRAY, LINK_SIZE, MAP, NAME_SIZE, NODE_SIZE, SYMBOL, VARIABLE};

// A link without a name. The place after it.
#[tactic(auto, using(entries::proofs::Wrote::wrote_none))]
fn put_bare(section: Section, target: usize, out: &mut [u8], to: usize) -> usize
    requires { (target < 65536) × Room (length out.old) to (bare_entry section target) }
    ensures { Wrote out.old out.new to (bare_entry section target) result }
{
    match section {
        Section::Links => put_link(Kind::Array, target, 0, out, to),
        Section::Nodes | Section::Names | Section::Text => to,
    }
}

// What a section gets of an Array of a primitive. The place after it.
fn put_array(section: Section, p: u8, base: Counts, out: &mut [u8], to: usize) -> usize
    requires { Few (plus base (list_piece Array (packed_array p)).counts) × Room (length out.old) to ((list_piece Array (packed_array p)).bytes section base) }
    ensures { Wrote out.old out.new to ((list_piece Array (packed_array p)).bytes section base) result }
{
    let linked = put_node(section, p, 0, 0, out, to);
    let end = put_bare(section, base.nodes, out, linked);
    put_node(section, ARRAY, base.links, 1, out, end)
}

// What a section gets of a Map of two primitives. The place after it.
fn put_map(section: Section, p: u8, q: u8, base: Counts, out: &mut [u8], to: usize) -> usize
    requires { Few (plus base (list_piece Map (packed_map p q)).counts) × Room (length out.old) to ((list_piece Map (packed_map p q)).bytes section base) }
    ensures { Wrote out.old out.new to ((list_piece Map (packed_map p q)).bytes section base) result }
{
    let second = put_node(section, p, 0, 0, out, to);
    let linked = put_node(section, q, 0, 0, out, second);
    let other = put_bare(section, base.nodes, out, linked);
    let end = put_bare(section, base.nodes + 1, out, other);
    put_node(section, MAP, base.links, 2, out, end)
}

// What a section gets of a shape of one byte. The place after it.
#[tactic(auto, using(counts::proofs::Shorts::kinds))]
fn put_short(section: Section, b: u8, base: Counts, out: &mut [u8], to: usize) -> usize
    requires { Few (plus base (short_piece b).counts) × Room (length out.old) to ((short_piece b).bytes section base) }
    ensures { Wrote out.old out.new to ((short_piece b).bytes section base) result }
{
    match b {
        0..SHORT_BLANKS => put_node(section, VARIABLE, b as usize, 0, out, to),
        PRIMITIVES..PACKED => put_node(section, b - PRIMITIVES, 0, 0, out, to),
        PACKED..PACKED_MAPS => put_array(section, b - PACKED, base, out, to),
        _ => {
            let pair = b - PACKED_MAPS;
            put_map(section, pair / 5, pair % 5, base, out, to)
        }
    }
}

// What a section gets of a Symbol, given its bytes. The place after it.
fn put_symbol(section: Section, w: &[u8], base: Counts, out: &mut [u8], to: usize) -> usize
    requires { (length w.now < 65536) × Few (plus base (symbol_piece w.now).counts) × Room (length out.old) to ((symbol_piece w.now).bytes section base) }
    ensures { Wrote out.old out.new to ((symbol_piece w.now).bytes section base) result }
{
    if w.len() < HEAD_SIZE {
        return put_node(section, SYMBOL, base.links, 0, out, to);
    }
    let list = steps::list_at(w, HEAD_SIZE, Kind::Symbol);
    let items = Items {
        from: list.from,
        count: list.count,
        kind: Kind::Symbol,
        left: 0,
    };
    put_list(section, w, items, base, base, out, to)
}

// How far a section is written: the place of what is next in the encoding, that of its entries in the table, and how many entries are there before.
#[derive(Clone, Copy)]
pub struct Put {
    pub next: usize,
    pub to: usize,
    pub there: Counts,
}

// What a section gets of the shape that is next, with a payload that is no list of shapes. The place after it.
fn put_plain(
    section: Section,
    s: &[u8],
    left: usize,
    kind: Kind,
    from: &Put,
    out: &mut [u8],
) -> usize
    requires { (from.now.next < length s.now) × (length s.now < 65536) × (first_at s.now from.now.next ≡ Long kind) × (shaped kind ≡ false) × Few (plus from.now.there (pass_shape pieces left s.now from.now.next).made.counts) × Room (length out.old) from.now.to ((pass_shape pieces left s.now from.now.next).made.bytes section from.now.there) }
    ensures { Wrote out.old out.new from.now.to ((pass_shape pieces left s.now from.now.next).made.bytes section from.now.there) result }
{
    let at = from.next;
    if kind.is_named() {
        let next = steps::past_long(s, at);
        return put_symbol(section, &s[at..next], from.there, out, from.to);
    }
    if s.len() - at < LONG_BLANK {
        return from.to;
    }
    let number = leaves::two_at(s, at + HEAD_SIZE);
    put_node(section, VARIABLE, number, 0, out, from.to)
}

// What a section gets of the shape that is next. How far it is written is lent, and not handed in and back: no shape costs a copy of all of it.
#[cycle(put_at_put_items)]
fn put_at(section: Section, s: &[u8], left: usize, put: &mut Put, out: &mut [u8])
    requires { (put.old.next ≤ length s.now) × (length s.now < 65536) × (left ≤ max_levels) × Few (plus put.old.there (pass_shape pieces left s.now put.old.next).made.counts) × Room (length out.old) put.old.to ((pass_shape pieces left s.now put.old.next).made.bytes section put.old.there) × Linked put.old.there }
    ensures { PutIs section s.now put.old.there out.old out.new put.old.to put.new (pass_shape pieces left s.now put.old.next) }
{
    let at = put.next;
    match steps::first_at(s, at) {
        First::Unassigned => {}
        First::Short { .. } => {
            let b = s[at];
            put.next = at + 1;
            put.to = put_short(section, b, put.there, out, put.to);
            put.there = put.there + short_counts(b);
        }
        First::Long { kind } => {
            if !kind.is_shaped() {
                let part = count_plain(s, at, left, kind);
                put.to = put_plain(section, s, left, kind, put, out);
                put.next = part.next;
                put.there = put.there + part.counts;
                return;
            }
            if left == 0 || s.len() - at < HEAD_SIZE {
                return;
            }
            let list = steps::list_at(s, at + HEAD_SIZE, kind);
            let items = Items {
                from: list.from,
                count: list.count,
                kind,
                left: left - 1,
            };
            let base = put.there;
            let text = put_items(section, s, items, put, out);
            put.to = put_list(section, s, items, base, put.there, out, put.to);
            put.there = put.there + own_counts(kind, items.count, text);
        }
    }
}

// What a section gets of the shapes of a list's items. How long the items' texts are. The pair of levels left and items left falls, as the reader's does.
#[cycle(put_at_put_items)]
fn put_items(section: Section, s: &[u8], items: Items, put: &mut Put, out: &mut [u8]) -> usize
    requires { (items.from ≤ length s.now) × (length s.now < 65536) × FewItems put.old.there (shapes_at s.now items).made × Room (length out.old) put.old.to ((shapes_at s.now items).made.shapes section put.old.there) × Linked put.old.there }
    ensures { PutItemsIs section s.now put.old.there out.old out.new put.old.to put.new result (shapes_at s.now items) }
{
    put.next = items.from;
    let mut text = 0;
    for _ in 0..items.count {
        let start = steps::past_name(s, put.next, items.kind);
        text += counts::text_size(&s[put.next..start]);
        put.next = start;
        put_at(section, s, items.left, put, out);
    }
    text
}

// A section of an accepted encoding's table, after its count. The place after it.
fn put_section(section: Section, count: usize, bytes: &[u8], out: &mut [u8], to: usize) -> usize
    requires { (count < 65536) × (length bytes.now < 65536) × Few (pass_shape pieces max_levels bytes.now 0).made.counts × Room (length out.old) to (two_bytes count ++ (pass_shape pieces max_levels bytes.now 0).made.bytes section none) }
    ensures { Wrote out.old out.new to (two_bytes count ++ (pass_shape pieces max_levels bytes.now 0).made.bytes section none) result }
{
    put_two(out, to, count);
    let mut put = Put {
        next: 0,
        to: to + COUNT_SIZE,
        there: Counts::NONE,
    };
    put_at(section, bytes, MAX_LEVELS, &mut put, out);
    put.to
}

// How many bytes a table of so many entries has.
fn table_size(all: Counts) -> usize
    requires { Few all }
    ensures { result ≡ table_size all }
{
    4 * COUNT_SIZE
        + NODE_SIZE * all.nodes
        + LINK_SIZE * all.links
        + NAME_SIZE * all.names
        + all.text
}

// The table of an accepted encoding, of so many entries.
fn put_table(bytes: &[u8], all: Counts, out: &mut [u8]) -> usize
    requires { (length bytes.now < 65536) × (all ≡ (pass_shape pieces max_levels bytes.now 0).made.counts) × Few all × Room (length out.old) 0 (sections (pass_shape pieces max_levels bytes.now 0).made) }
    ensures { Wrote out.old out.new 0 (sections (pass_shape pieces max_levels bytes.now 0).made) result }
{
    let links = put_section(Section::Nodes, all.nodes, bytes, out, 0);
    let names = put_section(Section::Links, all.links, bytes, out, links);
    let text = put_section(Section::Names, all.names, bytes, out, names);
    put_section(Section::Text, all.text, bytes, out, text)
}

// Makes the table of an encoding, whatever its bytes are, in the front of a lent buffer of any length.
pub fn to_table(bytes: &[u8], out: &mut [u8]) -> Result<usize, Refusal>
    ensures is { result ≡ made_said (table_answer bytes.now (length out.old)) }
    ensures buffer { out.new ≡ buffer_after out.old (table_answer bytes.now (length out.old)) }
{
    reader::read(bytes)?;
    let all = count_at(bytes, 0, MAX_LEVELS).counts;
    let needed = table_size(all);
    if out.len() < needed {
        return Err(Refusal {
            fault: Fault::BufferShort,
            place: needed,
        });
    }
    Ok(put_table(bytes, all, out))
}
