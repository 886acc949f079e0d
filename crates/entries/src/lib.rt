// What a section of a node table gets of one node: the node, and the entries that it has for the items of its list.
#![tactic(auto)]

ghost use Rattle.std.specs.Prelude.{◌≡◌, ◌≤◌, ◌<◌, length};
ghost use Rattle.counts.specs.Pieces.{plus, text_in, kind_number, node_entry, link_entry, name_entry, item_entry, own_bytes};
ghost use Rattle.entries.specs.Entries.{has_entries, FewOwn, items_in, Wrote, Room};

use buffers::{put_bytes, put_two};
use counts::items::Items;
use counts::{Counts, Section, count_inner};
use payloads::first::Kind;
use tables::{ARRAY, FUNCTION, LINK_SIZE, MAP, NAME_SIZE, NODE_SIZE, RECORD, SYMBOL, VARIABLE};

// The number of a kind in a table's bytes. No From of `Kind`: it would stand in payloads, and the numbers are named once, in tables, above it.
fn kind_number(kind: Kind) -> u8
    ensures { result ≡ kind_number kind }
{
    match kind {
        Kind::Array => ARRAY,
        Kind::Map => MAP,
        Kind::Record => RECORD,
        Kind::Function => FUNCTION,
        Kind::Symbol => SYMBOL,
        Kind::Variable => VARIABLE,
    }
}

// What a section gets of a node. The place after it.
#[tactic(auto, using(crate::proofs::Wrote::wrote_none))]
pub fn put_node(section: Section, kind: u8, a: usize, b: usize, out: &mut [u8], to: usize) -> usize
    requires { (a < 65536) × (b < 65536) × Room (length out.old) to (node_entry section kind a b) }
    ensures { Wrote out.old out.new to (node_entry section kind a b) result }
{
    match section {
        Section::Nodes => {
            tables::put_node(out, to, kind, a, b);
            to + NODE_SIZE
        }
        Section::Links | Section::Names | Section::Text => to,
    }
}

// A link of a node of a kind: to a target, unless it is a Symbol's, with name k, if its kind has names. The place after it.
pub fn put_link(kind: Kind, target: usize, k: usize, out: &mut [u8], to: usize) -> usize
    requires { (target < 65536) × (k < 65536) × Room (length out.old) to (link_entry kind target k) }
    ensures { Wrote out.old out.new to (link_entry kind target k) result }
{
    put_two(out, to, if kind.is_shaped() { target } else { 0 });
    put_two(out, to + 2, if kind.is_named() { k } else { 0 });
    to + LINK_SIZE
}

// A name of a node of a kind, if it has names: where its text starts and how long it is. The place after it.
fn put_name(kind: Kind, start: usize, size: usize, out: &mut [u8], to: usize) -> usize
    requires { (start < 65536) × (size < 65536) × Room (length out.old) to (name_entry kind start size) }
    ensures { Wrote out.old out.new to (name_entry kind start size) result }
{
    if kind.is_named() {
        put_two(out, to, start);
        put_two(out, to + 2, size);
        to + NAME_SIZE
    } else {
        to
    }
}

// What a section gets of an item of a node's list, where w are the bytes of its name. The place after it.
#[tactic(auto, using(crate::proofs::Wrote::wrote_none))]
fn put_item(
    section: Section,
    kind: Kind,
    target: usize,
    k: usize,
    start: usize,
    w: &[u8],
    out: &mut [u8],
    to: usize,
) -> usize
    requires { (target < 65536) × (k < 65536) × (start < 65536) × (length w.now < 65536) × Room (length out.old) to (item_entry section kind target k start (text_in w.now)) }
    ensures { Wrote out.old out.new to (item_entry section kind target k start (text_in w.now)) result }
{
    let text = &w[counts::text_from(w)..];
    match section {
        Section::Nodes => to,
        Section::Links => put_link(kind, target, k, out, to),
        Section::Names => put_name(kind, start, text.len(), out, to),
        Section::Text => {
            put_bytes(out, to, text);
            to + text.len()
        }
    }
}

// Whether a section has entries for the items of a list of a kind.
fn has_entries(section: Section, kind: Kind) -> bool
    ensures { result ≡ has_entries section kind }
{
    match section {
        Section::Nodes => false,
        Section::Links => true,
        Section::Names | Section::Text => kind.is_named(),
    }
}

// The entries that a list's node has for its items. So many entries are there before the list, and so many after its shapes. The place after them.
fn put_own(
    section: Section,
    s: &[u8],
    items: Items,
    base: Counts,
    after: Counts,
    out: &mut [u8],
    first: usize,
) -> usize
    requires { (items.from ≤ length s.now) × (length s.now < 65536) × FewOwn base after (items_in s.now items).made × Room (length out.old) first ((items_in s.now items).made.own section items.kind base after) }
    ensures { Wrote out.old out.new first ((items_in s.now items).made.own section items.kind base after) result }
{
    if !has_entries(section, items.kind) {
        return first;
    }
    let mut at = items.from;
    let mut to = first;
    let mut nodes = 0;
    let mut text = 0;
    for k in 0..items.count {
        let start = steps::past_name(s, at, items.kind);
        let part = count_inner(s, start, items.left, items.kind);
        nodes += part.counts.nodes;
        let w = &s[at..start];
        to = put_item(
            section,
            items.kind,
            (base.nodes + nodes).saturating_sub(1),
            after.names + k,
            after.text + text,
            w,
            out,
            to,
        );
        text += counts::text_size(w);
        at = part.next;
    }
    to
}

// What a section gets of a list's node: the entries for its items, and the node itself. The place after them.
pub fn put_list(
    section: Section,
    s: &[u8],
    items: Items,
    base: Counts,
    after: Counts,
    out: &mut [u8],
    to: usize,
) -> usize
    requires { (items.from ≤ length s.now) × (length s.now < 65536) × (after ≡ plus base (items_in s.now items).made.counts) × (after.links < 65536) × FewOwn base after (items_in s.now items).made × Room (length out.old) to (own_bytes section items.kind (items_in s.now items).made base) }
    ensures { Wrote out.old out.new to (own_bytes section items.kind (items_in s.now items).made base) result }
{
    let end = put_own(section, s, items, base, after, out, to);
    put_node(
        section,
        kind_number(items.kind),
        after.links,
        items.count,
        out,
        end,
    )
}
