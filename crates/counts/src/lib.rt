// How many nodes, links, names and bytes of text the table of a shape has, found by one pass over the accepted bytes.
#![tactic(auto)]

pub mod items;

ghost use Rattle.std.specs.Prelude.{◌≡◌, false, ◌≤◌, ◌<◌, ◌+◌, length};
ghost use Rattle.meaning.specs.Limits.{max_levels};
ghost use Rattle.payloads.specs.declared.first.First.TheVariants.{Long};
ghost use Rattle.payloads.specs.Payload.{shaped};
ghost use Rattle.steps.specs.Steps.{first_at};
ghost use Rattle.steps.specs.Pass.{pass_shape};
ghost use Rattle.counts.specs.Pieces.{many, none, plus, Few, text_from, text_in, own_counts, short_piece, symbol_piece, pieces, inner};
ghost use Rattle.counts.specs.Counts.{nothing_counted, shapes_at, CountedIs, AddedIs, TallyIs, FewItems};

use items::Items;
use payloads::first::{First, Kind, PACKED, PACKED_MAPS};
use std::ops::Add;
use steps::{HEAD_SIZE, LONG_BLANK};

// So many nodes, links, names and bytes of text.
#[derive(Clone, Copy)]
pub struct Counts {
    pub nodes: usize,
    pub links: usize,
    pub names: usize,
    pub text: usize,
}

impl Counts {
    // Nothing is there.
    pub const NONE: Counts = Counts {
        nodes: 0,
        links: 0,
        names: 0,
        text: 0,
    };
}

// Two counts together.
impl Add for Counts {
    type Output = Counts;

    ghost can_add = { λ a b. Few (plus a b) };

    ghost add_gives = { λ a b sum. sum ≡ plus a b };

    fn add(self, other: Counts) -> Counts {
        Counts {
            nodes: self.nodes + other.nodes,
            links: self.links + other.links,
            names: self.names + other.names,
            text: self.text + other.text,
        }
    }
}

// The sections of a table. An enum and no closure: contracts speak of the section.
#[derive(Clone, Copy)]
pub enum Section {
    Nodes,
    Links,
    Names,
    Text,
}

// What a shape adds to a table, and the place after the shape.
#[derive(Clone, Copy)]
pub struct Counted {
    pub next: usize,
    pub counts: Counts,
}

// How long the texts of a list's items are, and the place after the items.
#[derive(Clone, Copy)]
pub struct Tally {
    pub next: usize,
    pub text: usize,
}

// Where the text starts in the bytes of a name; their end, where there is none.
#[tactic(auto, unfolding(crate::specs::Pieces::text_from))]
pub fn text_from(w: &[u8]) -> usize
    ensures is { result ≡ text_from w.now }
    ensures inside { result ≤ length w.now }
{
    match leaves::leb128(w, 0) {
        Ok(size) => size.next,
        Err(_) => w.len(),
    }
}

// How long the text is.
pub fn text_size(w: &[u8]) -> usize
    ensures { result ≡ length (text_in w.now) }
{
    w.len() - text_from(w)
}

// What a node adds with its list: itself, a link for each item, and the items' names, where its kind has names.
pub fn own_counts(kind: Kind, items: usize, text: usize) -> Counts
    ensures { result ≡ own_counts kind items text }
{
    Counts {
        nodes: 1,
        links: items,
        names: if kind.is_named() { items } else { 0 },
        text,
    }
}

// Nothing was counted at a place.
fn nothing_at(at: usize) -> Counted
    ensures { result ≡ nothing_counted at }
{
    Counted {
        next: at,
        counts: Counts::NONE,
    }
}

// What a node with so many links to primitives adds, the primitives too.
fn packed_counts(links: usize) -> Counts
    requires { links < 65536 }
    ensures { result ≡ many (1 + links) links 0 0 }
{
    Counts {
        nodes: 1 + links,
        links,
        names: 0,
        text: 0,
    }
}

// How many links to primitives a shape of one byte has: an Array and a Map of primitives have those as nodes.
#[tactic(auto, using(crate::proofs::Shorts::numbers))]
fn short_links(b: u8) -> usize
    ensures is { many (1 + result) result 0 0 ≡ (short_piece b).counts }
    ensures few { result ≤ 2 }
{
    match b {
        0..PACKED => 0,
        PACKED..PACKED_MAPS => 1,
        _ => 2,
    }
}

// What a shape of one byte adds.
pub fn short_counts(b: u8) -> Counts
    ensures { result ≡ (short_piece b).counts }
{
    packed_counts(short_links(b))
}

// What a Symbol adds, given its bytes.
fn count_symbol(w: &[u8]) -> Counts
    requires { length w.now < 65536 }
    ensures { result ≡ (symbol_piece w.now).counts }
{
    let list = steps::list_at(w, HEAD_SIZE, Kind::Symbol);
    let mut at = list.from;
    let mut text = 0;
    for _ in 0..list.count {
        let start = steps::past_name(w, at, Kind::Symbol);
        text += text_size(&w[at..start]);
        at = start;
    }
    own_counts(Kind::Symbol, list.count, text)
}

// A shape with a payload that is no list of shapes.
pub fn count_plain(s: &[u8], at: usize, left: usize, kind: Kind) -> Counted
    requires { (at < length s.now) × (length s.now < 65536) × (first_at s.now at ≡ Long kind) × (shaped kind ≡ false) }
    ensures { CountedIs s.now result (pass_shape pieces left s.now at) }
{
    if kind.is_named() {
        let next = steps::past_long(s, at);
        return Counted {
            next,
            counts: count_symbol(&s[at..next]),
        };
    }
    if s.len() - at < LONG_BLANK {
        return nothing_at(at);
    }
    Counted {
        next: at + LONG_BLANK,
        counts: packed_counts(0),
    }
}

// Adds what the shape at a place adds. The place after the shape.
#[cycle(add_at_add_items)]
fn add_at(s: &[u8], at: usize, left: usize, counts: &mut Counts) -> usize
    requires { (at ≤ length s.now) × (length s.now < 65536) × (left ≤ max_levels) × Few (plus counts.old (pass_shape pieces left s.now at).made.counts) }
    ensures { AddedIs s.now counts.old counts.new result (pass_shape pieces left s.now at) }
{
    match steps::first_at(s, at) {
        First::Unassigned => at,
        First::Short { .. } => {
            let links = short_links(s[at]);
            counts.nodes += 1 + links;
            counts.links += links;
            at + 1
        }
        First::Long { kind } => {
            if !kind.is_shaped() {
                let part = count_plain(s, at, left, kind);
                *counts = *counts + part.counts;
                return part.next;
            }
            if left == 0 || s.len() - at < HEAD_SIZE {
                return at;
            }
            let list = steps::list_at(s, at + HEAD_SIZE, kind);
            let items = Items {
                from: list.from,
                count: list.count,
                kind,
                left: left - 1,
            };
            let all = add_items(s, items, counts);
            *counts = *counts + own_counts(kind, items.count, all.text);
            all.next
        }
    }
}

// Adds what the items of a list add. The pair of levels left and items left falls, as the reader's does.
#[cycle(add_at_add_items)]
fn add_items(s: &[u8], items: Items, counts: &mut Counts) -> Tally
    requires { (items.from ≤ length s.now) × (length s.now < 65536) × FewItems counts.old (shapes_at s.now items).made }
    ensures { TallyIs s.now counts.old counts.new result (shapes_at s.now items) }
{
    let mut at = items.from;
    let mut text = 0;
    for _ in 0..items.count {
        let start = steps::past_name(s, at, items.kind);
        text += text_size(&s[at..start]);
        at = add_at(s, start, items.left, counts);
    }
    Tally { next: at, text }
}

// What the shape at a place adds.
pub fn count_at(s: &[u8], at: usize, left: usize) -> Counted
    requires { (at ≤ length s.now) × (length s.now < 65536) × (left ≤ max_levels) × Few (pass_shape pieces left s.now at).made.counts }
    ensures { CountedIs s.now result (pass_shape pieces left s.now at) }
{
    let mut counts = Counts::NONE;
    let next = add_at(s, at, left, &mut counts);
    Counted { next, counts }
}

// What an item adds after its name: a Symbol's items have no shape.
pub fn count_inner(s: &[u8], at: usize, left: usize, kind: Kind) -> Counted
    requires { (at ≤ length s.now) × (length s.now < 65536) × (left ≤ max_levels) × Few (inner left kind s.now at).made.counts }
    ensures { CountedIs s.now result (inner left kind s.now at) }
{
    if kind.is_shaped() {
        count_at(s, at, left)
    } else {
        nothing_at(at)
    }
}
