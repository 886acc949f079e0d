// The checks of a node table, in place (01-scope.md, "Node table"), and a table that passed them. The bytes of the nodes and the rest, from the links'
// count on, come as two slices, so that a caller may have the nodes elsewhere.
#![tactic(auto)]

ghost use Rattle.std.specs.Prelude.{◌≡◌, ◌≤◌, ◌<◌, ◌+◌, ◌*◌, [], length, MatchResult};
ghost use Rattle.leaves.specs.Faults.{number_of};
ghost use Rattle.meaning.specs.Limits.{max_nodes, max_links, max_names, max_text};
ghost use Rattle.meaning.specs.Reading.{got, bad};
ghost use Rattle.meaning.specs.TableReading.{node_size, link_size, name_size, read_table};
ghost use Rattle.buffers.specs.Written.{written};
ghost use Rattle.tables.specs.Places.{node_bytes, link_place, name_place, text_place, section_of, layout_at, table_in, whole, node_said, node_at, link_said, link_at, target_kind, Aimed, name_said, name_at, good_by, good_from, good_span, good_at, first_bad_node, first_bad_name, found_below, Sound};

use buffers::{put_byte, put_two};
use leaves::COUNT_SIZE;
use leaves::limits::{MAX_LINKS, MAX_NAMES, MAX_TEXT};
use leaves::refusals::{Fault, Refusal};

// The bytes of a node, of a link and of a name.
pub const NODE_SIZE: usize = 6;

pub const LINK_SIZE: usize = 4;

pub const NAME_SIZE: usize = 4;

// The kinds of nodes that are no primitives: numbers, since a node may come with any byte, and its kind is believed only once it was judged.
pub const ARRAY: u8 = 5;

pub const MAP: u8 = 6;

pub const RECORD: u8 = 7;

pub const FUNCTION: u8 = 8;

pub const SYMBOL: u8 = 9;

pub const VARIABLE: u8 = 10;

// A section that is whole: how many entries it has, and the place after them.
#[derive(Clone, Copy)]
pub struct Section {
    pub count: usize,
    pub next: usize,
}

// The section whose count stands at a place, of entries of so many bytes, at most so many; None where it is broken.
fn section_at(rest: &[u8], at: usize, most: usize, size: usize) -> Option<Section>
    requires { (at ≤ length rest.now) × (size ≤ 6) }
    ensures { result ≡ section_of rest.now at most size }
{
    if rest.len() - at < COUNT_SIZE {
        return None;
    }
    let count = leaves::two_at(rest, at);
    if most < count || rest.len() - at - COUNT_SIZE < size * count {
        return None;
    }
    Some(Section {
        count,
        next: at + COUNT_SIZE + size * count,
    })
}

// How many links, names and bytes of text a table has.
#[derive(Clone, Copy)]
pub struct Layout {
    pub links: usize,
    pub names: usize,
    pub text: usize,
}

// The place in the rest where a section is broken, or bytes are left over.
#[derive(Clone, Copy)]
pub struct Broken {
    pub place: usize,
}

// The sections after the nodes.
pub fn layout_of(rest: &[u8]) -> Result<Layout, Broken>
    ensures { result ≡ layout_at rest.now }
{
    let Some(links) = section_at(rest, 0, MAX_LINKS, LINK_SIZE) else {
        return Err(Broken { place: 0 });
    };
    let Some(names) = section_at(rest, links.next, MAX_NAMES, NAME_SIZE) else {
        return Err(Broken { place: links.next });
    };
    let Some(text) = section_at(rest, names.next, MAX_TEXT, 1) else {
        return Err(Broken { place: names.next });
    };
    if text.next < rest.len() {
        return Err(Broken { place: text.next });
    }
    Ok(Layout {
        links: links.count,
        names: names.count,
        text: text.count,
    })
}

// A node, its second byte too.
#[derive(Clone, Copy)]
pub struct Node {
    pub kind: u8,
    pub second: u8,
    pub a: usize,
    pub b: usize,
}

// Node i.
pub fn node_at(nodes: &[u8], i: usize) -> Node
    requires { (node_size * i + node_size ≤ length nodes.now) × (i < 65536) }
    ensures is { node_said result ≡ node_at nodes.now i }
    ensures small { (result.a < 65536) × (result.b < 65536) }
{
    let at = NODE_SIZE * i;
    Node {
        kind: nodes[at],
        second: nodes[at + 1],
        a: leaves::two_at(nodes, at + 2),
        b: leaves::two_at(nodes, at + 4),
    }
}

// A link: its target, and its name.
#[derive(Clone, Copy)]
pub struct Link {
    pub target: usize,
    pub name: usize,
}

// Link x.
pub fn link_at(rest: &[u8], x: usize) -> Link
    requires { (link_place x + link_size ≤ length rest.now) × (x < 65536) }
    ensures { link_said result ≡ link_at rest.now x }
{
    let at = COUNT_SIZE + LINK_SIZE * x;
    Link {
        target: leaves::two_at(rest, at),
        name: leaves::two_at(rest, at + COUNT_SIZE),
    }
}

// The kind of the node that is the target of link x.
pub fn target_kind(nodes: &[u8], rest: &[u8], x: usize) -> u8
    requires { (link_place x + link_size ≤ length rest.now) × (x < 65536) × Aimed nodes.now rest.now x }
    ensures { result ≡ target_kind nodes.now rest.now x }
{
    node_at(nodes, link_at(rest, x).target).kind
}

// A name: where it starts in the text, and how long it is.
#[derive(Clone, Copy)]
pub struct Name {
    pub start: usize,
    pub size: usize,
}

// Name k, after so many links.
pub fn name_at(rest: &[u8], links: usize, k: usize) -> Name
    requires { (name_place links k + name_size ≤ length rest.now) × (links < 65536) × (k < 65536) }
    ensures is { name_said result ≡ name_at rest.now links k }
    ensures small { (result.start < 65536) × (result.size < 65536) }
{
    let at = COUNT_SIZE + LINK_SIZE * links + COUNT_SIZE + NAME_SIZE * k;
    Name {
        start: leaves::two_at(rest, at),
        size: leaves::two_at(rest, at + COUNT_SIZE),
    }
}

// How the links of a node are judged: without names, with names, or as a Symbol's texts. An enum and no closure: contracts speak of the way.
#[derive(Clone, Copy)]
pub enum Way {
    Bare,
    Named,
    Texts,
}

// Whether a link of node i is good.
fn good_link(way: Way, i: usize, names: usize, link: Link) -> bool
    ensures { result ≡ good_by way i names (link_said link) }
{
    match way {
        Way::Bare => link.target < i && link.name == 0,
        Way::Named => link.target < i && link.name < names,
        Way::Texts => link.target == 0 && link.name < names,
    }
}

// Whether b links from link a on are good for node i.
fn good_run(rest: &[u8], way: Way, i: usize, links: usize, names: usize, a: usize, b: usize) -> bool
    requires { (a + b ≤ links) × (links ≤ max_links) × (link_place links ≤ length rest.now) }
    ensures { result ≡ good_from rest.now way i names a b }
{
    for x in a..a + b {
        if !good_link(way, i, names, link_at(rest, x)) {
            return false;
        }
    }
    true
}

// Whether the links of a node are there and good.
fn good_links(
    rest: &[u8],
    way: Way,
    i: usize,
    links: usize,
    names: usize,
    a: usize,
    b: usize,
) -> bool
    requires { (a < 65536) × (b < 65536) × (links ≤ max_links) × (link_place links ≤ length rest.now) }
    ensures { result ≡ good_span rest.now way i links names a b }
{
    a + b <= links && good_run(rest, way, i, links, names, a, b)
}

// Whether a node that stands at the index i is good. A primitive is tested for by a guard, so that it is the first test: with a range there, a table of
// primitives took over half as long again.
fn good_node(rest: &[u8], links: usize, names: usize, i: usize, node: Node) -> bool
    requires { (node.a < 65536) × (node.b < 65536) × (links ≤ max_links) × (link_place links ≤ length rest.now) }
    ensures { result ≡ good_at rest.now links names i (node_said node) }
{
    let a = node.a;
    let b = node.b;
    node.second == 0
        && match node.kind {
            kind if kind < ARRAY => a == 0 && b == 0,
            ARRAY => b == 1 && good_links(rest, Way::Bare, i, links, names, a, b),
            MAP => b == 2 && good_links(rest, Way::Bare, i, links, names, a, b),
            RECORD => good_links(rest, Way::Named, i, links, names, a, b),
            FUNCTION => 1 <= b && good_links(rest, Way::Bare, i, links, names, a, b),
            SYMBOL => good_links(rest, Way::Texts, i, links, names, a, b),
            VARIABLE => b == 0,
            _ => false,
        }
}

// The first node that is broken, if one is.
pub fn bad_node(
    nodes: &[u8],
    rest: &[u8],
    count: usize,
    links: usize,
    names: usize,
) -> Option<usize>
    requires { (node_size * count ≤ length nodes.now) × (count ≤ max_nodes) × (links ≤ max_links) × (link_place links ≤ length rest.now) }
    ensures { result ≡ found_below count (first_bad_node nodes.now rest.now links names count 0) }
{
    for i in 0..count {
        if !good_node(rest, links, names, i, node_at(nodes, i)) {
            return Some(i);
        }
    }
    None
}

// Where the text starts in the rest, after so many links and names.
pub fn text_from(links: usize, names: usize) -> usize
    requires { (links ≤ max_links) × (names ≤ max_names) }
    ensures { result ≡ text_place links names }
{
    COUNT_SIZE + LINK_SIZE * links + COUNT_SIZE + NAME_SIZE * names + COUNT_SIZE
}

// The first name that is broken, if one is.
pub fn bad_name(rest: &[u8], links: usize, names: usize, text: usize) -> Option<usize>
    requires { (links ≤ max_links) × (names ≤ max_names) × (text ≤ max_text) × (text_place links names + text ≤ length rest.now) }
    ensures { result ≡ found_below names (first_bad_name rest.now links names text names 0) }
{
    let from = text_from(links, names);
    for k in 0..names {
        let name = name_at(rest, links, k);
        let start = name.start;
        let size = name.size;
        if text < start + size {
            return Some(k);
        }
        let first = from + start;
        if leaves::well_formed_to(&rest[..first + size], first) != first + size {
            return Some(k);
        }
    }
    None
}

// A table that passed its checks: so many nodes, links and names.
#[derive(Clone, Copy)]
pub struct Table<'a> {
    pub nodes: &'a [u8],
    pub rest: &'a [u8],
    pub count: usize,
    pub links: usize,
    pub names: usize,
    ghost sound: { Sound nodes.now rest.now count links names },
}

impl<'a> Table<'a> {
    // Reads a table whose first section is so many nodes: its other sections are checked first, then its nodes, then its names.
    pub fn read(nodes: &'a [u8], rest: &'a [u8], count: usize) -> Result<Table<'a>, Refusal>
        requires { (length nodes.now ≡ node_size * count) × (1 ≤ count) × (count ≤ max_nodes) }
        ensures { MatchResult result (λ t. (t.nodes.now ≡ nodes.now) × (t.rest.now ≡ rest.now) × (t.count ≡ count) × (read_table (whole count nodes.now rest.now) ≡ got (table_in nodes.now rest.now count t.links t.names) [])) (λ r. read_table (whole count nodes.now rest.now) ≡ bad (number_of r.fault) r.place) }
    {
        let layout = match layout_of(rest) {
            Ok(layout) => layout,
            Err(broken) => {
                return Err(Refusal {
                    fault: Fault::SectionBroken,
                    place: COUNT_SIZE + NODE_SIZE * count + broken.place,
                });
            }
        };
        let links = layout.links;
        let names = layout.names;
        if let Some(node) = bad_node(nodes, rest, count, links, names) {
            return Err(Refusal {
                fault: Fault::NodeBroken,
                place: node,
            });
        }
        if let Some(name) = bad_name(rest, links, names, layout.text) {
            return Err(Refusal {
                fault: Fault::NameBroken,
                place: name,
            });
        }
        Ok(Table {
            nodes,
            rest,
            count,
            links,
            names,
        })
    }

    // Node i.
    pub fn node(&self, i: usize) -> Node
        requires { i < self.now.count }
        ensures is { node_said result ≡ node_at self.now.nodes.now i }
        ensures small { (result.a < 65536) × (result.b < 65536) }
    {
        node_at(self.nodes, i)
    }

    // Link x.
    pub fn link(&self, x: usize) -> Link
        requires { x < self.now.links }
        ensures { link_said result ≡ link_at self.now.rest.now x }
    {
        link_at(self.rest, x)
    }
}

// A node's six bytes, the second of which is zero.
pub fn put_node(out: &mut [u8], to: usize, kind: u8, a: usize, b: usize)
    requires { (to + node_size ≤ length out.old) × (a < 65536) × (b < 65536) }
    ensures { out.new ≡ written out.old to (node_bytes kind a b) }
{
    put_byte(out, to, kind);
    put_byte(out, to + 1, 0);
    put_two(out, to + 2, a);
    put_two(out, to + 4, b);
}
