// How long and how deep the shape of each node of a table is, kept for each node: nodes may share children, so a table of a few nodes can mean
// more bytes than any board has (01-scope.md, "Node table"). Numbers stop growing once they are over their limits.
#![tactic(auto)]

ghost use Rattle.std.specs.Prelude.{◌≡◌, true, ◌&&◌, ◌≤◌, ◌<◌, ◌+◌, ◌*◌, length};
ghost use Rattle.meaning.specs.Limits.{max_nodes, max_links, max_names};
ghost use Rattle.tables.specs.Places.{link_place, name_place, link_said, node_said, name_at, Aimed, good_by, good_from, good_at, first_bad_node};
ghost use Rattle.extents.specs.Extents.{plus, leb_size, with_text, with_shape, held_in, with_link, none, sum_run, closed, prim_at, node_extent, ExtentsTo, Holds};

use leaves::limits::{MAX_BYTES, MAX_LEVELS};
use payloads::first::SHORT_BLANKS;
use steps::{HEAD_SIZE, LONG_BLANK};
use tables::{ARRAY, FUNCTION, Link, MAP, Node, RECORD, SYMBOL, Way};

// A length that is over the limit of an encoding, and a depth that is over that of a shape.
pub const OVER: usize = MAX_BYTES + 1;

pub const TOO_DEEP: usize = MAX_LEVELS + 1;

// A sum that stops growing.
fn add(a: usize, b: usize) -> usize
    ensures { result ≡ plus a b }
{
    a.saturating_add(b).min(OVER)
}

// The bytes of a LEB128 number.
fn leb_size(n: usize) -> usize
    ensures is { result ≡ leb_size n }
    ensures small { result ≤ 2 }
{
    if n < 128 { 1 } else { 2 }
}

// A length and a depth, each up to one over its limit: no `Accepted`, whose two are within theirs.
#[derive(Clone, Copy)]
pub struct Extent {
    pub length: usize,
    pub depth: usize,
}

impl Extent {
    // With a text of so many bytes after its length.
    fn with_text(self, size: usize) -> Extent
        ensures { result ≡ with_text self size }
    {
        Extent {
            length: add(add(self.length, leb_size(size)), size),
            depth: self.depth,
        }
    }

    // With a shape.
    fn with_shape(self, part: Extent) -> Extent
        ensures { result ≡ with_shape self part }
    {
        Extent {
            length: add(self.length, part.length),
            depth: self.depth.max(part.depth),
        }
    }

    // A list whose head and count have so many bytes.
    fn closed(self, front: usize) -> Extent
        ensures { result ≡ closed front self }
    {
        Extent {
            length: add(self.length, front),
            depth: self.depth.saturating_add(1).min(TOO_DEEP),
        }
    }
}

// The bytes of a table, of so many links and names, and what is held of its nodes. Two arrays: as one of structs they would take 24,576 bytes where
// they take 18,432, of the 65,536 of a board.
#[derive(Clone, Copy)]
struct Extents<'a> {
    nodes: &'a [u8],
    rest: &'a [u8],
    links: usize,
    names: usize,
    lengths: &'a [u16],
    depths: &'a [u8],
    ghost holds: { Holds rest.now links names lengths.now depths.now },
}

impl<'a> Extents<'a> {
    // What is held of node j.
    fn at(&self, j: usize) -> Extent
        requires { j < max_nodes }
        ensures { result ≡ held_in self.now.lengths.now self.now.depths.now j }
    {
        Extent {
            length: self.lengths[j] as usize,
            depth: self.depths[j] as usize,
        }
    }

    // How long the text of name k is.
    fn size_of(&self, k: usize) -> usize
        requires { k < self.now.names }
        ensures { result ≡ (name_at self.now.rest.now self.now.links k).size }
    {
        tables::name_at(self.rest, self.links, k).size
    }

    // With what a link of node i stands for: a shape, a named shape, or a text.
    fn with_link(&self, way: Way, i: usize, link: Link, sum: Extent) -> Extent
        requires { (good_by way i self.now.names (link_said link) ≡ true) × (i < max_nodes) }
        ensures { result ≡ with_link (held_in self.now.lengths.now self.now.depths.now) self.now.rest.now self.now.links way sum (link_said link) }
    {
        match way {
            Way::Bare => sum.with_shape(self.at(link.target)),
            Way::Named => sum
                .with_text(self.size_of(link.name))
                .with_shape(self.at(link.target)),
            Way::Texts => sum.with_text(self.size_of(link.name)),
        }
    }

    // What b links of node i from link a on stand for, together.
    fn sum_run(&self, way: Way, i: usize, a: usize, b: usize) -> Extent
        requires { (a + b ≤ self.now.links) × (good_from self.now.rest.now way i self.now.names a b ≡ true) × (i < max_nodes) }
        ensures { result ≡ sum_run (held_in self.now.lengths.now self.now.depths.now) self.now.rest.now self.now.links way a b none }
    {
        let mut sum = Extent {
            length: 0,
            depth: 0,
        };
        for x in a..a + b {
            sum = self.with_link(way, i, tables::link_at(self.rest, x), sum);
        }
        sum
    }

    // Whether the target of link x is a primitive.
    fn prim_at(&self, x: usize) -> bool
        requires { (link_place x + 4 ≤ length self.now.rest.now) × (x < 65536) × Aimed self.now.nodes.now self.now.rest.now x }
        ensures { result ≡ prim_at self.now.nodes.now self.now.rest.now x }
    {
        tables::target_kind(self.nodes, self.rest, x) < ARRAY
    }

    // Whether the targets of link x and of the one after it are.
    fn prims_at(&self, x: usize) -> bool
        requires { (link_place (x + 1) + 4 ≤ length self.now.rest.now) × (x + 1 < 65536) × Aimed self.now.nodes.now self.now.rest.now x × Aimed self.now.nodes.now self.now.rest.now (x + 1) }
        ensures { result ≡ prim_at self.now.nodes.now self.now.rest.now x && prim_at self.now.nodes.now self.now.rest.now (x + 1) }
    {
        self.prim_at(x) && self.prim_at(x + 1)
    }

    // The extent of a good node that stands at the index i, where those of the nodes before it are held.
    fn extent_of(&self, i: usize, node: Node) -> Extent
        requires { (i < max_nodes) × (6 * i + 6 ≤ length self.now.nodes.now) × (good_at self.now.rest.now self.now.links self.now.names i (node_said node) ≡ true) }
        ensures { result ≡ node_extent (held_in self.now.lengths.now self.now.depths.now) self.now.nodes.now self.now.rest.now self.now.links (node_said node) }
    {
        let a = node.a;
        let b = node.b;
        match node.kind {
            0..ARRAY => Extent {
                length: 1,
                depth: 1,
            },
            ARRAY if self.prim_at(a) => Extent {
                length: 1,
                depth: 2,
            },
            ARRAY => self.sum_run(Way::Bare, i, a, b).closed(HEAD_SIZE),
            MAP if self.prims_at(a) => Extent {
                length: 1,
                depth: 2,
            },
            MAP => self.sum_run(Way::Bare, i, a, b).closed(HEAD_SIZE),
            RECORD => self
                .sum_run(Way::Named, i, a, b)
                .closed(HEAD_SIZE + leb_size(b)),
            FUNCTION => self
                .sum_run(Way::Bare, i, a, b)
                .closed(HEAD_SIZE + leb_size(b - 1)),
            SYMBOL => self
                .sum_run(Way::Texts, i, a, b)
                .closed(HEAD_SIZE + leb_size(b)),
            _ if a < SHORT_BLANKS as usize => Extent {
                length: 1,
                depth: 1,
            },
            _ => Extent {
                length: LONG_BLANK,
                depth: 1,
            },
        }
    }
}

// Finds the extent of every node of a sound table, children first as they stand.
pub fn extents_of(
    nodes: &[u8],
    rest: &[u8],
    count: usize,
    links: usize,
    names: usize,
    lengths: &mut [u16],
    depths: &mut [u8],
)
    requires { (count ≤ max_nodes) × (6 * count ≤ length nodes.now) × (links ≤ max_links) × (names ≤ max_names) × (name_place links names ≤ length rest.now) × (first_bad_node nodes.now rest.now links names count 0 ≡ count) × (length lengths.old ≡ max_nodes) × (length depths.old ≡ max_nodes) }
    ensures { ExtentsTo nodes.now rest.now links lengths.new depths.new count }
{
    for i in 0..count {
        let held = Extents {
            nodes,
            rest,
            links,
            names,
            lengths: &*lengths,
            depths: &*depths,
        };
        let extent = held.extent_of(i, tables::node_at(nodes, i));
        lengths[i] = extent.length as u16;
        depths[i] = extent.depth as u8;
    }
}
