// What a good node of a table becomes, and the names and counts that are written with it.
#![tactic(auto)]

ghost use Rattle.std.specs.Prelude.{◌≡◌, ◌≤◌, ◌<◌, ◌+◌, length, IfSome};
ghost use Rattle.buffers.specs.Written.{written};
ghost use Rattle.tables.specs.Places.{node_said};
ghost use Rattle.forms.specs.Forms.{text_at, name_bytes, array_form, map_form, form_of, count_bytes, HasName, NamedBy, Aims, Formed};

use buffers::{put_bytes, put_leb};
use payloads::first::{Kind, PACKED, PACKED_MAPS, PRIMITIVES};
use tables::{ARRAY, FUNCTION, MAP, Node, RECORD, SYMBOL, Way};

// The text of name k with its length before it. The place after it.
fn put_text(rest: &[u8], links: usize, names: usize, k: usize, out: &mut [u8], to: usize) -> usize
    requires { HasName rest.now links names k × (to + length (text_at rest.now links names k) ≤ length out.old) }
    ensures after { result ≡ to + length (text_at rest.now links names k) }
    ensures wrote { out.new ≡ written out.old to (text_at rest.now links names k) }
{
    let name = tables::name_at(rest, links, k);
    let first = tables::text_from(links, names) + name.start;
    let start = put_leb(out, to, name.size);
    put_bytes(out, start, &rest[first..first + name.size]);
    start + name.size
}

// The name of a link, where its node has names. The place after it.
#[tactic(auto, using(buffers::proofs::Written::written_none))]
pub fn put_name(
    rest: &[u8],
    links: usize,
    names: usize,
    way: Way,
    k: usize,
    out: &mut [u8],
    to: usize,
) -> usize
    requires { NamedBy rest.now links names way k × (to + length (name_bytes rest.now links names way k) ≤ length out.old) }
    ensures after { result ≡ to + length (name_bytes rest.now links names way k) }
    ensures wrote { out.new ≡ written out.old to (name_bytes rest.now links names way k) }
{
    match way {
        Way::Bare => to,
        Way::Named | Way::Texts => put_text(rest, links, names, k, out, to),
    }
}

// What a node becomes: one byte, a blank, or a list of a kind, with its count before it where it has one.
#[derive(Clone, Copy)]
pub enum Form {
    Byte {
        byte: u8,
    },
    Blank,
    List {
        kind: Kind,
        way: Way,
        count: Option<usize>,
    },
}

// What an Array becomes, whose link is link a: of a primitive it is one byte.
#[tactic(auto, using(meaning::proofs::Rules::tests), unfolding(crate::specs::Forms::array_form))]
fn array_form(nodes: &[u8], rest: &[u8], a: usize) -> Form
    requires { Aims nodes.now rest.now a }
    ensures { result ≡ array_form nodes.now rest.now a }
{
    let item = tables::target_kind(nodes, rest, a);
    if item < ARRAY {
        return Form::Byte {
            byte: PACKED + item,
        };
    }
    Form::List {
        kind: Kind::Array,
        way: Way::Bare,
        count: None,
    }
}

// What a Map becomes, whose links are link a and the one after it: of two primitives it is one byte.
#[tactic(auto, using(meaning::proofs::Rules::tests), unfolding(crate::specs::Forms::map_form))]
fn map_form(nodes: &[u8], rest: &[u8], a: usize) -> Form
    requires { Aims nodes.now rest.now a × Aims nodes.now rest.now (a + 1) }
    ensures { result ≡ map_form nodes.now rest.now a }
{
    let key = tables::target_kind(nodes, rest, a);
    let value = tables::target_kind(nodes, rest, a + 1);
    if key < ARRAY && value < ARRAY {
        return Form::Byte {
            byte: PACKED_MAPS + 5 * key + value,
        };
    }
    Form::List {
        kind: Kind::Map,
        way: Way::Bare,
        count: None,
    }
}

// What a good node becomes.
#[tactic(auto, using(meaning::proofs::Rules::tests), unfolding(crate::specs::Forms::form_of))]
pub fn form_of(nodes: &[u8], rest: &[u8], node: Node) -> Form
    requires { Formed nodes.now rest.now (node_said node) }
    ensures { result ≡ form_of nodes.now rest.now (node_said node) }
{
    match node.kind {
        kind @ 0..ARRAY => Form::Byte {
            byte: PRIMITIVES + kind,
        },
        ARRAY => array_form(nodes, rest, node.a),
        MAP => map_form(nodes, rest, node.a),
        RECORD => Form::List {
            kind: Kind::Record,
            way: Way::Named,
            count: Some(node.b),
        },
        FUNCTION => Form::List {
            kind: Kind::Function,
            way: Way::Bare,
            count: Some(node.b - 1),
        },
        SYMBOL => Form::List {
            kind: Kind::Symbol,
            way: Way::Texts,
            count: Some(node.b),
        },
        _ => Form::Blank,
    }
}

// A list's count, where it has one. The place after it.
#[tactic(auto, using(buffers::proofs::Written::written_none))]
pub fn put_count(count: Option<usize>, out: &mut [u8], to: usize) -> usize
    requires { IfSome count (λ n. n < 16384) × (to + length (count_bytes count) ≤ length out.old) }
    ensures after { result ≡ to + length (count_bytes count) }
    ensures wrote { out.new ≡ written out.old to (count_bytes count) }
{
    match count {
        Some(n) => put_leb(out, to, n),
        None => to,
    }
}
