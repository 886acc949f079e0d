// The writer: from a node table to the encoding of the shape that it means (01-scope.md, "Node table"). The checks come first, then how long and
// how deep the shape is, found without walking what nodes share; only what is known to fit is written.
#![tactic(auto)]

ghost use Rattle.std.specs.Prelude.{◌≡◌, ◌≤◌, ◌<◌, ◌+◌, ◌*◌, length};
ghost use Rattle.meaning.specs.Limits.{max_nodes};
ghost use Rattle.meaning.specs.TableReading.{node_size};
ghost use Rattle.meaning.specs.Answers.{write_answer, buffer_after};
ghost use Rattle.buffers.specs.Said.{made_said};
ghost use Rattle.buffers.specs.Written.{written};
ghost use Rattle.tables.specs.Places.{whole};
ghost use Rattle.writer.specs.Bytes.{table_of, encoded_at, links_bytes};
ghost use Rattle.writer.specs.Sound.{Linked, Room, sound_answer};

use buffers::{put_byte, verdict};
use extents::extents_of;
use forms::{Form, form_of, put_count, put_name};
use leaves::COUNT_SIZE;
use leaves::limits::MAX_NODES;
use leaves::refusals::{Fault, Refusal};
use steps::HEAD_SIZE;
use steps::put::{put_blank, put_head};
use tables::{NODE_SIZE, Table, Way};

// Writes the shape of node i. The place after it. Its links are written before its head, which says how long they are.
#[cycle(put_node_put_run)]
fn put_node(table: &Table, i: usize, out: &mut [u8], to: usize) -> usize
    requires { (i < table.now.count) × Room (length out.old) to (encoded_at table.now i) }
    ensures after { result ≡ to + length (encoded_at table.now i) }
    ensures wrote { out.new ≡ written out.old to (encoded_at table.now i) }
{
    let node = table.node(i);
    match form_of(table.nodes, table.rest, node) {
        Form::Byte { byte } => {
            put_byte(out, to, byte);
            to + 1
        }
        Form::Blank => put_blank(node.a, out, to),
        Form::List { kind, way, count } => {
            let from = put_count(count, out, to + HEAD_SIZE);
            let end = put_run(table, way, i, node.a, node.b, out, from);
            put_head(kind, end - to - HEAD_SIZE, out, to);
            end
        }
    }
}

// Writes what b links of node i from link a on stand for. The place after it. Targets stand before their node, so the pair of node and links falls.
#[cycle(put_node_put_run)]
fn put_run(
    table: &Table,
    way: Way,
    i: usize,
    a: usize,
    b: usize,
    out: &mut [u8],
    first: usize,
) -> usize
    requires { Linked table.now way i a b × Room (length out.old) first (links_bytes table.now way a b) }
    ensures after { result ≡ first + length (links_bytes table.now way a b) }
    ensures wrote { out.new ≡ written out.old first (links_bytes table.now way a b) }
{
    let mut to = first;
    for x in a..a + b {
        let link = table.link(x);
        let after = put_name(
            table.rest,
            table.links,
            table.names,
            way,
            link.name,
            out,
            to,
        );
        to = match way {
            Way::Texts => after,
            Way::Bare | Way::Named => put_node(table, link.target, out, after),
        };
    }
    to
}

// Writes what a table that passed its checks means, where it is small enough and there is room.
fn write_sound(table: &Table, out: &mut [u8]) -> Result<usize, Refusal>
    ensures is { result ≡ made_said (sound_answer (table_of table.now) (length out.old)) }
    ensures buffer { out.new ≡ buffer_after out.old (sound_answer (table_of table.now) (length out.old)) }
{
    let mut lengths = [0u16; MAX_NODES];
    let mut depths = [0u8; MAX_NODES];
    extents_of(
        table.nodes,
        table.rest,
        table.count,
        table.links,
        table.names,
        &mut lengths,
        &mut depths,
    );
    let root = table.count - 1;
    let length = verdict(lengths[root] as usize, depths[root] as usize, out.len())?;
    put_node(table, root, out, 0);
    Ok(length)
}

// Writes what a table means whose first section is so many nodes, lent apart from the rest.
pub fn write_parts(
    nodes: &[u8],
    rest: &[u8],
    count: usize,
    out: &mut [u8],
) -> Result<usize, Refusal>
    requires { (length nodes.now ≡ node_size * count) × (1 ≤ count) × (count ≤ max_nodes) }
    ensures is { result ≡ made_said (write_answer (whole count nodes.now rest.now) (length out.old)) }
    ensures buffer { out.new ≡ buffer_after out.old (write_answer (whole count nodes.now rest.now) (length out.old)) }
{
    let table = Table::read(nodes, rest, count)?;
    write_sound(&table, out)
}

// Writes the encoding of what a table means, whatever its bytes are, into the front of a lent buffer of any length.
pub fn write(table: &[u8], out: &mut [u8]) -> Result<usize, Refusal>
    ensures is { result ≡ made_said (write_answer table.now (length out.old)) }
    ensures buffer { out.new ≡ buffer_after out.old (write_answer table.now (length out.old)) }
{
    let broken = Err(Refusal {
        fault: Fault::SectionBroken,
        place: 0,
    });
    if table.len() < COUNT_SIZE {
        return broken;
    }
    let count = leaves::two_at(table, 0);
    if count < 1 || MAX_NODES < count || table.len() - COUNT_SIZE < NODE_SIZE * count {
        return broken;
    }
    let end = COUNT_SIZE + NODE_SIZE * count;
    write_parts(&table[COUNT_SIZE..end], &table[end..], count, out)
}
