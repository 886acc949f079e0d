// The editor's front: its nodes are lent as records, the rest of the table as bytes (01-scope.md, "Node table"). The records are put into bytes here,
// six a node, and go on to the writer of tables.
#![tactic(auto)]

ghost use Rattle.std.specs.Prelude.{◌≡◌, ◌≤◌, ◌*◌, length, map};
ghost use Rattle.meaning.specs.Table.{nodes_bytes};
ghost use Rattle.meaning.specs.TableReading.{node_size};
ghost use Rattle.buffers.specs.Written.{written};
ghost use Rattle.editor.specs.Records.{meant, records_outcome};

use leaves::limits::MAX_NODES;
use leaves::refusals::{Fault, Refusal};
use tables::NODE_SIZE;

// A node as an editor lends it: its kind, and a and b, as in a table's bytes. The second byte, which is zero there, is left out.
#[repr(C)]
#[derive(Clone, Copy)]
pub struct Node {
    pub kind: u8,
    pub a: u16,
    pub b: u16,
}

// The records' six bytes each, one after the other, as the front of a section.
fn put_records(nodes: &[Node], section: &mut [u8])
    requires { node_size * length nodes.now ≤ length section.old }
    ensures { section.new ≡ written section.old 0 (nodes_bytes (map meant nodes.now)) }
{
    for (i, node) in nodes.iter().enumerate() {
        tables::put_node(
            section,
            NODE_SIZE * i,
            node.kind,
            node.a as usize,
            node.b as usize,
        );
    }
}

// Writes the encoding of what a table means whose nodes are lent as records, however many they are, into the front of a lent buffer of any length.
// The section's 36,864 bytes are those of 6,144 nodes.
pub fn write_records(nodes: &[Node], rest: &[u8], out: &mut [u8]) -> Result<usize, Refusal>
    ensures { (result, out.new) ≡ records_outcome nodes.now rest.now out.old }
{
    let count = nodes.len();
    if count < 1 || MAX_NODES < count {
        return Err(Refusal {
            fault: Fault::SectionBroken,
            place: 0,
        });
    }
    let mut section = [0; NODE_SIZE * MAX_NODES];
    put_records(nodes, &mut section);
    writer::write_parts(&section[..NODE_SIZE * count], rest, count, out)
}
