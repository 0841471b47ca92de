// Nodes as bytes, at the end of a buffer. After an error the buffer has kept its bytes.

ghost use Rattle.std.specs.Prelude.{◌≡◌, ◌++◌, OnOk, OnErr};
ghost use Rattle.rb_trees.specs.mirror.Forests.{mirror_node, mirror_entry, mirror_entries, mirror_nodes};
ghost use Rattle.rb_meaning_bytes.specs.formats.ForestBytes.{end_bytes, node_bytes, entry_bytes, entries_bytes, nodes_bytes};
ghost use Rattle.rb_meaning_bytes.specs.formats.Values.{version_byte};
ghost use Rattle.rb_wire_fields.specs.Buffers.{Keeps};

use bytes::{BufMut, BytesMut};
use rb_trees::{Entry, Memory, Node, NodeFault, Version};
use rb_wire_fields::puts::{put_count, put_natural, put_truth, put_value, put_words};

/// The code of the one fault that keeps a text.
const THROWN: u8 = 8;

/// The byte that a message of a version begins with.
pub(crate) fn version_number(version: Version) -> u8
    ensures { result ≡ version_byte version }
{
    match version {
        Version::One => 0x01,
        Version::Two => 0x02,
    }
}

/// A fault that a node ends with.
#[tactic(auto, using(rb_wire_fields::proofs::Kept::kept))]
fn put_fault(version: Version, fault: &NodeFault, into: &mut BytesMut) -> Result<(), Memory>
    ensures ok { OnOk result (into.new.items ≡ into.old.items ++ end_bytes version (Some fault.now)) }
    ensures err { OnErr result (Keeps into.old.items into.new.items) }
{
    into.put_u8(0x01)?;
    put_natural(version, fault.step, into)?;
    put_natural(version, fault.at, into)?;
    into.put_u8(fault.fault.code)?;
    if fault.fault.code == THROWN {
        put_words(version, fault.fault.text.as_slice(), into)?;
        Ok(())
    } else {
        Ok(())
    }
}

#[tactic(auto, using(rb_wire_fields::proofs::Kept::kept))]
fn put_end(version: Version, fault: &Option<NodeFault>, into: &mut BytesMut) -> Result<(), Memory>
    ensures ok { OnOk result (into.new.items ≡ into.old.items ++ end_bytes version fault.now) }
    ensures err { OnErr result (Keeps into.old.items into.new.items) }
{
    match fault {
        Some(fault) => put_fault(version, fault, into),
        None => {
            into.put_u8(0x00)?;
            Ok(())
        }
    }
}

#[cycle(put_nodes)]
#[tactic(auto, using(crate::proofs::Kept::nodes))]
pub(crate) fn put_node(version: Version, node: &Node, into: &mut BytesMut) -> Result<(), Memory>
    ensures ok { OnOk result (into.new.items ≡ into.old.items ++ node_bytes version (mirror_node node.now)) }
    ensures err { OnErr result (Keeps into.old.items into.new.items) }
{
    put_count(node.entries.len(), into)?;
    put_entries(version, node.entries.as_slice(), into)?;
    put_end(version, &node.fault, into)?;
    Ok(())
}

#[cycle(put_nodes)]
#[tactic(auto, using(rb_wire_fields::proofs::Kept::kept))]
fn put_entries(version: Version, entries: &[Entry], into: &mut BytesMut) -> Result<(), Memory>
    ensures ok { OnOk result (into.new.items ≡ into.old.items ++ entries_bytes version (mirror_entries entries.now)) }
    ensures err { OnErr result (Keeps into.old.items into.new.items) }
{
    for entry in entries {
        put_entry(version, entry, into)?;
    }
    Ok(())
}

#[cycle(put_nodes)]
#[tactic(auto, using(crate::proofs::Kept::nodes))]
fn put_entry(version: Version, entry: &Entry, into: &mut BytesMut) -> Result<(), Memory>
    ensures ok { OnOk result (into.new.items ≡ into.old.items ++ entry_bytes version (mirror_entry entry.now)) }
    ensures err { OnErr result (Keeps into.old.items into.new.items) }
{
    match entry {
        Entry::Value(value) => {
            into.put_u8(0x31)?;
            put_value(version, value, into)?;
            Ok(())
        }
        Entry::Branch(taken, node) => {
            into.put_u8(0x32)?;
            put_truth(*taken, into)?;
            put_node(version, node, into)?;
            Ok(())
        }
        Entry::Rows(turns) => {
            into.put_u8(0x33)?;
            put_count(turns.len(), into)?;
            put_turns(version, turns.as_slice(), into)?;
            Ok(())
        }
    }
}

#[cycle(put_nodes)]
#[tactic(auto, using(rb_wire_fields::proofs::Kept::kept))]
fn put_turns(version: Version, turns: &[Node], into: &mut BytesMut) -> Result<(), Memory>
    ensures ok { OnOk result (into.new.items ≡ into.old.items ++ nodes_bytes version (mirror_nodes turns.now)) }
    ensures err { OnErr result (Keeps into.old.items into.new.items) }
{
    for turn in turns {
        put_node(version, turn, into)?;
    }
    Ok(())
}
