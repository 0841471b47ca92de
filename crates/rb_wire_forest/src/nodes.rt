// Nodes and their entries, read at the front of the bytes.

ghost use Rattle.std.specs.Prelude.{◌≡◌, ◌<◌, ◌^◌, map, IfOk};
ghost use Rattle.rb_trees.specs.mirror.Forests.{mirror_node, mirror_entry};
ghost use Rattle.rb_meaning_bytes.specs.formats.Reading.{read};
ghost use Rattle.rb_meaning_bytes.specs.formats.Forests as format;
ghost use Rattle.rb_trees.specs.Outcome.{Gives};
ghost use Rattle.rb_wire_fields.specs.Stops.{fault_of};
ghost use Rattle.rb_wire_forest.specs.Levels.{entry_within, entries_within, nodes_within};
ghost use Rattle.rb_wire_forest.specs.Fronts.{end_seen};

use crate::heads::{LentFault, end};
use rb_trees::{Entry, Fault, Memory, Node, NodeFault, Seq, Version};
use rb_wire_fields::fields::{bad_tag, byte, number, too_deep, truth};
use rb_wire_fields::stop::Stop;
use rb_wire_fields::texts::value;
use std::alloc::Global;

/// A copy of a fault, with its text.
fn copy_fault(alloc: Global, fault: Option<LentFault<'_>>) -> Result<Option<NodeFault>, Memory>
    ensures { IfOk result (λ copy. copy ≡ end_seen fault.entry) }
{
    let Some(fault) = fault else {
        return Ok(None);
    };
    let text = Seq::from_slice(alloc, fault.text)?;
    Ok(Some(NodeFault {
        step: fault.step,
        at: fault.at,
        fault: Fault {
            code: fault.code,
            text,
        },
    }))
}

/// A node, with at most so many within each other.
#[cycle(nodes)]
#[tactic(auto, using(crate::proofs::Equations::nodes))]
pub(crate) fn node(
    alloc: Global,
    version: Version,
    left: usize,
    bytes: &[u8],
) -> Result<(Node, &[u8]), Stop>
    requires { left < 2 ^ 32 }
    ensures { Gives (λ x. (mirror_node x.0, x.1.now)) fault_of result (read (format.node version left) bytes.now) }
{
    if left == 0 {
        return Err(Stop::from(too_deep(bytes)));
    }
    let (count, rest) = number(bytes)?;
    let (entries, rest) = entries(alloc, version, left - 1, count, rest)?;
    let (fault, rest) = end(version, rest)?;
    let fault = copy_fault(alloc, fault)?;
    Ok((Node { entries, fault }, rest))
}

/// So many entries, in which at most so many nodes are within each other.
#[cycle(nodes)]
#[tactic(auto, using(rb_wire_fields::proofs::Equations::lists))]
fn entries(
    alloc: Global,
    version: Version,
    left: usize,
    count: u32,
    bytes: &[u8],
) -> Result<(Seq<Entry>, &[u8]), Stop>
    requires { left < 2 ^ 32 }
    ensures { Gives (λ x. (map mirror_entry x.0, x.1.now)) fault_of result
        (read (entries_within version left count) bytes.now) }
{
    let mut items = Seq::new(alloc);
    let mut rest = bytes;
    for _ in 0..count {
        let (item, behind) = entry(alloc, version, left, rest)?;
        items.push(item)?;
        rest = behind;
    }
    Ok((items, rest))
}

/// An entry, in which at most so many nodes are within each other.
#[cycle(nodes)]
#[tactic(auto, using(crate::proofs::Equations::entries), unfolding(rb_meaning_bytes::specs::formats::Reading::read))]
fn entry(alloc: Global, version: Version, left: usize, bytes: &[u8]) -> Result<(Entry, &[u8]), Stop>
    requires { left < 2 ^ 32 }
    ensures { Gives (λ x. (mirror_entry x.0, x.1.now)) fault_of result (read (entry_within version left) bytes.now) }
{
    let (tag, rest) = byte(bytes)?;
    match tag {
        0x31 => {
            let (value, rest) = value(alloc, version, rest)?;
            Ok((Entry::Value(value), rest))
        }
        0x32 => {
            let (taken, rest) = truth(rest)?;
            let (node, rest) = node(alloc, version, left, rest)?;
            Ok((Entry::Branch(taken, node), rest))
        }
        0x33 => {
            let (count, rest) = number(rest)?;
            let (turns, rest) = turns(alloc, version, left, count, rest)?;
            Ok((Entry::Rows(turns), rest))
        }
        _ => Err(Stop::from(bad_tag(rest))),
    }
}

/// So many nodes of turns, with at most so many within each other.
#[cycle(nodes)]
#[tactic(auto, using(rb_wire_fields::proofs::Equations::lists))]
fn turns(
    alloc: Global,
    version: Version,
    left: usize,
    count: u32,
    bytes: &[u8],
) -> Result<(Seq<Node>, &[u8]), Stop>
    requires { left < 2 ^ 32 }
    ensures { Gives (λ x. (map mirror_node x.0, x.1.now)) fault_of result
        (read (nodes_within version left count) bytes.now) }
{
    let mut items = Seq::new(alloc);
    let mut rest = bytes;
    for _ in 0..count {
        let (item, behind) = node(alloc, version, left, rest)?;
        items.push(item)?;
        rest = behind;
    }
    Ok((items, rest))
}
