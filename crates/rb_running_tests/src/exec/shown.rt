// Forests as texts.
//
// Entries have a space behind. A branch is `yes(..)` or `no(..)`, rows are `[(..)(..)]`, and a fault is `Big!8@3#2`: its text,
// its code, its position and its step.

use crate::told::add_number;
use rb_trees::{Entry, Memory, Node, NodeFault, Value, Word};
use rb_wire_forest::{ForestStop, decode_forest};
use std::alloc::Global;

fn add_value(alloc: Global, value: &Value, into: &mut Word) -> Result<(), Memory> {
    match value {
        Value::Int(number) => add_number(alloc, "", *number, into),
        Value::Bool(true) => into.push(b't'),
        Value::Bool(false) => into.push(b'f'),
        Value::Text(text) => into.extend_from_slice(text.get().as_slice()),
        _ => into.push(b'?'),
    }
}

fn add_fault(alloc: Global, fault: &NodeFault, into: &mut Word) -> Result<(), Memory> {
    into.extend_from_slice(fault.fault.text.as_slice())?;
    add_number(alloc, "!", i64::from(fault.fault.code), into)?;
    add_number(alloc, "@", i64::from(fault.at), into)?;
    add_number(alloc, "#", i64::from(fault.step), into)
}

/// Adds the text of a node.
#[cycle(nodes)]
fn add_node(alloc: Global, node: &Node, into: &mut Word) -> Result<(), Memory> {
    for entry in node.entries.as_slice() {
        add_entry(alloc, entry, into)?;
        into.push(b' ')?;
    }
    match &node.fault {
        Some(fault) => add_fault(alloc, fault, into),
        None => Ok(()),
    }
}

#[cycle(nodes)]
fn add_entry(alloc: Global, entry: &Entry, into: &mut Word) -> Result<(), Memory> {
    match entry {
        Entry::Value(value) => add_value(alloc, value, into),
        Entry::Branch(taken, node) => {
            let word: &[u8] = if *taken { b"yes(" } else { b"no(" };
            into.extend_from_slice(word)?;
            add_node(alloc, node, into)?;
            into.push(b')')
        }
        Entry::Rows(nodes) => {
            into.push(b'[')?;
            add_turns(alloc, nodes.as_slice(), into)?;
            into.push(b']')
        }
    }
}

#[cycle(nodes)]
fn add_turns(alloc: Global, nodes: &[Node], into: &mut Word) -> Result<(), Memory> {
    for node in nodes {
        into.push(b'(')?;
        add_node(alloc, node, into)?;
        into.push(b')')?;
    }
    Ok(())
}

/// Adds the text of a forest.
pub fn add_forest(alloc: Global, forest: &[u8], into: &mut Word) -> Result<(), Memory> {
    match decode_forest(alloc, forest) {
        Ok(node) => add_node(alloc, &node, into),
        Err(ForestStop::Refused { number: _, at: _ }) => into.extend_from_slice(b"no forest"),
        Err(ForestStop::Memory) => Err(Memory),
    }
}
