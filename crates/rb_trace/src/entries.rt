// The entries of a forest, each on a line of its own, with two more spaces in each node.

use crate::batches::Batches;
use rb_shown::{add_literal, ending_line};
use rb_trees::{
    Ending, Entry, Fault, Memory, Node, NodeFault, Seq, Value, Word, copy_word, two_more,
};
use rb_wire_forest::{ForestStop, decode_forest};
use std::alloc::Global;

/// The most lines of entries that are told of a forest.
const MOST_LINES: u64 = 100;

/// Lines of entries. Those behind the most that are told are only counted.
#[derive(Drop)]
struct Lines {
    text: Word,
    told: u64,
    left_out: u64,
}

impl Lines {
    /// Begins a line behind an indent, where one more is told, and else counts it.
    fn begin(&mut self, indent: &[u8]) -> Result<bool, Memory> {
        if self.told >= MOST_LINES {
            self.left_out = self.left_out.saturating_add(1);
            return Ok(false);
        }
        self.told += 1;
        self.text.extend_from_slice(indent)?;
        Ok(true)
    }

    /// Adds how many lines were left out so far, if any were.
    fn tell_left_out(&mut self, alloc: Global) -> Result<(), Memory> {
        let count = self.left_out;
        if count == 0 {
            return Ok(());
        }
        self.left_out = 0;
        let line = format!(in alloc; "    .. and {count} more\n")?;
        self.text.extend_from_slice(line.as_bytes())
    }
}

/// Adds that a reply is a forest, and the forest's entries.
pub(crate) fn add_forest(
    alloc: Global,
    batches: &Batches<'_>,
    payload: &[u8],
    into: &mut Word,
) -> Result<(), Memory> {
    match decode_forest(alloc, payload) {
        Ok(root) => add_root(alloc, batches, &root, into),
        Err(ForestStop::Refused { .. }) => into.extend_from_slice(b"not decoded\n"),
        Err(ForestStop::Memory) => Err(Memory),
    }
}

/// Adds the entries of a forest, given by its root.
fn add_root(
    alloc: Global,
    batches: &Batches<'_>,
    root: &Node,
    into: &mut Word,
) -> Result<(), Memory> {
    let mut lines = Lines {
        text: Seq::new(alloc),
        told: 0,
        left_out: 0,
    };
    add_node(alloc, batches, b"    ", root, &mut lines)?;
    lines.tell_left_out(alloc)?;
    if lines.text.is_empty() {
        return into.extend_from_slice(b"a forest\n  entries none\n");
    }
    into.extend_from_slice(b"a forest\n  entries\n")?;
    into.extend_from_slice(lines.text.as_slice())
}

/// Adds what a node has: its entries, and the fault that ended it, if any.
#[cycle(nodes)]
fn add_node(
    alloc: Global,
    batches: &Batches<'_>,
    indent: &[u8],
    node: &Node,
    lines: &mut Lines,
) -> Result<(), Memory> {
    for entry in node.entries.as_slice() {
        add_entry(alloc, batches, indent, entry, lines)?;
    }
    match &node.fault {
        Some(fault) => add_fault(alloc, batches, indent, fault, lines),
        None => Ok(()),
    }
}

/// Adds an entry with all that it has.
#[cycle(nodes)]
fn add_entry(
    alloc: Global,
    batches: &Batches<'_>,
    indent: &[u8],
    entry: &Entry,
    lines: &mut Lines,
) -> Result<(), Memory> {
    match entry {
        Entry::Value(value) => add_value(alloc, indent, value, lines),
        Entry::Branch(taken, node) => {
            add_branch(indent, *taken, lines)?;
            let deeper = two_more(alloc, indent)?;
            add_node(alloc, batches, deeper.as_slice(), node, lines)
        }
        Entry::Rows(nodes) => add_turns(alloc, batches, indent, nodes.as_slice(), lines),
    }
}

/// Adds the turns of a loop, each with what its node has.
#[cycle(nodes)]
fn add_turns(
    alloc: Global,
    batches: &Batches<'_>,
    indent: &[u8],
    nodes: &[Node],
    lines: &mut Lines,
) -> Result<(), Memory> {
    if nodes.is_empty() {
        return add_no_turns(indent, lines);
    }
    let deeper = two_more(alloc, indent)?;
    for (index, node) in nodes.iter().enumerate() {
        add_turn(alloc, indent, index, lines)?;
        add_node(alloc, batches, deeper.as_slice(), node, lines)?;
    }
    Ok(())
}

/// Adds the line of a value.
fn add_value(alloc: Global, indent: &[u8], value: &Value, lines: &mut Lines) -> Result<(), Memory> {
    if !lines.begin(indent)? {
        return Ok(());
    }
    add_literal(alloc, value, &mut lines.text)?;
    lines.text.push(b'\n')
}

/// Adds the line of a branch: which one was taken.
fn add_branch(indent: &[u8], taken: bool, lines: &mut Lines) -> Result<(), Memory> {
    if !lines.begin(indent)? {
        return Ok(());
    }
    if taken {
        lines.text.extend_from_slice(b"branch true\n")
    } else {
        lines.text.extend_from_slice(b"branch false\n")
    }
}

/// Adds the line of a loop without turns.
fn add_no_turns(indent: &[u8], lines: &mut Lines) -> Result<(), Memory> {
    if !lines.begin(indent)? {
        return Ok(());
    }
    lines.text.extend_from_slice(b"no turns\n")
}

/// Adds the line of a turn, which is numbered from 1.
fn add_turn(alloc: Global, indent: &[u8], index: usize, lines: &mut Lines) -> Result<(), Memory> {
    if !lines.begin(indent)? {
        return Ok(());
    }
    let number = index.saturating_add(1);
    let line = format!(in alloc; "turn {number}\n")?;
    lines.text.extend_from_slice(line.as_bytes())
}

/// Adds the line of a fault with its place in the program's text. It is told behind any number of lines.
fn add_fault(
    alloc: Global,
    batches: &Batches<'_>,
    indent: &[u8],
    fault: &NodeFault,
    lines: &mut Lines,
) -> Result<(), Memory> {
    let ending = Ending::Faulted(copy_fault(alloc, &fault.fault)?, fault.at);
    let line = ending_line(alloc, batches.text(), &ending)?;
    lines.tell_left_out(alloc)?;
    lines.text.extend_from_slice(indent)?;
    lines.text.extend_from_slice(line.as_slice())
}

/// A copy of a fault.
fn copy_fault(alloc: Global, fault: &Fault) -> Result<Fault, Memory> {
    Ok(Fault {
        code: fault.code,
        text: copy_word(alloc, &fault.text)?,
    })
}
