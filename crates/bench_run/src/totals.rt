// What the nodes of scripts hold.

use rb_trees::{Entry, Node, Value};
use std::fmt;

/// The turns and the entries of a node and of those within it, the sum of the Ints among the entries, and the code of the
/// fault, if any.
#[derive(Clone, Copy)]
pub struct Totals {
    turns: u64,
    entries: u64,
    sum: i64,
    fault: Option<u8>,
}

impl fmt::Display for Totals {
    fn fmt<W: fmt::Write>(&self, f: &mut fmt::Formatter<W>) -> fmt::Result {
        let (turns, entries, sum) = (self.turns, self.entries, self.sum);
        write!(f, "{turns} turns, {entries} entries, sum {sum}")?;
        match self.fault {
            Some(fault) => write!(f, ", fault {fault}"),
            None => Ok(()),
        }
    }
}

impl Totals {
    /// The totals of a node.
    pub fn of(node: &Node) -> Totals {
        let mut totals = Totals {
            turns: 0,
            entries: 0,
            sum: 0,
            fault: None,
        };
        add_node(node, &mut totals);
        totals
    }
}

#[cycle(adding)]
fn add_node(node: &Node, totals: &mut Totals) {
    for entry in node.entries.as_slice() {
        add_entry(entry, totals);
    }
    if let Some(fault) = &node.fault {
        totals.fault = Some(fault.fault.code);
    }
}

#[cycle(adding)]
fn add_entry(entry: &Entry, totals: &mut Totals) {
    totals.entries = totals.entries.saturating_add(1);
    match entry {
        Entry::Value(Value::Int(number)) => totals.sum = totals.sum.wrapping_add(*number),
        Entry::Value(_) => {}
        Entry::Branch(_, node) => add_node(node, totals),
        Entry::Rows(turns) => add_turns(turns.as_slice(), totals),
    }
}

#[cycle(adding)]
fn add_turns(turns: &[Node], totals: &mut Totals) {
    for turn in turns {
        totals.turns = totals.turns.saturating_add(1);
        add_node(turn, totals);
    }
}
