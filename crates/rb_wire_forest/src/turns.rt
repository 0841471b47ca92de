// How many turns a list has.

ghost use Rattle.std.specs.Prelude.{◌≡◌, get_or};
ghost use Rattle.rb_trees.specs.mirror.Forests.{mirror_node, mirror_entry, mirror_entries, mirror_nodes};
ghost use Rattle.rb_meaning_bytes.specs.Fits as meaning;

use rb_trees::{Entry, Node};

/// How many items the list of this input has.
pub(crate) fn length_of(lengths: &[u32], input: u8) -> u32
    ensures { result ≡ get_or lengths.now input 0 }
{
    match lengths.get(input as usize) {
        Some(length) => *length,
        None => 0,
    }
}

/// Whether a fault ends a node: its own, or one within its last entry.
#[cycle(ends)]
#[tactic(auto, using(crate::proofs::LastTurns::nodes))]
fn ends_early(node: &Node) -> bool
    ensures { result ≡ meaning.ends_early (mirror_node node.now) }
{
    node.fault.is_some() || last_ends_early(node.entries.as_slice())
}

/// Whether a fault ends a node within the last of entries.
#[cycle(ends)]
#[tactic(auto, using(crate::proofs::LastTurns::lists))]
fn last_ends_early(entries: &[Entry]) -> bool
    ensures { result ≡ meaning.last_ends_early (mirror_entries entries.now) }
{
    if entries.is_empty() {
        return false;
    }
    entry_ends_early(&entries[entries.len() - 1])
}

#[cycle(ends)]
#[tactic(auto, using(crate::proofs::LastTurns::nodes))]
fn entry_ends_early(entry: &Entry) -> bool
    ensures { result ≡ meaning.entry_ends_early (mirror_entry entry.now) }
{
    match entry {
        Entry::Value(_) => false,
        Entry::Branch(_, node) => ends_early(node),
        Entry::Rows(turns) => last_turn_ends_early(turns.as_slice()),
    }
}

/// Whether a fault ends the last of turns.
#[cycle(ends)]
#[tactic(auto, using(crate::proofs::LastTurns::lists))]
fn last_turn_ends_early(turns: &[Node]) -> bool
    ensures { result ≡ meaning.last_turn_ends_early (mirror_nodes turns.now) }
{
    if turns.is_empty() {
        return false;
    }
    ends_early(&turns[turns.len() - 1])
}

/// Whether these are the turns of a list with so many items, where a fault at the step comes behind them or not.
#[tactic(auto, using(crate::proofs::LastTurns::counts))]
pub(crate) fn is_counted(items: u32, turns: &[Node], faulted: bool) -> bool
    ensures { result ≡ meaning.is_counted items (mirror_nodes turns.now) faulted }
{
    let items = items as usize;
    if turns.len() == items {
        return !faulted;
    }
    turns.len() < items && (faulted || last_turn_ends_early(turns))
}
