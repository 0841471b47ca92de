// Nodes and refusals as JSON.

ghost use Rattle.std.specs.Prelude.{◌≡◌, codes, Some, IfOk};
ghost use Rattle.rb_trees.specs.mirror.Forests as forest;
ghost use Rattle.rb_trees.specs.mirror.Forests.{mirror_node, mirror_entry, mirror_entries, mirror_nodes};
ghost use Rattle.serde_json.specs.Data.{array, object, member, put, item, no_items, no_members};
ghost use Rattle.serde_json.specs.View.{view, items_view};
ghost use Rattle.rb_json.specs.Replies.{node_data, entry_data, entries_data, nodes_data, fault_data, refusal_data};
ghost use Rattle.rb_json.specs.Writes.{tagged};

use crate::writing::values::{primitive, text};
use rb_trees::{Entry, Memory, Node, NodeFault};
use serde_json::{Map, Value as Json};
use std::alloc::Global;

/// A fault of a node.
fn found(alloc: Global, found: &NodeFault) -> Result<Json, Memory>
    ensures { IfOk result (λ v. view v ≡ fault_data (Some found.now)) }
{
    let thrown = text(alloc, found.fault.text.as_slice())?;
    let (step, at) = (Json::from(found.step), Json::from(found.at));
    Ok(Json::Array(vec![in alloc; step, at, Json::from(found.fault.code), thrown]?))
}

/// The fault of a node, if it has one.
fn fault(alloc: Global, fault: &Option<NodeFault>) -> Result<Json, Memory>
    ensures { IfOk result (λ v. view v ≡ fault_data fault.now) }
{
    match fault {
        None => Ok(Json::Null),
        Some(fault) => found(alloc, fault),
    }
}

/// An object of two members.
pub(crate) fn pair(
    alloc: Global,
    key: &str,
    value: Json,
    other: &str,
    more: Json,
) -> Result<Json, Memory>
    ensures { IfOk result (λ v. view v ≡ object (put other.now (view more) (put key.now (view value) no_members))) }
{
    let mut members = Map::new(alloc);
    serde_json::put(&mut members, alloc, key, value)?;
    serde_json::put(&mut members, alloc, other, more)?;
    Ok(Json::Object(members))
}

/// A node of these entries, which ended so.
fn ended(alloc: Global, entries: Vec<Json>, fault: Json) -> Result<Json, Memory>
    ensures { IfOk result (λ v. view v ≡ object (member (codes "entries") (array (items_view entries.items))
        (member (codes "fault") (view fault) no_members))) }
{
    pair(alloc, "entries", Json::Array(entries), "fault", fault)
}

/// A node.
#[cycle(write_nodes)]
#[tactic(auto, using(crate::proofs::Arrays::nodes))]
pub(crate) fn node(alloc: Global, node: &Node) -> Result<Json, Memory>
    ensures { IfOk result (λ v. view v ≡ node_data (mirror_node node.now)) }
{
    let entries = entries(alloc, node.entries.as_slice())?;
    let fault = fault(alloc, &node.fault)?;
    ended(alloc, entries, fault)
}

/// An array of a word and one part.
fn tagged(alloc: Global, word: &str, part: Json) -> Result<Json, Memory>
    ensures { IfOk result (λ v. view v ≡ tagged word.now (item (view part) no_items)) }
{
    let word = Json::try_from_str(alloc, word)?;
    Ok(Json::Array(vec![in alloc; word, part]?))
}

/// An entry.
#[cycle(write_nodes)]
#[tactic(auto, using(crate::proofs::Arrays::nodes))]
fn entry(alloc: Global, entry: &Entry) -> Result<Json, Memory>
    ensures { IfOk result (λ v. view v ≡ entry_data (mirror_entry entry.now)) }
{
    match entry {
        Entry::Value(value) => tagged(alloc, "value", primitive(alloc, value)?),
        Entry::Branch(taken, inner) => branch(alloc, *taken, inner),
        Entry::Rows(turns) => {
            let turns = nodes(alloc, turns.as_slice())?;
            rows(alloc, turns)
        }
    }
}

/// The nodes of turns.
fn rows(alloc: Global, turns: Vec<Json>) -> Result<Json, Memory>
    ensures { IfOk result (λ v. view v ≡ tagged (codes "rows") (item (array (items_view turns.items)) no_items)) }
{
    let word = Json::try_from_str(alloc, "rows")?;
    Ok(Json::Array(vec![in alloc; word, Json::Array(turns)]?))
}

/// A branch that was taken, and its node.
#[cycle(write_nodes)]
fn branch(alloc: Global, taken: bool, inner: &Node) -> Result<Json, Memory>
    ensures { IfOk result (λ v. view v ≡ entry_data (forest.Branch taken (mirror_node inner.now))) }
{
    let word = Json::try_from_str(alloc, "branch")?;
    let inner = node(alloc, inner)?;
    Ok(Json::Array(vec![in alloc; word, Json::Bool(taken), inner]?))
}

/// Entries one after another.
#[cycle(write_nodes)]
#[tactic(auto, using(crate::proofs::Arrays::lists))]
fn entries(alloc: Global, entries: &[Entry]) -> Result<Vec<Json>, Memory>
    ensures { IfOk result (λ list. items_view list.items ≡ entries_data (mirror_entries entries.now)) }
{
    let mut list = Vec::new(alloc);
    for item in entries {
        list.push(entry(alloc, item)?)?;
    }
    Ok(list)
}

/// Nodes one after another.
#[cycle(write_nodes)]
#[tactic(auto, using(crate::proofs::Arrays::lists))]
fn nodes(alloc: Global, nodes: &[Node]) -> Result<Vec<Json>, Memory>
    ensures { IfOk result (λ list. items_view list.items ≡ nodes_data (mirror_nodes nodes.now)) }
{
    let mut list = Vec::new(alloc);
    for item in nodes {
        list.push(node(alloc, item)?)?;
    }
    Ok(list)
}

/// A refusal: its number and its place.
pub(crate) fn refusal(alloc: Global, number: u8, at: u32) -> Result<Json, Memory>
    ensures { IfOk result (λ v. view v ≡ refusal_data number at) }
{
    let parts = Json::Array(vec![in alloc; Json::from(number), Json::from(at)]?);
    let mut members = Map::new(alloc);
    serde_json::put(&mut members, alloc, "refusal", parts)?;
    Ok(Json::Object(members))
}
