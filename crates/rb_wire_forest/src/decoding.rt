// Forests, read from payloads.

ghost use Rattle.std.specs.Prelude.{IfOk, Result};
ghost use Rattle.rb_trees.specs.mirror.Forests.{Node as Tree, mirror_node};
ghost use Rattle.rb_meaning_bytes.specs.formats.Reading.{read, read_all};
ghost use Rattle.rb_meaning_bytes.specs.formats.Forests.{forest_message};
ghost use Rattle.rb_meaning_bytes.specs.formats.ForestBytes.{FormedForest};
ghost use Rattle.rb_trees.specs.Outcome.{Gives, Tells};
ghost use Rattle.rb_wire_fields.specs.Stops.{fault_of};
ghost use Rattle.rb_wire_forest.specs.Payloads.{Means, Violation, violation};

use crate::frames::MOST_NODES;
use crate::heads::first_version;
use crate::nodes::node;
use rb_trees::Node;
use rb_wire_fields::fields::refused;
use rb_wire_fields::stop::{Stop, TRAILING};
use std::alloc::Global;

/// Why a payload isn't read as a forest.
#[derive(Debug, Drop, thiserror::Error)]
pub enum ForestStop {
    /// The payload's first violation: its number, from 1 to 6, and its place.
    #[error("violation {number} at {at}")]
    Refused { number: u8, at: u64 },
    /// Memory ran out.
    #[error("out of memory")]
    Memory,
}

/// A forest at the front of the bytes.
#[tactic(auto, using(crate::proofs::Equations::forest_read), unfolding(rb_meaning_bytes::specs::formats::Reading::read))]
fn forest(alloc: Global, bytes: &[u8]) -> Result<(Node, &[u8]), Stop>
    ensures { Gives (λ x. (mirror_node x.0, x.1.now)) fault_of result (read forest_message bytes.now) }
{
    let (version, rest) = first_version(bytes)?;
    let (root, rest) = node(alloc, version, MOST_NODES, rest)?;
    Ok((root, rest))
}

/// The forest that all the bytes are.
#[tactic(auto, unfolding(rb_meaning_bytes::specs::formats::Reading::read_all))]
fn whole(alloc: Global, payload: &[u8]) -> Result<Node, Stop>
    ensures { Gives mirror_node fault_of result (read_all forest_message payload.now) }
{
    let (root, rest) = forest(alloc, payload)?;
    if !rest.is_empty() {
        return Err(Stop::from(refused(TRAILING, rest)));
    }
    Ok(root)
}

/// The root of the forest that a payload spells, or the payload's first violation.
///
/// Memory is taken for what was read, and never by a count that the payload announces. At most 64
/// nodes are within each other, so that reading goes no deeper.
pub fn decode_forest(alloc: Global, payload: &[u8]) -> Result<Node, ForestStop>
    // What is answered is so: the payload spells this forest, or has this first violation.
    ensures told { Tells mirror_node violation result (Means forest_message payload.now) }
    // A forest that is read is formed, so that it can be spelled again.
    ensures formed { IfOk result (λ root. FormedForest (mirror_node root)) }
    // What the payload spells or violates is answered.
    ensures only { (meant : Result Tree Violation) → Means forest_message payload.now meant
        → Gives mirror_node violation result meant }
{
    match whole(alloc, payload) {
        Ok(root) => Ok(root),
        Err(Stop::Refused(violation)) => Err(ForestStop::Refused {
            number: (violation.number % 256) as u8,
            at: (payload.len() - violation.left) as u64,
        }),
        Err(Stop::Memory) => Err(ForestStop::Memory),
    }
}
