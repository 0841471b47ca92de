// Forests, seen in payloads.

ghost use Rattle.std.specs.Prelude.{Result};
ghost use Rattle.rb_trees.specs.mirror.Forests.{Node as Tree};
ghost use Rattle.rb_meaning_bytes.specs.formats.Reading.{read, read_all};
ghost use Rattle.rb_meaning_bytes.specs.formats.Forests.{forest_message};
ghost use Rattle.rb_trees.specs.Outcome.{Gives, Tells};
ghost use Rattle.rb_wire_fields.specs.Stops.{told};
ghost use Rattle.rb_wire_forest.specs.Passed.{behind, behind_all};
ghost use Rattle.rb_wire_forest.specs.Opened.{root_of, refusal};
ghost use Rattle.rb_wire_forest.specs.Payloads.{Means, Violation};

use crate::forest::Forest;
use crate::frames::MOST_NODES;
use crate::heads::first_version;
use crate::skips::skip_node;
use rb_wire_fields::fields::refused;
use rb_wire_fields::stop::{self, TRAILING};

/// Why a payload is no forest: the number of its first violation, and its place.
#[derive(Clone, Copy, Debug, thiserror::Error)]
#[error("violation {number} at {at}")]
pub struct ForestRefusal {
    /// From 1 to 6.
    pub number: u8,
    /// An offset in the payload.
    pub at: u64,
}

/// The bytes after a forest at the front.
#[tactic(auto, using(crate::proofs::Skipped::forest), unfolding(rb_meaning_bytes::specs::formats::Reading::read))]
fn skip_forest(bytes: &[u8]) -> Result<&[u8], stop::Violation>
    ensures { Gives (λ x. x.now) told result (behind (read forest_message bytes.now)) }
{
    let (version, rest) = first_version(bytes)?;
    skip_node(version, MOST_NODES, rest)
}

/// Whether the bytes are a forest and nothing else.
#[tactic(auto, using(crate::proofs::Skipped::all))]
fn pass_all(payload: &[u8]) -> Result<(), stop::Violation>
    ensures { Gives (λ x. x) told result (behind_all (read_all forest_message payload.now)) }
{
    let rest = skip_forest(payload)?;
    if !rest.is_empty() {
        return Err(refused(TRAILING, rest));
    }
    Ok(())
}

/// The forest that a payload spells, or the payload's first violation. It takes no memory.
pub fn scan_forest(payload: &[u8]) -> Result<Forest<'_>, ForestRefusal>
    // What is answered is so: the payload spells this forest, or has this first violation.
    ensures told { Tells root_of refusal result (Means forest_message payload.now) }
    // What the payload spells or violates is answered.
    ensures only { (meant : Result Tree Violation) → Means forest_message payload.now meant
        → Gives root_of refusal result meant }
{
    match pass_all(payload) {
        Ok(()) => Ok(Forest { payload }),
        Err(stop::Violation { number, left }) => Err(ForestRefusal {
            number: (number % 256) as u8,
            at: (payload.len() - left) as u64,
        }),
    }
}
