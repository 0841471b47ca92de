// Parts of a forest, passed over at the front of the bytes.
//
// One function of the machine's stack stands for each node that is open. What stands in a node is inlined there, since what a
// function gives goes through memory, and a row is a node of few bytes.

ghost use Rattle.std.specs.Prelude.{◌<◌, ◌^◌};
ghost use Rattle.rb_meaning_bytes.specs.formats.Reading.{read};
ghost use Rattle.rb_meaning_bytes.specs.formats.Forests as format;
ghost use Rattle.rb_trees.specs.Outcome.{Gives};
ghost use Rattle.rb_wire_fields.specs.Stops.{told};
ghost use Rattle.rb_wire_forest.specs.Levels.{entry_within, entries_within, nodes_within};
ghost use Rattle.rb_wire_forest.specs.Opens.{node_left};
ghost use Rattle.rb_wire_forest.specs.Passed.{behind};

use crate::heads::end;
use rb_trees::Version;
use rb_wire_fields::fields::{bad_tag, byte, number, too_deep, truth};
use rb_wire_fields::stop::Violation;
use rb_wire_fields::texts::primitive;

/// A node, with at most so many within each other.
#[cycle(skips)]
#[tactic(auto, using(crate::proofs::Skipped::nodes))]
#[inline(never)]
pub fn skip_node(version: Version, left: usize, bytes: &[u8]) -> Result<&[u8], Violation>
    requires { left < 2 ^ 32 }
    ensures { Gives (λ x. x.now) told result (behind (read (format.node version left) bytes.now)) }
{
    if left == 0 {
        return Err(too_deep(bytes));
    }
    let (count, rest) = number(bytes)?;
    skip_left(version, left - 1, count, rest)
}

/// What is left of a node of which so many entries are left, with at most so many nodes within each other below it.
#[cycle(skips)]
#[tactic(auto, using(crate::proofs::Skipped::left_skipped))]
#[inline(always)]
pub fn skip_left(
    version: Version,
    left: usize,
    count: u32,
    bytes: &[u8],
) -> Result<&[u8], Violation>
    requires { left < 2 ^ 32 }
    ensures { Gives (λ x. x.now) told result (behind (read (node_left version left count) bytes.now)) }
{
    let rest = skip_entries(version, left, count, bytes)?;
    let (_, rest) = end(version, rest)?;
    Ok(rest)
}

/// So many entries, in which at most so many nodes are within each other.
#[cycle(skips)]
#[tactic(auto, using(crate::proofs::Skipped::loops))]
#[inline(always)]
pub fn skip_entries(
    version: Version,
    left: usize,
    count: u32,
    bytes: &[u8],
) -> Result<&[u8], Violation>
    requires { left < 2 ^ 32 }
    ensures { Gives (λ x. x.now) told result (behind (read (entries_within version left count) bytes.now)) }
{
    let mut rest = bytes;
    for _ in 0..count {
        rest = skip_entry(version, left, rest)?;
    }
    Ok(rest)
}

/// An entry, in which at most so many nodes are within each other.
#[cycle(skips)]
#[tactic(auto, using(crate::proofs::Skipped::entries))]
#[inline(always)]
fn skip_entry(version: Version, left: usize, bytes: &[u8]) -> Result<&[u8], Violation>
    requires { left < 2 ^ 32 }
    ensures { Gives (λ x. x.now) told result (behind (read (entry_within version left) bytes.now)) }
{
    let (tag, rest) = byte(bytes)?;
    match tag {
        0x31 => {
            let (_, rest) = primitive(version, rest)?;
            Ok(rest)
        }
        0x32 => {
            let (_, rest) = truth(rest)?;
            skip_node(version, left, rest)
        }
        0x33 => {
            let (count, rest) = number(rest)?;
            skip_turns(version, left, count, rest)
        }
        _ => Err(bad_tag(rest)),
    }
}

/// So many nodes of turns, with at most so many within each other.
#[cycle(skips)]
#[tactic(auto, using(crate::proofs::Skipped::loops))]
pub fn skip_turns(
    version: Version,
    left: usize,
    count: u32,
    bytes: &[u8],
) -> Result<&[u8], Violation>
    requires { left < 2 ^ 32 }
    ensures { Gives (λ x. x.now) told result (behind (read (nodes_within version left count) bytes.now)) }
{
    let mut rest = bytes;
    for _ in 0..count {
        rest = skip_node(version, left, rest)?;
    }
    Ok(rest)
}
