// Whether a fault ends a part of a forest, which is passed over at the front of the bytes.

ghost use Rattle.std.specs.Prelude.{◌<◌, ◌^◌};
ghost use Rattle.rb_trees.specs.mirror.Forests.{entries_from, nodes_from};
ghost use Rattle.rb_meaning_bytes.specs.formats.Reading.{read};
ghost use Rattle.rb_meaning_bytes.specs.formats.Forests as format;
ghost use Rattle.rb_meaning_bytes.specs.Fits.{ends_early, last_ends_early, entry_ends_early, last_turn_ends_early};
ghost use Rattle.rb_trees.specs.Outcome.{Gives};
ghost use Rattle.rb_wire_fields.specs.Stops.{told};
ghost use Rattle.rb_wire_forest.specs.Levels.{entry_within, entries_within, nodes_within};
ghost use Rattle.rb_wire_forest.specs.Passed.{tested};

use crate::heads::end;
use crate::skips::{skip_entries, skip_turns};
use rb_trees::Version;
use rb_wire_fields::fields::{bad_tag, byte, number, too_deep, truth};
use rb_wire_fields::stop::Violation;
use rb_wire_fields::texts::primitive;

/// A node, with at most so many within each other: whether a fault ends it, its own or one within its last entry.
#[cycle(early)]
#[tactic(auto, using(crate::proofs::EndedEarly::nodes))]
fn node_early(version: Version, left: usize, bytes: &[u8]) -> Result<(bool, &[u8]), Violation>
    requires { left < 2 ^ 32 }
    ensures { Gives (λ x. (x.0, x.1.now)) told result (tested ends_early (read (format.node version left) bytes.now)) }
{
    if left == 0 {
        return Err(too_deep(bytes));
    }
    let (count, rest) = number(bytes)?;
    let (early, rest) = entries_early(version, left - 1, count, rest)?;
    let (fault, rest) = end(version, rest)?;
    Ok((fault.is_some() || early, rest))
}

/// So many entries: whether a fault ends the last of them.
#[cycle(early)]
#[tactic(auto, using(crate::proofs::EndedEarly::entries))]
fn entries_early(
    version: Version,
    left: usize,
    count: u32,
    bytes: &[u8],
) -> Result<(bool, &[u8]), Violation>
    requires { left < 2 ^ 32 }
    ensures { Gives (λ x. (x.0, x.1.now)) told result
        (tested (λ es. last_ends_early (entries_from es)) (read (entries_within version left count) bytes.now)) }
{
    if count == 0 {
        return Ok((false, bytes));
    }
    let rest = skip_entries(version, left, count - 1, bytes)?;
    entry_early(version, left, rest)
}

/// An entry: whether a fault ends it.
#[cycle(early)]
#[tactic(auto, using(crate::proofs::EndedEarly::forms))]
fn entry_early(version: Version, left: usize, bytes: &[u8]) -> Result<(bool, &[u8]), Violation>
    requires { left < 2 ^ 32 }
    ensures { Gives (λ x. (x.0, x.1.now)) told result
        (tested entry_ends_early (read (entry_within version left) bytes.now)) }
{
    let (tag, rest) = byte(bytes)?;
    match tag {
        0x31 => {
            let (_, rest) = primitive(version, rest)?;
            Ok((false, rest))
        }
        0x32 => {
            let (_, rest) = truth(rest)?;
            node_early(version, left, rest)
        }
        0x33 => {
            let (count, rest) = number(rest)?;
            turns_early(version, left, count, rest)
        }
        _ => Err(bad_tag(rest)),
    }
}

/// So many nodes of turns: whether a fault ends the last of them.
#[cycle(early)]
#[tactic(auto, using(crate::proofs::EndedEarly::turns))]
pub fn turns_early(
    version: Version,
    left: usize,
    count: u32,
    bytes: &[u8],
) -> Result<(bool, &[u8]), Violation>
    requires { left < 2 ^ 32 }
    ensures { Gives (λ x. (x.0, x.1.now)) told result
        (tested (λ ns. last_turn_ends_early (nodes_from ns)) (read (nodes_within version left count) bytes.now)) }
{
    if count == 0 {
        return Ok((false, bytes));
    }
    let rest = skip_turns(version, left, count - 1, bytes)?;
    node_early(version, left, rest)
}
