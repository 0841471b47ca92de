// The chain that is named: a walk back from a bad part, always to the first writer of what is read.

ghost use Rattle.std.specs.Prelude.{◌≡◌, ℕ, ◌+◌, ◌<◌, List, [], ◌∷◌, nat_eq, IfOk, OnOk, IfSome, IfNone};
ghost use Rattle.std.specs.HashMap.{get};
ghost use Rattle.rb_meaning_flow.specs.Chains.{PositionsDiffer, IsChain, IsLeastChain};
ghost use Rattle.rb_flow.specs.Walks.{Guides, Stands, IsWayTo, Ended};

use crate::levels::levels_of;
use crate::origins::{Origin, first_of, index_origins, least_of};
use rb_trees::{BadPart, Memory, Seq, Writer};
use std::alloc::Global;
use std::collections::HashMap;

/// What a search through the writers of a batch found: their levels, and the first writer of each node.
#[derive(Drop)]
pub struct Reach {
    levels: Vec<usize>,
    origins: HashMap<u32, Origin>,
}

/// Searches the writers of a batch by levels.
pub fn search_levels(alloc: Global, writers: &[Writer]) -> Result<Reach, Memory>
    ensures { IfOk result (λ s. Guides writers.now s.levels.items (get nat_eq s.origins)) }
{
    let levels = levels_of(alloc, writers)?;
    let origins = index_origins(alloc, writers, &levels)?;
    Ok(Reach { levels, origins })
}

// The first writer of what the writer here reads.
fn step_back(writers: &[Writer], search: &Reach, here: Origin) -> Origin
    requires differ { PositionsDiffer writers.now }
    requires guides { Guides writers.now search.now.levels.items (get nat_eq search.now.origins) }
    requires stands { Stands writers.now search.now.levels.items here }
    requires further { 1 < here.level }
    ensures stands { Stands writers.now search.now.levels.items result }
    ensures lower { result.level + 1 ≡ here.level }
    ensures way { (c : ℕ) (ps : List ℕ) → IsWayTo writers.now result c ps → IsWayTo writers.now here c (result.at ∷ ps) }
{
    let writer = &writers[here.place];
    first_of(&search.origins, writer.reads.as_slice()).unwrap()
}

// The least source of the writer here.
fn source_of(writers: &[Writer], search: &Reach, here: Origin) -> u32
    requires guides { Guides writers.now search.now.levels.items (get nat_eq search.now.origins) }
    requires stands { Stands writers.now search.now.levels.items here }
    requires first { here.level ≡ 1 }
    ensures { IsWayTo writers.now here result [] }
{
    let writer = &writers[here.place];
    least_of(writer.sources.as_slice()).unwrap()
}

// Adds the positions from a writer back to a source.
fn walk(
    writers: &[Writer],
    search: &Reach,
    from: Origin,
    positions: &mut Vec<u32>,
) -> Result<(), Memory>
    requires differ { PositionsDiffer writers.now }
    requires guides { Guides writers.now search.now.levels.items (get nat_eq search.now.origins) }
    requires stands { Stands writers.now search.now.levels.items from }
    ensures { OnOk result (Ended writers.now positions.old.items positions.new.items from) }
{
    positions.push(from.at)?;
    let mut here = from;
    'back: while here.level > 1 {
        here = step_back(writers, search, here);
        positions.push(here.at)?;
    }
    let source = source_of(writers, search, here);
    positions.push(source)?;
    Ok(())
}

/// The chain that is named for a bad part, by what a search found, or None where no chain leads to it.
pub fn chain_to(
    alloc: Global,
    writers: &[Writer],
    search: &Reach,
    part: &BadPart,
) -> Result<Option<Seq<u32>>, Memory>
    requires differ { PositionsDiffer writers.now }
    requires guides { Guides writers.now search.now.levels.items (get nat_eq search.now.origins) }
    ensures chain { IfOk result (λ answer. IfSome answer (IsLeastChain writers.now part.now)) }
    ensures none { IfOk result (λ answer. IfNone answer ((chain : List ℕ) → IsChain writers.now part.now chain → ⊥)) }
{
    let mut positions = Vec::new(alloc);
    positions.push(part.at)?;
    match least_of(part.sources.as_slice()) {
        Some(source) => {
            positions.push(source)?;
        }
        None => match first_of(&search.origins, part.reads.as_slice()) {
            Some(origin) => {
                walk(writers, search, origin, &mut positions)?;
            }
            None => {
                return Ok(None);
            }
        },
    }
    positions.reverse();
    Ok(Some(Seq::from_vec(positions)))
}

/// The chain that is named for a bad part, or None where no chain leads to it.
pub fn least_chain(
    alloc: Global,
    writers: &[Writer],
    part: &BadPart,
) -> Result<Option<Seq<u32>>, Memory>
    requires { PositionsDiffer writers.now }
    ensures chain { IfOk result (λ answer. IfSome answer (IsLeastChain writers.now part.now)) }
    ensures none { IfOk result (λ answer. IfNone answer ((chain : List ℕ) → IsChain writers.now part.now chain → ⊥)) }
{
    let search = search_levels(alloc, writers)?;
    chain_to(alloc, writers, &search, part)
}
