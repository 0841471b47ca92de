// The first writer of each node, and the least of some numbers.

ghost use Rattle.std.specs.Prelude.{◌≡◌, ℕ, nat_eq, IfOk, OnOk};
ghost use Rattle.std.specs.HashMap.{get};
ghost use Rattle.rb_flow.specs.Origins as words;

use rb_trees::{Memory, Writer};
use std::alloc::Global;
use std::collections::HashMap;

/// A writer that a source leads to: its level, its position and its place.
#[derive(Clone, Copy)]
pub struct Origin {
    pub level: usize,
    pub at: u32,
    pub place: usize,
}

// Of two origins the one of the lower level, then the one at the lesser position.
fn earlier_of(p: Option<Origin>, q: Option<Origin>) -> Option<Origin>
    ensures { result ≡ words.earlier_of p q }
{
    match (p, q) {
        (Some(a), Some(b)) => {
            if b.level < a.level || b.level == a.level && b.at < a.at {
                Some(b)
            } else {
                Some(a)
            }
        }
        (Some(a), None) => Some(a),
        (None, q) => q,
    }
}

// Keeps the first of the writers of what a writer writes, where a source leads to it.
fn add(
    origins: &mut HashMap<u32, Origin>,
    writer: &Writer,
    level: usize,
    place: usize,
) -> Result<(), Memory>
    ensures { OnOk result ((n : ℕ) → get nat_eq origins.new n ≡ words.with_writer place writer.now level n (get nat_eq origins.old n)) }
{
    if level > 0 {
        let node = writer.writes;
        let at = writer.at;
        let here = Some(Origin { level, at, place });
        let before = origins.get(&node).copied();
        if let Some(first) = earlier_of(before, here) {
            let _before = origins.insert(node, first)?;
        }
    }
    Ok(())
}

/// The first writer of each node: of those of the least level the one at the least position.
pub fn index_origins(
    alloc: Global,
    writers: &[Writer],
    levels: &[usize],
) -> Result<HashMap<u32, Origin>, Memory>
    ensures { IfOk result (λ m. (n : ℕ) → get nat_eq m n ≡ words.first_from 0 writers.now levels.now n None) }
{
    let mut origins = HashMap::new(alloc);
    let mut place = 0;
    for writer in writers {
        let level = levels.get(place).copied().unwrap_or(0);
        add(&mut origins, writer, level, place)?;
        place += 1;
    }
    Ok(origins)
}

/// The first of the writers of these nodes.
pub fn first_of(index: &HashMap<u32, Origin>, nodes: &[u32]) -> Option<Origin>
    ensures { result ≡ words.first_of (get nat_eq index.now) nodes.now None }
{
    let mut first = None;
    for node in nodes {
        first = earlier_of(first, index.get(node).copied());
    }
    first
}

/// The least of these numbers.
pub fn least_of(numbers: &[u32]) -> Option<u32>
    ensures { result ≡ words.least_of numbers.now None }
{
    let mut least = None;
    for number in numbers {
        least = match least {
            Some(x) => { if *number < x { Some(*number) } else { Some(x) } }
            None => Some(*number),
        };
    }
    least
}
