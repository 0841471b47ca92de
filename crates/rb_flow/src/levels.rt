// A search through the writers by levels.

ghost use Rattle.std.specs.Prelude.{◌≡◌, ℕ, ◌≤◌, [], map, IfOk, OnOk};
ghost use Rattle.rb_flow.specs.Levels.{bucket, taken_out, Serves, first_level, started, after, after_all, Reaches, Certificate};

use crate::readers::index_readers;
use rb_trees::{Memory, Seq, Writer};
use std::alloc::Global;
use std::collections::HashMap;

// Gives the level to each of these places that has none yet, and notes it.
fn reach(
    levels: &mut Vec<usize>,
    next: &mut Vec<usize>,
    level: usize,
    places: &[usize],
) -> Result<(), Memory>
    ensures { OnOk result (Reaches level places.now levels.old.items next.old.items levels.new.items next.new.items) }
{
    for place in places {
        let place = *place;
        if place < levels.len() {
            if levels[place] == 0 {
                levels[place] = level;
                next.push(place)?;
            }
        }
    }
    Ok(())
}

// Takes out the places of the writers that read a node.
fn take_readers(alloc: Global, readers: &mut HashMap<u32, Seq<usize>>, node: u32) -> Seq<usize>
    ensures places { result ≡ bucket readers.old node }
    ensures after { (n : ℕ) → bucket readers.new n ≡ taken_out node n (bucket readers.old n) }
{
    match readers.remove(&node) {
        Some(places) => places,
        None => Seq::new(alloc),
    }
}

// The same for all that read what the writer at a place writes. What is read of a node is looked at
// once, when the first of its writers is reached.
fn reach_after(
    alloc: Global,
    readers: &mut HashMap<u32, Seq<usize>>,
    writers: &[Writer],
    levels: &mut Vec<usize>,
    next: &mut Vec<usize>,
    level: usize,
    place: usize,
) -> Result<(), Memory>
    requires positive { 1 ≤ level }
    requires serves { Serves (bucket readers.old) writers.now levels.old.items }
    ensures reached { OnOk result (Reaches level (after writers.now place) levels.old.items next.old.items levels.new.items next.new.items) }
    ensures serves { OnOk result (Serves (bucket readers.new) writers.now levels.new.items) }
{
    match writers.get(place) {
        Some(writer) => {
            let places = take_readers(alloc, readers, writer.writes);
            reach(levels, next, level, places.as_slice())?;
            Ok(())
        }
        None => Ok(()),
    }
}

// The same for all that read what the writers at the frontier write.
fn reach_all(
    alloc: Global,
    readers: &mut HashMap<u32, Seq<usize>>,
    writers: &[Writer],
    levels: &mut Vec<usize>,
    next: &mut Vec<usize>,
    level: usize,
    frontier: &[usize],
) -> Result<(), Memory>
    requires positive { 1 ≤ level }
    requires serves { Serves (bucket readers.old) writers.now levels.old.items }
    ensures reached { let all = after_all writers.now frontier.now in
        OnOk result (Reaches level all levels.old.items next.old.items levels.new.items next.new.items) }
    ensures serves { OnOk result (Serves (bucket readers.new) writers.now levels.new.items) }
{
    for place in frontier {
        reach_after(alloc, readers, writers, levels, next, level, *place)?;
    }
    Ok(())
}

// The level 1 for each writer with a source, 0 for the others, and the places of the former.
fn start(
    writers: &[Writer],
    levels: &mut Vec<usize>,
    frontier: &mut Vec<usize>,
) -> Result<(), Memory>
    requires levels { levels.old.items ≡ [] }
    requires frontier { frontier.old.items ≡ [] }
    ensures levels { OnOk result (levels.new.items ≡ map first_level writers.now) }
    ensures frontier { OnOk result (frontier.new.items ≡ started 0 writers.now) }
{
    let mut place = 0;
    for writer in writers {
        if writer.sources.is_empty() {
            levels.push(0)?;
        } else {
            levels.push(1)?;
            frontier.push(place)?;
        }
        place += 1;
    }
    Ok(())
}

/// The level of each writer: how many writers a shortest way from a source to it has, it included, or 0
/// where no source leads to it.
pub fn levels_of(alloc: Global, writers: &[Writer]) -> Result<Vec<usize>, Memory>
    ensures { IfOk result (λ levels. Certificate writers.now levels.items) }
{
    let mut readers = index_readers(alloc, writers)?;
    let mut levels = Vec::new(alloc);
    let mut frontier = Vec::new(alloc);
    start(writers, &mut levels, &mut frontier)?;
    let mut level = 1;
    'levels: while !frontier.is_empty() {
        level += 1;
        let mut next = Vec::new(alloc);
        reach_all(
            alloc,
            &mut readers,
            writers,
            &mut levels,
            &mut next,
            level,
            &frontier,
        )?;
        frontier = next;
    }
    Ok(levels)
}
