// Which writers read each node.

ghost use Rattle.std.specs.Prelude.{◌≡◌, ℕ, ◌++◌, IfOk, OnOk};
ghost use Rattle.rb_flow.specs.Levels.{bucket, with_place, copies, readers_from};

use rb_trees::{Memory, Seq, Writer};
use std::alloc::Global;
use std::collections::HashMap;

// Notes that the writer at a place reads a node.
fn add(
    alloc: Global,
    readers: &mut HashMap<u32, Seq<usize>>,
    node: u32,
    place: usize,
) -> Result<(), Memory>
    ensures { OnOk result ((n : ℕ) → bucket readers.new n ≡ with_place node place n (bucket readers.old n)) }
{
    let mut places = match readers.remove(&node) {
        Some(places) => places,
        None => Seq::new(alloc),
    };
    places.push(place)?;
    let _before = readers.insert(node, places)?;
    Ok(())
}

// The same of each of these nodes.
fn add_all(
    alloc: Global,
    readers: &mut HashMap<u32, Seq<usize>>,
    nodes: &[u32],
    place: usize,
) -> Result<(), Memory>
    ensures { OnOk result ((n : ℕ) → bucket readers.new n ≡ bucket readers.old n ++ copies place nodes.now n) }
{
    for node in nodes {
        add(alloc, readers, *node, place)?;
    }
    Ok(())
}

/// The places of the writers that read each node.
pub fn index_readers(alloc: Global, writers: &[Writer]) -> Result<HashMap<u32, Seq<usize>>, Memory>
    ensures { IfOk result (λ readers. (n : ℕ) → bucket readers n ≡ readers_from 0 writers.now n) }
{
    let mut readers = HashMap::new(alloc);
    let mut place = 0;
    for writer in writers {
        add_all(alloc, &mut readers, writer.reads.as_slice(), place)?;
        place += 1;
    }
    Ok(readers)
}
