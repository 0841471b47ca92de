// How a batch begins, and what a local fault in it leaves.

ghost use Rattle.std.specs.Prelude.{◌≡◌, IfOk, OnOk};
ghost use Rattle.rb_plain.specs.BatchRuns.{Begins, IsOver, Prepares, SetsTable, Settles, sided, whole_from, whole_table};

use crate::remote_world::RemoteWorld;
use crate::stage::Stage;
use crate::walk::perform_block;
use rb_engine::{Frame, Miss};
use rb_flow::OpenBatch;
use rb_heap::Heap;
use rb_trees::{Memory, Raised, Value, Word};
use std::alloc::Global;

/// The units of remote fuel of a batch: `batch_fuel`.
const BATCH_FUEL: u64 = 1_000_000;

/// The names that are copied where a batch begins. Where there are more, its whole remote part is performed at once.
const MOST_COPIED: usize = 1_000;

/// What tells the table of a batch's whole remote part: copies of the names and of the table at its start, or that table itself.
#[derive(Drop)]
pub enum Start {
    Copied(Frame, Heap),
    Performed(Heap),
}

// Performs the whole remote part of a batch that begins here. The names and the table stay.
#[inline(never)]
fn perform_ahead(
    alloc: Global,
    world: &mut RemoteWorld<'_>,
    batch: &OpenBatch<'_>,
    frame: &mut Frame,
) -> Result<Start, Memory>
    ensures { Prepares batch.now result world.old frame.old world.new frame.new }
{
    let mut scope = batch.scope.copy(alloc)?;
    let table = world.server.table().copy(alloc)?;
    let own = world.server.replace_table(table);
    world.server.refuel(BATCH_FUEL);
    let count = frame.len();
    let ended = perform_block(alloc, world, &mut scope, frame, batch.block);
    frame.truncate(count);
    let whole = world.server.replace_table(own);
    over(ended)?;
    Ok(Start::Performed(whole))
}

// The start of a batch that begins here.
fn start_of(
    alloc: Global,
    world: &mut RemoteWorld<'_>,
    batch: &OpenBatch<'_>,
    frame: &mut Frame,
) -> Result<Start, Memory>
    ensures { Prepares batch.now result world.old frame.old world.new frame.new }
{
    if frame.len() > MOST_COPIED {
        return perform_ahead(alloc, world, batch, frame);
    }
    let names = frame.copy(alloc)?;
    let table = world.server.table().copy(alloc)?;
    Ok(Start::Copied(names, table))
}

/// Begins a batch: its root is bound, and the remote fuel is fresh.
#[inline(never)]
pub fn begin(
    alloc: Global,
    world: &mut RemoteWorld<'_>,
    root: &Word,
    batch: &OpenBatch<'_>,
    frame: &mut Frame,
) -> Result<Start, Memory>
    ensures { Begins root.now batch.now result world.old frame.old world.new frame.new }
{
    frame.bind(alloc, root.as_slice(), Value::Remote(world.stage.root()))?;
    let start = start_of(alloc, world, batch, frame)?;
    world.server.refuel(BATCH_FUEL);
    Ok(start)
}

// A fault with its side: `with_side`.
fn with_side(stage: &Stage<'_>, raised: Raised) -> Raised
    ensures { result ≡ sided stage.now raised }
{
    let remote = raised.remote || stage.stands_remote(raised.at);
    Raised {
        fault: raised.fault,
        at: raised.at,
        remote,
    }
}

// A walk is over, by a fault too, unless memory ran out.
fn over(ended: Result<(), Miss>) -> Result<(), Memory>
    ensures { OnOk result (IsOver ended) }
{
    match ended {
        Ok(()) => Ok(()),
        Err(Miss::Fault(_, _)) => Ok(()),
        Err(Miss::Memory) => Err(Memory),
    }
}

// Performs the whole remote part of a batch from these names and this table: the table is what that leaves.
#[inline(never)]
fn perform_from(
    alloc: Global,
    world: &mut RemoteWorld<'_>,
    batch: &OpenBatch<'_>,
    mut names: Frame,
    table: Heap,
) -> Result<(), Memory>
    ensures { OnOk result (SetsTable (whole_from world.old.stage batch.now names table) world.old world.new) }
{
    let mut scope = batch.scope.copy(alloc)?;
    let fuel = world.server.fuel();
    let _body = world.server.replace_table(table);
    world.server.refuel(BATCH_FUEL);
    let ended = perform_block(alloc, world, &mut scope, &mut names, batch.block);
    world.server.refuel(fuel);
    over(ended)
}

// The table becomes that of the whole remote part of a batch.
fn perform_whole(
    alloc: Global,
    world: &mut RemoteWorld<'_>,
    batch: &OpenBatch<'_>,
    start: Start,
) -> Result<(), Memory>
    ensures { OnOk result (SetsTable (whole_table world.old.stage batch.now start) world.old world.new) }
{
    match start {
        Start::Copied(names, table) => perform_from(alloc, world, batch, names, table),
        Start::Performed(table) => {
            let _body = world.server.replace_table(table);
            Ok(())
        }
    }
}

/// A fault of a batch, back outside: where it is local, the table is that of the whole remote part.
#[inline(never)]
pub fn settle(
    alloc: Global,
    world: &mut RemoteWorld<'_>,
    batch: &OpenBatch<'_>,
    start: Start,
    raised: Raised,
) -> Result<Raised, Memory>
    ensures { IfOk result (λ r. Settles batch.now start raised r world.old world.new) }
{
    let raised = with_side(&world.stage, raised);
    if !raised.remote {
        perform_whole(alloc, world, batch, start)?;
    }
    Ok(raised)
}
