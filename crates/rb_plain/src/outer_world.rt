// The surroundings of code that stands in no batch.

ghost use Rattle.std.specs.Prelude.{◌≡◌, ◌≤◌, OnOk};
ghost use Rattle.rb_engine.specs.Answers.{Answered, performed};
ghost use Rattle.rb_engine.specs.Locals.{local};
ghost use Rattle.rb_plain.specs.BatchRuns.{SettlesStep};
ghost use Rattle.rb_plain.specs.Entered.{Comes, Enters};
ghost use Rattle.rb_plain.specs.Worlds.{FindsBatch, PerformsBatch};

use crate::batch_run::{Start, begin, settle};
use crate::batch_world::BatchWorld;
use crate::batches::{Batches, root_of};
use crate::lists::takes_too_many;
use crate::remote_world::RemoteWorld;
use crate::stage::Stage;
use rb_base::{Failed, Sink};
use rb_engine::{Frame, Halt, RunResult, State, World, exec_slice};
use rb_flow::OpenBatch;
use rb_heap::Heap;
use rb_trees::{Change, Memory, Seq, Value, Word};
use std::alloc::Global;

/// The surroundings of code that stands in no batch: its lines go to the output, its batches are performed, and a turn
/// over a list goes on. All else faults Kind. A run is cut off where a write fails. It counts the batches that were begun,
/// and knows what others change before each of those to come.
#[derive(Drop)]
pub struct OuterWorld<'p, 'b, 'a, 'o, W> {
    pub batches: &'b Batches<'p>,
    pub inner: BatchWorld<'a, 'o, W>,
    pub exchanges: u64,
    pub others: &'b [Seq<Change>],
}

impl<'p, 'b, 'a, 'o, W: Sink> OuterWorld<'p, 'b, 'a, 'o, W> {
    /// The surroundings of a program's code over an output, with the service's first table, and what others will change.
    /// No batch was begun.
    pub fn over(
        alloc: Global,
        batches: &'b Batches<'p>,
        stage: Stage<'a>,
        table: Heap,
        others: &'b [Seq<Change>],
        out: &'o mut W,
    ) -> OuterWorld<'p, 'b, 'a, 'o, W>
        ensures batches { result.batches.now ≡ batches.now }
        ensures stage { result.inner.remote.stage ≡ stage.entry }
        ensures server { result.inner.remote.server ≡ record { table = table; fuel = 0 } }
        ensures exchanges { result.exchanges ≡ 0 }
        ensures others { result.others.now ≡ others.now }
        ensures same { result.inner.out.ghost_name ≡ out.entry.ghost_name }
        ensures now { result.inner.out.now ≡ out.old }
    {
        let remote = RemoteWorld::new(alloc, stage, table);
        OuterWorld {
            batches,
            inner: BatchWorld { remote, out },
            exchanges: 0,
            others,
        }
    }

    // Comes to a batch: others change the table that it finds.
    fn come(&mut self) -> Result<(), Memory>
        ensures { OnOk result (Comes self.old self.new) }
    {
        let Some((changes, rest)) = self.others.split_first() else {
            return Ok(());
        };
        self.others = rest;
        self.inner.remote.change(changes.as_slice())
    }
}

// How a batch's body ended, back outside.
#[inline(never)]
fn settled(
    alloc: Global,
    remote: &mut RemoteWorld<'_>,
    batch: &OpenBatch<'_>,
    start: Start,
    ended: RunResult<(), Failed>,
) -> RunResult<(), Failed>
    ensures { SettlesStep batch.now start ended result remote.old remote.new }
{
    match ended {
        Ok(Ok(())) => Ok(Ok(())),
        Ok(Err(raised)) => match settle(alloc, remote, batch, start, raised) {
            Ok(settled) => Ok(Err(settled)),
            Err(_) => Err(Halt::Memory),
        },
        Err(halt) => Err(halt),
    }
}

// Enters a batch: it is come to, counted, and begun. Where batches can't be counted any more, it is as if memory ran out.
#[inline(never)]
fn enter<W: Sink>(
    alloc: Global,
    world: &mut OuterWorld<'_, '_, '_, '_, W>,
    root: &Word,
    batch: &OpenBatch<'_>,
    frame: &mut Frame,
) -> Result<Start, Memory>
    ensures { Enters root.now batch.now result world.old frame.old world.new frame.new }
{
    world.come()?;
    let Some(exchanges) = world.exchanges.checked_add(1) else {
        return Err(Memory);
    };
    world.exchanges = exchanges;
    begin(alloc, &mut world.inner.remote, root, batch, frame)
}

// Performs a batch: `performs_batch`, on the table that it finds.
fn perform<W: Sink>(
    alloc: Global,
    world: &mut OuterWorld<'_, '_, '_, '_, W>,
    root: &Word,
    batch: &OpenBatch<'_>,
    state: &mut State,
    frame: &mut Frame,
) -> RunResult<(), Failed>
    ensures fuel { state.new.fuel ≤ state.old.fuel }
    ensures depth { state.new.depth ≡ state.old.depth }
    ensures performs { let before = local frame.old state.old in
        let ended = performed (local frame.new state.new) result in
        Answered ended (λ o. PerformsBatch W.Sink root.now batch.now world.old before o world.new) }
{
    let code = world.inner.remote.stage.code();
    let count = frame.len();
    let Ok(start) = enter(alloc, world, root, batch, frame) else {
        return Err(Halt::Memory);
    };
    let ended = exec_slice(alloc, code, state, frame, &mut world.inner, batch.block);
    frame.truncate(count);
    settled(alloc, &mut world.inner.remote, batch, start, ended)
}

// Performs a batch, unless it would take too many items along: `begins_or_faults`. Its root has its position.
fn perform_found<W: Sink>(
    alloc: Global,
    world: &mut OuterWorld<'_, '_, '_, '_, W>,
    root: (&Word, u32),
    batch: &OpenBatch<'_>,
    state: &mut State,
    frame: &mut Frame,
) -> RunResult<(), Failed>
    ensures fuel { state.new.fuel ≤ state.old.fuel }
    ensures depth { state.new.depth ≡ state.old.depth }
    ensures performs { let before = local frame.old state.old in
        let ended = performed (local frame.new state.new) result in
        Answered ended (λ o. FindsBatch W.Sink (root.entry.0.now, root.entry.1) batch.now world.old before o world.new) }
{
    let facts = world.inner.remote.stage.facts();
    let Ok(too_many) = takes_too_many(alloc, facts, batch, frame) else {
        return Err(Halt::Memory);
    };
    if too_many {
        return Ok(Err(world.inner.remote.too_large(root.1)));
    }
    perform(alloc, world, root.0, batch, state, frame)
}

impl<'p, 'b, 'a, 'o, W: Sink> World for OuterWorld<'p, 'b, 'a, 'o, W> {
    ghost use Rattle.rb_plain.specs.Worlds.{outer_answers, outer_performs};

    type Stop = Failed;

    ghost answers = { outer_answers W.Sink };

    ghost performs = { outer_performs W.Sink };

    fn line(&mut self, _at: u32, bytes: &[u8]) -> RunResult<(), Failed> {
        self.inner.print(bytes)
    }

    fn batch(&mut self, at: u32, state: &mut State, frame: &mut Frame) -> RunResult<(), Failed> {
        let batches = self.batches;
        let Some(batch) = batches.find(at) else {
            return Ok(Err(self.inner.remote.refuse(at)));
        };
        match root_of(batch) {
            Some(root) => {
                let alloc = self.inner.remote.alloc;
                perform_found(alloc, self, root, batch, state, frame)
            }
            None => Ok(Err(self.inner.remote.refuse(at))),
        }
    }

    fn taken(&mut self, _step: u32) -> RunResult<Value, Failed> {
        Ok(Err(self.inner.remote.refuse(0)))
    }

    fn invoke(
        &mut self,
        at: u32,
        _target: Value,
        _method: &[u8],
        _args: Seq<Value>,
    ) -> RunResult<Value, Failed> {
        Ok(Err(self.inner.remote.refuse(at)))
    }

    fn turn(&mut self, at: u32) -> RunResult<(), Failed> {
        Ok(Err(self.inner.remote.refuse(at)))
    }

    fn list_turn(&mut self, _at: u32) -> RunResult<(), Failed> {
        Ok(Ok(()))
    }
}
