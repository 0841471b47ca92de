// The surroundings of code that stands in no batch.

ghost use Rattle.std.specs.Prelude.{◌≡◌, ◌≤◌, length, false, Some};
ghost use Rattle.rb_meaning_split.specs.Division.{mirror_split};
ghost use Rattle.rb_engine.specs.Answers.{Answered, performed};
ghost use Rattle.rb_engine.specs.Locals.{local};
ghost use Rattle.rb_client.specs.Clients.{Fetches, PerformsSplit};
ghost use Rattle.rb_client.specs.Ends.{halted, stepped};
ghost use Rattle.rb_client.specs.Exchanges.{CanBeSent};
ghost use Rattle.rb_client.specs.Inputs.{Measures, exceed};

use crate::early::Early;
use crate::faults::{refuse, too_large};
use crate::inputs::lengths_of;
use crate::lines::whole_line;
use crate::plan::Plan;
use crate::replay::perform_remainder;
use crate::replies::{read_reply, send};
use crate::requests::request_of;
use crate::stops::RunStop;
use rb_base::{Link, Reply, Sink, write_whole};
use rb_engine::{Frame, Halt, RunResult, State, World};
use rb_trees::{Seq, Split, Value};
use std::alloc::Global;

/// The surroundings of code that stands in no batch: its lines go to the output, and a turn over a list goes on. For a batch
/// its script is sent, and its remainder is performed on the node that is replied; where its inputs have too many items, it
/// faults before it begins. All else faults Kind. A run is cut off where a write fails, and where an exchange gives no node. It
/// counts the exchanges that gave one.
#[derive(Drop)]
pub struct ClientWorld<'a, 'l, 'o, L, W> {
    pub alloc: Global,
    pub plan: &'a Plan<'a>,
    pub link: &'l mut L,
    pub out: &'o mut W,
    pub exchanges: u64,
}

impl<'a, 'l, 'o, L: Link, W: Sink> ClientWorld<'a, 'l, 'o, L, W> {
    /// The surroundings of a plan's code over a link and an output. Nothing was exchanged.
    pub fn over(
        alloc: Global,
        plan: &'a Plan<'a>,
        link: &'l mut L,
        out: &'o mut W,
    ) -> ClientWorld<'a, 'l, 'o, L, W>
        ensures plan { result.plan.now ≡ plan.now }
        ensures same_link { result.link.ghost_name ≡ link.entry.ghost_name }
        ensures link { result.link.now ≡ link.old }
        ensures same_output { result.out.ghost_name ≡ out.entry.ghost_name }
        ensures out { result.out.now ≡ out.old }
        ensures exchanges { result.exchanges ≡ 0 }
    {
        ClientWorld {
            alloc,
            plan,
            link,
            out,
            exchanges: 0,
        }
    }
}

// Exchanges the script of a batch for a reply.
#[inline(never)]
fn fetch<L: Link, W: Sink>(
    alloc: Global,
    world: &mut ClientWorld<'_, '_, '_, L, W>,
    split: &Split,
    frame: &Frame,
) -> Result<Reply, RunStop>
    requires sent { CanBeSent (mirror_split split.now).script }
    requires counted { (mirror_split split.now).script.inputs ≡ length split.now.inputs }
    requires few { exceed split.now.inputs frame.now ≡ false }
    ensures { Fetches L.Link split.now frame.now world.old result world.new }
{
    let request = request_of(alloc, split, frame)?;
    send(world.link, request.as_slice(), world.exchanges)
}

// How a remainder ended, as a step.
fn step_of(ended: Result<(), Early>) -> RunResult<(), RunStop>
    ensures { result ≡ stepped ended }
{
    match ended {
        Ok(()) => Ok(Ok(())),
        Err(Early::Raised(raised)) => Ok(Err(raised.into_inner())),
        Err(Early::WriteFault) => Err(Halt::World(RunStop::WriteFault)),
        Err(Early::Memory) => Err(Halt::Memory),
    }
}

// Why a node isn't there, as a halt.
fn halt_of(stop: RunStop) -> Halt<RunStop>
    ensures { result ≡ halted stop }
{
    match stop {
        RunStop::Memory => Halt::Memory,
        other => Halt::World(other),
    }
}

// Performs a batch whose inputs have these numbers of items, not too many together. Where exchanges can't be counted any more,
// the run is cut off as for want of memory.
#[inline(never)]
fn perform_begun<L: Link, W: Sink>(
    alloc: Global,
    world: &mut ClientWorld<'_, '_, '_, L, W>,
    split: &Split,
    lengths: &[u32],
    state: &mut State,
    frame: &mut Frame,
) -> RunResult<(), RunStop>
    requires sent { CanBeSent (mirror_split split.now).script }
    requires counted { (mirror_split split.now).script.inputs ≡ length split.now.inputs }
    requires measured { Measures split.now.inputs frame.old (Some lengths.now) }
    ensures fuel { state.new.fuel ≤ state.old.fuel }
    ensures depth { state.new.depth ≡ state.old.depth }
    ensures performs { let before = local frame.old state.old in
        let ended = performed (local frame.new state.new) result in
        Answered ended (λ e. PerformsSplit L.Link W.Sink split.now world.old before e world.new) }
{
    let code = world.plan.code();
    let done = world.exchanges;
    let Some(next) = done.checked_add(1) else {
        return Err(Halt::Memory);
    };
    let reply = match fetch(alloc, world, split, frame) {
        Ok(reply) => reply,
        Err(stop) => return Err(halt_of(stop)),
    };
    let forest = match read_reply(alloc, &reply, &split.remainder, lengths, done) {
        Ok(forest) => forest,
        Err(stop) => return Err(halt_of(stop)),
    };
    world.exchanges = next;
    step_of(perform_remainder(
        alloc,
        code,
        state,
        frame,
        &forest,
        &split.remainder,
        world.out,
    ))
}

// Performs a batch: `performs_divided`. Where its inputs have too many items, it ends by a fault before it begins.
fn perform<L: Link, W: Sink>(
    alloc: Global,
    world: &mut ClientWorld<'_, '_, '_, L, W>,
    split: &Split,
    state: &mut State,
    frame: &mut Frame,
) -> RunResult<(), RunStop>
    requires sent { CanBeSent (mirror_split split.now).script }
    requires counted { (mirror_split split.now).script.inputs ≡ length split.now.inputs }
    ensures fuel { state.new.fuel ≤ state.old.fuel }
    ensures depth { state.new.depth ≡ state.old.depth }
    ensures performs { let before = local frame.old state.old in
        let ended = performed (local frame.new state.new) result in
        Answered ended (λ e. PerformsSplit L.Link W.Sink split.now world.old before e world.new) }
{
    match lengths_of(alloc, split.inputs.as_slice(), frame) {
        Ok(Some(lengths)) => perform_begun(alloc, world, split, lengths.as_slice(), state, frame),
        Ok(None) => Ok(Err(too_large(alloc, split.at))),
        Err(_) => Err(Halt::Memory),
    }
}

impl<'a, 'l, 'o, L: Link, W: Sink> World for ClientWorld<'a, 'l, 'o, L, W> {
    ghost use Rattle.rb_client.specs.Clients.{client_answers, client_performs};

    type Stop = RunStop;

    ghost answers = { client_answers L.Link W.Sink };

    ghost performs = { client_performs L.Link W.Sink };

    fn line(&mut self, _at: u32, bytes: &[u8]) -> RunResult<(), RunStop> {
        let Ok(text) = whole_line(self.alloc, bytes) else {
            return Err(Halt::Memory);
        };
        match write_whole(self.out, text.as_slice()) {
            Ok(()) => Ok(Ok(())),
            Err(_) => Err(Halt::World(RunStop::WriteFault)),
        }
    }

    fn batch(&mut self, at: u32, state: &mut State, frame: &mut Frame) -> RunResult<(), RunStop> {
        let alloc = self.alloc;
        match self.plan.find(at) {
            Some(split) => perform(alloc, self, split, state, frame),
            None => Ok(Err(refuse(alloc, at))),
        }
    }

    fn taken(&mut self, _step: u32) -> RunResult<Value, RunStop> {
        Ok(Err(refuse(self.alloc, 0)))
    }

    fn invoke(
        &mut self,
        at: u32,
        _target: Value,
        _method: &[u8],
        _args: Seq<Value>,
    ) -> RunResult<Value, RunStop> {
        Ok(Err(refuse(self.alloc, at)))
    }

    fn turn(&mut self, at: u32) -> RunResult<(), RunStop> {
        Ok(Err(refuse(self.alloc, at)))
    }

    fn list_turn(&mut self, _at: u32) -> RunResult<(), RunStop> {
        Ok(Ok(()))
    }
}
