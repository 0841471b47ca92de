// The surroundings of code that is replayed.

ghost use Rattle.std.specs.Prelude.{◌≡◌, [], ◌∷◌, IfOk};
ghost use Rattle.rb_engine.specs.Answers.{Answered, as_value};
ghost use Rattle.rb_wire_forest.specs.Fronts.{end_seen};
ghost use Rattle.rb_wire_forest.specs.Opens.{AtNode};
ghost use Rattle.rb_wire_forest.specs.Opened.{opened, root_of};
ghost use Rattle.rb_client.specs.Missed.{fault_open, missed_open, taken_open};
ghost use Rattle.rb_client.specs.Worlds.{Prints, Takes};

use crate::early::{Early, step_of};
use crate::faults::{far_fault, refuse};
use crate::lines::whole_line;
use rb_base::{Failed, Sink, write_whole};
use rb_engine::{Frame, Halt, RunResult, State, World};
use rb_trees::{Boxed, Memory, Raised, Seq, Value};
use rb_wire_fields::texts::value_of;
use rb_wire_forest::{Cursor, Forest, LentFault};
use std::alloc::Global;

/// The surroundings of code that is replayed: its lines go to the output, what was kept is read from what is left of the
/// node, or the node's fault is raised there, and a turn over a list goes on. All else faults Kind. A run is cut off where a
/// write fails.
#[derive(Drop)]
pub struct ReplayWorld<'n, 'o, W> {
    pub alloc: Global,
    pub left: Cursor<'n>,
    pub out: &'o mut W,
}

impl<'n, 'o, W: Sink> ReplayWorld<'n, 'o, W> {
    /// The surroundings over an output, with all of a forest's root.
    pub fn over(alloc: Global, forest: &Forest<'n>, out: &'o mut W) -> ReplayWorld<'n, 'o, W>
        ensures left { opened result.left ≡ AtNode (root_of forest.now) ∷ [] }
        ensures same { result.out.ghost_name ≡ out.entry.ghost_name }
        ensures now { result.out.now ≡ out.old }
    {
        ReplayWorld {
            alloc,
            left: forest.cursor(),
            out,
        }
    }

    /// Writes a line with its line feed.
    pub fn print(&mut self, bytes: &[u8]) -> RunResult<(), Failed>
        ensures { Answered (as_value result) (λ a. Prints W.Sink self.old bytes.now a self.new) }
    {
        let Ok(text) = whole_line(self.alloc, bytes) else {
            return Err(Halt::Memory);
        };
        match write_whole(self.out, text.as_slice()) {
            Ok(()) => Ok(Ok(())),
            Err(failed) => Err(Halt::World(failed)),
        }
    }

    /// The fault of the innermost node, where it is at a step, and no entry is left: `fault_open`.
    #[tactic(auto, using(crate::proofs::Missed::tests))]
    pub fn fault_at(&self, step: u32) -> Option<LentFault<'n>>
        ensures { end_seen result ≡ fault_open step (opened self.now.left) }
    {
        match self.left.fault() {
            Some(fault) => {
                if fault.step == step {
                    Some(fault)
                } else {
                    None
                }
            }
            None => None,
        }
    }

    /// The fault in place of what a part reads at a step: `missed_open`.
    pub fn missed(&self, step: u32) -> Result<Boxed<Raised>, Memory>
        ensures { IfOk result (λ r. r ≡ missed_open step (opened self.now.left)) }
    {
        match self.fault_at(step) {
            Some(fault) => far_fault(self.alloc, &fault),
            None => Boxed::new(self.alloc, refuse(self.alloc, 0)),
        }
    }

    /// Reads what a step kept: `taken_open`. A text is copied.
    #[inline(always)]
    pub fn take(&mut self, step: u32) -> Result<Value, Early>
        ensures { Takes (taken_open step (opened self.old.left)) self.old result self.new }
    {
        match self.left.value() {
            Some(item) => Ok(value_of(self.alloc, item)?),
            None => Err(Early::Raised(self.missed(step)?)),
        }
    }
}

impl<'n, 'o, W: Sink> World for ReplayWorld<'n, 'o, W> {
    ghost use Rattle.rb_client.specs.Worlds.{replay_answers, replay_performs};

    type Stop = Failed;

    ghost answers = { replay_answers W.Sink };

    ghost performs = { replay_performs W.Sink };

    fn line(&mut self, _at: u32, bytes: &[u8]) -> RunResult<(), Failed> {
        self.print(bytes)
    }

    fn batch(&mut self, at: u32, _state: &mut State, _frame: &mut Frame) -> RunResult<(), Failed> {
        Ok(Err(refuse(self.alloc, at)))
    }

    fn taken(&mut self, step: u32) -> RunResult<Value, Failed> {
        step_of(self.take(step))
    }

    fn invoke(
        &mut self,
        at: u32,
        _target: Value,
        _method: &[u8],
        _args: Seq<Value>,
    ) -> RunResult<Value, Failed> {
        Ok(Err(refuse(self.alloc, at)))
    }

    fn turn(&mut self, at: u32) -> RunResult<(), Failed> {
        Ok(Err(refuse(self.alloc, at)))
    }

    fn list_turn(&mut self, _at: u32) -> RunResult<(), Failed> {
        Ok(Ok(()))
    }
}
