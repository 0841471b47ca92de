// The World of a service's code.

ghost use Rattle.std.specs.Prelude.{◌≡◌};
ghost use Rattle.rb_meaning_code.specs.Faults as faults;
ghost use Rattle.rb_meaning_code.specs.Faults.{raised};

use crate::frame::Frame;
use crate::state::State;
use crate::world::{RunResult, World};
use rb_trees::{Fault, Memory, Raised, Seq, Value};
use std::alloc::Global;

/// The surroundings of a service's code: a turn over a list goes on, and all else faults Kind. It never cuts a run off.
#[derive(Drop)]
pub struct ServiceWorld {
    alloc: Global,
}

impl ServiceWorld {
    /// The surroundings, which take no memory.
    pub fn new(alloc: Global) -> ServiceWorld {
        ServiceWorld { alloc }
    }

    // The fault Kind at a position.
    fn refuse(&self, at: u32) -> Raised
        ensures { result ≡ raised faults.kind at }
    {
        Raised {
            fault: Fault {
                code: 12,
                text: Seq::new(self.alloc),
            },
            at,
            remote: false,
        }
    }
}

impl World for ServiceWorld {
    ghost use Rattle.rb_engine.specs.Service.{service_answers, service_performs};

    type Stop = Memory;

    ghost answers = { service_answers };

    ghost performs = { service_performs };

    fn line(&mut self, at: u32, _bytes: &[u8]) -> RunResult<(), Memory> {
        Ok(Err(self.refuse(at)))
    }

    fn batch(&mut self, at: u32, _state: &mut State, _frame: &mut Frame) -> RunResult<(), Memory> {
        Ok(Err(self.refuse(at)))
    }

    fn taken(&mut self, _step: u32) -> RunResult<Value, Memory> {
        Ok(Err(self.refuse(0)))
    }

    fn invoke(
        &mut self,
        at: u32,
        _target: Value,
        _method: &[u8],
        _args: Seq<Value>,
    ) -> RunResult<Value, Memory> {
        Ok(Err(self.refuse(at)))
    }

    fn turn(&mut self, at: u32) -> RunResult<(), Memory> {
        Ok(Err(self.refuse(at)))
    }

    fn list_turn(&mut self, _at: u32) -> RunResult<(), Memory> {
        Ok(Ok(()))
    }
}
