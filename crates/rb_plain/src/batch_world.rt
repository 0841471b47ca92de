// The surroundings of the code in a batch.

ghost use Rattle.rb_engine.specs.Answers.{Answered, as_value};
ghost use Rattle.rb_plain.specs.Worlds.{Prints};

use crate::lines::whole_line;
use crate::remote_world::RemoteWorld;
use rb_base::{Failed, Sink, write_whole};
use rb_engine::{Frame, Halt, RunResult, State, World};
use rb_trees::{Seq, Value};

/// The surroundings of the code in a batch: its lines go to the output, its remote calls are performed where they stand,
/// and a turn over rows or of a carried loop takes a unit of remote fuel. All else but a turn of another loop faults Kind.
/// A run is cut off where a write fails.
#[derive(Drop)]
pub struct BatchWorld<'a, 'o, W> {
    pub remote: RemoteWorld<'a>,
    pub out: &'o mut W,
}

impl<'a, 'o, W: Sink> BatchWorld<'a, 'o, W> {
    /// Writes a line with its line feed.
    pub fn print(&mut self, bytes: &[u8]) -> RunResult<(), Failed>
        ensures { Answered (as_value result) (λ a. Prints W.Sink self.old bytes.now a self.new) }
    {
        let Ok(text) = whole_line(self.remote.alloc, bytes) else {
            return Err(Halt::Memory);
        };
        match write_whole(self.out, text.as_slice()) {
            Ok(()) => Ok(Ok(())),
            Err(failed) => Err(Halt::World(failed)),
        }
    }
}

impl<'a, 'o, W: Sink> World for BatchWorld<'a, 'o, W> {
    ghost use Rattle.rb_plain.specs.Worlds.{batch_answers, batch_performs};

    type Stop = Failed;

    ghost answers = { batch_answers W.Sink };

    ghost performs = { batch_performs W.Sink };

    fn line(&mut self, _at: u32, bytes: &[u8]) -> RunResult<(), Failed> {
        self.print(bytes)
    }

    fn batch(&mut self, at: u32, _state: &mut State, _frame: &mut Frame) -> RunResult<(), Failed> {
        Ok(Err(self.remote.refuse(at)))
    }

    fn taken(&mut self, _step: u32) -> RunResult<Value, Failed> {
        Ok(Err(self.remote.refuse(0)))
    }

    fn invoke(
        &mut self,
        at: u32,
        target: Value,
        method: &[u8],
        args: Seq<Value>,
    ) -> RunResult<Value, Failed> {
        match self.remote.call(at, target, method, args) {
            Ok(answer) => Ok(answer),
            Err(_) => Err(Halt::Memory),
        }
    }

    fn turn(&mut self, at: u32) -> RunResult<(), Failed> {
        Ok(self.remote.take_unit(at))
    }

    fn list_turn(&mut self, at: u32) -> RunResult<(), Failed> {
        if self.remote.stage.is_carried_at(at) {
            return Ok(self.remote.take_unit(at));
        }
        Ok(Ok(()))
    }
}
