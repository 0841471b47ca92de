// A World that keeps what it is asked.

use rb_engine::{Frame, Halt, RunResult, State, World};
use rb_trees::{Memory, ReadError, Seq, Value};
use std::alloc::Global;

/// What code asked, a line each: what it prints, and the turns of its loops over lists. Nothing else is asked by code without
/// a batch and without a remote object, and would cut a run off.
#[derive(Drop)]
pub struct Record {
    asked: Seq<u8>,
}

impl Record {
    pub fn make(alloc: Global) -> Record {
        Record {
            asked: Seq::new(alloc),
        }
    }

    /// The lines so far.
    pub fn lines(&self) -> &[u8] {
        self.asked.as_slice()
    }

    fn add(&mut self, line: &[u8]) -> Result<(), Memory> {
        self.asked.extend_from_slice(line)?;
        self.asked.push(b'\n')
    }

    /// Adds a line, which is an answer that gives nothing.
    fn note(&mut self, line: &[u8]) -> RunResult<(), Memory> {
        match self.add(line) {
            Ok(()) => Ok(Ok(())),
            Err(_) => Err(Halt::Memory),
        }
    }

    /// Adds the end of a run where a fault ended it, by its code.
    pub fn end(&mut self, end: &RunResult<(), Memory>) -> Result<(), ReadError> {
        match end {
            Ok(Ok(())) => Ok(()),
            Ok(Err(raised)) if raised.fault.code == 7 => Ok(self.add(b"no fuel")?),
            Ok(Err(_)) => Ok(self.add(b"fault")?),
            Err(_) => Err(ReadError::Memory),
        }
    }
}

impl World for Record {
    type Stop = Memory;

    ghost answers = { λ before question answer after. Unit {0} };

    ghost performs = { λ before at l ended after. Unit {0} };

    fn line(&mut self, _at: u32, bytes: &[u8]) -> RunResult<(), Memory> {
        self.note(bytes)
    }

    fn batch(&mut self, _at: u32, _state: &mut State, _frame: &mut Frame) -> RunResult<(), Memory> {
        Err(Halt::Memory)
    }

    fn taken(&mut self, _step: u32) -> RunResult<Value, Memory> {
        Err(Halt::Memory)
    }

    fn invoke(
        &mut self,
        _at: u32,
        _target: Value,
        _method: &[u8],
        _args: Seq<Value>,
    ) -> RunResult<Value, Memory> {
        Err(Halt::Memory)
    }

    fn turn(&mut self, _at: u32) -> RunResult<(), Memory> {
        Err(Halt::Memory)
    }

    fn list_turn(&mut self, _at: u32) -> RunResult<(), Memory> {
        self.note(b"an item")
    }
}
