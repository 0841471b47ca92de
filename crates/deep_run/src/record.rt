// The World of the deepest programs.

use rb_engine::{Frame, Halt, RunResult, State, World};
use rb_trees::{Memory, Seq, Value};
use std::alloc::Global;

/// Keeps what is printed, a word for each line. It answers no remote call with a value of its own.
#[derive(Drop)]
pub struct Record {
    printed: Seq<u8>,
}

impl Record {
    /// Nothing was printed.
    pub fn make(alloc: Global) -> Record {
        Record {
            printed: Seq::new(alloc),
        }
    }

    /// What was printed.
    pub fn printed(&self) -> &[u8] {
        self.printed.as_slice()
    }

    fn add(&mut self, line: &[u8]) -> Result<(), Memory> {
        self.printed.extend_from_slice(line)
    }
}

impl World for Record {
    type Stop = Memory;

    ghost answers = { λ before question answer after. Unit {0} };

    ghost performs = { λ before at l ended after. Unit {0} };

    fn line(&mut self, _at: u32, bytes: &[u8]) -> RunResult<(), Memory> {
        match self.add(bytes) {
            Ok(()) => Ok(Ok(())),
            Err(_) => Err(Halt::Memory),
        }
    }

    fn batch(&mut self, _at: u32, _state: &mut State, _frame: &mut Frame) -> RunResult<(), Memory> {
        Ok(Ok(()))
    }

    fn taken(&mut self, step: u32) -> RunResult<Value, Memory> {
        Ok(Ok(Value::Int(i64::from(step))))
    }

    fn invoke(
        &mut self,
        _at: u32,
        target: Value,
        _method: &[u8],
        _args: Seq<Value>,
    ) -> RunResult<Value, Memory> {
        Ok(Ok(target))
    }

    fn turn(&mut self, _at: u32) -> RunResult<(), Memory> {
        Ok(Ok(()))
    }

    fn list_turn(&mut self, _at: u32) -> RunResult<(), Memory> {
        Ok(Ok(()))
    }
}
