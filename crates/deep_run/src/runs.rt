// Runs of the deepest programs.

use crate::record::Record;
use rb_code::classes_differ;
use rb_engine::{Code, Frame, State, exec};
use rb_heap::Heap;
use rb_parse::parse_program;
use rb_trees::{Memory, Program, ReadError, TypeError};
use rb_types::check;
use std::alloc::Global;
use thiserror::Error;

/// Why a program isn't run to its end.
#[derive(Debug, Drop, Error)]
pub enum Trouble {
    #[error("{0}")]
    Read(ReadError),
    #[error("{0}")]
    Typed(TypeError),
    #[error("two classes or methods have one name")]
    Same,
    #[error("a fault of code {0}")]
    Fault(u8),
    #[error("out of memory")]
    Memory,
}

impl From<Memory> for Trouble {
    fn from(_want: Memory) -> Trouble {
        Trouble::Memory
    }
}

/// What the program of a text prints.
pub fn lines_of(alloc: Global, text: &str) -> Result<String, Trouble> {
    let program = match parse_program(alloc, text.as_bytes()) {
        Ok(program) => program,
        Err(error) => return Err(Trouble::Read(error)),
    };
    let typed = match check(alloc, program) {
        Ok(typed) => typed,
        Err(error) => return Err(Trouble::Typed(error)),
    };
    let mut record = Record::make(alloc);
    run(alloc, typed.program(), &mut record)?;
    Ok(printed_text(alloc, &record)?)
}

/// What was printed, as a text.
fn printed_text(alloc: Global, record: &Record) -> Result<String, Memory> {
    Ok(String::from_utf8_lossy(alloc, record.printed())?)
}

/// Runs the statements of `main`.
fn run(alloc: Global, program: &Program, record: &mut Record) -> Result<(), Trouble> {
    if !classes_differ(alloc, program.classes.as_slice())? {
        return Err(Trouble::Same);
    }
    let code = Code::make(alloc, &program.classes)?;
    let mut state = State {
        heap: Heap::make(alloc),
        fuel: 1_000_000,
        depth: 0,
    };
    let mut frame = Frame::make(alloc);
    match exec(
        alloc,
        &code,
        &mut state,
        &mut frame,
        record,
        &program.body.statements,
    ) {
        Ok(Ok(())) => Ok(()),
        Ok(Err(raised)) => Err(Trouble::Fault(raised.fault.code)),
        Err(_) => Err(Trouble::Memory),
    }
}
