// Runs of programs that are read from texts.

use crate::code::classes::code_of;
use crate::engine::record::Record;
use crate::told::expect;
use rb_engine::{Code, Frame, State, exec};
use rb_heap::Heap;
use rb_parse::parse_program;
use rb_trees::{Program, ReadError, Seq, Stmt};
use std::alloc::Global;
use std::test::Fail;

/// What is shown, a program, the fuel that its `main` has, and the lines that it asks.
pub type Row = (&'static str, &'static str, u64, &'static str);

/// Runs statements with so much fuel.
fn run_body(
    alloc: Global,
    code: &Code,
    body: &Seq<Stmt>,
    fuel: u64,
    record: &mut Record,
) -> Result<(), ReadError> {
    let mut state = State {
        heap: Heap::make(alloc),
        fuel,
        depth: 0,
    };
    let mut frame = Frame::make(alloc);
    let end = exec(alloc, code, &mut state, &mut frame, record, body);
    record.end(&end)
}

/// Runs the statements of `main`.
fn run(alloc: Global, program: &Program, fuel: u64, record: &mut Record) -> Result<(), ReadError> {
    let code = code_of(alloc, program)?;
    run_body(alloc, &code, &program.body.statements, fuel, record)
}

/// Runs the program that a text is.
fn run_text(alloc: Global, text: &str, fuel: u64, record: &mut Record) -> Result<(), ReadError> {
    let program = parse_program(alloc, text.as_bytes())?;
    run(alloc, &program, fuel, record)
}

/// Fails where a program asks other lines than stand beside it.
fn expect_row(alloc: Global, (shown, text, fuel, wanted): &Row) -> Result<(), Fail> {
    let mut record = Record::make(alloc);
    run_text(alloc, text, *fuel, &mut record)?;
    expect(shown, record.lines(), wanted)
}

/// Fails where one of these programs asks other lines than stand beside it.
pub fn expect_asked(alloc: Global, rows: &[Row]) -> Result<(), Fail> {
    for row in rows {
        expect_row(alloc, row)?;
    }
    Ok(())
}
