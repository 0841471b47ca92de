// How texts are read and printed in the tests.

use crate::expected::expect;
use rb_parse::{parse_program, parse_service};
use rb_trees::{Boxed, Program, ReadError, Word, print_program};
use std::alloc::Global;
use std::fmt::Write;
use std::test::Fail;

/// What texts are read as.
#[derive(Clone, Copy)]
pub enum Form {
    Program,
    Service,
}

/// How a program is printed that was read.
pub fn print(alloc: Global, read: &Result<Program, ReadError>) -> Result<Word, Fail> {
    match read {
        Ok(program) => Ok(print_program(alloc, program)?),
        Err(error) => Err(Fail::new(format_args!("{error}"))),
    }
}

/// How a text is printed that is read.
pub fn printed(alloc: Global, source: &[u8]) -> Result<Word, Fail> {
    let read = Boxed::new(alloc, parse_program(alloc, source))?;
    print(alloc, read.get())
}

/// Why a text isn't read; None where it is.
fn refusal(alloc: Global, form: Form, source: &str) -> Option<ReadError> {
    match form {
        Form::Program => parse_program(alloc, source.as_bytes()).err(),
        Form::Service => parse_service(alloc, source.as_bytes()).err(),
    }
}

/// Fails unless a text isn't read for the reason that is wanted, or is where that is nothing.
pub fn refusal_is(alloc: Global, form: Form, source: &str, wanted: &str) -> Result<(), Fail> {
    let mut text = String::new(alloc);
    if let Some(error) = refusal(alloc, form, source) {
        write!(text, "{error}")?;
    }
    expect(source, text.as_bytes(), wanted.as_bytes())
}

/// The same of each text, with the reason beside it.
pub fn refusals_are(alloc: Global, form: Form, rows: &[(&str, &str)]) -> Result<(), Fail> {
    for (source, wanted) in rows {
        refusal_is(alloc, form, source, wanted)?;
    }
    Ok(())
}
