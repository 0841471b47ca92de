// Code of programs.

use rb_code::{Code, classes_differ};
use rb_parse::parse_program;
use rb_trees::{Program, ReadError, Seq};
use std::alloc::Global;

/// The code of a program, without classes where two of them have one name, or two methods of one class.
pub fn code_of(alloc: Global, program: &Program) -> Result<Code, ReadError> {
    if classes_differ(alloc, program.classes.as_slice())? {
        return Ok(Code::make(alloc, &program.classes)?);
    }
    Ok(Code::make(alloc, &Seq::new(alloc))?)
}

/// The code of the program that a text is.
pub fn code_in(alloc: Global, text: &str) -> Result<Code, ReadError> {
    let program = parse_program(alloc, text.as_bytes())?;
    code_of(alloc, &program)
}
