// Pictures of batches.

use crate::judging::{Judgement, Kind, judge, pass_on};
use crate::person::{DONE, NO, Person};
use crate::reading::{LONGEST_TEXT, read_file};
use rb_picture::picture;
use rb_top::Status;
use rb_trees::Memory;
use std::fs::File;
use std::rt::Files;

/// Prints the picture of a program that is read and typed.
fn print_picture<R: Print + AllocGlobal>(person: &Person<'_, R>, name: &str, text: &[u8]) -> u8 {
    match picture(person.alloc(), name.as_bytes(), text) {
        Ok(Some(drawn)) => person.print(drawn.as_slice(), DONE),
        Ok(None) => NO,
        Err(Memory) => Status::Memory.code(),
    }
}

/// Draws the batches of the program in a file: how each is divided, or why one is refused.
pub fn draw_file<R: Files<File = File> + Print + Eprint + AllocGlobal>(
    person: &Person<'_, R>,
    name: &str,
) -> u8 {
    let text = match read_file(person, name, LONGEST_TEXT) {
        Ok(text) => text,
        Err(code) => return code,
    };
    match judge(person.alloc(), Kind::Program, name, Some(text.as_slice())) {
        Ok(judgement) => match &judgement.status {
            Status::Done | Status::BatchRefused(_) => print_picture(person, name, text.as_slice()),
            _ => pass_on(person, &judgement),
        },
        Err(Memory) => Status::Memory.code(),
    }
}
