// The bytes of messages, and what they are.

use crate::judging::{Kind, refuse};
use crate::person::{DONE, NO, Person};
use crate::reading::read_file;
use rb_dump::{Verdict, dump, dump_text};
use rb_top::Status;
use rb_trees::{Memory, Word};
use std::alloc::Global;
use std::fs::File;
use std::rt::Files;

/// The greatest number of bytes that are shown: those of the longest frame.
const MOST: usize = 16_777_227;

/// What the bytes are, as lines; and whether they are whole.
fn shown(alloc: Global, bytes: &[u8]) -> Result<(Word, bool), Memory> {
    let dump = dump(alloc, bytes)?;
    let text = dump_text(alloc, bytes, &dump)?;
    Ok((text, matches!(dump.verdict, Verdict::Whole)))
}

/// Shows the bytes of a file, and what they are. The exit status tells whether they are whole.
pub fn show_bytes<R: Files<File = File> + Print + Eprint + AllocGlobal>(
    person: &Person<'_, R>,
    name: &str,
) -> u8 {
    let bytes = match read_file(person, name, MOST) {
        Ok(bytes) => bytes,
        Err(code) => return code,
    };
    if bytes.len() > MOST {
        return refuse(person, Kind::Program, name, Some(bytes.as_slice()));
    }
    match shown(person.alloc(), bytes.as_slice()) {
        Ok((text, true)) => person.print(text.as_slice(), DONE),
        Ok((text, false)) => person.print(text.as_slice(), NO),
        Err(Memory) => Status::Memory.code(),
    }
}
