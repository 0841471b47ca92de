// Texts as they are to be laid out.

use crate::judging::{Kind, kind_of, refuse};
use crate::person::{DONE, NO, Person};
use crate::reading::{LONGEST_TEXT, read_file};
use bytes::BytesMut;
use rb_format::{FormatStop, format_program, format_service};
use rb_top::Status;
use rb_trees::Word;
use std::alloc::Global;
use std::fs::File;
use std::rt::Files;

/// The text of a program or a service, laid out.
fn laid_out(alloc: Global, kind: Kind, text: &[u8]) -> Result<Word, FormatStop> {
    match kind {
        Kind::Program => format_program(alloc, text),
        Kind::Service => format_service(alloc, text),
    }
}

/// Says why a text of a name isn't laid out.
fn say_stop<R: Print + Eprint + AllocGlobal>(
    person: &Person<'_, R>,
    kind: Kind,
    name: &str,
    text: &[u8],
    stop: &FormatStop,
) -> u8 {
    match stop {
        FormatStop::Unread(_) | FormatStop::Unserved(_) => refuse(person, kind, name, Some(text)),
        FormatStop::Unkept => {
            person.note(
                "A comment has no place in the text as it is laid out, so nothing is printed.\n",
            );
            person.print(b"comments not kept\n", NO)
        }
        FormatStop::TooLong => {
            person.note("The text would have more than 1048576 bytes, so nothing is printed.\n");
            person.print(b"layout too long\n", NO)
        }
        FormatStop::Memory => Status::Memory.code(),
    }
}

/// A text as it was read, and as it is laid out.
#[derive(Drop)]
struct Layout {
    text: BytesMut,
    layout: Word,
}

impl Layout {
    /// Whether the text is as it is to be.
    fn is_kept(&self) -> bool {
        self.layout.as_slice() == self.text.as_slice()
    }
}

/// Lays out the text of a file, or gives the exit status after it was said why it can't.
fn layout_of<R: Files<File = File> + Print + Eprint + AllocGlobal>(
    person: &Person<'_, R>,
    name: &str,
) -> Result<Layout, u8> {
    let text = read_file(person, name, LONGEST_TEXT)?;
    let kind = kind_of(name);
    match laid_out(person.alloc(), kind, text.as_slice()) {
        Ok(layout) => Ok(Layout { text, layout }),
        Err(stop) => Err(say_stop(person, kind, name, text.as_slice(), &stop)),
    }
}

/// Prints the text of a file as it is to be laid out.
pub fn format_file<R: Files<File = File> + Print + Eprint + AllocGlobal>(
    person: &Person<'_, R>,
    name: &str,
) -> u8 {
    match layout_of(person, name) {
        Ok(it) => person.print(it.layout.as_slice(), DONE),
        Err(code) => code,
    }
}

/// Says whether a text is laid out.
fn say_layout<R: Print>(person: &Person<'_, R>, is_laid_out: bool) -> u8 {
    if is_laid_out {
        person.print(b"laid out\n", DONE)
    } else {
        person.print(b"not laid out\n", NO)
    }
}

/// Says whether the text of a file is laid out.
pub fn check_layout<R: Files<File = File> + Print + Eprint + AllocGlobal>(
    person: &Person<'_, R>,
    name: &str,
) -> u8 {
    match layout_of(person, name) {
        Ok(it) => say_layout(person, it.is_kept()),
        Err(code) => code,
    }
}
