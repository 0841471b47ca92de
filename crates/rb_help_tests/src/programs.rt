// What is told of a text by what is asked of it.

use crate::text::Text;
use crate::troubles::told_of_trouble;
use rb_flow::{AdmitStop, admit};
use rb_help::{Trouble, coloured};
use rb_marks::mark;
use rb_parse::parse_program;
use rb_store::read_service;
use rb_trees::{Memory, Seq, Word};
use rb_types::{Typed, check};
use std::alloc::Global;

/// The interfaces before some of the programs, on the first line.
const INTERFACES: &str =
    "interface F { fun name(): Text; fun size(): Int; fun grow(by: Int); } interface D { fun files(): Rows<F>; fun file(i: Int): F; fun burn(n: Int); } ";

/// What is told of the batches of a program, or nothing where they are admitted.
fn told_of_typed(text: Text<'_>, typed: &Typed) -> Result<Word, Memory> {
    let marks = mark(text.alloc, typed)?;
    match admit(text.alloc, typed, marks) {
        Ok(_) => Ok(Seq::new(text.alloc)),
        Err(AdmitStop::Refused(refusal)) => text.tell(&Trouble::Refused(&refusal)),
        Err(AdmitStop::Memory) => Err(Memory),
    }
}

/// What is told of a program, or nothing where it is accepted.
fn told_of_program(text: Text<'_>) -> Result<Word, Memory> {
    let program = match parse_program(text.alloc, text.bytes()) {
        Ok(program) => program,
        Err(error) => return text.tell(&Trouble::Unread(&error)),
    };
    match check(text.alloc, program) {
        Ok(typed) => told_of_typed(text, &typed),
        Err(error) => text.tell(&Trouble::Untyped(&error)),
    }
}

/// What is told of a program behind the interfaces.
fn told_behind_interfaces(text: Text<'_>) -> Result<Word, Memory> {
    let source = text.source;
    let whole = format!(in text.alloc; "{INTERFACES}{source}")?;
    told_of_program(Text {
        alloc: text.alloc,
        file: text.file,
        source: whole.as_str(),
    })
}

/// What is told of the text of a service, or nothing where it is one.
fn told_of_service(text: Text<'_>) -> Result<Word, Memory> {
    match read_service(text.alloc, text.bytes()) {
        Ok(_) => Ok(Seq::new(text.alloc)),
        Err(error) => text.tell(&Trouble::Unserved(&error)),
    }
}

/// The words of a line.
fn words_of(alloc: Global, line: &str) -> Result<Vec<String>, Memory> {
    let mut words = Vec::new(alloc);
    for word in line.split_whitespace() {
        words.push(String::from_str(alloc, word)?)?;
    }
    Ok(words)
}

/// What is told of words that are no command's.
fn told_of_words(text: Text<'_>) -> Result<Word, Memory> {
    let words = words_of(text.alloc, text.source)?;
    text.tell(&Trouble::Words(words.as_slice()))
}

/// A text in colours, and a line feed.
fn told_in_colours(text: Text<'_>) -> Result<Word, Memory> {
    let mut told = coloured(text.alloc, text.bytes())?;
    told.push(b'\n')?;
    Ok(told)
}

/// What is told of a text: of a program, a service, words or colours as they are; else of the trouble that is asked for.
pub fn told(text: Text<'_>, asked: &str) -> Result<Word, Memory> {
    match asked {
        "a program" => told_of_program(text),
        "a program behind interfaces" => told_behind_interfaces(text),
        "a service" => told_of_service(text),
        "words" => told_of_words(text),
        "colours" => told_in_colours(text),
        _ => told_of_trouble(text, asked),
    }
}
