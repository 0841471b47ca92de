// The picture of a program.

use crate::drawing::{Scene, draw_divisions, draw_legend, draw_refusal};
use crate::excerpts::Text;
use crate::page::Page;
use rb_flow::{AdmitStop, Admitted, admit};
use rb_lex::lex;
use rb_marks::{Marks, mark};
use rb_parse::parse_program;
use rb_places::Places;
use rb_split::{SplitStop, split_all};
use rb_trees::{Boxed, LexError, Memory, ReadError, Refusal, Split, TypeError, Word};
use rb_types::{Typed, check};
use std::alloc::Global;

/// A program's file: its name, its text and the tokens of that.
#[derive(Clone, Copy)]
struct Source<'a> {
    name: &'a [u8],
    text: Text<'a>,
}

/// What came of a typed program's batches.
#[derive(Clone, Copy)]
enum Outcome<'a> {
    /// All are divided.
    Divided(&'a [Split]),
    /// One is refused.
    Refused(&'a Refusal),
}

/// The picture of the program that a text is: each batch beside its script and its remainder, in the order of the text; or the
/// batch that is refused, with arrows through the places that its refusal names.
///
/// None where the text isn't read as a program, or isn't typed.
pub fn picture<'a>(alloc: Global, name: &'a [u8], text: &'a [u8]) -> Result<Option<Word>, Memory> {
    let tokens = match lex(alloc, text) {
        Ok(tokens) => tokens,
        Err(LexError::Memory) => return Err(Memory),
        Err(_) => return Ok(None),
    };
    let source = Source {
        name,
        text: Text {
            source: text,
            tokens: tokens.as_slice(),
        },
    };
    match typed_program(alloc, text)? {
        Some(typed) => Ok(Some(drawn(alloc, source, typed.get())?)),
        None => Ok(None),
    }
}

/// The typed program that a text is, if it is one.
fn typed_program(alloc: Global, text: &[u8]) -> Result<Option<Boxed<Typed>>, Memory> {
    let program = match parse_program(alloc, text) {
        Ok(program) => program,
        Err(ReadError::Memory) => return Err(Memory),
        Err(_) => return Ok(None),
    };
    match check(alloc, program) {
        Ok(typed) => Ok(Some(Boxed::new(alloc, typed)?)),
        Err(TypeError::Memory) => Err(Memory),
        Err(_) => Ok(None),
    }
}

/// The picture of a typed program.
fn drawn(alloc: Global, source: Source<'_>, typed: &Typed) -> Result<Word, Memory> {
    let marks = mark(alloc, typed)?;
    match admit(alloc, typed, marks) {
        Ok(admitted) => drawn_admitted(alloc, source, &admitted),
        Err(AdmitStop::Refused(refusal)) => {
            let marks = mark(alloc, typed)?;
            pictured(alloc, source, &marks, Outcome::Refused(&refusal))
        }
        Err(AdmitStop::Memory) => Err(Memory),
    }
}

/// The picture of a program whose batches are admitted.
fn drawn_admitted(
    alloc: Global,
    source: Source<'_>,
    admitted: &Admitted<'_>,
) -> Result<Word, Memory> {
    match split_all(alloc, admitted) {
        Ok(splits) => {
            let outcome = Outcome::Divided(splits.as_slice());
            pictured(alloc, source, admitted.marks(), outcome)
        }
        Err(SplitStop::Refused(refusal)) => {
            pictured(alloc, source, admitted.marks(), Outcome::Refused(&refusal))
        }
        Err(SplitStop::Memory) => Err(Memory),
    }
}

/// The picture of a program that came out so.
fn pictured(
    alloc: Global,
    source: Source<'_>,
    marks: &Marks,
    outcome: Outcome<'_>,
) -> Result<Word, Memory> {
    let places = Places::of(alloc, source.text.source)?;
    let scene = Scene {
        text: source.text,
        marks,
        places: &places,
    };
    let mut page = Page::new(alloc);
    match outcome {
        Outcome::Divided(splits) => draw_divisions(&mut page, &scene, splits)?,
        Outcome::Refused(refusal) => draw_refusal(&mut page, &scene, source.name, refusal)?,
    }
    draw_legend(&mut page)?;
    page.into_svg()
}
