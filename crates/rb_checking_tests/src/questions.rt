// Questions to programs that are typed, and what is told of each.

use crate::flow::answers::{add_chain, add_drawn};
use crate::marks::letters::add_letters;
use crate::split::divided::add_divided;
use crate::told::{add_number, expect};
use crate::types::found::add_type_at;
use rb_flow::{AdmitStop, Admitted, admit};
use rb_marks::mark;
use rb_parse::parse_program;
use rb_trees::{Memory, Refusal, Seq, Word};
use rb_types::{Typed, check};
use std::alloc::Global;
use std::ops::Range;
use std::test::Fail;

/// What is asked of a program.
#[derive(Clone, Copy)]
pub enum Question {
    /// The type of the expression at a position.
    TypeAt(u32),
    /// The number of its batches.
    Batches,
    /// The position of its result's type.
    ResultAt,
    /// The mark or the place of each position.
    Marks,
    /// Its refusal with the positions of it, or 0 for none.
    Refusal,
    /// Its refusal with their count.
    Chain,
    /// The divisions of its batches.
    Divisions,
}

/// Adds what is asked of a program that is admitted.
fn add_admitted(
    alloc: Global,
    question: Question,
    admitted: &Admitted<'_>,
    into: &mut Word,
) -> Result<(), Memory> {
    match question {
        Question::Divisions => add_divided(alloc, admitted, into),
        _ => into.push(b'0'),
    }
}

/// Adds what is asked of a program that admission refuses.
fn add_refused(
    alloc: Global,
    question: Question,
    refusal: &Refusal,
    shown: Range<usize>,
    into: &mut Word,
) -> Result<(), Memory> {
    match question {
        Question::Divisions => into.extend_from_slice(b"not admitted"),
        Question::Chain => add_chain(alloc, refusal, into),
        _ => add_drawn(alloc, refusal, shown, into),
    }
}

/// Adds what is asked of the batches of a program.
fn add_marked(
    alloc: Global,
    question: Question,
    typed: &Typed,
    shown: Range<usize>,
    into: &mut Word,
) -> Result<(), Memory> {
    let marks = mark(alloc, typed)?;
    if let Question::Marks = question {
        return add_letters(&marks, shown, into);
    }
    match admit(alloc, typed, marks) {
        Ok(admitted) => add_admitted(alloc, question, &admitted, into),
        Err(AdmitStop::Refused(refusal)) => add_refused(alloc, question, &refusal, shown, into),
        Err(AdmitStop::Memory) => Err(Memory),
    }
}

/// Adds what is asked of a program.
fn add_typed(
    alloc: Global,
    question: Question,
    typed: &Typed,
    shown: Range<usize>,
    into: &mut Word,
) -> Result<(), Memory> {
    match question {
        Question::TypeAt(at) => add_type_at(typed, at, into),
        Question::Batches => add_number(alloc, "", typed.batches(), into),
        Question::ResultAt => add_number(alloc, "", typed.program().result.at, into),
        _ => add_marked(alloc, question, typed, shown, into),
    }
}

/// Adds what is asked of the program of a text, whose part from an offset on is shown.
pub fn add_told(
    alloc: Global,
    question: Question,
    text: &[u8],
    from: usize,
    into: &mut Word,
) -> Result<(), Memory> {
    let Ok(program) = parse_program(alloc, text) else {
        return into.extend_from_slice(b"the text isn't read");
    };
    match check(alloc, program) {
        Ok(typed) => add_typed(alloc, question, &typed, from..text.len(), into),
        Err(_) => into.extend_from_slice(b"the program isn't typed"),
    }
}

/// A text behind another.
fn behind(alloc: Global, before: &str, text: &str) -> Result<Word, Memory> {
    let mut whole = Seq::from_slice(alloc, before.as_bytes())?;
    whole.extend_from_slice(text.as_bytes())?;
    Ok(whole)
}

/// Adds what is asked of the program of a text behind another.
fn add_told_behind(
    alloc: Global,
    question: Question,
    before: &str,
    text: &str,
    into: &mut Word,
) -> Result<(), Memory> {
    let whole = behind(alloc, before, text)?;
    add_told(alloc, question, whole.as_slice(), before.len(), into)
}

/// Fails where something else is told of a text behind another than is wanted.
pub fn expect_told(
    alloc: Global,
    question: Question,
    before: &str,
    text: &str,
    wanted: &str,
) -> Result<(), Fail> {
    let mut told = Seq::new(alloc);
    add_told_behind(alloc, question, before, text, &mut told)?;
    expect(text, told.as_slice(), wanted)
}

/// Fails where something else is told of a text behind another than stands beside it.
pub fn expect_each(
    alloc: Global,
    question: Question,
    before: &str,
    rows: &[(&str, &str)],
) -> Result<(), Fail> {
    for (text, wanted) in rows {
        expect_told(alloc, question, before, text, wanted)?;
    }
    Ok(())
}
