// What is said where an expression has another type than is wanted.

use crate::type_mends::mend;
use crate::type_texts;
use crate::type_words::{type_word, written_word};
use crate::wanted::{Want, Wanted, wanted_at};
use rb_pieces::around::is_among;
use rb_pieces::declarations::{Declared, declared_before};
use rb_pieces::spans::span_at;
use rb_pieces::{Page, Pieces};
use rb_trees::{Memory, TypeForm};
use std::alloc::Global;

/// What is said of an expression's type, by the piece at its place: a name, a call or anything else.
fn found_text(pieces: &Pieces<'_>, index: usize) -> &'static [u8] {
    match pieces.text(index).first() {
        Some(b'a'..=b'z' | b'A'..=b'Z' | b'_') if pieces.is_later(index, 1, b"(") => {
            type_texts::CALL_GIVES
        }
        Some(b'a'..=b'z' | b'A'..=b'Z' | b'_') if !is_keyword(pieces.text(index)) => {
            type_texts::NAME_IS
        }
        _ => type_texts::THIS_IS,
    }
}

/// Whether an expression begins with a word of the language that isn't its name.
fn is_keyword(text: &[u8]) -> bool {
    is_among(text, b"new List")
}

/// What is said of what is wanted.
fn wanted_text(what: Wanted) -> &'static [u8] {
    match what {
        Wanted::Untold => type_texts::ANOTHER_TYPE,
        Wanted::Int => type_texts::AN_INT,
        Wanted::Bool => type_texts::A_BOOL,
        Wanted::Text => type_texts::A_TEXT,
        Wanted::Printed => type_texts::PRINTED,
        Wanted::Turns => type_texts::TURNS,
        Wanted::Measured => type_texts::MEASURED,
        Wanted::Spelled => type_texts::SPELLED,
        Wanted::Joined => type_texts::JOINED,
        Wanted::Compared => type_texts::COMPARED,
        Wanted::LikeLeft => type_texts::LIKE_LEFT,
        Wanted::LeftType => type_texts::LEFT_TYPE,
        Wanted::Indexed => type_texts::INDEXED,
        Wanted::Receiver => type_texts::RECEIVER,
        Wanted::Owner => type_texts::OWNER,
        Wanted::Parameter => type_texts::PARAMETER,
        Wanted::Field => type_texts::FIELD,
        Wanted::Item => type_texts::ITEMS,
        Wanted::Result => type_texts::METHOD,
        Wanted::MainResult => type_texts::MAIN,
        Wanted::EachParameter => type_texts::EACH_PARAMETER,
        Wanted::EachField => type_texts::EACH_FIELD,
        Wanted::NoResult => type_texts::METHOD_GIVES_NONE,
        Wanted::NoMainResult => type_texts::MAIN_GIVES_NONE,
        Wanted::Variable => type_texts::VARIABLE,
        Wanted::VariableType => type_texts::VARIABLE_TYPE,
        Wanted::SomeVariable => type_texts::SOME_VARIABLE,
        Wanted::SomeField => type_texts::SOME_FIELD,
    }
}

/// What is said behind that of a type that is written, and nothing where none is.
fn written_text(what: Wanted) -> &'static [u8] {
    match what {
        Wanted::Parameter | Wanted::Field | Wanted::EachField | Wanted::VariableType => {
            type_texts::IS_OF_TYPE
        }
        Wanted::EachParameter => type_texts::OF_TYPE_HERE,
        Wanted::LeftType => type_texts::AS_LEFT_IS,
        Wanted::Item => type_texts::ARE_OF_TYPE,
        Wanted::Result | Wanted::MainResult => type_texts::PROMISES,
        _ => b"",
    }
}

/// Adds what is found.
fn add_found(
    alloc: Global,
    page: &mut Page,
    pieces: &Pieces<'_>,
    index: usize,
    found: &TypeForm,
) -> Result<(), Memory> {
    let name = pieces.text(index);
    if let TypeForm::Unit = found {
        return page.fill(type_texts::GIVES_NOTHING, name, b"");
    }
    let spelled = type_word(alloc, found)?;
    page.fill(found_text(pieces, index), name, spelled.as_slice())
}

/// Says what is wanted, and as what type that is written.
fn say_wanted(
    page: &mut Page,
    pieces: &Pieces<'_>,
    want: &Want<'_>,
    written: &[u8],
    found: &TypeForm,
) -> Result<(), Memory> {
    match (want.what, found) {
        (Wanted::Untold, TypeForm::Unit) => page.add(type_texts::ONE)?,
        (what, _) => page.fill_of(wanted_text(what), want.name, pieces.line(want.declaration))?,
    }
    page.sentence(written_text(want.what), b"", written)
}

/// Whether a member is named as other languages name what `len` gives.
fn is_length(name: &[u8]) -> bool {
    is_among(name, b"length size count")
}

/// Whether a method has this name.
fn is_method(pieces: &Pieces<'_>, name: &[u8]) -> bool {
    declared_before(pieces, pieces.len(), name, Declared::Method).is_some()
}

/// What is said where an expression has another type than is wanted.
pub fn say_wrong_type(
    alloc: Global,
    page: &mut Page,
    pieces: &Pieces<'_>,
    at: u32,
    found: &TypeForm,
) -> Result<(), Memory> {
    let want = wanted_at(pieces, at);
    let written = written_word(alloc, pieces, want.written)?;
    add_found(alloc, page, pieces, pieces.index_of(at), found)?;
    say_wanted(page, pieces, &want, written.as_slice(), found)?;
    match (want.what, found) {
        (Wanted::Owner, TypeForm::Named(_)) if is_method(pieces, want.name) => {
            page.sentence(type_texts::INTERFACE_METHOD, want.name, b"")
        }
        (Wanted::Receiver | Wanted::Owner, TypeForm::Text | TypeForm::ListOf(_))
            if is_length(want.name) => {
            let span = span_at(pieces, pieces.index_of(at));
            let operand = pieces.between(span.first, span.last);
            page.sentence(type_texts::LEN_OF_THIS, operand, b"")
        }
        (what, _) => page.sentence(mend(what, written.as_slice(), found), b"", b""),
    }
}
