// The lines of refusals.

ghost use Rattle.std.specs.Prelude.{◌≡◌, ◌++◌, IfOk, codes};
ghost use Rattle.std.specs.Option.{is_none};
ghost use Rattle.std.specs.String.{string_bytes};
ghost use Rattle.std.specs.Fmt.{decimal};
ghost use Rattle.rb_trees.specs.Reading.{lex_refusal, read_refusal};
ghost use Rattle.rb_meaning.specs.Shown.{line};
ghost use Rattle.rb_meaning_types.specs.Violations.{violation_of};
ghost use Rattle.rb_top.specs.Refusals.{place_in, lex_heading, heading, lex_offset, offset, violation_heading, violation_offset, shown_at, shown_refusal, shown_violation};
ghost use Rattle.rb_top.specs.Texts.{WithinLength};

use rb_base::place;
use rb_places::Places;
use rb_trees::{LexError, ReadError, TypeError};
use std::alloc::{AllocError, Global};

/// Whether there are no tokens for want of memory.
pub fn lacks_memory(fault: &LexError) -> bool
    ensures { result ≡ is_none (lex_refusal fault.now) }
{
    match fault {
        LexError::Memory => true,
        _ => false,
    }
}

/// Whether this is want of memory, which is no refusal of a text.
pub fn is_memory(error: &ReadError) -> bool
    ensures { result ≡ is_none (read_refusal error.now) }
{
    match error {
        ReadError::Memory => true,
        _ => false,
    }
}

/// Whether this is want of memory, which is no violation of a program's.
pub fn is_no_violation(error: &TypeError) -> bool
    ensures { result ≡ is_none (violation_of error.now) }
{
    match error {
        TypeError::Memory => true,
        _ => false,
    }
}

/// The stage, the number and the name of a fault of the tokens.
fn lex_heading(fault: &LexError) -> &'static str
    ensures { result.now ≡ lex_heading fault.now }
{
    match fault {
        LexError::BadByte(_) => "lex 1 BadByte",
        LexError::OpenText(_) => "lex 2 OpenText",
        LexError::NumberTooLarge(_) => "lex 3 NumberTooLarge",
        LexError::NotUtf8(_) => "lex 4 NotUtf8",
        LexError::TooLong(_) => "lex 5 TooLong",
        LexError::Memory => "",
    }
}

/// The stage, the number and the name of a refusal.
fn heading(error: &ReadError) -> &'static str
    ensures { result.now ≡ heading error.now }
{
    match error {
        ReadError::Lex(fault) => lex_heading(fault),
        ReadError::Unexpected(_) => "parse 6 Unexpected",
        ReadError::TooNested(_) => "parse 7 TooNested",
        ReadError::Memory => "",
    }
}

/// The stage, the number and the name of a violation.
fn violation_heading(error: &TypeError) -> &'static str
    ensures { result.now ≡ violation_heading error.now }
{
    match error {
        TypeError::UnknownName(_) => "types 1 UnknownName",
        TypeError::NameTaken(_) => "types 2 NameTaken",
        TypeError::WrongType(_, _) => "types 3 WrongType",
        TypeError::WrongCount(_) => "types 4 WrongCount",
        TypeError::NotAssignable(_) => "types 5 NotAssignable",
        TypeError::MissingReturn(_) => "types 6 MissingReturn",
        TypeError::TypeNotHere(_) => "types 7 TypeNotHere",
        TypeError::NotAllowedHere(_) => "types 8 NotAllowedHere",
        TypeError::Memory => "",
    }
}

fn lex_offset(fault: &LexError) -> u32
    ensures { result ≡ lex_offset fault.now }
{
    match fault {
        LexError::BadByte(at) => *at,
        LexError::OpenText(at) => *at,
        LexError::NumberTooLarge(at) => *at,
        LexError::NotUtf8(at) => *at,
        LexError::TooLong(at) => *at,
        LexError::Memory => 0,
    }
}

/// Where a text is refused.
fn offset(error: &ReadError) -> u32
    ensures { result ≡ offset error.now }
{
    match error {
        ReadError::Lex(fault) => lex_offset(fault),
        ReadError::Unexpected(at) => *at,
        ReadError::TooNested(at) => *at,
        ReadError::Memory => 0,
    }
}

/// Where a program has a violation.
fn violation_offset(error: &TypeError) -> u32
    ensures { result ≡ violation_offset error.now }
{
    match error {
        TypeError::UnknownName(at) => *at,
        TypeError::NameTaken(at) => *at,
        TypeError::WrongType(at, _) => *at,
        TypeError::WrongCount(at) => *at,
        TypeError::NotAssignable(at) => *at,
        TypeError::MissingReturn(at) => *at,
        TypeError::TypeNotHere(at) => *at,
        TypeError::NotAllowedHere(at) => *at,
        TypeError::Memory => 0,
    }
}

/// A number's digits.
pub fn digits_of(alloc: Global, n: u32) -> Result<String, AllocError>
    ensures { IfOk result (λ text. string_bytes text ≡ decimal n) }
{
    format!(in alloc; "{n}")
}

/// A line and a column.
#[tactic(auto, using(crate::proofs::Lines::pieces))]
fn place_text(alloc: Global, row: u32, column: u32) -> Result<Vec<u8>, AllocError>
    ensures { IfOk result (λ text. text.items ≡ decimal row ++ codes ":" ++ decimal column) }
{
    let row = digits_of(alloc, row)?;
    let column = digits_of(alloc, column)?;
    let mut text = Vec::from_slice(alloc, row.as_bytes())?;
    text.extend_from_slice(b":")?;
    text.extend_from_slice(column.as_bytes())?;
    Ok(text)
}

/// The line of a refusal, with its place.
#[tactic(auto, using(crate::proofs::Lines::pieces))]
fn line_at(alloc: Global, heading: &str, place: &[u8]) -> Result<Vec<u8>, AllocError>
    ensures { IfOk result (λ text. text.items ≡ line (heading.now ++ codes " at " ++ place.now)) }
{
    let mut text = Vec::from_slice(alloc, heading.as_bytes())?;
    text.extend_from_slice(b" at ")?;
    text.extend_from_slice(place)?;
    text.extend_from_slice(b"\n")?;
    Ok(text)
}

/// The line and the column of an offset, of the text's end where it is behind that.
pub fn place_in(alloc: Global, text: &[u8], at: u32) -> Result<Vec<u8>, AllocError>
    requires { WithinLength text.now }
    ensures { IfOk result (λ shown. shown.items ≡ place_in text.now at) }
{
    let at = at.min(text.len() as u32);
    let (row, column) = place(text, at);
    place_text(alloc, row, column)
}

/// The same of a text whose places are looked up.
pub fn place_found(alloc: Global, places: &Places<'_>, at: u32) -> Result<Vec<u8>, AllocError>
    requires { WithinLength places.now }
    ensures { IfOk result (λ shown. shown.items ≡ place_in places.now at) }
{
    let at = at.min(places.text().len() as u32);
    let (row, column) = places.place(at);
    place_text(alloc, row, column)
}

/// The line of what is refused at an offset of a text.
fn line_in(alloc: Global, text: &[u8], heading: &str, at: u32) -> Result<Vec<u8>, AllocError>
    requires { WithinLength text.now }
    ensures { IfOk result (λ shown. shown.items ≡ line (shown_at text.now heading.now at)) }
{
    let place = place_in(alloc, text, at)?;
    line_at(alloc, heading, place.as_slice())
}

/// The line that shows a refusal of a text.
pub fn refusal_line(alloc: Global, text: &[u8], error: &ReadError) -> Result<Vec<u8>, AllocError>
    requires { WithinLength text.now }
    ensures { IfOk result (λ shown. shown.items ≡ line (shown_refusal text.now error.now)) }
{
    line_in(alloc, text, heading(error), offset(error))
}

/// The line that shows a violation in a text.
pub fn violation_line(alloc: Global, text: &[u8], error: &TypeError) -> Result<Vec<u8>, AllocError>
    requires { WithinLength text.now }
    ensures { IfOk result (λ shown. shown.items ≡ line (shown_violation text.now error.now)) }
{
    line_in(
        alloc,
        text,
        violation_heading(error),
        violation_offset(error),
    )
}
