// What is said where a text is no service.

use crate::carets::caret;
use crate::lines::line_at;
use crate::object_parts::{
    Flaw, Objects, due_at, first_due, first_given, flaw_of, given_at, gives, item_word, next_field,
    place_of,
};
use crate::typing_help::say_types;
use crate::{object_texts, texts};
use rb_pieces::{OUT_OF_MEMORY, Page, Pieces, shown};
use rb_slips::say_read_service;
use rb_trees::{Memory, StoreError};
use rb_type_help::{Written, written_word};
use std::alloc::Global;

/// A line of at most so many bytes is quoted.
const LONGEST_QUOTED: usize = 120;

/// Quotes the line of a piece, with a caret under it, unless it is long.
fn say_line(
    alloc: Global,
    page: &mut Page,
    pieces: &Pieces<'_>,
    index: usize,
) -> Result<(), Memory> {
    let at = pieces.start(index).min(u32::MAX as usize) as u32;
    let line = line_at(pieces.source(), at).bytes;
    if line.len() > LONGEST_QUOTED {
        return Ok(());
    }
    let number = format!(in alloc; "{}", pieces.line(index))?;
    let text = shown(alloc, line)?;
    page.add(number.as_bytes())?;
    page.add(b" | ")?;
    page.add(text.as_bytes())?;
    page.add(b"\n")?;
    let under = caret(alloc, pieces.source(), at, number.len(), b"")?;
    page.add(under.as_slice())
}

/// What is said where the root is none of the objects.
fn say_no_root(
    alloc: Global,
    page: &mut Page,
    pieces: &Pieces<'_>,
    objects: &Objects<'_, '_>,
) -> Result<(), Memory> {
    let root = place_of(pieces, b"root").saturating_add(1);
    say_line(alloc, page, pieces, root)?;
    match objects.count().checked_sub(1) {
        Some(0) => page.say_name(&object_texts::NO_ROOT_BUT_ONE, pieces.text(root)),
        Some(last) => page.say_number(&object_texts::NO_ROOT, pieces.text(root), last),
        None => page.say_name(&object_texts::NO_OBJECTS, pieces.text(root)),
    }
}

/// What is said where an object is written with another number than its place.
fn say_number(
    alloc: Global,
    page: &mut Page,
    pieces: &Pieces<'_>,
    begins: usize,
    object: u32,
) -> Result<(), Memory> {
    let place = begins.saturating_add(1);
    say_line(alloc, page, pieces, place)?;
    page.say_number(
        &object_texts::OBJECT_NUMBER,
        pieces.text(place),
        u64::from(object),
    )
}

/// The first piece of an object that names an object that isn't there.
fn bad_reference(pieces: &Pieces<'_>, objects: &Objects<'_, '_>, begins: usize) -> Option<usize> {
    for place in begins..pieces.len() {
        if pieces.is_later(place, 0, b"}") {
            return None;
        }
        let number = pieces.later(place, 1);
        if pieces.is_later(place, 0, b"#") && objects.class_written(number).is_none() {
            return Some(place);
        }
    }
    None
}

/// What is said where a value names an object that isn't there.
fn say_reference(
    alloc: Global,
    page: &mut Page,
    pieces: &Pieces<'_>,
    objects: &Objects<'_, '_>,
    begins: usize,
) -> Result<(), Memory> {
    let place = bad_reference(pieces, objects, begins).unwrap_or(begins);
    say_line(alloc, page, pieces, place)?;
    page.sentence(object_texts::BAD_REFERENCE, pieces.later(place, 1), b"#")?;
    page.sentence_of(object_texts::NAME_OBJECT, b"", objects.count())
}

/// What is said where an object gives another field, or none, where its class has one, or the other way round.
fn say_field(
    alloc: Global,
    page: &mut Page,
    pieces: &Pieces<'_>,
    begins: usize,
    given: usize,
    due: Option<&[u8]>,
) -> Result<(), Memory> {
    let class = pieces.later(begins, 3);
    say_line(alloc, page, pieces, given)?;
    match due {
        Some(name) if !gives(pieces, begins, name) => {
            page.say(&object_texts::FIELD_MISSING, name, class)
        }
        Some(name) => page.say(&object_texts::FIELD_DUE, name, class),
        None => page.say(&object_texts::NO_FIELD, pieces.text(given), class),
    }
}

/// What is said where an object's fields aren't those of its class.
fn say_fields(
    alloc: Global,
    page: &mut Page,
    pieces: &Pieces<'_>,
    begins: usize,
) -> Result<(), Memory> {
    let mut given = first_given(begins);
    let mut due = first_due(pieces, begins);
    for _ in 0..pieces.len() {
        let (one, other) = (given_at(pieces, given), due_at(pieces, due));
        if one != other {
            return say_field(alloc, page, pieces, begins, given, other);
        }
        if one.is_none() {
            return page.say_name(&object_texts::FIELDS_DIFFER, pieces.later(begins, 3));
        }
        given = next_field(pieces, given);
        due = next_field(pieces, due);
    }
    Ok(())
}

/// What to write where an item of this type is wanted.
fn say_item(page: &mut Page, word: &[u8]) -> Result<(), Memory> {
    match word {
        b"Int" => page.sentence(object_texts::WRITE_NUMBER, b"", b""),
        b"Bool" => page.sentence(object_texts::WRITE_BOOL, b"", b""),
        b"Text" => page.sentence(object_texts::WRITE_TEXT, b"", b""),
        class => page.sentence(object_texts::WRITE_OBJECT, class, b"#"),
    }
}

/// What is said of a value that isn't of the type of its field.
fn say_flaw(
    alloc: Global,
    page: &mut Page,
    pieces: &Pieces<'_>,
    field: usize,
    flaw: Flaw,
) -> Result<(), Memory> {
    let (Flaw::List(place) | Flaw::NoList(place) | Flaw::Item(place)) = flaw;
    let kind = field.saturating_add(2);
    let spelled = written_word(alloc, pieces, Written::From(kind))?;
    say_line(alloc, page, pieces, place)?;
    page.sentence(
        object_texts::OF_TYPE,
        pieces.text(field),
        spelled.as_slice(),
    )?;
    match flaw {
        Flaw::List(_) => page.sentence(object_texts::WRITE_LIST, b"", b""),
        Flaw::NoList(_) if pieces.is_later(kind, 0, b"List") => {
            page.sentence(object_texts::WRITE_ITEM, b"", b"")
        }
        _ => say_item(page, pieces.text(item_word(pieces, kind))),
    }
}

/// What is said where a value isn't of the type of its field.
fn say_kind(
    alloc: Global,
    page: &mut Page,
    pieces: &Pieces<'_>,
    objects: &Objects<'_, '_>,
    begins: usize,
) -> Result<(), Memory> {
    let mut given = first_given(begins);
    let mut due = first_due(pieces, begins);
    for _ in 0..pieces.len() {
        if given_at(pieces, given).is_none() || due_at(pieces, due).is_none() {
            break;
        }
        let (value, kind) = (given.saturating_add(2), due.saturating_add(2));
        if let Some(flaw) = flaw_of(pieces, objects, value, kind) {
            return say_flaw(alloc, page, pieces, due, flaw);
        }
        given = next_field(pieces, given);
        due = next_field(pieces, due);
    }
    say_line(alloc, page, pieces, begins)?;
    page.say_plain(&object_texts::KINDS_DIFFER)
}

/// What is said of the objects and the root.
fn say_objects(
    alloc: Global,
    page: &mut Page,
    pieces: &Pieces<'_>,
    error: &StoreError,
) -> Result<(), Memory> {
    let objects = Objects::make(alloc, pieces)?;
    match error {
        StoreError::BadReference(object) => {
            say_reference(alloc, page, pieces, &objects, objects.begins(*object))
        }
        StoreError::FieldMissing(object) => {
            say_fields(alloc, page, pieces, objects.begins(*object))
        }
        StoreError::FieldKind(object) => {
            say_kind(alloc, page, pieces, &objects, objects.begins(*object))
        }
        StoreError::ObjectNumber(object) => {
            say_number(alloc, page, pieces, objects.begins(*object), *object)
        }
        _ => say_no_root(alloc, page, pieces, &objects),
    }
}

/// What is said where a text is no service.
pub fn say_service(
    alloc: Global,
    page: &mut Page,
    pieces: &Pieces<'_>,
    error: &StoreError,
) -> Result<(), Memory> {
    match error {
        StoreError::Read(error) => say_read_service(page, pieces, error),
        StoreError::Types(error) => say_types(alloc, page, pieces, error, true),
        StoreError::Memory => page.say_plain(&OUT_OF_MEMORY),
        _ => say_objects(alloc, page, pieces, error),
    }
}
