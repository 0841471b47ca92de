// The spelling of types.

use crate::known_types::Written;
use rb_pieces::Pieces;
use rb_pieces::spans::is_word;
use rb_trees::{Memory, Seq, TypeForm, Word};
use std::alloc::Global;

/// Adds a type as it is written.
fn add_type(form: &TypeForm, into: &mut Word) -> Result<(), Memory> {
    match form {
        TypeForm::Int => into.extend_from_slice(b"Int"),
        TypeForm::Bool => into.extend_from_slice(b"Bool"),
        TypeForm::Text => into.extend_from_slice(b"Text"),
        TypeForm::Unit => into.extend_from_slice(b"Unit"),
        TypeForm::Named(name) => into.extend_from_slice(name.as_slice()),
        TypeForm::ListOf(item) => {
            into.extend_from_slice(b"List<")?;
            add_type(&item.get().form, into)?;
            into.extend_from_slice(b">")
        }
        TypeForm::RowsOf(row) => {
            into.extend_from_slice(b"Rows<")?;
            add_type(&row.get().form, into)?;
            into.extend_from_slice(b">")
        }
    }
}

/// A type as it is written.
pub fn type_word(alloc: Global, form: &TypeForm) -> Result<Word, Memory> {
    let mut word = Seq::new(alloc);
    add_type(form, &mut word)?;
    Ok(word)
}

/// The number of the piece behind the type that begins at a piece.
fn type_end(pieces: &Pieces<'_>, first: usize) -> usize {
    let mut open = 0usize;
    for place in first..pieces.len() {
        match pieces.text(place) {
            b"<" => open = open.saturating_add(1),
            b">" if open == 0 => return place,
            b">" => open -= 1,
            text if is_word(text) => {}
            _ => return place,
        }
    }
    pieces.len()
}

/// Whether the types that begin at two pieces are the same.
pub fn is_same_type(pieces: &Pieces<'_>, one: usize, other: usize) -> bool {
    let end = type_end(pieces, one);
    let count = end.saturating_sub(one);
    if type_end(pieces, other) != other.saturating_add(count) {
        return false;
    }
    for number in 0..count {
        if pieces.later(one, number) != pieces.later(other, number) {
            return false;
        }
    }
    true
}

/// A type as it is written, without blanks and comments, or nothing where it isn't known.
pub fn written_word(alloc: Global, pieces: &Pieces<'_>, written: Written) -> Result<Word, Memory> {
    let mut word = Seq::new(alloc);
    match written {
        Written::Nowhere => {}
        Written::Named(name) => word.extend_from_slice(name)?,
        Written::From(first) => {
            for place in first..type_end(pieces, first) {
                word.extend_from_slice(pieces.text(place))?;
            }
        }
    }
    Ok(word)
}
