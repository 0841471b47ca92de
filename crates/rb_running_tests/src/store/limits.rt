// The limits of lists: the last text within each, and the first beyond it.

use crate::store::texts::told;
use crate::told::expect;
use rb_trees::{Memory, Seq, Word};
use std::alloc::Global;
use std::test::Fail;

/// A piece of a text, and how often it stands there.
type Piece = (&'static str, usize);

/// What is shown, a text, and the first 64 bytes of what is told of it.
static TEXTS: [(&str, &[Piece], &str); 4] = [
    (
        "a list has at most ten thousand items",
        &[
            ("class Plan { rows: List<List<Int>>; } ", 1),
            ("object 0: Plan { rows = [[", 1),
            ("7, ", 9_999),
            ("7]]; } root 0;", 1),
        ],
        "object 0: Plan { rows = [[7, 7, 7, 7, 7, 7, 7, 7, 7, 7, 7, 7, 7,",
    ),
    (
        "a list of ten thousand and one is none",
        &[
            ("class Plan { rows: List<List<Int>>; } ", 1),
            ("object 0: Plan { rows = [[", 1),
            ("7, ", 10_000),
            ("7]]; } root 0;", 1),
        ],
        "object 0 has a value of another type than its field\n",
    ),
    (
        "lists nest as deep as types do",
        &[
            ("class Nest { list: ", 1),
            ("List<", 64),
            ("Int", 1),
            (">", 64),
            ("; } object 0: Nest { list = ", 1),
            ("[", 64),
            ("]", 64),
            ("; } root 0;", 1),
        ],
        "object 0: Nest { list = [[[[[[[[[[[[[[[[[[[[[[[[[[[[[[[[[[[[[[[[",
    ),
    (
        "lists nest no deeper than types do",
        &[
            ("class Nest { list: ", 1),
            ("List<", 64),
            ("Int", 1),
            (">", 64),
            ("; } object 0: Nest { list = ", 1),
            ("[", 65),
            ("]", 65),
            ("; } root 0;", 1),
        ],
        "the token at offset 498 nests too deep\n",
    ),
];

fn add_piece(piece: &str, count: usize, into: &mut Word) -> Result<(), Memory> {
    for _ in 0..count {
        into.extend_from_slice(piece.as_bytes())?;
    }
    Ok(())
}

/// The text of these pieces.
fn text_of(alloc: Global, pieces: &[Piece]) -> Result<Word, Memory> {
    let mut text = Seq::new(alloc);
    for (piece, count) in pieces {
        add_piece(piece, *count, &mut text)?;
    }
    Ok(text)
}

/// The first 64 bytes of what is told of the text of these pieces.
fn front_told(alloc: Global, pieces: &[Piece]) -> Result<Word, Memory> {
    let text = text_of(alloc, pieces)?;
    let mut front = told(alloc, text.as_slice())?;
    front.truncate(64);
    Ok(front)
}

#[test]
fn lists_are_as_long_and_as_deep_as_they_may_be(rt: HostRuntime) -> Result<(), Fail> {
    for (shown, pieces, wanted) in &TEXTS {
        expect(shown, front_told(rt.alloc(), pieces)?.as_slice(), wanted)?;
    }
    Ok(())
}
