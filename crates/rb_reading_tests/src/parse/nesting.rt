// The limits of nesting: the last text within each, and the first beyond it.

use crate::parse::texts::{Form, refusal_is};
use std::alloc::{AllocError, Global};
use std::test::Fail;

/// What stands in a text one behind the other, and how many times it stands there.
type Pieces = &'static [(&'static str, usize)];

/// Texts in pieces, each with the reason for which it isn't read; nothing where it is read.
static NESTS: [(Form, Pieces, &str); 10] = [
    // Blocks, types and expressions that nest as deep as they may.
    (
        Form::Program,
        &[("main{", 1), ("while(a){", 63), ("}", 64)],
        "",
    ),
    (
        Form::Program,
        &[
            ("main:", 1),
            ("List<", 64),
            ("Int", 1),
            (">", 64),
            ("{}", 1),
        ],
        "",
    ),
    (Form::Program, &[("main{", 1), ("-", 200), ("a;}", 1)], ""),
    // The same, one deeper.
    (
        Form::Program,
        &[("main{", 1), ("while(a){", 64)],
        "the token at offset 580 nests too deep",
    ),
    (
        Form::Program,
        &[("main:", 1), ("List<", 65)],
        "the token at offset 329 nests too deep",
    ),
    (
        Form::Program,
        &[("main{", 1), ("-", 201)],
        "the token at offset 205 nests too deep",
    ),
    // Two lists of a service that nest as deep as they may, and one that is deeper.
    (
        Form::Service,
        &[
            ("object 1: A { f = ", 1),
            ("[", 64),
            ("]", 64),
            ("; g = ", 1),
            ("[", 64),
            ("-1", 1),
            ("]", 64),
            ("; } root 1;", 1),
        ],
        "",
    ),
    (
        Form::Service,
        &[("object 1: A { f = ", 1), ("[", 65)],
        "the token at offset 82 nests too deep",
    ),
    // Signs of literals are no marks of expressions.
    (
        Form::Service,
        &[
            ("object 1: A { f = [-1", 1),
            (", -1", 200),
            ("]; } root 1;", 1),
        ],
        "",
    ),
    (
        Form::Service,
        &[("class A { fun f() { ", 1), ("-", 201)],
        "the token at offset 220 nests too deep",
    ),
];

/// Adds the text of pieces.
fn add_pieces(pieces: Pieces, text: &mut String) -> Result<(), AllocError> {
    for (piece, times) in pieces {
        for _ in 0..*times {
            text.push_str(piece)?;
        }
    }
    Ok(())
}

/// Fails unless each text isn't read for the reason beside it.
fn nests_are(alloc: Global, rows: &[(Form, Pieces, &str)]) -> Result<(), Fail> {
    for (form, pieces, wanted) in rows {
        let mut text = String::new(alloc);
        add_pieces(pieces, &mut text)?;
        refusal_is(alloc, *form, text.as_str(), wanted)?;
    }
    Ok(())
}

#[test]
fn what_nests_too_deep_is_refused(rt: HostRuntime) -> Result<(), Fail> {
    nests_are(rt.alloc(), &NESTS)
}
