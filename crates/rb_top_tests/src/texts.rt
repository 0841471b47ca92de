// Texts that rows stand for.

use rb_trees::{Memory, Word};
use std::alloc::Global;

fn add_number(alloc: Global, number: u32, into: &mut Word) -> Result<(), Memory> {
    let text = format!(in alloc; "{number}")?;
    into.extend_from_slice(text.as_bytes())
}

/// Adds a piece with a number in the place of each `#`.
fn add_turn(alloc: Global, piece: &str, number: u32, into: &mut Word) -> Result<(), Memory> {
    let mut parts = piece.split('#');
    into.extend_from_slice(parts.next().unwrap_or("").as_bytes())?;
    while let Some(part) = parts.next() {
        add_number(alloc, number, into)?;
        into.extend_from_slice(part.as_bytes())?;
    }
    Ok(())
}

/// Adds a piece so many times, numbered from 0.
fn add_turns(alloc: Global, piece: &str, count: u32, into: &mut Word) -> Result<(), Memory> {
    for number in 0..count {
        add_turn(alloc, piece, number, into)?;
    }
    Ok(())
}

/// Adds a text: behind a `~` stand a piece and, behind two more, how often it stands there and what follows.
fn add_repeated(alloc: Global, text: &str, into: &mut Word) -> Result<(), Memory> {
    let mut parts = text.split('~');
    into.extend_from_slice(parts.next().unwrap_or("").as_bytes())?;
    while let Some(piece) = parts.next() {
        let count = parts.next().unwrap_or("").parse::<u32>().unwrap_or(0);
        add_turns(alloc, piece, count, into)?;
        into.extend_from_slice(parts.next().unwrap_or("").as_bytes())?;
    }
    Ok(())
}

/// Adds the text of a row; one that is no UTF-8 has a name here.
fn add_text(alloc: Global, text: &str, into: &mut Word) -> Result<(), Memory> {
    match text {
        "(main FF)" => into.extend_from_slice(b"main \xff"),
        _ => add_repeated(alloc, text, into),
    }
}

/// Adds a template with the text of a row at its `@`, where it has one.
pub fn add_filled(
    alloc: Global,
    template: &str,
    text: &str,
    into: &mut Word,
) -> Result<(), Memory> {
    let Some((front, back)) = template.split_once('@') else {
        return into.extend_from_slice(template.as_bytes());
    };
    into.extend_from_slice(front.as_bytes())?;
    add_text(alloc, text, into)?;
    into.extend_from_slice(back.as_bytes())
}

/// Adds what a row wants and a line feed. A last line `sizes A B` stands for the table of the directory, with these sizes of
/// its two files.
pub fn add_wanted(alloc: Global, wanted: &str, into: &mut Word) -> Result<(), Memory> {
    let Some((lines, sizes)) = wanted.split_once("\nsizes ") else {
        into.extend_from_slice(wanted.as_bytes())?;
        return into.push(b'\n');
    };
    let (one, two) = sizes.split_once(' ').unwrap_or((sizes, ""));
    let text = format!(in alloc;
        "{lines}\nobject 0: Dir {{ list = [#1, #2]; }}\nobject 1: File {{ name = \"a\"; size = {one}; }}\nobject 2: File {{ name = \"bb\"; size = {two}; }}\n"
    )?;
    into.extend_from_slice(text.as_bytes())
}
