// Lines of a text that is made.

use crate::parts::Part;
use rb_trees::{Memory, Word};

// Adds the blanks before a comment that stands before a line: those of the line, and two more where it closes a block.
fn add_margin(line: &[u8], into: &mut Word) -> Result<(), Memory> {
    for byte in line {
        match byte {
            b' ' => into.push(b' ')?,
            b'}' => return into.extend_from_slice(b"  "),
            _ => return Ok(()),
        }
    }
    Ok(())
}

// Adds a comment on a line of its own, before a line.
fn add_comment_line(line: &[u8], comment: &[u8], into: &mut Word) -> Result<(), Memory> {
    add_margin(line, into)?;
    into.extend_from_slice(comment)?;
    into.push(b'\n')
}

/// Adds the comments among some parts, each on a line of its own, before a line.
pub fn add_comment_lines(line: &[u8], parts: &[Part<'_>], into: &mut Word) -> Result<(), Memory> {
    for part in parts {
        match part {
            Part::Token(_) => {}
            Part::Alone(comment) | Part::Behind(comment) => add_comment_line(line, comment, into)?,
        }
    }
    Ok(())
}

/// Adds a line, but for an empty one, which stands behind the last line feed of a text.
pub fn add_line(line: &[u8], into: &mut Word) -> Result<(), Memory> {
    if line.is_empty() {
        return Ok(());
    }
    into.extend_from_slice(line)?;
    into.push(b'\n')
}

/// Adds a line with the comment that a part is behind it, two spaces apart.
pub fn add_commented_line(line: &[u8], part: Part<'_>, into: &mut Word) -> Result<(), Memory> {
    into.extend_from_slice(line)?;
    match part {
        Part::Token(_) => {}
        Part::Alone(comment) | Part::Behind(comment) => {
            into.extend_from_slice(b"  ")?;
            into.extend_from_slice(comment)?;
        }
    }
    into.push(b'\n')
}
