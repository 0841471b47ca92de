// Marks and places as letters.

use rb_marks::Marks;
use rb_trees::{Mark, Memory, Place, Word};
use std::ops::Range;

/// The letter of a position, or a space: R, C and L for Remote, Constant and Local, s, o and e for a script place,
/// local only and elsewhere.
fn letter(marks: &Marks, at: usize) -> u8 {
    let Ok(at) = u32::try_from(at) else {
        return b'?';
    };
    match (marks.mark_at(at), marks.place_at(at)) {
        (Some(Mark::Remote), None) => b'R',
        (Some(Mark::Constant), None) => b'C',
        (Some(Mark::Local), None) => b'L',
        (None, Some(Place::Script)) => b's',
        (None, Some(Place::LocalOnly)) => b'o',
        (None, Some(Place::Elsewhere)) => b'e',
        (None, None) => b' ',
        (Some(_), Some(_)) => b'?',
    }
}

/// Adds the letters of these positions.
pub fn add_letters(marks: &Marks, shown: Range<usize>, into: &mut Word) -> Result<(), Memory> {
    for at in shown {
        into.push(letter(marks, at))?;
    }
    Ok(())
}
