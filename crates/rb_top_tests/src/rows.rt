// Rows of texts, and what is answered on each.
//
// Rows are parted by lines `====`, and the parts of a row by lines `----`: a text, the exit status and the lines that are
// answered on it, and, in some, the lines of words that are tried in place of those of the table.

use crate::answers::answer_at;
use crate::places::Place;
use crate::texts::add_wanted;
use rb_trees::Seq;
use std::alloc::Global;
use std::str;
use std::test::Fail;

/// Fails, with the row, where something else is answered than is wanted.
pub fn expect(row: &str, answered: &[u8], wanted: &[u8]) -> Result<(), Fail> {
    if answered == wanted {
        return Ok(());
    }
    let answered = str::from_utf8(answered).unwrap_or("no UTF-8");
    Err(Fail::new(format_args!("{row}\nis the row, and this is answered:\n{answered}")))
}

/// Fails unless words answer at a place, on the text of a row, what is wanted.
pub fn is_answered(
    alloc: Global,
    place: &Place,
    words: &str,
    text: &str,
    wanted: &str,
    row: &str,
) -> Result<(), Fail> {
    let mut whole = Seq::new(alloc);
    add_wanted(alloc, wanted, &mut whole)?;
    let mut answered = Seq::new(alloc);
    answer_at(alloc, place, words, text, &mut answered)?;
    expect(row, answered.as_slice(), whole.as_slice())
}

/// Fails unless that is answered at a place on the text of a row.
fn row_is_answered(alloc: Global, place: &Place, row: &str) -> Result<(), Fail> {
    let mut parts = row.split("\n----\n");
    let text = parts.next().unwrap_or("");
    let wanted = parts.next().unwrap_or("");
    let lines = parts.next().unwrap_or(place.words);
    for words in lines.split('\n') {
        is_answered(alloc, place, words, text, wanted, row)?;
    }
    Ok(())
}

/// Fails unless that is answered at a place on the text of each row.
pub fn rows_are_answered(alloc: Global, place: &Place, rows: &str) -> Result<(), Fail> {
    for row in rows.split("\n====\n") {
        row_is_answered(alloc, place, row)?;
    }
    Ok(())
}

/// Fails unless on the text of each line that is answered which stands before its bar.
pub fn lines_are_answered(alloc: Global, place: &Place, lines: &str) -> Result<(), Fail> {
    for line in lines.split('\n') {
        let (wanted, text) = line.split_once('|').unwrap_or((line, ""));
        is_answered(alloc, place, place.words, text, wanted, line)?;
    }
    Ok(())
}
