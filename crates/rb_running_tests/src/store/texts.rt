// How texts are read in the tests.

use crate::told::expect;
use rb_store::{print_table, read_service};
use rb_trees::{Memory, Seq, StoreError, Word};
use std::alloc::Global;
use std::test::Fail;

/// The classes of a library: its books, a shelf of them, and a plan of numbers.
pub static CLASSES: &str =
    "class Book { title: Text; pages: Int; lent: Bool; fun title(): Text { return this.title; } } \
class Shelf { books: List<Book>; best: Book; } \
class Plan { rows: List<List<Int>>; } ";

/// The message of a refusal, on a line.
fn message(alloc: Global, refusal: &StoreError) -> Result<Word, Memory> {
    let text = format!(in alloc; "{refusal}\n")?;
    Seq::from_slice(alloc, text.as_bytes())
}

/// The table of a text, printed, or why the text is no service.
pub fn told(alloc: Global, source: &[u8]) -> Result<Word, Memory> {
    match read_service(alloc, source) {
        Ok((_, table)) => print_table(alloc, &table),
        Err(refusal) => message(alloc, &refusal),
    }
}

/// A text of objects and a root behind classes.
pub fn behind(alloc: Global, classes: &str, objects: &str) -> Result<Word, Memory> {
    let mut source = Seq::from_slice(alloc, classes.as_bytes())?;
    source.extend_from_slice(objects.as_bytes())?;
    Ok(source)
}

/// What is told of objects and a root behind classes.
fn told_behind(alloc: Global, classes: &str, objects: &str) -> Result<Word, Memory> {
    let source = behind(alloc, classes, objects)?;
    told(alloc, source.as_slice())
}

/// Fails where something else is told of objects and a root behind these classes than is wanted and a line feed.
fn expect_told(alloc: Global, classes: &str, objects: &str, wanted: &str) -> Result<(), Fail> {
    let told = told_behind(alloc, classes, objects)?;
    match told.as_slice() {
        [front @ .., b'\n'] => expect(objects, front, wanted),
        _ => expect(objects, b"a line without its end", wanted),
    }
}

/// Fails where something else is told of objects and a root behind these classes than stands behind them in their row. Rows
/// are parted by lines `====`, and their parts by lines `----`.
pub fn expect_each(alloc: Global, classes: &str, rows: &str) -> Result<(), Fail> {
    for row in rows.split("\n====\n") {
        let (objects, wanted) = row.split_once("\n----\n").unwrap_or((row, ""));
        expect_told(alloc, classes, objects, wanted)?;
    }
    Ok(())
}
