// What the commands answer.

use crate::places::Place;
use crate::texts::add_filled;
use rb_base::{MemoryFiles, MemorySink, SteadyListen};
use rb_disk::NullStores;
use rb_session::NullDial;
use rb_top::top;
use rb_trees::{Memory, Seq, Word};
use std::alloc::Global;

/// The words of a text, which single spaces part.
pub fn words_of(alloc: Global, text: &str) -> Result<Vec<String>, Memory> {
    let mut words = Vec::new(alloc);
    for word in text.split(' ') {
        words.push(String::from_str(alloc, word)?)?;
    }
    Ok(words)
}

/// Adds a file of a name, unless its text is `(none)`.
fn add_named(name: &str, text: &[u8], files: &mut MemoryFiles) -> Result<(), Memory> {
    if text == b"(none)".as_slice() {
        return Ok(());
    }
    files.add(name, text)
}

/// Adds the program of a place with the text of a row.
fn add_program(
    alloc: Global,
    place: &Place,
    text: &str,
    files: &mut MemoryFiles,
) -> Result<(), Memory> {
    let mut program = Seq::from_slice(alloc, place.interfaces.as_bytes())?;
    add_filled(alloc, place.program, text, &mut program)?;
    add_named("p", program.as_slice(), files)
}

/// Adds the service of a place with the text of a row.
fn add_service(
    alloc: Global,
    place: &Place,
    text: &str,
    files: &mut MemoryFiles,
) -> Result<(), Memory> {
    let mut service = Seq::new(alloc);
    add_filled(alloc, place.service, text, &mut service)?;
    add_named("s", service.as_slice(), files)
}

/// Adds the files of a place with the text of a row.
pub fn add_files(
    alloc: Global,
    place: &Place,
    text: &str,
    files: &mut MemoryFiles,
) -> Result<(), Memory> {
    add_program(alloc, place, text, files)?;
    add_service(alloc, place, text, files)
}

/// The exit status of the command that the words are, where nothing is dialled and no session comes.
fn code_of(alloc: Global, words: &[String], files: &mut MemoryFiles, out: &mut MemorySink) -> u8 {
    let mut dial = NullDial::make(alloc);
    let mut listen = SteadyListen::make(alloc, Seq::new(alloc));
    let status = top(
        alloc,
        words,
        files,
        out,
        &mut dial,
        &mut listen,
        &mut NullStores,
    );
    status.code()
}

/// The exit status of the command that the words of a text are.
fn code_told(
    alloc: Global,
    words: &str,
    files: &mut MemoryFiles,
    out: &mut MemorySink,
) -> Result<u8, Memory> {
    let words = words_of(alloc, words)?;
    Ok(code_of(alloc, words.as_slice(), files, out))
}

/// Adds an exit status before what was printed, and a remark where that doesn't end with a line feed.
fn add_printed(alloc: Global, code: u8, written: &[u8], into: &mut Word) -> Result<(), Memory> {
    let status = format!(in alloc; "{code} ")?;
    into.extend_from_slice(status.as_bytes())?;
    into.extend_from_slice(written)?;
    match written.last() {
        Some(b'\n') => Ok(()),
        _ => into.extend_from_slice(b"(no line feed)\n"),
    }
}

/// Adds what words answer over an output.
pub fn answer_over(
    alloc: Global,
    words: &str,
    files: &mut MemoryFiles,
    out: &mut MemorySink,
    into: &mut Word,
) -> Result<(), Memory> {
    let code = code_told(alloc, words, files, out)?;
    add_printed(alloc, code, out.written(), into)
}

/// Adds what words answer over an output that takes all.
pub fn answer(
    alloc: Global,
    words: &str,
    files: &mut MemoryFiles,
    into: &mut Word,
) -> Result<(), Memory> {
    let mut out = MemorySink::make(alloc, Seq::new(alloc), usize::MAX);
    answer_over(alloc, words, files, &mut out, into)
}

/// Adds what words answer at a place, on the text of a row.
pub fn answer_at(
    alloc: Global,
    place: &Place,
    words: &str,
    text: &str,
    into: &mut Word,
) -> Result<(), Memory> {
    let mut files = MemoryFiles::make(alloc, Seq::new(alloc));
    add_files(alloc, place, text, &mut files)?;
    answer(alloc, words, &mut files, into)
}
