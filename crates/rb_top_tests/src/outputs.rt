// What is written where a write fails, and what is read.

use crate::answers::{add_files, answer, answer_over};
use crate::places::{NUMBER, PROGRAM, SERVICE};
use crate::rows::expect;
use bytes::BytesMut;
use rb_base::{Files, FilesStop, MemoryFiles, MemorySink};
use rb_trees::{Memory, Seq, Word};
use std::alloc::Global;
use std::test::Fail;

/// Words, the write that fails, how many bytes a write takes at most, and what is answered on the program of one print.
type CutOff = (&'static str, u64, usize, &'static str);

static CUT_OFFS: [CutOff; 11] = [
    ("both p s", 1, usize::MAX, "9 (no line feed)\n"),
    ("both p s", 2, usize::MAX, "9 7\n"),
    ("both p s", 3, usize::MAX, "9 7\ndone\n"),
    ("both p s", 4, usize::MAX, "9 7\ndone\nexchanges 1\n"),
    (
        "both p s",
        5,
        usize::MAX,
        "0 7\ndone\nexchanges 1\nobject 0: D { }\n",
    ),
    (
        "both p s",
        99,
        1,
        "0 7\ndone\nexchanges 1\nobject 0: D { }\n",
    ),
    ("both p s", 4, 1, "9 7\nd(no line feed)\n"),
    // Each line of a view is written by itself.
    ("split p", 1, usize::MAX, "9 (no line feed)\n"),
    ("split p", 2, usize::MAX, "9 batch 1:38\n"),
    ("split p", 3, usize::MAX, "9 batch 1:38\ninputs\n"),
    ("split p", 4, usize::MAX, "9 batch 1:38\ninputs\nscript\n"),
];

/// Adds what words answer on the program of one print, over an output.
fn answer_print(
    alloc: Global,
    words: &str,
    out: &mut MemorySink,
    into: &mut Word,
) -> Result<(), Memory> {
    let mut files = MemoryFiles::make(alloc, Seq::new(alloc));
    add_files(alloc, &NUMBER, PROGRAM, &mut files)?;
    answer_over(alloc, words, &mut files, out, into)
}

/// Adds what is answered where a write fails.
fn answer_cut_off(alloc: Global, row: &CutOff, into: &mut Word) -> Result<(), Memory> {
    let (words, failing, most, _) = row;
    let failing = Seq::from_slice(alloc, &[*failing])?;
    let mut out = MemorySink::make(alloc, failing, (*most).max(1));
    answer_print(alloc, words, &mut out, into)
}

/// Fails unless that is answered where a write fails.
fn is_cut_off(alloc: Global, row: &CutOff) -> Result<(), Fail> {
    let mut answered = Seq::new(alloc);
    answer_cut_off(alloc, row, &mut answered)?;
    expect(row.3, answered.as_slice(), row.3.as_bytes())
}

fn are_cut_off(alloc: Global, rows: &[CutOff]) -> Result<(), Fail> {
    for row in rows {
        is_cut_off(alloc, row)?;
    }
    Ok(())
}

#[test]
fn lines_before_a_failed_write_stand(rt: HostRuntime) -> Result<(), Fail> {
    are_cut_off(rt.alloc(), &CUT_OFFS)
}

/// Words, what is answered on a file of a name and a text, and the first read that isn't made: it would fail.
type Read = (&'static str, &'static str, &'static str, &'static str, u64);

static READS: [Read; 2] = [
    // No service is read without a program.
    ("both p s", "3 file fault p\n", "s", SERVICE, 2),
    // A trial reads no file.
    (
        "trial 3",
        "0 1702\n0\ndone\nexchanges 1\nobjects 4\n",
        "p",
        PROGRAM,
        1,
    ),
];

/// Fails unless the next read fails and the one behind it gives this text.
fn next_read_fails(
    alloc: Global,
    files: &mut MemoryFiles,
    name: &str,
    text: &str,
) -> Result<(), Fail> {
    let mut read = BytesMut::new(alloc);
    if !matches!(files.read(name, 99, &mut read), Err(FilesStop::Failed)) {
        return Err(Fail::new("another number of reads was made"));
    }
    files.read(name, 99, &mut read)?;
    expect(text, read.as_slice(), text.as_bytes())
}

/// Fails unless that is answered and no more is read.
fn no_more_is_read(alloc: Global, row: &Read, files: &mut MemoryFiles) -> Result<(), Fail> {
    let (words, wanted, name, text, _) = row;
    files.add(name, text.as_bytes())?;
    let mut answered = Seq::new(alloc);
    answer(alloc, words, files, &mut answered)?;
    expect(words, answered.as_slice(), wanted.as_bytes())?;
    next_read_fails(alloc, files, name, text)
}

fn reads_are_few(alloc: Global, rows: &[Read]) -> Result<(), Fail> {
    for row in rows {
        let mut files = MemoryFiles::make(alloc, Seq::from_slice(alloc, &[row.4])?);
        no_more_is_read(alloc, row, &mut files)?;
    }
    Ok(())
}

#[test]
fn only_what_is_needed_is_read(rt: HostRuntime) -> Result<(), Fail> {
    reads_are_few(rt.alloc(), &READS)
}
