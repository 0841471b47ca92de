// What a command works with beside its links and its sessions: its words, its files and its output.

use rb_base::{MemoryFiles, MemorySink};
use rb_trees::Seq;
use std::alloc::Global;
use std::test::Fail;

/// The name of a file, and the two parts of its text.
pub type Text<'a> = (&'a str, &'a str, &'a str);

/// What a command is asked: its words, the files that it may read, and the numbers of the reads and of the writes that fail; and
/// what it is to show: its exit status before what it prints, in two parts.
#[derive(Clone, Copy)]
pub struct Asked<'a> {
    pub words: &'a str,
    pub texts: &'a [Text<'a>],
    pub reads: &'a [u64],
    pub writes: &'a [u64],
    pub said: &'a str,
    pub rest: &'a str,
}

/// The words of a command, the files that it may read, and its output.
#[derive(Drop)]
pub struct Desk {
    pub words: Vec<String>,
    pub files: MemoryFiles,
    pub out: MemorySink,
}

/// A desk for what is asked. Single spaces part its words.
pub fn desk_of(alloc: Global, asked: &Asked<'_>) -> Result<Desk, Fail> {
    let mut words = Vec::new(alloc);
    for word in asked.words.split(' ') {
        words.push(String::from_str(alloc, word)?)?;
    }
    let mut files = MemoryFiles::make(alloc, Seq::from_slice(alloc, asked.reads)?);
    for (name, front, rest) in asked.texts {
        let text = format!(in alloc; "{front}{rest}")?;
        files.add(name, text.as_str().as_bytes())?;
    }
    let writes = Seq::from_slice(alloc, asked.writes)?;
    Ok(Desk {
        words,
        files,
        out: MemorySink::make(alloc, writes, usize::MAX),
    })
}
