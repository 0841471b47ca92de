// What `rbi` says of a text.

use crate::person::Person;
use rb_base::{MemoryFiles, MemorySink, SteadyListen};
use rb_console::{KeptFiles, tell};
use rb_disk::NullStores;
use rb_session::NullDial;
use rb_top::{Status, top};
use rb_trees::{Memory, Seq};
use std::alloc::Global;

/// What a text is to be.
#[derive(Clone, Copy)]
pub enum Kind {
    Program,
    Service,
}

/// What a file's name says of its text: that of a service ends in `.rbs`.
pub fn kind_of(name: &str) -> Kind {
    if name.ends_with(".rbs") {
        Kind::Service
    } else {
        Kind::Program
    }
}

/// The command that reads a text and does nothing else with it: the words, with the files that they name.
///
/// A service is read behind a program that does nothing, whose file has no name.
#[derive(Drop)]
struct Question {
    words: Vec<String>,
    files: MemoryFiles,
}

/// What `rbi` says of a text: how it ends, and what it prints.
#[derive(Drop)]
pub struct Judgement {
    pub status: Status,
    words: Vec<String>,
    files: KeptFiles<MemoryFiles>,
    out: MemorySink,
}

/// The command for a text of a name, or for a file that isn't there.
fn question_of(
    alloc: Global,
    kind: Kind,
    name: &str,
    text: Option<&[u8]>,
) -> Result<Question, Memory> {
    let mut words = Vec::new(alloc);
    let mut files = MemoryFiles::make(alloc, Seq::new(alloc));
    match kind {
        Kind::Program => words.push(String::from_str(alloc, "check")?)?,
        Kind::Service => {
            words.push(String::from_str(alloc, "unsplit")?)?;
            words.push(String::new(alloc))?;
            files.add("", b"main { }")?;
        }
    }
    words.push(String::from_str(alloc, name)?)?;
    if let Some(text) = text {
        files.add(name, text)?;
    }
    Ok(Question { words, files })
}

/// Asks `rbi` of a text of a name, or of a file that isn't there.
pub fn judge(
    alloc: Global,
    kind: Kind,
    name: &str,
    text: Option<&[u8]>,
) -> Result<Judgement, Memory> {
    let Question { words, files } = question_of(alloc, kind, name, text)?;
    let mut files = KeptFiles::make(alloc, files);
    let mut out = MemorySink::make(alloc, Seq::new(alloc), usize::MAX);
    let status = top(
        alloc,
        words.as_slice(),
        &mut files,
        &mut out,
        &mut NullDial::make(alloc),
        &mut SteadyListen::make(alloc, Seq::new(alloc)),
        &mut NullStores,
    );
    Ok(Judgement {
        status,
        words,
        files,
        out,
    })
}

/// Prints what `rbi` said of a text, tells why on standard error, and gives the exit status.
pub fn pass_on<R: Print + Eprint + AllocGlobal>(
    person: &Person<'_, R>,
    judgement: &Judgement,
) -> u8 {
    let Judgement {
        status,
        words,
        files,
        out,
    } = judgement;
    let code = person.print(out.written(), status.code());
    tell(
        person.rt,
        words.as_slice(),
        status,
        files,
        person.in_colours,
    );
    code
}

/// Says as `rbi` does why a text of a name isn't taken, or that there is no file.
pub fn refuse<R: Print + Eprint + AllocGlobal>(
    person: &Person<'_, R>,
    kind: Kind,
    name: &str,
    text: Option<&[u8]>,
) -> u8 {
    match judge(person.alloc(), kind, name, text) {
        Ok(judgement) => pass_on(person, &judgement),
        Err(Memory) => Status::Memory.code(),
    }
}
