// Runs whose exchanges are told.

use crate::person::Person;
use crate::reading::LONGEST_TEXT;
use bytes::BytesMut;
use rb_base::{Files as _, FilesStop, MemoryFiles, SteadyListen};
use rb_console::{KeptFiles, tell, timeout_for};
use rb_devices::{RealDial, RealFiles, StandardOutput};
use rb_disk::NullStores;
use rb_top::{Status, top};
use rb_trace::{Tracer, WatchedDial};
use rb_trees::{Memory, Seq};
use std::alloc::Global;
use std::fs::File;
use std::net::{Net, TcpListener, TcpStream};
use std::process::{Processes, SystemProcess};
use std::rt::{Clock, Env, Files};

/// A run that is traced: its words, and the files that they name as they were read, of which one is the program's.
#[derive(Drop)]
struct TracedRun {
    words: Vec<String>,
    files: MemoryFiles,
    program: BytesMut,
}

/// Whether a word is an address.
fn is_address(word: &str) -> bool {
    word.contains(':')
}

/// The command of a run, and its words behind that.
fn words_of(alloc: Global, run: &[String]) -> Result<Vec<String>, Memory> {
    let command = match run {
        [first, ..] if is_address(first.as_str()) => "run",
        _ => "both",
    };
    let mut words = Vec::new(alloc);
    words.push(String::from_str(alloc, command)?)?;
    for word in run {
        words.push(String::from_str(alloc, word.as_str())?)?;
    }
    Ok(words)
}

/// Reads a file, and keeps what was read under its name. One that can't be read is left out, and gives no text.
fn keep_file<R: Files<File = File> + AllocGlobal>(
    rt: &R,
    name: &str,
    files: &mut MemoryFiles,
) -> Result<BytesMut, Memory> {
    let mut text = BytesMut::new(rt.alloc());
    match RealFiles::make(rt).read(name, LONGEST_TEXT, &mut text) {
        Ok(()) => {
            files.add(name, text.as_slice())?;
            Ok(text)
        }
        Err(FilesStop::Failed) => Ok(text),
        Err(FilesStop::Memory) => Err(Memory),
    }
}

/// Reads what a run needs.
fn read_run<R: Files<File = File> + AllocGlobal>(
    rt: &R,
    run: &[String],
) -> Result<TracedRun, Memory> {
    let words = words_of(rt.alloc(), run)?;
    let mut files = MemoryFiles::make(rt.alloc(), Seq::new(rt.alloc()));
    let mut program = BytesMut::new(rt.alloc());
    match run {
        [first, second, ..] if is_address(first.as_str()) => {
            program = keep_file(rt, second.as_str(), &mut files)?;
        }
        [first, second, ..] => {
            program = keep_file(rt, first.as_str(), &mut files)?;
            keep_file(rt, second.as_str(), &mut files)?;
        }
        _ => {}
    }
    Ok(TracedRun {
        words,
        files,
        program,
    })
}

/// Runs a program as `rbi` does, and tells each exchange.
fn run_traced<
    R: Files<File = File>
        + Env
        + Clock
        + Net<Listener = TcpListener, Stream = TcpStream>
        + Processes<Started = SystemProcess>
        + Print
        + Eprint
        + AllocGlobal,
>(person: &Person<'_, R>, started: &str, run: &[String]) -> Result<Status, Memory> {
    let rt = person.rt;
    let TracedRun {
        words,
        files,
        program,
    } = read_run(rt, run)?;
    let timeout = timeout_for(rt, words.as_slice())?;
    let tracer = Tracer::make(rt, program.as_slice())?;
    let mut files = KeptFiles::make(rt.alloc(), files);
    let status = top(
        rt.alloc(),
        words.as_slice(),
        &mut files,
        &mut StandardOutput::make(rt),
        &mut WatchedDial::over(RealDial::make(rt, started, timeout), &tracer),
        &mut SteadyListen::make(rt.alloc(), Seq::new(rt.alloc())),
        &mut NullStores,
    );
    tell(rt, words.as_slice(), &status, &files, person.in_colours);
    Ok(status)
}

/// Runs a program over a link, and tells each of its exchanges on standard error. Answer and exit status are those of `rbi`.
pub fn trace<
    R: Files<File = File>
        + Env
        + Clock
        + Net<Listener = TcpListener, Stream = TcpStream>
        + Processes<Started = SystemProcess>
        + Print
        + Eprint
        + AllocGlobal,
>(person: &Person<'_, R>, started: &str, run: &[String]) -> u8 {
    match run_traced(person, started, run) {
        Ok(status) => status.code(),
        Err(Memory) => Status::Memory.code(),
    }
}
