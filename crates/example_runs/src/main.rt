//! Runs the examples as a user would, one after the other, and prints each command with its exit status and its lines.
#![tactic(auto)]

use rb_base::{MemoryFiles, MemorySink, SteadyListen};
use rb_disk::NullStores;
use rb_session::NullDial;
use rb_top::top;
use rb_trees::{Memory, Seq};
use std::alloc::Global;
use std::rt::Files;
use std::{fs, io, str};

/// The commands, whose words single spaces part. What has a `.` in it names a file.
const COMMANDS: [&str; 25] = [
    "both large.rbi files.rbs",
    "unsplit large.rbi files.rbs",
    "split large.rbi",
    "both rename.rbi files.rbs",
    "both cart.rbi shop.rbs",
    "both report.rbi folders.rbs",
    "both prices.rbi prices.rbs",
    "split prices.rbi",
    "both local_fault.rbi files.rbs",
    "check refused.rbi",
    "both mended.rbi files.rbs",
    "check constant.rbi",
    "both constant_mended.rbi files.rbs",
    "check condition.rbi",
    "both condition_mended.rbi files.rbs",
    "check escape.rbi",
    "both escape_mended.rbi files.rbs",
    "check inside.rbi",
    "both inside_mended.rbi files.rbs",
    "check trying.rbi",
    "both trying_mended.rbi files.rbs",
    "check variable.rbi",
    "both variable_mended.rbi files.rbs",
    "hub hub.events files.rbs",
    "json files.rbs request.json",
];

fn main(rt: HostRuntime) -> io::Result<()> {
    for command in COMMANDS {
        println!(rt; "rbi {command}")?;
        match outcome(&rt, command)? {
            Ok(text) => println!(rt; "{text}")?,
            Err(Memory) => println!(rt; "out of memory")?,
        }
    }
    Ok(())
}

/// What a command prints, and its exit status behind that.
fn outcome<R: AllocGlobal + Files>(rt: &R, command: &str) -> io::Result<Result<String, Memory>> {
    let mut files = MemoryFiles::make(rt.alloc(), Seq::new(rt.alloc()));
    for name in command.split(' ') {
        if name.contains('.') {
            let text = fs::read(rt, name)?;
            if files.add(name, text.as_slice()).is_err() {
                return Ok(Err(Memory));
            }
        }
    }
    Ok(answered(rt.alloc(), command, &mut files))
}

/// The words of a command.
fn words_of(alloc: Global, command: &str) -> Result<Vec<String>, Memory> {
    let mut words = Vec::new(alloc);
    for word in command.split(' ') {
        words.push(String::from_str(alloc, word)?)?;
    }
    Ok(words)
}

/// The same, with these files.
fn answered(alloc: Global, command: &str, files: &mut MemoryFiles) -> Result<String, Memory> {
    let words = words_of(alloc, command)?;
    let mut out = MemorySink::make(alloc, Seq::new(alloc), usize::MAX);
    let mut dial = NullDial::make(alloc);
    let mut listen = SteadyListen::make(alloc, Seq::new(alloc));
    let status = top(
        alloc,
        words.as_slice(),
        files,
        &mut out,
        &mut dial,
        &mut listen,
        &mut NullStores,
    );
    let code = status.code();
    let text = str::from_utf8(out.written()).unwrap_or("not UTF-8");
    Ok(format!(in alloc; "{text}status {code}")?)
}
