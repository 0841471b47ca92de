//! Tools beside the program: the layout of texts, the bytes of messages, the exchanges of a run, and pictures of batches.
//!
//! What is wrong with a text is told as `rbi` tells it, with its line and its exit status.
#![tactic(auto)]

mod drawing;
mod formatting;
mod judging;
mod person;
mod reading;
mod showing;
mod tracing;
mod usage;
mod words;

use drawing::draw_file;
use formatting::{check_layout, format_file};
use person::Person;
use rb_console::{is_plain, words_of};
use rb_top::Status;
use rb_trees::Memory;
use showing::show_bytes;
use std::fs::File;
use std::io::IsTerminal;
use std::net::{Net, TcpListener, TcpStream};
use std::process::{ExitCode, Processes, SystemProcess};
use std::rt::{Clock, Env, Files};
use tracing::trace;
use usage::say_usage;
use words::{Tool, tool_of};

fn main(rt: HostRuntime) -> ExitCode {
    let in_colours = rt.stderr().is_terminal() && !is_plain(&rt);
    ExitCode::from(run(&rt, in_colours))
}

/// Uses the tool that the words name, and gives the exit status.
fn run<
    R: Files<File = File>
        + Env
        + Clock
        + Net<Listener = TcpListener, Stream = TcpStream>
        + Processes<Started = SystemProcess>
        + Print
        + Eprint
        + AllocGlobal,
>(rt: &R, in_colours: bool) -> u8 {
    let Ok((program, words)) = words_of(rt) else {
        return Status::Memory.code();
    };
    let person = Person { rt, in_colours };
    match tool_of(words.as_slice()) {
        Some(Tool::Format(name)) => format_file(&person, name),
        Some(Tool::CheckLayout(name)) => check_layout(&person, name),
        Some(Tool::Bytes(name)) => show_bytes(&person, name),
        Some(Tool::Trace(run)) => trace(&person, program.as_str(), run),
        Some(Tool::Picture(name)) => draw_file(&person, name),
        None => say_usage(&person),
    }
}
