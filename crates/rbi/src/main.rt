//! The program: the commands of the product over the system's devices.
#![tactic(auto)]

use rb_console::{KeptFiles, is_plain, tell, timeout_for, words_of};
use rb_devices::{FileStores, RealDial, RealFiles, RealListen, StandardOutput};
use rb_top::{Status, top};
use rb_trees::Memory;
use std::fs::File;
use std::io::{IsTerminal, Stdin, Stdout};
use std::net::{Net, TcpListener, TcpStream};
use std::process::{ExitCode, Processes, SystemProcess};
use std::rt::{Clock, Env, Files};
use std::time::Duration;

fn main(rt: HostRuntime) -> ExitCode {
    let in_colours = rt.stderr().is_terminal() && !is_plain(&rt);
    let status = run(&rt, (rt.stdin(), rt.stdout()), in_colours);
    ExitCode::from(status.code())
}

/// Carries out what the words say, and tells what went wrong. The session at `-` is over the standard streams.
fn run<
    R: Files<File = File>
        + Env
        + Clock
        + Net<Listener = TcpListener, Stream = TcpStream>
        + Processes<Started = SystemProcess>
        + Print
        + Eprint
        + AllocGlobal,
>(rt: &R, standard: (Stdin, Stdout), in_colours: bool) -> Status {
    match called(rt) {
        Ok(
            Call {
                program,
                words,
                timeout,
            },
        ) => {
            let mut files = KeptFiles::make(rt.alloc(), RealFiles::make(rt));
            let status = top(
                rt.alloc(),
                words.as_slice(),
                &mut files,
                &mut StandardOutput::make(rt),
                &mut RealDial::make(rt, program.as_str(), timeout),
                &mut RealListen::make(rt, standard.0, standard.1, timeout),
                &mut FileStores::make(rt),
            );
            tell(rt, words.as_slice(), &status, &files, in_colours);
            status
        }
        Err(Memory) => Status::Memory,
    }
}

/// The name that the program was started by, the words behind it, and how long a connection of theirs may be silent.
#[derive(Drop)]
struct Call {
    program: String,
    words: Vec<String>,
    timeout: Option<Duration>,
}

/// What the program was started with.
fn called<R: Env + Eprint + AllocGlobal>(rt: &R) -> Result<Call, Memory> {
    let (program, words) = words_of(rt)?;
    let timeout = timeout_for(rt, words.as_slice())?;
    Ok(Call {
        program,
        words,
        timeout,
    })
}
