// The end of a connection, of a child process or of standard input from which bytes come.

ghost use Rattle.std.specs.Prelude.{◌≡◌, IfOk};

use crate::counts::count_one;
use crate::moves::read_some;
use rb_base::{Failed, Source};
use std::alloc::Global;
use std::io::{self, BufReader, Stdin};
use std::marker::Model;
use std::net::TcpStream;
use std::process::ChildStdout;

/// How many bytes of a connection are taken at once, where whoever reads asks for fewer.
const AHEAD: usize = 65_536;

/// Where the bytes come from.
#[derive(Drop)]
enum Origin {
    Stream(BufReader<TcpStream>),
    Child(ChildStdout),
    Standard(Stdin),
}

/// A source of the system: a connection, the standard output of a child process, or standard input.
///
/// It tells nothing: which bytes come is the system's. Contracts see it as its count of faults.
#[derive(Drop)]
pub struct RealSource {
    origin: Origin,
    faults: u64,
}

impl Model for RealSource {
    ghost use Rattle.std.specs.Prelude.{ℕ};

    ghost Value = { ℕ };

    ghost view = { λ it. it.faults };
}

impl RealSource {
    /// What comes over a connection, of which no read failed so far. A small read, as of a frame's header, takes what follows too,
    /// and keeps it for the next one. Its error is want of memory.
    pub fn of_stream(alloc: Global, stream: TcpStream) -> io::Result<RealSource>
        ensures { IfOk result (λ source. source ≡ 0) }
    {
        let stream = BufReader::with_capacity(alloc, AHEAD, stream)?;
        Ok(RealSource {
            origin: Origin::Stream(stream),
            faults: 0,
        })
    }

    /// What a child process writes, of which no read failed so far.
    pub fn of_child(output: ChildStdout) -> RealSource
        ensures { result ≡ 0 }
    {
        RealSource {
            origin: Origin::Child(output),
            faults: 0,
        }
    }

    /// Standard input, of which no read failed so far.
    pub fn standard(input: Stdin) -> RealSource
        ensures { result ≡ 0 }
    {
        RealSource {
            origin: Origin::Standard(input),
            faults: 0,
        }
    }

    /// How many reads failed.
    pub fn faults(&self) -> u64
        ensures { result ≡ self.now }
    {
        self.faults
    }
}

impl Source for RealSource {
    ghost use Rattle.std.specs.Prelude.{None};

    ghost told = { λ it. None };

    ghost faults = { λ it. it };

    /// Fails where the system does. A read that a signal interrupts is repeated.
    fn read(&mut self, into: &mut [u8]) -> Result<usize, Failed> {
        let read = match &mut self.origin {
            Origin::Stream(stream) => read_some(stream, into),
            Origin::Child(output) => read_some(output, into),
            Origin::Standard(input) => read_some(input, into),
        };
        match read {
            Some(count) => Ok(count),
            None => {
                count_one(&mut self.faults);
                Err(Failed)
            }
        }
    }
}
