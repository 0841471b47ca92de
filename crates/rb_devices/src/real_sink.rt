// The end of a connection, of a child process or of standard output to which bytes go.

ghost use Rattle.std.specs.Prelude.{◌≡◌};

use crate::counts::count_one;
use crate::moves::write_some;
use rb_base::{Failed, Sink};
use std::io::Stdout;
use std::marker::Model;
use std::net::TcpStream;
use std::process::{Child, ChildStdin};

/// Where the bytes go.
#[derive(Drop)]
enum Destination {
    Stream(TcpStream),
    Child(Child, ChildStdin),
    Standard(Stdout),
}

/// A sink of the system: a connection, the standard input of a child process, or standard output.
///
/// It tells nothing: which bytes arrive is the system's. Contracts see it as its count of faults. A peer that has gone makes
/// a write fail, and ends no program.
#[derive(Drop)]
pub struct RealSink {
    destination: Destination,
    faults: u64,
}

impl Model for RealSink {
    ghost use Rattle.std.specs.Prelude.{ℕ};

    ghost Value = { ℕ };

    ghost view = { λ it. it.faults };
}

impl RealSink {
    /// What goes over a connection, of which no write failed so far.
    pub fn to_stream(stream: TcpStream) -> RealSink
        ensures { result ≡ 0 }
    {
        RealSink {
            destination: Destination::Stream(stream),
            faults: 0,
        }
    }

    /// What a child process reads, of which no write failed so far. The input is the child's.
    pub fn to_child(child: Child, input: ChildStdin) -> RealSink
        ensures { result ≡ 0 }
    {
        RealSink {
            destination: Destination::Child(child, input),
            faults: 0,
        }
    }

    /// Standard output, of which no write failed so far.
    pub fn standard(output: Stdout) -> RealSink
        ensures { result ≡ 0 }
    {
        RealSink {
            destination: Destination::Standard(output),
            faults: 0,
        }
    }

    /// How many writes failed.
    pub fn faults(&self) -> u64
        ensures { result ≡ self.now }
    {
        self.faults
    }

    /// Ends the sink. The input of a child is closed, and then the child is waited for.
    pub fn close(self) {
        if let Destination::Child(mut child, input) = self.destination {
            drop(input);
            let _ = child.wait();
        }
    }
}

impl Sink for RealSink {
    ghost use Rattle.std.specs.Prelude.{None};

    ghost told = { λ it. None };

    ghost faults = { λ it. it };

    /// Fails where the system fails or takes nothing. A write that a signal interrupts is repeated.
    fn write(&mut self, piece: &[u8]) -> Result<usize, Failed> {
        let written = match &mut self.destination {
            Destination::Stream(stream) => write_some(stream, piece),
            Destination::Child(_, input) => write_some(input, piece),
            Destination::Standard(output) => write_some(output, piece),
        };
        match written {
            Some(count) => Ok(count),
            None => {
                count_one(&mut self.faults);
                Err(Failed)
            }
        }
    }
}
