// The listener of the system.

ghost use Rattle.std.specs.Prelude.{◌≡◌};

use crate::accepting::accept;
use crate::counts::count_one;
use crate::real_sink::RealSink;
use crate::real_source::RealSource;
use rb_base::{Failed, Listen, ListenStop};
use std::io::{Stdin, Stdout};
use std::marker::Model;
use std::net::{Net, TcpListener, TcpStream};
use std::rt::Clock;
use std::time::Duration;

/// Where the next session comes from.
#[derive(Drop)]
enum Started {
    /// No session comes.
    Nothing,
    /// Standard input and output are the next session, and the last.
    Standard,
    Socket(TcpListener),
}

/// A listener of the system: an address over TCP, or `-`, of which standard input and output are the one session.
///
/// An address that was bound is so until another one is started or the listener ends. Sessions of an address come without end.
/// A read or a write of such a session fails where its peer sends nothing, or takes nothing, for as long as the listener's
/// timeout. Standard error says where the listener listens, and when each of these sessions begins and ends.
///
/// It tells nothing: which sessions come is the system's. Contracts see it as its count of faults.
#[derive(Drop)]
pub struct RealListen<'a, R> {
    runtime: &'a R,
    input: Stdin,
    output: Stdout,
    timeout: Option<Duration>,
    started: Started,
    /// How many sessions of the address were handed out.
    sessions: u64,
    faults: u64,
}

impl<'a, R> Model for RealListen<'a, R> {
    ghost use Rattle.std.specs.Prelude.{ℕ};

    ghost Value = { ℕ };

    ghost view = { λ it. it.faults };
}

impl<'a, R> RealListen<'a, R> {
    /// A listener with nothing started, of which no call failed so far. The sessions of an address have this timeout, if any,
    /// and standard input and output have none.
    pub fn make(
        runtime: &'a R,
        input: Stdin,
        output: Stdout,
        timeout: Option<Duration>,
    ) -> RealListen<'a, R>
        ensures { result ≡ 0 }
    {
        RealListen {
            runtime,
            input,
            output,
            timeout,
            started: Started::Nothing,
            sessions: 0,
            faults: 0,
        }
    }
}

impl<R: Net<Listener = TcpListener, Stream = TcpStream> + Clock + Eprint + AllocGlobal> Listen
    for RealListen<'_, R> {
    type S = RealSource;

    type K = RealSink;

    ghost use Rattle.std.specs.Prelude.{None};

    ghost told = { λ it. None };

    ghost faults = { λ it. it };

    /// Fails where the address can't be bound; then what was started before stays.
    fn start(&mut self, address: &str) -> Result<(), Failed> {
        if address == "-" {
            self.started = Started::Standard;
            return Ok(());
        }
        match TcpListener::bind(self.runtime, address) {
            Ok(listener) => {
                say_place(self.runtime, &listener);
                self.started = Started::Socket(listener);
                self.sessions = 0;
                Ok(())
            }
            Err(_) => {
                count_one(&mut self.faults);
                Err(Failed)
            }
        }
    }

    /// Waits for a connection, and passes over those that can't be taken. Fails where the address is listened at no more.
    fn next(&mut self) -> Result<Option<(RealSource, RealSink)>, ListenStop> {
        let accepted = match &self.started {
            Started::Nothing => return Ok(None),
            Started::Standard => {
                self.started = Started::Nothing;
                let source = RealSource::standard(self.input);
                return Ok(Some((source, RealSink::standard(self.output))));
            }
            Started::Socket(listener) => accept(self.runtime, listener, self.timeout),
        };
        match accepted {
            Some((source, sink, peer)) => {
                count_one(&mut self.sessions);
                let number = self.sessions;
                let _ = eprintln!(self.runtime; "rbi: session {number} begins, with {peer}");
                Ok(Some((source, sink)))
            }
            None => {
                count_one(&mut self.faults);
                Err(ListenStop::Failed)
            }
        }
    }

    fn back(&mut self, source: RealSource, sink: RealSink) {
        drop(source);
        sink.close();
        if let Started::Socket(_) = &self.started {
            let number = self.sessions;
            let _ = eprintln!(self.runtime; "rbi: session {number} ends");
        }
    }
}

/// Says where a listener listens, with the port that the system chose where the address left it open.
fn say_place<R: Eprint>(runtime: &R, listener: &TcpListener) {
    if let Ok(place) = listener.local_addr() {
        let _ = eprintln!(runtime; "rbi: listening at {place}");
    }
}
