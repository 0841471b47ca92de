// Links to servers that are dialled over the system.

ghost use Rattle.std.specs.Prelude.{◌≡◌, IfOk};
ghost use Rattle.rb_session.specs.Dials.{broken_after};
ghost use Rattle.rb_devices.specs.DialCounts.{new_counts};

use crate::connections::{connect, ends_of};
use crate::counts::count_one;
use crate::real_sink::RealSink;
use crate::real_source::RealSource;
use rb_session::{AnyLink, Dial, DialStop, FrameLink, MemoryLink, Target};
use rb_trees::Memory;
use std::alloc::{AllocError, Global};
use std::io::ErrorKind;
use std::marker::Model;
use std::net::{Net, TcpListener, TcpStream};
use std::process::{Child, Command, Processes, Stdio, SystemProcess};
use std::time::Duration;
use std::{io, str};

/// A link of a real Dial.
pub type RealLink = AnyLink<FrameLink<RealSource, RealSink>>;

/// A Dial of the system: an address is connected to over TCP, and for a child this program is started again. Over a connection an
/// exchange fails where the other side sends nothing, or takes nothing, for as long as the Dial's timeout.
///
/// It tells nothing: what stands behind a link that was dialled is the system's. Contracts see it as its two counts,
/// `DialCounts`.
#[derive(Drop)]
pub struct RealDial<'a, R> {
    runtime: &'a R,
    /// The name by which this program was started.
    program: &'a str,
    timeout: Option<Duration>,
    faults: u64,
    broken: u64,
}

impl<'a, R> Model for RealDial<'a, R> {
    ghost use Rattle.rb_devices.specs.DialCounts.{DialCounts};

    ghost Value = { DialCounts };

    ghost view = { λ it. record { faults = it.faults; broken = it.broken } };
}

impl<'a, R> RealDial<'a, R> {
    /// A Dial of which no dial failed so far and no link came back. A child is started by this program's name. A connection has
    /// this timeout, if any, and a child has none.
    pub fn make(runtime: &'a R, program: &'a str, timeout: Option<Duration>) -> RealDial<'a, R>
        ensures { result ≡ new_counts }
    {
        RealDial {
            runtime,
            program,
            timeout,
            faults: 0,
            broken: 0,
        }
    }
}

impl<
    R: Net<Listener = TcpListener, Stream = TcpStream>
        + Processes<Started = SystemProcess>
        + AllocGlobal,
> Dial for RealDial<'_, R> {
    type L = RealLink;

    ghost use Rattle.std.specs.Prelude.{None};

    ghost told = { λ it. None };

    ghost faults = { λ it. it.faults };

    ghost broken = { λ it. it.broken };

    /// Fails where the address can't be connected to, or the child can't be started.
    fn dial(&mut self, target: &Target) -> Result<RealLink, DialStop> {
        match reach(self.runtime, self.program, target, self.timeout) {
            Ok((source, sink)) => {
                let link = FrameLink::make(self.runtime.alloc(), source, sink);
                Ok(AnyLink::Dialled(link))
            }
            Err(DialStop::Failed) => {
                count_one(&mut self.faults);
                Err(DialStop::Failed)
            }
            Err(DialStop::Memory) => Err(DialStop::Memory),
        }
    }

    fn around(&mut self, link: MemoryLink) -> Result<RealLink, Memory> {
        Ok(AnyLink::Around(link))
    }

    fn back(&mut self, link: RealLink) {
        if let AnyLink::Dialled(link) = link {
            let (source, sink) = link.into_ends();
            let faults = source.faults().saturating_add(sink.faults());
            count_broken(faults, &mut self.broken);
            // A child that still writes ends by this, so that it can be waited for.
            drop(source);
            sink.close();
        }
    }
}

/// Counts a link that came back, of which so many exchanges failed, where it is broken.
fn count_broken(faults: u64, broken: &mut u64)
    ensures { broken.new ≡ broken_after faults broken.old }
{
    if faults > 0 {
        count_one(broken);
    }
}

/// The two ends of a new way to a target.
fn reach<
    R: Net<Listener = TcpListener, Stream = TcpStream>
        + Processes<Started = SystemProcess>
        + AllocGlobal,
>(
    runtime: &R,
    program: &str,
    target: &Target,
    timeout: Option<Duration>,
) -> Result<(RealSource, RealSink), DialStop>
    ensures source { IfOk result (λ ends. ends.0 ≡ 0) }
    ensures sink { IfOk result (λ ends. ends.1 ≡ 0) }
{
    let (Target::Address(word) | Target::Child(word)) = target;
    let Ok(word) = str::from_utf8(word.as_slice()) else {
        return Err(DialStop::Failed);
    };
    let reached = match target {
        Target::Address(_) => ends_at(runtime, word, timeout),
        Target::Child(_) => start(runtime, program, word),
    };
    match reached {
        Ok(ends) => Ok(ends),
        Err(error) if error.kind() == ErrorKind::OutOfMemory => Err(DialStop::Memory),
        Err(_) => Err(DialStop::Failed),
    }
}

/// The two ends of a new connection to an address.
fn ends_at<R: Net<Listener = TcpListener, Stream = TcpStream> + AllocGlobal>(
    runtime: &R,
    address: &str,
    timeout: Option<Duration>,
) -> io::Result<(RealSource, RealSink)>
    ensures source { IfOk result (λ ends. ends.0 ≡ 0) }
    ensures sink { IfOk result (λ ends. ends.1 ≡ 0) }
{
    let stream = connect(runtime, address, timeout)?;
    ends_of(runtime.alloc(), stream, timeout)
}

/// The two ends of a new child: this program, which serves a file.
fn start<R: Processes<Started = SystemProcess> + AllocGlobal>(
    runtime: &R,
    program: &str,
    file: &str,
) -> io::Result<(RealSource, RealSink)>
    ensures source { IfOk result (λ ends. ends.0 ≡ 0) }
    ensures sink { IfOk result (λ ends. ends.1 ≡ 0) }
{
    let mut command = command_of(runtime.alloc(), program, file)?;
    ends_of_child(command.spawn(runtime)?)
}

/// How a child is started that serves a file: its standard input and output are pipes of this process.
fn command_of(alloc: Global, program: &str, file: &str) -> Result<Command, AllocError> {
    let mut command = Command::new(alloc, program)?;
    command.arg("child")?.arg(file)?;
    command.stdin(Stdio::piped()).stdout(Stdio::piped());
    Ok(command)
}

/// The two ends of a child. One that has no pipes is waited for.
fn ends_of_child(mut child: Child) -> io::Result<(RealSource, RealSink)>
    ensures source { IfOk result (λ ends. ends.0 ≡ 0) }
    ensures sink { IfOk result (λ ends. ends.1 ≡ 0) }
{
    match (child.stdin.take(), child.stdout.take()) {
        (Some(input), Some(output)) => {
            let source = RealSource::of_child(output);
            Ok((source, RealSink::to_child(child, input)))
        }
        _ => {
            let _ = child.wait();
            Err(io::Error::from(ErrorKind::BrokenPipe))
        }
    }
}
