// One failure at each place: each call that a command makes of its outside fails in turn.

use crate::client::answers::other;
use crate::commands::commands::expect_on;
use crate::commands::desks::{Asked, Text};
use crate::commands::dialled::{Waiting, add_links, came_back};
use crate::commands::events::{
    CALLS, COMMANDS, Call, Command, Event, GROW, MAIN, REPLIES, SIZES, WHOLE,
};
use crate::commands::sessions::{Session, listen_of};
use crate::commands::texts::{FILES, SERVICE};
use rb_base::MemoryListen;
use rb_disk::NullStores;
use rb_heap::Heap;
use rb_session::{FailingLink, MemoryDial};
use rb_store::print_table;
use rb_trees::Seq;
use std::alloc::Global;
use std::slice;
use std::test::Fail;

/// The call that an event is.
fn call_of(event: &Event<'_>) -> Option<Call> {
    match event {
        Event::Read(_) => Some(Call::Read),
        Event::Dial => Some(Call::Dial),
        Event::Around | Event::Within => None,
        Event::Exchange(_) => Some(Call::Exchange),
        Event::Listen => Some(Call::Listen),
        Event::Take => Some(Call::Take),
        Event::Reply => Some(Call::Reply),
        Event::Session(_) | Event::Grown | Event::Line(_) => Some(Call::Write),
    }
}

/// The session at hand: its number, how many of its requests were answered, and how it ended, if a call of it failed.
#[derive(Clone, Copy)]
struct At {
    number: u64,
    requests: u64,
    fault: Option<&'static str>,
}

/// A front of a run: the lines and the replies so far, the exchanges of its link, if there is one, how many requests were answered
/// in all sessions, the session at hand, and how many calls of a kind may come before one fails.
#[derive(Drop)]
struct Front {
    lines: String,
    replies: Seq<u8>,
    exchanges: Option<usize>,
    answered: usize,
    at: At,
    left: u64,
}

impl Front {
    /// Where a run begins of which a call of a number fails.
    fn make(alloc: Global, number: u64) -> Front {
        Front {
            lines: String::new(alloc),
            replies: Seq::new(alloc),
            exchanges: None,
            answered: 0,
            at: At {
                number: 1,
                requests: 0,
                fault: None,
            },
            left: number.saturating_sub(1),
        }
    }

    /// Goes on by an event. Is the event a call that fails and stops the command, it answers false, and nothing happened.
    fn goes_on(&mut self, call: Call, event: &Event<'_>) -> Result<bool, Fail> {
        let is_of_session = matches!(event, Event::Take | Event::Reply);
        if is_of_session && self.at.fault.is_some() {
            return Ok(true);
        }
        if call_of(event) == Some(call) {
            if self.left == 0 {
                self.fails(event);
                return Ok(is_of_session);
            }
            self.left -= 1;
        }
        self.happens(event)?;
        Ok(true)
    }

    /// Fails at an event, which ends the session whose read or write it is. No other call fails.
    fn fails(&mut self, event: &Event<'_>) {
        self.left = u64::MAX;
        match event {
            Event::Take => self.at.fault = Some("read fault"),
            Event::Reply => {
                self.answers();
                self.at.fault = Some("write fault");
            }
            _ => {}
        }
    }

    /// Counts a request that is answered.
    fn answers(&mut self) {
        self.answered = self.answered.saturating_add(1);
        self.at.requests = self.at.requests.saturating_add(1);
    }

    /// An event happens.
    fn happens(&mut self, event: &Event<'_>) -> Result<(), Fail> {
        match event {
            Event::Line(line) => return self.prints(line),
            Event::Grown => return self.prints_size(),
            Event::Session(end) => return self.ends_session(end),
            Event::Reply => return self.writes_reply(),
            Event::Dial | Event::Around => self.exchanges = Some(0),
            Event::Exchange(_) | Event::Within => {
                if let Some(count) = self.exchanges {
                    self.exchanges = Some(count.wrapping_add(1));
                }
            }
            Event::Read(_) | Event::Listen | Event::Take => {}
        }
        Ok(())
    }

    /// Answers a request, and writes the reply.
    fn writes_reply(&mut self) -> Result<(), Fail> {
        let Some(reply) = REPLIES.get(self.answered) else {
            return Err(Fail::new("more requests are answered than there are"));
        };
        self.replies.extend_from_slice(reply)?;
        self.answers();
        Ok(())
    }

    /// Prints the line of the file that grows.
    fn prints_size(&mut self) -> Result<(), Fail> {
        match SIZES.get(self.answered) {
            Some(line) => self.prints(line),
            None => Err(Fail::new("more requests are answered than there are")),
        }
    }

    /// Prints a line.
    fn prints(&mut self, line: &str) -> Result<(), Fail> {
        self.lines.push_str(line)?;
        self.lines.push('\n')?;
        Ok(())
    }

    /// Prints the line of the session at hand, which ended so unless a call of it failed, and goes on to the next one.
    fn ends_session(&mut self, end: &str) -> Result<(), Fail> {
        let At {
            number,
            requests,
            fault,
        } = self.at;
        let end = fault.unwrap_or(end);
        writeln!(self.lines, "session {number} requests {requests} {end}")?;
        self.at = At {
            number: number.saturating_add(1),
            requests: 0,
            fault: None,
        };
        Ok(())
    }

    /// Stops at a call that fails: says so behind the lines, and answers the status.
    fn stops(&mut self, event: &Event<'_>) -> Result<&'static str, Fail> {
        let (status, cause, of) = match event {
            Event::Read(name) => ("3 ", "file fault ", *name),
            Event::Dial => ("11 ", "dial fault", ""),
            Event::Exchange(done) => ("7 ", "link fault ", *done),
            Event::Listen => ("12 ", "listen fault", ""),
            _ => return Ok("9 "),
        };
        writeln!(self.lines, "{cause}{of}")?;
        Ok(status)
    }

    /// The lines, or none where the command says nothing on its output.
    fn said(&self, is_silent: bool) -> &str {
        if is_silent { "" } else { self.lines.as_str() }
    }

    /// Goes through the events of a command to its end, or to the call that fails and stops it, and answers the status.
    fn goes_through<'a>(&mut self, command: &Command<'a>, call: Call) -> Result<&'a str, Fail> {
        for events in command.events {
            for event in *events {
                if !self.goes_on(call, event)? {
                    return self.stops(event);
                }
            }
        }
        Ok(command.status)
    }
}

/// The call of a run that fails: its kind and its number.
#[derive(Clone, Copy)]
struct Failure {
    call: Call,
    number: u64,
}

impl Failure {
    /// The numbers of the calls of a kind that fail.
    fn of(&self, kind: Call) -> &[u64] {
        if kind == self.call {
            slice::from_ref(&self.number)
        } else {
            &[]
        }
    }

    /// The same in a session that comes behind these events.
    fn behind(&self, events: &[Event<'_>]) -> Failure {
        Failure {
            call: self.call,
            number: self.number.saturating_sub(calls_in(events, self.call)),
        }
    }

    /// A session of so many requests, and of this behind them, of which this call fails.
    fn session<'a>(&'a self, times: usize, rest: &'a [u8]) -> Session<'a> {
        Session {
            request: GROW,
            times,
            rest,
            reads: self.of(Call::Take),
            writes: self.of(Call::Reply),
        }
    }

    /// A link to a server of the service, of which this call fails.
    fn link(&self, is_child: bool) -> Waiting<'_> {
        Waiting {
            is_child,
            service: SERVICE,
            exchanges: self.of(Call::Exchange),
        }
    }
}

/// The files `p` and `s`.
const TEXTS: &[Text<'static>] = &[("p", FILES, MAIN), ("s", "", SERVICE)];

/// Whether these bytes were written in the sessions that came back, one after the other.
fn are_written(listen: &MemoryListen, replies: &[u8]) -> bool {
    let mut rest = replies;
    for (_source, sink) in listen.returned() {
        match rest.strip_prefix(sink.written()) {
            Some(end) => rest = end,
            None => return false,
        }
    }
    rest.is_empty()
}

/// Fails where the table of a link isn't as it is after so many exchanges of a command.
fn same_table(
    alloc: Global,
    command: &Command<'_>,
    exchanges: usize,
    table: Option<&Heap>,
) -> Result<(), Fail> {
    let (Some(table), Some(wanted)) = (table, command.tables.get(exchanges)) else {
        return Err(other("link", command.words));
    };
    let shown = print_table(alloc, table)?;
    if shown.as_slice() == wanted.as_bytes() {
        return Ok(());
    }
    Err(other("table", command.words))
}

/// Fails where another link came back to a Dial than one that had so many exchanges of a command, or its table isn't as it is then.
fn same_link(
    alloc: Global,
    command: &Command<'_>,
    wanted: Option<usize>,
    dial: &MemoryDial<FailingLink>,
) -> Result<(), Fail> {
    match (came_back(dial), wanted) {
        (None, None) => Ok(()),
        (Some((pairs, table)), Some(exchanges)) if pairs.len() == exchanges => {
            same_table(alloc, command, exchanges, table)
        }
        _ => Err(other("number of exchanges", command.words)),
    }
}

/// How many calls of a kind these events are.
fn calls_in(events: &[Event<'_>], call: Call) -> u64 {
    let mut count: u64 = 0;
    for event in events {
        if call_of(event) == Some(call) {
            count = count.saturating_add(1);
        }
    }
    count
}

/// How many calls of a kind a command makes.
fn calls_made(command: &Command<'_>, call: Call) -> u64 {
    let mut count: u64 = 0;
    for events in command.events {
        count = count.saturating_add(calls_in(events, call));
    }
    count
}

/// Fails where a command comes to something else, over a Dial and a listener, than its events say up to the call of it that fails.
fn expect_over(
    alloc: Global,
    command: &Command<'_>,
    failure: Failure,
    front: &mut Front,
    dial: &mut MemoryDial<FailingLink>,
    listen: &mut MemoryListen,
) -> Result<(), Fail> {
    let waiting = [failure.link(false), failure.link(true)];
    add_links(alloc, dial, waiting.as_slice())?;
    let said = front.goes_through(command, failure.call)?;
    let asked = Asked {
        words: command.words,
        texts: TEXTS,
        reads: failure.of(Call::Read),
        writes: failure.of(Call::Write),
        said,
        rest: front.said(command.is_silent),
    };
    expect_on(alloc, &asked, dial, listen, &mut NullStores)?;
    if !are_written(listen, front.replies.as_slice()) {
        return Err(other("reply", command.words));
    }
    same_link(alloc, command, front.exchanges, dial)
}

/// Fails where a command comes to something else than is wanted where a call of it fails: over a Dial, and over a listener at `a` and
/// at `-` with a session that is whole and one that is cut.
fn expect_failure(alloc: Global, command: &Command<'_>, failure: Failure) -> Result<(), Fail> {
    let later = failure.behind(WHOLE);
    let sessions = [failure.session(3, b""), later.session(1, b"RB\x01\x00\x00")];
    let calls = failure.of(Call::Listen);
    let mut listen = listen_of(alloc, &["a", "-"], sessions.as_slice(), calls, usize::MAX)?;
    let mut dial = MemoryDial::make(alloc, Seq::from_slice(alloc, failure.of(Call::Dial))?);
    let mut front = Front::make(alloc, failure.number);
    expect_over(alloc, command, failure, &mut front, &mut dial, &mut listen)
}

/// Fails at the first call of a kind that, where it fails, has a command come to something else than is wanted. One call more is
/// tried than the command makes.
fn expect_calls(alloc: Global, command: &Command<'_>, call: Call) -> Result<(), Fail> {
    let count = calls_made(command, call).saturating_add(1);
    for number in 1..=count {
        expect_failure(alloc, command, Failure { call, number })?;
    }
    Ok(())
}

#[test]
fn each_call_that_fails_stops_a_command_at_its_place(rt: HostRuntime) -> Result<(), Fail> {
    for command in COMMANDS {
        for call in CALLS {
            expect_calls(rt.alloc(), command, *call)?;
        }
    }
    Ok(())
}
