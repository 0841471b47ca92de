// Sessions that come at an address are served by a hub, one after the other, and each is said.

ghost use Rattle.std.specs.Prelude.{◌≡◌, Ok, None, true};
ghost use Rattle.rb_base.specs.Devices.{device};
ghost use Rattle.rb_base.specs.Listening.{ends_of};
ghost use Rattle.rb_meaning_frames.specs.Histories.{Open};
ghost use Rattle.rb_hub.specs.Hubs.{new_hub, refusal_of};
ghost use Rattle.rb_hub.specs.Serving.{LeavesBy, LeavesHub};
ghost use Rattle.rb_top.specs.Manners as manners;
ghost use Rattle.rb_top.specs.Manners.{hub_manner, shown_answer, shown_hub_answer};
ghost use Rattle.rb_top.specs.Scene.{Across};
ghost use Rattle.rb_top.specs.ServerParts.{HasSessionOut, SaysSession, ServesNextAs, ServesSessionsAs};
ghost use Rattle.rb_top.specs.Sessions.{ServesEnds};

use crate::printing::write_lines;
use crate::saying::say;
use crate::session_lines::session_line;
use crate::status::Status;
use rb_base::{Failed, Listen, ListenStop, Sink};
use rb_hub::{Hub, HubServeStop, serve_hub};
use rb_session::{Answers, ServeCause, ServeStop, Served};
use std::alloc::Global;

/// Why no more sessions are served.
#[derive(Drop)]
pub enum SessionsStop<X: Drop> {
    /// What was to be said was said, with this status.
    Said(Status),
    /// A request of the last session stopped whoever answers. Nothing was said of that session.
    Answers(X),
}

/// Whether memory was wanting in a session.
fn is_starved(answer: &Result<Served, ServeStop>) -> bool
    ensures { result ≡ manners.is_starved answer.now }
{
    match answer {
        Ok(_) => false,
        Err(stop) => matches!(stop.cause, ServeCause::Memory),
    }
}

/// Says how the session of a number was served that no request stopped. Where memory was wanting, or the line isn't written whole,
/// the session is the last.
fn say_answer<X: Drop, W: Sink>(
    alloc: Global,
    number: u64,
    answer: &Result<Served, ServeStop>,
    out: &mut W,
) -> Result<(), SessionsStop<X>>
    ensures { Across W.Sink out.old out.new (SaysSession (shown_answer number answer.now) result) }
{
    if is_starved(answer) {
        return Err(SessionsStop::Said(Status::Memory));
    }
    match session_line(alloc, number, answer) {
        Err(_) => Err(SessionsStop::Said(Status::Memory)),
        Ok(line) => match write_lines(line.as_slice(), out) {
            Ok(()) => Ok(()),
            Err(Failed) => Err(SessionsStop::Said(Status::WriteFault)),
        },
    }
}

/// Says how the session of a number was served; or it is the last.
fn say_session<X: Drop, W: Sink>(
    alloc: Global,
    number: u64,
    answer: Result<Served, HubServeStop<X>>,
    out: &mut W,
) -> Result<(), SessionsStop<X>>
    ensures { Across W.Sink out.old out.new (SaysSession (shown_hub_answer number answer) result) }
{
    match answer {
        Ok(served) => say_answer(alloc, number, &Ok(served), out),
        Err(HubServeStop::Serve(stop)) => say_answer(alloc, number, &Err(stop), out),
        Err(HubServeStop::Answers(stop)) => Err(SessionsStop::Answers(stop)),
    }
}

/// Serves the session with these two ends, and gives them back.
fn serve_session<A: Answers, N: Listen>(
    alloc: Global,
    hub: &mut Hub<A>,
    source: N::S,
    sink: N::K,
    listen: &mut N,
) -> Result<Served, HubServeStop<A::Stop>>
    requires free { refusal_of hub.old Open ≡ None }
    requires out { HasSessionOut (N.told listen.old) }
    ensures serves { let listener = device N.told N.faults in
        let first = ends_of (device N.S.told N.S.faults) (device N.K.told N.K.faults) source sink in
        ServesEnds (hub_manner A.Answers) result first hub.old.answers hub.new.answers (listener listen.old) (listener listen.new) }
    ensures leaves { LeavesHub hub.old hub.new result }
{
    let mut from = source;
    let mut to = sink;
    let answer = serve_hub(alloc, hub, &mut from, &mut to);
    listen.back(from, to);
    answer
}

/// Serves the next session, with a number, and says how; or answers that none comes, or why it is the last.
fn serve_next<A: Answers, W: Sink, N: Listen>(
    alloc: Global,
    hub: &mut Hub<A>,
    number: u64,
    out: &mut W,
    listen: &mut N,
) -> Result<bool, SessionsStop<A::Stop>>
    requires { refusal_of hub.old Open ≡ None }
    ensures serves { let listener = device N.told N.faults in let manner = hub_manner A.Answers in
        Across W.Sink out.old out.new
        (ServesNextAs manner number hub.old.answers hub.new.answers (listener listen.old) (listener listen.new) result) }
    ensures leaves { result ≡ Ok true → LeavesBy true hub.old hub.new }
{
    match listen.next() {
        Ok(Some((source, sink))) => {
            let answer = serve_session(alloc, hub, source, sink, listen);
            match say_session(alloc, number, answer, out) {
                Ok(()) => Ok(true),
                Err(stop) => Err(stop),
            }
        }
        Ok(None) => Ok(false),
        Err(ListenStop::Failed) => {
            let status = say(Status::ListenFault, b"listen fault\n", out);
            Err(SessionsStop::Said(status))
        }
        Err(ListenStop::Memory) => Err(SessionsStop::Said(Status::Memory)),
    }
}

/// Serves so many sessions at most by a new hub, and says how each was served.
pub fn serve_sessions<A: Answers, W: Sink, N: Listen>(
    alloc: Global,
    hub: &mut Hub<A>,
    count: u32,
    out: &mut W,
    listen: &mut N,
) -> Result<(), SessionsStop<A::Stop>>
    requires { hub.old ≡ new_hub hub.old.answers }
    ensures { let listener = device N.told N.faults in let manner = hub_manner A.Answers in
        Across W.Sink out.old out.new
        (ServesSessionsAs manner hub.old.answers hub.new.answers count (listener listen.old) (listener listen.new) result) }
{
    let mut number = 0u32;
    while number < count {
        match serve_next(alloc, hub, number as u64 + 1, out, listen) {
            Ok(true) => number += 1,
            Ok(false) => return Ok(()),
            Err(stop) => return Err(stop),
        }
    }
    Ok(())
}
