// A session of a hub over a source and a sink.

ghost use Rattle.std.specs.Prelude.{◌≡◌, ◌<◌, ◌≤◌, ℕ, List, [], None, true, length, vec_len, IfOk, OnOk, OnErr};
ghost use Rattle.rb_base.specs.Devices.{device};
ghost use Rattle.rb_base.specs.Sources.{IsAtEnd, Reads};
ghost use Rattle.rb_meaning_frames.specs.Histories.{Open, Track};
ghost use Rattle.rb_meaning_frames.specs.Reading.{rest_of};
ghost use Rattle.rb_hub.specs.Serial.{end_at};
ghost use Rattle.rb_hub.specs.Hubs.{refusal_of};
ghost use Rattle.rb_hub.specs.Standing.{Stands};
ghost use Rattle.rb_hub.specs.Serving.{hub_ends, most_read, ServesUnlessStopped, IfStopped, IfDone, StopsServing, AnswersStream, LeavesHub, HasHistory};
ghost use Rattle.rb_hub.specs.Passing.{track, StandsWith, IsLast, IsNew, Opens, Shuts, stopped_at, answer_of, answer_by, MayLeave, LeavesLast, ServesNew};

use crate::events::{End, Event};
use crate::hubs::Hub;
use crate::passing::{PassStop, pass_on};
use crate::runs::each_step_goes_on;
use rb_base::{Failed, Sink, Source};
use rb_meaning_frames::{each_stream_is_divided_once, histories_go_on, streams_are_read};
use rb_session::{Answers, ServeCause, ServeStop, Served};
use rb_trees::{Memory, Seq};
use std::alloc::Global;

/// How many bytes are read at most at once. No read goes beyond the request at hand, so that each reply is written before the next
/// one is made.
const PIECE: usize = 65_536;

/// Why a session of a hub was served no further.
#[derive(Drop)]
pub enum HubServeStop<X: Drop> {
    /// A cause that any served session may have.
    Serve(ServeStop),
    /// A request stopped whoever answers.
    Answers(X),
}

/// Opens a session in a hub, serves it to the end of its source, and closes it.
///
/// Each read that gives bytes is one piece of the session's stream, and ends at the latest where the request at hand does. So each
/// reply is written before the next one is made. The session is closed after a fault too, unless the hub ended it itself. After want of memory, and where a request
/// stopped whoever answers, the hub is over, and nothing more is written.
pub fn serve_hub<A: Answers, S: Source, K: Sink>(
    alloc: Global,
    hub: &mut Hub<A>,
    source: &mut S,
    sink: &mut K,
) -> Result<Served, HubServeStop<A::Stop>>
    requires { refusal_of hub.old Open ≡ None }
    ensures serves { let before = hub_ends A.Answers hub.old (device S.told S.faults source.old) (device K.told K.faults sink.old) in
        let after = hub_ends A.Answers hub.new (device S.told S.faults source.new) (device K.told K.faults sink.new) in
        ServesUnlessStopped before after result }
    // Where a request stopped whoever answers.
    ensures stops { let before = hub_ends A.Answers hub.old (device S.told S.faults source.old) (device K.told K.faults sink.old) in
        let after = hub_ends A.Answers hub.new (device S.told S.faults source.new) (device K.told K.faults sink.new) in
        IfStopped result (StopsServing A.Answers hub.new.answers before after) }
    // The requests of the source were answered in turn, and no reply was written but to those.
    ensures answers { let before = hub_ends A.Answers hub.old (device S.told S.faults source.old) (device K.told K.faults sink.old) in
        let after = hub_ends A.Answers hub.new (device S.told S.faults source.new) (device K.told K.faults sink.new) in
        AnswersStream A.does A.stops hub.old.answers hub.new.answers before after result }
    ensures leaves { LeavesHub hub.old hub.new result }
    // By whole streams the hub goes on by the events of the session.
    ensures history { (past : List Track) → Stands past hub.old
        → IfDone result (HasHistory A.Answers past hub.old hub.new (S.told source.old) (S.told source.new)) }
    ensures service { A.service hub.new.answers ≡ A.service hub.old.answers }
{
    hub.stands_somewhere();
    streams_are_read();
    let Ok(number) = open_session(alloc, hub) else {
        return stopped(0, ServeCause::Memory);
    };
    match buffer_of(alloc) {
        Ok(mut buffer) => serve_pieces(alloc, hub, number, source, sink, buffer.as_mut_slice()),
        Err(Memory) => {
            hub.end();
            stopped(0, ServeCause::Memory)
        }
    }
}

/// A session was served to this stop.
fn stopped<X: Drop>(requests: u64, cause: ServeCause) -> Result<Served, HubServeStop<X>>
    ensures { result ≡ stopped_at requests cause }
{
    Err(HubServeStop::Serve(ServeStop { requests, cause }))
}

/// A session ended so.
fn ended<X: Drop>(requests: u64, end: End) -> Result<Served, HubServeStop<X>>
    ensures { result ≡ answer_of requests end }
{
    match end {
        End::Whole => Ok(Served { requests }),
        End::Cut(at) => stopped(requests, ServeCause::Cut(at)),
        End::BadFrame(at) => stopped(requests, ServeCause::BadFrame(at)),
        End::Spent => stopped(requests, ServeCause::SessionSpent),
    }
}

/// A buffer for the pieces.
fn buffer_of(alloc: Global) -> Result<Vec<u8>, Memory>
    ensures some { IfOk result (λ buffer. 0 < vec_len buffer) }
    ensures few { IfOk result (λ buffer. vec_len buffer ≤ most_read) }
{
    Ok(vec![in alloc; 0; PIECE]?)
}

/// Reads once, at most so many bytes, to the front of a buffer.
fn read_most<S: Source>(source: &mut S, buffer: &mut [u8], most: u64) -> Result<usize, Failed>
    requires room { 0 < length buffer.old }
    requires some { 0 < most }
    ensures room { length buffer.new ≡ length buffer.old }
    ensures within { IfOk result (λ count. count ≤ length buffer.new) }
    ensures end { result ≡ Ok 0 → IsAtEnd (S.told source.old) }
    ensures after { Reads buffer.new result (device S.told S.faults source.old) (device S.told S.faults source.new) }
{
    let size = most.min(buffer.len() as u64) as usize;
    source.read(&mut buffer[..size])
}

/// Opens a session, and says its number.
fn open_session<A: Answers>(alloc: Global, hub: &mut Hub<A>) -> Result<u32, Memory>
    requires { refusal_of hub.old Open ≡ None }
    ensures number { IfOk result (λ number. number ≡ hub.old.opened) }
    ensures opens { OnOk result ((past : List Track) → Stands past hub.old → Opens past hub.old hub.new) }
    ensures over { OnErr result (hub.new.over ≡ true) }
    ensures same { hub.new.answers ≡ hub.old.answers }
    ensures service { A.service hub.new.answers ≡ A.service hub.old.answers }
{
    each_step_goes_on::<A>();
    let number = hub.opened() as u32;
    let mut outs = Seq::new(alloc);
    match hub.step(alloc, Event::Open, &mut outs) {
        Ok(()) => Ok(number),
        Err(_) => Err(Memory),
    }
}

/// Closes the last session, and says how it ends.
fn close_last<A: Answers>(hub: &mut Hub<A>, number: u32) -> End
    requires { IsLast number true hub.old }
    ensures closes { (past : List Track) (stream : List ℕ) → number ≡ length past → StandsWith past (track stream true) hub.old
        → Shuts past stream hub.old hub.new × (result ≡ end_at (rest_of stream) stream) }
    ensures service { A.service hub.new.answers ≡ A.service hub.old.answers }
{
    each_step_goes_on::<A>();
    let (_, end) = hub.close(number);
    end
}

/// Leaves the last session, of which a piece wasn't passed on whole: closes it after a write fault, unless it has ended.
fn leave<A: Answers>(
    hub: &mut Hub<A>,
    number: u32,
    requests: u64,
    stop: PassStop<A::Stop>,
) -> Result<Served, HubServeStop<A::Stop>>
    requires { MayLeave number requests hub.old stop }
    ensures answer { result ≡ answer_by requests stop }
    ensures leaves { LeavesLast number hub.old hub.new stop }
    ensures service { A.service hub.new.answers ≡ A.service hub.old.answers }
{
    match stop {
        PassStop::WriteFault(passed) => {
            if passed.end.is_none() {
                close_last(hub, number);
            }
            stopped(requests + passed.replies, ServeCause::WriteFault)
        }
        PassStop::Memory => stopped(requests, ServeCause::Memory),
        PassStop::Answers(stop) => Err(HubServeStop::Answers(stop)),
    }
}

/// Gives the last session, which is new, what a source gives, piece by piece, writes the replies, and closes it.
fn serve_pieces<A: Answers, S: Source, K: Sink>(
    alloc: Global,
    hub: &mut Hub<A>,
    number: u32,
    source: &mut S,
    sink: &mut K,
    buffer: &mut [u8],
) -> Result<Served, HubServeStop<A::Stop>>
    requires room { 0 < length buffer.old }
    requires few { length buffer.old ≤ most_read }
    requires new { IsNew number hub.old }
    ensures serves { let before = hub_ends A.Answers hub.old (device S.told S.faults source.old) (device K.told K.faults sink.old) in
        let after = hub_ends A.Answers hub.new (device S.told S.faults source.new) (device K.told K.faults sink.new) in
        (past : List Track) → number ≡ length past → StandsWith past (track [] true) hub.old
        → ServesNew A.Answers past hub.old hub.new before after result }
    ensures service { A.service hub.new.answers ≡ A.service hub.old.answers }
{
    each_stream_is_divided_once();
    streams_are_read();
    histories_go_on();
    let mut requests = 0;
    'pieces: loop {
        let count = match read_most(source, buffer, hub.lacks(number)) {
            Ok(count) => count,
            Err(_) => {
                close_last(hub, number);
                return stopped(requests, ServeCause::ReadFault);
            }
        };
        if count == 0 {
            let end = close_last(hub, number);
            return ended(requests, end);
        }
        match pass_on(alloc, hub, number, &buffer[..count], sink) {
            Ok(passed) => {
                requests += passed.replies;
                if let Some(end) = passed.end {
                    return ended(requests, end);
                }
            }
            Err(stop) => return leave(hub, number, requests, stop),
        }
    }
}
