// Requests that are asked through a session of a hub, which others use too.

ghost use Rattle.std.specs.Prelude.{◌≡◌, ◌<◌, ◌≤◌, ℕ, List, drop, get_or, length, map, IfOk, OnOk};
ghost use Rattle.rb_meaning.specs.Answers.{longest_request};
ghost use Rattle.rb_meaning.specs.Replies.{header_length};
ghost use Rattle.rb_meaning_frames.specs.Frames.{frame_bytes, request_kind};
ghost use Rattle.rb_meaning_frames.specs.Streams.{most_requests};
ghost use Rattle.rb_meaning_frames.specs.Histories.{Track, after};
ghost use Rattle.rb_hub.specs.Serial.{as_event};
ghost use Rattle.rb_hub.specs.Standing.{Stands};
ghost use Rattle.rb_hub.specs.HubLinks.{names, not_naming, next_events, own_piece, LedOn, Owns, Replies, ComesFirst};

use crate::events::{Event, Out};
use crate::hubs::Hub;
use crate::runs::{play, play_one};
use bytes::BytesMut;
use rb_base::Reply;
use rb_meaning_frames::{histories_go_on, streams_are_read};
use rb_session::{Answers, put_frame};
use rb_trees::{Memory, Seq, Word};
use std::alloc::Global;
use std::collections::VecDeque;

/// The kind of a request.
const REQUEST: u8 = 1;

/// The length of a frame's header.
const HEADER: usize = 11;

/// Whether an event names a session.
fn names(number: u32, event: &Event) -> bool
    ensures { result ≡ names number event.now }
{
    match event {
        Event::Open => false,
        Event::Piece(other, _) | Event::Close(other) => *other == number,
    }
}

/// A copy of an event.
fn copy_of(alloc: Global, event: &Event) -> Result<Event, Memory>
    ensures { IfOk result (λ copy. copy ≡ event.now) }
{
    match event {
        Event::Open => Ok(Event::Open),
        Event::Piece(number, piece) => {
            Ok(Event::Piece(*number, Seq::from_slice(alloc, piece.as_slice())?))
        }
        Event::Close(number) => Ok(Event::Close(*number)),
    }
}

/// Copies of the events that don't name a session.
fn not_naming(alloc: Global, number: u32, events: &[Event]) -> Result<VecDeque<Event>, Memory>
    ensures { IfOk result (λ kept. kept.items ≡ not_naming number events.now) }
{
    let mut kept = VecDeque::new(alloc);
    for event in events {
        if !names(number, event) {
            kept.push_back(copy_of(alloc, event)?)?;
        }
    }
    Ok(kept)
}

/// What others do after so many exchanges.
pub fn events_after(
    alloc: Global,
    number: u32,
    others: &Seq<Seq<Event>>,
    exchanges: usize,
) -> Result<VecDeque<Event>, Memory>
    ensures { IfOk result (λ events. events.items ≡ next_events number (drop exchanges others.now)) }
{
    match others.get(exchanges) {
        Some(events) => not_naming(alloc, number, events.as_slice()),
        None => Ok(VecDeque::new(alloc)),
    }
}

/// Plays what others do.
pub fn play_others<A: Answers>(
    alloc: Global,
    hub: &mut Hub<A>,
    events: VecDeque<Event>,
) -> Result<(), Memory>
    ensures leads { OnOk result ((past : List Track) → Stands past hub.old
        → LedOn (A.service hub.old.answers) (A.table hub.old.answers) (A.table hub.new.answers) past (map as_event events.items) hub.new) }
    ensures service { A.service hub.new.answers ≡ A.service hub.old.answers }
{
    histories_go_on();
    let mut outs = Seq::new(alloc);
    match play(alloc, hub, events, &mut outs) {
        Ok(()) => Ok(()),
        Err(_) => Err(Memory),
    }
}

/// The frame of a request.
fn frame_of(alloc: Global, request: &[u8]) -> Result<Word, Memory>
    ensures { IfOk result (λ frame. frame ≡ frame_bytes request_kind request.now) }
{
    let mut frame = BytesMut::new(alloc);
    put_frame(REQUEST, request, &mut frame)?;
    Seq::from_slice(alloc, frame.as_slice())
}

/// The reply in a frame.
fn reply_of(alloc: Global, frame: &[u8]) -> Result<Reply, Memory>
    requires { header_length ≤ length frame.now }
    ensures kind { IfOk result (λ reply. reply.kind ≡ get_or frame.now 2 0) }
    ensures payload { IfOk result (λ reply. reply.payload.items ≡ drop header_length frame.now) }
{
    let kind = frame[2];
    let mut payload = BytesMut::new(alloc);
    payload.extend_from_slice(&frame[HEADER..])?;
    Ok(Reply { kind, payload })
}

/// The reply whose frame came out first.
fn first_reply(alloc: Global, outs: &[Out]) -> Result<Reply, Memory>
    requires { (kind : ℕ) × (reply : List ℕ) × ComesFirst outs.now kind reply }
    ensures { (kind : ℕ) (reply : List ℕ) → ComesFirst outs.now kind reply
        → IfOk result (λ it. (it.kind ≡ kind) × (it.payload.items ≡ reply)) }
{
    let Some(Out::Reply(_, frame)) = outs.first() else {
        unreachable!()
    };
    reply_of(alloc, frame.as_slice())
}

/// Gives the hub the frame of a request as a piece of an open session that has had whole requests so far, and takes the reply.
pub fn ask<A: Answers>(
    alloc: Global,
    hub: &mut Hub<A>,
    number: u32,
    request: &[u8],
) -> Result<Reply, Memory>
    requires size { length request.now ≤ longest_request }
    requires owns { (payloads : List (List ℕ)) × (length payloads < most_requests) × Owns number payloads hub.old }
    ensures answers { IfOk result (λ reply.
        Replies (A.service hub.old.answers) (A.table hub.old.answers) request.now reply (A.table hub.new.answers)) }
    ensures stands { OnOk result ((past : List Track) → Stands past hub.old → Stands (after past (own_piece number request.now)) hub.new) }
    ensures service { A.service hub.new.answers ≡ A.service hub.old.answers }
{
    streams_are_read();
    let frame = frame_of(alloc, request)?;
    let mut outs = Seq::new(alloc);
    match play_one(alloc, hub, Event::Piece(number, frame), &mut outs) {
        Ok(_) => first_reply(alloc, outs.as_slice()),
        Err(_) => Err(Memory),
    }
}
