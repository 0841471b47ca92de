// The pieces of a source are given to the last session of a hub, and its replies are written.

ghost use Rattle.std.specs.Prelude.{◌≡◌, ℕ, List, true, length};
ghost use Rattle.rb_base.specs.Devices.{device};
ghost use Rattle.rb_meaning_bytes.specs.formats.Fields.{IsBytes};
ghost use Rattle.rb_meaning_frames.specs.Histories.{Track};
ghost use Rattle.rb_hub.specs.Passing.{track, StandsWith, Delivers, PassesOn};

use crate::delivering::{count_replies, ended_in, write_replies};
use crate::events::{End, Event, HubStop, Out};
use crate::hubs::Hub;
use crate::runs::play_one;
use rb_base::Sink;
use rb_session::Answers;
use rb_trees::{Memory, Seq};
use std::alloc::Global;

/// How many replies came of a piece, and how the session ended by it, if it did.
#[derive(Drop)]
pub struct Passed {
    pub replies: u64,
    pub end: Option<End>,
}

/// Why a piece wasn't passed on whole.
#[derive(Drop)]
pub enum PassStop<X: Drop> {
    /// A write failed. The requests were answered.
    WriteFault(Passed),
    Memory,
    /// A request stopped whoever answers.
    Answers(X),
}

/// Writes the replies among what came out of a piece.
fn deliver<K: Sink, X: Drop>(outs: &[Out], sink: &mut K) -> Result<Passed, PassStop<X>>
    ensures { Delivers outs.now (device K.told K.faults sink.old) (device K.told K.faults sink.new) result }
{
    let passed = Passed {
        replies: count_replies(outs),
        end: ended_in(outs),
    };
    match write_replies(sink, outs) {
        Ok(()) => Ok(passed),
        Err(_) => Err(PassStop::WriteFault(passed)),
    }
}

/// Gives the last session of a hub a piece, and writes the replies.
pub fn pass_on<A: Answers, K: Sink>(
    alloc: Global,
    hub: &mut Hub<A>,
    number: u32,
    piece: &[u8],
    sink: &mut K,
) -> Result<Passed, PassStop<A::Stop>>
    ensures passes { (past : List Track) (stream : List ℕ) → number ≡ length past → StandsWith past (track stream true) hub.old
        → PassesOn A.Answers past stream piece.now hub.old hub.new (device K.told K.faults sink.old) (device K.told K.faults sink.new) result }
    ensures bytes { IsBytes piece.now }
    ensures service { A.service hub.new.answers ≡ A.service hub.old.answers }
{
    let mut outs = Seq::new(alloc);
    let Ok(piece) = Seq::from_slice(alloc, piece) else {
        hub.end();
        return Err(PassStop::Memory);
    };
    match play_one(alloc, hub, Event::Piece(number, piece), &mut outs) {
        Ok(_) => deliver(outs.as_slice(), sink),
        Err(HubStop::Memory) => Err(PassStop::Memory),
        Err(HubStop::Answers(stop)) => Err(PassStop::Answers(stop)),
        Err(HubStop::Refused(_)) => unreachable!(),
    }
}
