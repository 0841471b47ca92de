// Sessions: a stream of requests in pieces.

ghost use Rattle.std.specs.Prelude.{◌≡◌, ◌==◌, ◌<◌, ◌^◌, ◌++◌, length, drop, IfOk, OnOk};
ghost use Rattle.rb_meaning_frames.specs.Streams.{Waits};
ghost use Rattle.rb_session.specs.Answering.{IsTypedHost};
ghost use Rattle.rb_session.specs.Receiving.{lacking};
ghost use Rattle.rb_session.specs.Sessions.{new_session, came, stop_of, answer_by, IsBounded, IsNear, MayMoveOn, MovesOn, Feeds, Gathers, UnlessSpentMemory};
ghost use Rattle.rb_session.specs.Taking.{longest_frame, TakesAll, GathersAll};

use crate::frames::Front;
use crate::receiving::lacking;
use crate::requests::{Taken, answer_whole, gather_whole};
use bytes::BytesMut;
use rb_exec::Host;
use rb_trees::{Memory, Seq, Word};
use std::alloc::Global;
use std::marker::Model;
use thiserror::Error;

/// How many requests of a session are taken at most.
const MOST_REQUESTS: u64 = 1 << 32;

/// Why a session goes no further.
#[derive(Clone, Copy, Debug, Error)]
pub enum SessionStop {
    /// The stream breaks the form of a request frame at this offset: a byte of a header is none that may stand there, or the
    /// length that begins there is longer than that of a request may be.
    #[error("the stream breaks its form at offset {0}")]
    BadFrame(u64),
    /// So many requests were taken that a further one isn't.
    #[error("too many requests")]
    SessionSpent,
    #[error("out of memory")]
    Memory,
}

impl From<Memory> for SessionStop {
    ghost use Rattle.std.specs.Prelude.{◌≡◌};
    ghost use Rattle.rb_session.specs.declared.sessions.SessionStop.TheVariants as stops;

    ghost from_gives = { λ _ e. e ≡ stops.Memory };

    fn from(_want: Memory) -> SessionStop {
        SessionStop::Memory
    }
}

/// A session: request frames that come in pieces, and are answered, or gathered, as they become whole.
///
/// Contracts see it as `SessionSeen`: the bytes after the last whole frame, their offset in the stream, the number of
/// requests taken, and why it stopped, if it did. It holds no more of the stream than these bytes.
#[derive(Drop)]
pub struct Session {
    rest: BytesMut,
    offset: u64,
    requests: u64,
    stop: Option<SessionStop>,
}

impl Model for Session {
    ghost use Rattle.std.specs.Prelude.{ℕ, ◌+◌, ◌*◌, ◌≤◌};
    ghost use Rattle.rb_meaning_frames.specs.Streams.{most_requests};
    ghost use Rattle.rb_session.specs.Sessions.{SessionSeen, IsBounded};

    ghost Value = { SessionSeen };

    ghost view = { λ it. record {
      rest = it.rest.items;
      offset = it.offset;
      requests = it.requests;
      stop = it.stop;
    } };

    ghost invariant = { λ it. IsBounded it.offset it.requests };
}

impl Session {
    /// Nothing came yet.
    pub fn make(alloc: Global) -> Session
        ensures { result ≡ new_session }
    {
        Session {
            rest: BytesMut::new(alloc),
            offset: 0,
            requests: 0,
            stop: None,
        }
    }

    /// How many requests were taken.
    pub fn requests(&self) -> u64
        ensures { result ≡ self.now.requests }
    {
        self.requests
    }

    /// How the stream stands that came so far, where the session hasn't stopped: how many bytes it has, and whether they end
    /// with a whole frame.
    pub fn came(&self) -> (u64, bool)
        requires { length self.now.rest < longest_frame }
        ensures bytes { result.0 ≡ came self.now }
        ensures whole { result.1 ≡ (length self.now.rest == 0) }
    {
        let rest = self.rest.len();
        (self.offset + rest as u64, rest == 0)
    }

    /// How many bytes the request at hand lacks, where the session hasn't stopped: of its header, or else of its payload. A piece
    /// that has no more makes one request whole at most.
    #[tactic(auto, using(crate::proofs::OneRequest::lacks_some))]
    pub fn lacks(&self) -> u64
        ensures count { result ≡ lacking self.now.rest }
        ensures some { Waits self.now.rest → 0 < result }
    {
        lacking(self.rest.as_slice())
    }

    /// Takes the next piece of the stream, answers the requests that became whole, in order, and appends the frames of their
    /// replies.
    ///
    /// Where the stream breaks its form, or a request more is whole than may be answered, the requests before are answered,
    /// and the session stops. After a stop each further piece is answered by the same stop, and changes nothing. After want
    /// of memory the buffer may have gained bytes, and nothing is said of the table.
    pub fn feed(
        &mut self,
        alloc: Global,
        host: &mut Host,
        piece: &[u8],
        out: &mut BytesMut,
    ) -> Result<(), SessionStop>
        requires { IsTypedHost host.old }
        ensures feeds { Feeds host.old host.new self.old self.new piece.now out.old.items out.new.items result self.old.stop }
        ensures typed { UnlessSpentMemory result (IsTypedHost host.new) }
        ensures service { host.new.service ≡ host.old.service }
        ensures bounded { IsBounded self.new.offset self.new.requests }
    {
        if let Some(stop) = self.stop {
            return Err(stop);
        }
        let room = MOST_REQUESTS - self.requests;
        let taken = take_piece(alloc, host, &mut self.rest, piece, room, out);
        self.move_on(taken)
    }

    /// Takes the next piece of the stream, and appends the payloads of the requests that became whole, in order, for others to
    /// answer.
    ///
    /// Where the stream breaks its form, or a request more is whole than may be taken, the requests before are gathered, and the
    /// session stops. After a stop each further piece is answered by the same stop, and changes nothing. After want of memory the
    /// list may have gained requests.
    pub fn take(
        &mut self,
        alloc: Global,
        piece: &[u8],
        whole: &mut Seq<Word>,
    ) -> Result<(), SessionStop>
        ensures gathers { Gathers self.old self.new piece.now whole.old whole.new result self.old.stop }
        ensures bounded { IsBounded self.new.offset self.new.requests }
    {
        if let Some(stop) = self.stop {
            return Err(stop);
        }
        let room = MOST_REQUESTS - self.requests;
        let taken = gather_piece(alloc, &mut self.rest, piece, room, whole);
        self.move_on(taken)
    }

    /// Moves on behind what was taken from the front of the rest, and answers by what stands there.
    fn move_on(&mut self, taken: Result<Taken, Memory>) -> Result<(), SessionStop>
        requires { IfOk taken (MayMoveOn self.old) }
        ensures moves { MovesOn self.old self.new taken result }
        ensures bounded { IsBounded self.new.offset self.new.requests }
    {
        let answer = match taken {
            Ok(taken) => {
                self.offset += taken.bytes as u64;
                self.requests += taken.requests;
                answer_by(taken.front, self.offset)
            }
            Err(Memory) => Err(SessionStop::Memory),
        };
        self.stop = stop_of(answer);
        answer
    }
}

/// The stop that an answer says.
fn stop_of(answer: Result<(), SessionStop>) -> Option<SessionStop>
    ensures { result ≡ stop_of answer }
{
    match answer {
        Ok(()) => None,
        Err(stop) => Some(stop),
    }
}

/// The answer of a session by what stands behind the requests that it took, at an offset of its stream.
fn answer_by(front: Front, offset: u64) -> Result<(), SessionStop>
    requires offset { offset < 2 ^ 63 }
    requires near { IsNear front }
    ensures { result ≡ answer_by front offset }
{
    match front {
        Front::Whole(_) => Err(SessionStop::SessionSpent),
        Front::Partial => Ok(()),
        Front::Broken(at) => Err(SessionStop::BadFrame(offset + at as u64)),
    }
}

/// Appends a piece to the rest of a stream, answers the requests that are whole then, at most so many, and keeps the rest.
fn take_piece(
    alloc: Global,
    host: &mut Host,
    rest: &mut BytesMut,
    piece: &[u8],
    most: u64,
    out: &mut BytesMut,
) -> Result<Taken, Memory>
    requires { IsTypedHost host.old }
    ensures takes { let bytes = rest.old.items ++ piece.now in
        IfOk result (TakesAll host.old host.new bytes most out.old.items out.new.items) }
    ensures rest { IfOk result (λ taken. rest.new.items ≡ drop taken.bytes (rest.old.items ++ piece.now)) }
    ensures typed { OnOk result (IsTypedHost host.new) }
    ensures service { host.new.service ≡ host.old.service }
{
    rest.extend_from_slice(piece)?;
    let taken = answer_whole(alloc, host, rest.as_slice(), most, out)?;
    rest.advance(taken.bytes);
    Ok(taken)
}

/// Appends a piece to the rest of a stream, gathers the requests that are whole then, at most so many, and keeps the rest.
fn gather_piece(
    alloc: Global,
    rest: &mut BytesMut,
    piece: &[u8],
    most: u64,
    whole: &mut Seq<Word>,
) -> Result<Taken, Memory>
    ensures gathers { IfOk result (GathersAll (rest.old.items ++ piece.now) most whole.old whole.new) }
    ensures rest { IfOk result (λ taken. rest.new.items ≡ drop taken.bytes (rest.old.items ++ piece.now)) }
{
    rest.extend_from_slice(piece)?;
    let taken = gather_whole(alloc, rest.as_slice(), most, whole)?;
    rest.advance(taken.bytes);
    Ok(taken)
}
