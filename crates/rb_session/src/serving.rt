// Serving a session: requests are read from a source, and replies are written to a sink.

ghost use Rattle.std.specs.Prelude.{◌≡◌, ◌<◌, ◌≤◌, ◌+◌, None, length, vec_len, IfOk};
ghost use Rattle.rb_base.specs.Devices.{device};
ghost use Rattle.rb_base.specs.Sources.{Reads, IsAtEnd};
ghost use Rattle.rb_meaning_frames.specs.Streams.{Waits};
ghost use Rattle.rb_session.specs.Answering.{IsTypedHost};
ghost use Rattle.rb_session.specs.Sessions.{new_session, IsBounded};
ghost use Rattle.rb_session.specs.Receiving.{lacking};
ghost use Rattle.rb_session.specs.Serving.{host_ends, Serves, UnlessServedMemory};
ghost use Rattle.rb_session.specs.Pieces.{serving, WritesThen, ServesPiece, EndsSo, ServesTo, UnlessErrMemory};

use crate::sessions::{Session, SessionStop};
use bytes::BytesMut;
use rb_base::{Failed, Sink, Source, write_whole};
use rb_exec::Host;
use rb_trees::Memory;
use std::alloc::Global;
use thiserror::Error;

/// How many bytes are read at most at once. No read goes beyond the request at hand.
const PIECE: usize = 65_536;

/// A session was served to the end of its source, which came behind a whole frame.
#[derive(Clone, Copy)]
pub struct Served {
    /// How many requests were answered.
    pub requests: u64,
}

/// Why a session was served no further.
#[derive(Debug, Drop, Error)]
pub enum ServeCause {
    /// A read failed: a fault that the source counted.
    #[error("the requests can't be read")]
    ReadFault,
    /// A write failed: a fault that the sink counted. A front of the replies was written.
    #[error("the replies can't be written")]
    WriteFault,
    /// The source ended within a frame, after so many bytes in all.
    #[error("the stream ends within a frame, after {0} bytes")]
    Cut(u64),
    /// The stream breaks the form of a request frame at this offset.
    #[error("the stream breaks its form at offset {0}")]
    BadFrame(u64),
    /// So many requests were answered that a further one isn't.
    #[error("too many requests")]
    SessionSpent,
    #[error("out of memory")]
    Memory,
}

/// A session was served, but not to the end of its source behind a whole frame.
#[derive(Debug, Drop, Error)]
#[error("after {requests} requests: {cause}")]
pub struct ServeStop {
    /// How many requests were answered.
    pub requests: u64,
    pub cause: ServeCause,
}

/// Serves a session: reads requests to the end of the source, answers them in order, and writes the frames of the replies.
///
/// Where the source and the sink tell, what was written are the replies to the whole frames of the stream. At each stop but
/// want of memory all requests were answered that were whole before it, and after a write fault a front of the replies was
/// written.
pub fn serve<S: Source, K: Sink>(
    alloc: Global,
    host: &mut Host,
    source: &mut S,
    sink: &mut K,
) -> Result<Served, ServeStop>
    requires { IsTypedHost host.old }
    ensures serves { let before = host_ends host.old (device S.told S.faults source.old) (device K.told K.faults sink.old) in
        let after = host_ends host.new (device S.told S.faults source.new) (device K.told K.faults sink.new) in
        Serves before after result }
    ensures typed { UnlessServedMemory result (IsTypedHost host.new) }
    ensures service { host.new.service ≡ host.old.service }
{
    let mut session = Session::make(alloc);
    let answer = match buffer_of(alloc) {
        Ok(mut buffer) => {
            let buffer = buffer.as_mut_slice();
            serve_pieces(alloc, host, &mut session, source, sink, buffer)
        }
        Err(Memory) => Err(ServeCause::Memory),
    };
    let requests = session.requests();
    match answer {
        Ok(()) => Ok(Served { requests }),
        Err(cause) => Err(ServeStop { requests, cause }),
    }
}

/// Feeds a new session what the source gives, piece by piece. A piece ends at the latest where the request at hand does, so that
/// each reply is written before the next one is made.
fn serve_pieces<S: Source, K: Sink>(
    alloc: Global,
    host: &mut Host,
    session: &mut Session,
    source: &mut S,
    sink: &mut K,
    buffer: &mut [u8],
) -> Result<(), ServeCause>
    requires new { session.old ≡ new_session }
    requires room { 0 < length buffer.old }
    requires typed { IsTypedHost host.old }
    ensures serves { let before = host_ends host.old (device S.told S.faults source.old) (device K.told K.faults sink.old) in
        let after = host_ends host.new (device S.told S.faults source.new) (device K.told K.faults sink.new) in
        ServesTo before after session.new.requests result }
    ensures typed { UnlessErrMemory result (IsTypedHost host.new) }
    ensures service { host.new.service ≡ host.old.service }
{
    let mut out = BytesMut::new(alloc);
    'pieces: loop {
        let most = session.lacks();
        let count = match read_most(source, buffer, most) {
            Ok(count) => count,
            Err(_) => return Err(ServeCause::ReadFault),
        };
        if count == 0 {
            return ended(session);
        }
        match serve_piece(alloc, host, session, &buffer[..count], &mut out, sink) {
            Ok(()) => {}
            Err(cause) => return Err(cause),
        }
    }
}

/// A buffer for the pieces.
fn buffer_of(alloc: Global) -> Result<Vec<u8>, Memory>
    ensures { IfOk result (λ buffer. 0 < vec_len buffer) }
{
    Ok(vec![in alloc; 0; PIECE]?)
}

/// Reads once, at most so many bytes, to the front of a buffer.
fn read_most<S: Source>(source: &mut S, buffer: &mut [u8], most: u64) -> Result<usize, Failed>
    requires room { 0 < length buffer.old }
    requires some { 0 < most }
    ensures room { length buffer.new ≡ length buffer.old }
    ensures within { IfOk result (λ count. count ≤ length buffer.new) }
    ensures few { IfOk result (λ count. count ≤ most) }
    ensures end { result ≡ Ok 0 → IsAtEnd (S.told source.old) }
    ensures after { Reads buffer.new result (device S.told S.faults source.old) (device S.told S.faults source.new) }
{
    let size = most.min(buffer.len() as u64) as usize;
    source.read(&mut buffer[..size])
}

/// How a session ends whose source has ended.
fn ended(session: &Session) -> Result<(), ServeCause>
    requires waits { Waits session.now.rest }
    requires bounded { IsBounded session.now.offset session.now.requests }
    ensures { EndsSo session.now result }
{
    match session.came() {
        (_, true) => Ok(()),
        (bytes, false) => Err(ServeCause::Cut(bytes)),
    }
}

/// Feeds a session a piece that ends at the latest where the request at hand does, and writes the reply, if there is one.
fn serve_piece<K: Sink>(
    alloc: Global,
    host: &mut Host,
    session: &mut Session,
    piece: &[u8],
    out: &mut BytesMut,
    sink: &mut K,
) -> Result<(), ServeCause>
    requires fresh { session.old.stop ≡ None }
    requires waits { Waits session.old.rest }
    requires one { length piece.now ≤ lacking session.old.rest }
    requires typed { IsTypedHost host.old }
    ensures serves { let before = serving host.old session.old (device K.told K.faults sink.old) in
        let after = serving host.new session.new (device K.told K.faults sink.new) in
        ServesPiece before after piece.now result }
    // No more than one request is answered before its reply is written.
    ensures one { UnlessErrMemory result (session.new.requests ≤ session.old.requests + 1) }
    ensures typed { UnlessErrMemory result (IsTypedHost host.new) }
    ensures service { host.new.service ≡ host.old.service }
    ensures bounded { IsBounded session.new.offset session.new.requests }
{
    out.clear();
    match session.feed(alloc, host, piece, out) {
        Ok(()) => write_then(sink, out.as_slice(), Ok(())),
        Err(SessionStop::BadFrame(at)) => {
            write_then(sink, out.as_slice(), Err(ServeCause::BadFrame(at)))
        }
        Err(SessionStop::SessionSpent) => {
            write_then(sink, out.as_slice(), Err(ServeCause::SessionSpent))
        }
        Err(SessionStop::Memory) => Err(ServeCause::Memory),
    }
}

/// Writes the frames of replies, where there are any, and answers so then.
fn write_then<K: Sink>(
    sink: &mut K,
    replies: &[u8],
    answer: Result<(), ServeCause>,
) -> Result<(), ServeCause>
    ensures { WritesThen (device K.told K.faults sink.old) (device K.told K.faults sink.new) replies.now answer result }
{
    if !replies.is_empty() && write_whole(sink, replies).is_err() {
        return Err(ServeCause::WriteFault);
    }
    answer
}
