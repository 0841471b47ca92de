// How frames of requests are written, and those of replies taken.

ghost use Rattle.std.specs.Prelude.{◌≡◌, ◌<◌, ◌≤◌, ◌++◌, length, replicate, slice_index, IfOk, IfErr, OnOk};
ghost use Rattle.rb_meaning_bytes.specs.formats.Fields.{IsBytes};
ghost use Rattle.rb_meaning.specs.Replies.{header_length};
ghost use Rattle.rb_base.specs.Devices.{device};
ghost use Rattle.rb_base.specs.Sources.{IsAtEnd};
ghost use Rattle.rb_session.specs.Receiving.{Across, Sends, lacking, ReadsPiece, StepsOn, TakesNone, TakesWhole, Receives};

use crate::frames::{HEADER, announced, put_frame, wrong_at};
use bytes::BytesMut;
use rb_base::{Failed, LinkStop, Reply, Sink, Source, write_whole};
use rb_meaning_frames::headers_are_spelled;
use rb_trees::{Memory, Seq};
use std::alloc::Global;

/// The kind of a request.
const REQUEST: u8 = 1;

/// The kind of a forest.
const FOREST: u8 = 2;

/// The kind of a refusal.
const REFUSAL: u8 = 3;

/// How many bytes are read at once, at most. No room is made for more than this before bytes have come.
const PIECE: u64 = 65_536;

/// Writes the frame of a request, in as few pieces as the sink takes.
pub fn send<K: Sink>(alloc: Global, sink: &mut K, request: &[u8]) -> Result<(), LinkStop>
    ensures { Sends request.now result (device K.told K.faults sink.old) (device K.told K.faults sink.new) }
{
    let mut frame = BytesMut::new(alloc);
    put_frame(REQUEST, request, &mut frame)?;
    match write_whole(sink, frame.as_slice()) {
        Ok(()) => Ok(()),
        Err(Failed) => Err(LinkStop::Failed),
    }
}

/// How many bytes a frame lacks of which these are the first: of its header, or else of its payload.
pub fn lacking(taken: &[u8]) -> u64
    ensures { result ≡ lacking taken.now }
{
    if taken.len() < HEADER {
        return (HEADER - taken.len()) as u64;
    }
    announced(taken).saturating_sub((taken.len() - HEADER) as u64)
}

// Makes room for so many bytes, and fills it with zeros.
fn make_room(taken: &mut BytesMut, more: usize) -> Result<(), Memory>
    requires { more ≤ 65536 }
    ensures ok { OnOk result (taken.new.items ≡ taken.old.items ++ replicate more 0) }
{
    let size = taken.len() + more;
    taken.resize(size, 0)?;
    Ok(())
}

// Reads once, at most so many bytes, and appends them.
fn read_piece<S: Source>(source: &mut S, taken: &mut BytesMut, most: u64) -> Result<usize, LinkStop>
    requires { 0 < most }
    ensures reads { Across S.Source source.old source.new (ReadsPiece most taken.old.items taken.new.items result) }
    ensures end { result ≡ Ok 0 → IsAtEnd (S.told source.old) }
{
    let before = taken.len();
    make_room(taken, most.min(PIECE) as usize)?;
    match source.read(&mut taken.as_mut_slice()[before..]) {
        Ok(count) => {
            taken.truncate(before + count);
            Ok(count)
        }
        Err(Failed) => Err(LinkStop::Failed),
    }
}

// Reads once, at most so many bytes, and looks at all that were taken: the reply may have ended, or break its form.
fn take_more<S: Source>(source: &mut S, taken: &mut BytesMut, most: u64) -> Result<(), LinkStop>
    requires { 0 < most }
    ensures { Across S.Source source.old source.new (StepsOn most taken.old.items taken.new.items result) }
{
    let alloc = *taken.allocator();
    if read_piece(source, taken, most)? == 0 {
        let got = taken.len() as u64;
        let bytes = Seq::from_slice(alloc, taken.as_slice())?;
        return Err(LinkStop::Cut { got, bytes });
    }
    let Some(at) = wrong_at(taken.as_slice(), FOREST, REFUSAL) else {
        return Ok(());
    };
    let bytes = Seq::from_slice(alloc, taken.as_slice())?;
    Err(LinkStop::Frame {
        at: at as u64,
        bytes,
    })
}

// Takes the frame of a reply from a source.
fn take_frame<S: Source>(alloc: Global, source: &mut S) -> Result<BytesMut, LinkStop>
    ensures whole { IfOk result (λ taken. Across S.Source source.old source.new (TakesWhole taken.items)) }
    ensures none { IfErr result (λ stop. Across S.Source source.old source.new (TakesNone stop)) }
{
    let mut taken = BytesMut::new(alloc);
    let mut most = lacking(taken.as_slice());
    while most > 0 {
        take_more(source, &mut taken, most)?;
        most = lacking(taken.as_slice());
    }
    Ok(taken)
}

// The kind that a frame says.
fn kind_of(frame: &[u8]) -> u8
    requires { header_length ≤ length frame.now }
    ensures kind { result ≡ slice_index frame.now 2 }
    ensures bytes { IsBytes frame.now }
{
    frame[2]
}

/// Takes the frame of a reply from a source, and nothing behind it.
///
/// It is read in pieces, and room is made for no more than a piece before its bytes come, whatever length is announced.
pub fn receive<S: Source>(alloc: Global, source: &mut S) -> Result<Reply, LinkStop>
    ensures { Receives result (device S.told S.faults source.old) (device S.told S.faults source.new) }
{
    headers_are_spelled();
    let mut taken = take_frame(alloc, source)?;
    let kind = kind_of(taken.as_slice());
    taken.advance(HEADER);
    Ok(Reply {
        kind,
        payload: taken,
    })
}
