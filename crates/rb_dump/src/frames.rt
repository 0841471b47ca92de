// Frames that stand one behind the other, and their payloads.

ghost use Rattle.std.specs.Prelude.{◌≡◌, ◌+◌, ◌<◌, ◌≤◌, length, drop, IfOk, OnOk, MatchOption};
ghost use Rattle.rb_meaning.specs.Replies.{header_length, announced};
ghost use Rattle.rb_meaning_frames.specs.Frames.{is_kind, may_stand, IsRightBefore, BreaksAt};
ghost use Rattle.rb_dump.specs.Leads.{Leads};
ghost use Rattle.rb_dump.specs.Streams.{message_of, IsFront, IsWhole, Tells};

use crate::fields::Message;
use crate::messages::{show_payload, show_unread};
use crate::reader::filled;
use crate::verdicts::{LONGEST, Verdict, first_of};
use crate::walk::Walk;
use rb_meaning_frames::headers_are_spelled;
use rb_trees::Memory;
use std::alloc::Global;

/// The length of a header: two bytes that are always the same, the kind, and eight bytes of length.
const HEADER: usize = 11;

/// The kind of a request.
const REQUEST: u8 = 1;

/// The kind of a forest.
const FOREST: u8 = 2;

/// The kind of a refusal, which is the greatest.
const REFUSAL: u8 = 3;

/// What stands at the front of bytes.
#[derive(Clone, Copy)]
pub(crate) enum Front {
    /// A whole frame: its kind, and how many bytes its payload has.
    Whole(u8, usize),
    /// A part of a frame.
    Cut,
    /// What breaks the form of a frame, at this offset.
    Broken(usize),
}

/// Whether a byte may stand at an offset of a frame.
fn may_stand(at: usize, byte: u8) -> bool
    ensures { result ≡ may_stand is_kind at byte }
{
    match at {
        0 => byte == b'R',
        1 => byte == b'B',
        2 => REQUEST <= byte && byte <= REFUSAL,
        _ => true,
    }
}

/// The offset of the first byte of a header that breaks its form.
fn wrong_at(bytes: &[u8]) -> Option<usize>
    ensures { MatchOption result (IsRightBefore is_kind (length bytes.now) bytes.now) (λ at. BreaksAt is_kind at bytes.now) }
{
    let front = &bytes[..bytes.len().min(3)];
    for (at, byte) in front.iter().enumerate() {
        if !may_stand(at, *byte) {
            return Some(at);
        }
    }
    None
}

/// The length of the payload that a header announces.
fn announced(bytes: &[u8]) -> u64
    requires { header_length ≤ length bytes.now }
    ensures { result ≡ announced bytes.now }
{
    let mut length = [0; 8];
    length.copy_from_slice(&bytes[3..HEADER]);
    u64::from_be_bytes(length)
}

/// What stands at the front of bytes whose first three break nothing.
fn right_front(bytes: &[u8]) -> Front
    requires some { 0 < length bytes.now }
    requires right { IsRightBefore is_kind (length bytes.now) bytes.now }
    ensures { IsFront bytes.now result }
{
    headers_are_spelled();
    if bytes.len() < HEADER {
        return Front::Cut;
    }
    let kind = bytes[2];
    let size = announced(bytes);
    if kind == REQUEST && size > LONGEST as u64 {
        return Front::Broken(3);
    }
    if bytes.len() - HEADER < size as usize {
        return Front::Cut;
    }
    Front::Whole(kind, size as usize)
}

/// What stands at the front of bytes, of which there are some.
fn front_of(bytes: &[u8]) -> Front
    requires { 0 < length bytes.now }
    ensures { IsFront bytes.now result }
{
    match wrong_at(bytes) {
        Some(at) => Front::Broken(at),
        None => right_front(bytes),
    }
}

/// What the payload of a frame of a kind is to be.
fn message_of(kind: u8) -> Message
    ensures { result ≡ message_of kind }
{
    match kind {
        REQUEST => Message::Script,
        FOREST => Message::Forest,
        _ => Message::Refusal,
    }
}

/// The words for a kind.
fn kind_words(message: Message) -> &'static [u8] {
    match message {
        Message::Script => b"kind 1, a script",
        Message::Forest => b"kind 2, a forest",
        Message::Refusal => b"kind 3, a refusal",
    }
}

/// Shows the header of a frame.
fn show_header(
    alloc: Global,
    walk: &mut Walk<'_>,
    message: Message,
    size: usize,
) -> Result<(), Memory>
    requires { walk.old.at + header_length ≤ length walk.old.bytes }
    ensures bytes { walk.new.bytes ≡ walk.old.bytes }
    ensures at { OnOk result (walk.new.at ≡ walk.old.at + header_length) }
{
    walk.add(2, 0, filled(alloc, b"frame", b"", 0)?)?;
    walk.add(1, 1, filled(alloc, kind_words(message), b"", 0)?)?;
    walk.add(8, 1, filled(alloc, b"length: #", b"", size as u64)?)
}

/// Shows a whole frame, and answers what is told of its payload.
fn show_whole(alloc: Global, walk: &mut Walk<'_>, kind: u8, size: usize) -> Result<Verdict, Memory>
    requires { IsWhole (drop walk.old.at walk.old.bytes) kind size }
    ensures bytes { walk.new.bytes ≡ walk.old.bytes }
    ensures at { OnOk result (walk.old.at < walk.new.at) }
    ensures leads { IfOk result (Leads Tells walk.old walk.new) }
{
    let message = message_of(kind);
    show_header(alloc, walk, message, size)?;
    let end = walk.after(size);
    show_payload(alloc, walk, message, end, 1)
}

/// Shows a frame, or all that is left where none stands whole, and answers what is told of it.
fn show_frame(alloc: Global, walk: &mut Walk<'_>) -> Result<Verdict, Memory>
    requires { walk.old.at < length walk.old.bytes }
    ensures bytes { walk.new.bytes ≡ walk.old.bytes }
    ensures at { OnOk result (walk.old.at < walk.new.at) }
    ensures leads { IfOk result (Leads Tells walk.old walk.new) }
{
    let at = walk.at();
    let end = walk.len();
    match front_of(walk.rest()) {
        Front::Whole(kind, size) => show_whole(alloc, walk, kind, size),
        Front::Cut => {
            show_unread(alloc, walk, end, 0)?;
            Ok(Verdict::CutFrame { at })
        }
        Front::Broken(offset) => {
            show_unread(alloc, walk, end, 0)?;
            Ok(Verdict::BadFrame { at: at + offset })
        }
    }
}

/// Shows frames, and answers what is told of them.
#[tactic(auto, using(crate::proofs::Told::so_far))]
pub(crate) fn show_frames(alloc: Global, walk: &mut Walk<'_>) -> Result<Verdict, Memory>
    requires { walk.old.at ≡ 0 }
    ensures bytes { walk.new.bytes ≡ walk.old.bytes }
    ensures at { OnOk result (walk.new.at ≡ length walk.old.bytes) }
    ensures verdict { IfOk result (Tells 0 walk.old.bytes) }
{
    let mut verdict = Verdict::Whole;
    'frames: while walk.at() < walk.len() {
        let found = show_frame(alloc, walk)?;
        verdict = first_of(verdict, found);
    }
    Ok(verdict)
}
