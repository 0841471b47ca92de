// Frames: how they are made, and what stands at the front of a stream.

ghost use Rattle.std.specs.Prelude.{◌≡◌, ◌+◌, ◌≤◌, ◌++◌, length, IfOk, IfErr, OnOk};
ghost use Rattle.rb_meaning.specs.Replies.{header_length, announced};
ghost use Rattle.rb_meaning_frames.specs.Frames.{header_bytes, frame_bytes, is_kind, BreaksAt, may_stand};
ghost use Rattle.rb_session.specs.Fronts.{is_between, IsFirstWrong, IsHeader, IsFront};
ghost use Rattle.rb_session.specs.Rooms.{framed_at, room};

use bytes::BytesMut;
use rb_meaning_frames::headers_are_spelled;
use rb_trees::Memory;

/// The length of a header: two bytes that are always the same, the kind, and eight bytes of length.
pub const HEADER: usize = 11;

/// The kind of a request.
const REQUEST: u8 = 1;

/// The kind of a refusal, which is the greatest.
const REFUSAL: u8 = 3;

/// How many bytes the payload of a request may have.
const LONGEST_REQUEST: u64 = 16_777_216;

/// What stands at the front of a stream.
#[derive(Clone, Copy)]
pub enum Front {
    /// A whole request frame, whose payload has so many bytes.
    Whole(usize),
    /// Nothing, or a part of a request frame that breaks nothing.
    Partial,
    /// Bytes that break the form of a request frame, at this offset.
    Broken(usize),
}

/// The kind and the length of the payload that a header says; or the offset of the first of its first three bytes that
/// breaks the form. The kind is 1 to 3, and any length may be said.
pub fn frame_header(header: &[u8; 11]) -> Result<(u8, u64), usize>
    ensures ok { IfOk result (λ h. IsHeader header.now h.0 h.1) }
    ensures err { IfErr result (λ at. BreaksAt is_kind at header.now) }
{
    headers_are_spelled();
    match wrong_at(header, REQUEST, REFUSAL) {
        None => Ok((header[2], announced(header))),
        Some(at) => Err(at),
    }
}

/// What stands at the front of a stream of requests.
pub fn front_of(bytes: &[u8]) -> Front
    ensures { IsFront bytes.now result }
{
    headers_are_spelled();
    match wrong_at(bytes, REQUEST, REQUEST) {
        Some(at) => Front::Broken(at),
        None if bytes.len() < HEADER => Front::Partial,
        None => {
            let size = announced(bytes);
            if size > LONGEST_REQUEST {
                Front::Broken(3)
            } else if bytes.len() - HEADER < size as usize {
                Front::Partial
            } else {
                Front::Whole(size as usize)
            }
        }
    }
}

/// The length of the payload that a header announces.
pub fn announced(bytes: &[u8]) -> u64
    requires { header_length ≤ length bytes.now }
    ensures { result ≡ announced bytes.now }
{
    let mut length = [0; 8];
    length.copy_from_slice(&bytes[3..HEADER]);
    u64::from_be_bytes(length)
}

/// The offset of the first byte of a frame that breaks its form, of which the kind is between two.
pub fn wrong_at(bytes: &[u8], least: u8, most: u8) -> Option<usize>
    ensures { IsFirstWrong (is_between least most) bytes.now result }
{
    let front = &bytes[..bytes.len().min(3)];
    for (at, byte) in front.iter().enumerate() {
        if !may_stand(at, *byte, least, most) {
            return Some(at);
        }
    }
    None
}

/// Whether a byte may stand at an offset of a frame, of which the kind is between two.
fn may_stand(at: usize, byte: u8, least: u8, most: u8) -> bool
    ensures { result ≡ may_stand (is_between least most) at byte }
{
    match at {
        0 => byte == b'R',
        1 => byte == b'B',
        2 => least <= byte && byte <= most,
        _ => true,
    }
}

/// The header of a frame whose payload has so many bytes.
#[tactic(auto, unfolding(rb_meaning_frames::specs::Frames::header_bytes))]
fn header_of(kind: u8, size: u64) -> [u8; HEADER]
    ensures { result ≡ header_bytes kind size }
{
    let mut header = [b'R', b'B', kind, 0, 0, 0, 0, 0, 0, 0, 0];
    header[3..].copy_from_slice(&size.to_be_bytes());
    header
}

/// Appends a frame.
pub fn put_frame(kind: u8, payload: &[u8], out: &mut BytesMut) -> Result<(), Memory>
    ensures { OnOk result (out.new.items ≡ out.old.items ++ frame_bytes kind payload.now) }
{
    out.extend_from_slice(&header_of(kind, payload.len() as u64))?;
    out.extend_from_slice(payload)?;
    Ok(())
}

/// Appends room for the header of a frame whose payload is appended next, and gives its place.
pub fn leave_room(out: &mut BytesMut) -> Result<usize, Memory>
    ensures at { IfOk result (λ at. at ≡ length out.old.items) }
    ensures room { OnOk result (out.new.items ≡ out.old.items ++ room) }
{
    let at = out.len();
    out.extend_from_slice(&[0; HEADER])?;
    Ok(at)
}

/// Puts the header of a frame over the room that was left for it at a place. What stands behind the room is the payload.
pub fn fill_room(kind: u8, at: usize, out: &mut BytesMut)
    requires { at + header_length ≤ length out.old.items }
    ensures { out.new.items ≡ framed_at at kind out.old.items }
{
    let size = (out.len() - at - HEADER) as u64;
    out.as_mut_slice()[at..at + HEADER].copy_from_slice(&header_of(kind, size));
}
