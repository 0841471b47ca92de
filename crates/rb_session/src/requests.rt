// The requests of a stream.

ghost use Rattle.std.specs.Prelude.{◌≡◌, ◌≤◌, length, IfOk, OnOk};
ghost use Rattle.rb_meaning.specs.Answers.{longest_request};
ghost use Rattle.rb_session.specs.Answering.{IsTypedHost};
ghost use Rattle.rb_session.specs.Taking.{GainsReply, TakesAll, GathersAll};

use crate::answers::answer;
use crate::frames::{Front, HEADER, fill_room, front_of, leave_room};
use bytes::BytesMut;
use rb_exec::Host;
use rb_trees::{Memory, Seq, Word};
use std::alloc::Global;

/// Requests that were taken from the front of a stream: how many bytes their frames have, how many they are, and what stands
/// behind them.
#[derive(Clone, Copy)]
pub struct Taken {
    pub bytes: usize,
    pub requests: u64,
    pub front: Front,
}

/// Answers a request, and appends the frame of the reply. The payload is made where it stays, behind room for the header.
fn answer_frame(
    alloc: Global,
    host: &mut Host,
    payload: &[u8],
    out: &mut BytesMut,
) -> Result<(), Memory>
    requires size { length payload.now ≤ longest_request }
    requires typed { IsTypedHost host.old }
    ensures gains { OnOk result (GainsReply host.old host.new payload.now out.old.items out.new.items) }
    ensures typed { OnOk result (IsTypedHost host.new) }
    ensures service { host.new.service ≡ host.old.service }
{
    let at = leave_room(out)?;
    let kind = answer(alloc, host, payload, out)?;
    fill_room(kind, at, out);
    Ok(())
}

/// Answers the requests that stand whole at the front of a stream, in order, but at most so many, and appends the frames of
/// their replies.
pub fn answer_whole(
    alloc: Global,
    host: &mut Host,
    bytes: &[u8],
    most: u64,
    out: &mut BytesMut,
) -> Result<Taken, Memory>
    requires { IsTypedHost host.old }
    ensures takes { IfOk result (TakesAll host.old host.new bytes.now most out.old.items out.new.items) }
    ensures typed { OnOk result (IsTypedHost host.new) }
    ensures service { host.new.service ≡ host.old.service }
{
    let mut at = 0;
    let mut requests = 0;
    'whole: loop {
        let rest = &bytes[at..];
        match front_of(rest) {
            Front::Whole(size) if requests < most => {
                answer_frame(alloc, host, &rest[HEADER..HEADER + size], out)?;
                at += HEADER + size;
                requests += 1;
            }
            front => {
                return Ok(Taken {
                    bytes: at,
                    requests,
                    front,
                });
            }
        }
    }
}

/// Gathers the requests that stand whole at the front of a stream, in order, but at most so many: appends their payloads.
pub fn gather_whole(
    alloc: Global,
    bytes: &[u8],
    most: u64,
    whole: &mut Seq<Word>,
) -> Result<Taken, Memory>
    ensures { IfOk result (GathersAll bytes.now most whole.old whole.new) }
{
    let mut at = 0;
    let mut requests = 0;
    'whole: loop {
        let rest = &bytes[at..];
        match front_of(rest) {
            Front::Whole(size) if requests < most => {
                let payload = Seq::from_slice(alloc, &rest[HEADER..HEADER + size])?;
                whole.push(payload)?;
                at += HEADER + size;
                requests += 1;
            }
            front => {
                return Ok(Taken {
                    bytes: at,
                    requests,
                    front,
                });
            }
        }
    }
}
