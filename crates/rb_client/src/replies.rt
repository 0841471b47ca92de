// What a client exchanges, and what it reads in a reply.

ghost use Rattle.std.specs.Prelude.{◌≤◌, length};
ghost use Rattle.rb_meaning.specs.Answers.{forest_kind, longest_request, refusal_kind};
ghost use Rattle.rb_base.specs.Links.{IsReplyKind};
ghost use Rattle.rb_client.specs.Demands.{Demand, demanded};
ghost use Rattle.rb_client.specs.Replies.{Reads, Replied, Takes};

use crate::stops::{BadReason, RunStop};
use rb_base::{Link, LinkStop, Reply};
use rb_meaning_bytes::script_payloads_mean_one_thing;
use rb_trees::{Part, Seq};
use rb_wire_forest::{Forest, decode_refusal, scan_forest};
use std::alloc::Global;

/// The kind of a forest: `forest_kind`.
const FOREST: u8 = 2;

// The forest of a payload, whose root fits a remainder where the inputs have these numbers of items.
#[inline(never)]
fn read_forest<'p>(
    payload: &'p [u8],
    remainder: &Seq<Part>,
    lengths: &[u32],
) -> Result<Forest<'p>, BadReason>
    ensures { Reads (demanded remainder.now lengths.now) forest_kind payload.now result }
{
    match scan_forest(payload) {
        Ok(forest) => match forest.fits(remainder, lengths) {
            Ok(()) => Ok(forest),
            Err(misfit) => Err(BadReason::Misfit(misfit)),
        },
        Err(refused) => Err(BadReason::Forest(refused.number, refused.at)),
    }
}

// Why a refusal gives no forest.
fn read_refusal<'p>(payload: &'p [u8]) -> Result<Forest<'p>, BadReason>
    ensures { (demand : Demand) → Reads demand refusal_kind payload.now result }
{
    match decode_refusal(payload) {
        Some((number, at)) => Err(BadReason::Refused(number, at)),
        None => Err(BadReason::Garbled),
    }
}

// The forest of a payload of this kind.
fn read_payload<'p>(
    kind: u8,
    payload: &'p [u8],
    remainder: &Seq<Part>,
    lengths: &[u32],
) -> Result<Forest<'p>, BadReason>
    requires { IsReplyKind kind }
    ensures { Reads (demanded remainder.now lengths.now) kind payload.now result }
{
    if kind == FOREST {
        return read_forest(payload, remainder, lengths);
    }
    read_refusal(payload)
}

/// The forest of a whole reply after so many exchanges, whose root has to fit a remainder where the inputs have these numbers of
/// items. It is seen where the reply lies: only the payload of a bad reply is copied.
pub fn read_reply<'r>(
    alloc: Global,
    reply: &'r Reply,
    remainder: &Seq<Part>,
    lengths: &[u32],
    done: u64,
) -> Result<Forest<'r>, RunStop>
    requires { IsReplyKind reply.now.kind }
    ensures { Takes (demanded remainder.now lengths.now) done reply.now.kind reply.now.payload.items result }
{
    let payload = reply.payload.as_slice();
    match read_payload(reply.kind, payload, remainder, lengths) {
        Ok(forest) => Ok(forest),
        Err(reason) => Err(RunStop::BadReply {
            done,
            reason,
            kind: reply.kind,
            bytes: Seq::from_slice(alloc, payload)?,
        }),
    }
}

/// Sends a request after so many exchanges, and gives the whole reply.
#[inline(never)]
pub fn send<L: Link>(link: &mut L, request: &[u8], done: u64) -> Result<Reply, RunStop>
    requires { length request.now ≤ longest_request }
    ensures { Replied L.Link done request.now link.old result link.new }
{
    script_payloads_mean_one_thing();
    match link.exchange(request) {
        Ok(reply) => Ok(reply),
        Err(LinkStop::Failed) => Err(RunStop::LinkFault(done)),
        Err(LinkStop::Frame { at, bytes }) => Err(RunStop::BadReply {
            done,
            reason: BadReason::Frame(at),
            kind: 0,
            bytes,
        }),
        Err(LinkStop::Cut { got, bytes }) => Err(RunStop::BadReply {
            done,
            reason: BadReason::Cut(got),
            kind: 0,
            bytes,
        }),
        Err(LinkStop::Memory) => Err(RunStop::Memory),
    }
}
