// The answer to a request.

ghost use Rattle.std.specs.Prelude.{◌≡◌, ◌≤◌, length, IfOk, OnOk, OnErr};
ghost use Rattle.rb_meaning.specs.Answers.{longest_request};
ghost use Rattle.rb_session.specs.Answering.{IsTypedHost, Performs, Replies, StaysWhereRefused};
ghost use Rattle.rb_session.specs.Readings.{sent_of};

use crate::readings::{Ready, read_request};
use bytes::BytesMut;
use rb_exec::{Host, run_onto};
use rb_law_types::{lawful_code_is_formed, scripts_keep_tables};
use rb_meaning_bytes::each_forest_has_one_spelling;
use rb_trees::Memory;
use std::alloc::Global;

/// The kind of a reply that is a forest.
const FOREST: u8 = 2;

/// The kind of a reply that is a refusal.
const REFUSAL: u8 = 3;

/// Performs a request that was read, and appends the forest that it gives.
///
/// The forest and the table are what its script means on the host. After want of memory the buffer is as it was, and nothing is
/// said of the table.
pub fn perform(
    alloc: Global,
    host: &mut Host,
    ready: Ready,
    reply: &mut BytesMut,
) -> Result<(), Memory>
    requires { IsTypedHost host.old }
    ensures performs { OnOk result (Performs host.old host.new (sent_of ready) reply.old.items reply.new.items) }
    ensures typed { OnOk result (IsTypedHost host.new) }
    ensures service { host.new.service ≡ host.old.service }
    ensures unchanged { OnErr result (reply.new.items ≡ reply.old.items) }
{
    scripts_keep_tables();
    lawful_code_is_formed();
    each_forest_has_one_spelling();
    let inputs = ready.inputs.as_slice();
    run_onto(alloc, host, &ready.script, inputs, ready.version, reply)?;
    Ok(())
}

/// Answers a request: appends the reply's payload and answers its kind, 2 for a forest and 3 for a refusal.
///
/// The reply and the table afterwards are `Answers` of the payload. After want of memory the buffer is as it was. Of
/// the table nothing is said then, but that a payload that spells no valid script leaves it as it was.
pub fn answer(
    alloc: Global,
    host: &mut Host,
    payload: &[u8],
    reply: &mut BytesMut,
) -> Result<u8, Memory>
    requires size { length payload.now ≤ longest_request }
    requires typed { IsTypedHost host.old }
    ensures replies { IfOk result (Replies host.old host.new payload.now reply.old.items reply.new.items) }
    // A payload that is refused leaves the table as it was.
    ensures refused { result ≡ Ok 3 → host.new ≡ host.old }
    // So it does where memory is wanting.
    ensures stays { StaysWhereRefused payload.now host.old host.new }
    ensures typed { OnOk result (IsTypedHost host.new) }
    ensures service { host.new.service ≡ host.old.service }
    ensures unchanged { OnErr result (reply.new.items ≡ reply.old.items) }
{
    let request = read_request(alloc, payload, reply)?;
    match request {
        Some(ready) => {
            perform(alloc, host, ready, reply)?;
            Ok(FOREST)
        }
        None => Ok(REFUSAL),
    }
}
