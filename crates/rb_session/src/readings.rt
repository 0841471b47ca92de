// Requests that are read.

ghost use Rattle.std.specs.Prelude.{◌≡◌, ◌≤◌, ℕ, List, Result, length, IfOk, OnErr};
ghost use Rattle.rb_meaning.specs.Answers.{longest_request};
ghost use Rattle.rb_meaning_bytes.specs.formats.Messages.{Sent, Refused};
ghost use Rattle.rb_meaning_bytes.specs.formats.ScriptPayloads.{Means};
ghost use Rattle.rb_session.specs.Readings.{IsSent, ReadAs, Reads, sent_of, request};

use bytes::BytesMut;
use rb_meaning_bytes::{each_script_has_one_spelling, each_step_has_a_byte, refusals_have_numbers};
use rb_trees::{Memory, Script, Seq, Value, Version};
use rb_wire_forest::encode_refusal;
use rb_wire_script::{ScriptStop, decode_script};
use std::alloc::Global;
use std::marker::Model;

/// A request that was read, to be performed, and answered in its version. Contracts see a valid script with the values of its
/// inputs.
#[derive(Drop)]
pub struct Ready {
    pub(crate) version: Version,
    pub(crate) script: Script,
    pub(crate) inputs: Seq<Value>,
}

impl Model for Ready {
    ghost use Rattle.rb_session.specs.Codes.{request_code};
    ghost use Rattle.rb_session.specs.Readings.{Request, IsSent, sent_of};

    ghost Value = { Request };

    ghost coded = { request_code };

    ghost view = { λ r. record { version = r.version; script = r.script; inputs = r.inputs } };

    ghost invariant = { λ r. IsSent (sent_of (record { version = r.version; script = r.script; inputs = r.inputs })) };
}

// A request that may be performed.
fn ready_of(version: Version, script: Script, inputs: Seq<Value>) -> Ready
    requires { IsSent (sent_of (request version script inputs)) }
    ensures { result ≡ request version script inputs }
{
    Ready {
        version,
        script,
        inputs,
    }
}

/// Reads a request: a valid script with the values of its inputs, to be performed. Where the payload spells none, appends the
/// refusal in the version that the payload's first byte names, and answers None.
///
/// After want of memory the buffer is as it was.
pub fn read_request(
    alloc: Global,
    payload: &[u8],
    reply: &mut BytesMut,
) -> Result<Option<Ready>, Memory>
    requires { length payload.now ≤ longest_request }
    // What is answered is what the payload comes to.
    ensures reads { IfOk result (λ r. Reads payload.now r reply.old.items reply.new.items) }
    // What the payload comes to is answered.
    ensures alone { IfOk result (λ r. (meant : Result Sent Refused) → Means payload.now meant → ReadAs r meant) }
    ensures unchanged { OnErr result (reply.new.items ≡ reply.old.items) }
{
    each_script_has_one_spelling();
    each_step_has_a_byte();
    refusals_have_numbers();
    match decode_script(alloc, payload) {
        Ok((version, script, inputs)) => Ok(Some(ready_of(version, script, inputs))),
        Err(
            ScriptStop::Refused {
                version,
                number,
                at,
            },
        ) => {
            encode_refusal(number, at, version, reply)?;
            Ok(None)
        }
        Err(ScriptStop::Memory) => Err(Memory),
    }
}
