// The answer to a request in JSON.

ghost use Rattle.std.specs.Prelude.{◌≡◌, ◌≤◌, Ok, Err, length, IfOk, IfErr, OnOk, OnErr};
ghost use Rattle.rb_trees.specs.Outcome.{Refuses};
ghost use Rattle.rb_trees.specs.Validity.{verdict};
ghost use Rattle.rb_trees.specs.mirror.Forests.{Node as Tree, mirror_node};
ghost use Rattle.rb_trees.specs.mirror.Scripts.{mirror_script};
ghost use Rattle.rb_meaning_bytes.specs.formats.Payloads.{IsForest};
ghost use Rattle.rb_meaning_bytes.specs.formats.ScriptPayloads.{number_of, step_of};
ghost use Rattle.rb_meaning.specs.Answers.{longest_request};
ghost use Rattle.rb_session.specs.Answering.{IsTypedHost, performed_on};
ghost use Rattle.std.specs.Prelude.{false, ◌++◌};
ghost use Rattle.rb_trees.specs.declared.validity.ScriptRefusal.{ScriptRefusal};
ghost use Rattle.serde_json.specs.View.{view};
ghost use Rattle.serde_json.specs.Written.{has_float, compact_text};
ghost use Rattle.rb_json.specs.Answering.{longest_json, AnswersRequest, StaysUnlessPerformed, RefusedBySuch, SpellsForest, SpellsValid, PerformsSent, reply_on};
ghost use Rattle.rb_json.specs.Formed.{HasForm};
ghost use Rattle.rb_json.specs.Mirrors.{sent};
ghost use Rattle.rb_json.specs.Replies.{node_data};
ghost use Rattle.rb_json.specs.Requests.{request_in};
ghost use Rattle.rb_json.specs.Stops.{refusal};

use crate::requests::read_request;
use crate::stops::JsonStop;
use crate::writing::replies::{node, refusal as refusal_value};
use bytes::BytesMut;
use rb_exec::Host;
use rb_meaning_bytes::{forests_have_a_version, script_payloads_mean_one_thing};
use rb_session::answer;
use rb_trees::{Memory, Node, Script, ScriptRefusal, Seq, Value, Version};
use rb_wire_forest::{ForestStop, decode_forest};
use rb_wire_script::{RuleStop, check_script, encode_script};
use serde_json::Value as Json;
use std::alloc::Global;

/// The greatest number of bytes of a binary request.
const LONGEST_PAYLOAD: usize = 16_777_216;

/// The number of a script's refusal, and its step.
fn number_and_step(refusal: ScriptRefusal) -> (u8, u32)
    ensures { (result.0 ≡ number_of refusal) × (result.1 ≡ step_of refusal) }
{
    match refusal {
        ScriptRefusal::UnknownVariable(step) => (11, step),
        ScriptRefusal::UnknownInput(step) => (12, step),
        ScriptRefusal::StepRepeated(step) => (13, step),
        ScriptRefusal::TooDeep(step) => (14, step),
        ScriptRefusal::WrongInput(step) => (15, step),
    }
}

/// Reads the forest that a reply is.
fn read_forest(alloc: Global, reply: &[u8]) -> Result<Node, Memory>
    requires { SpellsForest reply.now }
    ensures { IfOk result (λ root. (n : Tree) → IsForest reply.now n → mirror_node root ≡ n) }
{
    match decode_forest(alloc, reply) {
        Ok(root) => Ok(root),
        Err(ForestStop::Memory) => Err(Memory),
        Err(ForestStop::Refused { .. }) => unreachable!(),
    }
}

/// Has the host answer a binary request that spells a valid script, and reads the node of the reply.
fn node_of(alloc: Global, host: &mut Host, payload: &[u8]) -> Result<Node, Memory>
    requires size { length payload.now ≤ longest_request }
    requires valid { SpellsValid payload.now }
    requires typed { IsTypedHost host.old }
    ensures node { IfOk result (λ root. PerformsSent host.old host.new payload.now root) }
    ensures typed { OnOk result (IsTypedHost host.new) }
    ensures service { host.new.service ≡ host.old.service }
{
    script_payloads_mean_one_thing();
    forests_have_a_version();
    let mut reply = BytesMut::new(alloc);
    answer(alloc, host, payload, &mut reply)?;
    read_forest(alloc, reply.as_slice())
}

/// Has the host perform a valid script as a binary request, and gives the node of its reply.
///
/// A payload that is too long is answered as want of memory. That of a request in JSON never is: it takes at most sixteen bytes for each
/// of the values in JSON, and no text twice. No clause says so.
fn performed(
    alloc: Global,
    host: &mut Host,
    script: &Script,
    values: &[Value],
) -> Result<Json, Memory>
    requires form { HasForm (sent script.now values.now) }
    requires valid { verdict (mirror_script script.now) ≡ Ok tt }
    requires typed { IsTypedHost host.old }
    ensures json { IfOk result (λ v. view v ≡ node_data (performed_on host.old (sent script.now values.now)).node) }
    ensures table { OnOk result (host.new.table ≡ (performed_on host.old (sent script.now values.now)).server.table) }
    ensures typed { OnOk result (IsTypedHost host.new) }
    ensures service { host.new.service ≡ host.old.service }
{
    let mut payload = BytesMut::new(alloc);
    encode_script(Version::Two, script, values, &mut payload)?;
    if payload.len() > LONGEST_PAYLOAD {
        return Err(Memory);
    }
    let root = node_of(alloc, host, payload.as_slice())?;
    node(alloc, &root)
}

/// The reply to a script with the values of its inputs, as a JSON value.
#[tactic(auto, using(crate::proofs::Replied::replies))]
fn replied(
    alloc: Global,
    host: &mut Host,
    script: &Script,
    values: &[Value],
) -> Result<Json, Memory>
    requires form { HasForm (sent script.now values.now) }
    requires typed { IsTypedHost host.old }
    ensures json { IfOk result (λ v. view v ≡ (reply_on host.old (sent script.now values.now)).json) }
    ensures table { OnOk result (host.new.table ≡ (reply_on host.old (sent script.now values.now)).table) }
    ensures stays { (r : ScriptRefusal) → verdict (mirror_script script.now) ≡ Err r → host.new ≡ host.old }
    ensures typed { OnOk result (IsTypedHost host.new) }
    ensures service { host.new.service ≡ host.old.service }
{
    match check_script(alloc, script) {
        Ok(()) => performed(alloc, host, script, values),
        Err(RuleStop::Refused(refused)) => {
            let (number, step) = number_and_step(refused);
            refusal_value(alloc, number, step)
        }
        Err(RuleStop::Memory) => Err(Memory),
    }
}

/// Appends the compact text of a JSON value.
fn append(alloc: Global, json: &Json, reply: &mut Seq<u8>) -> Result<(), Memory>
    requires { has_float (view json.now) ≡ false }
    ensures gains { OnOk result (reply.new ≡ reply.old ++ compact_text (view json.now)) }
    ensures unchanged { OnErr result (reply.new ≡ reply.old) }
{
    let text = json.to_vec(alloc)?;
    reply.extend_from_slice(text.as_slice())
}

/// Answers a request in JSON: reads a script with the values of its inputs, has the host answer it, and appends the reply in
/// compact JSON, a node or a refusal.
///
/// The request is refused exactly where `request_in` in `specs/Requests` says so. The reply and the table afterwards are those of
/// `json_reply` in `specs/Answering`, which are those of the binary request, as `the_reply_is_that_of_the_wire` states. After want of
/// memory nothing is said of the table, but that a request whose script isn't performed leaves it. Want of memory is also answered
/// where the binary payload of the script would be longer than 16,777,216 bytes.
#[tactic(auto, using(crate::proofs::Replied::answers))]
pub fn json_answer(
    alloc: Global,
    host: &mut Host,
    request: &[u8],
    reply: &mut Seq<u8>,
) -> Result<(), JsonStop>
    requires size { length request.now ≤ longest_json }
    requires typed { IsTypedHost host.old }
    // A refusal comes exactly where the request has it: else the request is answered.
    ensures refused { IfErr result (λ stop. Refuses (refusal stop) (request_in request.now)) }
    ensures answers { OnOk result (AnswersRequest host.old host.new request.now reply.old reply.new) }
    ensures stays { StaysUnlessPerformed host.old host.new request.now }
    ensures numbers { OnOk result (RefusedBySuch request.now) }
    ensures typed { OnOk result (IsTypedHost host.new) }
    ensures service { host.new.service ≡ host.old.service }
    ensures unchanged { OnErr result (reply.new ≡ reply.old) }
{
    let (script, values) = read_request(alloc, request)?;
    let json = replied(alloc, host, &script, values.as_slice())?;
    append(alloc, &json, reply)?;
    Ok(())
}
