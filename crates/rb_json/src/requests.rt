// Requests in JSON.

ghost use Rattle.std.specs.Prelude.{◌≡◌, ◌≤◌, None, MatchOption, Some, length, IfOk};
ghost use Rattle.rb_trees.specs.Outcome.{Gives};
ghost use Rattle.rb_trees.specs.mirror.Scripts.{mirror_steps};
ghost use Rattle.rb_meaning_bytes.specs.formats.Items.{list_numbers};
ghost use Rattle.serde_json.specs.Data.{depth};
ghost use Rattle.serde_json.specs.Read.{max_depth};
ghost use Rattle.serde_json.specs.View.{view};
ghost use Rattle.rb_json.specs.Formed.{IsSendable};
ghost use Rattle.rb_json.specs.Mirrors.{sent};
ghost use Rattle.rb_json.specs.Requests.{json_of, members, request_at, request_in, sent_of};
ghost use Rattle.rb_json.specs.Stops.{refusal, wrong};

use crate::reader::Reader;
use crate::stops::{JsonRefusal, JsonStop, ReadStop};
use rb_trees::{Memory, Script, Seq, Step, Value};
use serde_json::{Category, Value as Json};
use std::alloc::Global;

/// The reading of bytes as JSON of at most 127 levels, or that they have none.
fn read_json(alloc: Global, bytes: &[u8]) -> Result<Json, JsonStop>
    ensures reads { Gives view refusal result (json_of bytes.now) }
    ensures nests { IfOk result (λ v. depth (view v) ≤ max_depth) }
{
    match Json::from_slice(alloc, bytes) {
        Ok(value) => Ok(value),
        Err(error) => {
            let category = error.classify();
            match category {
                Category::Memory => Err(JsonStop::Memory),
                Category::Io => Err(JsonStop::Refused(JsonRefusal::NotJson)),
                Category::Syntax => Err(JsonStop::Refused(JsonRefusal::NotJson)),
                Category::Data => Err(JsonStop::Refused(JsonRefusal::NotJson)),
                Category::Eof => Err(JsonStop::Refused(JsonRefusal::NotJson)),
            }
        }
    }
}

/// What stands at the keys `inputs` and `steps` of an object with just these keys.
#[tactic(auto, using(crate::proofs::Whole::pairs))]
fn members(value: &Json) -> Option<(&Json, &Json)>
    ensures { MatchOption result (None ≡ members (view value.now))
        (λ m. members (view value.now) ≡ Some (view m.0.now, view m.1.now)) }
{
    let object = value.as_object()?;
    if object.len() != 2 {
        return None;
    }
    let inputs = value.get("inputs")?;
    let steps = value.get("steps")?;
    Some((inputs, steps))
}

/// The numbers of those values that are lists.
#[tactic(auto, using(crate::proofs::Whole::lists))]
fn list_numbers(alloc: Global, values: &[Value]) -> Result<Seq<u8>, Memory>
    requires { length values.now ≤ 255 }
    ensures { IfOk result (λ numbers. numbers ≡ list_numbers 0 values.now) }
{
    let mut numbers = Seq::new(alloc);
    let mut number = 0;
    for value in values {
        if let Value::List(_) = value {
            numbers.push(number)?;
        }
        number += 1;
    }
    Ok(numbers)
}

impl Reader {
    /// A request: the values of the inputs, and the steps.
    fn request(&mut self, value: &Json) -> Result<(Seq<Value>, Seq<Step>), ReadStop>
        requires { depth (view value.now) ≤ max_depth }
        ensures reads { Gives (λ r. sent_of r.0 (mirror_steps r.1)) wrong result (request_at self.old.place (view value.now)) }
        ensures few { IfOk result (λ r. length r.0 ≤ 255) }
        ensures formed { IfOk result (λ r. IsSendable (sent_of r.0 (mirror_steps r.1))) }
    {
        let place = self.place;
        let Some((inputs, steps)) = members(value) else {
            return Err(ReadStop::WrongForm(place));
        };
        self.skip(1)?;
        let inputs = self.inputs(inputs)?;
        let steps = self.steps(steps)?;
        // The number of the next value has 32 bits, so there are no more values than such numbers.
        prove!(self.place <= u32::MAX);
        Ok((inputs, steps))
    }
}

/// The script of these steps, whose inputs have these values.
fn script_of(alloc: Global, values: &[Value], body: Seq<Step>) -> Result<Script, Memory>
    requires { length values.now ≤ 255 }
    ensures { IfOk result (λ script. sent script values.now ≡ sent_of values.now (mirror_steps body)) }
{
    let lists = list_numbers(alloc, values)?;
    Ok(Script {
        inputs: values.len() as u8,
        lists,
        body,
    })
}

/// Reads a request in JSON: a script, and the values of its inputs.
///
/// The bytes are refused exactly where they have no reading as JSON of at most 127 levels, or where the reading isn't of the form
/// that `request_of` in `specs/Requests` says; the first value that breaks it is told.
#[tactic(auto, unfolding(crate::specs::Requests::request_of, crate::specs::Requests::request_in))]
pub fn read_request(alloc: Global, bytes: &[u8]) -> Result<(Script, Seq<Value>), JsonStop>
    ensures reads { Gives (λ r. sent r.0 r.1) refusal result (request_in bytes.now) }
    // What was read can be sent in version 2: it is formed, and nests no deeper than scripts may.
    ensures formed { IfOk result (λ r. IsSendable (sent r.0 r.1)) }
{
    let json = read_json(alloc, bytes)?;
    let mut reader = Reader { alloc, place: 0 };
    let (values, body) = match reader.request(&json) {
        Ok(parts) => parts,
        Err(ReadStop::WrongForm(place)) => {
            return Err(JsonStop::Refused(JsonRefusal::WrongForm(place)));
        }
        Err(ReadStop::Memory) => return Err(JsonStop::Memory),
    };
    let script = script_of(alloc, values.as_slice(), body)?;
    Ok((script, values))
}
