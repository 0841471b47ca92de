// Requests as JSON.

ghost use Rattle.std.specs.Prelude.{◌≡◌, ◌≤◌, Ok, IfOk};
ghost use Rattle.rb_trees.specs.mirror.Scripts.{mirror_script};
ghost use Rattle.rb_meaning_bytes.specs.formats.FormedScripts.{FormedScript, AreInputs};
ghost use Rattle.serde_json.specs.Data.{depth};
ghost use Rattle.serde_json.specs.Read.{max_depth};
ghost use Rattle.serde_json.specs.Written.{compact_text};
ghost use Rattle.serde_json.specs.View.{view};
ghost use Rattle.rb_json.specs.Mirrors.{sent};
ghost use Rattle.rb_json.specs.Requests.{request_in};
ghost use Rattle.rb_json.specs.Writes.{request_data};

use crate::writing::replies::pair;
use crate::writing::steps::steps;
use crate::writing::values::inputs;
use rb_trees::{Memory, Script, Seq, Value};
use serde_json::Value as Json;
use std::alloc::Global;

/// A script with the values of its inputs.
fn request(alloc: Global, script: &Script, values: &[Value]) -> Result<Json, Memory>
    ensures { IfOk result (λ v. view v ≡ request_data (sent script.now values.now)) }
{
    let inputs = Json::Array(inputs(alloc, values)?);
    let steps = Json::Array(steps(alloc, script.body.as_slice())?);
    pair(alloc, "inputs", inputs, "steps", steps)
}

/// Writes a request in compact JSON: a script with the values of its inputs.
///
/// Where it is at most 127 deep, reading it gives the script and the values again.
pub fn write_request(alloc: Global, script: &Script, values: &[Value]) -> Result<Seq<u8>, Memory>
    requires formed { FormedScript (mirror_script script.now) }
    requires inputs { AreInputs (mirror_script script.now) values.now }
    ensures text { IfOk result (λ text. text ≡ compact_text (request_data (sent script.now values.now))) }
    ensures reads_back { IfOk result (λ text. depth (request_data (sent script.now values.now)) ≤ max_depth
        → request_in text ≡ Ok (sent script.now values.now)) }
{
    let value = request(alloc, script, values)?;
    Ok(Seq::from_vec(value.to_vec(alloc)?))
}
