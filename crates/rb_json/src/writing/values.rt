// Values as JSON.

ghost use Rattle.std.specs.Prelude.{◌≡◌, IfOk};
ghost use Rattle.serde_json.specs.Data.{string};
ghost use Rattle.serde_json.specs.View.{view, items_view};
ghost use Rattle.rb_json.specs.Writes.{primitive_data, primitives_data, input_data, inputs_data};

use rb_trees::{Memory, Value};
use serde_json::Value as Json;
use std::alloc::Global;

/// A text. The texts of formed trees are UTF-8; no other has a JSON value.
pub(crate) fn text(alloc: Global, bytes: &[u8]) -> Result<Json, Memory>
    ensures { IfOk result (λ v. view v ≡ string bytes.now) }
{
    let Ok(text) = str::from_utf8(bytes) else {
        return Err(Memory);
    };
    Ok(Json::try_from_str(alloc, text)?)
}

/// A primitive value.
#[tactic(auto, using(crate::proofs::Arrays::values))]
pub(crate) fn primitive(alloc: Global, value: &Value) -> Result<Json, Memory>
    ensures { IfOk result (λ v. view v ≡ primitive_data value.now) }
{
    match value {
        Value::Int(number) => Ok(Json::from(*number)),
        Value::Bool(truth) => Ok(Json::Bool(*truth)),
        Value::Text(bytes) => text(alloc, bytes.get().as_slice()),
        _ => Ok(Json::Null),
    }
}

/// Primitive values, one after another.
#[tactic(auto, using(crate::proofs::Arrays::lists))]
fn primitives(alloc: Global, values: &[Value]) -> Result<Vec<Json>, Memory>
    ensures { IfOk result (λ list. items_view list.items ≡ primitives_data values.now) }
{
    let mut list = Vec::new(alloc);
    for value in values {
        list.push(primitive(alloc, value)?)?;
    }
    Ok(list)
}

/// The value of an input, which may be a list.
#[tactic(auto, using(crate::proofs::Arrays::values))]
fn input(alloc: Global, value: &Value) -> Result<Json, Memory>
    ensures { IfOk result (λ v. view v ≡ input_data value.now) }
{
    match value {
        Value::List(items) => Ok(Json::Array(primitives(alloc, items.get().as_slice())?)),
        _ => primitive(alloc, value),
    }
}

/// The values of inputs, one after another.
#[tactic(auto, using(crate::proofs::Arrays::lists))]
pub(crate) fn inputs(alloc: Global, values: &[Value]) -> Result<Vec<Json>, Memory>
    ensures { IfOk result (λ list. items_view list.items ≡ inputs_data values.now) }
{
    let mut list = Vec::new(alloc);
    for value in values {
        list.push(input(alloc, value)?)?;
    }
    Ok(list)
}
