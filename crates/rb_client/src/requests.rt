// The request of a batch: its script with the values of its inputs.

ghost use Rattle.std.specs.Prelude.{◌≡◌, length, false, FitsSigned, IfOk, IsTrue};
ghost use Rattle.std.specs.Int.{w64};
ghost use Rattle.std.specs.Str.{is_utf8};
ghost use Rattle.rb_meaning_split.specs.Division.{mirror_split};
ghost use Rattle.rb_meaning_bytes.specs.formats.FormedScripts.{ArePrimitive, IsPrimitive, input_form, list_form};
ghost use Rattle.rb_trees.specs.Validity.{has};
ghost use Rattle.rb_trees.specs.declared.values.Value.{out-Value};
ghost use Rattle.rb_client.specs.Exchanges.{CanBeSent};
ghost use Rattle.rb_client.specs.Inputs.{exceed};
ghost use Rattle.rb_client.specs.Requests.{AreFor, IsRequest};

use crate::inputs::values_of;
use bytes::BytesMut;
use rb_engine::Frame;
use rb_trees::limits::LONGEST_TEXT;
use rb_trees::{Memory, Split, Value, Version};
use rb_wire_script::encode_script;
use std::alloc::Global;
use std::str;

/// The version in which requests are sent: `sent_version`.
const SENT: Version = Version::Two;

/// The greatest number of bytes of a request: `longest_request`.
const LONGEST_REQUEST: usize = 16_777_216;

// Whether the bytes are UTF-8.
#[tactic(auto, using(crate::proofs::Utf8::not_utf8, crate::proofs::Utf8::utf8))]
fn is_text(bytes: &[u8]) -> bool
    ensures { result ≡ is_utf8 bytes.now }
{
    match str::from_utf8(bytes) {
        Ok(_) => true,
        Err(_) => false,
    }
}

// Whether a number has 64 bits, as each has.
fn is_wide(number: i64) -> bool
    ensures { IsTrue result → FitsSigned w64 number }
{
    number >= i64::MIN
}

// Whether a value can be sent for an input that is no list.
fn is_primitive(value: &Value) -> bool
    ensures { IsTrue result → IsPrimitive value.now }
{
    match value {
        Value::Int(number) => is_wide(*number),
        Value::Bool(_) => true,
        Value::Text(text) => {
            let bytes = text.get().as_slice();
            bytes.len() <= LONGEST_TEXT && is_text(bytes)
        }
        _ => false,
    }
}

// Whether values can be sent.
fn are_primitive(values: &[Value]) -> bool
    ensures { IsTrue result → ArePrimitive values.now }
{
    'values: for value in values {
        if !is_primitive(value) {
            return false;
        }
    }
    true
}

// Whether a value can be sent for an input that is a list.
fn is_list(value: &Value) -> bool
    ensures { IsTrue result → list_form (out-Value value.now) }
{
    match value {
        Value::List(items) => are_primitive(items.get().as_slice()),
        _ => false,
    }
}

// Whether a value can be sent for an input, which is a list or not.
fn is_input(value: &Value, listed: bool) -> bool
    ensures { IsTrue result → input_form listed (out-Value value.now) }
{
    if listed {
        return is_list(value);
    }
    is_primitive(value)
}

// Whether a number is among some.
fn is_among(numbers: &[u8], number: usize) -> bool
    ensures { result ≡ has number numbers.now }
{
    'numbers: for each in numbers {
        if *each as usize == number {
            return true;
        }
    }
    false
}

// Whether values can be sent for inputs, of which those with these numbers are lists.
fn are_inputs(values: &[Value], lists: &[u8]) -> bool
    ensures { IsTrue result → AreFor 0 lists.now values.now }
{
    let mut number: usize = 0;
    'values: for value in values {
        if !is_input(value, is_among(lists, number)) {
            return false;
        }
        number += 1;
    }
    true
}

/// The request of a batch where these names are in scope, whose inputs don't have too many items. Values that can't be sent, as
/// none of an accepted program is, end it as want of memory does, and so does a request that would be too long.
pub fn request_of(alloc: Global, split: &Split, frame: &Frame) -> Result<BytesMut, Memory>
    requires sent { CanBeSent (mirror_split split.now).script }
    requires counted { (mirror_split split.now).script.inputs ≡ length split.now.inputs }
    requires few { exceed split.now.inputs frame.now ≡ false }
    ensures { IfOk result (λ request. IsRequest split.now frame.now request.items) }
{
    let values = values_of(alloc, split.inputs.as_slice(), frame)?;
    if !are_inputs(values.as_slice(), split.script.lists.as_slice()) {
        return Err(Memory);
    }
    let mut request = BytesMut::new(alloc);
    encode_script(SENT, &split.script, values.as_slice(), &mut request)?;
    if request.len() > LONGEST_REQUEST {
        return Err(Memory);
    }
    Ok(request)
}
