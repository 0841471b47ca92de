// The inputs of a batch: their values where it begins, and how many items they have.

ghost use Rattle.std.specs.Prelude.{◌≡◌, IfOk, option_map};
ghost use Rattle.rb_meaning_bytes.specs.formats.Items as items;
ghost use Rattle.rb_meaning_split.specs.Client.{input_values, value_or_unit};
ghost use Rattle.rb_trees.specs.Named.{lookup};
ghost use Rattle.rb_client.specs.Inputs.{Measures};

use rb_engine::Frame;
use rb_trees::{Memory, Seq, Value, Word, copy_value};
use std::alloc::Global;

/// The greatest number of items that the inputs of a request have together: `most_items`.
const MOST_ITEMS: usize = 1_000;

// The value of a name, as a batch takes it.
fn value_of(frame: &Frame, name: &Word) -> Result<Value, Memory>
    ensures { IfOk result (λ value. value ≡ value_or_unit (lookup frame.now name.now)) }
{
    match frame.find(name) {
        Some(value) => copy_value(value),
        None => Ok(Value::Unit),
    }
}

/// The values of inputs where a batch begins.
pub fn values_of(alloc: Global, inputs: &[Word], frame: &Frame) -> Result<Seq<Value>, Memory>
    ensures { IfOk result (λ values. values ≡ input_values inputs.now frame.now) }
{
    let mut values = Seq::new(alloc);
    'inputs: for name in inputs {
        values.push(value_of(frame, name)?)?;
    }
    Ok(values)
}

// How many items a value has.
#[tactic(auto, using(rb_trees::specs::declared::values::Value::TheViews::the_lemmas))]
fn items_in(value: &Value) -> usize
    ensures { result ≡ items.items_of value.now }
{
    match value {
        Value::List(items) => items.get().len(),
        _ => 0,
    }
}

// How many items the value of a name has, as a batch takes it.
fn items_of(frame: &Frame, name: &Word) -> usize
    ensures { result ≡ items.items_of (value_or_unit (lookup frame.now name.now)) }
{
    match frame.find(name) {
        Some(value) => items_in(value),
        None => 0,
    }
}

/// How many items each of some inputs has where a batch begins. Nothing is told where they have more together than a request may
/// have.
pub fn lengths_of(alloc: Global, inputs: &[Word], frame: &Frame) -> Result<Option<Vec<u32>>, Memory>
    ensures { IfOk result (λ counts. Measures inputs.now frame.now (option_map (λ v. v.items) counts)) }
{
    let mut counts = Vec::new(alloc);
    let mut room = MOST_ITEMS;
    'inputs: for name in inputs {
        let count = items_of(frame, name);
        if count > room {
            return Ok(None);
        }
        counts.push(count as u32)?;
        room -= count;
    }
    Ok(Some(counts))
}
