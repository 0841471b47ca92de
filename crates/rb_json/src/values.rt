// Values in JSON.

ghost use Rattle.std.specs.Prelude.{◌≡◌, ◌≤◌, ◌+◌, length, IfOk, OnOk};
ghost use Rattle.rb_trees.specs.Outcome.{Gives};
ghost use Rattle.rb_meaning_bytes.specs.formats.Items.{items_of, most_items};
ghost use Rattle.serde_json.specs.View.{view, items_view};
ghost use Rattle.rb_json.specs.Counts.{count, count_items};
ghost use Rattle.rb_json.specs.Values.{value_at, values_in, input_at, inputs_in, inputs_at, name_at};
ghost use Rattle.rb_json.specs.Stops.{wrong};

use crate::names::is_name;
use crate::reader::Reader;
use crate::stops::ReadStop;
use rb_trees::limits::LONGEST_TEXT;
use rb_trees::{Seq, Shared, Value, Word};
use serde_json::Value as Json;

/// The greatest number of items of a script's inputs together.
const MOST_ITEMS: usize = 1_000;

/// The greatest number of inputs of a script.
const MOST_INPUTS: usize = 255;

/// How many items a value has.
#[tactic(auto, using(rb_trees::specs::declared::values::Value::TheViews::the_lemmas))]
fn items_of(value: &Value) -> usize
    ensures { result ≡ items_of value.now }
{
    match value {
        Value::List(items) => items.get().len(),
        _ => 0,
    }
}

impl Reader {
    /// A name.
    #[tactic(auto, using(crate::proofs::Looks::texts))]
    pub(crate) fn name(&mut self, value: &Json) -> Result<Shared<Word>, ReadStop>
        ensures reads { Gives (λ name. name) wrong result (name_at self.old.place (view value.now)) }
        ensures next { OnOk result (self.new.place ≡ self.old.place + count (view value.now)) }
    {
        let place = self.take()?;
        let Some(text) = value.as_str() else {
            return Err(ReadStop::WrongForm(place));
        };
        let bytes = text.as_bytes();
        if !is_name(bytes) || bytes.len() > 4_294_967_295 {
            return Err(ReadStop::WrongForm(place));
        }
        let name = Seq::from_slice(self.alloc, bytes)?;
        Ok(Shared::new(self.alloc, name)?)
    }

    /// A whole number of 64 bits, a truth value, or a text of at most 4,096 bytes.
    #[tactic(auto, using(crate::proofs::Looks::values))]
    pub(crate) fn value(&mut self, value: &Json) -> Result<Value, ReadStop>
        ensures reads { Gives (λ v. v) wrong result (value_at self.old.place (view value.now)) }
        ensures next { OnOk result (self.new.place ≡ self.old.place + count (view value.now)) }
        ensures none { IfOk result (λ v. items_of v ≡ 0) }
    {
        let place = self.take()?;
        if let Some(number) = value.as_number() {
            return match number.as_i64() {
                Some(whole) => Ok(Value::Int(whole)),
                None => Err(ReadStop::WrongForm(place)),
            };
        }
        if let Some(truth) = value.as_bool() {
            return Ok(Value::Bool(truth));
        }
        let Some(text) = value.as_str() else {
            return Err(ReadStop::WrongForm(place));
        };
        if text.len() > LONGEST_TEXT {
            return Err(ReadStop::WrongForm(place));
        }
        let bytes = Seq::from_slice(self.alloc, text.as_bytes())?;
        Ok(Value::Text(Shared::new(self.alloc, bytes)?))
    }

    /// Values one after another.
    #[tactic(auto, using(crate::proofs::Looks::lists))]
    fn values(&mut self, items: &[Json]) -> Result<Seq<Value>, ReadStop>
        ensures reads { Gives (λ vs. vs) wrong result (values_in self.old.place (items_view items.now)) }
        ensures next { OnOk result (self.new.place ≡ self.old.place + count_items (items_view items.now)) }
        ensures each { IfOk result (λ vs. length vs ≡ length items.now) }
    {
        let mut values = Seq::new(self.alloc);
        for item in items {
            let value = self.value(item)?;
            values.push(value)?;
        }
        Ok(values)
    }

    /// The value of an input, where the lists before it have so many items.
    #[tactic(auto, using(crate::proofs::Looks::inputs))]
    fn input_value(&mut self, used: usize, value: &Json) -> Result<Value, ReadStop>
        requires { used ≤ most_items }
        ensures reads { Gives (λ v. v) wrong result (input_at self.old.place used (view value.now)) }
        ensures next { OnOk result (self.new.place ≡ self.old.place + count (view value.now)) }
        ensures within { IfOk result (λ v. used + items_of v ≤ most_items) }
    {
        let Some(items) = value.as_array() else {
            return self.value(value);
        };
        let place = self.take()?;
        if items.len() > MOST_ITEMS - used {
            return Err(ReadStop::WrongForm(place));
        }
        let values = self.values(items.as_slice())?;
        Ok(Value::List(Shared::new(self.alloc, values)?))
    }

    /// The values of inputs, one after another.
    #[tactic(auto, using(crate::proofs::Looks::lists))]
    fn input_values(&mut self, items: &[Json]) -> Result<Seq<Value>, ReadStop>
        ensures reads { Gives (λ vs. vs) wrong result (inputs_in self.old.place 0 (items_view items.now)) }
        ensures next { OnOk result (self.new.place ≡ self.old.place + count_items (items_view items.now)) }
        ensures each { IfOk result (λ vs. length vs ≡ length items.now) }
    {
        let mut used = 0;
        let mut values = Seq::new(self.alloc);
        for item in items {
            let value = self.input_value(used, item)?;
            used += items_of(&value);
            values.push(value)?;
        }
        Ok(values)
    }

    /// The values of all inputs.
    #[tactic(auto, using(crate::proofs::Looks::inputs))]
    pub(crate) fn inputs(&mut self, value: &Json) -> Result<Seq<Value>, ReadStop>
        ensures reads { Gives (λ vs. vs) wrong result (inputs_at self.old.place (view value.now)) }
        ensures next { OnOk result (self.new.place ≡ self.old.place + count (view value.now)) }
        ensures few { IfOk result (λ vs. length vs ≤ 255) }
    {
        let place = self.take()?;
        let Some(items) = value.as_array() else {
            return Err(ReadStop::WrongForm(place));
        };
        if items.len() > MOST_INPUTS {
            return Err(ReadStop::WrongForm(place));
        }
        self.input_values(items.as_slice())
    }
}
