// Values: literals, and the values of inputs.

ghost use Rattle.std.specs.Prelude.{◌≡◌, ◌≤◌, length, IfOk};
ghost use Rattle.rb_meaning_bytes.specs.formats.Items.{items_of, list_numbers, most_items};
ghost use Rattle.rb_meaning_bytes.specs.formats.Staged.{same};
ghost use Rattle.rb_meaning_bytes.specs.formats.Values as plain;
ghost use Rattle.rb_trees.specs.Outcome.{Gives};
ghost use Rattle.rb_wire_fields.specs.Stops.{told, fault_of};
ghost use Rattle.rb_wire_script.specs.Parts as parts;
ghost use Rattle.rb_wire_script.specs.Parts.{reads};
ghost use Rattle.rb_wire_script.specs.Stops.{at_place};

use crate::lists::fitted;
use crate::pools::{Place, Pool, text};
use rb_trees::{Memory, Seq, Shared, Value, Version};
use rb_wire_fields::fields::{bad_tag, byte, integer, refused, truth};
use rb_wire_fields::groups::short;
use rb_wire_fields::stop::{Stop, TOO_MANY_ITEMS, Violation};
use std::alloc::Global;

/// The greatest number of items of a script's inputs together.
const MOST_ITEMS: usize = 1_000;

#[tactic(auto, using(crate::proofs::Equations::parts), unfolding(rb_meaning_bytes::specs::formats::Reading::read))]
fn int_value<'a>(pool: &Pool, from: Place<'a>) -> Result<(Value, Place<'a>), Violation>
    ensures { Gives at_place told result (reads (same (plain.int_value pool.now.version)) from.entry) }
{
    let (number, bytes) = integer(pool.version, from.bytes)?;
    let used = from.used;
    Ok((Value::Int(number), Place { used, bytes }))
}

#[tactic(auto, using(crate::proofs::Equations::parts), unfolding(rb_meaning_bytes::specs::formats::Reading::read))]
fn bool_value<'a>(from: Place<'a>) -> Result<(Value, Place<'a>), Violation>
    ensures { Gives at_place told result (reads (same plain.bool_value) from.entry) }
{
    let (truth, bytes) = truth(from.bytes)?;
    let used = from.used;
    Ok((Value::Bool(truth), Place { used, bytes }))
}

#[tactic(auto, using(crate::proofs::Equations::parts), unfolding(rb_meaning_bytes::specs::formats::Reading::read))]
fn text_value<'a>(alloc: Global, pool: &Pool, from: Place<'a>) -> Result<(Value, Place<'a>), Stop>
    ensures { Gives at_place fault_of result (reads (parts.text_value pool.now) from.entry) }
{
    let (text, behind) = text(alloc, pool, from)?;
    Ok((Value::Text(text), behind))
}

/// A primitive value.
#[tactic(auto, using(crate::proofs::Equations::values))]
pub(crate) fn value<'a>(
    alloc: Global,
    pool: &Pool,
    from: Place<'a>,
) -> Result<(Value, Place<'a>), Stop>
    ensures { Gives at_place fault_of result (reads (parts.value pool.now) from.entry) }
{
    let (tag, bytes) = byte(from.bytes)?;
    let used = from.used;
    match tag {
        0x01 => Ok(int_value(pool, Place { used, bytes })?),
        0x02 => Ok(bool_value(Place { used, bytes })?),
        0x03 => text_value(alloc, pool, Place { used, bytes }),
        _ => Err(Stop::from(bad_tag(bytes))),
    }
}

/// So many primitive values.
#[tactic(auto, using(crate::proofs::Stages::lists))]
fn values<'a>(
    alloc: Global,
    pool: &Pool,
    count: u32,
    from: Place<'a>,
) -> Result<(Seq<Value>, Place<'a>), Stop>
    ensures { Gives at_place fault_of result (reads (parts.values pool.now count) from.entry) }
{
    let mut items = Seq::new(alloc);
    let mut place = from;
    for _ in 0..count {
        let (item, behind) = value(alloc, pool, place)?;
        items.push(item)?;
        place = behind;
    }
    Ok((fitted(items), place))
}

/// A list, where there is room for so many items.
#[tactic(auto, using(crate::proofs::Equations::parts), unfolding(rb_meaning_bytes::specs::formats::Reading::read))]
fn list_value<'a>(
    alloc: Global,
    pool: &Pool,
    room: usize,
    from: Place<'a>,
) -> Result<(Value, Place<'a>), Stop>
    ensures { Gives at_place fault_of result (reads (parts.list_value pool.now room) from.entry) }
{
    let (count, bytes) = short(from.bytes)?;
    if count as usize > room {
        return Err(Stop::from(refused(TOO_MANY_ITEMS, from.bytes)));
    }
    let used = from.used;
    let (items, behind) = values(alloc, pool, count, Place { used, bytes })?;
    Ok((Value::List(Shared::new(alloc, items)?), behind))
}

/// The value of an input, where there is room for so many items.
#[tactic(auto, using(crate::proofs::Equations::values))]
fn input_value<'a>(
    alloc: Global,
    pool: &Pool,
    room: usize,
    from: Place<'a>,
) -> Result<(Value, Place<'a>), Stop>
    ensures { Gives at_place fault_of result (reads (parts.input_value pool.now room) from.entry) }
{
    let (tag, bytes) = byte(from.bytes)?;
    let used = from.used;
    match tag {
        0x01 => Ok(int_value(pool, Place { used, bytes })?),
        0x02 => Ok(bool_value(Place { used, bytes })?),
        0x03 => text_value(alloc, pool, Place { used, bytes }),
        0x04 => match pool.version {
            Version::One => Err(Stop::from(bad_tag(bytes))),
            Version::Two => list_value(alloc, pool, room, Place { used, bytes }),
        },
        _ => Err(Stop::from(bad_tag(bytes))),
    }
}

/// How many items a value has.
#[tactic(auto, using(rb_trees::specs::declared::values::Value::TheViews::the_lemmas))]
fn items_of(value: &Value) -> usize
    ensures { result ≡ items_of value.now }
{
    match value {
        Value::List(items) => items.get().len(),
        _ => 0,
    }
}

/// The values of so many inputs.
#[tactic(auto, using(crate::proofs::Inputs::inputs))]
pub(crate) fn input_values<'a>(
    alloc: Global,
    pool: &Pool,
    count: u8,
    from: Place<'a>,
) -> Result<(Seq<Value>, Place<'a>), Stop>
    ensures gives { Gives at_place fault_of result (reads (parts.input_values pool.now most_items count) from.entry) }
    ensures count { IfOk result (λ x. length x.0 ≡ count) }
{
    let mut items = Seq::new(alloc);
    let mut place = from;
    let mut room = MOST_ITEMS;
    for _ in 0..count {
        let (item, behind) = input_value(alloc, pool, room, place)?;
        room = room.saturating_sub(items_of(&item));
        items.push(item)?;
        place = behind;
    }
    Ok((items, place))
}

/// The numbers of the inputs whose values are lists.
#[tactic(auto, using(crate::proofs::Inputs::numbers))]
pub(crate) fn list_numbers(alloc: Global, values: &[Value]) -> Result<Seq<u8>, Memory>
    requires { length values.now ≤ 255 }
    ensures { IfOk result (λ numbers. numbers ≡ list_numbers 0 values.now) }
{
    let mut numbers = Seq::new(alloc);
    let mut number: u8 = 0;
    for value in values {
        match value {
            Value::List(_) => numbers.push(number)?,
            _ => {}
        }
        number += 1;
    }
    Ok(numbers)
}
