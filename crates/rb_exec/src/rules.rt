// The rules of steps and of what they look up: a value or the fault that a rule says.

ghost use Rattle.std.specs.Prelude.{◌≡◌, slice_get};
ghost use Rattle.std.specs.Option.{option_copied};
ghost use Rattle.rb_trees.specs.Outcome.{Gives, known};
ghost use Rattle.rb_trees.specs.declared.values.Value.{out-Value};
ghost use Rattle.rb_engine.specs.Ends.{fault_of};
ghost use Rattle.rb_engine.specs.declared.ends.Failure.TheVariants as failure;
ghost use Rattle.rb_meaning_code.specs.Faults as faults;
ghost use Rattle.rb_meaning_code.specs.Remote as remote;
ghost use Rattle.rb_meaning_code.specs.ScriptRun as meant;
ghost use Rattle.rb_exec.specs.Stages as stages;

use crate::variables::Variables;
use rb_engine::{Failure, PlainFault};
use rb_trees::{Fault, Seq, Shared, Value, copy_value, fault_codes};
use std::alloc::Global;

// The fault Kind.
fn kind(alloc: Global) -> Failure
    ensures { result ≡ failure.Fault faults.kind }
{
    Failure::Fault(PlainFault::of(alloc, fault_codes::KIND))
}

/// The fault of a turn that finds no unit of fuel.
pub fn fuel_used(alloc: Global) -> Fault
    ensures { result ≡ faults.fuel_used }
{
    Fault {
        code: fault_codes::FUEL_USED,
        text: Seq::new(alloc),
    }
}

/// The value of an input, which has to be there.
#[inline(always)]
pub fn input(alloc: Global, inputs: &[Value], number: u8) -> Result<Value, Failure>
    ensures { Gives (λ v. v) fault_of result (known faults.kind (slice_get inputs.now number)) }
{
    match inputs.get(number as usize) {
        Some(value) => Ok(copy_value(value)?),
        None => Err(kind(alloc)),
    }
}

/// The latest value of a variable, which has to be bound.
#[inline(always)]
pub fn variable(alloc: Global, variables: &Variables, number: u32) -> Result<Value, Failure>
    ensures { Gives (λ v. v) fault_of result (known faults.kind (meant.latest variables.now number)) }
{
    match variables.find(number) {
        Some(value) => Ok(copy_value(value)?),
        None => Err(kind(alloc)),
    }
}

// Whether a value is primitive: `is_primitive`.
#[tactic(auto, using(rb_engine::proofs::Values::values))]
fn is_primitive(value: &Value) -> bool
    ensures { result ≡ meant.is_primitive (out-Value value.now) }
{
    match value {
        Value::Int(_) => true,
        Value::Bool(_) => true,
        Value::Text(_) => true,
        _ => false,
    }
}

/// A value that is kept has to be primitive: `may_keep`.
#[inline]
pub fn may_keep(alloc: Global, keep: bool, value: &Value) -> Result<(), Failure>
    ensures { Gives (λ u. u) fault_of result (meant.may_keep keep value.now) }
{
    if keep && !is_primitive(value) {
        return Err(kind(alloc));
    }
    Ok(())
}

/// The rows of a value: `rows_in`.
#[inline(never)]
#[tactic(auto, using(rb_engine::proofs::Values::values))]
pub fn rows_in(alloc: Global, value: &Value) -> Result<Shared<Seq<Value>>, Failure>
    ensures { Gives (λ rows. rows) fault_of result (remote.rows_in (out-Value value.now)) }
{
    match value {
        Value::Rows(rows) => Ok(rows.share()?),
        _ => Err(kind(alloc)),
    }
}

// The items of a value that is a list: `items_in`.
#[tactic(auto, using(rb_engine::proofs::Values::values))]
fn items_in(alloc: Global, value: &Value) -> Result<Shared<Seq<Value>>, Failure>
    ensures { Gives (λ items. items) fault_of result (meant.items_in (out-Value value.now)) }
{
    match value {
        Value::List(items) => Ok(items.share()?),
        _ => Err(kind(alloc)),
    }
}

/// The items of an input, which has to be there and a list.
#[inline(never)]
pub fn input_items(
    alloc: Global,
    inputs: &[Value],
    number: u8,
) -> Result<Shared<Seq<Value>>, Failure>
    ensures { Gives (λ items. items) fault_of result (stages.input_items inputs.now number) }
{
    match inputs.get(number as usize) {
        Some(value) => items_in(alloc, value),
        None => Err(kind(alloc)),
    }
}

/// A value that is kept, or none.
pub fn if_kept(keep: bool, value: &Value) -> Option<&Value>
    ensures { option_copied result ≡ stages.if_kept keep value.now }
{
    if keep { Some(value) } else { None }
}
