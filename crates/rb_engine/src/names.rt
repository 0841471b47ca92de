// Names and conditions: what is read of them, and what is written.
#![tactic(auto, using(crate::proofs::Known::known_steps))]

ghost use Rattle.std.specs.Prelude.{◌≡◌, [], ◌∷◌, ◌++◌, OnErr};
ghost use Rattle.rb_trees.specs.Outcome.{Gives};
ghost use Rattle.rb_trees.specs.declared.values.Value.{out-Value};
ghost use Rattle.rb_meaning_code.specs.Expressions as rules;
ghost use Rattle.rb_meaning_code.specs.State.{this_name};
ghost use Rattle.rb_meaning_code.specs.Statements as statements;
ghost use Rattle.rb_engine.specs.Ends.{fault_of, GivesAt, UnlessMemory};

use crate::ends::{End, Failure, lift};
use crate::faults::kind;
use crate::frame::Frame;
use rb_trees::{Seq, Value, Word, copy_value};
use std::alloc::Global;

/// A copy of a value, which costs nothing.
#[inline(never)]
pub fn copied<X>(value: &Value) -> Result<Value, End<X>>
    ensures { UnlessMemory result (λ v. v ≡ value.now) }
{
    match copy_value(value) {
        Ok(copy) => Ok(copy),
        Err(_) => Err(End::NoMemory),
    }
}

/// Adds a value at the end.
#[inline]
pub fn add<X>(values: &mut Seq<Value>, value: Value) -> Result<(), End<X>>
    ensures { UnlessMemory result (λ u. values.new ≡ values.old ++ value ∷ []) }
{
    match values.push(value) {
        Ok(()) => Ok(()),
        Err(_) => Err(End::NoMemory),
    }
}

// The value of a name in scope: `value_of`.
fn found_value(alloc: Global, frame: &Frame, name: &Word) -> Result<Value, Failure>
    ensures { Gives (λ v. v) fault_of result (rules.value_of frame.now name.now) }
{
    match frame.find(name) {
        Some(value) => Ok(copy_value(value)?),
        None => Err(kind(alloc)),
    }
}

/// The value of a name in scope, at a position: `value_of`.
#[inline(never)]
pub fn named_value<X>(alloc: Global, frame: &Frame, at: u32, name: &Word) -> Result<Value, End<X>>
    ensures { GivesAt (λ v. v) at result (rules.value_of frame.now name.now) }
{
    lift(at, found_value(alloc, frame, name))
}

// The value of `this`: `value_of`.
fn found_this(alloc: Global, frame: &Frame) -> Result<Value, Failure>
    ensures { Gives (λ v. v) fault_of result (rules.value_of frame.now this_name) }
{
    match frame.this() {
        Some(value) => Ok(copy_value(value)?),
        None => Err(kind(alloc)),
    }
}

/// The value of `this`, at a position: `value_of`.
#[inline(never)]
pub fn this_value<X>(alloc: Global, frame: &Frame, at: u32) -> Result<Value, End<X>>
    ensures { GivesAt (λ v. v) at result (rules.value_of frame.now this_name) }
{
    lift(at, found_this(alloc, frame))
}

/// Binds a name to a value.
#[inline(never)]
pub fn bind<X>(alloc: Global, frame: &mut Frame, name: &Word, value: Value) -> Result<(), End<X>>
    ensures { UnlessMemory result (λ u. frame.new ≡ frame.old ++ (name.now, value) ∷ []) }
{
    match frame.bind(alloc, name.as_slice(), value) {
        Ok(()) => Ok(()),
        Err(_) => Err(End::NoMemory),
    }
}

/// Binds a name to a copy of a value.
#[inline(never)]
pub fn bind_copy<X>(
    alloc: Global,
    frame: &mut Frame,
    name: &Word,
    value: &Value,
) -> Result<(), End<X>>
    ensures { UnlessMemory result (λ u. frame.new ≡ frame.old ++ (name.now, value.now) ∷ []) }
{
    match copy_value(value) {
        Ok(copy) => bind(alloc, frame, name, copy),
        Err(_) => Err(End::NoMemory),
    }
}

/// Gives a name another value: `assigned`. After an error the names are as they were.
#[inline]
pub fn set_name(alloc: Global, frame: &mut Frame, name: &Word, value: Value) -> Result<(), Failure>
    ensures gives { Gives (λ u. frame.new) fault_of result (statements.assigned frame.old name.now value) }
    ensures kept { OnErr result (frame.new ≡ frame.old) }
{
    match frame.set(name, value) {
        Ok(()) => Ok(()),
        Err(_value) => Err(kind(alloc)),
    }
}
