// Values as literals.

ghost use Rattle.std.specs.Prelude.{◌++◌, map, codes};
ghost use Rattle.rb_meaning.specs.Shown.{literal, listed};
ghost use Rattle.rb_shown.specs.Appends.{Appends};

use crate::primitives::{add_bool, add_int, add_reference, add_text};
use rb_trees::{Memory, Value, Word};
use std::alloc::Global;

/// Adds a value as a literal: `literal`. Unit, remote objects and rows have none and add nothing.
///
/// After an error a front of the literal may have been added.
#[cycle(literals)]
#[tactic(auto, using(crate::proofs::ValueForms::literals))]
pub fn add_literal(alloc: Global, value: &Value, into: &mut Word) -> Result<(), Memory>
    ensures { Appends (literal value.now) into.old result into.new }
{
    match value {
        Value::Int(number) => add_int(alloc, *number, into),
        Value::Bool(truth) => add_bool(*truth, into),
        Value::Text(text) => add_text(text.get().as_slice(), into),
        Value::List(items) => add_list(alloc, items.get().as_slice(), into),
        Value::Ref(object) => add_reference(alloc, *object, into),
        Value::Unit | Value::Remote(_) | Value::Rows(_) => Ok(()),
    }
}

// Adds the literals of a list in brackets, with commas between them.
#[cycle(literals)]
#[tactic(auto, using(crate::proofs::ValueForms::literals))]
fn add_list(alloc: Global, items: &[Value], into: &mut Word) -> Result<(), Memory>
    ensures { Appends (codes "[" ++ listed (map literal items.now) ++ codes "]") into.old result into.new }
{
    into.push(b'[')?;
    let mut is_first = true;
    for item in items {
        if !is_first {
            into.extend_from_slice(b", ")?;
        }
        add_literal(alloc, item, into)?;
        is_first = false;
    }
    into.push(b']')
}
