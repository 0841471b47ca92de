// What operators on one operand give, and the texts of values.
#![tactic(auto, using(crate::proofs::Values::values))]

ghost use Rattle.std.specs.Prelude.{◌≡◌, true, pos, length, IfOk};
ghost use Rattle.std.specs.Fmt.{signed_decimal};
ghost use Rattle.rb_trees.specs.Outcome.{Gives};
ghost use Rattle.rb_trees.specs.declared.values.Value.{out-Value};
ghost use Rattle.rb_meaning_code.specs.Operators as rules;
ghost use Rattle.rb_engine.specs.Ends.{fault_of, WantsOnlyWhere, NeverWants};
ghost use Rattle.rb_engine.specs.Makes.{is_plain, one_makes};

use crate::ends::Failure;
use crate::faults::kind;
use crate::numbers::negated;
use rb_trees::{Memory, Seq, Shared, UnOp, Value, Word};
use std::alloc::Global;

/// A text as a value.
pub fn text_value(alloc: Global, text: Word) -> Result<Value, Memory>
    ensures { IfOk result (λ v. v ≡ Value.Text text) }
{
    Ok(Value::Text(Shared::new(alloc, text)?))
}

/// A number's decimal text.
pub fn number_text(alloc: Global, number: i64) -> Result<Word, Memory>
    ensures { IfOk result (λ text. text ≡ signed_decimal number) }
{
    let text = format!(in alloc; "{number}")?;
    Seq::from_slice(alloc, text.as_bytes())
}

/// A truth value's text.
pub fn bool_text(alloc: Global, truth: bool) -> Result<Word, Memory>
    ensures { IfOk result (λ text. text ≡ rules.bool_text truth) }
{
    if truth {
        Seq::from_slice(alloc, b"true")
    } else {
        Seq::from_slice(alloc, b"false")
    }
}

// The number of a text's bytes.
fn text_length(text: &[u8]) -> i64
    ensures { result ≡ pos (length text.now) }
{
    text.len() as i64
}

// The number of a list's items.
fn list_length(items: &[Value]) -> i64
    ensures { result ≡ pos (length items.now) }
{
    items.len() as i64
}

fn negation(alloc: Global, a: &Value) -> Result<Value, Failure>
    ensures gives { Gives (λ v. v) fault_of result (rules.negation (out-Value a.now)) }
    ensures memory { NeverWants result }
{
    match a {
        Value::Bool(truth) => Ok(Value::Bool(!*truth)),
        _ => Err(kind(alloc)),
    }
}

fn opposite(alloc: Global, a: &Value) -> Result<Value, Failure>
    ensures gives { Gives (λ v. v) fault_of result (rules.opposite (out-Value a.now)) }
    ensures memory { NeverWants result }
{
    match a {
        Value::Int(number) => Ok(Value::Int(negated(*number))),
        _ => Err(kind(alloc)),
    }
}

fn count(alloc: Global, a: &Value) -> Result<Value, Failure>
    ensures gives { Gives (λ v. v) fault_of result (rules.count (out-Value a.now)) }
    ensures memory { NeverWants result }
{
    match a {
        Value::Text(text) => Ok(Value::Int(text_length(text.get().as_slice()))),
        Value::List(items) => Ok(Value::Int(list_length(items.get().as_slice()))),
        _ => Err(kind(alloc)),
    }
}

fn as_text(alloc: Global, a: &Value) -> Result<Value, Failure>
    ensures gives { Gives (λ v. v) fault_of result (rules.as_text (out-Value a.now)) }
    ensures memory { WantsOnlyWhere (is_plain (out-Value a.now) ≡ true) result }
{
    match a {
        Value::Int(number) => Ok(text_value(alloc, number_text(alloc, *number)?)?),
        Value::Bool(truth) => Ok(text_value(alloc, bool_text(alloc, *truth)?)?),
        _ => Err(kind(alloc)),
    }
}

/// What an operator on one operand gives: `on_one`.
pub fn on_one(alloc: Global, op: UnOp, a: &Value) -> Result<Value, Failure>
    ensures gives { Gives (λ v. v) fault_of result (rules.on_one op (out-Value a.now)) }
    ensures memory { WantsOnlyWhere (one_makes op (out-Value a.now) ≡ true) result }
{
    match op {
        UnOp::Not => negation(alloc, a),
        UnOp::Neg => opposite(alloc, a),
        UnOp::Len => count(alloc, a),
        UnOp::Str => as_text(alloc, a),
    }
}
