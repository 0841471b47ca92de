// A name that gets the sum of its own value and another, where it stands: `x = x + 1`.
#![tactic(auto, using(crate::proofs::Values::values))]

ghost use Rattle.std.specs.Prelude.{◌≡◌, OnErr, IfSome};
ghost use Rattle.rb_trees.specs.Outcome.{Gives};
ghost use Rattle.rb_trees.specs.declared.values.Value.{out-Value};
ghost use Rattle.rb_trees.specs.mirror.Code.{mirror_expr};
ghost use Rattle.rb_meaning_code.specs.Operators as rules;
ghost use Rattle.rb_engine.specs.Ends.{fault_of};
ghost use Rattle.rb_engine.specs.Sums.{AddsTo};

use crate::ends::Failure;
use crate::faults::{kind, list_too_long, text_too_long};
use crate::frame::Frame;
use crate::numbers::sum;
use crate::pairs::{all_values, append_values, one_after_the_other};
use rb_trees::limits::{LONGEST_LIST, LONGEST_TEXT};
use rb_trees::{BinOp, Expr, ExprForm, Seq, Shared, Value, Word};
use std::alloc::Global;

/// Where an expression adds to the value of this name, which is in scope: the name's place, and what is added. None says
/// nothing of the expression.
#[inline]
pub fn sum_onto<'a>(frame: &Frame, name: &Word, right: &'a Expr) -> Option<(usize, &'a Expr)>
    ensures { IfSome result (λ sum. AddsTo frame.now name.now right.now sum.0 (mirror_expr sum.1.now)) }
{
    let ExprForm::Binary(op, start, end) = &right.form else {
        return None;
    };
    let BinOp::Add = op else {
        return None;
    };
    let ExprForm::Name(first) = &start.get().form else {
        return None;
    };
    if first.as_slice() != name.as_slice() {
        return None;
    }
    match frame.place_of(name) {
        Some(place) => Some((place, end.get())),
        None => None,
    }
}

// Adds to a text, where it stands if it has no other owner.
fn add_text(alloc: Global, text: &mut Shared<Word>, end: &Word) -> Result<(), Failure>
    ensures gives { Gives (λ u. Value.Text text.new) fault_of result (rules.joined_text text.old end.now) }
    ensures kept { OnErr result (text.new ≡ text.old) }
{
    let length = text.get().len();
    if length > LONGEST_TEXT || end.len() > LONGEST_TEXT - length {
        return Err(text_too_long(alloc));
    }
    match text.get_mut() {
        Some(own) => {
            own.extend_from_slice(end.as_slice())?;
            Ok(())
        }
        None => {
            let sum = one_after_the_other(alloc, text.get().as_slice(), end.as_slice())?;
            *text = Shared::new(alloc, sum)?;
            Ok(())
        }
    }
}

// Adds to a list, where it stands if it has no other owner.
fn add_items(alloc: Global, list: &mut Shared<Seq<Value>>, end: &Seq<Value>) -> Result<(), Failure>
    ensures gives { Gives (λ u. Value.List list.new) fault_of result (rules.joined_list list.old end.now) }
    ensures kept { OnErr result (list.new ≡ list.old) }
{
    let length = list.get().len();
    if length > LONGEST_LIST || end.len() > LONGEST_LIST - length {
        return Err(list_too_long(alloc));
    }
    match list.get_mut() {
        Some(own) => {
            append_values(own, end.as_slice())?;
            Ok(())
        }
        None => {
            let sum = all_values(alloc, list.get().as_slice(), end.as_slice())?;
            *list = Shared::new(alloc, sum)?;
            Ok(())
        }
    }
}

/// Adds to a value, where it stands if it has no other owner: `plus`. After an error it is as it was.
pub fn add_value(alloc: Global, own: &mut Value, end: &Value) -> Result<(), Failure>
    ensures gives { Gives (λ u. own.new) fault_of result (rules.plus (out-Value own.old) (out-Value end.now)) }
    ensures kept { OnErr result (own.new ≡ own.old) }
{
    match own {
        Value::Int(number) => match end {
            Value::Int(more) => {
                *number = sum(*number, *more);
                Ok(())
            }
            _ => Err(kind(alloc)),
        },
        Value::Text(text) => match end {
            Value::Text(more) => add_text(alloc, text, more.get()),
            _ => Err(kind(alloc)),
        },
        Value::List(list) => match end {
            Value::List(more) => add_items(alloc, list, more.get()),
            _ => Err(kind(alloc)),
        },
        _ => Err(kind(alloc)),
    }
}
