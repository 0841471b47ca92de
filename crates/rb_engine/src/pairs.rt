// What operators on two operands give.
#![tactic(auto, using(crate::proofs::Values::values))]

ghost use Rattle.std.specs.Prelude.{◌≡◌, ◌+◌, ◌≤◌, ◌++◌, true, length, take, IfOk, OnOk, OnErr};
ghost use Rattle.rb_trees.specs.Outcome.{Gives};
ghost use Rattle.rb_trees.specs.Limits.{longest_text};
ghost use Rattle.rb_trees.specs.declared.values.Value.{out-Value};
ghost use Rattle.rb_meaning_code.specs.Expressions as places;
ghost use Rattle.rb_meaning_code.specs.Operators as rules;
ghost use Rattle.rb_engine.specs.Ends.{fault_of, WantsOnlyWhere, NeverWants};
ghost use Rattle.rb_engine.specs.Makes.{are_joined, two_make};
ghost use Rattle.rb_engine.specs.Numbers.{both_numbers, number_rule, truth_rule};

use crate::ends::Failure;
use crate::faults::{division_by_zero, index_outside, kind, list_too_long, text_too_long};
use crate::numbers::{difference, product, sum};
use crate::operators::text_value;
use rb_trees::limits::{LONGEST_LIST, LONGEST_TEXT};
use rb_trees::{BinOp, Memory, Seq, Shared, Value, Word, copy_value};
use std::alloc::Global;

/// Bytes and then others, in memory that is asked for once.
pub fn one_after_the_other(alloc: Global, a: &[u8], b: &[u8]) -> Result<Word, Memory>
    requires { length a.now + length b.now ≤ longest_text }
    ensures { IfOk result (λ text. text ≡ a.now ++ b.now) }
{
    let mut text = Vec::with_capacity(alloc, a.len() + b.len())?;
    text.extend_from_slice(a)?;
    text.extend_from_slice(b)?;
    Ok(Seq::from_vec(text))
}

// A text and then another, within the limit.
fn joined_text(alloc: Global, a: &Word, b: &Word) -> Result<Value, Failure>
    ensures { Gives (λ v. v) fault_of result (rules.joined_text a.now b.now) }
{
    if a.len() > LONGEST_TEXT || b.len() > LONGEST_TEXT - a.len() {
        return Err(text_too_long(alloc));
    }
    let text = one_after_the_other(alloc, a.as_slice(), b.as_slice())?;
    Ok(text_value(alloc, text)?)
}

// Adds copies of values at the end, or the first of them where memory runs out.
fn push_values(list: &mut Seq<Value>, values: &[Value]) -> Result<(), Memory>
    ensures ok { OnOk result (list.new ≡ list.old ++ values.now) }
    ensures err { OnErr result (take (length list.old) list.new ≡ list.old) }
{
    for value in values {
        list.push(copy_value(value)?)?;
    }
    Ok(())
}

/// Adds copies of values at the end. After an error nothing changed.
pub fn append_values(list: &mut Seq<Value>, values: &[Value]) -> Result<(), Memory>
    ensures ok { OnOk result (list.new ≡ list.old ++ values.now) }
    ensures err { OnErr result (list.new ≡ list.old) }
{
    let count = list.len();
    match push_values(list, values) {
        Ok(()) => Ok(()),
        Err(error) => {
            list.truncate(count);
            Err(error)
        }
    }
}

/// Copies of values and then of others.
pub fn all_values(alloc: Global, a: &[Value], b: &[Value]) -> Result<Seq<Value>, Memory>
    ensures { IfOk result (λ list. list ≡ a.now ++ b.now) }
{
    let mut list = Seq::new(alloc);
    push_values(&mut list, a)?;
    push_values(&mut list, b)?;
    Ok(list)
}

// A list and then another, within the limit.
fn joined_list(alloc: Global, a: &Seq<Value>, b: &Seq<Value>) -> Result<Value, Failure>
    ensures { Gives (λ v. v) fault_of result (rules.joined_list a.now b.now) }
{
    if a.len() > LONGEST_LIST || b.len() > LONGEST_LIST - a.len() {
        return Err(list_too_long(alloc));
    }
    let list = all_values(alloc, a.as_slice(), b.as_slice())?;
    Ok(Value::List(Shared::new(alloc, list)?))
}

fn plus(alloc: Global, a: &Value, b: &Value) -> Result<Value, Failure>
    ensures gives { Gives (λ v. v) fault_of result (rules.plus (out-Value a.now) (out-Value b.now)) }
    ensures memory { WantsOnlyWhere (are_joined (out-Value a.now) (out-Value b.now) ≡ true) result }
{
    match (a, b) {
        (Value::Int(x), Value::Int(y)) => Ok(Value::Int(sum(*x, *y))),
        (Value::Text(x), Value::Text(y)) => joined_text(alloc, x.get(), y.get()),
        (Value::List(x), Value::List(y)) => joined_list(alloc, x.get(), y.get()),
        _ => Err(kind(alloc)),
    }
}

fn quotient(alloc: Global, a: i64, b: i64) -> Result<Value, Failure>
    ensures gives { Gives (λ v. v) fault_of result (rules.quotient a b) }
    ensures memory { NeverWants result }
{
    if b == 0 {
        return Err(division_by_zero(alloc));
    }
    Ok(Value::Int(a.wrapping_div(b)))
}

fn remainder(alloc: Global, a: i64, b: i64) -> Result<Value, Failure>
    ensures gives { Gives (λ v. v) fault_of result (rules.remainder a b) }
    ensures memory { NeverWants result }
{
    if b == 0 {
        return Err(division_by_zero(alloc));
    }
    Ok(Value::Int(a.wrapping_rem(b)))
}

fn equal(alloc: Global, a: &Value, b: &Value) -> Result<bool, Failure>
    ensures gives { Gives (λ same. same) fault_of result (rules.equal (out-Value a.now) (out-Value b.now)) }
    ensures memory { NeverWants result }
{
    match (a, b) {
        (Value::Int(x), Value::Int(y)) => Ok(x == y),
        (Value::Bool(x), Value::Bool(y)) => Ok(x == y),
        (Value::Text(x), Value::Text(y)) => Ok(x.get().as_slice() == y.get().as_slice()),
        _ => Err(kind(alloc)),
    }
}

// The numbers that two values are.
fn numbers(a: &Value, b: &Value) -> Option<(i64, i64)>
    ensures { result ≡ both_numbers (out-Value a.now) (out-Value b.now) }
{
    match (a, b) {
        (Value::Int(x), Value::Int(y)) => Some((*x, *y)),
        _ => None,
    }
}

// What an operator gives on two numbers: `number_rule`.
#[inline]
fn on_ints(alloc: Global, op: BinOp, a: i64, b: i64) -> Result<Value, Failure>
    ensures gives { Gives (λ v. v) fault_of result (number_rule op a b) }
    ensures memory { NeverWants result }
{
    match op {
        BinOp::Add => Ok(Value::Int(sum(a, b))),
        BinOp::Sub => Ok(Value::Int(difference(a, b))),
        BinOp::Mul => Ok(Value::Int(product(a, b))),
        BinOp::Div => quotient(alloc, a, b),
        BinOp::Rem => remainder(alloc, a, b),
        BinOp::Eq => Ok(Value::Bool(a == b)),
        BinOp::Ne => Ok(Value::Bool(a != b)),
        BinOp::Lt => Ok(Value::Bool(a < b)),
        BinOp::Le => Ok(Value::Bool(a <= b)),
        BinOp::Gt => Ok(Value::Bool(b < a)),
        BinOp::Ge => Ok(Value::Bool(b <= a)),
        BinOp::And | BinOp::Or => Err(kind(alloc)),
    }
}

#[tactic(auto, using(crate::proofs::BothNumbers::number_steps))]
fn on_numbers(alloc: Global, op: BinOp, a: &Value, b: &Value) -> Result<Value, Failure>
    ensures gives { Gives (λ v. v) fault_of result (rules.on_numbers (number_rule op) (out-Value a.now) (out-Value b.now)) }
    ensures memory { NeverWants result }
{
    match numbers(a, b) {
        Some((x, y)) => on_ints(alloc, op, x, y),
        None => Err(kind(alloc)),
    }
}

// `&&` and `||` where the left operand doesn't decide.
fn on_truths(alloc: Global, op: BinOp, a: &Value, b: &Value) -> Result<Value, Failure>
    ensures gives { Gives (λ v. v) fault_of result (rules.on_truths (truth_rule op) (out-Value a.now) (out-Value b.now)) }
    ensures memory { NeverWants result }
{
    match (a, b) {
        (Value::Bool(x), Value::Bool(y)) => Ok(Value::Bool(both_or_either(op, *x, *y))),
        _ => Err(kind(alloc)),
    }
}

fn both_or_either(op: BinOp, a: bool, b: bool) -> bool
    ensures { result ≡ truth_rule op a b }
{
    match op {
        BinOp::And => a && b,
        _ => a || b,
    }
}

/// What an operator on two operands gives: `on_two`. Most operands are numbers, so they come first.
#[inline]
pub fn on_two(alloc: Global, op: BinOp, a: &Value, b: &Value) -> Result<Value, Failure>
    ensures gives { Gives (λ v. v) fault_of result (rules.on_two op (out-Value a.now) (out-Value b.now)) }
    ensures memory { WantsOnlyWhere (two_make op (out-Value a.now) (out-Value b.now) ≡ true) result }
{
    match (a, b) {
        (Value::Int(x), Value::Int(y)) => on_ints(alloc, op, *x, *y),
        _ => on_values(alloc, op, a, b),
    }
}

// What an operator on two operands gives, whatever they are: `on_two`.
#[inline(never)]
fn on_values(alloc: Global, op: BinOp, a: &Value, b: &Value) -> Result<Value, Failure>
    ensures gives { Gives (λ v. v) fault_of result (rules.on_two op (out-Value a.now) (out-Value b.now)) }
    ensures memory { WantsOnlyWhere (two_make op (out-Value a.now) (out-Value b.now) ≡ true) result }
{
    match op {
        BinOp::Add => plus(alloc, a, b),
        BinOp::Eq => Ok(Value::Bool(equal(alloc, a, b)?)),
        BinOp::Ne => Ok(Value::Bool(!equal(alloc, a, b)?)),
        BinOp::And | BinOp::Or => on_truths(alloc, op, a, b),
        BinOp::Sub
        | BinOp::Mul
        | BinOp::Div
        | BinOp::Rem
        | BinOp::Lt
        | BinOp::Le
        | BinOp::Gt
        | BinOp::Ge => on_numbers(alloc, op, a, b),
    }
}

/// The value that the left operand decides alone, or None where the right one counts too: `by_left`.
#[inline]
pub fn by_left(alloc: Global, op: BinOp, a: &Value) -> Result<Option<Value>, Failure>
    ensures gives { Gives (λ v. v) fault_of result (rules.by_left op (out-Value a.now)) }
    ensures memory { NeverWants result }
{
    match op {
        BinOp::And => conjunct(alloc, a),
        BinOp::Or => disjunct(alloc, a),
        _ => Ok(None),
    }
}

#[inline(never)]
fn conjunct(alloc: Global, a: &Value) -> Result<Option<Value>, Failure>
    ensures gives { Gives (λ v. v) fault_of result (rules.conjunct (out-Value a.now)) }
    ensures memory { NeverWants result }
{
    match a {
        Value::Bool(true) => Ok(None),
        Value::Bool(false) => Ok(Some(Value::Bool(false))),
        _ => Err(kind(alloc)),
    }
}

#[inline(never)]
fn disjunct(alloc: Global, a: &Value) -> Result<Option<Value>, Failure>
    ensures gives { Gives (λ v. v) fault_of result (rules.disjunct (out-Value a.now)) }
    ensures memory { NeverWants result }
{
    match a {
        Value::Bool(true) => Ok(Some(Value::Bool(true))),
        Value::Bool(false) => Ok(None),
        _ => Err(kind(alloc)),
    }
}

/// An item of a list: `indexed`.
pub fn item_of(alloc: Global, list: &Value, index: &Value) -> Result<Value, Failure>
    ensures { Gives (λ v. v) fault_of result (places.indexed (out-Value list.now) (out-Value index.now)) }
{
    match (list, index) {
        (Value::List(items), Value::Int(place)) => item_at(alloc, items.get(), *place),
        _ => Err(kind(alloc)),
    }
}

fn item_at(alloc: Global, items: &Seq<Value>, place: i64) -> Result<Value, Failure>
    ensures { Gives (λ v. v) fault_of result (places.item_at items.now place) }
{
    if place < 0 {
        return Err(index_outside(alloc));
    }
    match items.get(place.unsigned_abs() as usize) {
        Some(item) => Ok(copy_value(item)?),
        None => Err(index_outside(alloc)),
    }
}

/// A list of values: `list_of`.
#[inline(never)]
pub fn list_of(alloc: Global, items: Seq<Value>) -> Result<Value, Failure>
    ensures { Gives (λ v. v) fault_of result (places.list_of items) }
{
    if items.len() > LONGEST_LIST {
        return Err(list_too_long(alloc));
    }
    Ok(Value::List(Shared::new(alloc, items)?))
}
