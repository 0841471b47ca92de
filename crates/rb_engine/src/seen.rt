// Values of the service as the client sees them.
#![tactic(auto, using(crate::proofs::Values::values))]

ghost use Rattle.std.specs.Prelude.{◌≡◌, is_some, IfOk};
ghost use Rattle.std.specs.Option.{option_map};
ghost use Rattle.rb_trees.specs.declared.values.Value.{out-Value};
ghost use Rattle.rb_meaning_code.specs.Remote as rules;
ghost use Rattle.rb_engine.specs.Kinds.{mirror_item, mirror_kind, StaysTheSame};

use crate::kinds::kind_of;
use rb_trees::{CallKind, Item, Memory, Seq, Shared, Value};
use std::alloc::Global;

/// A single value of the service as the client sees it, where it is what it has to be: `seen_item`.
#[inline]
pub fn seen_item(item: Item, value: &Value) -> Result<Option<Value>, Memory>
    ensures { IfOk result (λ seen. seen ≡ rules.seen_item (mirror_item item) (out-Value value.now)) }
{
    match (item, value) {
        (Item::Int, Value::Int(number)) => Ok(Some(Value::Int(*number))),
        (Item::Bool, Value::Bool(truth)) => Ok(Some(Value::Bool(*truth))),
        (Item::Text, Value::Text(text)) => Ok(Some(Value::Text(text.share()?))),
        (Item::Object, Value::Ref(object)) => Ok(Some(Value::Remote(*object))),
        _ => Ok(None),
    }
}

// Whether the client sees a single value.
fn is_item(item: Item, value: &Value) -> bool
    ensures { result ≡ is_some (rules.seen_item (mirror_item item) (out-Value value.now)) }
{
    match (item, value) {
        (Item::Int, Value::Int(_)) => true,
        (Item::Bool, Value::Bool(_)) => true,
        (Item::Text, Value::Text(_)) => true,
        (Item::Object, Value::Ref(_)) => true,
        _ => false,
    }
}

// Whether the client sees each of the values.
#[tactic(auto, using(crate::proofs::Items::seen_so))]
fn are_items(item: Item, values: &[Value]) -> bool
    ensures { result ≡ is_some (rules.seen_items (mirror_item item) values.now) }
{
    for value in values {
        if !is_item(item, value) {
            return false;
        }
    }
    true
}

// A list whose items the client sees as they are: the rows are that list, which isn't copied.
#[tactic(auto, using(crate::proofs::Items::seen_so))]
fn shared_rows(item: Item, items: &Shared<Seq<Value>>) -> Result<Option<Value>, Memory>
    requires { StaysTheSame (mirror_item item) }
    ensures { IfOk result (λ seen. seen ≡ option_map Value.Rows (rules.seen_items (mirror_item item) items.now)) }
{
    if !are_items(item, items.get().as_slice()) {
        return Ok(None);
    }
    Ok(Some(Value::Rows(items.share()?)))
}

// Objects of the service as remote ones.
#[tactic(auto, using(crate::proofs::Items::seen_so))]
fn remote_objects(alloc: Global, values: &[Value]) -> Result<Option<Seq<Value>>, Memory>
    ensures { IfOk result (λ seen. seen ≡ rules.seen_items rules.AnObject values.now) }
{
    let mut objects = Seq::new(alloc);
    for value in values {
        match seen_item(Item::Object, value)? {
            Some(object) => objects.push(object)?,
            None => return Ok(None),
        }
    }
    Ok(Some(objects))
}

// A list of objects: rows of remote ones.
fn object_rows(alloc: Global, values: &[Value]) -> Result<Option<Value>, Memory>
    ensures { IfOk result (λ seen. seen ≡ option_map Value.Rows (rules.seen_items rules.AnObject values.now)) }
{
    match remote_objects(alloc, values)? {
        Some(objects) => Ok(Some(Value::Rows(Shared::new(alloc, objects)?))),
        None => Ok(None),
    }
}

// The rows of a list.
fn rows_of(alloc: Global, item: Item, items: &Shared<Seq<Value>>) -> Result<Option<Value>, Memory>
    ensures { IfOk result (λ seen. seen ≡ option_map Value.Rows (rules.seen_items (mirror_item item) items.now)) }
{
    match item {
        Item::Int => shared_rows(Item::Int, items),
        Item::Bool => shared_rows(Item::Bool, items),
        Item::Text => shared_rows(Item::Text, items),
        Item::Object => object_rows(alloc, items.get().as_slice()),
    }
}

// A list of the service, which is rows at the client: `seen_rows`.
fn seen_rows(alloc: Global, item: Item, value: &Value) -> Result<Option<Value>, Memory>
    ensures { IfOk result (λ seen. seen ≡ rules.seen_rows (mirror_item item) (out-Value value.now)) }
{
    match value {
        Value::List(items) => rows_of(alloc, item, items),
        _ => Ok(None),
    }
}

fn seen_nothing(value: &Value) -> Option<Value>
    ensures { result ≡ rules.seen_nothing (out-Value value.now) }
{
    match value {
        Value::Unit => Some(Value::Unit),
        _ => None,
    }
}

#[inline(always)]
fn seen(alloc: Global, kind: CallKind, value: &Value) -> Result<Option<Value>, Memory>
    ensures { IfOk result (λ seen. seen ≡ rules.seen (mirror_kind kind) (out-Value value.now)) }
{
    match kind {
        CallKind::Nothing => Ok(seen_nothing(value)),
        CallKind::One(item) => seen_item(item, value),
        CallKind::Rows(item) => seen_rows(alloc, item, value),
    }
}

/// A value of the service as the client sees it, where it is of the kind of this number: `seen_as`.
#[inline(always)]
pub fn seen_as(alloc: Global, number: u8, value: &Value) -> Result<Option<Value>, Memory>
    ensures { IfOk result (λ seen. seen ≡ rules.seen_as number (out-Value value.now)) }
{
    match kind_of(number) {
        Some(kind) => seen(alloc, kind, value),
        None => Ok(None),
    }
}
