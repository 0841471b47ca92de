// Arguments of the client as the service sees them.
#![tactic(auto, using(crate::proofs::Values::values))]

ghost use Rattle.std.specs.Prelude.{◌≡◌, map, IfOk};
ghost use Rattle.rb_trees.specs.declared.values.Value.{out-Value};
ghost use Rattle.rb_trees.specs.mirror.Types.{mirror_type};
ghost use Rattle.rb_trees.specs.mirror.Declarations.{mirror_param};
ghost use Rattle.rb_meaning_code.specs.Remote as rules;

use crate::seen::seen_item;
use rb_heap::Heap;
use rb_trees::{Item, Memory, Param, Seq, TypeForm, TypeTree, Value};
use std::alloc::Global;

// An object of the table, where it is one of the class.
fn object_of_class(heap: &Heap, class: &[u8], object: u32) -> Option<Value>
    ensures { result ≡ rules.object_of_class heap.now class.now object }
{
    match heap.get(object) {
        Some(found) => if found.class == class {
            Some(Value::Ref(object))
        } else {
            None
        },
        None => None,
    }
}

// A remote object as an object of the service, where it is one of the class: `taken_object`.
fn taken_object(heap: &Heap, class: &[u8], value: &Value) -> Option<Value>
    ensures { result ≡ rules.taken_object heap.now class.now (out-Value value.now) }
{
    match value {
        Value::Remote(object) => object_of_class(heap, class, *object),
        _ => None,
    }
}

// An argument as the service sees it, where it is of the type: `taken_as`.
#[tactic(auto, using(rb_trees::proofs::mirror::Types::types, crate::proofs::Values::values))]
fn taken_as(heap: &Heap, kind: &TypeTree, value: &Value) -> Result<Option<Value>, Memory>
    ensures { IfOk result (λ taken. taken ≡ rules.taken_as heap.now (mirror_type kind.now) (out-Value value.now)) }
{
    match &kind.form {
        TypeForm::Int => seen_item(Item::Int, value),
        TypeForm::Bool => seen_item(Item::Bool, value),
        TypeForm::Text => seen_item(Item::Text, value),
        TypeForm::Named(class) => Ok(taken_object(heap, class.as_slice(), value)),
        TypeForm::Unit => Ok(None),
        TypeForm::ListOf(_) => Ok(None),
        TypeForm::RowsOf(_) => Ok(None),
    }
}

/// All arguments as the service sees them, of which there are as many as parameters: `taken_all`.
#[tactic(auto, using(crate::proofs::Arguments::taken_so))]
#[inline(always)]
pub fn taken_all(
    alloc: Global,
    heap: &Heap,
    params: &[Param],
    args: &[Value],
) -> Result<Option<Seq<Value>>, Memory>
    ensures { IfOk result (λ taken. taken ≡ rules.taken_all heap.now (map mirror_param params.now) args.now) }
{
    if params.len() != args.len() {
        return Ok(None);
    }
    let mut values = Seq::new(alloc);
    for (place, param) in params.iter().enumerate() {
        let Some(arg) = args.get(place) else {
            return Ok(None);
        };
        match taken_as(heap, &param.kind, arg)? {
            Some(value) => values.push(value)?,
            None => return Ok(None),
        }
    }
    Ok(Some(values))
}
