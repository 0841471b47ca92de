// New objects, fields, and what a method begins with.
#![tactic(auto, using(crate::proofs::Values::values))]

ghost use Rattle.std.specs.Prelude.{◌≡◌, ◌++◌, map, IfOk, OnOk, OnErr};
ghost use Rattle.std.specs.Option.{option_copied, option_map};
ghost use Rattle.rb_trees.specs.Outcome.{Gives};
ghost use Rattle.rb_trees.specs.declared.values.Value.{out-Value};
ghost use Rattle.rb_trees.specs.mirror.Declarations.{mirror_param, mirror_class, mirror_method};
ghost use Rattle.rb_meaning_code.specs.Calls as calls;
ghost use Rattle.rb_meaning_code.specs.Calls.{names_within};
ghost use Rattle.rb_meaning_code.specs.Objects as objects;
ghost use Rattle.rb_meaning_code.specs.Objects.{matched, with_field_of};
ghost use Rattle.rb_engine.specs.Code.{method_called, own_method_called, object_made};
ghost use Rattle.rb_engine.specs.Ends.{fault_of, UnlessMemory};

use crate::args::Args;
use crate::ends::{End, Failure};
use crate::faults::{heap_full, kind};
use crate::frame::Frame;
use rb_code::Code;
use rb_heap::{AddStop, Heap, SetStop};
use rb_trees::{Memory, Method, Object, Param, Seq, Value, Word, copy_value, copy_word};
use std::alloc::Global;

// Adds the names of parameters or fields with values, in order, as long as both last.
#[tactic(auto, using(crate::proofs::Matched::matches))]
fn match_values(
    alloc: Global,
    names: &mut Seq<(Word, Value)>,
    params: &[Param],
    values: &[Value],
) -> Result<(), Memory>
    ensures { OnOk result (names.new ≡ names.old ++ matched (map mirror_param params.now) values.now) }
{
    for (place, param) in params.iter().enumerate() {
        match values.get(place) {
            Some(value) => names.push((copy_word(alloc, &param.name)?, copy_value(value)?))?,
            None => return Ok(()),
        }
    }
    Ok(())
}

// An object of a class with values for its fields: `object_of`.
fn object_of(alloc: Global, code: &Code, name: &Word, values: &[Value]) -> Result<Object, Failure>
    ensures { Gives (λ o. o) fault_of result (objects.object_of (map mirror_class code.now) name.now values.now) }
{
    match code.find_class(name.as_slice()) {
        Some(class) => object_with(alloc, name, class.fields.as_slice(), values),
        None => Err(kind(alloc)),
    }
}

fn object_with(
    alloc: Global,
    name: &Word,
    fields: &[Param],
    values: &[Value],
) -> Result<Object, Failure>
    ensures { Gives (λ o. o) fault_of result (objects.object_with name.now (map mirror_param fields.now) values.now) }
{
    if fields.len() != values.len() {
        return Err(kind(alloc));
    }
    let mut named = Seq::new(alloc);
    match_values(alloc, &mut named, fields, values)?;
    Ok(Object {
        class: copy_word(alloc, name)?,
        fields: named,
    })
}

// Puts an object at the end of the heap, which needs room.
fn place(alloc: Global, heap: &mut Heap, object: Object) -> Result<Value, Failure>
    ensures gives { Gives (λ v. (v, heap.new)) fault_of result (objects.placed heap.old object) }
    ensures kept { OnErr result (heap.new ≡ heap.old) }
{
    match heap.add(object) {
        Ok(number) => Ok(Value::Ref(number)),
        Err(AddStop::Full(_object)) => Err(heap_full(alloc)),
        Err(AddStop::Memory) => Err(Failure::Memory),
    }
}

/// A new object: `constructed`. After an error the heap is as it was.
#[inline(never)]
pub fn construct(
    alloc: Global,
    code: &Code,
    heap: &mut Heap,
    name: &Word,
    values: Seq<Value>,
) -> Result<Value, Failure>
    ensures gives { Gives (λ v. (v, heap.new)) fault_of result (object_made code.now heap.old name.now values) }
    ensures kept { OnErr result (heap.new ≡ heap.old) }
{
    let object = object_of(alloc, code, name, values.as_slice())?;
    place(alloc, heap, object)
}

/// The value of an object's field: `field_of`.
pub fn read_field(alloc: Global, heap: &Heap, object: &Value, name: &[u8]) -> Result<Value, Failure>
    ensures { Gives (λ v. v) fault_of result (objects.field_of heap.now (out-Value object.now) name.now) }
{
    match object {
        Value::Ref(number) => match heap.get_field(*number, name) {
            Some(found) => Ok(copy_value(found)?),
            None => Err(kind(alloc)),
        },
        _ => Err(kind(alloc)),
    }
}

/// Gives an object's field another value: `with_field_of`. After an error the heap is as it was.
#[inline(never)]
pub fn write_field(
    alloc: Global,
    heap: &mut Heap,
    object: &Value,
    name: &[u8],
    value: Value,
) -> Result<(), Failure>
    ensures gives { Gives (λ u. heap.new) fault_of result (with_field_of heap.old (out-Value object.now) name.now value) }
    ensures kept { OnErr result (heap.new ≡ heap.old) }
{
    match object {
        Value::Ref(number) => write_own(alloc, heap, *number, name, value),
        _ => Err(kind(alloc)),
    }
}

#[tactic(auto, using(crate::proofs::Known::known_steps))]
fn write_own(
    alloc: Global,
    heap: &mut Heap,
    object: u32,
    name: &[u8],
    value: Value,
) -> Result<(), Failure>
    ensures gives { Gives (λ u. heap.new) fault_of result (objects.with_own_field heap.old object name.now value) }
    ensures kept { OnErr result (heap.new ≡ heap.old) }
{
    match heap.set_field(object, name, value) {
        Ok(()) => Ok(()),
        Err(SetStop::Missing(_value)) => Err(kind(alloc)),
        Err(SetStop::Memory) => Err(Failure::Memory),
    }
}

/// The method of an object, by its name: `method_of`.
#[inline(never)]
pub fn method_of<'a>(code: &'a Code, heap: &Heap, object: u32, name: &[u8]) -> Option<&'a Method>
    ensures { option_map mirror_method (option_copied result) ≡ calls.method_of (map mirror_class code.now) heap.now object name.now }
{
    match heap.get(object) {
        Some(found) => code.find_method(found.class, name),
        None => None,
    }
}

/// The method that is called: `called_method`.
#[inline(never)]
pub fn called_method<'a>(
    alloc: Global,
    code: &'a Code,
    heap: &Heap,
    receiver: &Value,
    name: &[u8],
    count: usize,
) -> Result<&'a Method, Failure>
    ensures { Gives (λ m. mirror_method m.now) fault_of result (method_called code.now heap.now receiver.now name.now count) }
{
    match receiver {
        Value::Ref(object) => own_method(alloc, code, heap, *object, name, count),
        _ => Err(kind(alloc)),
    }
}

fn own_method<'a>(
    alloc: Global,
    code: &'a Code,
    heap: &Heap,
    object: u32,
    name: &[u8],
    count: usize,
) -> Result<&'a Method, Failure>
    ensures { Gives (λ m. mirror_method m.now) fault_of result (own_method_called code.now heap.now object name.now count) }
{
    match method_of(code, heap, object, name) {
        Some(method) => if method.signature.params.len() == count {
            Ok(method)
        } else {
            Err(kind(alloc))
        },
        None => Err(kind(alloc)),
    }
}

/// The frame that a method begins with: `names_within`. The arguments stand in it already.
#[inline(never)]
pub fn enter<X>(
    alloc: Global,
    receiver: &Value,
    params: &[Param],
    args: Args,
) -> Result<Frame, End<X>>
    ensures { UnlessMemory result (λ frame. frame ≡ names_within receiver.now (map mirror_param params.now) args) }
{
    match args.into_frame(alloc, receiver, params) {
        Ok(frame) => Ok(frame),
        Err(_) => Err(End::NoMemory),
    }
}
