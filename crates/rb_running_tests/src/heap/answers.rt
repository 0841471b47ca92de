// What a heap answers.

use crate::told::add_number;
use rb_heap::{AddStop, Heap, SetStop};
use rb_store::print_table;
use rb_trees::{Memory, Object, Seq, Value, Word};
use std::alloc::Global;

/// A number of one digit.
fn number_of(digit: u8) -> u32 {
    u32::from(digit % 16)
}

/// Adds a value, or a line where there is none.
fn add_value(alloc: Global, value: Option<&Value>, into: &mut Word) -> Result<(), Memory> {
    match value {
        Some(Value::Int(number)) => add_number(alloc, "", *number, into),
        Some(_) => into.push(b'?'),
        None => into.push(b'-'),
    }
}

/// Adds a class, or a line where there is none.
fn add_class(class: Option<&[u8]>, into: &mut Word) -> Result<(), Memory> {
    into.extend_from_slice(class.unwrap_or(b"-"))
}

/// Adds a field, an Int of one digit.
fn add_field(alloc: Global, name: u8, digit: u8, object: &mut Object) -> Result<(), Memory> {
    let word = Seq::from_slice(alloc, &[name])?;
    let value = Value::Int(i64::from(number_of(digit)));
    object.fields.push((word, value))
}

/// Adds fields in order, a letter and a digit for each.
fn add_fields(alloc: Global, mut fields: &[u8], object: &mut Object) -> Result<(), Memory> {
    for _ in 0..fields.len() {
        if let [name, digit, rest @ ..] = fields {
            add_field(alloc, *name, *digit, object)?;
            fields = rest;
        }
    }
    Ok(())
}

/// Adds an object of a class, whose fields are given so, and answers its number.
pub fn add_object(
    alloc: Global,
    heap: &mut Heap,
    class: u8,
    fields: &[u8],
) -> Result<u32, AddStop> {
    let mut object = Object {
        class: Seq::new(alloc),
        fields: Seq::new(alloc),
    };
    object.class.push(class)?;
    add_fields(alloc, fields, &mut object)?;
    heap.add(object)
}

/// Tells of an object's number, or of the object that is handed back by a full heap, by its class.
fn tell_added(alloc: Global, added: Result<u32, AddStop>, into: &mut Word) -> Result<(), Memory> {
    match added {
        Ok(number) => add_number(alloc, "", i64::from(number), into),
        Err(AddStop::Full(object)) => into.extend_from_slice(object.class.as_slice()),
        Err(AddStop::Memory) => Err(Memory),
    }
}

/// Tells that a field has another value, or of the value that is handed back.
fn tell_set(alloc: Global, set: Result<(), SetStop>, into: &mut Word) -> Result<(), Memory> {
    match set {
        Ok(()) => into.push(b'.'),
        Err(SetStop::Missing(value)) => add_value(alloc, Some(&value), into),
        Err(SetStop::Memory) => Err(Memory),
    }
}

/// The class of an object, as it is seen with its fields.
fn class_seen(heap: &Heap, object: u32) -> Option<&[u8]> {
    match heap.get(object) {
        Some(seen) => Some(seen.class),
        None => None,
    }
}

/// Adds the lines of all objects.
fn add_table(alloc: Global, heap: &Heap, into: &mut Word) -> Result<(), Memory> {
    let table = print_table(alloc, heap)?;
    into.extend_from_slice(table.as_slice())
}

/// Adds the answer to one question.
fn add_answer(
    alloc: Global,
    heap: &mut Heap,
    question: &[u8],
    into: &mut Word,
) -> Result<(), Memory> {
    match question {
        [b'+', class, fields @ ..] => {
            tell_added(alloc, add_object(alloc, heap, *class, fields), into)
        }
        [b'=', object, name, digit] => {
            let value = Value::Int(i64::from(number_of(*digit)));
            tell_set(
                alloc,
                heap.set_field(number_of(*object), &[*name], value),
                into,
            )
        }
        [b'.', object, name] => {
            add_value(alloc, heap.get_field(number_of(*object), &[*name]), into)
        }
        [b':', object] => add_class(heap.class_of(number_of(*object)), into),
        [b'?', object] => add_class(class_seen(heap, number_of(*object)), into),
        [b'#'] => add_number(alloc, "", i64::from(heap.len()), into),
        _ => add_table(alloc, heap, into),
    }
}

/// Adds the answers to questions, each with a space behind it.
///
/// `+Px1y2` adds an object of class P with fields x and y, and `=0x5` gives a field of object 0 another value. `.0x` asks for
/// the value of a field, `:0` for the class of an object, and `?0` for the object itself, of which the class is told. `#` asks
/// for the number of objects, and `*` for the lines of all.
pub fn add_answers(
    alloc: Global,
    heap: &mut Heap,
    questions: &str,
    into: &mut Word,
) -> Result<(), Memory> {
    for question in questions.split(' ') {
        add_answer(alloc, heap, question.as_bytes(), into)?;
        into.push(b' ')?;
    }
    Ok(())
}
