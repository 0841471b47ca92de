// Payloads of shapes.

use crate::fields::{
    BRANCH, DO, INT, LET, ROOT, VARIABLE, put_branch, put_call, put_do, put_each, put_header,
    put_keep, put_let, put_negation, put_root, put_variable,
};
use crate::shapes::Shape;
use bytes::{BufMut, BytesMut};
use rb_trees::{Memory, Value, Version};
use rb_wire_fields::puts::{put_number, put_text, put_value};
use std::alloc::Global;

/// The most bytes of a payload.
const MOST_BYTES: u32 = 16_777_216;

/// The most blocks within each other.
const MOST_BLOCKS: u32 = 64;

/// The most expressions within each other.
const MOST_EXPRS: u32 = 256;

/// The bytes of a count.
const COUNT: u32 = 4;

/// The bytes of the longest text.
const LONGEST_TEXT: u32 = 4096;

/// A payload of a shape, of as many bytes as its parts let it have, and no more than so many.
pub fn payload_of(alloc: Global, shape: Shape, most: u32) -> Result<BytesMut, Memory> {
    let most = most.min(MOST_BYTES);
    let mut into = BytesMut::with_capacity(alloc, most as usize)?;
    put_header(&mut into)?;
    match shape {
        Shape::Steps => put_steps(most, 1, &mut into)?,
        Shape::Scattered => put_steps(most, 2_654_435_769, &mut into)?,
        Shape::Variables => put_variables(most, &mut into)?,
        Shape::Blocks => put_blocks(most, &mut into)?,
        Shape::Branches => put_branches(most, &mut into)?,
        Shape::Deep => put_deep(alloc, most, &mut into)?,
        Shape::Wide => put_wide(most, &mut into)?,
        Shape::Narrow => put_call_of(b"\x23", most, &mut into)?,
        Shape::Truths => put_call_of(b"\x20\x02\x01", most, &mut into)?,
        Shape::Letters => put_call_of(b"\x20\x03\x00\x00\x00\x01a", most, &mut into)?,
        Shape::Texts => put_texts(alloc, most, &mut into)?,
        Shape::Repeated => put_repeated(most, &mut into)?,
        Shape::Unbound => put_unbound(most, &mut into)?,
        Shape::Cut => put_cut(most, &mut into)?,
    }
    Ok(into)
}

/// How many parts of a size fit into so many bytes behind those that are there, a count, and so many others.
fn fitting(most: u32, others: u32, size: u32, into: &BytesMut) -> u32 {
    let taken = into.len().min(MOST_BYTES as usize) as u32;
    let left = most.saturating_sub(taken).saturating_sub(others);
    left.saturating_sub(COUNT) / size.max(1)
}

/// So many steps that do the root, whose numbers are multiples of one, from 0.
fn put_roots(count: u32, factor: u32, into: &mut BytesMut) -> Result<(), Memory> {
    for number in 0..count {
        put_do(number.wrapping_mul(factor), into)?;
        put_root(into)?;
    }
    Ok(())
}

/// Small steps, whose numbers are multiples of one.
fn put_steps(most: u32, factor: u32, into: &mut BytesMut) -> Result<(), Memory> {
    let count = fitting(most, 0, DO + ROOT, into);
    put_number(count, into)?;
    put_roots(count, factor, into)
}

/// Small steps, of which the last one has the number of the first.
fn put_repeated(most: u32, into: &mut BytesMut) -> Result<(), Memory> {
    let count = fitting(most, DO + ROOT, DO + ROOT, into);
    put_number(count.saturating_add(1), into)?;
    put_roots(count, 1, into)?;
    put_roots(1, 1, into)
}

/// Small steps, and one with a variable that nothing binds.
fn put_unbound(most: u32, into: &mut BytesMut) -> Result<(), Memory> {
    let count = fitting(most, DO + VARIABLE, DO + ROOT, into);
    put_number(count.saturating_add(1), into)?;
    put_roots(count, 1, into)?;
    put_do(count, into)?;
    put_variable(0, into)
}

/// Small steps, of which more are announced than there are.
fn put_cut(most: u32, into: &mut BytesMut) -> Result<(), Memory> {
    let count = fitting(most, 0, DO + ROOT, into);
    put_number(u32::MAX, into)?;
    put_roots(count, 1, into)
}

/// A variable that is bound to the root, and others, each bound to the one before.
fn put_variables(most: u32, into: &mut BytesMut) -> Result<(), Memory> {
    let count = fitting(most, LET + ROOT, LET + VARIABLE, into);
    put_number(count.saturating_add(1), into)?;
    put_let(0, 0, into)?;
    put_root(into)?;
    for variable in 0..count {
        let next = variable.saturating_add(1);
        put_let(next, next, into)?;
        put_variable(variable, into)?;
    }
    Ok(())
}

/// Loops within each other, and in the innermost one small steps with the variable of the outermost.
fn put_blocks(most: u32, into: &mut BytesMut) -> Result<(), Memory> {
    for number in 1..MOST_BLOCKS {
        put_number(1, into)?;
        put_each(number - 1, number - 1, into)?;
    }
    let count = fitting(most, 0, DO + VARIABLE, into);
    put_number(count, into)?;
    for number in 0..count {
        put_do(number.saturating_add(MOST_BLOCKS), into)?;
        put_variable(0, into)?;
    }
    Ok(())
}

/// Steps that branch, with a small step in each block.
fn put_branches(most: u32, into: &mut BytesMut) -> Result<(), Memory> {
    let count = fitting(most, 0, BRANCH + 2 * (COUNT + DO + ROOT), into);
    put_number(count, into)?;
    for place in 0..count {
        let number = place.wrapping_mul(3);
        put_branch(number, into)?;
        for block in 1..3 {
            put_number(1, into)?;
            put_do(number.wrapping_add(block), into)?;
            put_root(into)?;
        }
    }
    Ok(())
}

/// A step with a call, up to the count of its arguments.
fn put_one_call(into: &mut BytesMut) -> Result<(), Memory> {
    put_number(1, into)?;
    put_do(0, into)?;
    put_call(into)
}

/// A call with arguments of negations within each other.
fn put_deep(alloc: Global, most: u32, into: &mut BytesMut) -> Result<(), Memory> {
    put_one_call(into)?;
    let mut argument = BytesMut::new(alloc);
    for _ in 2..MOST_EXPRS {
        put_negation(&mut argument)?;
    }
    put_root(&mut argument)?;
    put_copies(most, argument.as_slice(), into)
}

/// A call with numbers as arguments.
fn put_wide(most: u32, into: &mut BytesMut) -> Result<(), Memory> {
    put_one_call(into)?;
    let count = fitting(most, 0, INT, into);
    put_number(count, into)?;
    for number in 0..count {
        into.put_u8(0x20)?;
        put_value(Version::One, &Value::Int(i64::from(number)), into)?;
    }
    Ok(())
}

/// A call with arguments that are all the same.
fn put_call_of(argument: &[u8], most: u32, into: &mut BytesMut) -> Result<(), Memory> {
    put_one_call(into)?;
    put_copies(most, argument, into)
}

/// A piece as often as it fits, behind the count.
fn put_copies(most: u32, piece: &[u8], into: &mut BytesMut) -> Result<(), Memory> {
    let size = piece.len().min(MOST_BYTES as usize) as u32;
    let count = fitting(most, 0, size, into);
    put_number(count, into)?;
    for _ in 0..count {
        into.put_slice(piece)?;
    }
    Ok(())
}

/// Steps that keep texts.
fn put_texts(alloc: Global, most: u32, into: &mut BytesMut) -> Result<(), Memory> {
    let mut text = String::new(alloc);
    for _ in 0..LONGEST_TEXT / 4 {
        text.push_str("abé")?;
    }
    let count = fitting(most, 0, DO + 2 + COUNT + LONGEST_TEXT, into);
    put_number(count, into)?;
    for number in 0..count {
        put_keep(number, into)?;
        into.put_slice(b"\x20\x03")?;
        put_text(text.as_bytes(), into)?;
    }
    Ok(())
}
