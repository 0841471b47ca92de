// What payloads are made of, at the end of a buffer.

use bytes::{BufMut, BytesMut};
use rb_trees::Memory;
use rb_wire_fields::puts::put_number;

/// The bytes of a step that does an expression, before the expression.
pub const DO: u32 = 9;

/// The bytes of a step that binds a variable, before the value.
pub const LET: u32 = 14;

/// The bytes of a step that branches on the root, before its blocks.
pub const BRANCH: u32 = 10;

/// The bytes of the root.
pub const ROOT: u32 = 1;

/// The bytes of a variable.
pub const VARIABLE: u32 = 5;

/// The bytes of a number as a literal.
pub const INT: u32 = 10;

/// The version, and no inputs.
pub fn put_header(into: &mut BytesMut) -> Result<(), Memory> {
    into.put_slice(b"\x01\x00")?;
    Ok(())
}

/// The front of a step that does an expression.
pub fn put_do(id: u32, into: &mut BytesMut) -> Result<(), Memory> {
    into.put_u8(0x10)?;
    put_place(id, into)
}

/// The front of a step that keeps an expression's value.
pub fn put_keep(id: u32, into: &mut BytesMut) -> Result<(), Memory> {
    into.put_u8(0x11)?;
    put_place(id, into)
}

/// The front of a step that binds a variable.
pub fn put_let(id: u32, variable: u32, into: &mut BytesMut) -> Result<(), Memory> {
    into.put_u8(0x12)?;
    put_place(id, into)?;
    put_number(variable, into)?;
    into.put_u8(0)?;
    Ok(())
}

/// A branch on the root, up to its blocks.
pub fn put_branch(id: u32, into: &mut BytesMut) -> Result<(), Memory> {
    into.put_u8(0x13)?;
    put_place(id, into)?;
    put_root(into)
}

/// A loop over the rows that are the root, up to its block.
pub fn put_each(id: u32, variable: u32, into: &mut BytesMut) -> Result<(), Memory> {
    into.put_u8(0x14)?;
    put_place(id, into)?;
    put_number(variable, into)?;
    into.put_u8(0)?;
    put_root(into)
}

/// The number of a step, and its position, which is the same.
fn put_place(id: u32, into: &mut BytesMut) -> Result<(), Memory> {
    put_number(id, into)?;
    put_number(id, into)
}

/// The root.
pub fn put_root(into: &mut BytesMut) -> Result<(), Memory> {
    into.put_u8(0x23)?;
    Ok(())
}

/// A variable.
pub fn put_variable(variable: u32, into: &mut BytesMut) -> Result<(), Memory> {
    into.put_u8(0x22)?;
    put_number(variable, into)
}

/// The front of a negation.
pub fn put_negation(into: &mut BytesMut) -> Result<(), Memory> {
    into.put_slice(b"\x24\x02")?;
    put_number(0, into)
}

/// A call on the root, up to the count of its arguments.
pub fn put_call(into: &mut BytesMut) -> Result<(), Memory> {
    into.put_slice(b"\x26\x00\x00\x00\x00\x00\x00\x00\x00\x04many")?;
    put_root(into)
}
