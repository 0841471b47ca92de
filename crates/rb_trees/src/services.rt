// Services, and their texts.

use crate::declarations::Class;
use crate::sequence::{Seq, Word};
use crate::values::Value;

/// A service: its classes, and the number of the root object.
#[derive(Drop)]
pub struct Service {
    pub classes: Seq<Class>,
    pub root: u32,
}

/// An object: its class, and its fields in order of declaration.
#[derive(Drop)]
pub struct Object {
    pub class: Word,
    pub fields: Seq<(Word, Value)>,
}

/// A change of a table: the field of the object gets the value.
#[derive(Drop)]
pub struct Change {
    pub object: u32,
    pub field: Word,
    pub value: Value,
}

/// The text of a service as it was read.
#[derive(Drop)]
pub struct ServiceText {
    pub classes: Seq<Class>,
    pub objects: Seq<ObjectText>,
    pub root: u64,
}

/// An object as a service's text writes it, at the position of its class's name.
#[derive(Drop)]
pub struct ObjectText {
    pub number: u64,
    pub class: Word,
    pub at: u32,
    pub fields: Seq<(Word, Literal)>,
}

/// A field's value as a service's text writes it.
#[derive(Drop)]
pub enum Literal {
    Int(i64),
    Bool(bool),
    Text(Word),
    /// An object, by its number.
    Object(u64),
    Items(Seq<Literal>),
}
