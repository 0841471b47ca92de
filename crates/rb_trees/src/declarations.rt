// The trees of programs and of what they declare.

use crate::code::{Expr, Stmt, TypeTree};
use crate::sequence::{Seq, Word};

/// A program: interfaces of remote objects, classes of local ones, and `main`.
#[derive(Drop)]
pub struct Program {
    pub interfaces: Seq<Interface>,
    pub classes: Seq<Class>,
    /// The result type of `main`.
    pub result: TypeTree,
    pub body: Body,
    /// The position of `main`.
    pub at: u32,
}

/// An interface of remote objects.
#[derive(Drop)]
pub struct Interface {
    pub name: Word,
    pub at: u32,
    pub methods: Seq<Signature>,
}

/// A method's name, parameters and result type.
#[derive(Drop)]
pub struct Signature {
    pub name: Word,
    pub at: u32,
    pub params: Seq<Param>,
    pub result: TypeTree,
}

/// A parameter of a method, or a field of a class.
#[derive(Drop)]
pub struct Param {
    pub name: Word,
    pub at: u32,
    pub kind: TypeTree,
}

/// A class: its fields and methods in order.
#[derive(Drop)]
pub struct Class {
    pub name: Word,
    pub at: u32,
    pub fields: Seq<Param>,
    pub methods: Seq<Method>,
}

/// A method of a class; a `remote` one may hold a batch.
#[derive(Drop)]
pub struct Method {
    pub remote: bool,
    pub signature: Signature,
    pub body: Body,
}

/// The body of a method or of `main`: statements, and the expression of its `return`, if any.
#[derive(Drop)]
pub struct Body {
    pub statements: Seq<Stmt>,
    pub result: Option<Expr>,
}
