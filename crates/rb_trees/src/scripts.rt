// The trees of scripts.

use crate::boxes::Boxed;
use crate::code::{BinOp, UnOp};
use crate::sequence::{Seq, Word};
use crate::shared::Shared;
use crate::values::Value;
use std::mem::size_of;

/// A script: the number of its inputs, the numbers of those that are lists, rising, and its steps.
#[derive(Drop)]
pub struct Script {
    pub inputs: u8,
    pub lists: Seq<u8>,
    pub body: Seq<Step>,
}

/// A step, with its number in the script and its position in the source.
#[cycle(steps)]
#[derive(Drop)]
pub struct Step {
    pub id: u32,
    pub at: u32,
    pub form: StepForm,
}

/// The forms of a step.
#[cycle(steps)]
#[derive(Drop)]
pub enum StepForm {
    /// Performs the expression, and gives no entry.
    Do(SExpr),
    /// Performs the expression, and gives its value.
    Keep(SExpr),
    /// Binds a variable, and gives its value where it is kept.
    Let {
        var: u32,
        keep: bool,
        value: SExpr,
    },
    /// The condition, the block where it is true, the block where it is false.
    If(SExpr, Seq<Step>, Seq<Step>),
    /// A block for each row, bound to a variable; its turns give the row where it is kept.
    Each {
        var: u32,
        keep: bool,
        rows: SExpr,
        body: Seq<Step>,
    },
    /// A block for each item of a list input, bound to a variable.
    Over {
        var: u32,
        input: u8,
        body: Seq<Step>,
    },
}

/// Both operands of an operator.
#[derive(Drop)]
pub struct Operands<E> {
    pub left: E,
    pub right: E,
}

/// What a remote call names: the method, the object that has it, and the arguments. Calls of one method may share its name.
#[derive(Drop)]
pub struct Invocation<E> {
    pub method: Shared<Word>,
    pub target: E,
    pub args: Seq<E>,
}

/// An expression of a script. Operators and calls have their position in the source.
///
/// What is larger than a number stands in one box, and small fields come first, so that an expression has 16 bytes: a hostile
/// script may have one for each of its bytes.
#[derive(Drop)]
pub enum SExpr {
    /// A literal: an Int, a Bool or a Text.
    Lit(Boxed<Value>),
    /// An input, by its number from 0.
    Input(u8),
    /// A variable of the script, by its number.
    Var(u32),
    /// The root object of the service.
    Root,
    Unary(UnOp, u32, Boxed<SExpr>),
    Binary(BinOp, u32, Boxed<Operands<SExpr>>),
    /// A remote call. Its kind, by the number of a [`CallKind`](crate::CallKind), says what its result must be.
    Call {
        kind: u8,
        at: u32,
        call: Boxed<Invocation<SExpr>>,
    },
}

const _: () = prove!(size_of::<SExpr>() <= 16);
