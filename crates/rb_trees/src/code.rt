// The trees of code: types, expressions and statements.

use crate::boxes::Boxed;
use crate::sequence::{Seq, Word};
use crate::values::Value;

/// A type as it is written, at the position of its first token.
#[cycle(types)]
#[derive(Drop)]
pub struct TypeTree {
    pub at: u32,
    pub form: TypeForm,
}

/// The forms of a type.
#[cycle(types)]
#[derive(Drop)]
pub enum TypeForm {
    Int,
    Bool,
    Text,
    Unit,
    /// A class or an interface, by its name.
    Named(Word),
    ListOf(Boxed<TypeTree>),
    RowsOf(Boxed<TypeTree>),
}

/// The operators before one operand, in the order of their codes from 1.
#[derive(Clone, Copy, PartialEq, Eq)]
pub enum UnOp {
    Not,
    Neg,
    Len,
    Str,
}

/// The operators between two operands, in the order of their codes from 1.
#[derive(Clone, Copy, PartialEq, Eq)]
pub enum BinOp {
    Add,
    Sub,
    Mul,
    Div,
    Rem,
    Eq,
    Ne,
    Lt,
    Le,
    Gt,
    Ge,
    And,
    Or,
}

/// An expression, at the position of its defining token.
#[cycle(exprs)]
#[derive(Drop)]
pub struct Expr {
    pub at: u32,
    pub form: ExprForm,
}

/// The forms of an expression.
#[cycle(exprs)]
#[derive(Drop)]
pub enum ExprForm {
    /// A literal: an Int, a Bool or a Text.
    Lit(Value),
    /// A variable.
    Name(Word),
    This,
    Unary(UnOp, Boxed<Expr>),
    Binary(BinOp, Boxed<Expr>, Boxed<Expr>),
    /// A field of an object.
    Field(Boxed<Expr>, Word),
    /// A call of a method: the receiver, the method's name, the arguments.
    Call(Boxed<Expr>, Word, Seq<Expr>),
    /// An item of a list: the list, the index.
    Index(Boxed<Expr>, Boxed<Expr>),
    /// A new object: the class, the fields in order of declaration.
    New(Word, Seq<Expr>),
    /// A list by its items, with the type of an item.
    Items(TypeTree, Seq<Expr>),
    /// The value that a step of the script kept. It stands only in remainders.
    Taken(u32),
}

/// A statement, at the position of its defining token.
#[cycle(stmts)]
#[derive(Drop)]
pub struct Stmt {
    pub at: u32,
    pub form: StmtForm,
}

/// The forms of a statement.
#[cycle(stmts)]
#[derive(Drop)]
pub enum StmtForm {
    Val(Word, Expr),
    Var(Word, Expr),
    /// The left side, the right side.
    Assign(Expr, Expr),
    /// An expression alone.
    Run(Expr),
    Print(Expr),
    Throw(Expr),
    /// The condition, the block where it is true, the block where it is false.
    If(Expr, Seq<Stmt>, Seq<Stmt>),
    While(Expr, Seq<Stmt>),
    /// The variable, the list or rows, the block.
    For(Word, Expr, Seq<Stmt>),
    /// The block that is tried, the fault's name, the block that handles it.
    Try(Seq<Stmt>, Word, Seq<Stmt>),
    /// The interface, the name of the root, the block.
    Batch(Word, Word, Seq<Stmt>),
}
