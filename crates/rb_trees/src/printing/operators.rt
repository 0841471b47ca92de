// The levels and signs of operators.

ghost use Rattle.std.specs.Prelude.{◌≡◌};
ghost use Rattle.rb_trees.specs.printing.Pieces.{spelling};
ghost use Rattle.rb_trees.specs.printing.Exprs.{binary_level, left_level, right_level, binary_sign, unary_level};

use crate::code::{BinOp, UnOp};

/// The level of a binary operator.
pub fn level_of_binary(op: BinOp) -> u8
    ensures { result ≡ binary_level op }
{
    match op {
        BinOp::Or => 0,
        BinOp::And => 1,
        BinOp::Eq | BinOp::Ne => 2,
        BinOp::Lt | BinOp::Le | BinOp::Gt | BinOp::Ge => 3,
        BinOp::Add | BinOp::Sub => 4,
        BinOp::Mul | BinOp::Div | BinOp::Rem => 5,
    }
}

/// The level of the place before a binary operator.
pub fn level_before(op: BinOp) -> u8
    ensures { result ≡ left_level op }
{
    match op {
        BinOp::Or => 0,
        BinOp::And => 1,
        BinOp::Eq | BinOp::Ne => 3,
        BinOp::Lt | BinOp::Le | BinOp::Gt | BinOp::Ge | BinOp::Add | BinOp::Sub => 4,
        BinOp::Mul | BinOp::Div | BinOp::Rem => 5,
    }
}

/// The level of the place behind a binary operator.
pub fn level_behind(op: BinOp) -> u8
    ensures { result ≡ right_level op }
{
    match op {
        BinOp::Or => 1,
        BinOp::And => 2,
        BinOp::Eq | BinOp::Ne => 3,
        BinOp::Lt | BinOp::Le | BinOp::Gt | BinOp::Ge => 4,
        BinOp::Add | BinOp::Sub => 5,
        BinOp::Mul | BinOp::Div | BinOp::Rem => 6,
    }
}

/// The sign of a binary operator.
pub fn sign_of(op: BinOp) -> &'static [u8]
    ensures { result.now ≡ spelling (binary_sign op) }
{
    match op {
        BinOp::Or => b"||",
        BinOp::And => b"&&",
        BinOp::Eq => b"==",
        BinOp::Ne => b"!=",
        BinOp::Lt => b"<",
        BinOp::Le => b"<=",
        BinOp::Gt => b">",
        BinOp::Ge => b">=",
        BinOp::Add => b"+",
        BinOp::Sub => b"-",
        BinOp::Mul => b"*",
        BinOp::Div => b"/",
        BinOp::Rem => b"%",
    }
}

/// The level of an operator before its operand.
pub fn level_of_unary(op: UnOp) -> u8
    ensures { result ≡ unary_level op }
{
    match op {
        UnOp::Not | UnOp::Neg => 6,
        UnOp::Len | UnOp::Str => 8,
    }
}
