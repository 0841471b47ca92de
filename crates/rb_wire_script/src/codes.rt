// The codes of operators.

ghost use Rattle.std.specs.Prelude.{◌≡◌};
ghost use Rattle.rb_meaning_bytes.specs.formats.ScriptBytes.{unary_code, binary_code};

use rb_trees::{BinOp, UnOp};

/// The code of an operator with one operand.
pub(crate) fn code_of_unary(op: UnOp) -> u8
    ensures { result ≡ unary_code op }
{
    match op {
        UnOp::Not => 1,
        UnOp::Neg => 2,
        UnOp::Len => 3,
        UnOp::Str => 4,
    }
}

/// The code of an operator with two operands.
pub(crate) fn code_of_binary(op: BinOp) -> u8
    ensures { result ≡ binary_code op }
{
    match op {
        BinOp::Add => 1,
        BinOp::Sub => 2,
        BinOp::Mul => 3,
        BinOp::Div => 4,
        BinOp::Rem => 5,
        BinOp::Eq => 6,
        BinOp::Ne => 7,
        BinOp::Lt => 8,
        BinOp::Le => 9,
        BinOp::Gt => 10,
        BinOp::Ge => 11,
        BinOp::And => 12,
        BinOp::Or => 13,
    }
}
