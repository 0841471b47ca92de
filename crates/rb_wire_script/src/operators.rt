// Operators and kinds.

ghost use Rattle.std.specs.Prelude.{◌≡◌};
ghost use Rattle.rb_meaning_bytes.specs.formats.Reading.{read};
ghost use Rattle.rb_meaning_bytes.specs.formats.Scripts.{unary_op, binary_op, kind};
ghost use Rattle.rb_trees.specs.Outcome.{Gives};
ghost use Rattle.rb_wire_fields.specs.Stops.{told};

use rb_trees::{BinOp, CallKind, Item, UnOp};
use rb_wire_fields::fields::{bad_tag, byte};
use rb_wire_fields::stop::Violation;

/// An operator with one operand.
#[tactic(auto, using(crate::proofs::Equations::operators), unfolding(rb_meaning_bytes::specs::formats::Reading::read))]
pub(crate) fn unary_op(bytes: &[u8]) -> Result<(UnOp, &[u8]), Violation>
    ensures { Gives (λ x. (x.0, x.1.now)) told result (read unary_op bytes.now) }
{
    let (op, rest) = byte(bytes)?;
    match op {
        1 => Ok((UnOp::Not, rest)),
        2 => Ok((UnOp::Neg, rest)),
        3 => Ok((UnOp::Len, rest)),
        4 => Ok((UnOp::Str, rest)),
        _ => Err(bad_tag(rest)),
    }
}

/// An operator with two operands.
#[tactic(auto, using(crate::proofs::Equations::operators), unfolding(rb_meaning_bytes::specs::formats::Reading::read))]
pub(crate) fn binary_op(bytes: &[u8]) -> Result<(BinOp, &[u8]), Violation>
    ensures { Gives (λ x. (x.0, x.1.now)) told result (read binary_op bytes.now) }
{
    let (op, rest) = byte(bytes)?;
    match op {
        1 => Ok((BinOp::Add, rest)),
        2 => Ok((BinOp::Sub, rest)),
        3 => Ok((BinOp::Mul, rest)),
        4 => Ok((BinOp::Div, rest)),
        5 => Ok((BinOp::Rem, rest)),
        6 => Ok((BinOp::Eq, rest)),
        7 => Ok((BinOp::Ne, rest)),
        8 => Ok((BinOp::Lt, rest)),
        9 => Ok((BinOp::Le, rest)),
        10 => Ok((BinOp::Gt, rest)),
        11 => Ok((BinOp::Ge, rest)),
        12 => Ok((BinOp::And, rest)),
        13 => Ok((BinOp::Or, rest)),
        _ => Err(bad_tag(rest)),
    }
}

/// What a call's result must be.
#[tactic(auto, using(crate::proofs::Equations::kind_read))]
pub(crate) fn kind(bytes: &[u8]) -> Result<(u8, &[u8]), Violation>
    ensures { Gives (λ x. (x.0, x.1.now)) told result (read kind bytes.now) }
{
    let (kind, rest) = byte(bytes)?;
    if kind > CallKind::Rows(Item::Object).number() {
        return Err(bad_tag(rest));
    }
    Ok((kind, rest))
}
