// Operands: values that are lent where they stand already, and others that are made.

ghost use Rattle.std.specs.Prelude.{◌≡◌};
ghost use Rattle.std.specs.Option.{option_copied};
ghost use Rattle.rb_trees.specs.mirror.Code.{mirror_expr};
ghost use Rattle.rb_engine.specs.Lent.{lent_value};

use crate::frame::Frame;
use rb_trees::{Expr, ExprForm, Value};
use std::marker::Model;

// A value where it stands, or one that was made.
#[derive(Drop)]
enum Held<'a> {
    Lent(&'a Value),
    Made(Value),
}

/// The value of an operand, which is read and let go. Contracts see that value.
#[derive(Drop)]
pub struct Operand<'a> {
    held: Held<'a>,
}

impl<'a> Model for Operand<'a> {
    ghost use Rattle.rb_trees.specs.contracts.values.Value as value_code;
    ghost use Rattle.rb_trees.specs.declared.values.Value.{Value as TheValue};
    ghost use Rattle.rb_engine.specs.Held.{held_value};

    ghost Value = { TheValue };

    ghost coded = { value_code.the_row.coded };

    ghost view = { λ operand. held_value operand.held };
}

impl<'a> Operand<'a> {
    /// A value that stands already.
    #[inline(always)]
    pub fn lent(value: &'a Value) -> Operand<'a>
        ensures { result ≡ value.now }
    {
        Operand {
            held: Held::Lent(value),
        }
    }

    /// A value that was made.
    #[inline(always)]
    pub fn made(value: Value) -> Operand<'a>
        ensures { result ≡ value }
    {
        Operand {
            held: Held::Made(value),
        }
    }

    /// The value.
    #[inline(always)]
    pub fn get(&self) -> &Value
        ensures { result.now ≡ self.now }
    {
        match &self.held {
            Held::Lent(value) => value,
            Held::Made(value) => value,
        }
    }
}

/// The value that an expression stands for already, which is a literal's, a name's or that of `this`: `lent_value`.
#[tactic(auto, using(crate::proofs::Exprs::expr_steps))]
#[inline(always)]
pub fn lent<'a>(frame: &'a Frame, expr: &'a Expr) -> Option<&'a Value>
    ensures { option_copied result ≡ lent_value frame.now (mirror_expr expr.now) }
{
    match &expr.form {
        ExprForm::Lit(value) => Some(value),
        ExprForm::Name(name) => frame.find(name),
        ExprForm::This => frame.this(),
        ExprForm::Unary(_, _) => None,
        ExprForm::Binary(_, _, _) => None,
        ExprForm::Field(_, _) => None,
        ExprForm::Call(_, _, _) => None,
        ExprForm::Index(_, _) => None,
        ExprForm::New(_, _) => None,
        ExprForm::Items(_, _) => None,
        ExprForm::Taken(_) => None,
    }
}
