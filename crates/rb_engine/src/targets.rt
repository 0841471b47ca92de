// What an assignment writes, and what a loop goes over.

ghost use Rattle.std.specs.Prelude.{◌≡◌};
ghost use Rattle.rb_trees.specs.Outcome.{Gives};
ghost use Rattle.rb_trees.specs.declared.values.Value.{out-Value};
ghost use Rattle.rb_trees.specs.mirror.Code.{mirror_expr};
ghost use Rattle.rb_engine.specs.Ends.{fault_of};
ghost use Rattle.rb_engine.specs.Targets.{mirror_target, target_form, turns_form};

use crate::ends::Failure;
use crate::faults::kind;
use rb_trees::{Expr, ExprForm, Seq, Shared, Value, Word};
use std::alloc::Global;

/// What an assignment writes.
pub enum LeftSide<'a> {
    Name(&'a Word),
    Field(&'a Expr, &'a Word),
    Other,
}

/// What an assignment to this left side writes.
#[tactic(auto, using(crate::proofs::Exprs::expr_steps))]
#[inline]
pub fn target_of(left: &Expr) -> LeftSide<'_>
    ensures { mirror_target result ≡ target_form (mirror_expr left.now) }
{
    match &left.form {
        ExprForm::Name(name) => LeftSide::Name(name),
        ExprForm::Field(object, name) => LeftSide::Field(object.get(), name),
        ExprForm::Lit(_) => LeftSide::Other,
        ExprForm::This => LeftSide::Other,
        ExprForm::Unary(_, _) => LeftSide::Other,
        ExprForm::Binary(_, _, _) => LeftSide::Other,
        ExprForm::Call(_, _, _) => LeftSide::Other,
        ExprForm::Index(_, _) => LeftSide::Other,
        ExprForm::New(_, _) => LeftSide::Other,
        ExprForm::Items(_, _) => LeftSide::Other,
        ExprForm::Taken(_) => LeftSide::Other,
    }
}

/// What a loop goes over.
#[derive(Clone, Copy)]
pub enum Turns {
    List,
    Rows,
}

/// The values that a loop goes over, which are a list's or rows.
#[tactic(auto, using(crate::proofs::Values::values))]
#[inline(never)]
pub fn turns_of(alloc: Global, value: &Value) -> Result<(Turns, Shared<Seq<Value>>), Failure>
    ensures { Gives (λ turns. turns) fault_of result (turns_form (out-Value value.now)) }
{
    match value {
        Value::List(items) => Ok((Turns::List, items.share()?)),
        Value::Rows(rows) => Ok((Turns::Rows, rows.share()?)),
        _ => Err(kind(alloc)),
    }
}
