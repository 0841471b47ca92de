// What needs no evaluation.

ghost use Rattle.std.specs.Prelude.{◌≡◌, slice_get};
ghost use Rattle.std.specs.Option.{option_copied};
ghost use Rattle.rb_trees.specs.mirror.Scripts.{mirror_sexpr};
ghost use Rattle.rb_exec.specs.Lent.{lent_value};

use crate::expressions::Scope;
use rb_trees::{SExpr, Value};

// The value of an input.
#[inline(always)]
fn input_at(inputs: &[Value], number: u8) -> Option<&Value>
    ensures { option_copied result ≡ slice_get inputs.now number }
{
    match inputs.get(number as usize) {
        Some(value) => Some(value),
        None => None,
    }
}

/// The value that an expression stands for already, which is a literal's, an input's or a variable's: `lent_value`.
#[tactic(auto, using(crate::proofs::Exprs::expr_steps))]
#[inline(always)]
pub fn lent<'a>(scope: &'a Scope<'_>, expr: &'a SExpr) -> Option<&'a Value>
    ensures { option_copied result ≡ lent_value scope.now (mirror_sexpr expr.now) }
{
    match expr {
        SExpr::Lit(value) => Some(value.get()),
        SExpr::Input(number) => input_at(scope.site.stage.inputs, *number),
        SExpr::Var(number) => scope.variables.find(*number),
        SExpr::Root => None,
        SExpr::Unary(_, _, _) => None,
        SExpr::Binary(_, _, _) => None,
        SExpr::Call { .. } => None,
    }
}
