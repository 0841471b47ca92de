// The form that a statement has at a script place.

#![tactic(auto, using(rb_trees::proofs::mirror::Stmts::stmts, crate::proofs::Given::fact_rules))]

ghost use Rattle.std.specs.Prelude.{◌≡◌, cond};
ghost use Rattle.rb_trees.specs.mirror.Code.{mirror_expr, mirror_stmt, mirror_stmts};
ghost use Rattle.rb_meaning_flow.specs.declared.forms.PlacedForm.{PlacedForm};
ghost use Rattle.rb_meaning_flow.specs.Forms as forms;
ghost use Rattle.rb_meaning_flow.specs.Marks as told;
ghost use Rattle.rb_flow.specs.Carried.{loop_form};
ghost use Rattle.rb_flow.specs.Views.{facts};

use crate::portable::{is_portable, may_carry};
use rb_marks::{Facts, branches_hold, holds_call};
use rb_meaning_flow::PlacedForm;
use rb_scopes::Scope;
use rb_trees::{Expr, Stmt, StmtForm};

/// Whether an expression is portable and holds a remote call.
pub fn is_portable_call(x: &Facts<'_>, scope: &Scope, e: &Expr) -> bool
    ensures { result ≡ told.is_portable_call (facts x.now) scope.now (mirror_expr e.now) }
{
    is_portable(x, scope, e) && holds_call(x, e)
}

// A form where a statement has it, and else the plain one.
fn form_where(holds: bool, form: PlacedForm) -> PlacedForm
    ensures { result ≡ cond holds form PlacedForm.Plain }
{
    if holds { form } else { PlacedForm::Plain }
}

// The form of a loop.
fn loop_form(x: &Facts<'_>, scope: &Scope, list: &Expr, block: &[Stmt]) -> PlacedForm
    ensures { result ≡ loop_form (facts x.now) scope.now (mirror_expr list.now) (mirror_stmts block.now) }
{
    if x.over_rows(list) {
        PlacedForm::RowsLoop
    } else {
        form_where(may_carry(x, scope, list, block), PlacedForm::CarriedLoop)
    }
}

/// The form that a statement has at a script place.
pub fn placed_form(x: &Facts<'_>, scope: &Scope, stmt: &Stmt) -> PlacedForm
    ensures { result ≡ forms.placed_form (facts x.now) scope.now (mirror_stmt stmt.now) }
{
    match &stmt.form {
        StmtForm::Val(_, e) => form_where(is_portable(x, scope, e), PlacedForm::CarriedVal),
        StmtForm::Run(e) => form_where(is_portable_call(x, scope, e), PlacedForm::CallAlone),
        StmtForm::If(_, a, b) => {
            form_where(
                branches_hold(x, a.as_slice(), b.as_slice()),
                PlacedForm::CarriedIf,
            )
        }
        StmtForm::For(_, e, a) => loop_form(x, scope, e, a.as_slice()),
        StmtForm::Var(_, _) | StmtForm::Assign(_, _) | StmtForm::Print(_) => PlacedForm::Plain,
        StmtForm::Throw(_) | StmtForm::While(_, _) => PlacedForm::Plain,
        StmtForm::Try(_, _, _) | StmtForm::Batch(_, _, _) => PlacedForm::Plain,
    }
}
