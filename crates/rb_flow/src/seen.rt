// What is found at one statement or expression of a batch.

#![tactic(auto, using(crate::proofs::First::found_rules))]

ghost use Rattle.std.specs.Prelude.{◌≡◌, OnOk, ◌&&◌};
ghost use Rattle.rb_trees.specs.mirror.Code.{mirror_expr, mirror_stmt};
ghost use Rattle.rb_meaning_flow.specs.Refusals as refusals;
ghost use Rattle.rb_flow.specs.Earliest.{earliest};
ghost use Rattle.rb_flow.specs.Found.{found_at_expr, found_at_stmt};
ghost use Rattle.rb_flow.specs.Views.{facts};
ghost use Rattle.rb_flow.specs.Walked as words;

use crate::earliest::{keep_if, keep_operation};
use crate::findings::Findings;
use crate::parts::{look_at_call, look_at_loop};
use crate::standing::{Inside, Reading, Standing};
use crate::writers::{push_expr_writer, push_stmt_writer};
use rb_marks::Facts;
use rb_scopes::Scope;
use rb_trees::{Expr, Memory, Refusal, Seq, Stmt, StmtForm};
use std::alloc::Global;

fn keep_at_expr(x: &Facts<'_>, inside: &Inside, first: &mut Option<Refusal>, e: &Expr)
    ensures { first.new ≡ earliest (found_at_expr (facts x.now) inside.now (mirror_expr e.now)) first.old }
{
    let escapes = x.has_remote_type(e) && !inside.may;
    keep_operation(first, x.is_call(e), inside.condition, inside.tried, e.at);
    keep_if(first, escapes, Refusal::Escapes(e.at));
    keep_if(first, x.calls_remote_method(e), Refusal::BatchInside(e.at));
}

/// What is found at an expression, its parts aside.
pub fn see_expr(
    alloc: Global,
    x: &Facts<'_>,
    scope: &Scope,
    around: &Reading,
    inside: &Inside,
    found: &mut Findings,
    e: &Expr,
) -> Result<(), Memory>
    ensures { OnOk result (found.new ≡ words.expr_seen (facts x.now) scope.now around.now inside.now found.old (mirror_expr e.now)) }
{
    keep_at_expr(x, inside, &mut found.first, e);
    push_expr_writer(alloc, x, scope, around, &mut found.writers, e)?;
    look_at_call(alloc, x, scope, &mut found.part, e)
}

fn is_rows_loop(x: &Facts<'_>, s: &Stmt) -> bool
    ensures { result ≡ refusals.is_rows_loop (facts x.now) (mirror_stmt s.now) }
{
    match &s.form {
        StmtForm::For(_, e, _) => x.over_rows(e),
        StmtForm::Val(_, _) | StmtForm::Var(_, _) | StmtForm::Assign(_, _) => false,
        StmtForm::Run(_) | StmtForm::Print(_) | StmtForm::Throw(_) => false,
        StmtForm::If(_, _, _) | StmtForm::While(_, _) => false,
        StmtForm::Try(_, _, _) | StmtForm::Batch(_, _, _) => false,
    }
}

fn is_batch(s: &Stmt) -> bool
    ensures { result ≡ refusals.is_batch (mirror_stmt s.now) }
{
    match &s.form {
        StmtForm::Batch(_, _, _) => true,
        StmtForm::Val(_, _) | StmtForm::Var(_, _) | StmtForm::Assign(_, _) => false,
        StmtForm::Run(_) | StmtForm::Print(_) | StmtForm::Throw(_) => false,
        StmtForm::If(_, _, _) | StmtForm::While(_, _) => false,
        StmtForm::For(_, _, _) | StmtForm::Try(_, _, _) => false,
    }
}

fn is_remote_var(x: &Facts<'_>, s: &Stmt) -> bool
    ensures { result ≡ refusals.is_remote_var (facts x.now) (mirror_stmt s.now) }
{
    match &s.form {
        StmtForm::Var(_, e) => x.has_remote_type(e),
        StmtForm::Val(_, _) | StmtForm::Assign(_, _) | StmtForm::Batch(_, _, _) => false,
        StmtForm::Run(_) | StmtForm::Print(_) | StmtForm::Throw(_) => false,
        StmtForm::If(_, _, _) | StmtForm::While(_, _) => false,
        StmtForm::For(_, _, _) | StmtForm::Try(_, _, _) => false,
    }
}

fn keep_at_stmt(x: &Facts<'_>, standing: &Standing, first: &mut Option<Refusal>, s: &Stmt)
    ensures { first.new ≡ earliest (found_at_stmt (facts x.now) standing.now (mirror_stmt s.now)) first.old }
{
    let loops = is_rows_loop(x, s);
    keep_operation(first, loops, standing.condition, standing.tried, s.at);
    keep_if(first, is_batch(s), Refusal::BatchInside(s.at));
    keep_if(first, is_remote_var(x, s), Refusal::RemoteVar(s.at));
}

/// What is found at a statement, its expressions and blocks aside. The scope stays.
pub fn see_stmt(
    alloc: Global,
    x: &Facts<'_>,
    standing: &Standing,
    scope: &mut Scope,
    found: &mut Findings,
    s: &Stmt,
) -> Result<(), Memory>
    ensures found { OnOk result (found.new ≡ words.stmt_seen (facts x.now) standing.now scope.old found.old (mirror_stmt s.now)) }
    ensures scope { OnOk result (scope.new ≡ scope.old) }
{
    keep_at_stmt(x, standing, &mut found.first, s);
    push_stmt_writer(alloc, x, scope, &standing.around, &mut found.writers, s)?;
    look_at_loop(alloc, x, scope, &mut found.part, s)
}
