// Bad parts: what is sent to the remote and isn't known when the batch begins.

#![tactic(auto, using(crate::proofs::Given::fact_rules))]

ghost use Rattle.std.specs.Prelude.{◌≡◌, IfOk, OnOk, cond, true};
ghost use Rattle.rb_trees.specs.mirror.Code.{mirror_expr, mirror_exprs, mirror_stmt};
ghost use Rattle.rb_flow.specs.Views.{facts};
ghost use Rattle.rb_flow.specs.Walked as words;

use crate::portable::is_portable;
use crate::reading::read_expr;
use crate::standing::Reading;
use rb_marks::Facts;
use rb_scopes::Scope;
use rb_trees::{BadPart, Expr, ExprForm, Memory, Seq, Stmt, StmtForm};
use std::alloc::Global;

fn part_of(alloc: Global, x: &Facts<'_>, scope: &Scope, e: &Expr) -> Result<BadPart, Memory>
    ensures { IfOk result (λ p. p ≡ words.part_of (facts x.now) scope.now (mirror_expr e.now)) }
{
    let mut reading = Reading::new(alloc);
    read_expr(x, scope, false, &mut reading, e)?;
    let Reading { nodes, sources } = reading;
    Ok(BadPart {
        at: e.at,
        reads: nodes,
        sources,
    })
}

fn is_less(part: &Option<BadPart>, at: u32) -> bool
    ensures { result ≡ words.less_than_part at part.now }
{
    match part {
        Some(part) => at < part.at,
        None => true,
    }
}

// Keeps an expression as the least bad part, where it is.
fn keep_part(
    alloc: Global,
    x: &Facts<'_>,
    scope: &Scope,
    part: &mut Option<BadPart>,
    e: &Expr,
) -> Result<(), Memory>
    ensures { OnOk result (part.new ≡ words.lesser_part part.old (words.part_of (facts x.now) scope.now (mirror_expr e.now))) }
{
    if is_less(part, e.at) {
        let found = part_of(alloc, x, scope, e)?;
        *part = Some(found);
    }
    Ok(())
}

fn keep_unless(
    alloc: Global,
    x: &Facts<'_>,
    scope: &Scope,
    part: &mut Option<BadPart>,
    known: bool,
    e: &Expr,
) -> Result<(), Memory>
    ensures { let own = words.part_of (facts x.now) scope.now (mirror_expr e.now) in
        OnOk result (part.new ≡ cond known part.old (words.lesser_part part.old own)) }
{
    if known {
        return Ok(());
    }
    keep_part(alloc, x, scope, part, e)
}

// Looks at an expression from above.
#[cycle(looks)]
fn look(
    alloc: Global,
    x: &Facts<'_>,
    scope: &Scope,
    part: &mut Option<BadPart>,
    e: &Expr,
) -> Result<(), Memory>
    ensures { OnOk result (part.new ≡ words.looked (facts x.now) scope.now part.old (mirror_expr e.now)) }
{
    match &e.form {
        ExprForm::Lit(_) => Ok(()),
        ExprForm::Unary(_, a) => look(alloc, x, scope, part, a.get()),
        ExprForm::Binary(_, a, b) => {
            look(alloc, x, scope, part, a.get())?;
            look(alloc, x, scope, part, b.get())
        }
        ExprForm::Name(_) => keep_unless(alloc, x, scope, part, is_portable(x, scope, e), e),
        ExprForm::Call(a, _, _) => keep_unless(alloc, x, scope, part, x.is_remote(a.get()), e),
        ExprForm::This | ExprForm::Field(_, _) => keep_part(alloc, x, scope, part, e),
        ExprForm::Index(_, _) | ExprForm::New(_, _) => keep_part(alloc, x, scope, part, e),
        ExprForm::Items(_, _) | ExprForm::Taken(_) => keep_part(alloc, x, scope, part, e),
    }
}

fn look_at_all(
    alloc: Global,
    x: &Facts<'_>,
    scope: &Scope,
    part: &mut Option<BadPart>,
    es: &[Expr],
) -> Result<(), Memory>
    ensures { OnOk result (part.new ≡ words.all_looked (facts x.now) scope.now part.old (mirror_exprs es.now)) }
{
    for e in es {
        look(alloc, x, scope, part, e)?;
    }
    Ok(())
}

/// Looks at the receiver and the arguments of what may be a remote call.
pub fn look_at_call(
    alloc: Global,
    x: &Facts<'_>,
    scope: &Scope,
    part: &mut Option<BadPart>,
    e: &Expr,
) -> Result<(), Memory>
    ensures { OnOk result (part.new ≡ words.call_looked (facts x.now) scope.now part.old (mirror_expr e.now)) }
{
    match &e.form {
        ExprForm::Call(a, _, args) => {
            if x.is_remote(a.get()) {
                look(alloc, x, scope, part, a.get())?;
                look_at_all(alloc, x, scope, part, args.as_slice())
            } else {
                Ok(())
            }
        }
        ExprForm::Lit(_) | ExprForm::Name(_) | ExprForm::This | ExprForm::Unary(_, _) => Ok(()),
        ExprForm::Binary(_, _, _) | ExprForm::Field(_, _) | ExprForm::Index(_, _) => Ok(()),
        ExprForm::New(_, _) | ExprForm::Items(_, _) | ExprForm::Taken(_) => Ok(()),
    }
}

/// Looks at what may be a loop over rows.
#[tactic(auto, using(crate::proofs::Trees::stmt_rules))]
pub fn look_at_loop(
    alloc: Global,
    x: &Facts<'_>,
    scope: &Scope,
    part: &mut Option<BadPart>,
    s: &Stmt,
) -> Result<(), Memory>
    ensures { OnOk result (part.new ≡ words.loop_looked (facts x.now) scope.now part.old (mirror_stmt s.now)) }
{
    match &s.form {
        StmtForm::For(_, e, _) => {
            if x.over_rows(e) {
                look(alloc, x, scope, part, e)
            } else {
                Ok(())
            }
        }
        StmtForm::Val(_, _) | StmtForm::Var(_, _) | StmtForm::Assign(_, _) => Ok(()),
        StmtForm::Run(_) | StmtForm::Print(_) | StmtForm::Throw(_) => Ok(()),
        StmtForm::If(_, _, _) | StmtForm::While(_, _) => Ok(()),
        StmtForm::Try(_, _, _) | StmtForm::Batch(_, _, _) => Ok(()),
    }
}
