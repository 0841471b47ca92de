// Portable and constant expressions, and what holds a remote call or operation.
#![tactic(auto, using(crate::proofs::Rules::expr_rules))]

ghost use Rattle.std.specs.Prelude.{◌≡◌};
ghost use Rattle.rb_trees.specs.mirror.Code.{mirror_expr, mirror_exprs, mirror_stmt, mirror_stmts};
ghost use Rattle.rb_meaning_flow.specs.Portable as words;
ghost use Rattle.rb_marks.specs.Views.{told, facts_in, seen};

use crate::batch::Batch;
use crate::facts::Facts;
use rb_scopes::Scope;
use rb_trees::{Expr, ExprForm, Stmt, StmtForm};

/// Whether an expression is portable.
#[cycle(portables)]
pub fn is_portable(x: &Batch, scope: &Scope, e: &Expr) -> bool
    ensures { result ≡ words.portable (facts_in x.now) (seen x.now scope.now) (mirror_expr e.now) }
{
    match &e.form {
        ExprForm::Lit(_) => true,
        ExprForm::Name(name) => x.is_portable(scope, name),
        ExprForm::Unary(_, a) => is_portable(x, scope, a.get()),
        ExprForm::Binary(_, a, b) => is_portable(x, scope, a.get())
            && is_portable(x, scope, b.get()),
        ExprForm::Call(a, _, args) => {
            x.facts.is_remote(a.get())
                && is_portable(x, scope, a.get())
                && all_portable(x, scope, args.as_slice())
        }
        ExprForm::This | ExprForm::Field(_, _) | ExprForm::Index(_, _) => false,
        ExprForm::New(_, _) | ExprForm::Items(_, _) | ExprForm::Taken(_) => false,
    }
}

#[cycle(portables)]
fn all_portable(x: &Batch, scope: &Scope, es: &[Expr]) -> bool
    ensures { result ≡ words.all_portable (facts_in x.now) (seen x.now scope.now) (mirror_exprs es.now) }
{
    for e in es {
        if !is_portable(x, scope, e) {
            return false;
        }
    }
    true
}

/// Whether an expression is of literals, operators and constant variables alone.
pub fn is_constant(x: &Batch, scope: &Scope, e: &Expr) -> bool
    ensures { result ≡ words.is_constant (seen x.now scope.now) (mirror_expr e.now) }
{
    match &e.form {
        ExprForm::Lit(_) => true,
        ExprForm::Name(name) => x.is_constant(scope, name),
        ExprForm::Unary(_, a) => is_constant(x, scope, a.get()),
        ExprForm::Binary(_, a, b) => is_constant(x, scope, a.get())
            && is_constant(x, scope, b.get()),
        ExprForm::This | ExprForm::Field(_, _) | ExprForm::Index(_, _) => false,
        ExprForm::Call(_, _, _) | ExprForm::New(_, _) => false,
        ExprForm::Items(_, _) | ExprForm::Taken(_) => false,
    }
}

/// Whether a remote call stands in an expression.
#[cycle(calls)]
pub fn holds_call(facts: &Facts, e: &Expr) -> bool
    ensures { result ≡ words.holds_call (told facts.now) (mirror_expr e.now) }
{
    match &e.form {
        ExprForm::Lit(_) | ExprForm::Name(_) | ExprForm::This | ExprForm::Taken(_) => false,
        ExprForm::Unary(_, a) | ExprForm::Field(a, _) => holds_call(facts, a.get()),
        ExprForm::Binary(_, a, b) | ExprForm::Index(a, b) => {
            holds_call(facts, a.get()) || holds_call(facts, b.get())
        }
        ExprForm::Call(a, _, args) => {
            facts.is_remote(a.get())
                || holds_call(facts, a.get())
                || any_holds_call(facts, args.as_slice())
        }
        ExprForm::New(_, args) | ExprForm::Items(_, args) => any_holds_call(facts, args.as_slice()),
    }
}

#[cycle(calls)]
fn any_holds_call(facts: &Facts, es: &[Expr]) -> bool
    ensures { result ≡ words.any_holds_call (told facts.now) (mirror_exprs es.now) }
{
    for e in es {
        if holds_call(facts, e) {
            return true;
        }
    }
    false
}

/// Whether a remote operation stands in a statement.
#[cycle(operations)]
#[tactic(auto, using(crate::proofs::Rules::stmt_rules))]
pub fn holds_operation(facts: &Facts, s: &Stmt) -> bool
    ensures { result ≡ words.holds_operation (told facts.now) (mirror_stmt s.now) }
{
    match &s.form {
        StmtForm::Val(_, e) | StmtForm::Var(_, e) => holds_call(facts, e),
        StmtForm::Run(e) | StmtForm::Print(e) | StmtForm::Throw(e) => holds_call(facts, e),
        StmtForm::Assign(a, b) => holds_call(facts, a) || holds_call(facts, b),
        StmtForm::If(c, a, b) => {
            holds_call(facts, c)
                || block_holds(facts, a.as_slice())
                || block_holds(facts, b.as_slice())
        }
        StmtForm::While(c, a) => holds_call(facts, c) || block_holds(facts, a.as_slice()),
        StmtForm::For(_, e, a) => {
            facts.over_rows(e) || holds_call(facts, e) || block_holds(facts, a.as_slice())
        }
        StmtForm::Try(a, _, b) => {
            block_holds(facts, a.as_slice()) || block_holds(facts, b.as_slice())
        }
        StmtForm::Batch(_, _, a) => block_holds(facts, a.as_slice()),
    }
}

/// Whether one stands in a block.
#[cycle(operations)]
#[tactic(auto, using(crate::proofs::Rules::stmt_rules))]
pub fn block_holds(facts: &Facts, ss: &[Stmt]) -> bool
    ensures { result ≡ words.block_holds (told facts.now) (mirror_stmts ss.now) }
{
    for s in ss {
        if holds_operation(facts, s) {
            return true;
        }
    }
    false
}

/// Whether a remote operation stands in one of the branches of an `if`.
pub fn branches_hold(facts: &Facts, a: &[Stmt], b: &[Stmt]) -> bool
    ensures { result ≡ words.branches_hold (told facts.now) (mirror_stmts a.now) (mirror_stmts b.now) }
{
    block_holds(facts, a) || block_holds(facts, b)
}

/// Whether an expression is the name of a constant list.
pub fn is_constant_list(x: &Batch, scope: &Scope, e: &Expr) -> bool
    ensures { result ≡ words.is_constant_list (seen x.now scope.now) (mirror_expr e.now) }
{
    match &e.form {
        ExprForm::Name(name) => x.is_list(scope, name),
        ExprForm::Lit(_) | ExprForm::This | ExprForm::Unary(_, _) => false,
        ExprForm::Binary(_, _, _) | ExprForm::Field(_, _) | ExprForm::Index(_, _) => false,
        ExprForm::Call(_, _, _) | ExprForm::New(_, _) => false,
        ExprForm::Items(_, _) | ExprForm::Taken(_) => false,
    }
}

/// Whether a loop's turns are the script's, where it stands at a script place.
pub fn has_far_turns(x: &Batch, scope: &Scope, list: &Expr, block: &[Stmt]) -> bool
    ensures { result ≡ words.has_far_turns (facts_in x.now) (seen x.now scope.now) (mirror_expr list.now) (mirror_stmts block.now) }
{
    x.facts.over_rows(list) || is_constant_list(x, scope, list) && block_holds(x.facts, block)
}
