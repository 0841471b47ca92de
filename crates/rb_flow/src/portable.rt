// What is portable, and what holds a call.

#![tactic(auto, using(crate::proofs::Given::fact_rules))]

ghost use Rattle.std.specs.Prelude.{◌≡◌};
ghost use Rattle.rb_trees.specs.mirror.Code.{mirror_expr, mirror_exprs, mirror_stmts};
ghost use Rattle.rb_meaning_flow.specs.Scopes.{is_list_role, is_portable_role};
ghost use Rattle.rb_meaning_flow.specs.Portable as told;
ghost use Rattle.rb_meaning_flow.specs.Refusals as refusals;
ghost use Rattle.rb_flow.specs.Views.{facts};

use crate::scope::role_of;
use rb_marks::{Facts, block_holds};
use rb_meaning_flow::Role;
use rb_scopes::Scope;
use rb_trees::{Expr, ExprForm, Stmt};

fn is_portable_variable(role: Role) -> bool
    ensures { result ≡ is_portable_role role }
{
    match role {
        Role::Constant | Role::Root | Role::Row | Role::Carried => true,
        Role::ConstantList | Role::Plain => false,
    }
}

fn is_list_variable(role: Role) -> bool
    ensures { result ≡ is_list_role role }
{
    match role {
        Role::ConstantList => true,
        Role::Constant | Role::Root | Role::Row | Role::Carried | Role::Plain => false,
    }
}

/// Whether an expression is portable.
#[cycle(portables)]
pub fn is_portable(x: &Facts<'_>, scope: &Scope, e: &Expr) -> bool
    ensures { result ≡ told.portable (facts x.now) scope.now (mirror_expr e.now) }
{
    match &e.form {
        ExprForm::Lit(_) => true,
        ExprForm::Name(name) => is_portable_variable(role_of(scope, name)),
        ExprForm::Unary(_, a) => is_portable(x, scope, a.get()),
        ExprForm::Binary(_, a, b) => is_portable(x, scope, a.get())
            && is_portable(x, scope, b.get()),
        ExprForm::Call(a, _, args) => {
            x.is_remote(a.get())
                && is_portable(x, scope, a.get())
                && are_portable(x, scope, args.as_slice())
        }
        ExprForm::This | ExprForm::Field(_, _) | ExprForm::Index(_, _) => false,
        ExprForm::New(_, _) | ExprForm::Items(_, _) | ExprForm::Taken(_) => false,
    }
}

#[cycle(portables)]
fn are_portable(x: &Facts<'_>, scope: &Scope, es: &[Expr]) -> bool
    ensures { result ≡ told.all_portable (facts x.now) scope.now (mirror_exprs es.now) }
{
    for e in es {
        if !is_portable(x, scope, e) {
            return false;
        }
    }
    true
}

/// Whether an expression is the name of a constant list.
pub fn is_constant_list(scope: &Scope, e: &Expr) -> bool
    ensures { result ≡ told.is_constant_list scope.now (mirror_expr e.now) }
{
    match &e.form {
        ExprForm::Name(name) => is_list_variable(role_of(scope, name)),
        ExprForm::Lit(_) | ExprForm::This | ExprForm::Unary(_, _) => false,
        ExprForm::Binary(_, _, _) | ExprForm::Field(_, _) | ExprForm::Index(_, _) => false,
        ExprForm::Call(_, _, _) | ExprForm::New(_, _) => false,
        ExprForm::Items(_, _) | ExprForm::Taken(_) => false,
    }
}

/// Whether the script can take a loop along: over a constant list, and with a remote operation in its block.
pub fn may_carry(x: &Facts<'_>, scope: &Scope, list: &Expr, block: &[Stmt]) -> bool
    ensures { result ≡ told.may_carry (facts x.now) scope.now (mirror_expr list.now) (mirror_stmts block.now) }
{
    is_constant_list(scope, list) && block_holds(x, block)
}

/// Whether a loop's turns are the script's, where it stands at a script place.
pub fn has_far_turns(x: &Facts<'_>, scope: &Scope, list: &Expr, block: &[Stmt]) -> bool
    ensures { result ≡ told.has_far_turns (facts x.now) scope.now (mirror_expr list.now) (mirror_stmts block.now) }
{
    x.over_rows(list) || may_carry(x, scope, list, block)
}

/// Whether a call stands in an expression, remote or not.
#[cycle(any_calls)]
pub fn has_call(e: &Expr) -> bool
    ensures { result ≡ refusals.has_call (mirror_expr e.now) }
{
    match &e.form {
        ExprForm::Call(_, _, _) => true,
        ExprForm::Lit(_) | ExprForm::Name(_) | ExprForm::This | ExprForm::Taken(_) => false,
        ExprForm::Unary(_, a) | ExprForm::Field(a, _) => has_call(a.get()),
        ExprForm::Binary(_, a, b) | ExprForm::Index(a, b) => has_call(a.get()) || has_call(b.get()),
        ExprForm::New(_, args) | ExprForm::Items(_, args) => any_has_call(args.as_slice()),
    }
}

#[cycle(any_calls)]
fn any_has_call(es: &[Expr]) -> bool
    ensures { result ≡ refusals.any_has_call (mirror_exprs es.now) }
{
    for e in es {
        if has_call(e) {
            return true;
        }
    }
    false
}
