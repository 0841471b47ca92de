// The remote expressions of a statement.

#![tactic(auto, using(crate::proofs::Remotes::remote_rules))]

ghost use Rattle.std.specs.Prelude.{◌≡◌, ◌++◌, IfOk, OnOk};
ghost use Rattle.rb_trees.specs.mirror.Code.{mirror_expr, mirror_exprs, mirror_stmt};
ghost use Rattle.rb_meaning.specs.RemoteExprs as meant;
ghost use Rattle.rb_split.specs.Cutting.{below};
ghost use Rattle.rb_split.specs.Views.{facts, trees};

use rb_flow::is_portable_call;
use rb_marks::Facts;
use rb_scopes::Scope;
use rb_trees::{Expr, ExprForm, Memory, Seq, Stmt, StmtForm};
use std::alloc::Global;

// Adds an expression, where it is a remote one as a whole, or else those in its parts.
#[cycle(remotes)]
fn find_in<'e>(
    x: &Facts<'_>,
    scope: &Scope,
    found: &mut Seq<&'e Expr>,
    e: &'e Expr,
) -> Result<(), Memory>
    ensures { OnOk result (trees found.new ≡ trees found.old ++ meant.remote_in (facts x.now) scope.now (mirror_expr e.now)) }
{
    if is_portable_call(x, scope, e) {
        return found.push(e);
    }
    find_below(x, scope, found, e)
}

// Adds those in the parts of an expression.
#[cycle(remotes)]
fn find_below<'e>(
    x: &Facts<'_>,
    scope: &Scope,
    found: &mut Seq<&'e Expr>,
    e: &'e Expr,
) -> Result<(), Memory>
    ensures { OnOk result (trees found.new ≡ trees found.old ++ below (facts x.now) scope.now (mirror_expr e.now)) }
{
    match &e.form {
        ExprForm::Lit(_) | ExprForm::Name(_) | ExprForm::This | ExprForm::Taken(_) => Ok(()),
        ExprForm::Unary(_, a) | ExprForm::Field(a, _) => find_in(x, scope, found, a.get()),
        ExprForm::Binary(_, a, b) | ExprForm::Index(a, b) => {
            find_in(x, scope, found, a.get())?;
            find_in(x, scope, found, b.get())
        }
        ExprForm::Call(a, _, args) => {
            find_in(x, scope, found, a.get())?;
            find_in_all(x, scope, found, args.as_slice())
        }
        ExprForm::New(_, args) | ExprForm::Items(_, args) => {
            find_in_all(x, scope, found, args.as_slice())
        }
    }
}

// Adds those in expressions, from left to right.
#[cycle(remotes)]
fn find_in_all<'e>(
    x: &Facts<'_>,
    scope: &Scope,
    found: &mut Seq<&'e Expr>,
    es: &'e [Expr],
) -> Result<(), Memory>
    ensures { OnOk result (trees found.new ≡ trees found.old ++ meant.all_remote_in (facts x.now) scope.now (mirror_exprs es.now)) }
{
    'exprs: for e in es {
        find_in(x, scope, found, e)?;
    }
    Ok(())
}

// Adds those of a statement.
fn find_of<'e>(
    x: &Facts<'_>,
    scope: &Scope,
    found: &mut Seq<&'e Expr>,
    s: &'e Stmt,
) -> Result<(), Memory>
    ensures { OnOk result (trees found.new ≡ trees found.old ++ meant.remote_of (facts x.now) scope.now (mirror_stmt s.now)) }
{
    match &s.form {
        StmtForm::Val(_, e) | StmtForm::Var(_, e) => find_in(x, scope, found, e),
        StmtForm::Run(e) | StmtForm::Print(e) | StmtForm::Throw(e) => find_in(x, scope, found, e),
        StmtForm::Assign(a, b) => {
            find_in(x, scope, found, a)?;
            find_in(x, scope, found, b)
        }
        StmtForm::If(e, _, _) | StmtForm::While(e, _) => find_in(x, scope, found, e),
        StmtForm::For(_, e, _) => find_in(x, scope, found, e),
        StmtForm::Try(_, _, _) | StmtForm::Batch(_, _, _) => Ok(()),
    }
}

/// The remote expressions of a statement, in order of evaluation: `remote_of`.
pub fn remote_of<'e>(
    alloc: Global,
    x: &Facts<'_>,
    scope: &Scope,
    s: &'e Stmt,
) -> Result<Seq<&'e Expr>, Memory>
    ensures { IfOk result (λ es. trees es ≡ meant.remote_of (facts x.now) scope.now (mirror_stmt s.now)) }
{
    let mut found = Seq::new(alloc);
    find_of(x, scope, &mut found, s)?;
    Ok(found)
}
