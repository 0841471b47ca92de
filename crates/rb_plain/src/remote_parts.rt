// Performs what is remote in the expressions of a batch.

ghost use Rattle.std.specs.Prelude.{[], ◌∷◌};
ghost use Rattle.rb_trees.specs.mirror.Code.{mirror_expr};
ghost use Rattle.rb_plain.specs.Parts.{all_parts_meant, both_meant, part_meant, parts_meant, performed_meant, sent_meant};
ghost use Rattle.rb_plain.specs.Remote.{Ended};

use crate::remote_world::{RemoteWorld, value_of};
use rb_engine::{Frame, Miss};
use rb_flow::is_portable_call;
use rb_scopes::Scope;
use rb_trees::{Expr, ExprForm, Seq};
use std::alloc::Global;

// A remote expression, whose value isn't of use.
#[inline(never)]
fn perform_whole(
    alloc: Global,
    world: &mut RemoteWorld<'_>,
    frame: &Frame,
    expr: &Expr,
) -> Result<(), Miss>
    ensures { Ended (performed_meant world.old (mirror_expr expr.now ∷ []) frame.now) result world.old world.new }
{
    let _value = value_of(alloc, world, frame, expr)?;
    Ok(())
}

/// Performs an expression, where it is a remote one as a whole, or else those in its parts: `remote_in`.
#[cycle(parts)]
#[inline(never)]
pub fn perform_in(
    alloc: Global,
    world: &mut RemoteWorld<'_>,
    scope: &Scope,
    frame: &Frame,
    expr: &Expr,
) -> Result<(), Miss>
    ensures { Ended (part_meant world.old scope.now expr.now frame.now) result world.old world.new }
{
    if is_portable_call(world.stage.facts(), scope, expr) {
        return perform_whole(alloc, world, frame, expr);
    }
    perform_parts(alloc, world, scope, frame, expr)
}

// The remote expressions in the parts of an expression.
#[cycle(parts)]
#[inline(never)]
fn perform_parts(
    alloc: Global,
    world: &mut RemoteWorld<'_>,
    scope: &Scope,
    frame: &Frame,
    expr: &Expr,
) -> Result<(), Miss>
    ensures { Ended (parts_meant world.old scope.now expr.now frame.now) result world.old world.new }
{
    match &expr.form {
        ExprForm::Lit(_) => Ok(()),
        ExprForm::Name(_) => Ok(()),
        ExprForm::This => Ok(()),
        ExprForm::Taken(_) => Ok(()),
        ExprForm::Unary(_, a) => perform_in(alloc, world, scope, frame, a.get()),
        ExprForm::Field(a, _) => perform_in(alloc, world, scope, frame, a.get()),
        ExprForm::Binary(_, a, b) => perform_both(alloc, world, scope, frame, a.get(), b.get()),
        ExprForm::Index(a, b) => perform_both(alloc, world, scope, frame, a.get(), b.get()),
        ExprForm::Call(a, _, args) => perform_sent(alloc, world, scope, frame, a.get(), args),
        ExprForm::New(_, args) => perform_in_all(alloc, world, scope, frame, args.as_slice()),
        ExprForm::Items(_, args) => perform_in_all(alloc, world, scope, frame, args.as_slice()),
    }
}

// The remote expressions in two expressions.
#[cycle(parts)]
#[inline(never)]
pub fn perform_both(
    alloc: Global,
    world: &mut RemoteWorld<'_>,
    scope: &Scope,
    frame: &Frame,
    a: &Expr,
    b: &Expr,
) -> Result<(), Miss>
    ensures { Ended (both_meant world.old scope.now a.now b.now frame.now) result world.old world.new }
{
    perform_in(alloc, world, scope, frame, a)?;
    perform_in(alloc, world, scope, frame, b)
}

// The remote expressions in the receiver and the arguments of a call.
#[cycle(parts)]
#[inline(never)]
fn perform_sent(
    alloc: Global,
    world: &mut RemoteWorld<'_>,
    scope: &Scope,
    frame: &Frame,
    receiver: &Expr,
    args: &Seq<Expr>,
) -> Result<(), Miss>
    ensures { Ended (sent_meant world.old scope.now receiver.now args.now frame.now) result world.old world.new }
{
    perform_in(alloc, world, scope, frame, receiver)?;
    perform_in_all(alloc, world, scope, frame, args.as_slice())
}

// The remote expressions in expressions, from left to right.
#[cycle(parts)]
#[inline(never)]
fn perform_in_all(
    alloc: Global,
    world: &mut RemoteWorld<'_>,
    scope: &Scope,
    frame: &Frame,
    exprs: &[Expr],
) -> Result<(), Miss>
    ensures { Ended (all_parts_meant world.old scope.now exprs.now frame.now) result world.old world.new }
{
    'exprs: for expr in exprs {
        perform_in(alloc, world, scope, frame, expr)?;
    }
    Ok(())
}
