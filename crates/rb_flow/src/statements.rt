// The walk through the statements of a batch.

#![tactic(auto, using(crate::proofs::WalkRules::walk_stmt_rules))]

ghost use Rattle.std.specs.Prelude.{◌≡◌, true, take, length, IfOk, OnOk};
ghost use Rattle.rb_trees.specs.mirror.Code.{mirror_expr, mirror_stmt};
ghost use Rattle.rb_marks.specs.Views.{with_declared};
ghost use Rattle.rb_flow.specs.ByTrees.{whole_walked, block_walked, branch_standing, turn_standing};
ghost use Rattle.rb_flow.specs.Views.{facts};
ghost use Rattle.rb_flow.specs.Walked as words;

use crate::findings::Findings;
use crate::frames::{
    Branch, batch_standing, branch_standing, try_standing, turn_standing, val_role, while_inside,
    while_standing, whole_inside,
};
use crate::portable::has_call;
use crate::scope::bind;
use crate::seen::see_stmt;
use crate::standing::Standing;
use crate::walk::walk_expr;
use rb_marks::{Declared, Facts, bind_declared};
use rb_meaning_flow::Role;
use rb_scopes::Scope;
use rb_trees::{Expr, Memory, Seq, Stmt, StmtForm};
use std::alloc::Global;

// What the variable of a loop is, whose block is a script place or isn't.
fn turn_role(rows: bool, script: bool) -> Role
    ensures { result ≡ words.turn_role rows script }
{
    if rows || script {
        Role::Row
    } else {
        Role::Plain
    }
}

// An outermost expression, where a remote object may stand or not.
fn walk_whole(
    alloc: Global,
    x: &Facts<'_>,
    standing: &Standing,
    scope: &Scope,
    found: &mut Findings,
    may: bool,
    e: &Expr,
) -> Result<(), Memory>
    ensures { OnOk result (found.new ≡ whole_walked x.now standing.now scope.now may found.old e.now) }
{
    let inside = whole_inside(standing, may);
    walk_expr(alloc, x, scope, &standing.around, &inside, found, e)
}

// Both sides of an assignment.
fn walk_sides(
    alloc: Global,
    x: &Facts<'_>,
    standing: &Standing,
    scope: &Scope,
    found: &mut Findings,
    a: &Expr,
    b: &Expr,
) -> Result<(), Memory>
    ensures { let walked = words.sides_walked (facts x.now) standing.now scope.now in
        OnOk result (found.new ≡ walked found.old (mirror_expr a.now) (mirror_expr b.now)) }
{
    walk_whole(alloc, x, standing, scope, found, false, a)?;
    walk_whole(alloc, x, standing, scope, found, false, b)
}

// The condition of an `if`, and what stands around its branches.
fn enter_if(
    alloc: Global,
    x: &Facts<'_>,
    standing: &Standing,
    scope: &Scope,
    found: &mut Findings,
    branch: &Branch<'_>,
) -> Result<Standing, Memory>
    ensures found { let condition = mirror_expr branch.now.condition.now in
        OnOk result (found.new ≡ words.condition_walked (facts x.now) standing.now scope.now found.old condition) }
    ensures within { let branch = branch.now in
        let within = branch_standing x.now scope.now standing.now branch.condition.now branch.yes.now branch.no.now in
        IfOk result (λ s. s ≡ within) }
{
    let c = branch.condition;
    let within = branch_standing(alloc, x, scope, standing, branch)?;
    let inside = whole_inside(standing, false);
    walk_expr(alloc, x, scope, &within.around, &inside, found, c)?;
    Ok(within)
}

// The condition of a `while`, and what stands around its block.
fn enter_while(
    alloc: Global,
    x: &Facts<'_>,
    standing: &Standing,
    scope: &Scope,
    found: &mut Findings,
    c: &Expr,
) -> Result<Standing, Memory>
    ensures found { OnOk result (found.new ≡ words.turns_walked (facts x.now) standing.now scope.now found.old (mirror_expr c.now)) }
    ensures within { IfOk result (λ s. s ≡ words.while_standing (facts x.now) scope.now standing.now (mirror_expr c.now)) }
{
    let within = while_standing(alloc, x, scope, standing, c)?;
    let inside = while_inside(standing, c);
    walk_expr(alloc, x, scope, &within.around, &inside, found, c)?;
    Ok(within)
}

// The list or rows of a `for`, and what stands around its block.
fn enter_for(
    alloc: Global,
    x: &Facts<'_>,
    standing: &Standing,
    scope: &Scope,
    found: &mut Findings,
    e: &Expr,
    block: &Seq<Stmt>,
) -> Result<Standing, Memory>
    ensures found { OnOk result (found.new ≡ words.list_walked (facts x.now) standing.now scope.now found.old (mirror_expr e.now)) }
    ensures within { IfOk result (λ s. s ≡ turn_standing x.now scope.now standing.now e.now block.now) }
{
    let within = turn_standing(alloc, x, scope, standing, e, block.as_slice())?;
    let inside = whole_inside(standing, x.over_rows(e));
    walk_expr(alloc, x, scope, &within.around, &inside, found, e)?;
    Ok(within)
}

// A statement, and what it declares.
#[cycle(stmts)]
fn walk_stmt(
    alloc: Global,
    x: &Facts<'_>,
    standing: &Standing,
    scope: &mut Scope,
    found: &mut Findings,
    s: &Stmt,
) -> Result<(), Memory>
    ensures found { OnOk result (found.new ≡ words.stmt_walked (facts x.now) standing.now scope.old found.old (mirror_stmt s.now)) }
    ensures scope { OnOk result (scope.new ≡ words.scope_then (facts x.now) standing.now scope.old (mirror_stmt s.now)) }
{
    see_stmt(alloc, x, standing, scope, found, s)?;
    walk_within(alloc, x, standing, scope, found, s)
}

// The expressions and blocks of a statement, and what it declares.
#[cycle(stmts)]
fn walk_within(
    alloc: Global,
    x: &Facts<'_>,
    standing: &Standing,
    scope: &mut Scope,
    found: &mut Findings,
    s: &Stmt,
) -> Result<(), Memory>
    ensures found { OnOk result (found.new ≡ words.within_walked (facts x.now) standing.now scope.old found.old (mirror_stmt s.now)) }
    ensures scope { OnOk result (scope.new ≡ words.scope_then (facts x.now) standing.now scope.old (mirror_stmt s.now)) }
{
    let at = s.at;
    match &s.form {
        StmtForm::Val(name, e) => {
            walk_whole(alloc, x, standing, scope, found, standing.script, e)?;
            let role = val_role(x, standing, scope, e);
            bind(alloc, scope, name, role, at)
        }
        StmtForm::Var(name, e) => {
            walk_whole(alloc, x, standing, scope, found, true, e)?;
            bind(alloc, scope, name, Role::Plain, at)
        }
        StmtForm::Assign(a, b) => walk_sides(alloc, x, standing, scope, found, a, b),
        StmtForm::Run(e) => walk_whole(alloc, x, standing, scope, found, has_call(e), e),
        StmtForm::Print(e) | StmtForm::Throw(e) => {
            walk_whole(alloc, x, standing, scope, found, false, e)
        }
        StmtForm::If(condition, yes, no) => {
            let branch = Branch { condition, yes, no };
            let within = enter_if(alloc, x, standing, scope, found, &branch)?;
            walk_block(alloc, x, &within, scope, found, yes.as_slice())?;
            walk_block(alloc, x, &within, scope, found, no.as_slice())
        }
        StmtForm::While(c, a) => {
            let within = enter_while(alloc, x, standing, scope, found, c)?;
            walk_block(alloc, x, &within, scope, found, a.as_slice())
        }
        StmtForm::For(name, e, a) => {
            let within = enter_for(alloc, x, standing, scope, found, e, a)?;
            let role = turn_role(x.over_rows(e), within.script);
            let own = Declared { name, role, at };
            walk_opened(alloc, x, &within, scope, found, &own, a)
        }
        StmtForm::Try(a, name, b) => {
            let own = Declared::plain(name, at);
            let within = try_standing(alloc, x, scope, standing, a, &own, b)?;
            walk_block(alloc, x, &within, scope, found, a.as_slice())?;
            walk_opened(alloc, x, &within, scope, found, &own, b)
        }
        StmtForm::Batch(_, name, a) => {
            let own = Declared::plain(name, at);
            let within = batch_standing(alloc, standing)?;
            walk_opened(alloc, x, &within, scope, found, &own, a)
        }
    }
}

// A block, whose variables go at its end.
#[cycle(stmts)]
fn walk_block(
    alloc: Global,
    x: &Facts<'_>,
    standing: &Standing,
    scope: &mut Scope,
    found: &mut Findings,
    ss: &[Stmt],
) -> Result<(), Memory>
    ensures found { OnOk result (found.new ≡ block_walked x.now standing.now scope.old found.old ss.now) }
    ensures scope { OnOk result (scope.new ≡ scope.old) }
{
    let count = scope.len();
    walk_stmts(alloc, x, standing, scope, found, ss)?;
    scope.truncate(count);
    Ok(())
}

// The same of a block with a variable of its own.
#[cycle(stmts)]
fn walk_opened(
    alloc: Global,
    x: &Facts<'_>,
    standing: &Standing,
    scope: &mut Scope,
    found: &mut Findings,
    own: &Declared<'_>,
    ss: &Seq<Stmt>,
) -> Result<(), Memory>
    ensures found { OnOk result (found.new ≡ block_walked x.now standing.now (with_declared scope.old own.now) found.old ss.now) }
    ensures scope { OnOk result (scope.new ≡ scope.old) }
{
    let count = scope.len();
    bind_declared(alloc, scope, own)?;
    walk_stmts(alloc, x, standing, scope, found, ss.as_slice())?;
    scope.truncate(count);
    Ok(())
}

/// What is found at some statements, one after the other.
#[cycle(stmts)]
pub fn walk_stmts(
    alloc: Global,
    x: &Facts<'_>,
    standing: &Standing,
    scope: &mut Scope,
    found: &mut Findings,
    ss: &[Stmt],
) -> Result<(), Memory>
    ensures found { OnOk result (found.new ≡ block_walked x.now standing.now scope.old found.old ss.now) }
    ensures kept { OnOk result (take (length scope.old) scope.new ≡ scope.old) }
{
    for s in ss {
        walk_stmt(alloc, x, standing, scope, found, s)?;
    }
    Ok(())
}
