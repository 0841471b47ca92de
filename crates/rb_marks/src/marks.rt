// The walk through a batch: the marks of its expressions, and the places of its statements.
#![tactic(auto, using(crate::proofs::Rules::mark_rules))]

ghost use Rattle.std.specs.Prelude.{◌≡◌, false, take, length, OnOk};
ghost use Rattle.rb_trees.specs.mirror.Code.{mirror_expr, mirror_stmts};
ghost use Rattle.rb_marks.specs.Passes as passes;
ghost use Rattle.rb_marks.specs.Views.{told, facts_in, seen};
ghost use Rattle.rb_marks.specs.Walks as walks;

use crate::batch::Batch;
use crate::declared::{Declared, bind_declared};
use crate::facts::Facts;
use crate::places::note_place;
use crate::portable::{block_holds, has_far_turns, holds_call, is_constant, is_portable};
use rb_meaning_flow::Role;
use rb_scopes::Scope;
use rb_trees::{Expr, ExprForm, Mark, Memory, Place, Stmt, StmtForm};

/// What is noted on the way, with its positions: the marks of expressions, and the places of statements.
#[derive(Drop)]
pub struct Notes {
    pub marks: Vec<(u32, Mark)>,
    pub places: Vec<(u32, Place)>,
}

fn inner(x: &Batch, scope: &Scope, inside: bool, e: &Expr) -> bool
    ensures { result ≡ passes.inner (facts_in x.now) (seen x.now scope.now) inside (mirror_expr e.now) }
{
    inside || is_portable(x, scope, e) && holds_call(x.facts, e)
}

fn mark_of(x: &Batch, scope: &Scope, remote: bool, e: &Expr) -> Mark
    ensures { result ≡ passes.mark_of (seen x.now scope.now) remote (mirror_expr e.now) }
{
    if remote {
        return Mark::Remote;
    }
    if is_constant(x, scope, e) {
        return Mark::Constant;
    }
    Mark::Local
}

fn note(
    x: &Batch,
    scope: &Scope,
    remote: bool,
    notes: &mut Vec<(u32, Mark)>,
    e: &Expr,
) -> Result<(), Memory>
    ensures { OnOk result (notes.new.items ≡ passes.note (seen x.now scope.now) remote notes.old.items (mirror_expr e.now)) }
{
    let mark = mark_of(x, scope, remote, e);
    notes.push((e.at, mark))?;
    Ok(())
}

// Notes the marks of an expression's parts.
#[cycle(exprs)]
fn mark_parts(
    x: &Batch,
    scope: &Scope,
    inside: bool,
    notes: &mut Vec<(u32, Mark)>,
    e: &Expr,
) -> Result<(), Memory>
    ensures { OnOk result (notes.new.items ≡ walks.part_marks x.now scope.now inside notes.old.items e.now) }
{
    match &e.form {
        ExprForm::Lit(_) | ExprForm::Name(_) | ExprForm::This | ExprForm::Taken(_) => Ok(()),
        ExprForm::Unary(_, a) | ExprForm::Field(a, _) => mark_expr(
            x,
            scope,
            inside,
            notes,
            a.get(),
        ),
        ExprForm::Binary(_, a, b) | ExprForm::Index(a, b) => {
            mark_expr(x, scope, inside, notes, a.get())?;
            mark_expr(x, scope, inside, notes, b.get())
        }
        ExprForm::Call(a, _, args) => {
            mark_expr(x, scope, inside, notes, a.get())?;
            mark_exprs(x, scope, inside, notes, args.as_slice())
        }
        ExprForm::New(_, args) | ExprForm::Items(_, args) => {
            mark_exprs(x, scope, inside, notes, args.as_slice())
        }
    }
}

// Notes the marks of an expression and of its parts.
#[cycle(exprs)]
fn mark_expr(
    x: &Batch,
    scope: &Scope,
    inside: bool,
    notes: &mut Vec<(u32, Mark)>,
    e: &Expr,
) -> Result<(), Memory>
    ensures { OnOk result (notes.new.items ≡ walks.expr_marks x.now scope.now inside notes.old.items e.now) }
{
    let remote = inner(x, scope, inside, e);
    note(x, scope, remote, notes, e)?;
    mark_parts(x, scope, remote, notes, e)
}

#[cycle(exprs)]
fn mark_exprs(
    x: &Batch,
    scope: &Scope,
    inside: bool,
    notes: &mut Vec<(u32, Mark)>,
    es: &[Expr],
) -> Result<(), Memory>
    ensures { OnOk result (notes.new.items ≡ walks.exprs_marks x.now scope.now inside notes.old.items es.now) }
{
    for e in es {
        mark_expr(x, scope, inside, notes, e)?;
    }
    Ok(())
}

// Whether the branches of an `if` are script places.
fn branch_script(facts: &Facts, script: bool, a: &[Stmt], b: &[Stmt]) -> bool
    ensures { result ≡ passes.branch_script (told facts.now) script (mirror_stmts a.now) (mirror_stmts b.now) }
{
    script && (block_holds(facts, a) || block_holds(facts, b))
}

// Whether the block of a loop is a script place.
fn turn_script(x: &Batch, script: bool, scope: &Scope, list: &Expr, block: &[Stmt]) -> bool
    ensures { result ≡ passes.turn_script (facts_in x.now) script (seen x.now scope.now) (mirror_expr list.now) (mirror_stmts block.now) }
{
    script && has_far_turns(x, scope, list, block)
}

// What the variable of a loop is, whose block is a script place or isn't.
fn turn_role(rows: bool, script: bool) -> Role
    ensures { result ≡ passes.turn_role rows script }
{
    if rows || script {
        Role::Row
    } else {
        Role::Plain
    }
}

fn carried_role(x: &Batch, script: bool, scope: &Scope, e: &Expr) -> Role
    ensures { result ≡ passes.carried_role (facts_in x.now) script (seen x.now scope.now) (mirror_expr e.now) }
{
    if script && is_portable(x, scope, e) {
        Role::Carried
    } else {
        Role::Plain
    }
}

// Notes the marks and places in a statement, and binds what it declares.
#[cycle(stmts)]
#[tactic(auto, using(crate::proofs::Rules::stmt_mark_rules))]
fn mark_stmt(
    x: &Batch,
    script: bool,
    scope: &mut Scope,
    notes: &mut Notes,
    s: &Stmt,
) -> Result<(), Memory>
    ensures marks { OnOk result (notes.new.marks.items ≡ walks.stmt_marks x.now script scope.old notes.old.marks.items s.now) }
    ensures places { OnOk result (notes.new.places.items ≡ walks.stmt_places x.now script scope.old notes.old.places.items s.now) }
    ensures scope { OnOk result (scope.new ≡ walks.scope_behind x.now script scope.old s.now) }
{
    note_place(x.facts, script, &mut notes.places, s)?;
    let at = s.at;
    match &s.form {
        StmtForm::Val(name, e) => {
            mark_expr(x, scope, false, &mut notes.marks, e)?;
            let role = carried_role(x, script, scope, e);
            scope.bind(x.alloc, name, role, at)
        }
        StmtForm::Var(name, e) => {
            mark_expr(x, scope, false, &mut notes.marks, e)?;
            scope.bind(x.alloc, name, Role::Plain, at)
        }
        StmtForm::Assign(a, b) => {
            mark_expr(x, scope, false, &mut notes.marks, a)?;
            mark_expr(x, scope, false, &mut notes.marks, b)
        }
        StmtForm::Run(e) | StmtForm::Print(e) | StmtForm::Throw(e) => {
            mark_expr(x, scope, false, &mut notes.marks, e)
        }
        StmtForm::If(c, a, b) => {
            let branch = branch_script(x.facts, script, a.as_slice(), b.as_slice());
            mark_expr(x, scope, branch, &mut notes.marks, c)?;
            mark_block(x, branch, scope, notes, a.as_slice())?;
            mark_block(x, branch, scope, notes, b.as_slice())
        }
        StmtForm::While(c, a) => {
            mark_expr(x, scope, false, &mut notes.marks, c)?;
            mark_block(x, false, scope, notes, a.as_slice())
        }
        StmtForm::For(name, e, a) => {
            let rows = x.facts.over_rows(e);
            mark_expr(x, scope, rows, &mut notes.marks, e)?;
            let turn = turn_script(x, script, scope, e, a.as_slice());
            let role = turn_role(rows, turn);
            let own = Declared { name, role, at };
            mark_opened(x, turn, scope, notes, &own, a.as_slice())
        }
        StmtForm::Try(a, name, b) => {
            mark_block(x, false, scope, notes, a.as_slice())?;
            let own = Declared::plain(name, at);
            mark_opened(x, false, scope, notes, &own, b.as_slice())
        }
        StmtForm::Batch(_, name, a) => {
            let own = Declared::plain(name, at);
            mark_opened(x, false, scope, notes, &own, a.as_slice())
        }
    }
}

// The same for a block, whose variables go at its end.
#[cycle(stmts)]
#[tactic(auto, using(crate::proofs::Rules::stmt_mark_rules))]
fn mark_block(
    x: &Batch,
    script: bool,
    scope: &mut Scope,
    notes: &mut Notes,
    ss: &[Stmt],
) -> Result<(), Memory>
    ensures marks { OnOk result (notes.new.marks.items ≡ walks.stmts_marks x.now script scope.old notes.old.marks.items ss.now) }
    ensures places { OnOk result (notes.new.places.items ≡ walks.stmts_places x.now script scope.old notes.old.places.items ss.now) }
    ensures scope { OnOk result (scope.new ≡ scope.old) }
{
    let count = scope.len();
    mark_stmts(x, script, scope, notes, ss)?;
    scope.truncate(count);
    Ok(())
}

// The same for a block with a variable of its own.
#[cycle(stmts)]
#[tactic(auto, using(crate::proofs::Rules::stmt_mark_rules))]
fn mark_opened(
    x: &Batch,
    script: bool,
    scope: &mut Scope,
    notes: &mut Notes,
    own: &Declared<'_>,
    ss: &[Stmt],
) -> Result<(), Memory>
    ensures marks { let opened = walks.opened_marks x.now script scope.old own.now in
        OnOk result (notes.new.marks.items ≡ opened notes.old.marks.items ss.now) }
    ensures places { let opened = walks.opened_places x.now script scope.old own.now in
        OnOk result (notes.new.places.items ≡ opened notes.old.places.items ss.now) }
    ensures scope { OnOk result (scope.new ≡ scope.old) }
{
    let count = scope.len();
    bind_declared(x.alloc, scope, own)?;
    mark_stmts(x, script, scope, notes, ss)?;
    scope.truncate(count);
    Ok(())
}

/// Notes the marks and places in statements of a batch, in order.
#[cycle(stmts)]
#[tactic(auto, using(crate::proofs::Rules::stmt_mark_rules))]
pub fn mark_stmts(
    x: &Batch,
    script: bool,
    scope: &mut Scope,
    notes: &mut Notes,
    ss: &[Stmt],
) -> Result<(), Memory>
    ensures marks { OnOk result (notes.new.marks.items ≡ walks.stmts_marks x.now script scope.old notes.old.marks.items ss.now) }
    ensures places { OnOk result (notes.new.places.items ≡ walks.stmts_places x.now script scope.old notes.old.places.items ss.now) }
    ensures kept { OnOk result (take (length scope.old) scope.new ≡ scope.old) }
{
    for s in ss {
        mark_stmt(x, script, scope, notes, s)?;
    }
    Ok(())
}
