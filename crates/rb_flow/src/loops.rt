// The carried loops of a program.

#![tactic(auto, using(crate::proofs::LoopRules::loop_rules))]

ghost use Rattle.std.specs.Prelude.{◌≡◌, ◌==◌, ℕ, [], map, take, length, IfOk, OnOk};
ghost use Rattle.std.specs.BTreeSet.{contains};
ghost use Rattle.std.specs.List.{list_any};
ghost use Rattle.std.specs.Ordering.{nat_cmp};
ghost use Rattle.rb_trees.specs.mirror.Code.{mirror_stmt, mirror_stmts};
ghost use Rattle.rb_flow.specs.Begun.{begun_of};
ghost use Rattle.rb_flow.specs.Carried as words;
ghost use Rattle.rb_flow.specs.Views.{facts};

use crate::outermost::OpenBatch;
use crate::portable::{has_far_turns, is_portable};
use crate::scope::bind;
use rb_marks::{Facts, branches_hold};
use rb_meaning_flow::Role;
use rb_scopes::Scope;
use rb_trees::{Memory, Seq, Stmt, StmtForm, Word};
use std::alloc::Global;
use std::collections::BTreeSet;

fn val_role(portable: bool) -> Role
    ensures { result ≡ words.val_role portable }
{
    if portable { Role::Carried } else { Role::Plain }
}

// Notes a loop whose turns are the script's, unless it is over rows.
fn note_loop(loops: &mut Seq<u32>, rows: bool, at: u32) -> Result<(), Memory>
    ensures { OnOk result (loops.new ≡ words.loop_noted rows loops.old at) }
{
    if rows { Ok(()) } else { loops.push(at) }
}

// Notes the carried loops in a statement at a script place, and binds what it declares.
#[cycle(stmts)]
fn note_stmt(
    alloc: Global,
    x: &Facts<'_>,
    scope: &mut Scope,
    loops: &mut Seq<u32>,
    s: &Stmt,
) -> Result<(), Memory>
    ensures loops { OnOk result (loops.new ≡ words.stmt_noted (facts x.now) scope.old loops.old (mirror_stmt s.now)) }
    ensures scope { OnOk result (scope.new ≡ words.scope_noted (facts x.now) scope.old (mirror_stmt s.now)) }
{
    match &s.form {
        StmtForm::Val(name, e) => {
            let role = val_role(is_portable(x, scope, e));
            bind(alloc, scope, name, role, s.at)
        }
        StmtForm::Var(name, _) => bind(alloc, scope, name, Role::Plain, s.at),
        StmtForm::If(_, a, b) => {
            if branches_hold(x, a.as_slice(), b.as_slice()) {
                note_block(alloc, x, scope, loops, a.as_slice())?;
                note_block(alloc, x, scope, loops, b.as_slice())
            } else {
                Ok(())
            }
        }
        StmtForm::For(name, e, a) => {
            if has_far_turns(x, scope, e, a.as_slice()) {
                note_loop(loops, x.over_rows(e), s.at)?;
                note_turns(alloc, x, scope, loops, name, s.at, a.as_slice())
            } else {
                Ok(())
            }
        }
        StmtForm::Assign(_, _) | StmtForm::Run(_) | StmtForm::Print(_) => Ok(()),
        StmtForm::Throw(_) | StmtForm::While(_, _) => Ok(()),
        StmtForm::Try(_, _, _) | StmtForm::Batch(_, _, _) => Ok(()),
    }
}

// The same for a block at a script place, whose variables go at its end.
#[cycle(stmts)]
fn note_block(
    alloc: Global,
    x: &Facts<'_>,
    scope: &mut Scope,
    loops: &mut Seq<u32>,
    ss: &[Stmt],
) -> Result<(), Memory>
    ensures loops { OnOk result (loops.new ≡ words.block_noted (facts x.now) scope.old loops.old (mirror_stmts ss.now)) }
    ensures scope { OnOk result (scope.new ≡ scope.old) }
{
    let count = scope.len();
    note_stmts(alloc, x, scope, loops, ss)?;
    scope.truncate(count);
    Ok(())
}

// The same for the block of a loop, with its variable.
#[cycle(stmts)]
fn note_turns(
    alloc: Global,
    x: &Facts<'_>,
    scope: &mut Scope,
    loops: &mut Seq<u32>,
    name: &Word,
    at: u32,
    ss: &[Stmt],
) -> Result<(), Memory>
    ensures loops { OnOk result (loops.new ≡ words.turns_noted (facts x.now) scope.old name.now at loops.old (mirror_stmts ss.now)) }
    ensures scope { OnOk result (scope.new ≡ scope.old) }
{
    let count = scope.len();
    bind(alloc, scope, name, Role::Row, at)?;
    note_stmts(alloc, x, scope, loops, ss)?;
    scope.truncate(count);
    Ok(())
}

#[cycle(stmts)]
fn note_stmts(
    alloc: Global,
    x: &Facts<'_>,
    scope: &mut Scope,
    loops: &mut Seq<u32>,
    ss: &[Stmt],
) -> Result<(), Memory>
    ensures loops { OnOk result (loops.new ≡ words.block_noted (facts x.now) scope.old loops.old (mirror_stmts ss.now)) }
    ensures kept { OnOk result (take (length scope.old) scope.new ≡ scope.old) }
{
    for s in ss {
        note_stmt(alloc, x, scope, loops, s)?;
    }
    Ok(())
}

// Notes the carried loops of a batch.
fn note_batch(
    alloc: Global,
    x: &Facts<'_>,
    loops: &mut Seq<u32>,
    batch: &OpenBatch<'_>,
) -> Result<(), Memory>
    ensures { OnOk result (loops.new ≡ words.batch_noted (facts x.now) loops.old (begun_of batch.now)) }
{
    let mut scope = batch.scope.copy(alloc)?;
    note_stmts(alloc, x, &mut scope, loops, batch.block)
}

/// The positions of the carried loops of some batches.
pub fn carried_loops(
    alloc: Global,
    x: &Facts<'_>,
    batches: &[OpenBatch<'_>],
) -> Result<Seq<u32>, Memory>
    ensures { IfOk result (λ loops. loops ≡ words.batches_noted (facts x.now) [] (map begun_of batches.now)) }
{
    let mut loops = Seq::new(alloc);
    for batch in batches {
        note_batch(alloc, x, &mut loops, batch)?;
    }
    Ok(loops)
}

fn insert_position(set: &mut BTreeSet<u32>, at: u32) -> Result<(), Memory>
    ensures { OnOk result (words.AddsPosition at (contains nat_cmp set.old) (contains nat_cmp set.new)) }
{
    let _is_new = set.insert(at)?;
    Ok(())
}

/// The set of some positions.
pub fn index_loops(alloc: Global, loops: Vec<u32>) -> Result<BTreeSet<u32>, Memory>
    ensures { IfOk result (λ set. (at : ℕ) → contains nat_cmp set at ≡ list_any (λ n. n == at) loops.items) }
{
    let mut rest = loops;
    let mut set = BTreeSet::new(alloc);
    while let Some(last) = rest.pop() {
        insert_position(&mut set, last)?;
    }
    Ok(set)
}
