// Performs what is remote in the statements of a batch, and skips all else.
#![tactic(auto, using(crate::proofs::Fronts::kept_rules))]

ghost use Rattle.std.specs.Prelude.{◌≡◌, cond, OnOk};
ghost use Rattle.rb_trees.specs.Outcome.{Gives};
ghost use Rattle.rb_trees.specs.declared.values.Value.{out-Value};
ghost use Rattle.rb_trees.specs.mirror.Code.{mirror_stmt};
ghost use Rattle.rb_meaning_code.specs.Faults as faults;
ghost use Rattle.rb_meaning_code.specs.Remote as remote;
ghost use Rattle.rb_meaning.specs.RemoteAnswers as answers;
ghost use Rattle.rb_engine.specs.Ends.{fault_of};
ghost use Rattle.rb_plain.specs.Remote.{Ended, as_unit};
ghost use Rattle.rb_plain.specs.Walks.{Kept, Walked, block_meant, branch_meant, carried_meant, carried_scope, items_meant, plain_scope, rows_meant, scope_behind, skim_meant, stmt_meant, stmts_meant, turn_meant, turns_meant};

use crate::lists::items_named;
use crate::remote_parts::{perform_both, perform_in};
use crate::remote_world::{RemoteWorld, value_of};
use rb_engine::{Failure, Frame, Miss, PlainFault, at_place, missed, truth_of};
use rb_flow::placed_form;
use rb_meaning_flow::{PlacedForm, Role};
use rb_scopes::Scope;
use rb_trees::{Expr, Fault, Seq, Shared, Stmt, StmtForm, Value, Word, copy_value, fault_codes};
use std::alloc::Global;

/// A `val`: its position, its name, and its expression.
#[derive(Clone, Copy)]
pub struct Binding<'a> {
    pub at: u32,
    pub name: &'a Word,
    pub expr: &'a Expr,
}

/// An `if`: its position, its condition, and its blocks.
#[derive(Clone, Copy)]
pub struct Branch<'a> {
    pub at: u32,
    pub condition: &'a Expr,
    pub yes: &'a Seq<Stmt>,
    pub no: &'a Seq<Stmt>,
}

/// A loop without its list: its position, the name of its items, and its block.
#[derive(Clone, Copy)]
pub struct Loop<'a> {
    pub at: u32,
    pub name: &'a Word,
    pub block: &'a [Stmt],
}

// A fault without a text.
fn plain_fault(alloc: Global, code: u8) -> Fault
    ensures { result ≡ faults.plain_fault code }
{
    Fault {
        code,
        text: Seq::new(alloc),
    }
}

// The rows of a value: `rows_in`.
#[inline(never)]
#[tactic(auto, using(rb_engine::proofs::Values::values))]
fn rows_in(alloc: Global, value: &Value) -> Result<Shared<Seq<Value>>, Failure>
    ensures { Gives (λ rows. rows) fault_of result (remote.rows_in (out-Value value.now)) }
{
    match value {
        Value::Rows(rows) => Ok(rows.share()?),
        _ => Err(Failure::Fault(PlainFault::of(alloc, fault_codes::KIND))),
    }
}

// A unit of remote fuel, at a position: `unit_of`.
fn take_unit(alloc: Global, world: &mut RemoteWorld<'_>, at: u32) -> Result<(), Miss>
    ensures { Ended (answers.unit_of at world.old.server) (as_unit result) world.old world.new }
{
    if world.server.take_unit() {
        return Ok(());
    }
    Err(missed(alloc, at, plain_fault(alloc, fault_codes::FUEL_USED)))
}

// The block that a condition chooses.
fn chosen<'a>(holds: bool, yes: &'a Seq<Stmt>, no: &'a Seq<Stmt>) -> &'a Seq<Stmt>
    ensures { result.now ≡ cond holds yes.now no.now }
{
    if holds { yes } else { no }
}

// A `val` that is carried, and bound.
#[inline(never)]
fn perform_carried(
    alloc: Global,
    world: &mut RemoteWorld<'_>,
    scope: &mut Scope,
    frame: &mut Frame,
    val: &Binding<'_>,
) -> Result<(), Miss>
    ensures walked { let meant = carried_meant world.old val.now frame.old in
        Walked meant frame.old result world.old frame.new world.new }
    ensures scope { OnOk result (scope.new ≡ carried_scope scope.old val.now) }
    ensures kept { Kept frame.old frame.new }
{
    let value = value_of(alloc, world, frame, val.expr)?;
    frame.bind(alloc, val.name.as_slice(), value)?;
    scope.bind(alloc, val.name, Role::Carried, val.at)?;
    Ok(())
}

// A statement of which only the remote expressions are performed. What it declares isn't carried.
#[inline(never)]
#[tactic(auto, using(rb_trees::proofs::mirror::Stmts::stmts))]
fn perform_plain(
    alloc: Global,
    world: &mut RemoteWorld<'_>,
    scope: &mut Scope,
    frame: &Frame,
    stmt: &Stmt,
) -> Result<(), Miss>
    ensures walked { let meant = skim_meant world.old scope.old (mirror_stmt stmt.now) frame.now in
        Walked meant frame.now result world.old frame.now world.new }
    ensures scope { OnOk result (scope.new ≡ plain_scope scope.old (mirror_stmt stmt.now)) }
{
    match &stmt.form {
        StmtForm::Val(name, e) => {
            perform_in(alloc, world, scope, frame, e)?;
            scope.bind(alloc, name, Role::Plain, stmt.at)?;
            Ok(())
        }
        StmtForm::Var(name, e) => {
            perform_in(alloc, world, scope, frame, e)?;
            scope.bind(alloc, name, Role::Plain, stmt.at)?;
            Ok(())
        }
        StmtForm::Assign(a, b) => perform_both(alloc, world, scope, frame, a, b),
        StmtForm::Run(e) => perform_in(alloc, world, scope, frame, e),
        StmtForm::Print(e) => perform_in(alloc, world, scope, frame, e),
        StmtForm::Throw(e) => perform_in(alloc, world, scope, frame, e),
        StmtForm::If(e, _, _) => perform_in(alloc, world, scope, frame, e),
        StmtForm::While(e, _) => perform_in(alloc, world, scope, frame, e),
        StmtForm::For(_, e, _) => perform_in(alloc, world, scope, frame, e),
        StmtForm::Try(_, _, _) => Ok(()),
        StmtForm::Batch(_, _, _) => Ok(()),
    }
}

/// Performs what is remote in statements of a script place, in order: `walk_block`.
#[cycle(walking)]
#[inline(never)]
fn perform_all(
    alloc: Global,
    world: &mut RemoteWorld<'_>,
    scope: &mut Scope,
    frame: &mut Frame,
    stmts: &[Stmt],
) -> Result<(), Miss>
    ensures walked { let meant = stmts_meant world.old scope.old stmts.now frame.old in
        Walked meant frame.old result world.old frame.new world.new }
    ensures scope { OnOk result (Kept scope.old scope.new) }
    ensures kept { Kept frame.old frame.new }
{
    'stmts: for stmt in stmts {
        perform_stmt(alloc, world, scope, frame, stmt)?;
    }
    Ok(())
}

/// The same of a block, whose names and variables end with it.
#[cycle(walking)]
#[inline(never)]
pub fn perform_block(
    alloc: Global,
    world: &mut RemoteWorld<'_>,
    scope: &mut Scope,
    frame: &mut Frame,
    stmts: &[Stmt],
) -> Result<(), Miss>
    ensures ended { Ended (block_meant world.old scope.old stmts.now frame.old) result world.old world.new }
    ensures names { OnOk result (frame.new ≡ frame.old) }
    ensures scope { OnOk result (scope.new ≡ scope.old) }
    ensures kept { Kept frame.old frame.new }
{
    let variables = scope.len();
    let names = frame.len();
    perform_all(alloc, world, scope, frame, stmts)?;
    scope.truncate(variables);
    frame.truncate(names);
    Ok(())
}

// A statement.
#[cycle(walking)]
#[inline(never)]
fn perform_stmt(
    alloc: Global,
    world: &mut RemoteWorld<'_>,
    scope: &mut Scope,
    frame: &mut Frame,
    stmt: &Stmt,
) -> Result<(), Miss>
    ensures walked { let meant = stmt_meant world.old scope.old stmt.now frame.old in
        Walked meant frame.old result world.old frame.new world.new }
    ensures scope { OnOk result (scope.new ≡ scope_behind world.old scope.old stmt.now) }
    ensures kept { Kept frame.old frame.new }
{
    let at = stmt.at;
    match (&stmt.form, placed_form(world.stage.facts(), scope, stmt)) {
        (StmtForm::Val(name, expr), PlacedForm::CarriedVal) => {
            perform_carried(alloc, world, scope, frame, &Binding { at, name, expr })
        }
        (StmtForm::If(condition, yes, no), PlacedForm::CarriedIf) => {
            let branch = Branch {
                at,
                condition,
                yes,
                no,
            };
            perform_branch(alloc, world, scope, frame, &branch)
        }
        (StmtForm::For(name, list, block), PlacedForm::RowsLoop) => {
            let turns = Loop {
                at,
                name,
                block: block.as_slice(),
            };
            perform_rows(alloc, world, scope, frame, &turns, list)
        }
        (StmtForm::For(name, list, block), PlacedForm::CarriedLoop) => {
            let turns = Loop {
                at,
                name,
                block: block.as_slice(),
            };
            perform_items(alloc, world, scope, frame, &turns, list)
        }
        _ => perform_plain(alloc, world, scope, frame, stmt),
    }
}

// An `if` whose condition is carried, with the block that it chooses.
#[cycle(walking)]
#[inline(never)]
fn perform_branch(
    alloc: Global,
    world: &mut RemoteWorld<'_>,
    scope: &mut Scope,
    frame: &mut Frame,
    branch: &Branch<'_>,
) -> Result<(), Miss>
    ensures walked { let meant = branch_meant world.old scope.old branch.now frame.old in
        Walked meant frame.old result world.old frame.new world.new }
    ensures scope { OnOk result (scope.new ≡ scope.old) }
    ensures kept { Kept frame.old frame.new }
{
    let value = value_of(alloc, world, frame, branch.condition)?;
    let holds = at_place(branch.at, truth_of(alloc, value))?;
    let block = chosen(holds, branch.yes, branch.no);
    perform_block(alloc, world, scope, frame, block.as_slice())
}

// A loop over rows.
#[cycle(walking)]
#[inline(never)]
fn perform_rows(
    alloc: Global,
    world: &mut RemoteWorld<'_>,
    scope: &mut Scope,
    frame: &mut Frame,
    turns: &Loop<'_>,
    list: &Expr,
) -> Result<(), Miss>
    ensures walked { let meant = rows_meant world.old scope.old turns.now list.now frame.old in
        Walked meant frame.old result world.old frame.new world.new }
    ensures scope { OnOk result (scope.new ≡ scope.old) }
    ensures kept { Kept frame.old frame.new }
{
    let value = value_of(alloc, world, frame, list)?;
    let rows = at_place(turns.at, rows_in(alloc, &value))?;
    perform_turns(alloc, world, scope, frame, turns, rows.get().as_slice())
}

// A carried loop, over the items of a list of the batch's start.
#[cycle(walking)]
#[inline(never)]
fn perform_items(
    alloc: Global,
    world: &mut RemoteWorld<'_>,
    scope: &mut Scope,
    frame: &mut Frame,
    turns: &Loop<'_>,
    list: &Expr,
) -> Result<(), Miss>
    ensures walked { let meant = items_meant world.old scope.old turns.now list.now frame.old in
        Walked meant frame.old result world.old frame.new world.new }
    ensures scope { OnOk result (scope.new ≡ scope.old) }
    ensures kept { Kept frame.old frame.new }
{
    let items = at_place(turns.at, items_named(alloc, frame, list))?;
    perform_turns(alloc, world, scope, frame, turns, items.get().as_slice())
}

// The turns over rows or items.
#[cycle(walking)]
#[inline(never)]
fn perform_turns(
    alloc: Global,
    world: &mut RemoteWorld<'_>,
    scope: &mut Scope,
    frame: &mut Frame,
    turns: &Loop<'_>,
    rows: &[Value],
) -> Result<(), Miss>
    ensures ended { Ended (turns_meant world.old scope.old turns.now frame.old rows.now) result world.old world.new }
    ensures names { OnOk result (frame.new ≡ frame.old) }
    ensures scope { OnOk result (scope.new ≡ scope.old) }
    ensures kept { Kept frame.old frame.new }
{
    'rows: for row in rows {
        take_unit(alloc, world, turns.at)?;
        perform_turn(alloc, world, scope, frame, turns, row)?;
    }
    Ok(())
}

// The block of a turn, with its row bound.
#[cycle(walking)]
#[inline(never)]
fn perform_turn(
    alloc: Global,
    world: &mut RemoteWorld<'_>,
    scope: &mut Scope,
    frame: &mut Frame,
    turns: &Loop<'_>,
    row: &Value,
) -> Result<(), Miss>
    ensures ended { Ended (turn_meant world.old scope.old turns.now frame.old row.now) result world.old world.new }
    ensures names { OnOk result (frame.new ≡ frame.old) }
    ensures scope { OnOk result (scope.new ≡ scope.old) }
    ensures kept { Kept frame.old frame.new }
{
    let variables = scope.len();
    let names = frame.len();
    let value = copy_value(row)?;
    frame.bind(alloc, turns.name.as_slice(), value)?;
    scope.bind(alloc, turns.name, Role::Row, turns.at)?;
    perform_all(alloc, world, scope, frame, turns.block)?;
    scope.truncate(variables);
    frame.truncate(names);
    Ok(())
}
