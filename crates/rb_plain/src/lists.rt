// The constant lists that a batch's carried loops go over.

#![tactic(auto, using(crate::proofs::Listed::list_rules))]

ghost use Rattle.std.specs.Prelude.{◌≡◌, ◌++◌, [], length, take, IfOk, OnOk};
ghost use Rattle.std.specs.Option.{option_copied, option_to_list};
ghost use Rattle.rb_trees.specs.Outcome.{Gives};
ghost use Rattle.rb_trees.specs.declared.values.Value.{out-Value};
ghost use Rattle.rb_trees.specs.mirror.Code.{mirror_expr, mirror_stmt, mirror_stmts};
ghost use Rattle.rb_meaning_code.specs.ScriptRun as script;
ghost use Rattle.rb_meaning_flow.specs.Sites.{scope_after};
ghost use Rattle.rb_meaning.specs.ConstantLists as lists;
ghost use Rattle.rb_engine.specs.Ends.{fault_of};
ghost use Rattle.rb_flow.specs.Begun.{begun_of};
ghost use Rattle.rb_flow.specs.Views.{facts};
ghost use Rattle.rb_plain.specs.Lists.{Counts, batch_lists, named, stmt_lists, too_many, turns_lists, val_role};

use rb_engine::{Failure, Frame, PlainFault};
use rb_flow::{OpenBatch, is_portable, placed_form};
use rb_marks::{Facts, branches_hold};
use rb_meaning_flow::{PlacedForm, Role};
use rb_names::Names;
use rb_scopes::Scope;
use rb_trees::{
    Expr, ExprForm, Memory, Seq, Shared, Stmt, StmtForm, Value, Word, copy_word, fault_codes,
};
use std::alloc::Global;

/// The most items that the lists of a batch may have together: `most_items`.
const MOST_ITEMS: usize = 1_000;

/// The lists that were counted, and how many items they have together.
#[derive(Drop)]
struct Counted {
    names: Names,
    items: usize,
}

// The items of a value that is a list: `items_in`.
#[tactic(auto, using(rb_engine::proofs::Values::values))]
fn items_in(alloc: Global, value: &Value) -> Result<Shared<Seq<Value>>, Failure>
    ensures { Gives (λ items. items) fault_of result (script.items_in (out-Value value.now)) }
{
    match value {
        Value::List(items) => Ok(items.share()?),
        _ => Err(Failure::Fault(PlainFault::of(alloc, fault_codes::KIND))),
    }
}

// The items of the list of a name, as it was found: `items_of`.
fn items_of(alloc: Global, found: Option<&Value>) -> Result<Shared<Seq<Value>>, Failure>
    ensures { Gives (λ items. items) fault_of result (lists.items_of (option_copied found.entry)) }
{
    match found {
        Some(value) => items_in(alloc, value),
        None => Err(Failure::Fault(PlainFault::of(alloc, fault_codes::KIND))),
    }
}

// The name of a list, where it is one: `name_of`.
fn name_of(list: &Expr) -> Option<&Word>
    ensures { option_to_list (option_copied result) ≡ lists.name_of (mirror_expr list.now) }
{
    match &list.form {
        ExprForm::Name(name) => Some(name),
        ExprForm::Lit(_) | ExprForm::This | ExprForm::Unary(_, _) => None,
        ExprForm::Binary(_, _, _) | ExprForm::Field(_, _) | ExprForm::Index(_, _) => None,
        ExprForm::Call(_, _, _) | ExprForm::New(_, _) => None,
        ExprForm::Items(_, _) | ExprForm::Taken(_) => None,
    }
}

/// The items of a list that a name stands for: `items_named`.
#[inline(never)]
pub fn items_named(alloc: Global, frame: &Frame, list: &Expr) -> Result<Shared<Seq<Value>>, Failure>
    ensures { Gives (λ items. items) fault_of result (lists.items_named frame.now (mirror_expr list.now)) }
{
    match name_of(list) {
        Some(name) => items_of(alloc, frame.find(name)),
        None => Err(Failure::Fault(PlainFault::of(alloc, fault_codes::KIND))),
    }
}

// The role of a `val` at a script place.
fn val_role(portable: bool) -> Role
    ensures { result ≡ val_role portable }
{
    if portable { Role::Carried } else { Role::Plain }
}

// Adds the name of a list, where it is one.
fn add_name<'e>(found: &mut Seq<&'e Word>, list: &'e Expr) -> Result<(), Memory>
    ensures { OnOk result (named found.new ≡ named found.old ++ lists.name_of (mirror_expr list.now)) }
{
    match name_of(list) {
        Some(name) => found.push(name),
        None => Ok(()),
    }
}

// Adds the lists of the carried loops in a statement at a script place, and binds what it declares.
#[cycle(lists)]
fn add_stmt<'e>(
    alloc: Global,
    x: &Facts<'_>,
    scope: &mut Scope,
    found: &mut Seq<&'e Word>,
    s: &'e Stmt,
) -> Result<(), Memory>
    ensures lists { OnOk result (named found.new ≡ named found.old ++ stmt_lists (facts x.now) scope.old (mirror_stmt s.now)) }
    ensures scope { OnOk result (scope.new ≡ scope_after (facts x.now) [] scope.old (mirror_stmt s.now)) }
{
    match &s.form {
        StmtForm::Val(name, e) => {
            let role = val_role(is_portable(x, scope, e));
            scope.bind(alloc, name, role, s.at)
        }
        StmtForm::Var(name, _) => scope.bind(alloc, name, Role::Plain, s.at),
        StmtForm::If(_, a, b) => {
            if branches_hold(x, a.as_slice(), b.as_slice()) {
                add_block(alloc, x, scope, found, a.as_slice())?;
                add_block(alloc, x, scope, found, b.as_slice())
            } else {
                Ok(())
            }
        }
        StmtForm::For(name, e, a) => match placed_form(x, scope, s) {
            PlacedForm::RowsLoop => add_turns(alloc, x, scope, found, name, s.at, a.as_slice()),
            PlacedForm::CarriedLoop => {
                add_name(found, e)?;
                add_turns(alloc, x, scope, found, name, s.at, a.as_slice())
            }
            PlacedForm::CarriedVal | PlacedForm::CarriedIf => Ok(()),
            PlacedForm::CallAlone | PlacedForm::Plain => Ok(()),
        },
        StmtForm::Assign(_, _) | StmtForm::Run(_) | StmtForm::Print(_) => Ok(()),
        StmtForm::Throw(_) | StmtForm::While(_, _) => Ok(()),
        StmtForm::Try(_, _, _) | StmtForm::Batch(_, _, _) => Ok(()),
    }
}

// The same for a block at a script place, whose variables go at its end.
#[cycle(lists)]
fn add_block<'e>(
    alloc: Global,
    x: &Facts<'_>,
    scope: &mut Scope,
    found: &mut Seq<&'e Word>,
    ss: &'e [Stmt],
) -> Result<(), Memory>
    ensures lists { OnOk result (named found.new ≡ named found.old ++ lists.lists_in (facts x.now) scope.old (mirror_stmts ss.now)) }
    ensures scope { OnOk result (scope.new ≡ scope.old) }
{
    let count = scope.len();
    add_stmts(alloc, x, scope, found, ss)?;
    scope.truncate(count);
    Ok(())
}

// The same for the block of a loop, with its variable.
#[cycle(lists)]
fn add_turns<'e>(
    alloc: Global,
    x: &Facts<'_>,
    scope: &mut Scope,
    found: &mut Seq<&'e Word>,
    name: &Word,
    at: u32,
    ss: &'e [Stmt],
) -> Result<(), Memory>
    ensures lists { OnOk result (named found.new ≡ named found.old ++ turns_lists (facts x.now) scope.old name.now at (mirror_stmts ss.now)) }
    ensures scope { OnOk result (scope.new ≡ scope.old) }
{
    let count = scope.len();
    scope.bind(alloc, name, Role::Row, at)?;
    add_stmts(alloc, x, scope, found, ss)?;
    scope.truncate(count);
    Ok(())
}

#[cycle(lists)]
fn add_stmts<'e>(
    alloc: Global,
    x: &Facts<'_>,
    scope: &mut Scope,
    found: &mut Seq<&'e Word>,
    ss: &'e [Stmt],
) -> Result<(), Memory>
    ensures lists { OnOk result (named found.new ≡ named found.old ++ lists.lists_in (facts x.now) scope.old (mirror_stmts ss.now)) }
    ensures kept { OnOk result (take (length scope.old) scope.new ≡ scope.old) }
{
    'stmts: for s in ss {
        add_stmt(alloc, x, scope, found, s)?;
    }
    Ok(())
}

// The lists of the carried loops of a batch, as often as they stand there.
fn lists_of<'e>(
    alloc: Global,
    x: &Facts<'_>,
    batch: &OpenBatch<'e>,
) -> Result<Seq<&'e Word>, Memory>
    ensures { IfOk result (λ found. named found ≡ batch_lists (facts x.now) (begun_of batch.now)) }
{
    let mut scope = batch.scope.copy(alloc)?;
    let mut found = Seq::new(alloc);
    add_stmts(alloc, x, &mut scope, &mut found, batch.block)?;
    Ok(found)
}

// How many items the list of a name has, as it was found: `count_of`.
#[tactic(auto, using(rb_engine::proofs::Values::values))]
fn count_of(found: Option<&Value>) -> usize
    ensures { result ≡ lists.count_of (lists.items_of (option_copied found.entry)) }
{
    match found {
        Some(Value::List(items)) => items.get().len(),
        _ => 0,
    }
}

// Counts the items of a list, unless it was counted before.
fn count_list(
    alloc: Global,
    frame: &Frame,
    counted: &mut Counted,
    name: &Word,
) -> Result<(), Memory>
    ensures { OnOk result (Counts frame.now name.now counted.old counted.new) }
{
    if counted.names.has(name) {
        return Ok(());
    }
    let count = count_of(frame.find(name));
    counted.items = counted.items.checked_add(count).ok_or(Memory)?;
    let name = copy_word(alloc, name)?;
    counted.names.push(alloc, name)
}

// How many items some lists have together, each name counted once: `counted`. Where they can't be counted, it is as if
// memory ran out.
fn items_taken(alloc: Global, frame: &Frame, names: &[&Word]) -> Result<usize, Memory>
    ensures { IfOk result (λ items. items ≡ lists.counted [] (named names.now) frame.now) }
{
    let mut counted = Counted {
        names: Names::new(alloc),
        items: 0,
    };
    'names: for name in names {
        count_list(alloc, frame, &mut counted, name)?;
    }
    Ok(counted.items)
}

/// Whether a batch has more items to take along than a request may have: `takes_too_many`.
#[inline(never)]
pub fn takes_too_many(
    alloc: Global,
    x: &Facts<'_>,
    batch: &OpenBatch<'_>,
    frame: &Frame,
) -> Result<bool, Memory>
    ensures { IfOk result (λ many. many ≡ too_many (facts x.now) (begun_of batch.now) frame.now) }
{
    let lists = lists_of(alloc, x, batch)?;
    let items = items_taken(alloc, frame, lists.as_slice())?;
    Ok(items > MOST_ITEMS)
}
