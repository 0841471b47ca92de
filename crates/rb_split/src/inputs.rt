// The inputs of a batch.

#![tactic(auto, using(crate::proofs::Noted::use_rules))]

ghost use Rattle.std.specs.Prelude.{◌≡◌, ◌≤◌, [], take, length, IfOk, OnOk};
ghost use Rattle.std.specs.List.{flat_map};
ghost use Rattle.rb_trees.specs.mirror.Code.{mirror_expr, mirror_exprs, mirror_stmt};
ghost use Rattle.rb_meaning_flow.specs.Scopes.{is_constant_role, is_list_role};
ghost use Rattle.rb_meaning.specs.ConstantLists.{name_of};
ghost use Rattle.rb_meaning_split.specs.Inputs as meant;
ghost use Rattle.rb_split.specs.Uses.{constant_variable, noted, used_by, used_in_turn};
ghost use Rattle.rb_split.specs.Views.{facts, scope_behind, trees};

use crate::loops::{Loop, list_name};
use crate::remote::remote_of;
use crate::scopes::bind_plain;
use crate::uses::Uses;
use rb_flow::placed_form;
use rb_marks::Facts;
use rb_meaning_flow::{PlacedForm, Role};
use rb_scopes::Scope;
use rb_trees::{Expr, ExprForm, Memory, Seq, Stmt, StmtForm, Word};
use std::alloc::Global;

// Whether a variable of a role is constant.
fn is_constant(role: Role) -> bool
    ensures { result ≡ is_constant_role role }
{
    match role {
        Role::Constant => true,
        Role::ConstantList | Role::Root | Role::Row | Role::Carried | Role::Plain => false,
    }
}

// Whether a variable of a role is a constant list.
fn is_list(role: Role) -> bool
    ensures { result ≡ is_list_role role }
{
    match role {
        Role::ConstantList => true,
        Role::Constant | Role::Root | Role::Row | Role::Carried | Role::Plain => false,
    }
}

// Notes a variable, where it is constant.
fn note_variable(alloc: Global, scope: &Scope, uses: &mut Uses, name: &Word) -> Result<(), Memory>
    ensures { OnOk result (uses.new ≡ noted uses.old (constant_variable scope.now name.now)) }
{
    if is_constant(scope.role_of(name)) {
        uses.note(alloc, name)
    } else {
        Ok(())
    }
}

// Notes the constant variables in a portable expression.
#[cycle(constants)]
fn note_constants(alloc: Global, scope: &Scope, uses: &mut Uses, e: &Expr) -> Result<(), Memory>
    ensures { OnOk result (uses.new ≡ noted uses.old (meant.constants scope.now (mirror_expr e.now))) }
{
    match &e.form {
        ExprForm::Name(name) => note_variable(alloc, scope, uses, name),
        ExprForm::Unary(_, a) => note_constants(alloc, scope, uses, a.get()),
        ExprForm::Binary(_, a, b) => {
            note_constants(alloc, scope, uses, a.get())?;
            note_constants(alloc, scope, uses, b.get())
        }
        ExprForm::Call(a, _, args) => {
            note_constants(alloc, scope, uses, a.get())?;
            note_all_constants(alloc, scope, uses, args.as_slice())
        }
        ExprForm::Lit(_) | ExprForm::This | ExprForm::Field(_, _) | ExprForm::Index(_, _) => Ok(()),
        ExprForm::New(_, _) | ExprForm::Items(_, _) | ExprForm::Taken(_) => Ok(()),
    }
}

#[cycle(constants)]
fn note_all_constants(
    alloc: Global,
    scope: &Scope,
    uses: &mut Uses,
    es: &[Expr],
) -> Result<(), Memory>
    ensures { OnOk result (uses.new ≡ noted uses.old (meant.all_constants scope.now (mirror_exprs es.now))) }
{
    'exprs: for e in es {
        note_constants(alloc, scope, uses, e)?;
    }
    Ok(())
}

// Notes those in expressions that were found.
fn note_found(alloc: Global, scope: &Scope, uses: &mut Uses, found: &[&Expr]) -> Result<(), Memory>
    ensures { OnOk result (uses.new ≡ noted uses.old (flat_map (meant.constants scope.now) (trees found.now))) }
{
    'found: for e in found {
        note_constants(alloc, scope, uses, e)?;
    }
    Ok(())
}

// Notes the list of a carried loop, which stands by its name.
fn note_list(alloc: Global, uses: &mut Uses, list: &Expr) -> Result<(), Memory>
    ensures { OnOk result (uses.new ≡ noted uses.old (name_of (mirror_expr list.now))) }
{
    match list_name(list) {
        Some(name) => uses.note(alloc, name),
        None => Ok(()),
    }
}

// Notes those in the remote expressions of a statement.
fn note_kept(
    alloc: Global,
    x: &Facts<'_>,
    scope: &Scope,
    uses: &mut Uses,
    s: &Stmt,
) -> Result<(), Memory>
    ensures { OnOk result (uses.new ≡ noted uses.old (meant.kept_constants (facts x.now) scope.now (mirror_stmt s.now))) }
{
    let found = remote_of(alloc, x, scope, s)?;
    note_found(alloc, scope, uses, found.as_slice())
}

// Notes those that a statement at a script place gives to the script, and binds what it declares.
#[cycle(used)]
fn note_stmt(
    alloc: Global,
    x: &Facts<'_>,
    scope: &mut Scope,
    uses: &mut Uses,
    s: &Stmt,
) -> Result<(), Memory>
    ensures uses { OnOk result (uses.new ≡ noted uses.old (meant.used (facts x.now) scope.old (mirror_stmt s.now))) }
    ensures scope { OnOk result (scope.new ≡ scope_behind x.now scope.old s.now) }
{
    match (&s.form, placed_form(x, scope, s)) {
        (StmtForm::Val(name, e), PlacedForm::CarriedVal) => {
            note_constants(alloc, scope, uses, e)?;
            scope.bind(alloc, name, Role::Carried, s.at)
        }
        (StmtForm::If(c, a, b), PlacedForm::CarriedIf) => {
            note_constants(alloc, scope, uses, c)?;
            note_block(alloc, x, scope, uses, a.as_slice())?;
            note_block(alloc, x, scope, uses, b.as_slice())
        }
        (StmtForm::For(name, e, a), PlacedForm::RowsLoop) => {
            note_constants(alloc, scope, uses, e)?;
            note_turn(alloc, x, scope, uses, &Loop::of(s.at, name, a))
        }
        (StmtForm::For(name, e, a), PlacedForm::CarriedLoop) => {
            note_list(alloc, uses, e)?;
            note_turn(alloc, x, scope, uses, &Loop::of(s.at, name, a))
        }
        _ => {
            note_kept(alloc, x, scope, uses, s)?;
            bind_plain(alloc, scope, s)
        }
    }
}

// A block, whose variables go at its end.
#[cycle(used)]
fn note_block(
    alloc: Global,
    x: &Facts<'_>,
    scope: &mut Scope,
    uses: &mut Uses,
    ss: &[Stmt],
) -> Result<(), Memory>
    ensures uses { OnOk result (uses.new ≡ noted uses.old (used_by x.now scope.old ss.now)) }
    ensures scope { OnOk result (scope.new ≡ scope.old) }
{
    let count = scope.len();
    note_stmts(alloc, x, scope, uses, ss)?;
    scope.truncate(count);
    Ok(())
}

// The block of a loop, with its variable.
#[cycle(used)]
fn note_turn(
    alloc: Global,
    x: &Facts<'_>,
    scope: &mut Scope,
    uses: &mut Uses,
    turns: &Loop<'_>,
) -> Result<(), Memory>
    ensures uses { OnOk result (uses.new ≡ noted uses.old (used_in_turn x.now scope.old turns.now)) }
    ensures scope { OnOk result (scope.new ≡ scope.old) }
{
    let count = scope.len();
    scope.bind(alloc, turns.name, Role::Row, turns.at)?;
    note_stmts(alloc, x, scope, uses, turns.block)?;
    scope.truncate(count);
    Ok(())
}

#[cycle(used)]
fn note_stmts(
    alloc: Global,
    x: &Facts<'_>,
    scope: &mut Scope,
    uses: &mut Uses,
    ss: &[Stmt],
) -> Result<(), Memory>
    ensures uses { OnOk result (uses.new ≡ noted uses.old (used_by x.now scope.old ss.now)) }
    ensures kept { OnOk result (take (length scope.old) scope.new ≡ scope.old) }
{
    'stmts: for s in ss {
        note_stmt(alloc, x, scope, uses, s)?;
    }
    Ok(())
}

/// The inputs of a batch whose block begins in this scope, in order of first use.
pub fn inputs_of(
    alloc: Global,
    x: &Facts<'_>,
    scope: &mut Scope,
    block: &[Stmt],
) -> Result<Seq<Word>, Memory>
    ensures inputs { IfOk result (λ names. names ≡ meant.first_uses [] (used_by x.now scope.old block.now)) }
    ensures scope { OnOk result (scope.new ≡ scope.old) }
{
    let mut uses = Uses::new(alloc);
    note_block(alloc, x, scope, &mut uses, block)?;
    Ok(uses.into_names())
}

/// The numbers of the inputs that are lists, in order.
pub fn list_numbers(alloc: Global, scope: &Scope, inputs: &[Word]) -> Result<Seq<u8>, Memory>
    requires { length inputs.now ≤ 255 }
    ensures { IfOk result (λ numbers. numbers ≡ meant.list_numbers scope.now 0 inputs.now) }
{
    let mut numbers = Seq::new(alloc);
    'inputs: for i in 0..inputs.len() {
        if is_list(scope.role_of(&inputs[i])) {
            numbers.push(i as u8)?;
        }
    }
    Ok(numbers)
}
