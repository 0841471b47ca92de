// The walks through a program, which open each outermost batch in the scope in which it stands.
#![tactic(auto, using(crate::proofs::Rules::outer_rules))]

ghost use Rattle.std.specs.Prelude.{◌≡◌, map, take, length, OnOk, IfOk};
ghost use Rattle.rb_trees.specs.mirror.Declarations.{mirror_param, mirror_program};
ghost use Rattle.rb_meaning_flow.specs.Outermost as outermost;
ghost use Rattle.rb_marks.specs.Passes as passes;
ghost use Rattle.rb_marks.specs.Views.{told};
ghost use Rattle.rb_marks.specs.Walks as walks;

use crate::batch::Batch;
use crate::declared::{Declared, bind_declared};
use crate::facts::{Facts, has_primitive_items, is_primitive};
use crate::marks::{Notes, mark_stmts};
use rb_meaning_flow::Role;
use rb_scopes::Scope;
use rb_trees::{Class, Memory, Method, Param, Program, Stmt, StmtForm, Word};
use std::alloc::Global;

fn outer_role(primitive: bool, list: bool) -> Role
    ensures { result ≡ outermost.outer_role primitive list }
{
    if primitive {
        Role::Constant
    } else if list {
        Role::ConstantList
    } else {
        Role::Plain
    }
}

// The scope in which a method's body begins.
fn parameters(alloc: Global, params: &[Param]) -> Result<Scope, Memory>
    ensures { IfOk result (λ scope. scope ≡ outermost.parameters (map mirror_param params.now)) }
{
    let mut scope = Scope::new(alloc)?;
    for param in params {
        let kind = &param.kind.form;
        let role = outer_role(is_primitive(kind), has_primitive_items(kind));
        scope.bind(alloc, &param.name, role, param.at)?;
    }
    Ok(scope)
}

// Notes the marks and places of an outermost batch with this root.
fn mark_batch(
    alloc: Global,
    facts: &Facts,
    scope: &mut Scope,
    notes: &mut Notes,
    root: &Word,
    at: u32,
    block: &[Stmt],
) -> Result<(), Memory>
    ensures marks { let begun = walks.batch_marks facts.now scope.old root.now at in
        OnOk result (notes.new.marks.items ≡ begun notes.old.marks.items block.now) }
    ensures places { let begun = walks.batch_places facts.now scope.old root.now at in
        OnOk result (notes.new.places.items ≡ begun notes.old.places.items block.now) }
    ensures scope { OnOk result (scope.new ≡ scope.old) }
{
    let count = scope.len();
    let x = Batch::new(alloc, facts, block)?;
    scope.bind(alloc, root, Role::Root, at)?;
    mark_stmts(&x, true, scope, notes, block)?;
    scope.truncate(count);
    Ok(())
}

// Notes the marks and places of the outermost batches in a statement, and binds what it declares.
#[cycle(outer_marks)]
fn mark_outer(
    alloc: Global,
    facts: &Facts,
    scope: &mut Scope,
    notes: &mut Notes,
    s: &Stmt,
) -> Result<(), Memory>
    ensures marks { OnOk result (notes.new.marks.items ≡ walks.outer_marks facts.now scope.old notes.old.marks.items s.now) }
    ensures places { OnOk result (notes.new.places.items ≡ walks.outer_places facts.now scope.old notes.old.places.items s.now) }
    ensures scope { OnOk result (scope.new ≡ walks.outer_scope_behind facts.now scope.old s.now) }
{
    let at = s.at;
    match &s.form {
        StmtForm::Val(name, e) | StmtForm::Var(name, e) => {
            let role = outer_role(facts.is_primitive(e), facts.has_primitive_items(e));
            scope.bind(alloc, name, role, at)
        }
        StmtForm::Assign(_, _) | StmtForm::Run(_) => Ok(()),
        StmtForm::Print(_) | StmtForm::Throw(_) => Ok(()),
        StmtForm::If(_, a, b) => {
            mark_outer_block(alloc, facts, scope, notes, a.as_slice())?;
            mark_outer_block(alloc, facts, scope, notes, b.as_slice())
        }
        StmtForm::While(_, a) => mark_outer_block(alloc, facts, scope, notes, a.as_slice()),
        StmtForm::For(name, e, a) => {
            let role = outer_role(facts.has_primitive_items(e), facts.has_list_items(e));
            let own = Declared { name, role, at };
            mark_outer_opened(alloc, facts, scope, notes, &own, a.as_slice())
        }
        StmtForm::Try(a, name, b) => {
            mark_outer_block(alloc, facts, scope, notes, a.as_slice())?;
            let role = outer_role(true, false);
            let own = Declared { name, role, at };
            mark_outer_opened(alloc, facts, scope, notes, &own, b.as_slice())
        }
        StmtForm::Batch(_, root, a) => {
            mark_batch(alloc, facts, scope, notes, root, at, a.as_slice())
        }
    }
}

// The same for a block, whose variables go at its end.
#[cycle(outer_marks)]
fn mark_outer_block(
    alloc: Global,
    facts: &Facts,
    scope: &mut Scope,
    notes: &mut Notes,
    ss: &[Stmt],
) -> Result<(), Memory>
    ensures marks { OnOk result (notes.new.marks.items ≡ walks.outer_stmts_marks facts.now scope.old notes.old.marks.items ss.now) }
    ensures places { OnOk result (notes.new.places.items ≡ walks.outer_stmts_places facts.now scope.old notes.old.places.items ss.now) }
    ensures scope { OnOk result (scope.new ≡ scope.old) }
{
    let count = scope.len();
    mark_outer_stmts(alloc, facts, scope, notes, ss)?;
    scope.truncate(count);
    Ok(())
}

// The same for a block with a variable of its own.
#[cycle(outer_marks)]
fn mark_outer_opened(
    alloc: Global,
    facts: &Facts,
    scope: &mut Scope,
    notes: &mut Notes,
    own: &Declared<'_>,
    ss: &[Stmt],
) -> Result<(), Memory>
    ensures marks { let opened = walks.outer_opened_marks facts.now scope.old own.now in
        OnOk result (notes.new.marks.items ≡ opened notes.old.marks.items ss.now) }
    ensures places { let opened = walks.outer_opened_places facts.now scope.old own.now in
        OnOk result (notes.new.places.items ≡ opened notes.old.places.items ss.now) }
    ensures scope { OnOk result (scope.new ≡ scope.old) }
{
    let count = scope.len();
    bind_declared(alloc, scope, own)?;
    mark_outer_stmts(alloc, facts, scope, notes, ss)?;
    scope.truncate(count);
    Ok(())
}

#[cycle(outer_marks)]
fn mark_outer_stmts(
    alloc: Global,
    facts: &Facts,
    scope: &mut Scope,
    notes: &mut Notes,
    ss: &[Stmt],
) -> Result<(), Memory>
    ensures marks { OnOk result (notes.new.marks.items ≡ walks.outer_stmts_marks facts.now scope.old notes.old.marks.items ss.now) }
    ensures places { OnOk result (notes.new.places.items ≡ walks.outer_stmts_places facts.now scope.old notes.old.places.items ss.now) }
    ensures kept { OnOk result (take (length scope.old) scope.new ≡ scope.old) }
{
    for s in ss {
        mark_outer(alloc, facts, scope, notes, s)?;
    }
    Ok(())
}

fn mark_methods(
    alloc: Global,
    facts: &Facts,
    notes: &mut Notes,
    methods: &[Method],
) -> Result<(), Memory>
    ensures marks { OnOk result (notes.new.marks.items ≡ walks.methods_marks facts.now notes.old.marks.items methods.now) }
    ensures places { OnOk result (notes.new.places.items ≡ walks.methods_places facts.now notes.old.places.items methods.now) }
{
    for m in methods {
        let mut scope = parameters(alloc, m.signature.params.as_slice())?;
        mark_outer_stmts(
            alloc,
            facts,
            &mut scope,
            notes,
            m.body.statements.as_slice(),
        )?;
    }
    Ok(())
}

fn mark_classes(
    alloc: Global,
    facts: &Facts,
    notes: &mut Notes,
    classes: &[Class],
) -> Result<(), Memory>
    ensures marks { OnOk result (notes.new.marks.items ≡ walks.classes_marks facts.now notes.old.marks.items classes.now) }
    ensures places { OnOk result (notes.new.places.items ≡ walks.classes_places facts.now notes.old.places.items classes.now) }
{
    for class in classes {
        mark_methods(alloc, facts, notes, class.methods.as_slice())?;
    }
    Ok(())
}

/// The mark of each expression in a batch and the place of each statement in one, with its position.
pub fn mark_program(alloc: Global, facts: &Facts, program: &Program) -> Result<Notes, Memory>
    ensures marks { IfOk result (λ notes. notes.marks.items ≡ passes.program_marked (told facts.now) (mirror_program program.now)) }
    ensures places { IfOk result (λ notes. notes.places.items ≡ passes.program_placed (told facts.now) (mirror_program program.now)) }
{
    let mut notes = Notes {
        marks: Vec::new(alloc),
        places: Vec::new(alloc),
    };
    mark_classes(alloc, facts, &mut notes, program.classes.as_slice())?;
    let mut scope = Scope::new(alloc)?;
    mark_outer_stmts(
        alloc,
        facts,
        &mut scope,
        &mut notes,
        program.body.statements.as_slice(),
    )?;
    Ok(notes)
}
