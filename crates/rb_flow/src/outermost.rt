// The outermost batches of a program, each with the variables in scope where it begins.

#![tactic(auto, using(crate::proofs::OuterRules::outer_rules))]

ghost use Rattle.std.specs.Prelude.{◌≡◌, map, IfOk, OnOk};
ghost use Rattle.rb_trees.specs.mirror.Code.{mirror_stmt, mirror_stmts};
ghost use Rattle.rb_trees.specs.mirror.Declarations.{mirror_param, mirror_program};
ghost use Rattle.rb_meaning_flow.specs.Scopes as scopes;
ghost use Rattle.rb_meaning_flow.specs.Outermost as outermost;
ghost use Rattle.rb_marks.specs.Views.{with_declared};
ghost use Rattle.rb_flow.specs.Begun as begun;
ghost use Rattle.rb_flow.specs.Begun.{begun_of};
ghost use Rattle.rb_flow.specs.ByTrees.{stmt_begun, block_begun, methods_begun, classes_begun};
ghost use Rattle.rb_flow.specs.Views.{facts};

use rb_marks::{Batch, Declared, Facts, has_primitive_items, is_primitive};
use rb_meaning_flow::Role;
use rb_scopes::{OuterScope, Scope};
use rb_trees::{Class, Memory, Method, Param, Program, Seq, Stmt, StmtForm, Word};
use std::alloc::Global;

/// An outermost batch: the variables in scope where it begins, and its block.
#[derive(Drop)]
pub struct OpenBatch<'p> {
    pub scope: Scope,
    pub block: &'p [Stmt],
}

fn outer_role(primitive: bool, list: bool) -> Role
    ensures { result ≡ outermost.outer_role primitive list }
{
    if primitive {
        Role::Constant
    } else if list {
        Role::ConstantList
    } else {
        Role::Plain
    }
}

// The scope in which a method's body begins.
fn parameters(alloc: Global, params: &[Param]) -> Result<OuterScope, Memory>
    ensures { IfOk result (λ scope. scope ≡ outermost.parameters (map mirror_param params.now)) }
{
    let mut scope = OuterScope::new(alloc);
    for param in params {
        let kind = &param.kind.form;
        let role = outer_role(is_primitive(kind), has_primitive_items(kind));
        scope.bind(alloc, &param.name, role, param.at)?;
    }
    Ok(scope)
}

// The scope in which a batch begins.
fn open(
    alloc: Global,
    x: &Facts,
    scope: &mut OuterScope,
    at: u32,
    root: &Word,
    block: &[Stmt],
) -> Result<Scope, Memory>
    ensures batch { IfOk result (λ s. s ≡ scopes.opened scope.old at root.now (mirror_stmts block.now)) }
    ensures same { OnOk result (scope.new ≡ scope.old) }
{
    let Batch { assigned, .. } = Batch::new(alloc, x, block)?;
    scope.open(alloc, assigned, root, at)
}

fn push_batch<'p>(
    alloc: Global,
    x: &Facts,
    scope: &mut OuterScope,
    batches: &mut Seq<OpenBatch<'p>>,
    at: u32,
    root: &Word,
    block: &'p [Stmt],
) -> Result<(), Memory>
    ensures batches { let before = map begun_of batches.old in
        OnOk result (map begun_of batches.new ≡ begun.with_batch before scope.old at root.now (mirror_stmts block.now)) }
    ensures same { OnOk result (scope.new ≡ scope.old) }
{
    let scope = open(alloc, x, scope, at, root, block)?;
    batches.push(OpenBatch { scope, block })
}

// Adds the outermost batches of a statement, and binds what it declares.
#[cycle(outer)]
fn collect_stmt<'p>(
    alloc: Global,
    x: &Facts,
    scope: &mut OuterScope,
    batches: &mut Seq<OpenBatch<'p>>,
    s: &'p Stmt,
) -> Result<(), Memory>
    ensures batches { OnOk result (map begun_of batches.new ≡ stmt_begun x.now scope.old batches.old s.now) }
    ensures scope { OnOk result (scope.new ≡ outermost.outer_after (facts x.now) scope.old (mirror_stmt s.now)) }
{
    let at = s.at;
    match &s.form {
        StmtForm::Val(name, e) | StmtForm::Var(name, e) => {
            let role = outer_role(x.is_primitive(e), x.has_primitive_items(e));
            scope.bind(alloc, name, role, at)
        }
        StmtForm::Assign(_, _) | StmtForm::Run(_) => Ok(()),
        StmtForm::Print(_) | StmtForm::Throw(_) => Ok(()),
        StmtForm::If(_, a, b) => {
            collect_block(alloc, x, scope, batches, a.as_slice())?;
            collect_block(alloc, x, scope, batches, b.as_slice())
        }
        StmtForm::While(_, a) => collect_block(alloc, x, scope, batches, a.as_slice()),
        StmtForm::For(name, e, a) => {
            let role = outer_role(x.has_primitive_items(e), x.has_list_items(e));
            let own = Declared { name, role, at };
            collect_opened(alloc, x, scope, batches, &own, a.as_slice())
        }
        StmtForm::Try(a, name, b) => {
            collect_block(alloc, x, scope, batches, a.as_slice())?;
            let role = outer_role(true, false);
            let own = Declared { name, role, at };
            collect_opened(alloc, x, scope, batches, &own, b.as_slice())
        }
        StmtForm::Batch(_, root, a) => {
            push_batch(alloc, x, scope, batches, at, root, a.as_slice())
        }
    }
}

// The same for a block, whose variables go at its end.
#[cycle(outer)]
fn collect_block<'p>(
    alloc: Global,
    x: &Facts,
    scope: &mut OuterScope,
    batches: &mut Seq<OpenBatch<'p>>,
    ss: &'p [Stmt],
) -> Result<(), Memory>
    ensures batches { OnOk result (map begun_of batches.new ≡ block_begun x.now scope.old batches.old ss.now) }
    ensures scope { OnOk result (scope.new ≡ scope.old) }
{
    let mut inner = scope.begin_block(alloc)?;
    collect_stmts(alloc, x, &mut inner, batches, ss)
}

// The same for a block with a variable of its own.
#[cycle(outer)]
fn collect_opened<'p>(
    alloc: Global,
    x: &Facts,
    scope: &mut OuterScope,
    batches: &mut Seq<OpenBatch<'p>>,
    own: &Declared<'_>,
    ss: &'p [Stmt],
) -> Result<(), Memory>
    ensures batches { OnOk result (map begun_of batches.new ≡ block_begun x.now (with_declared scope.old own.now) batches.old ss.now) }
    ensures scope { OnOk result (scope.new ≡ scope.old) }
{
    let mut inner = scope.begin_block(alloc)?;
    inner.bind(alloc, own.name, own.role, own.at)?;
    collect_stmts(alloc, x, &mut inner, batches, ss)
}

#[cycle(outer)]
fn collect_stmts<'p>(
    alloc: Global,
    x: &Facts,
    scope: &mut OuterScope,
    batches: &mut Seq<OpenBatch<'p>>,
    ss: &'p [Stmt],
) -> Result<(), Memory>
    ensures { OnOk result (map begun_of batches.new ≡ block_begun x.now scope.old batches.old ss.now) }
{
    for s in ss {
        collect_stmt(alloc, x, scope, batches, s)?;
    }
    Ok(())
}

fn collect_methods<'p>(
    alloc: Global,
    x: &Facts,
    batches: &mut Seq<OpenBatch<'p>>,
    methods: &'p [Method],
) -> Result<(), Memory>
    ensures { OnOk result (map begun_of batches.new ≡ methods_begun x.now batches.old methods.now) }
{
    for m in methods {
        let mut scope = parameters(alloc, m.signature.params.as_slice())?;
        collect_stmts(alloc, x, &mut scope, batches, m.body.statements.as_slice())?;
    }
    Ok(())
}

fn collect_classes<'p>(
    alloc: Global,
    x: &Facts,
    batches: &mut Seq<OpenBatch<'p>>,
    classes: &'p [Class],
) -> Result<(), Memory>
    ensures { OnOk result (map begun_of batches.new ≡ classes_begun x.now batches.old classes.now) }
{
    for class in classes {
        collect_methods(alloc, x, batches, class.methods.as_slice())?;
    }
    Ok(())
}

/// The outermost batches of a program: those of its methods in source order, then those of `main`.
pub fn collect_batches<'p>(
    alloc: Global,
    x: &Facts,
    program: &'p Program,
) -> Result<Seq<OpenBatch<'p>>, Memory>
    ensures { IfOk result (λ batches. map begun_of batches ≡ begun.program_begun (facts x.now) (mirror_program program.now)) }
{
    let mut batches = Seq::new(alloc);
    collect_classes(alloc, x, &mut batches, program.classes.as_slice())?;
    let mut scope = OuterScope::new(alloc);
    collect_stmts(
        alloc,
        x,
        &mut scope,
        &mut batches,
        program.body.statements.as_slice(),
    )?;
    Ok(batches)
}
