// What expressions, statements and blocks read.

#![tactic(auto, using(crate::proofs::ReadRules::read_rules))]

ghost use Rattle.std.specs.Prelude.{◌≡◌, ◌++◌, take, length, OnOk};
ghost use Rattle.rb_trees.specs.mirror.Code.{mirror_expr, mirror_exprs, mirror_stmt};
ghost use Rattle.rb_meaning_flow.specs.declared.scopes.Role.{Role};
ghost use Rattle.rb_meaning_flow.specs.Scopes.{with_variable};
ghost use Rattle.rb_meaning_flow.specs.Flow as flow;
ghost use Rattle.rb_flow.specs.ByTrees.{block_read};
ghost use Rattle.rb_flow.specs.Views.{facts, node_list};
ghost use Rattle.rb_flow.specs.Readings as words;

use crate::scope::{bind, node_of};
use crate::standing::Reading;
use rb_marks::Facts;
use rb_meaning_flow::Role;
use rb_scopes::Scope;
use rb_trees::{Expr, ExprForm, Memory, Seq, Stmt, StmtForm, Word};
use std::alloc::Global;

/// The node of all objects of the own side.
pub const OBJECTS: u32 = 0;

impl Reading {
    /// Nothing is read.
    pub fn new(alloc: Global) -> Reading
        ensures { result ≡ words.nothing }
    {
        Reading {
            nodes: Seq::new(alloc),
            sources: Seq::new(alloc),
        }
    }

    /// Adds what is read elsewhere.
    pub fn add(&mut self, other: &Reading) -> Result<(), Memory>
        ensures { OnOk result (self.new ≡ words.joined self.old other.now) }
    {
        self.nodes.extend_from_slice(other.nodes.as_slice())?;
        self.sources.extend_from_slice(other.sources.as_slice())
    }
}

fn node_read(x: &Facts<'_>, scope: &Scope, e: &Expr) -> Option<u32>
    ensures { node_list result ≡ flow.read_here (facts x.now) scope.now (mirror_expr e.now) }
{
    match &e.form {
        ExprForm::Name(name) => node_of(scope, name),
        ExprForm::Field(_, _) => Some(OBJECTS),
        ExprForm::Call(a, _, _) => {
            if x.is_remote(a.get()) {
                None
            } else {
                Some(OBJECTS)
            }
        }
        ExprForm::Lit(_) | ExprForm::This | ExprForm::Unary(_, _) => None,
        ExprForm::Binary(_, _, _) | ExprForm::Index(_, _) | ExprForm::New(_, _) => None,
        ExprForm::Items(_, _) | ExprForm::Taken(_) => None,
    }
}

fn push_some(nodes: &mut Seq<u32>, node: Option<u32>) -> Result<(), Memory>
    ensures { OnOk result (nodes.new ≡ nodes.old ++ node_list node) }
{
    match node {
        Some(node) => nodes.push(node),
        None => Ok(()),
    }
}

fn source_here(x: &Facts<'_>, called: bool, e: &Expr) -> Option<u32>
    ensures { node_list result ≡ words.source_here (facts x.now) called (mirror_expr e.now) }
{
    if x.is_call(e) && !called {
        Some(e.at)
    } else {
        None
    }
}

fn read_itself(
    x: &Facts<'_>,
    scope: &Scope,
    called: bool,
    reading: &mut Reading,
    e: &Expr,
) -> Result<(), Memory>
    ensures { OnOk result (reading.new ≡ words.itself_read (facts x.now) scope.now called reading.old (mirror_expr e.now)) }
{
    push_some(&mut reading.nodes, node_read(x, scope, e))?;
    push_some(&mut reading.sources, source_here(x, called, e))
}

// Adds what the parts of an expression read.
#[cycle(exprs)]
fn read_parts(
    x: &Facts<'_>,
    scope: &Scope,
    called: bool,
    reading: &mut Reading,
    e: &Expr,
) -> Result<(), Memory>
    ensures { OnOk result (reading.new ≡ words.parts_read (facts x.now) scope.now called reading.old (mirror_expr e.now)) }
{
    match &e.form {
        ExprForm::Lit(_) | ExprForm::Name(_) | ExprForm::This | ExprForm::Taken(_) => Ok(()),
        ExprForm::Unary(_, a) | ExprForm::Field(a, _) => read_expr(
            x,
            scope,
            called,
            reading,
            a.get(),
        ),
        ExprForm::Binary(_, a, b) | ExprForm::Index(a, b) => {
            read_expr(x, scope, called, reading, a.get())?;
            read_expr(x, scope, called, reading, b.get())
        }
        ExprForm::Call(a, _, args) => {
            read_expr(x, scope, called, reading, a.get())?;
            read_exprs(x, scope, called, reading, args.as_slice())
        }
        ExprForm::New(_, args) | ExprForm::Items(_, args) => {
            read_exprs(x, scope, called, reading, args.as_slice())
        }
    }
}

/// Adds what an expression and its parts read.
#[cycle(exprs)]
pub fn read_expr(
    x: &Facts<'_>,
    scope: &Scope,
    called: bool,
    reading: &mut Reading,
    e: &Expr,
) -> Result<(), Memory>
    ensures { OnOk result (reading.new ≡ words.expr_read (facts x.now) scope.now called reading.old (mirror_expr e.now)) }
{
    read_itself(x, scope, called, reading, e)?;
    let called = x.is_call(e) || called;
    read_parts(x, scope, called, reading, e)
}

#[cycle(exprs)]
fn read_exprs(
    x: &Facts<'_>,
    scope: &Scope,
    called: bool,
    reading: &mut Reading,
    es: &[Expr],
) -> Result<(), Memory>
    ensures { OnOk result (reading.new ≡ words.exprs_read (facts x.now) scope.now called reading.old (mirror_exprs es.now)) }
{
    for e in es {
        read_expr(x, scope, called, reading, e)?;
    }
    Ok(())
}

// Adds what a statement and its blocks read, and binds what it declares.
#[cycle(stmts)]
#[tactic(auto, using(crate::proofs::ReadRules::read_stmt_rules))]
fn read_stmt(
    alloc: Global,
    x: &Facts<'_>,
    scope: &mut Scope,
    reading: &mut Reading,
    s: &Stmt,
) -> Result<(), Memory>
    ensures reads { OnOk result (reading.new ≡ words.stmt_read (facts x.now) scope.old reading.old (mirror_stmt s.now)) }
    ensures scope { OnOk result (scope.new ≡ words.scope_read scope.old (mirror_stmt s.now)) }
{
    match &s.form {
        StmtForm::Val(name, e) | StmtForm::Var(name, e) => {
            read_expr(x, scope, false, reading, e)?;
            bind(alloc, scope, name, Role::Plain, s.at)
        }
        StmtForm::Assign(a, b) => {
            read_expr(x, scope, false, reading, a)?;
            read_expr(x, scope, false, reading, b)
        }
        StmtForm::Run(e) | StmtForm::Print(e) | StmtForm::Throw(e) => {
            read_expr(x, scope, false, reading, e)
        }
        StmtForm::If(c, a, b) => {
            read_expr(x, scope, false, reading, c)?;
            read_block(alloc, x, scope, reading, a.as_slice())?;
            read_block(alloc, x, scope, reading, b.as_slice())
        }
        StmtForm::While(c, a) => {
            read_expr(x, scope, false, reading, c)?;
            read_block(alloc, x, scope, reading, a.as_slice())
        }
        StmtForm::For(name, e, a) => {
            read_expr(x, scope, false, reading, e)?;
            read_opened(alloc, x, scope, reading, name, s.at, a.as_slice())
        }
        StmtForm::Try(a, name, b) => {
            read_block(alloc, x, scope, reading, a.as_slice())?;
            read_opened(alloc, x, scope, reading, name, s.at, b.as_slice())
        }
        StmtForm::Batch(_, root, a) => {
            read_opened(alloc, x, scope, reading, root, s.at, a.as_slice())
        }
    }
}

/// Adds what a block reads. The scope stays.
#[cycle(stmts)]
#[tactic(auto, using(crate::proofs::ReadRules::read_stmt_rules))]
pub fn read_block(
    alloc: Global,
    x: &Facts<'_>,
    scope: &mut Scope,
    reading: &mut Reading,
    ss: &[Stmt],
) -> Result<(), Memory>
    ensures reads { OnOk result (reading.new ≡ block_read x.now scope.old reading.old ss.now) }
    ensures scope { OnOk result (scope.new ≡ scope.old) }
{
    let count = scope.len();
    read_stmts(alloc, x, scope, reading, ss)?;
    scope.truncate(count);
    Ok(())
}

/// The same of a block with a variable of its own.
#[cycle(stmts)]
#[tactic(auto, using(crate::proofs::ReadRules::read_stmt_rules))]
pub fn read_opened(
    alloc: Global,
    x: &Facts<'_>,
    scope: &mut Scope,
    reading: &mut Reading,
    name: &Word,
    node: u32,
    ss: &[Stmt],
) -> Result<(), Memory>
    ensures reads { OnOk result (reading.new ≡ block_read x.now (with_variable scope.old name.now Role.Plain node) reading.old ss.now) }
    ensures scope { OnOk result (scope.new ≡ scope.old) }
{
    let count = scope.len();
    bind(alloc, scope, name, Role::Plain, node)?;
    read_stmts(alloc, x, scope, reading, ss)?;
    scope.truncate(count);
    Ok(())
}

#[cycle(stmts)]
#[tactic(auto, using(crate::proofs::ReadRules::read_stmt_rules))]
fn read_stmts(
    alloc: Global,
    x: &Facts<'_>,
    scope: &mut Scope,
    reading: &mut Reading,
    ss: &[Stmt],
) -> Result<(), Memory>
    ensures reads { OnOk result (reading.new ≡ block_read x.now scope.old reading.old ss.now) }
    ensures kept { OnOk result (take (length scope.old) scope.new ≡ scope.old) }
{
    for s in ss {
        read_stmt(alloc, x, scope, reading, s)?;
    }
    Ok(())
}
