// What writes a node of the flow graph, and what it reads.

#![tactic(auto, using(crate::proofs::Given::fact_rules))]

ghost use Rattle.std.specs.Prelude.{◌≡◌, ◌++◌, IfOk, OnOk};
ghost use Rattle.rb_trees.specs.mirror.Code.{mirror_expr, mirror_stmt, mirror_stmts};
ghost use Rattle.rb_meaning_flow.specs.Flow as flow;
ghost use Rattle.rb_flow.specs.ByTrees.{assignment_read};
ghost use Rattle.rb_flow.specs.Views.{facts, node_list};
ghost use Rattle.rb_flow.specs.Readings as readings;
ghost use Rattle.rb_flow.specs.Walked as words;

use crate::reading::{OBJECTS, read_block, read_expr};
use crate::scope::node_of;
use crate::standing::Reading;
use rb_marks::Facts;
use rb_scopes::Scope;
use rb_trees::{Expr, ExprForm, Memory, Seq, Stmt, StmtForm, Writer};
use std::alloc::Global;

fn writer_of(at: u32, node: u32, reading: Reading) -> Writer
    ensures { result ≡ words.writer_of at node reading }
{
    let Reading { nodes, sources } = reading;
    Writer {
        at,
        writes: node,
        reads: nodes,
        sources,
    }
}

/// What an expression reads, and what is read around it.
pub fn read_around(
    alloc: Global,
    x: &Facts<'_>,
    scope: &Scope,
    around: &Reading,
    e: &Expr,
) -> Result<Reading, Memory>
    ensures { IfOk result (λ r. r ≡ readings.whole_read (facts x.now) scope.now around.now (mirror_expr e.now)) }
{
    let mut reading = Reading::new(alloc);
    read_expr(x, scope, false, &mut reading, e)?;
    reading.add(around)?;
    Ok(reading)
}

fn push_objects(
    alloc: Global,
    x: &Facts<'_>,
    scope: &Scope,
    around: &Reading,
    writers: &mut Seq<Writer>,
    e: &Expr,
) -> Result<(), Memory>
    ensures { OnOk result (writers.new ≡ writers.old ++ words.objects_writer (facts x.now) scope.now around.now (mirror_expr e.now)) }
{
    let reading = read_around(alloc, x, scope, around, e)?;
    writers.push(writer_of(e.at, OBJECTS, reading))
}

/// Adds the writer that an expression is, if it is one.
pub fn push_expr_writer(
    alloc: Global,
    x: &Facts<'_>,
    scope: &Scope,
    around: &Reading,
    writers: &mut Seq<Writer>,
    e: &Expr,
) -> Result<(), Memory>
    ensures { OnOk result (writers.new ≡ writers.old ++ words.expr_writes (facts x.now) scope.now around.now (mirror_expr e.now)) }
{
    match &e.form {
        ExprForm::Call(a, _, _) => {
            if x.is_remote(a.get()) {
                Ok(())
            } else {
                push_objects(alloc, x, scope, around, writers, e)
            }
        }
        ExprForm::New(_, _) => push_objects(alloc, x, scope, around, writers, e),
        ExprForm::Lit(_) | ExprForm::Name(_) | ExprForm::This | ExprForm::Unary(_, _) => Ok(()),
        ExprForm::Binary(_, _, _) | ExprForm::Field(_, _) | ExprForm::Index(_, _) => Ok(()),
        ExprForm::Items(_, _) | ExprForm::Taken(_) => Ok(()),
    }
}

fn assigned_node(scope: &Scope, left: &Expr) -> Option<u32>
    ensures { node_list result ≡ flow.assigned_node scope.now (mirror_expr left.now) }
{
    match &left.form {
        ExprForm::Name(name) => node_of(scope, name),
        ExprForm::Lit(_) | ExprForm::Field(_, _) | ExprForm::This => Some(OBJECTS),
        ExprForm::Unary(_, _) | ExprForm::Binary(_, _, _) | ExprForm::Call(_, _, _) => Some(
            OBJECTS,
        ),
        ExprForm::Index(_, _) | ExprForm::New(_, _) => Some(OBJECTS),
        ExprForm::Items(_, _) | ExprForm::Taken(_) => Some(OBJECTS),
    }
}

// What the left side of an assignment reads.
fn read_left(x: &Facts<'_>, scope: &Scope, reading: &mut Reading, left: &Expr) -> Result<(), Memory>
    ensures { OnOk result (reading.new ≡ words.left_read (facts x.now) scope.now reading.old (mirror_expr left.now)) }
{
    match &left.form {
        ExprForm::Name(_) => Ok(()),
        ExprForm::Lit(_) | ExprForm::Field(_, _) | ExprForm::This | ExprForm::Unary(_, _) => {
            read_expr(x, scope, false, reading, left)
        }
        ExprForm::Binary(_, _, _) | ExprForm::Call(_, _, _) | ExprForm::Index(_, _) => {
            read_expr(x, scope, false, reading, left)
        }
        ExprForm::New(_, _) | ExprForm::Items(_, _) | ExprForm::Taken(_) => {
            read_expr(x, scope, false, reading, left)
        }
    }
}

fn read_assignment(
    alloc: Global,
    x: &Facts<'_>,
    scope: &Scope,
    around: &Reading,
    a: &Expr,
    b: &Expr,
) -> Result<Reading, Memory>
    ensures { IfOk result (λ r. r ≡ assignment_read x.now scope.now around.now a.now b.now) }
{
    let mut reading = Reading::new(alloc);
    read_left(x, scope, &mut reading, a)?;
    read_expr(x, scope, false, &mut reading, b)?;
    reading.add(around)?;
    Ok(reading)
}

fn push_some(
    writers: &mut Seq<Writer>,
    at: u32,
    node: Option<u32>,
    reading: Reading,
) -> Result<(), Memory>
    ensures { OnOk result (writers.new ≡ writers.old ++ words.writers_of at (node_list node) reading) }
{
    match node {
        Some(node) => writers.push(writer_of(at, node, reading)),
        None => Ok(()),
    }
}

fn push_variable(
    alloc: Global,
    x: &Facts<'_>,
    scope: &Scope,
    around: &Reading,
    writers: &mut Seq<Writer>,
    at: u32,
    e: &Expr,
) -> Result<(), Memory>
    ensures { OnOk result (writers.new ≡ writers.old ++ words.variable_writer (facts x.now) scope.now around.now at (mirror_expr e.now)) }
{
    let reading = read_around(alloc, x, scope, around, e)?;
    writers.push(writer_of(at, at, reading))
}

fn push_try(
    alloc: Global,
    x: &Facts<'_>,
    scope: &mut Scope,
    around: &Reading,
    writers: &mut Seq<Writer>,
    at: u32,
    tried: &[Stmt],
) -> Result<(), Memory>
    ensures writers { let own = words.try_writer (facts x.now) scope.old around.now at (mirror_stmts tried.now) in
        OnOk result (writers.new ≡ writers.old ++ own) }
    ensures scope { OnOk result (scope.new ≡ scope.old) }
{
    let mut reading = Reading::new(alloc);
    read_block(alloc, x, scope, &mut reading, tried)?;
    reading.add(around)?;
    writers.push(writer_of(at, at, reading))
}

/// Adds the writer that a statement is, if it is one. The scope stays.
#[tactic(auto, using(crate::proofs::Trees::stmt_rules))]
pub fn push_stmt_writer(
    alloc: Global,
    x: &Facts<'_>,
    scope: &mut Scope,
    around: &Reading,
    writers: &mut Seq<Writer>,
    s: &Stmt,
) -> Result<(), Memory>
    ensures writers { OnOk result (writers.new ≡ writers.old ++ words.stmt_writes (facts x.now) scope.old around.now (mirror_stmt s.now)) }
    ensures scope { OnOk result (scope.new ≡ scope.old) }
{
    match &s.form {
        StmtForm::Val(_, e) | StmtForm::Var(_, e) | StmtForm::For(_, e, _) => {
            push_variable(alloc, x, scope, around, writers, s.at, e)
        }
        StmtForm::Assign(a, b) => {
            let reading = read_assignment(alloc, x, scope, around, a, b)?;
            push_some(writers, s.at, assigned_node(scope, a), reading)
        }
        StmtForm::Try(a, _, _) => push_try(alloc, x, scope, around, writers, s.at, a.as_slice()),
        StmtForm::Run(_) | StmtForm::Print(_) | StmtForm::Throw(_) => Ok(()),
        StmtForm::If(_, _, _) | StmtForm::While(_, _) | StmtForm::Batch(_, _, _) => Ok(()),
    }
}
