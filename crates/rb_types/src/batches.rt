// How many batches a program has.

ghost use Rattle.std.specs.Prelude.{◌≡◌, ◌+◌, map, OnOk, IfOk};
ghost use Rattle.rb_trees.specs.mirror.Code.{mirror_stmt, mirror_stmts};
ghost use Rattle.rb_trees.specs.mirror.Declarations.{mirror_method, mirror_class, mirror_program};
ghost use Rattle.rb_meaning_types.specs.Batches as batches;

use rb_trees::{Class, Memory, Method, Program, Stmt, StmtForm};

// One more; no memory holds a program with as many batches as a number can't tell.
fn one_more(count: u32) -> Result<u32, Memory>
    ensures { IfOk result (λ n. n ≡ count + 1) }
{
    match count.checked_add(1) {
        Some(count) => Ok(count),
        None => Err(Memory),
    }
}

#[cycle(batches)]
#[tactic(auto, using(crate::proofs::StmtTrees::stmt_trees))]
fn count_of(count: u32, s: &Stmt) -> Result<u32, Memory>
    ensures { IfOk result (λ n. n ≡ count + batches.batches_of (mirror_stmt s.now)) }
{
    match &s.form {
        StmtForm::Val(_, _) | StmtForm::Var(_, _) | StmtForm::Assign(_, _) => Ok(count),
        StmtForm::Run(_) | StmtForm::Print(_) | StmtForm::Throw(_) => Ok(count),
        StmtForm::If(_, a, b) => {
            let count = count_in(count, a.as_slice())?;
            count_in(count, b.as_slice())
        }
        StmtForm::While(_, a) | StmtForm::For(_, _, a) => count_in(count, a.as_slice()),
        StmtForm::Try(a, _, b) => {
            let count = count_in(count, a.as_slice())?;
            count_in(count, b.as_slice())
        }
        StmtForm::Batch(_, _, a) => {
            let count = one_more(count)?;
            count_in(count, a.as_slice())
        }
    }
}

#[cycle(batches)]
#[tactic(auto, using(crate::proofs::StmtTrees::stmt_trees))]
fn count_in(count: u32, ss: &[Stmt]) -> Result<u32, Memory>
    ensures { IfOk result (λ n. n ≡ count + batches.batches_in (mirror_stmts ss.now)) }
{
    let mut sum = count;
    for s in ss {
        sum = count_of(sum, s)?;
    }
    Ok(sum)
}

fn count_methods(count: u32, methods: &[Method]) -> Result<u32, Memory>
    ensures { IfOk result (λ n. n ≡ count + batches.method_batches (map mirror_method methods.now)) }
{
    let mut sum = count;
    for m in methods {
        sum = count_in(sum, m.body.statements.as_slice())?;
    }
    Ok(sum)
}

fn count_classes(count: u32, classes: &[Class]) -> Result<u32, Memory>
    ensures { IfOk result (λ n. n ≡ count + batches.class_batches (map mirror_class classes.now)) }
{
    let mut sum = count;
    for class in classes {
        sum = count_methods(sum, class.methods.as_slice())?;
    }
    Ok(sum)
}

/// How many batches a program has.
pub fn count_batches(program: &Program) -> Result<u32, Memory>
    ensures { IfOk result (λ n. n ≡ batches.batch_count (mirror_program program.now)) }
{
    let count = count_classes(0, program.classes.as_slice())?;
    count_in(count, program.body.statements.as_slice())
}
