// Copies of statements without their remote expressions.

#![tactic(auto, using(crate::proofs::CutForms::plain_rules))]

ghost use Rattle.std.specs.Prelude.{◌≡◌, IfOk};
ghost use Rattle.rb_trees.specs.mirror.Code as code;
ghost use Rattle.rb_trees.specs.mirror.Code.{mirror_expr, mirror_stmt, mirror_stmts};
ghost use Rattle.rb_meaning_split.specs.Cuts as meant;
ghost use Rattle.rb_split.specs.Views.{facts};

use crate::cuts::cut;
use rb_marks::Facts;
use rb_scopes::Scope;
use rb_trees::{Boxed, Expr, Memory, Seq, Stmt, StmtForm, Word, copy_stmt, copy_stmts, copy_word};
use std::alloc::Global;

// The forms whose expressions are cut already.
fn val_of(alloc: Global, at: u32, name: &Word, e: Boxed<Expr>) -> Result<Stmt, Memory>
    ensures { IfOk result (λ s. mirror_stmt s ≡ code.Val at name.now (mirror_expr e)) }
{
    let name = copy_word(alloc, name)?;
    Ok(Stmt {
        at,
        form: StmtForm::Val(name, e.into_inner()),
    })
}

fn var_of(alloc: Global, at: u32, name: &Word, e: Boxed<Expr>) -> Result<Stmt, Memory>
    ensures { IfOk result (λ s. mirror_stmt s ≡ code.Var at name.now (mirror_expr e)) }
{
    let name = copy_word(alloc, name)?;
    Ok(Stmt {
        at,
        form: StmtForm::Var(name, e.into_inner()),
    })
}

fn assign_of(at: u32, a: Boxed<Expr>, b: Boxed<Expr>) -> Stmt
    ensures { mirror_stmt result ≡ code.Assign at (mirror_expr a) (mirror_expr b) }
{
    Stmt {
        at,
        form: StmtForm::Assign(a.into_inner(), b.into_inner()),
    }
}

fn run_of(at: u32, e: Boxed<Expr>) -> Stmt
    ensures { mirror_stmt result ≡ code.Run at (mirror_expr e) }
{
    Stmt {
        at,
        form: StmtForm::Run(e.into_inner()),
    }
}

fn print_of(at: u32, e: Boxed<Expr>) -> Stmt
    ensures { mirror_stmt result ≡ code.Print at (mirror_expr e) }
{
    Stmt {
        at,
        form: StmtForm::Print(e.into_inner()),
    }
}

fn throw_of(at: u32, e: Boxed<Expr>) -> Stmt
    ensures { mirror_stmt result ≡ code.Throw at (mirror_expr e) }
{
    Stmt {
        at,
        form: StmtForm::Throw(e.into_inner()),
    }
}

fn if_of(
    alloc: Global,
    at: u32,
    c: Boxed<Expr>,
    yes: &Seq<Stmt>,
    no: &Seq<Stmt>,
) -> Result<Stmt, Memory>
    ensures { IfOk result (λ s. mirror_stmt s ≡ code.If at (mirror_expr c) (mirror_stmts yes.now) (mirror_stmts no.now)) }
{
    let yes = copy_stmts(alloc, yes.as_slice())?;
    let no = copy_stmts(alloc, no.as_slice())?;
    Ok(Stmt {
        at,
        form: StmtForm::If(c.into_inner(), yes, no),
    })
}

fn while_of(alloc: Global, at: u32, c: Boxed<Expr>, block: &Seq<Stmt>) -> Result<Stmt, Memory>
    ensures { IfOk result (λ s. mirror_stmt s ≡ code.While at (mirror_expr c) (mirror_stmts block.now)) }
{
    let block = copy_stmts(alloc, block.as_slice())?;
    Ok(Stmt {
        at,
        form: StmtForm::While(c.into_inner(), block),
    })
}

fn for_of(
    alloc: Global,
    at: u32,
    name: &Word,
    e: Boxed<Expr>,
    block: &Seq<Stmt>,
) -> Result<Stmt, Memory>
    ensures { IfOk result (λ s. mirror_stmt s ≡ code.For at name.now (mirror_expr e) (mirror_stmts block.now)) }
{
    let name = copy_word(alloc, name)?;
    let block = copy_stmts(alloc, block.as_slice())?;
    Ok(Stmt {
        at,
        form: StmtForm::For(name, e.into_inner(), block),
    })
}

// An expression of a statement, cut.
fn cut_one(
    alloc: Global,
    x: &Facts<'_>,
    scope: &Scope,
    number: u32,
    e: &Expr,
) -> Result<Boxed<Expr>, Memory>
    ensures { IfOk result (λ c. mirror_expr c ≡ meant.cut (facts x.now) scope.now number (mirror_expr e.now)) }
{
    let mut number = number;
    cut(alloc, x, scope, &mut number, e)
}

/// A statement without its remote expressions, which are numbered from `number` on: `cut_stmt`.
pub fn cut_stmt(
    alloc: Global,
    x: &Facts<'_>,
    scope: &Scope,
    number: u32,
    s: &Stmt,
) -> Result<Stmt, Memory>
    ensures { IfOk result (λ c. mirror_stmt c ≡ meant.cut_stmt (facts x.now) scope.now number (mirror_stmt s.now)) }
{
    match &s.form {
        StmtForm::Val(name, e) => val_of(alloc, s.at, name, cut_one(alloc, x, scope, number, e)?),
        StmtForm::Var(name, e) => var_of(alloc, s.at, name, cut_one(alloc, x, scope, number, e)?),
        StmtForm::Assign(a, b) => {
            let mut number = number;
            let a = cut(alloc, x, scope, &mut number, a)?;
            let b = cut(alloc, x, scope, &mut number, b)?;
            Ok(assign_of(s.at, a, b))
        }
        StmtForm::Run(e) => Ok(run_of(s.at, cut_one(alloc, x, scope, number, e)?)),
        StmtForm::Print(e) => Ok(print_of(s.at, cut_one(alloc, x, scope, number, e)?)),
        StmtForm::Throw(e) => Ok(throw_of(s.at, cut_one(alloc, x, scope, number, e)?)),
        StmtForm::If(c, yes, no) => {
            if_of(alloc, s.at, cut_one(alloc, x, scope, number, c)?, yes, no)
        }
        StmtForm::While(c, block) => {
            while_of(alloc, s.at, cut_one(alloc, x, scope, number, c)?, block)
        }
        StmtForm::For(name, e, block) => {
            for_of(
                alloc,
                s.at,
                name,
                cut_one(alloc, x, scope, number, e)?,
                block,
            )
        }
        StmtForm::Try(_, _, _) | StmtForm::Batch(_, _, _) => copy_stmt(alloc, s),
    }
}
