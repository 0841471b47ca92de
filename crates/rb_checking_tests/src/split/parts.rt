// Remainders as texts.
//
// A part is its form and its step, as `bind 3 x:1` with a name and a kind, and `over 3 x by:0` with the name of a list and its
// number among the inputs. A statement is `plain`, with its expressions as far as something is taken in them, where `t` and a
// number is what the step of that number kept, and then each step with its kind.

use crate::told::add_number;
use rb_trees::{Expr, ExprForm, Memory, Part, Seq, Stmt, StmtForm, Word};
use std::alloc::Global;

#[cycle(exprs)]
fn add_expr(alloc: Global, e: &Expr, into: &mut Word) -> Result<(), Memory> {
    match &e.form {
        ExprForm::Taken(step) => add_number(alloc, "t", *step, into),
        ExprForm::Name(name) => into.extend_from_slice(name.as_slice()),
        ExprForm::Lit(_) | ExprForm::This => into.push(b'L'),
        ExprForm::Unary(_, a) | ExprForm::Field(a, _) => add_expr(alloc, a.get(), into),
        ExprForm::Binary(_, a, b) | ExprForm::Index(a, b) => {
            add_expr(alloc, a.get(), into)?;
            into.push(b'+')?;
            add_expr(alloc, b.get(), into)
        }
        ExprForm::Call(a, _, args) => {
            add_expr(alloc, a.get(), into)?;
            add_exprs(alloc, args, into)
        }
        ExprForm::New(_, args) | ExprForm::Items(_, args) => add_exprs(alloc, args, into),
    }
}

#[cycle(exprs)]
fn add_exprs(alloc: Global, es: &Seq<Expr>, into: &mut Word) -> Result<(), Memory> {
    into.push(b'(')?;
    for e in es.as_slice() {
        add_expr(alloc, e, into)?;
        into.push(b',')?;
    }
    into.push(b')')
}

fn add_stmt(alloc: Global, s: &Stmt, into: &mut Word) -> Result<(), Memory> {
    match &s.form {
        StmtForm::Val(_, e) | StmtForm::Var(_, e) => add_expr(alloc, e, into),
        StmtForm::Run(e) | StmtForm::Print(e) | StmtForm::Throw(e) => add_expr(alloc, e, into),
        StmtForm::If(e, _, _) | StmtForm::While(e, _) => add_expr(alloc, e, into),
        StmtForm::For(_, e, _) => add_expr(alloc, e, into),
        StmtForm::Assign(a, b) => {
            add_expr(alloc, a, into)?;
            into.push(b'=')?;
            add_expr(alloc, b, into)
        }
        StmtForm::Try(_, _, _) | StmtForm::Batch(_, _, _) => Ok(()),
    }
}

fn add_takes(alloc: Global, takes: &[(u32, u8)], into: &mut Word) -> Result<(), Memory> {
    for take in takes {
        add_number(alloc, " ", take.0, into)?;
        add_number(alloc, ":", u32::from(take.1), into)?;
    }
    Ok(())
}

// A name with a kind or a number.
fn add_name(alloc: Global, name: &Word, kind: u8, into: &mut Word) -> Result<(), Memory> {
    into.push(b' ')?;
    into.extend_from_slice(name.as_slice())?;
    add_number(alloc, ":", u32::from(kind), into)
}

fn add_plain(
    alloc: Global,
    stmt: &Stmt,
    takes: &Seq<(u32, u8)>,
    into: &mut Word,
) -> Result<(), Memory> {
    into.extend_from_slice(b"plain ")?;
    add_stmt(alloc, stmt, into)?;
    add_takes(alloc, takes.as_slice(), into)
}

fn add_both(
    alloc: Global,
    step: u32,
    name: &Word,
    value: &Expr,
    into: &mut Word,
) -> Result<(), Memory> {
    add_number(alloc, "both ", step, into)?;
    into.push(b' ')?;
    into.extend_from_slice(name.as_slice())?;
    into.push(b'=')?;
    add_expr(alloc, value, into)
}

// The name and the kind of what a form's step gives.
fn add_named(
    alloc: Global,
    form: &str,
    step: u32,
    name: &Word,
    kind: u8,
    into: &mut Word,
) -> Result<(), Memory> {
    add_number(alloc, form, step, into)?;
    add_name(alloc, name, kind, into)
}

fn add_over(
    alloc: Global,
    step: u32,
    name: &Word,
    list: &Word,
    input: u8,
    into: &mut Word,
) -> Result<(), Memory> {
    add_number(alloc, "over ", step, into)?;
    into.push(b' ')?;
    into.extend_from_slice(name.as_slice())?;
    add_name(alloc, list, input, into)
}

// A part but for its blocks.
fn add_head(alloc: Global, part: &Part, into: &mut Word) -> Result<(), Memory> {
    match part {
        Part::Plain(stmt, takes) => add_plain(alloc, stmt, takes, into),
        Part::Pass(step) => add_number(alloc, "pass ", *step, into),
        Part::Bind { step, name, kind } => add_named(alloc, "bind ", *step, name, *kind, into),
        Part::Both {
            step,
            name,
            value,
            ..
        } => add_both(alloc, *step, name, value, into),
        Part::Branch { step, .. } => add_number(alloc, "branch ", *step, into),
        Part::Turns {
            step,
            name,
            kind,
            ..
        } => { add_named(alloc, "turns ", *step, name, *kind, into) }
        Part::Over {
            step,
            name,
            list,
            input,
            ..
        } => { add_over(alloc, *step, name, list, *input, into) }
    }
}

#[cycle(parts)]
fn add_blocks(alloc: Global, part: &Part, into: &mut Word) -> Result<(), Memory> {
    match part {
        Part::Branch { yes, no, .. } => {
            add_parts(alloc, yes, into)?;
            add_parts(alloc, no, into)
        }
        Part::Turns { body, .. } | Part::Over { body, .. } => add_parts(alloc, body, into),
        _ => Ok(()),
    }
}

/// Adds the text of the parts of a block.
#[cycle(parts)]
pub fn add_parts(alloc: Global, parts: &Seq<Part>, into: &mut Word) -> Result<(), Memory> {
    into.push(b'{')?;
    for part in parts.as_slice() {
        add_head(alloc, part, into)?;
        add_blocks(alloc, part, into)?;
        into.push(b';')?;
    }
    into.push(b'}')
}
