// Copies of trees. A derived clone says nothing of a type that holds itself, so each is written here:
// what is answered is the same tree.

ghost use Rattle.std.specs.Prelude.{◌≡◌, IfOk};

use crate::boxes::Boxed;
use crate::code::{Expr, ExprForm, Stmt, StmtForm, TypeForm, TypeTree};
use crate::sequence::{Seq, Word};
use crate::values::Value;
use crate::want::Memory;
use std::alloc::Global;

/// A copy of a text: the same bytes.
pub fn copy_word(alloc: Global, word: &Word) -> Result<Word, Memory>
    ensures { IfOk result (λ copy. copy ≡ word.now) }
{
    Seq::from_slice(alloc, word.as_slice())
}

/// A copy of a value: the same value. Its texts and lists are shared, so that it costs the same for each.
pub fn copy_value(value: &Value) -> Result<Value, Memory>
    ensures { IfOk result (λ copy. copy ≡ value.now) }
{
    match value {
        Value::Unit => Ok(Value::Unit),
        Value::Int(number) => Ok(Value::Int(*number)),
        Value::Bool(truth) => Ok(Value::Bool(*truth)),
        Value::Text(text) => Ok(Value::Text(text.share()?)),
        Value::List(items) => Ok(Value::List(items.share()?)),
        Value::Ref(object) => Ok(Value::Ref(*object)),
        Value::Remote(object) => Ok(Value::Remote(*object)),
        Value::Rows(rows) => Ok(Value::Rows(rows.share()?)),
    }
}

/// A copy of a list of values: the same values in order.
pub fn copy_values(alloc: Global, values: &[Value]) -> Result<Seq<Value>, Memory>
    ensures { IfOk result (λ copies. copies ≡ values.now) }
{
    let mut copies = Seq::new(alloc);
    for value in values {
        copies.push(copy_value(value)?)?;
    }
    Ok(copies)
}

/// A copy of a type: the same tree.
#[cycle(type_copies)]
pub fn copy_type(alloc: Global, kind: &TypeTree) -> Result<TypeTree, Memory>
    ensures { IfOk result (λ copy. copy ≡ kind.now) }
{
    let form = copy_type_form(alloc, &kind.form)?;
    Ok(TypeTree { at: kind.at, form })
}

/// A copy of a form of a type: the same form.
#[cycle(type_copies)]
pub fn copy_type_form(alloc: Global, form: &TypeForm) -> Result<TypeForm, Memory>
    ensures { IfOk result (λ copy. copy ≡ form.now) }
{
    match form {
        TypeForm::Int => Ok(TypeForm::Int),
        TypeForm::Bool => Ok(TypeForm::Bool),
        TypeForm::Text => Ok(TypeForm::Text),
        TypeForm::Unit => Ok(TypeForm::Unit),
        TypeForm::Named(name) => Ok(TypeForm::Named(copy_word(alloc, name)?)),
        TypeForm::ListOf(item) => {
            let item = copy_type(alloc, item.get())?;
            Ok(TypeForm::ListOf(Boxed::new(alloc, item)?))
        }
        TypeForm::RowsOf(row) => {
            let row = copy_type(alloc, row.get())?;
            Ok(TypeForm::RowsOf(Boxed::new(alloc, row)?))
        }
    }
}

/// A copy of an expression: the same tree.
#[cycle(expr_copies)]
pub fn copy_expr(alloc: Global, expr: &Expr) -> Result<Expr, Memory>
    ensures { IfOk result (λ copy. copy ≡ expr.now) }
{
    let form = copy_expr_form(alloc, &expr.form)?;
    Ok(Expr { at: expr.at, form })
}

#[cycle(expr_copies)]
fn copy_boxed(alloc: Global, expr: &Boxed<Expr>) -> Result<Boxed<Expr>, Memory>
    ensures { IfOk result (λ copy. copy ≡ expr.now) }
{
    let copy = copy_expr(alloc, expr.get())?;
    Boxed::new(alloc, copy)
}

#[cycle(expr_copies)]
fn copy_expr_form(alloc: Global, form: &ExprForm) -> Result<ExprForm, Memory>
    ensures { IfOk result (λ copy. copy ≡ form.now) }
{
    match form {
        ExprForm::Lit(value) => Ok(ExprForm::Lit(copy_value(value)?)),
        ExprForm::Name(name) => Ok(ExprForm::Name(copy_word(alloc, name)?)),
        ExprForm::This => Ok(ExprForm::This),
        ExprForm::Unary(op, a) => Ok(ExprForm::Unary(*op, copy_boxed(alloc, a)?)),
        ExprForm::Binary(op, a, b) => {
            let (a, b) = both(copy_boxed(alloc, a), copy_boxed(alloc, b))?;
            Ok(ExprForm::Binary(*op, a, b))
        }
        ExprForm::Field(a, name) => copy_field(alloc, copy_boxed(alloc, a)?, name),
        ExprForm::Call(a, method, args) => {
            let (a, args) = both(copy_boxed(alloc, a), copy_exprs(alloc, args.as_slice()))?;
            copy_call(alloc, a, method, args)
        }
        ExprForm::Index(a, b) => {
            let (a, b) = both(copy_boxed(alloc, a), copy_boxed(alloc, b))?;
            Ok(ExprForm::Index(a, b))
        }
        ExprForm::New(class, args) => copy_new(alloc, class, copy_exprs(alloc, args.as_slice())?),
        ExprForm::Items(item, items) => {
            copy_items(alloc, item, copy_exprs(alloc, items.as_slice())?)
        }
        ExprForm::Taken(step) => Ok(ExprForm::Taken(*step)),
    }
}

/// A copy of a list of expressions: the same trees in order.
#[cycle(expr_copies)]
pub fn copy_exprs(alloc: Global, exprs: &[Expr]) -> Result<Seq<Expr>, Memory>
    ensures { IfOk result (λ copies. copies ≡ exprs.now) }
{
    let mut copies = Seq::new(alloc);
    for expr in exprs {
        copies.push(copy_expr(alloc, expr)?)?;
    }
    Ok(copies)
}

// Two copies that both were made.
fn both<A: Drop, B: Drop>(a: Result<A, Memory>, b: Result<B, Memory>) -> Result<(A, B), Memory>
    ensures { IfOk result (λ both. (a ≡ Ok both.0) × (b ≡ Ok both.1)) }
{
    Ok((a?, b?))
}

// The forms whose last parts are copies already.
fn copy_field(alloc: Global, object: Boxed<Expr>, name: &Word) -> Result<ExprForm, Memory>
    ensures { IfOk result (λ copy. copy ≡ ExprForm.Field object name.now) }
{
    Ok(ExprForm::Field(object, copy_word(alloc, name)?))
}

fn copy_call(
    alloc: Global,
    receiver: Boxed<Expr>,
    method: &Word,
    args: Seq<Expr>,
) -> Result<ExprForm, Memory>
    ensures { IfOk result (λ copy. copy ≡ ExprForm.Call receiver method.now args) }
{
    Ok(ExprForm::Call(receiver, copy_word(alloc, method)?, args))
}

fn copy_new(alloc: Global, class: &Word, args: Seq<Expr>) -> Result<ExprForm, Memory>
    ensures { IfOk result (λ copy. copy ≡ ExprForm.New class.now args) }
{
    Ok(ExprForm::New(copy_word(alloc, class)?, args))
}

fn copy_items(alloc: Global, item: &TypeTree, items: Seq<Expr>) -> Result<ExprForm, Memory>
    ensures { IfOk result (λ copy. copy ≡ ExprForm.Items item.now items) }
{
    Ok(ExprForm::Items(copy_type(alloc, item)?, items))
}

/// A copy of a statement: the same tree.
#[cycle(stmt_copies)]
pub fn copy_stmt(alloc: Global, stmt: &Stmt) -> Result<Stmt, Memory>
    ensures { IfOk result (λ copy. copy ≡ stmt.now) }
{
    let form = copy_stmt_form(alloc, &stmt.form)?;
    Ok(Stmt { at: stmt.at, form })
}

#[cycle(stmt_copies)]
fn copy_stmt_form(alloc: Global, form: &StmtForm) -> Result<StmtForm, Memory>
    ensures { IfOk result (λ copy. copy ≡ form.now) }
{
    match form {
        StmtForm::Val(name, value) => copy_val(alloc, name, value),
        StmtForm::Var(name, value) => copy_var(alloc, name, value),
        StmtForm::Assign(left, right) => copy_assign(alloc, left, right),
        StmtForm::Run(expr) => Ok(StmtForm::Run(copy_expr(alloc, expr)?)),
        StmtForm::Print(expr) => Ok(StmtForm::Print(copy_expr(alloc, expr)?)),
        StmtForm::Throw(text) => Ok(StmtForm::Throw(copy_expr(alloc, text)?)),
        StmtForm::If(condition, yes, no) => {
            let blocks = both(
                copy_stmts(alloc, yes.as_slice()),
                copy_stmts(alloc, no.as_slice()),
            );
            copy_if(alloc, condition, blocks?)
        }
        StmtForm::While(condition, block) => {
            copy_while(alloc, condition, copy_stmts(alloc, block.as_slice())?)
        }
        StmtForm::For(name, list, block) => {
            copy_for(alloc, name, list, copy_stmts(alloc, block.as_slice())?)
        }
        StmtForm::Try(tried, name, handler) => {
            let blocks = both(
                copy_stmts(alloc, tried.as_slice()),
                copy_stmts(alloc, handler.as_slice()),
            );
            copy_try(alloc, blocks?, name)
        }
        StmtForm::Batch(interface, root, block) => {
            copy_batch(alloc, interface, root, copy_stmts(alloc, block.as_slice())?)
        }
    }
}

fn copy_val(alloc: Global, name: &Word, value: &Expr) -> Result<StmtForm, Memory>
    ensures { IfOk result (λ copy. copy ≡ StmtForm.Val name.now value.now) }
{
    let (name, value) = both(copy_word(alloc, name), copy_expr(alloc, value))?;
    Ok(StmtForm::Val(name, value))
}

fn copy_var(alloc: Global, name: &Word, value: &Expr) -> Result<StmtForm, Memory>
    ensures { IfOk result (λ copy. copy ≡ StmtForm.Var name.now value.now) }
{
    let (name, value) = both(copy_word(alloc, name), copy_expr(alloc, value))?;
    Ok(StmtForm::Var(name, value))
}

fn copy_assign(alloc: Global, left: &Expr, right: &Expr) -> Result<StmtForm, Memory>
    ensures { IfOk result (λ copy. copy ≡ StmtForm.Assign left.now right.now) }
{
    let (left, right) = both(copy_expr(alloc, left), copy_expr(alloc, right))?;
    Ok(StmtForm::Assign(left, right))
}

// The forms whose blocks are copies already.
fn copy_if(
    alloc: Global,
    condition: &Expr,
    blocks: (Seq<Stmt>, Seq<Stmt>),
) -> Result<StmtForm, Memory>
    ensures { IfOk result (λ copy. copy ≡ StmtForm.If condition.now blocks.0 blocks.1) }
{
    let condition = copy_expr(alloc, condition)?;
    Ok(StmtForm::If(condition, blocks.0, blocks.1))
}

fn copy_while(alloc: Global, condition: &Expr, block: Seq<Stmt>) -> Result<StmtForm, Memory>
    ensures { IfOk result (λ copy. copy ≡ StmtForm.While condition.now block) }
{
    Ok(StmtForm::While(copy_expr(alloc, condition)?, block))
}

fn copy_for(alloc: Global, name: &Word, list: &Expr, block: Seq<Stmt>) -> Result<StmtForm, Memory>
    ensures { IfOk result (λ copy. copy ≡ StmtForm.For name.now list.now block) }
{
    let (name, list) = both(copy_word(alloc, name), copy_expr(alloc, list))?;
    Ok(StmtForm::For(name, list, block))
}

fn copy_try(alloc: Global, blocks: (Seq<Stmt>, Seq<Stmt>), name: &Word) -> Result<StmtForm, Memory>
    ensures { IfOk result (λ copy. copy ≡ StmtForm.Try blocks.0 name.now blocks.1) }
{
    let name = copy_word(alloc, name)?;
    Ok(StmtForm::Try(blocks.0, name, blocks.1))
}

fn copy_batch(
    alloc: Global,
    interface: &Word,
    root: &Word,
    block: Seq<Stmt>,
) -> Result<StmtForm, Memory>
    ensures { IfOk result (λ copy. copy ≡ StmtForm.Batch interface.now root.now block) }
{
    let (interface, root) = both(copy_word(alloc, interface), copy_word(alloc, root))?;
    Ok(StmtForm::Batch(interface, root, block))
}

/// A copy of a list of statements: the same trees in order.
#[cycle(stmt_copies)]
pub fn copy_stmts(alloc: Global, stmts: &[Stmt]) -> Result<Seq<Stmt>, Memory>
    ensures { IfOk result (λ copies. copies ≡ stmts.now) }
{
    let mut copies = Seq::new(alloc);
    for stmt in stmts {
        copies.push(copy_stmt(alloc, stmt)?)?;
    }
    Ok(copies)
}
