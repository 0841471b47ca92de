// The texts of the deepest programs.

use crate::forms::{BlockForm, ExprForm};
use rb_trees::Memory;
use std::alloc::Global;

/// The greatest number of open blocks.
const MOST_BLOCKS: usize = 64;

/// What stands before the blocks, in the method and in `main`.
static NAMES: &str = "val items = List<Int>(1); var again = true; ";

/// What both classes have beside the method that calls itself.
static MEMBERS: &str =
    "value: Int; fun same(n: Int): Int { return n; } fun itself(): Deep { return this; } ";

/// The text of a program whose method and `main` nest as deep as they may, and which prints one line.
pub fn program_text(alloc: Global, block: BlockForm, expr: ExprForm) -> Result<String, Memory> {
    let method = method_text(alloc, block, expr)?;
    let body = main_text(alloc, block, expr)?;
    Ok(format!(in alloc;
        "class Box {{ value: Int; }} class Deep {{ {MEMBERS}{method}}} main {{ {body}}}"
    )?)
}

/// The method that calls itself.
fn method_text(alloc: Global, block: BlockForm, expr: ExprForm) -> Result<String, Memory> {
    let (kind, last) = (expr.kind(), expr.last());
    let deeper = nested_expr(alloc, expr, "deep.run(n - 1)")?;
    let deepest = nested_expr(alloc, expr, last)?;
    let inner = format!(in alloc;
        "again = false; if (n > 0) {{ result = {deeper}; }} else {{ result = {deepest}; }} "
    )?;
    let blocks = nested_blocks(alloc, block, MOST_BLOCKS - 2, inner.as_str())?;
    Ok(format!(in alloc;
        "fun run(n: Int): {kind} {{ val deep = this; {NAMES}var result = {last}; {blocks}return result; }} "
    )?)
}

/// The body of `main`, which calls the method.
fn main_text(alloc: Global, block: BlockForm, expr: ExprForm) -> Result<String, Memory> {
    let (calls, last, shown) = (expr.calls(), expr.last(), expr.shown());
    let call = format!(in alloc; "deep.run(0 + {calls})")?;
    let value = nested_expr(alloc, expr, call.as_str())?;
    let inner = format!(in alloc; "again = false; result = {value}; ")?;
    let blocks = nested_blocks(alloc, block, MOST_BLOCKS - 1, inner.as_str())?;
    Ok(format!(in alloc;
        "val deep = new Deep(7); {NAMES}var result = {last}; {blocks}print({shown}); "
    )?)
}

/// Statements in so many blocks.
fn nested_blocks(
    alloc: Global,
    block: BlockForm,
    count: usize,
    inner: &str,
) -> Result<String, Memory> {
    let mut text = String::new(alloc);
    for number in 0..count {
        let open = block.open(alloc, number)?;
        text.push_str(open.as_str())?;
    }
    text.push_str(inner)?;
    repeat(&mut text, block.close(), count)?;
    Ok(text)
}

/// An expression in as many of its form as fit.
fn nested_expr(alloc: Global, expr: ExprForm, inner: &str) -> Result<String, Memory> {
    let mut text = String::new(alloc);
    repeat(&mut text, expr.open(), expr.count())?;
    text.push_str(inner)?;
    repeat(&mut text, expr.close(), expr.count())?;
    Ok(text)
}

/// Appends a piece so many times.
fn repeat(text: &mut String, piece: &str, count: usize) -> Result<(), Memory> {
    for _ in 0..count {
        text.push_str(piece)?;
    }
    Ok(())
}
