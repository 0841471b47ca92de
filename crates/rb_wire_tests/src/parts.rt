// Remainders that are told step by step, since no text gives a part.

use rb_trees::{BinOp, Boxed, Expr, ExprForm, Memory, Part, Seq, Stmt, StmtForm, Word};
use std::alloc::Global;

/// What is done to make a remainder. A part is added to the block that began last; a part with blocks takes those from
/// there, the last that began.
#[derive(Clone, Copy)]
pub enum Make {
    /// Begins a block.
    Block,
    /// Adds the part of a step without an entry.
    Pass(u32),
    /// Adds a loop of local code on several lines, `while (<1>) { throw <2>; }`, which takes the values of these steps,
    /// with their kinds.
    Loop(&'static [(u32, u8)]),
    /// Adds a name for a kept value, of a kind.
    Bind(u32, &'static str, u8),
    /// Adds a name for a value that both sides evaluate, `<0> + <1>`.
    Both(u32, &'static str),
    /// Adds a branch with two blocks.
    Branch(u32),
    /// Adds a loop over rows, with a name for a row of a kind, and a block.
    Turns(u32, &'static str, u8),
    /// Adds a loop over a list, with a name for an item, the list's name, the number of the input, and a block.
    Over(u32, &'static str, &'static str, u8),
}

/// A word of this text.
pub fn word(alloc: Global, text: &str) -> Result<Word, Memory> {
    Seq::from_slice(alloc, text.as_bytes())
}

/// The list that began last, which is taken; one without items where there is none.
pub fn last<T: Drop>(alloc: Global, lists: &mut Vec<Seq<T>>) -> Seq<T> {
    match lists.pop() {
        Some(list) => list,
        None => Seq::new(alloc),
    }
}

/// Adds an item to the list that began last.
pub fn push<T: Drop>(lists: &mut Vec<Seq<T>>, item: T) -> Result<(), Memory> {
    match lists.last_mut() {
        Some(list) => list.push(item),
        None => Ok(()),
    }
}

/// The value that a step kept.
fn taken(step: u32) -> Expr {
    Expr {
        at: 1,
        form: ExprForm::Taken(step),
    }
}

fn add_loop(alloc: Global, takes: &[(u32, u8)], blocks: &mut Vec<Seq<Part>>) -> Result<(), Memory> {
    let takes = Seq::from_slice(alloc, takes)?;
    let mut block = Seq::new(alloc);
    let form = StmtForm::Throw(taken(2));
    block.push(Stmt { at: 1, form })?;
    let form = StmtForm::While(taken(1), block);
    push(blocks, Part::Plain(Stmt { at: 1, form }, takes))
}

fn add_both(
    alloc: Global,
    step: u32,
    name: &str,
    blocks: &mut Vec<Seq<Part>>,
) -> Result<(), Memory> {
    let name = word(alloc, name)?;
    let left = Boxed::new(alloc, taken(0))?;
    let right = Boxed::new(alloc, taken(1))?;
    let form = ExprForm::Binary(BinOp::Add, left, right);
    push(
        blocks,
        Part::Both {
            step,
            at: 1,
            name,
            value: Expr { at: 1, form },
        },
    )
}

/// Does what is told, on the blocks that are being made.
fn add(alloc: Global, make: Make, blocks: &mut Vec<Seq<Part>>) -> Result<(), Memory> {
    match make {
        Make::Block => Ok(blocks.push(Seq::new(alloc))?),
        Make::Pass(step) => push(blocks, Part::Pass(step)),
        Make::Loop(takes) => add_loop(alloc, takes, blocks),
        Make::Bind(step, name, kind) => {
            let name = word(alloc, name)?;
            push(blocks, Part::Bind { step, name, kind })
        }
        Make::Both(step, name) => add_both(alloc, step, name, blocks),
        Make::Branch(step) => {
            let no = last(alloc, blocks);
            let yes = last(alloc, blocks);
            push(blocks, Part::Branch { step, yes, no })
        }
        Make::Turns(step, name, kind) => {
            let name = word(alloc, name)?;
            let body = last(alloc, blocks);
            push(
                blocks,
                Part::Turns {
                    step,
                    name,
                    kind,
                    body,
                },
            )
        }
        Make::Over(step, name, list, input) => {
            let name = word(alloc, name)?;
            let list = word(alloc, list)?;
            let body = last(alloc, blocks);
            push(
                blocks,
                Part::Over {
                    step,
                    at: 1,
                    name,
                    list,
                    input,
                    body,
                },
            )
        }
    }
}

/// The remainder that is made so.
pub fn remainder(alloc: Global, makes: &[Make]) -> Result<Seq<Part>, Memory> {
    let mut blocks = Vec::new(alloc);
    for make in makes {
        add(alloc, *make, &mut blocks)?;
    }
    Ok(last(alloc, &mut blocks))
}
