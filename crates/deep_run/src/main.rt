//! Runs the deepest programs that are typed: a method that calls itself as deep as calls may be, each time through as
//! many blocks and marks as may be open. It prints the line that each of them prints.
#![tactic(auto)]

mod forms;
mod record;
mod runs;
mod texts;

use forms::{BLOCKS, BlockForm, EXPRS, ExprForm};
use runs::lines_of;
use std::io;
use texts::program_text;

fn main(rt: HostRuntime) -> io::Result<()> {
    for block in &BLOCKS {
        for expr in &EXPRS {
            report(&rt, *block, *expr)?;
        }
    }
    Ok(())
}

/// Prints what the deepest program of these forms prints, or why it isn't run.
fn report<R: AllocGlobal + Print>(rt: &R, block: BlockForm, expr: ExprForm) -> io::Result<()> {
    let (blocks, exprs) = (block.name(), expr.name());
    match program_text(rt.alloc(), block, expr) {
        Ok(text) => match lines_of(rt.alloc(), text.as_str()) {
            Ok(lines) => println!(rt; "{blocks}, {exprs}: {lines}"),
            Err(trouble) => println!(rt; "{blocks}, {exprs}: {trouble}"),
        },
        Err(want) => println!(rt; "{blocks}, {exprs}: {want}"),
    }
}
