// What a batch leaves to the client.

use crate::code::{Expr, Stmt};
use crate::scripts::Script;
use crate::sequence::{Seq, Word};

/// A part of a batch's remainder: what the client still does, on the node that the script gave.
#[derive(Drop)]
pub enum Part {
    /// A statement, with a Taken in place of each remote expression; the steps that it takes,
    /// in order of evaluation, each with the kind that its entry must have.
    Plain(Stmt, Seq<(u32, u8)>),
    /// The place of a step that gives no entry.
    Pass(u32),
    /// Binds a name to a kept value of the given kind.
    Bind {
        step: u32,
        name: Word,
        kind: u8,
    },
    /// A value that both sides evaluate.
    Both {
        step: u32,
        at: u32,
        name: Word,
        value: Expr,
    },
    /// Goes on with the branch that the script took.
    Branch {
        step: u32,
        yes: Seq<Part>,
        no: Seq<Part>,
    },
    /// One turn for each row, bound to a name where the row is kept; `kind` is the row's kind.
    Turns {
        step: u32,
        name: Word,
        kind: u8,
        body: Seq<Part>,
    },
    /// One turn for each item of a list of the own side, bound to a name; `list` is the list's name, and `input` its number
    /// among the script's inputs.
    Over {
        step: u32,
        at: u32,
        name: Word,
        list: Word,
        input: u8,
        body: Seq<Part>,
    },
}

/// The division of a batch: its number, its position, the names of its inputs, its script and its
/// remainder.
#[derive(Drop)]
pub struct Split {
    pub batch: u32,
    pub at: u32,
    pub inputs: Seq<Word>,
    pub script: Script,
    pub remainder: Seq<Part>,
}
