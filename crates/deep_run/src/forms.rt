// The forms of blocks and of expressions that nest.

use rb_trees::Memory;
use std::alloc::Global;

/// The forms of blocks.
#[derive(Clone, Copy)]
pub enum BlockForm {
    If,
    While,
    For,
    Try,
    Catch,
}

/// All forms of blocks.
pub static BLOCKS: [BlockForm; 5] = [
    BlockForm::If,
    BlockForm::While,
    BlockForm::For,
    BlockForm::Try,
    BlockForm::Catch,
];

impl BlockForm {
    /// The form's name.
    pub fn name(self) -> &'static str {
        match self {
            BlockForm::If => "if",
            BlockForm::While => "while",
            BlockForm::For => "for",
            BlockForm::Try => "try",
            BlockForm::Catch => "catch",
        }
    }

    /// What opens a block, where so many of the form are open.
    pub fn open(self, alloc: Global, number: usize) -> Result<String, Memory> {
        match self {
            BlockForm::If => Ok(String::from_str(alloc, "if (true) { ")?),
            BlockForm::While => Ok(String::from_str(alloc, "while (again) { ")?),
            BlockForm::For => Ok(format!(in alloc; "for (x{number} in items) {{ ")?),
            BlockForm::Try => Ok(String::from_str(alloc, "try { ")?),
            BlockForm::Catch => {
                Ok(format!(in alloc; "try {{ throw \"\"; }} catch (x{number}) {{ ")?)
            }
        }
    }

    /// What closes a block.
    pub fn close(self) -> &'static str {
        match self {
            BlockForm::Try => "} catch (x) { } ",
            _ => "} ",
        }
    }
}

/// The forms of expressions.
#[derive(Clone, Copy)]
pub enum ExprForm {
    Minus,
    Length,
    Sum,
    Parentheses,
    Argument,
    Receiver,
    Item,
    Field,
}

/// All forms of expressions.
pub static EXPRS: [ExprForm; 8] = [
    ExprForm::Minus,
    ExprForm::Length,
    ExprForm::Sum,
    ExprForm::Parentheses,
    ExprForm::Argument,
    ExprForm::Receiver,
    ExprForm::Item,
    ExprForm::Field,
];

impl ExprForm {
    /// The form's name.
    pub fn name(self) -> &'static str {
        match self {
            ExprForm::Minus => "minus",
            ExprForm::Length => "length",
            ExprForm::Sum => "sum",
            ExprForm::Parentheses => "parentheses",
            ExprForm::Argument => "argument",
            ExprForm::Receiver => "receiver",
            ExprForm::Item => "item",
            ExprForm::Field => "field",
        }
    }

    /// What stands before an operand.
    pub fn open(self) -> &'static str {
        match self {
            ExprForm::Minus => "-",
            ExprForm::Length => "len(str(",
            ExprForm::Sum | ExprForm::Receiver => "",
            ExprForm::Parentheses => "1 + (",
            ExprForm::Argument => "deep.same(",
            ExprForm::Item => "List<Int>(",
            ExprForm::Field => "new Box(",
        }
    }

    /// What stands behind an operand.
    pub fn close(self) -> &'static str {
        match self {
            ExprForm::Minus => "",
            ExprForm::Length => "))",
            ExprForm::Sum => " + 1",
            ExprForm::Parentheses | ExprForm::Argument => ")",
            ExprForm::Receiver => ".itself()",
            ExprForm::Item => ")[0]",
            ExprForm::Field => ").value",
        }
    }

    /// How many stand in each other where 200 marks may stand, around a call that has three.
    pub fn count(self) -> usize {
        match self {
            ExprForm::Minus | ExprForm::Sum => 197,
            _ => 98,
        }
    }

    /// The type of the expression.
    pub fn kind(self) -> &'static str {
        match self {
            ExprForm::Receiver => "Deep",
            _ => "Int",
        }
    }

    /// An operand in which no call stands.
    pub fn last(self) -> &'static str {
        match self {
            ExprForm::Receiver => "deep",
            _ => "7",
        }
    }

    /// What is printed of the result.
    pub fn shown(self) -> &'static str {
        match self {
            ExprForm::Receiver => "result.value",
            _ => "result",
        }
    }

    /// How many calls of the method stand in its first one, where the form needs a call of its own or not.
    pub fn calls(self) -> usize {
        match self {
            ExprForm::Argument | ExprForm::Receiver => 30,
            _ => 31,
        }
    }
}
