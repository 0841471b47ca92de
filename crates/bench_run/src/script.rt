// The script: a loop over the files of the root, in whose body ten steps stand again and again.

use rb_trees::{
    BinOp, Boxed, Invocation, Memory, Operands, SExpr, Script, Seq, Shared, Step, StepForm, UnOp,
    Value,
};
use std::alloc::Global;

/// The variable of the row.
const FILE: u32 = 0;

/// The variable of the file's size at first.
const SIZE: u32 = 1;

/// The variable that says whether the file was large.
const LARGE: u32 = 2;

/// The variable of what the file has grown by in the end.
const GROWN: u32 = 3;

/// The number of the kind of calls that give nothing.
const UNIT: u8 = 0;

/// The number of the kind of calls that give an Int.
const INT: u8 = 1;

/// The number of the kind of calls that give a Text.
const TEXT: u8 = 3;

/// The number of the kind of calls that give rows of objects.
const ROWS_OF_OBJECTS: u8 = 8;

/// The size above which a file is large.
const LARGE_SIZE: i64 = 900;

/// How much larger than at first a file may be.
const ROOM: i64 = 1000;

/// The script of so many rounds of ten steps, with the one input that tells how much a file grows.
pub fn script_of(alloc: Global, rounds: u32) -> Result<Script, Memory> {
    let mut body = Block::new(alloc, 1);
    for _ in 0..rounds {
        add_round(alloc, &mut body)?;
    }
    let form = StepForm::Each {
        var: FILE,
        keep: false,
        rows: call(alloc, SExpr::Root, ROWS_OF_OBJECTS, b"files", None)?,
        body: body.into_steps(),
    };
    let mut whole = Block::new(alloc, 0);
    whole.add(form)?;
    Ok(Script {
        inputs: 1,
        lists: Seq::new(alloc),
        body: whole.into_steps(),
    })
}

/// Steps in order, and the number of the next one.
#[derive(Drop)]
struct Block {
    next: u32,
    steps: Seq<Step>,
}

impl Block {
    /// No steps.
    fn new(alloc: Global, next: u32) -> Block {
        Block {
            next,
            steps: Seq::new(alloc),
        }
    }

    /// The steps.
    fn into_steps(self) -> Seq<Step> {
        let Block { next: _, steps } = self;
        steps
    }

    /// Adds a step of this form.
    fn add(&mut self, form: StepForm) -> Result<(), Memory> {
        let step = self.numbered(form);
        self.steps.push(step)
    }

    /// A step of this form with the next number.
    fn numbered(&mut self, form: StepForm) -> Step {
        let id = self.next;
        self.next = id.wrapping_add(1);
        Step { id, at: id, form }
    }
}

/// Adds the ten steps.
fn add_round(alloc: Global, body: &mut Block) -> Result<(), Memory> {
    add_growth(alloc, body)?;
    add_choice(alloc, body)?;
    add_checks(alloc, body)?;
    add_end(alloc, body)
}

/// Binds the file's size, has it grow, and keeps the size.
fn add_growth(alloc: Global, body: &mut Block) -> Result<(), Memory> {
    body.add(bound(SIZE, size(alloc)?))?;
    body.add(StepForm::Do(grow(alloc, SExpr::Input(0))?))?;
    body.add(StepForm::Keep(size(alloc)?))
}

/// Keeps the file's name if it was large, else its size at first.
fn add_choice(alloc: Global, body: &mut Block) -> Result<(), Memory> {
    let limit = number(alloc, LARGE_SIZE)?;
    let large = binary(alloc, BinOp::Gt, SExpr::Var(SIZE), limit)?;
    body.add(bound(LARGE, large))?;
    let named = StepForm::Keep(call_of_file(alloc, TEXT, b"name", None)?);
    let named = one_step(alloc, body, named)?;
    let sized = one_step(alloc, body, StepForm::Keep(SExpr::Var(SIZE)))?;
    body.add(StepForm::If(SExpr::Var(LARGE), named, sized))
}

/// Checks that the file isn't too large, and keeps whether it has grown.
fn add_checks(alloc: Global, body: &mut Block) -> Result<(), Memory> {
    let room = number(alloc, ROOM)?;
    let most = binary(alloc, BinOp::Add, SExpr::Var(SIZE), room)?;
    body.add(StepForm::Do(call_of_file(alloc, UNIT, b"check", Some(most))?))?;
    let wanted = binary(alloc, BinOp::Add, SExpr::Var(SIZE), SExpr::Input(0))?;
    let grown = binary(alloc, BinOp::Eq, size(alloc)?, wanted)?;
    body.add(StepForm::Keep(grown))
}

/// Gives the file its name, has it shrink, and binds and keeps by how much it has grown.
fn add_end(alloc: Global, body: &mut Block) -> Result<(), Memory> {
    let name = call_of_file(alloc, TEXT, b"name", None)?;
    body.add(StepForm::Do(call_of_file(alloc, UNIT, b"rename", Some(name))?))?;
    let less = SExpr::Unary(UnOp::Neg, 0, Boxed::new(alloc, SExpr::Input(0))?);
    body.add(StepForm::Do(grow(alloc, less)?))?;
    let value = binary(alloc, BinOp::Sub, size(alloc)?, SExpr::Var(SIZE))?;
    body.add(StepForm::Let {
        var: GROWN,
        keep: true,
        value,
    })
}

/// A block of one step.
fn one_step(alloc: Global, body: &mut Block, form: StepForm) -> Result<Seq<Step>, Memory> {
    let mut steps = Seq::new(alloc);
    steps.push(body.numbered(form))?;
    Ok(steps)
}

/// Binds a variable.
fn bound(var: u32, value: SExpr) -> StepForm {
    StepForm::Let {
        var,
        keep: false,
        value,
    }
}

/// The size of the file.
fn size(alloc: Global) -> Result<SExpr, Memory> {
    call_of_file(alloc, INT, b"size", None)
}

/// The call that has the file grow.
fn grow(alloc: Global, by: SExpr) -> Result<SExpr, Memory> {
    call_of_file(alloc, UNIT, b"grow", Some(by))
}

/// A call on the file.
fn call_of_file(
    alloc: Global,
    kind: u8,
    method: &[u8],
    argument: Option<SExpr>,
) -> Result<SExpr, Memory> {
    call(alloc, SExpr::Var(FILE), kind, method, argument)
}

/// A call with at most one argument.
fn call(
    alloc: Global,
    target: SExpr,
    kind: u8,
    method: &[u8],
    argument: Option<SExpr>,
) -> Result<SExpr, Memory> {
    let mut args = Seq::new(alloc);
    if let Some(argument) = argument {
        args.push(argument)?;
    }
    let call = Invocation {
        method: Shared::new(alloc, Seq::from_slice(alloc, method)?)?,
        target,
        args,
    };
    let call = Boxed::new(alloc, call)?;
    Ok(SExpr::Call { kind, at: 0, call })
}

/// An operator with two operands.
fn binary(alloc: Global, op: BinOp, left: SExpr, right: SExpr) -> Result<SExpr, Memory> {
    let operands = Operands { left, right };
    Ok(SExpr::Binary(op, 0, Boxed::new(alloc, operands)?))
}

/// A literal number.
fn number(alloc: Global, value: i64) -> Result<SExpr, Memory> {
    Ok(SExpr::Lit(Boxed::new(alloc, Value::Int(value))?))
}
