// Which scripts are valid, and how many bytes their code has.

use rb_trees::{
    Boxed, Memory, SExpr, Script, ScriptRefusal, Seq, Step, StepForm, UnOp, code_size, valid,
};
use std::alloc::Global;
use std::test::Fail;

/// A script in short. It has an input.
#[derive(Clone, Copy)]
enum Short {
    /// One step, `not not .. root` with so many expressions within each other.
    Nested(u32),
    /// One step, of this number, that performs the input.
    Input(u32),
    /// That step, and one of the same number that keeps the root.
    Twice(u32),
    /// One step, of this number, that keeps the second input.
    OtherInput(u32),
    /// One step, of this number, that keeps a variable.
    Variable(u32),
    /// One step that goes through the input of this number. The first one is a list, and each turn keeps this.
    Over(u8, Kept),
    /// The same where the input is no list.
    OverPlain(u8, Kept),
}

/// What each turn of a step keeps.
#[derive(Clone, Copy)]
enum Kept {
    /// The item.
    Item,
    /// The input.
    Input,
    Root,
}

/// Scripts, each with the size of its code, or why it isn't valid.
static SCRIPTS: [(Short, Result<u64, ScriptRefusal>); 10] = [
    // Expressions nest 256 deep.
    (Short::Nested(256), Ok(1544)),
    (Short::Nested(257), Err(ScriptRefusal::TooDeep(7))),
    // A number stands for one step.
    (Short::Input(3), Ok(15)),
    (Short::Twice(3), Err(ScriptRefusal::StepRepeated(3))),
    // Inputs and variables are known.
    (Short::OtherInput(4), Err(ScriptRefusal::UnknownInput(4))),
    (Short::Variable(5), Err(ScriptRefusal::UnknownVariable(5))),
    // Lists are gone through alone.
    (Short::Over(0, Kept::Item), Ok(36)),
    (
        Short::Over(0, Kept::Input),
        Err(ScriptRefusal::WrongInput(1)),
    ),
    (
        Short::Over(1, Kept::Root),
        Err(ScriptRefusal::UnknownInput(0)),
    ),
    (
        Short::OverPlain(0, Kept::Root),
        Err(ScriptRefusal::WrongInput(0)),
    ),
];

fn add(id: u32, form: StepForm, into: &mut Seq<Step>) -> Result<(), Memory> {
    into.push(Step { id, at: 0, form })
}

/// Adds the step `not not .. root` with so many expressions within each other.
fn add_nested(alloc: Global, exprs: u32, into: &mut Seq<Step>) -> Result<(), Memory> {
    let mut expr = SExpr::Root;
    for _ in 1..exprs {
        expr = SExpr::Unary(UnOp::Not, 0, Boxed::new(alloc, expr)?);
    }
    add(7, StepForm::Do(expr), into)
}

/// Adds the step that goes through the input of this number.
fn add_over(alloc: Global, input: u8, kept: Kept, into: &mut Seq<Step>) -> Result<(), Memory> {
    let value = match kept {
        Kept::Item => SExpr::Var(2),
        Kept::Input => SExpr::Input(0),
        Kept::Root => SExpr::Root,
    };
    let mut body = Seq::new(alloc);
    add(1, StepForm::Keep(value), &mut body)?;
    let form = StepForm::Over {
        var: 2,
        input,
        body,
    };
    add(0, form, into)
}

/// Adds what a script has.
fn fill(alloc: Global, short: Short, into: &mut Script) -> Result<(), Memory> {
    match short {
        Short::Nested(exprs) => add_nested(alloc, exprs, &mut into.body),
        Short::Input(id) => add(id, StepForm::Do(SExpr::Input(0)), &mut into.body),
        Short::Twice(id) => {
            add(id, StepForm::Do(SExpr::Input(0)), &mut into.body)?;
            add(id, StepForm::Keep(SExpr::Root), &mut into.body)
        }
        Short::OtherInput(id) => add(id, StepForm::Keep(SExpr::Input(1)), &mut into.body),
        Short::Variable(id) => add(id, StepForm::Keep(SExpr::Var(0)), &mut into.body),
        Short::Over(input, kept) => {
            into.lists.push(0)?;
            add_over(alloc, input, kept, &mut into.body)
        }
        Short::OverPlain(input, kept) => add_over(alloc, input, kept, &mut into.body),
    }
}

/// The size of a script's code, or why it isn't valid.
fn told(script: &Script) -> Result<u64, ScriptRefusal> {
    match valid(script) {
        Ok(()) => Ok(code_size(script)),
        Err(refusal) => Err(refusal),
    }
}

/// Fails unless of each script is told what stands beside it.
fn scripts_are(alloc: Global, rows: &[(Short, Result<u64, ScriptRefusal>)]) -> Result<(), Fail> {
    for (short, wanted) in rows {
        let mut script = Script {
            inputs: 1,
            lists: Seq::new(alloc),
            body: Seq::new(alloc),
        };
        fill(alloc, *short, &mut script)?;
        let told = told(&script);
        if told != *wanted {
            return Err(Fail::new(format_args!("{told:?} in place of {wanted:?}")));
        }
    }
    Ok(())
}

#[test]
fn scripts_are_valid_or_are_refused(rt: HostRuntime) -> Result<(), Fail> {
    scripts_are(rt.alloc(), &SCRIPTS)
}
