// Copies of parts of programs are printed as the parts are, also those that no text gives: numbers below zero, values
// without a literal, and what a step of a script kept.

use crate::expected::expect;
use crate::parse::texts::print;
use rb_parse::parse_program;
use rb_trees::{
    Body, Boxed, Expr, ExprForm, Program, ReadError, Seq, Stmt, StmtForm, TypeTree, Value, Word,
    copy_stmts, copy_type,
};
use std::alloc::Global;
use std::test::Fail;

static READ: &str = "main: List<Rows<Item>> { }";

static PRINTED: &str = "main: List<Rows<Item>> {
  print(-1);
  print(9223372036854775808);
  print();
  print(<3>);
}
";

fn print_of(form: ExprForm) -> Stmt {
    Stmt {
        at: 0,
        form: StmtForm::Print(Expr { at: 0, form }),
    }
}

/// A program whose result type is a copy of this one, and whose statements are copies of these.
fn copied(alloc: Global, kind: &TypeTree, statements: &[Stmt]) -> Result<Program, ReadError> {
    let statements = copy_stmts(alloc, statements)?;
    let result = copy_type(alloc, kind)?;
    Ok(Program {
        interfaces: Seq::new(alloc),
        classes: Seq::new(alloc),
        result,
        body: Body {
            statements,
            result: None,
        },
        at: 0,
    })
}

/// How such a program is printed, whose result type is a copy of that of a program that was read.
fn print_copies(
    alloc: Global,
    read: &Result<Program, ReadError>,
    statements: &[Stmt],
) -> Result<Word, Fail> {
    match read {
        Ok(program) => {
            let copy = Boxed::new(alloc, copied(alloc, &program.result, statements))?;
            print(alloc, copy.get())
        }
        Err(error) => Err(Fail::new(format_args!("{error}"))),
    }
}

/// Fails unless a program with copies of its result type and of these statements is printed as is wanted.
fn copies_are_printed(alloc: Global, statements: &[Stmt]) -> Result<(), Fail> {
    let read = Boxed::new(alloc, parse_program(alloc, READ.as_bytes()))?;
    let text = print_copies(alloc, read.get(), statements)?;
    expect(READ, text.as_slice(), PRINTED.as_bytes())
}

#[test]
fn copies_are_printed_as_what_they_are_copies_of(rt: HostRuntime) -> Result<(), Fail> {
    copies_are_printed(
        rt.alloc(),
        &[
            print_of(ExprForm::Lit(Value::Int(-1))),
            print_of(ExprForm::Lit(Value::Int(-9_223_372_036_854_775_808))),
            print_of(ExprForm::Lit(Value::Unit)),
            print_of(ExprForm::Taken(3)),
        ],
    )
}
