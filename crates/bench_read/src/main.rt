//! Does to the file that its second argument names what the first one says (lex, parse, print, check or admit), and
//! prints one line of how it went.
#![tactic(auto)]

ghost use Rattle.rb_trees.specs.mirror.Declarations.{mirror_program};
ghost use Rattle.rb_meaning_types.specs.Lawful.{IsLawful};

use rb_flow::admit;
use rb_lex::lex;
use rb_marks::mark;
use rb_parse::parse_program;
use rb_trees::{Program, print_program};
use rb_types::{Typed, check};
use std::rt::Files;
use std::{env, fs, io};

fn main(rt: HostRuntime) -> io::Result<()> {
    let mut words = env::args(&rt)?;
    words.next();
    match (words.next(), words.next()) {
        (Some(what), Some(path)) => report(&rt, what.as_str(), path.as_str()),
        _ => eprintln!(rt; "usage: bench_read lex|parse|print|check|admit FILE"),
    }
}

/// Prints how it went with the file.
fn report<R: Files + AllocGlobal + Print + Eprint>(
    rt: &R,
    what: &str,
    path: &str,
) -> io::Result<()> {
    let text = fs::read(rt, path)?;
    carry_out(rt, what, text.as_slice())
}

/// Prints how it went with the source.
fn carry_out<R: AllocGlobal + Print + Eprint>(rt: &R, what: &str, source: &[u8]) -> io::Result<()> {
    match what {
        "lex" => lexed(rt, source),
        "parse" => parsed(rt, source),
        "print" => printed(rt, source),
        "check" => checked(rt, source),
        "admit" => admitted(rt, source),
        _ => eprintln!(rt; "usage: bench_read lex|parse|print|check|admit FILE"),
    }
}

/// Prints how many tokens the source has, or its first fault.
fn lexed<R: AllocGlobal + Print>(rt: &R, source: &[u8]) -> io::Result<()> {
    match lex(rt.alloc(), source) {
        Ok(tokens) => {
            let count = tokens.len();
            println!(rt; "{count} tokens")
        }
        Err(error) => println!(rt; "{error}"),
    }
}

/// Prints whether the source is a program, or its refusal.
fn parsed<R: AllocGlobal + Print>(rt: &R, source: &[u8]) -> io::Result<()> {
    match parse_program(rt.alloc(), source) {
        Ok(program) => {
            drop(program);
            println!(rt; "read")
        }
        Err(error) => println!(rt; "{error}"),
    }
}

/// Prints how many bytes the source has when it is printed, or its refusal.
fn printed<R: AllocGlobal + Print>(rt: &R, source: &[u8]) -> io::Result<()> {
    match parse_program(rt.alloc(), source) {
        Ok(program) => {
            let done = print_size(rt, &program);
            drop(program);
            done
        }
        Err(error) => println!(rt; "{error}"),
    }
}

/// Prints how many bytes the program's printed text has.
fn print_size<R: AllocGlobal + Print>(rt: &R, program: &Program) -> io::Result<()> {
    match print_program(rt.alloc(), program) {
        Ok(text) => {
            let count = text.len();
            println!(rt; "{count} bytes printed")
        }
        Err(error) => println!(rt; "{error}"),
    }
}

/// Prints at how many of the offsets an expression has a type, or the refusal or first violation.
fn checked<R: AllocGlobal + Print>(rt: &R, source: &[u8]) -> io::Result<()> {
    match parse_program(rt.alloc(), source) {
        Ok(program) => typed(rt, program, source.len().min(1_048_576) as u32),
        Err(error) => println!(rt; "{error}"),
    }
}

/// Prints at how many of the first offsets an expression has a type, or the first violation.
fn typed<R: AllocGlobal + Print>(rt: &R, program: Program, size: u32) -> io::Result<()>
    requires { IsLawful (mirror_program program) }
{
    match check(rt.alloc(), program) {
        Ok(typed) => {
            let count = expressions(&typed, size);
            drop(typed);
            println!(rt; "{count} expressions typed")
        }
        Err(error) => println!(rt; "{error}"),
    }
}

/// At how many of the first offsets an expression has a type.
fn expressions(typed: &Typed, size: u32) -> u32 {
    let mut count = 0u32;
    for at in 0..size {
        if typed.type_of(at).is_some() {
            count = count.saturating_add(1);
        }
    }
    count
}

/// Prints whether the source is admitted, or why it isn't a typed program.
fn admitted<R: AllocGlobal + Print>(rt: &R, source: &[u8]) -> io::Result<()> {
    match parse_program(rt.alloc(), source) {
        Ok(program) => checked_and_admitted(rt, program),
        Err(error) => println!(rt; "{error}"),
    }
}

/// Prints whether the program is admitted, or its first violation.
fn checked_and_admitted<R: AllocGlobal + Print>(rt: &R, program: Program) -> io::Result<()>
    requires { IsLawful (mirror_program program) }
{
    match check(rt.alloc(), program) {
        Ok(typed) => {
            let done = answer(rt, &typed);
            drop(typed);
            done
        }
        Err(error) => println!(rt; "{error}"),
    }
}

/// Prints whether the program is admitted.
fn answer<R: AllocGlobal + Print>(rt: &R, typed: &Typed) -> io::Result<()> {
    let Ok(marks) = mark(rt.alloc(), typed) else {
        return println!(rt; "out of memory");
    };
    match admit(rt.alloc(), typed, marks) {
        Ok(_) => println!(rt; "admitted"),
        Err(error) => println!(rt; "{error}"),
    }
}
