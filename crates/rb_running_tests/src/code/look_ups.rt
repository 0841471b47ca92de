// Look-ups by name in code that was read.

use crate::code::classes::{code_in, code_of};
use crate::told::{add_number, expect};
use rb_code::Code;
use rb_parse::parse_program;
use rb_trees::{Class, Memory, Program, ReadError, Seq, Word};
use std::alloc::Global;
use std::test::Fail;

/// Two classes with a method of one name.
static TEXT: &str = "class A { x: Int; fun f() { } fun g() { } } class B { fun g() { } } main { }";

/// Classes and their methods, of which none stands for the class itself.
static NAMES: [(&str, &str); 8] = [
    ("A", ""),
    ("B", ""),
    ("C", ""),
    ("A", "f"),
    ("A", "g"),
    ("B", "g"),
    ("B", "f"),
    ("C", "f"),
];

/// The number of classes, and the positions of the names, or a line where there is nothing of that name.
static FOUND: &str = "2 classes 6 50 - 22 34 58 - -";

/// The position of a class, or of a method where one is named.
fn at(code: &Code, class: &[u8], method: &[u8]) -> Option<u32> {
    if method.is_empty() {
        return match code.find_class(class) {
            Some(found) => Some(found.at),
            None => None,
        };
    }
    match code.find_method(class, method) {
        Some(found) => Some(found.signature.at),
        None => None,
    }
}

/// Adds a position behind a space.
fn add_position(alloc: Global, at: Option<u32>, into: &mut Word) -> Result<(), Memory> {
    match at {
        Some(at) => add_number(alloc, " ", i64::from(at), into),
        None => into.extend_from_slice(b" -"),
    }
}

/// Adds the number of classes, and the positions of the names.
fn add_found(alloc: Global, code: &Code, told: &mut Word) -> Result<(), ReadError> {
    let count = u32::try_from(code.classes().len()).unwrap_or(0);
    add_number(alloc, "", i64::from(count), told)?;
    told.extend_from_slice(b" classes")?;
    for (class, method) in &NAMES {
        add_position(alloc, at(code, class.as_bytes(), method.as_bytes()), told)?;
    }
    Ok(())
}

/// The same of the code of a text.
fn add_found_in(alloc: Global, text: &str, told: &mut Word) -> Result<(), ReadError> {
    let code = code_in(alloc, text)?;
    add_found(alloc, &code, told)
}

#[test]
fn classes_and_methods_are_found_by_name(rt: HostRuntime) -> Result<(), Fail> {
    let mut told = Seq::new(rt.alloc());
    add_found_in(rt.alloc(), TEXT, &mut told)?;
    expect(TEXT, told.as_slice(), FOUND)
}

/// Adds a program of 300 classes, from C0 on, each with the methods f, g and h.
fn add_classes(alloc: Global, into: &mut Word) -> Result<(), Memory> {
    for number in 0..300i64 {
        add_number(alloc, "class C", number, into)?;
        into.extend_from_slice(b" { fun f() { } fun g() { } fun h() { } } ")?;
    }
    into.extend_from_slice(b"main { }")
}

/// Whether a class is found with its methods, and no method i.
fn is_found(code: &Code, class: &Class) -> bool {
    let name = class.name.as_slice();
    for method in class.methods.as_slice() {
        let signature = &method.signature;
        if at(code, name, signature.name.as_slice()) != Some(signature.at) {
            return false;
        }
    }
    at(code, name, b"") == Some(class.at) && at(code, name, b"i").is_none()
}

/// Whether code has 300 classes, these are found, and no class or method of C300 is.
fn are_found(code: &Code, classes: &[Class]) -> bool {
    for class in classes {
        if !is_found(code, class) {
            return false;
        }
    }
    let is_beyond = at(code, b"C300", b"").is_some() || at(code, b"C300", b"f").is_some();
    code.classes().len() == 300 && classes.len() == 300 && !is_beyond
}

/// The same of the code of a program.
fn are_found_in(alloc: Global, program: &Program) -> Result<bool, ReadError> {
    let code = code_of(alloc, program)?;
    Ok(are_found(&code, program.classes.as_slice()))
}

/// The same of the program that a text is.
fn are_found_in_text(alloc: Global, text: &[u8]) -> Result<bool, ReadError> {
    let program = parse_program(alloc, text)?;
    are_found_in(alloc, &program)
}

#[test]
fn each_of_many_classes_and_methods_is_found(rt: HostRuntime) -> Result<(), Fail> {
    let mut text = Seq::new(rt.alloc());
    add_classes(rt.alloc(), &mut text)?;
    assert!(rt; are_found_in_text(rt.alloc(), text.as_slice())?);
    Ok(())
}
