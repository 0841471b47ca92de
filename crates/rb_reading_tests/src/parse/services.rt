// Texts of services: what they are read as, each form of a literal, and what isn't read.

use crate::expected::expect;
use crate::parse::texts::{Form, refusals_are};
use rb_parse::parse_service;
use rb_trees::{Boxed, Literal, ReadError, ServiceText};
use std::alloc::Global;
use std::fmt::Write;
use std::test::Fail;

/// Texts, each with how many classes and objects are read and which object is the root, and with the literals; of a list
/// it is the number of its items. The second one has each form of a literal.
static SERVICES: [(&str, &str); 2] = [
    (
        "class A { v: Int; remote fun f(): Int { return -this.v; } } class B { } object 7: A { v = 1; } object 2: B { } root 7;",
        "2 classes, 2 objects, root 7
Int 1",
    ),
    (
        "object 1: A {
  a = 0; b = -1; c = - 007; d = 9223372036854775807; e = -9223372036854775808;
  f = true; g = false;
  h = \"\"; i = \"a\\\"b\";
  j = #0; k = # 9223372036854775807;
  l = []; m = [#1]; n = [-1, [true, []], \"\"];
} root 1;",
        "0 classes, 1 objects, root 1
Int 0
Int -1
Int -7
Int 9223372036854775807
Int -9223372036854775808
Bool true
Bool false
Text 
Text a\"b
Object 0
Object 9223372036854775807
Items 0
Items 1
Items 3",
    ),
];

/// Texts that aren't read: each with the first violation, and its place.
const REFUSED: &[(&str, &str)] = &[
    ("", "the token at offset 0 isn't expected there"),
    (
        "object 1: A { }",
        "the token at offset 15 isn't expected there",
    ),
    ("root 1", "the token at offset 6 isn't expected there"),
    ("root;", "the token at offset 4 isn't expected there"),
    ("root -1;", "the token at offset 5 isn't expected there"),
    ("root #1;", "the token at offset 5 isn't expected there"),
    (
        "root 1; root 1;",
        "the token at offset 8 isn't expected there",
    ),
    ("main { }", "the token at offset 0 isn't expected there"),
    (
        "interface I { } root 1;",
        "the token at offset 0 isn't expected there",
    ),
    (
        "object 1: A { } class A { } root 1;",
        "the token at offset 16 isn't expected there",
    ),
    (
        "object A { } root 1;",
        "the token at offset 7 isn't expected there",
    ),
    (
        "object 1 A { } root 1;",
        "the token at offset 9 isn't expected there",
    ),
    (
        "object -1: A { } root 1;",
        "the token at offset 7 isn't expected there",
    ),
    (
        "object 1: A { f = 1 } root 1;",
        "the token at offset 20 isn't expected there",
    ),
    (
        "object 1: A { f 1; } root 1;",
        "the token at offset 16 isn't expected there",
    ),
    (
        "object 1: A { f = ; } root 1;",
        "the token at offset 18 isn't expected there",
    ),
    (
        "object 1: A { f = - true; } root 1;",
        "the token at offset 20 isn't expected there",
    ),
    (
        "object 1: A { f = - -1; } root 1;",
        "the token at offset 20 isn't expected there",
    ),
    (
        "object 1: A { f = 1 + 1; } root 1;",
        "the token at offset 20 isn't expected there",
    ),
    (
        "object 1: A { f = (1); } root 1;",
        "the token at offset 18 isn't expected there",
    ),
    (
        "object 1: A { f = x; } root 1;",
        "the token at offset 18 isn't expected there",
    ),
    (
        "object 1: A { f = # -1; } root 1;",
        "the token at offset 20 isn't expected there",
    ),
    (
        "object 1: A { f = [1, ]; } root 1;",
        "the token at offset 22 isn't expected there",
    ),
    (
        "object 1: A { f = [, 1]; } root 1;",
        "the token at offset 19 isn't expected there",
    ),
    (
        "object 1: A { f = [1 1]; } root 1;",
        "the token at offset 21 isn't expected there",
    ),
    (
        "object 1: A { f = [1 ; } root 1;",
        "the token at offset 21 isn't expected there",
    ),
    (
        "class A { fun f() { object; } } root 1;",
        "the token at offset 20 isn't expected there",
    ),
    ("root $;", "no token begins with the byte at offset 5"),
    (
        "root 9223372036854775808;",
        "the number at offset 5 is above 9223372036854775807",
    ),
    (
        "root - 9223372036854775808;",
        "the token at offset 5 isn't expected there",
    ),
];

/// Adds what a literal is, on a line of its own.
fn add_literal(literal: &Literal, text: &mut String) -> Result<(), Fail> {
    let added = match literal {
        Literal::Int(number) => write!(text, "\nInt {number}"),
        Literal::Bool(truth) => write!(text, "\nBool {truth}"),
        Literal::Text(word) => {
            let letters = str::from_utf8(word.as_slice()).unwrap_or("of no letters");
            write!(text, "\nText {letters}")
        }
        Literal::Object(number) => write!(text, "\nObject {number}"),
        Literal::Items(items) => write!(text, "\nItems {}", items.len()),
    };
    Ok(added?)
}

/// Adds what a service is that was read, or why none was.
fn add_read(read: &Result<ServiceText, ReadError>, text: &mut String) -> Result<(), Fail> {
    match read {
        Ok(service) => add_service(service, text),
        Err(error) => Ok(write!(text, "{error}")?),
    }
}

/// Adds what a service is.
fn add_service(service: &ServiceText, text: &mut String) -> Result<(), Fail> {
    let classes = service.classes.len();
    let objects = service.objects.len();
    write!(
        text,
        "{classes} classes, {objects} objects, root {}",
        service.root
    )?;
    for object in service.objects.as_slice() {
        for (_name, literal) in object.fields.as_slice() {
            add_literal(literal, text)?;
        }
    }
    Ok(())
}

/// Fails unless each text is read as what stands beside it.
fn services_are(alloc: Global, rows: &[(&str, &str)]) -> Result<(), Fail> {
    for (source, wanted) in rows {
        let mut text = String::new(alloc);
        let read = Boxed::new(alloc, parse_service(alloc, source.as_bytes()))?;
        add_read(read.get(), &mut text)?;
        expect(source, text.as_bytes(), wanted.as_bytes())?;
    }
    Ok(())
}

#[test]
fn classes_objects_and_the_root_are_read(rt: HostRuntime) -> Result<(), Fail> {
    services_are(rt.alloc(), &SERVICES)
}

#[test]
fn what_the_grammar_of_services_lacks_is_refused(rt: HostRuntime) -> Result<(), Fail> {
    refusals_are(rt.alloc(), Form::Service, REFUSED)
}
