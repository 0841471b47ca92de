// Which classes may be those of a service, by rows of texts. The rows hand in the classes of a program.
use rb_parse::parse_program;
use rb_trees::TypeError;
use rb_types::check_service;
use std::alloc::Global;
use std::test::Fail;

/// Texts of classes, each with the number of its first violation as a service's and the violation's offset; both are 0
/// where the classes are typed.
const CLASSES: &[(&str, u32, u32)] = &[
    (
        "class C { v: Int; w: List<C>; fun f(a: C): Int { throw \"x\"; return a.v; } }",
        0,
        0,
    ),
    (
        "class C { fun f(a: D): D { return new D(a.f(a)); } } class D { d: D; fun f(a: D): D { return a; } }",
        0,
        0,
    ),
    ("class C { fun f() { print(1); } }", 8, 20),
    ("class C { fun f() { print(x); } }", 1, 26),
    ("class C { fun f() { print(List<Int>()); } }", 3, 26),
    ("class C { fun f() { batch (D r) { } } }", 1, 20),
    ("class C { fun f() { val r = 1; batch (D r) { } } }", 2, 31),
    ("class C { remote fun f() { } }", 8, 21),
    ("class C { remote fun f(a: D) { } }", 1, 26),
    ("class C { v: Rows<Int>; }", 7, 13),
    ("class C { v: Rows<D>; }", 1, 18),
    ("class C { fun f(a: Rows<Int>) { } }", 7, 19),
    ("class C { fun f(): Rows<Int> { } }", 7, 19),
    ("class C { fun f() { val a = List<Rows<Int>>(); } }", 7, 33),
];

/// The number of a violation, and its place.
fn numbered(error: &TypeError) -> (u32, u32) {
    match error {
        TypeError::UnknownName(at) => (1, *at),
        TypeError::NameTaken(at) => (2, *at),
        TypeError::WrongType(at, _) => (3, *at),
        TypeError::WrongCount(at) => (4, *at),
        TypeError::NotAssignable(at) => (5, *at),
        TypeError::MissingReturn(at) => (6, *at),
        TypeError::TypeNotHere(at) => (7, *at),
        TypeError::NotAllowedHere(at) => (8, *at),
        TypeError::Memory => (10, 0),
    }
}

/// The number and the place of the first violation of a text's classes.
fn violation(alloc: Global, text: &str) -> Result<(u32, u32), Fail> {
    let Ok(program) = parse_program(alloc, text.as_bytes()) else {
        return Err(Fail::from("the text isn't read"));
    };
    match check_service(alloc, &program.classes) {
        Ok(()) => Ok((0, 0)),
        Err(error) => Ok(numbered(&error)),
    }
}

/// Fails unless the first violation of each text of classes has the number and the place beside it.
fn violations_are(alloc: Global, rows: &[(&str, u32, u32)]) -> Result<(), Fail> {
    for (classes, number, at) in rows {
        let text = format!(in alloc; "{classes} main {{ }}")?;
        let found = violation(alloc, text.as_str())?;
        if found != (*number, *at) {
            return Err(Fail::new(format_args!(
                "violation and place {found:?} in place of {number}, {at} of {classes}"
            )));
        }
    }
    Ok(())
}

#[test]
fn classes_of_services_have_no_remote_code_and_no_prints(rt: HostRuntime) -> Result<(), Fail> {
    violations_are(rt.alloc(), CLASSES)
}
