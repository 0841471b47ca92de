// A service, and remote calls on it.

use crate::code::classes::code_in;
use rb_engine::{Code, State, invoke};
use rb_heap::Heap;
use rb_store::read_service;
use rb_trees::{Memory, Raised, ReadError, Seq, Shared, StoreError, Value};
use std::alloc::Global;

/// The classes of the service's code.
static CLASSES: &str =
    "class P { } class A { fun unit() { } fun int(): Int { return 1; } fun bool(): Bool { return true; } fun text(): Text { return \"t\"; } fun self(): A { return this; } fun ints(): List<Int> { return List<Int>(1, 2); } fun bools(): List<Bool> { return List<Bool>(true, false); } fun texts(): List<Text> { return List<Text>(\"a\"); } fun selves(): List<A> { return List<A>(this, this); } fun none(): List<Int> { return List<Int>(); } fun mixed(): List<Int> { return List<Int>(1, true, this); } fun add(n: Int): Int { return n + 1; } fun not(b: Bool): Bool { return !b; } fun say(t: Text): Text { return t; } fun same(a: A): A { return a; } fun count(ns: List<Int>): Int { return len(ns); } fun pick(n: Int, b: Bool, t: Text, a: A): A { return a; } fun divide(n: Int): Int { return 1 / n; } fun fails(): Int { return this.divide(0); } fun deep(): Int { return this.deep(); } fun loops() { while (true) { } } } main { }";

/// A table of an A, numbered 0, and a P.
static TABLE: &str = "class A { } class P { } object 0: A { } object 1: P { } root 0;";

/// A remote call: the receiver's number, where it is a remote object, the method, a letter for each argument, the fuel, and
/// the kind of the result.
pub type Call = (Option<u32>, &'static str, &'static str, u64, u8);

/// The code of the service.
pub fn code(alloc: Global) -> Result<Code, ReadError> {
    code_in(alloc, CLASSES)
}

/// The table of the service.
fn table(alloc: Global) -> Result<Heap, StoreError> {
    let (_, table) = read_service(alloc, TABLE.as_bytes())?;
    Ok(table)
}

/// The argument of a letter: an Int, a Bool, a Text, the A, the P, an object that isn't there, or rows.
fn argument(alloc: Global, letter: u8) -> Result<Value, Memory> {
    match letter {
        b'i' => Ok(Value::Int(4)),
        b'b' => Ok(Value::Bool(true)),
        b't' => Ok(Value::Text(Shared::new(alloc, Seq::new(alloc))?)),
        b'o' => Ok(Value::Remote(0)),
        b'p' => Ok(Value::Remote(1)),
        b'q' => Ok(Value::Remote(7)),
        _ => Ok(Value::Rows(Shared::new(alloc, Seq::new(alloc))?)),
    }
}

fn arguments(alloc: Global, letters: &str) -> Result<Seq<Value>, Memory> {
    let mut values = Seq::new(alloc);
    for letter in letters.as_bytes() {
        values.push(argument(alloc, *letter)?)?;
    }
    Ok(values)
}

/// The receiver: a remote object, or one of the caller's own.
fn receiver(object: Option<u32>) -> Value {
    match object {
        Some(object) => Value::Remote(object),
        None => Value::Ref(0),
    }
}

/// 0 where there is a value, or the code of the fault; 99 where it doesn't stand at position 77 or isn't remote, and 98 where
/// memory ran out.
fn code_told(given: &Result<Result<Value, Raised>, Memory>) -> u8 {
    match given {
        Ok(Ok(_)) => 0,
        Ok(Err(raised)) if raised.at == 77 && raised.remote => raised.fault.code,
        Ok(Err(_)) => 99,
        Err(_) => 98,
    }
}

/// What a call at position 77 gives on a table.
fn given(alloc: Global, code: &Code, heap: Heap, call: &Call, args: Seq<Value>) -> u8 {
    let (object, method, _, fuel, kind) = call;
    let mut state = State {
        heap,
        fuel: *fuel,
        depth: 0,
    };
    let (target, method) = (receiver(*object), method.as_bytes());
    code_told(&invoke(alloc, code, &mut state, 77, *kind, target, method, args))
}

/// What a call at position 77 gives.
pub fn answered(alloc: Global, code: &Code, call: &Call) -> Result<u8, StoreError> {
    let (_, _, letters, _, _) = call;
    let args = arguments(alloc, letters)?;
    let heap = table(alloc)?;
    Ok(given(alloc, code, heap, call, args))
}
