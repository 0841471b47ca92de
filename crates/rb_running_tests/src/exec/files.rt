// A service of two files, and scripts on it.

use crate::exec::shown::add_forest;
use crate::exec::words::add_payload;
use crate::told::{add_number, expect};
use rb_code::classes_differ;
use rb_exec::{Host, run_into};
use rb_heap::Heap;
use rb_store::read_service;
use rb_trees::{Memory, Script, Seq, Service, StoreError, Value, Version, Word};
use rb_wire_script::{ScriptStop, decode_script};
use std::alloc::Global;
use std::test::Fail;

/// How many bytes a payload has at most.
const MOST_BYTES: usize = 16_777_216;

/// A folder, a file of size 10, and one of size 200.
static SERVICE: &str = "class File { name: Text; size: Int; \
     fun name(): Text { return this.name; } \
     fun size(): Int { return this.size; } \
     fun grow(by: Int) { this.size = this.size + by; } \
     fun raise(by: Int): Int { this.size = this.size + by; return this.size; } \
     fun check(max: Int) { if (this.size > max) { throw \"Big\"; } } \
     fun join(other: File, mark: Text, both: Bool): Text { \
         var t = other.name() + mark; if (both) { t = t + this.name; } return t; } } \
     class Dir { list: List<File>; \
     fun files(): List<File> { return this.list; } \
     fun file(i: Int): File { return this.list[i]; } \
     fun first(): File { return this.list[0]; } \
     fun nothing() { } \
     fun number(): Int { return 7; } \
     fun truth(): Bool { return true; } \
     fun word(): Text { return \"w\"; } \
     fun numbers(): List<Int> { return List<Int>(1, 2, 3); } \
     fun truths(): List<Bool> { return List<Bool>(true, false); } \
     fun words(): List<Text> { return List<Text>(\"x\", \"y\"); } \
     fun lists(): List<List<Int>> { return List<List<Int>>(List<Int>(1)); } \
     fun none(): List<Int> { return List<Int>(); } \
     fun share(n: Int): Int { return 60 / n; } \
     fun tally(ns: List<Int>): Int { return len(ns); } \
     fun examine(i: Int): Text { this.list[0].grow(5); this.list[i].check(100); return \"good\"; } \
     fun down(n: Int): Int { var r = 0; if (n > 0) { r = this.down(n - 1); } return r; } \
     fun page(): Text { var t = \"p\"; while (len(t) < 4096) { t = t + t; } return t; } \
     fun burn(a: Int, b: Int) { \
         val nine = List<Int>(0, 0, 0, 0, 0, 0, 0, 0, 0); val some = nine + nine + nine; \
         val more = some + some + some + some; val most = more + more + more; val turns = most + most + most + some; \
         var i = 0; while (i < a) { for (x in turns) { } i = i + 1; } \
         var j = 0; while (j < b) { j = j + 1; } } } \
     object 0: Dir { list = [#1, #2]; } \
     object 1: File { name = \"a\"; size = 10; } \
     object 2: File { name = \"bb\"; size = 200; } \
     root 0;";

/// The host of a service and its table, if the names of its classes differ.
fn host_of(alloc: Global, service: Service, table: Heap) -> Result<Host, StoreError> {
    match classes_differ(alloc, service.classes.as_slice()) {
        Ok(true) => Ok(Host::make(alloc, service, table)?),
        _ => Err(StoreError::Memory),
    }
}

/// The host of the files.
pub fn host(alloc: Global) -> Result<Host, StoreError> {
    let (service, table) = read_service(alloc, SERVICE.as_bytes())?;
    host_of(alloc, service, table)
}

/// The size of a file.
fn size_of(table: &Heap, object: u32) -> i64 {
    match table.get_field(object, b"size") {
        Some(Value::Int(size)) => *size,
        _ => 0,
    }
}

/// Adds the sizes of the files where one of them has changed.
fn add_sizes(alloc: Global, table: &Heap, into: &mut Word) -> Result<(), Memory> {
    let (small, large) = (size_of(table, 1), size_of(table, 2));
    if small == 10 && large == 200 {
        return Ok(());
    }
    add_number(alloc, "; ", small, into)?;
    add_number(alloc, ", ", large, into)
}

/// The inputs that a script is run with.
#[derive(Clone, Copy)]
pub enum Inputs {
    /// Those of its payload.
    Own,
    /// Those of its payload, with an object that isn't there in place of the last, which is the fourth.
    Changed,
    Int(i64),
    None,
}

/// Puts other inputs in the place of a payload's.
fn put_inputs(given: Inputs, inputs: &mut Seq<Value>) -> Result<(), Memory> {
    match given {
        Inputs::Own => Ok(()),
        Inputs::Changed => {
            inputs.truncate(3);
            inputs.push(Value::Remote(7))
        }
        Inputs::Int(number) => {
            inputs.truncate(0);
            inputs.push(Value::Int(number))
        }
        Inputs::None => {
            inputs.truncate(0);
            Ok(())
        }
    }
}

/// Adds the forest that a script gives with these inputs, by its bytes in a version.
fn add_run(
    alloc: Global,
    host: &mut Host,
    script: &Script,
    inputs: &[Value],
    version: Version,
    into: &mut Word,
) -> Result<(), Memory> {
    let mut forest = Seq::new(alloc);
    run_into(alloc, host, script, inputs, version, &mut forest)?;
    add_forest(alloc, forest.as_slice(), into)
}

/// Adds what the script of a payload gives, with these inputs, by the bytes of its forest in a version.
pub fn add_script(
    alloc: Global,
    host: &mut Host,
    payload: &[u8],
    given: Inputs,
    version: Version,
    into: &mut Word,
) -> Result<(), Memory> {
    if payload.len() > MOST_BYTES {
        return into.extend_from_slice(b"too long");
    }
    match decode_script(alloc, payload) {
        Ok((_version, script, mut inputs)) => {
            put_inputs(given, &mut inputs)?;
            add_run(alloc, host, &script, inputs.as_slice(), version, into)
        }
        Err(ScriptStop::Refused { .. }) => into.extend_from_slice(b"no script"),
        Err(ScriptStop::Memory) => Err(Memory),
    }
}

/// Adds what a script gives on a host, and the sizes of the files then, where one of them has changed.
fn add_given(alloc: Global, host: &mut Host, text: &str, into: &mut Word) -> Result<(), Memory> {
    let mut payload = Seq::new(alloc);
    add_payload(text, &mut payload)?;
    add_script(
        alloc,
        host,
        payload.as_slice(),
        Inputs::Changed,
        Version::One,
        into,
    )?;
    add_sizes(alloc, host.table(), into)
}

/// Fails where a script gives something else on a host. The space behind the last entry isn't written.
fn expect_given(alloc: Global, host: &mut Host, script: &str, wanted: &str) -> Result<(), Fail> {
    let mut told = Seq::new(alloc);
    add_given(alloc, host, script, &mut told)?;
    expect(script, told.as_slice().trim_ascii_end(), wanted)
}

/// Fails where a script gives something else on a host than stands behind it on its line.
fn expect_lines(alloc: Global, host: &mut Host, lines: &str) -> Result<(), Fail> {
    for line in lines.split('\n') {
        let (script, wanted) = line.split_once("->").unwrap_or((line, "?"));
        expect_given(alloc, host, script.trim(), wanted.trim())?;
    }
    Ok(())
}

/// Fails where a script gives something else than stands behind it. All are run on one host, one after the other.
pub fn expect_in_turn(alloc: Global, lines: &str) -> Result<(), Fail> {
    let mut host = host(alloc)?;
    expect_lines(alloc, &mut host, lines)
}

/// Fails where a script gives something else than stands behind it. Each is run on a host of its own. Some lines are comments.
pub fn expect_each(alloc: Global, lines: &str) -> Result<(), Fail> {
    for line in lines.split('\n') {
        if !line.starts_with("//") {
            expect_in_turn(alloc, line)?;
        }
    }
    Ok(())
}
