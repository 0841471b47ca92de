//! Makes a payload of a shape, of at most so many bytes, and does to it what the first argument says: `make` prints how many
//! bytes it has, `write` writes it, and `decode` prints what it comes to as a script; `all` does so to each shape. `load`
//! prints how many bytes the text of a file has, and `json` reads it as JSON. `size` prints how many bytes a file has, `script`
//! what they come to as a script, `scan` what they come to as a forest, `tree` what they come to as one whose tree is made, and
//! `request` whether they are a request in JSON.
#![tactic(auto)]

mod decoded;
mod fields;
mod payloads;
mod shapes;

use bytes::BytesMut;
use decoded::{Outcome, forest_of, outcome_of, request_of, scanned};
use payloads::payload_of;
use serde_json::Value;
use shapes::{SHAPES, Shape, shape_named};
use std::rt::Files;
use std::{env, fs, io};

fn main(rt: HostRuntime) -> io::Result<()> {
    let mut words = env::args(&rt)?;
    words.next();
    match (words.next(), words.next(), words.next()) {
        (Some(what), Some(word), None) => one_word(&rt, what.as_str(), word.as_str()),
        (Some(what), Some(name), Some(most)) => {
            two_words(
                &rt,
                what.as_str(),
                shape_named(name.as_str()),
                number(most.as_str()),
            )
        }
        _ => usage(&rt),
    }
}

/// Says what the program's words are.
fn usage<R: Eprint>(rt: &R) -> io::Result<()> {
    eprintln!(rt;
        "usage: bench_wire make|write|decode SHAPE BYTES | all BYTES | load|json|size|script|scan|tree|request FILE"
    )
}

/// The number that a word is.
fn number(word: &str) -> Option<u32> {
    match word.parse::<u32>() {
        Ok(number) => Some(number),
        Err(_) => None,
    }
}

/// Carries out a command with one word.
fn one_word<R: Files + AllocGlobal + Print + Eprint>(
    rt: &R,
    what: &str,
    word: &str,
) -> io::Result<()> {
    match (what, number(word)) {
        ("all", Some(most)) => decode_all(rt, most),
        ("load", _) => load(rt, word),
        ("json", _) => read_json(rt, word),
        ("size", _) => size(rt, word),
        ("script", _) => script(rt, word),
        ("scan", _) => scan(rt, word),
        ("tree", _) => tree(rt, word),
        ("request", _) => request(rt, word),
        _ => usage(rt),
    }
}

/// Carries out a command with a shape and a number of bytes.
fn two_words<R: AllocGlobal + Print + Eprint>(
    rt: &R,
    what: &str,
    shape: Option<Shape>,
    most: Option<u32>,
) -> io::Result<()> {
    match (shape, most) {
        (Some(shape), Some(most)) => match payload_of(rt.alloc(), shape, most) {
            Ok(payload) => carry_out(rt, what, &payload),
            Err(want) => println!(rt; "{want}"),
        },
        _ => usage(rt),
    }
}

/// Carries out a command with a payload.
fn carry_out<R: AllocGlobal + Print + Eprint>(
    rt: &R,
    what: &str,
    payload: &BytesMut,
) -> io::Result<()> {
    match what {
        "make" => {
            let count = payload.len();
            println!(rt; "{count} bytes")
        }
        "write" => rt.write_all(payload.as_slice()),
        "decode" => decode(rt, payload),
        _ => usage(rt),
    }
}

/// Prints what each shape's payload of at most so many bytes comes to.
fn decode_all<R: AllocGlobal + Print>(rt: &R, most: u32) -> io::Result<()> {
    for shape in &SHAPES {
        let name = shape.name();
        print!(rt; "{name}: ")?;
        match payload_of(rt.alloc(), *shape, most) {
            Ok(payload) => decode(rt, &payload)?,
            Err(want) => println!(rt; "{want}")?,
        }
    }
    Ok(())
}

/// Prints what a payload comes to.
fn decode<R: AllocGlobal + Print>(rt: &R, payload: &BytesMut) -> io::Result<()> {
    let outcome = outcome_of(rt.alloc(), payload.as_slice());
    let count = payload.len();
    println!(rt; "{outcome}, {count} bytes")
}

/// Prints how many bytes the text of a file has.
fn load<R: Files + AllocGlobal + Print>(rt: &R, path: &str) -> io::Result<()> {
    let text = fs::read_to_string(rt, path)?;
    let count = text.len();
    println!(rt; "{count} bytes")
}

/// Reads the text of a file as JSON.
fn read_json<R: Files + AllocGlobal + Print>(rt: &R, path: &str) -> io::Result<()> {
    let text = fs::read_to_string(rt, path)?;
    match Value::from_str(rt.alloc(), text.as_str()) {
        Ok(value) => {
            drop(value);
            let count = text.len();
            println!(rt; "read, {count} bytes")
        }
        Err(error) => println!(rt; "{error}"),
    }
}

/// Prints how many bytes a file has.
fn size<R: Files + AllocGlobal + Print>(rt: &R, path: &str) -> io::Result<()> {
    let payload = fs::read(rt, path)?;
    let count = payload.len();
    println!(rt; "{count} bytes")
}

/// Prints what the bytes of a file come to as a script.
fn script<R: Files + AllocGlobal + Print>(rt: &R, path: &str) -> io::Result<()> {
    let payload = fs::read(rt, path)?;
    say(
        rt,
        &outcome_of(rt.alloc(), payload.as_slice()),
        payload.len(),
    )
}

/// Prints what the bytes of a file come to as a forest.
fn scan<R: Files + AllocGlobal + Print>(rt: &R, path: &str) -> io::Result<()> {
    let payload = fs::read(rt, path)?;
    say(rt, &scanned(payload.as_slice()), payload.len())
}

/// Prints what they come to as a forest whose tree is made.
fn tree<R: Files + AllocGlobal + Print>(rt: &R, path: &str) -> io::Result<()> {
    let payload = fs::read(rt, path)?;
    say(
        rt,
        &forest_of(rt.alloc(), payload.as_slice()),
        payload.len(),
    )
}

/// Prints whether the bytes of a file are a request in JSON.
fn request<R: Files + AllocGlobal + Print>(rt: &R, path: &str) -> io::Result<()> {
    let bytes = fs::read(rt, path)?;
    let count = bytes.len();
    match request_of(rt.alloc(), bytes.as_slice()) {
        Ok(()) => println!(rt; "read, {count} bytes"),
        Err(stop) => println!(rt; "{stop}, {count} bytes"),
    }
}

/// Prints what so many bytes come to.
fn say<R: Print>(rt: &R, outcome: &Outcome, count: usize) -> io::Result<()> {
    println!(rt; "{outcome}, {count} bytes")
}
