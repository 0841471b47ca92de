// Texts with their tokens or their first faults, and the values of tokens.

use crate::expected::expect;
use rb_lex::{lex, number_value, text_value};
use rb_trees::Token;
use std::alloc::Global;
use std::fmt::Write;
use std::test::Fail;

/// Texts, and the kinds and spans of their tokens.
static READ: [(&str, &str); 16] = [
    ("", ""),
    (" \t\r\n", ""),
    (
        "interface class fun remote main val var if else for in while",
        "Keyword(0) 0-9 Keyword(1) 10-15 Keyword(2) 16-19 Keyword(3) 20-26 Keyword(4) 27-31 Keyword(5) 32-35 Keyword(6) 36-39 Keyword(7) 40-42 Keyword(8) 43-47 Keyword(9) 48-51 Keyword(10) 52-54 Keyword(11) 55-60",
    ),
    (
        "try catch throw return batch print len str new this true false",
        "Keyword(12) 0-3 Keyword(13) 4-9 Keyword(14) 10-15 Keyword(15) 16-22 Keyword(16) 23-28 Keyword(17) 29-34 Keyword(18) 35-38 Keyword(19) 39-42 Keyword(20) 43-46 Keyword(21) 47-51 Keyword(22) 52-56 Keyword(23) 57-62",
    ),
    (
        "List Rows Int Bool Text Unit object root",
        "Keyword(24) 0-4 Keyword(25) 5-9 Keyword(26) 10-13 Keyword(27) 14-18 Keyword(28) 19-23 Keyword(29) 24-28 Keyword(30) 29-35 Keyword(31) 36-40",
    ),
    (
        "==!=<=>=&&||<>=+-*/%!.,;:(){}[]#",
        "Sign(0) 0-2 Sign(1) 2-4 Sign(2) 4-6 Sign(3) 6-8 Sign(4) 8-10 Sign(5) 10-12 Sign(6) 12-13 Sign(3) 13-15 Sign(9) 15-16 Sign(10) 16-17 Sign(11) 17-18 Sign(12) 18-19 Sign(13) 19-20 Sign(14) 20-21 Sign(15) 21-22 Sign(16) 22-23 Sign(17) 23-24 Sign(18) 24-25 Sign(19) 25-26 Sign(20) 26-27 Sign(21) 27-28 Sign(22) 28-29 Sign(23) 29-30 Sign(24) 30-31 Sign(25) 31-32",
    ),
    (
        "< = > = ! = = = <== !==",
        "Sign(6) 0-1 Sign(8) 2-3 Sign(7) 4-5 Sign(8) 6-7 Sign(14) 8-9 Sign(8) 10-11 Sign(8) 12-13 Sign(8) 14-15 Sign(2) 16-18 Sign(8) 18-19 Sign(1) 20-22 Sign(8) 22-23",
    ),
    (
        "vals val_ Val iff _ a1 __x9 1a",
        "Name 0-4 Name 5-9 Name 10-13 Name 14-17 Name 18-19 Name 20-22 Name 23-27 Number 28-29 Name 29-30",
    ),
    (
        "\"a\" \"\" \"\\n\\\"\\\\\" \"é // no\"",
        "TextLit 0-3 TextLit 4-6 TextLit 7-15 TextLit 16-26",
    ),
    ("a // é \"open", "Name 0-1"),
    ("a // x\nb", "Name 0-1 Name 7-8"),
    (
        "a/b /// c\n/",
        "Name 0-1 Sign(12) 1-2 Name 2-3 Sign(12) 10-11",
    ),
    (
        "-9223372036854775808 9223372036854775807 007",
        "Sign(10) 0-1 Number 1-20 Number 21-40 Number 41-44",
    ),
    ("- 9223372036854775808", "Sign(10) 0-1 Number 2-21"),
    (
        "--9223372036854775808 - // c\n9223372036854775808",
        "Sign(10) 0-1 Sign(10) 1-2 Number 2-21 Sign(10) 22-23 Number 29-48",
    ),
    ("\"\r\t\"", "TextLit 0-4"),
];

/// Texts, and their first faults.
static REFUSED: [(&str, &str); 26] = [
    ("main { print(1 $ 2); }", "BadByte(15)"),
    ("main { print(\"a); }", "OpenText(13)"),
    ("main { print(9223372036854775808); }", "NumberTooLarge(13)"),
    ("-(9223372036854775808", "NumberTooLarge(2)"),
    ("-9223372036854775809", "NumberTooLarge(1)"),
    ("99999999999999999999999999", "NumberTooLarge(0)"),
    ("&", "BadByte(0)"),
    ("a | b", "BadByte(2)"),
    ("x é", "BadByte(2)"),
    ("\u{0}", "BadByte(0)"),
    ("\"a\\", "OpenText(0)"),
    ("\"a\\\n\"", "OpenText(0)"),
    ("\"a\\x\" \"", "BadByte(2)"),
    ("\"\\x \\q\"", "BadByte(1)"),
    ("\"\\x", "OpenText(0)"),
    ("\"a\nb\"", "OpenText(0)"),
    ("a \"\\n", "OpenText(2)"),
    ("$ \"a", "BadByte(0)"),
    ("\"a $", "OpenText(0)"),
    ("9223372036854775808 $", "NumberTooLarge(0)"),
    ("$ 9223372036854775808", "BadByte(0)"),
    ("\"\\q\" 9223372036854775808", "BadByte(1)"),
    ("\"\\\\\" \"\\\"", "OpenText(5)"),
    ("\\", "BadByte(0)"),
    ("'", "BadByte(0)"),
    ("a\u{7f}", "BadByte(1)"),
];

/// How a text begins, the byte with which it goes on and how many times, how it ends, and its tokens or its first fault.
type Long = (&'static [u8], u8, usize, &'static [u8], &'static str);

static LONG: [Long; 8] = [
    // Bytes that are no UTF-8 come before other faults.
    (b"main \xff", b' ', 0, b"", "NotUtf8(5)"),
    (b"$ \"\xc3", b' ', 0, b"", "NotUtf8(3)"),
    (b"// \xed\xa0\x80", b' ', 0, b"", "NotUtf8(3)"),
    // A text has at most 1,048,576 bytes.
    (b"", b' ', 1_048_576, b"", ""),
    (b"", 0xff, 1_048_577, b"", "TooLong(1048576)"),
    // The value of a literal has at most 4,096 bytes.
    (b"\"", b'a', 4_094, b"\\n\\\"\"", "TextLit 0-4100"),
    (b"\"", b'a', 4_095, b"\\n\\\"\" $", "TooLong(0)"),
    (b"\"", b'a', 5_000, b"\\x\"", "BadByte(5001)"),
];

/// Adds the kinds and the spans of tokens.
fn add_tokens(tokens: &[Token], text: &mut String) -> Result<(), Fail> {
    for token in tokens {
        if !text.is_empty() {
            text.push(' ')?;
        }
        let kind = token.kind;
        let start = token.start;
        let end = token.end;
        write!(text, "{kind:?} {start}-{end}")?;
    }
    Ok(())
}

/// Adds the outcome of a source in short.
fn add_outcome(alloc: Global, source: &[u8], text: &mut String) -> Result<(), Fail> {
    match lex(alloc, source) {
        Ok(tokens) => add_tokens(tokens.as_slice(), text),
        Err(error) => Ok(write!(text, "{error:?}")?),
    }
}

/// Fails unless a source of this name has this outcome.
fn outcome_is(alloc: Global, name: &str, source: &[u8], wanted: &str) -> Result<(), Fail> {
    let mut text = String::new(alloc);
    add_outcome(alloc, source, &mut text)?;
    expect(name, text.as_bytes(), wanted.as_bytes())
}

/// Fails unless each source has the outcome beside it.
fn outcomes_are(alloc: Global, rows: &[(&str, &str)]) -> Result<(), Fail> {
    for (source, wanted) in rows {
        outcome_is(alloc, source, source.as_bytes(), wanted)?;
    }
    Ok(())
}

/// Fails unless each long source has the outcome beside it.
fn long_outcomes_are(alloc: Global, rows: &[Long]) -> Result<(), Fail> {
    for (start, byte, count, end, wanted) in rows {
        let mut source = Vec::from_slice(alloc, start)?;
        source.resize(start.len().saturating_add(*count), *byte)?;
        source.extend_from_slice(end)?;
        outcome_is(alloc, wanted, source.as_slice(), wanted)?;
    }
    Ok(())
}

#[test]
fn texts_have_their_tokens(rt: HostRuntime) -> Result<(), Fail> {
    outcomes_are(rt.alloc(), &READ)
}

#[test]
fn refusals_stand_at_the_first_fault(rt: HostRuntime) -> Result<(), Fail> {
    outcomes_are(rt.alloc(), &REFUSED)
}

#[test]
fn limits_are_kept_and_texts_are_utf8(rt: HostRuntime) -> Result<(), Fail> {
    long_outcomes_are(rt.alloc(), &LONG)
}

#[test]
fn tokens_have_their_values(rt: HostRuntime) -> Result<(), Fail> {
    if number_value(b"007") != 7
        || number_value(b"9223372036854775807") != 9_223_372_036_854_775_807
        || number_value(b"9223372036854775808") != -9_223_372_036_854_775_807 - 1
    {
        return Err(Fail::new("a number has another value"));
    }
    let text = text_value(rt.alloc(), b"\"a\\n\\\"\\\\\xc3\xa9\"")?;
    expect("a literal", text.as_slice(), b"a\n\"\\\xc3\xa9")
}
