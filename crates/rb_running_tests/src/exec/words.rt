// Scripts as texts of words, with an operator before its operands, and the payloads that they stand for.
//
// Steps: `do N E`, `keep N E`, `let N V E`, `see N V E` for a Let that is kept, `if N E { .. } { .. }`, `each N V E { .. }`,
// and `all N V E { .. }` for an Each whose rows are kept. Step N stands at position 100 + N.
// Expressions: `7`, `true`, `false`, `'word`, `root`, `$V`, `%I`, `not E`, `+ E E`, and `call K NAME E :C E ..` for a call of
// kind K, with the receiver, and then C arguments. Operators and calls stand at the positions from 1 on, in order.
//
// A payload has its parts in this order too, so one word after the other is put in bytes, as docs/wire.md tells.

use rb_trees::{Memory, Word};

/// The version, and four inputs: 10, true, "in", and one of which nothing is used.
const HEAD: &[u8] = b"\x01\x04\x01\0\0\0\0\0\0\0\x0a\x02\x01\x03\0\0\0\x02in\x02\0";

/// Words, with the bytes that they begin with, and a letter for each part that follows. An `s` is a step's number with its
/// position, a `v` a variable, `+` or `-` whether its value is kept, and a `c` the count of a block's steps. A `p` is the
/// position of an operator or a call, a `k` a kind, and an `n` a name.
static WORDS: [(&str, &[u8], &[u8]); 30] = [
    ("do", b"\x10", b"s"),
    ("keep", b"\x11", b"s"),
    ("let", b"\x12", b"sv-"),
    ("see", b"\x12", b"sv+"),
    ("if", b"\x13", b"s"),
    ("each", b"\x14", b"sv-"),
    ("all", b"\x14", b"sv+"),
    ("{", b"", b"c"),
    ("}", b"", b""),
    ("true", b"\x20\x02\x01", b""),
    ("false", b"\x20\x02\x00", b""),
    ("root", b"\x23", b""),
    ("not", b"\x24\x01", b"p"),
    ("neg", b"\x24\x02", b"p"),
    ("len", b"\x24\x03", b"p"),
    ("str", b"\x24\x04", b"p"),
    ("+", b"\x25\x01", b"p"),
    ("-", b"\x25\x02", b"p"),
    ("*", b"\x25\x03", b"p"),
    ("/", b"\x25\x04", b"p"),
    ("%", b"\x25\x05", b"p"),
    ("==", b"\x25\x06", b"p"),
    ("!=", b"\x25\x07", b"p"),
    ("<", b"\x25\x08", b"p"),
    ("<=", b"\x25\x09", b"p"),
    (">", b"\x25\x0a", b"p"),
    (">=", b"\x25\x0b", b"p"),
    ("&&", b"\x25\x0c", b"p"),
    ("||", b"\x25\x0d", b"p"),
    ("call", b"\x26", b"pkn"),
];

/// The words that are still to be put, and how many operators and calls there were so far.
#[derive(Drop)]
struct Words<'a> {
    rest: &'a str,
    places: u32,
}

impl<'a> Words<'a> {
    /// The next word; behind the last one, none.
    fn word(&mut self) -> &'a str {
        let (word, rest) = self.rest.split_once(' ').unwrap_or((self.rest, ""));
        self.rest = rest;
        word
    }

    /// The next word, a number.
    fn number(&mut self) -> u32 {
        number_of(self.word())
    }

    /// The position of the operator or call that was just read.
    fn place(&mut self) -> u32 {
        self.places = self.places.saturating_add(1);
        self.places
    }

    /// Adds the part of a letter.
    fn add_part(&mut self, letter: u8, into: &mut Word) -> Result<(), Memory> {
        match letter {
            b's' => {
                let id = self.number();
                add_number(id, into)?;
                add_number(id.saturating_add(100), into)
            }
            b'v' => add_number(self.number(), into),
            b'-' => into.push(0),
            b'+' => into.push(1),
            b'p' => add_number(self.place(), into),
            b'k' => into.push(byte_of(self.word())),
            b'n' => add_text(self.word(), into),
            _ => add_number(steps_in(self.rest), into),
        }
    }

    /// Adds a word with its parts.
    fn add_word(&mut self, word: &str, into: &mut Word) -> Result<(), Memory> {
        for (own, code, parts) in &WORDS {
            if *own == word {
                into.extend_from_slice(code)?;
                return self.add_parts(parts, into);
            }
        }
        add_marked(word, into)
    }

    fn add_parts(&mut self, letters: &[u8], into: &mut Word) -> Result<(), Memory> {
        for letter in letters {
            self.add_part(*letter, into)?;
        }
        Ok(())
    }
}

fn number_of(word: &str) -> u32 {
    word.parse::<u32>().unwrap_or(0)
}

fn byte_of(word: &str) -> u8 {
    word.parse::<u8>().unwrap_or(0)
}

fn add_number(number: u32, into: &mut Word) -> Result<(), Memory> {
    into.extend_from_slice(&number.to_be_bytes())
}

fn add_text(text: &str, into: &mut Word) -> Result<(), Memory> {
    add_number((text.len() % 65_536) as u32, into)?;
    into.extend_from_slice(text.as_bytes())
}

/// How many steps stand in the block that a text begins with, up to the brace that closes it, or to the end.
fn steps_in(text: &str) -> u32 {
    let mut steps = 0u32;
    let mut open = 0u32;
    for word in text.split(' ') {
        match word {
            "{" => open = open.saturating_add(1),
            "}" if open == 0 => return steps,
            "}" => open -= 1,
            "do" | "keep" | "let" | "see" | "if" | "each" | "all" if open == 0 => {
                steps = steps.saturating_add(1);
            }
            _ => {}
        }
    }
    steps
}

/// Adds a word that begins with its mark, or an Int.
fn add_marked(word: &str, into: &mut Word) -> Result<(), Memory> {
    if let Some(text) = word.strip_prefix('\'') {
        into.extend_from_slice(b"\x20\x03")?;
        return add_text(text, into);
    }
    if let Some(variable) = word.strip_prefix('$') {
        into.push(0x22)?;
        return add_number(number_of(variable), into);
    }
    if let Some(input) = word.strip_prefix('%') {
        into.push(0x21)?;
        return into.push(byte_of(input));
    }
    if let Some(count) = word.strip_prefix(':') {
        return add_number(number_of(count), into);
    }
    into.extend_from_slice(b"\x20\x01")?;
    into.extend_from_slice(&word.parse::<i64>().unwrap_or(0).to_be_bytes())
}

/// Adds the payload of a text.
pub fn add_payload(text: &str, into: &mut Word) -> Result<(), Memory> {
    let mut words = Words {
        rest: text,
        places: 0,
    };
    into.extend_from_slice(HEAD)?;
    add_number(steps_in(text), into)?;
    for _ in 0..text.len() {
        let word = words.word();
        if word.is_empty() {
            break;
        }
        words.add_word(word, into)?;
    }
    Ok(())
}
