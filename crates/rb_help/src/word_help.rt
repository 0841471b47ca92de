// What is said of words that are none of the commands': what was asked for, or what is wrong with them.

use crate::command_pages::{COMMANDS, CommandPage};
use crate::commands::{VERSION, usage};
use crate::outside_texts as texts;
use rb_pieces::Page;
use rb_pieces::around::is_among;
use rb_trees::Memory;
use std::alloc::Global;
use strsim::damerau_levenshtein;

/// A word of more bytes is taken for no misspelt command.
const LONGEST_COMMAND: usize = 20;

/// Whether a first word asks for help.
fn is_help(word: &str) -> bool {
    word == "help" || is_help_option(word.as_bytes())
}

/// Whether a word behind a command asks for help on it: `--help` or `-h`.
pub fn is_help_option(word: &[u8]) -> bool {
    is_among(word, b"--help -h")
}

/// Whether one of the words behind a command asks for help on it.
fn has_help_option(words: &[String]) -> bool {
    words.iter().any(|word| is_help_option(word.as_bytes()))
}

/// The page of a command, if it is one.
fn page_of(name: &str) -> Option<&'static CommandPage> {
    COMMANDS.iter().find(|page| page.name == name)
}

/// How many edits lead from a word to a command, where they are at most a third of the word, or one.
fn distance(alloc: Global, word: &str, command: &str) -> Result<Option<usize>, Memory> {
    if word.len() < 2 || word.len() > LONGEST_COMMAND {
        return Ok(None);
    }
    let edits = damerau_levenshtein(alloc, word, command)?;
    if edits <= (word.len() / 3).max(1) {
        Ok(Some(edits))
    } else {
        Ok(None)
    }
}

/// The command that is nearest to a word, if one is near.
fn nearest(alloc: Global, word: &str) -> Result<Option<&'static CommandPage>, Memory> {
    let mut least = usize::MAX;
    let mut found = None;
    for page in &COMMANDS {
        if let Some(edits) = distance(alloc, word, page.name)? {
            if edits < least {
                least = edits;
                found = Some(page);
            }
        }
    }
    Ok(found)
}

/// Adds lines one after the other.
fn add_lines(page: &mut Page, lines: &[&[u8]]) -> Result<(), Memory> {
    for line in lines {
        page.add(line)?;
    }
    Ok(())
}

/// Tells the forms of all commands.
fn tell_usage(alloc: Global, page: &mut Page) -> Result<(), Memory> {
    let forms = usage(alloc)?;
    page.add(forms.as_slice())
}

/// Tells what a command does, its words, its statuses and an example.
fn tell_command(page: &mut Page, command: &CommandPage) -> Result<(), Memory> {
    page.add(b"rbi ")?;
    page.add(command.form)?;
    page.add(b"\n")?;
    page.add(command.does)?;
    page.add(b"Its words:\n")?;
    add_lines(page, command.words)?;
    page.add(b"Its statuses:\n")?;
    add_lines(page, command.statuses)?;
    page.add(b"An example:\n  rbi ")?;
    page.add(command.example)?;
    page.add(b"\n")
}

/// Says that a word is no command, and which one is the nearest.
fn say_no_command(alloc: Global, page: &mut Page, word: &str) -> Result<(), Memory> {
    match nearest(alloc, word)? {
        Some(command) => {
            let name = command.name.as_bytes();
            page.sentence(texts::NEAR_COMMAND, word.as_bytes(), name)?;
            page.sentence(texts::TELL_NEAREST, name, b"")
        }
        None => {
            page.sentence(texts::NO_COMMAND, word.as_bytes(), b"")?;
            page.sentence(texts::TELL_ALL, b"", b"")
        }
    }
}

/// Says what is wrong with the words behind a command.
fn say_other_words(page: &mut Page, command: &CommandPage, words: &[String]) -> Result<(), Memory> {
    match words {
        [_, _, number] if command.counts == (3, 3) => {
            page.sentence(texts::NO_COUNT, number.as_bytes(), b"")?;
        }
        [_, _, number, _] if command.counts == (4, 4) => {
            page.sentence(texts::NO_COUNT, number.as_bytes(), b"")?;
        }
        [_, _, number] if command.counts == (2, 3) => {
            page.sentence(texts::NO_FUEL, number.as_bytes(), b"")?;
        }
        [number] if command.name == "trial" => {
            page.sentence(texts::NO_FILES, number.as_bytes(), b"")?;
        }
        _ => page.sentence(texts::OTHER_WORDS, command.name.as_bytes(), command.form)?,
    }
    page.sentence(texts::TELL_MORE, command.name.as_bytes(), b"")
}

/// What is said of a command, or of what is none, with the words behind it.
fn say_called(alloc: Global, page: &mut Page, name: &str, words: &[String]) -> Result<(), Memory> {
    match page_of(name) {
        Some(command) if has_help_option(words) => tell_command(page, command),
        Some(command) => say_other_words(page, command, words),
        None => say_no_command(alloc, page, name),
    }
}

/// What is said of a word for which help is asked.
fn tell_of(alloc: Global, page: &mut Page, word: &str) -> Result<(), Memory> {
    match page_of(word) {
        Some(command) => tell_command(page, command),
        None if is_help(word) => tell_usage(alloc, page),
        None => say_no_command(alloc, page, word),
    }
}

/// What is said of words that are none of the commands': the forms of all commands or the page of one where that is asked
/// for, the version, or what is wrong.
pub fn say_words(alloc: Global, page: &mut Page, words: &[String]) -> Result<(), Memory> {
    match words {
        [] => tell_usage(alloc, page),
        [first, word, ..] if is_help(first.as_str()) => tell_of(alloc, page, word.as_str()),
        [first, ..] if is_help(first.as_str()) => tell_usage(alloc, page),
        [first] if first.as_str() == "--version" => page.sentence(VERSION, b"", b""),
        [first, behind @ ..] => say_called(alloc, page, first.as_str(), behind),
    }
}
