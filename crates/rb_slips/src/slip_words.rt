// Words of other languages.

use crate::slip_texts;
use crate::slips::{Slip, named};
use rb_pieces::around::{is_among, is_name};
use rb_pieces::declarations::{Declared, declared_at};
use rb_pieces::{Help, Pieces};

/// Words, with a space between each two, and what is said of each.
type Said = (&'static [u8], &'static Help);

/// What is said of a word by the first row that has it.
fn said_of(word: &[u8], rows: &[Said]) -> Option<&'static Help> {
    for row in rows {
        if is_among(word, row.0) {
            return Some(row.1);
        }
    }
    None
}

/// What is said of a word with which other languages declare something or begin a statement.
fn of_statement(word: &[u8]) -> Option<&'static Help> {
    said_of(
        word,
        &[
            (b"let const auto mut", &slip_texts::DECLARE),
            (b"println printf echo puts console", &slip_texts::PRINTER),
            (b"elif elseif elsif", &slip_texts::ELSE_IF),
            (b"switch match case when", &slip_texts::CHOICE),
            (b"do until foreach loop repeat", &slip_texts::LOOP),
            (b"finally", &slip_texts::FINALLY),
            (b"then begin end", &slip_texts::BRACE_WORD),
            (b"break continue", &slip_texts::NO_JUMP),
            (b"await async", &slip_texts::TAKE_WORD),
        ],
    )
}

/// What is said of a word with which other languages name a value, declare something or begin a statement.
pub fn other_word(word: &[u8]) -> Option<&'static Help> {
    let said = said_of(
        word,
        &[
            (b"null nil None undefined NULL", &slip_texts::NO_NULL),
            (b"self Self super", &slip_texts::THIS_WORD),
            (b"True False TRUE FALSE", &slip_texts::TRUTH),
            (b"System", &slip_texts::PRINTER),
        ],
    );
    said.or_else(|| of_statement(word))
}

/// What is said of a word that joins expressions in other languages.
fn of_expression(word: &[u8]) -> Option<&'static Help> {
    said_of(
        word,
        &[
            (b"and", &slip_texts::AND_WORD),
            (b"or", &slip_texts::OR_WORD),
            (b"not", &slip_texts::NOT_WORD),
        ],
    )
}

/// What is said of a word with which other languages declare what stands at the top or in a class.
fn of_declaration(word: &[u8]) -> Option<&'static Help> {
    said_of(
        word,
        &[
            (b"def function func fn void sub", &slip_texts::FUNCTION),
            (
                b"public private protected static final abstract override pub export",
                &slip_texts::TAKE_WORD,
            ),
            (
                b"import package use using include from",
                &slip_texts::IMPORT,
            ),
            (b"extends implements", &slip_texts::INHERIT),
            (b"struct enum record trait type", &slip_texts::TYPE_WORD),
        ],
    )
}

/// What is said of a word of other languages.
fn of_word(word: &[u8]) -> Option<&'static Help> {
    of_statement(word)
        .or_else(|| of_expression(word))
        .or_else(|| of_declaration(word))
}

/// What is said of a word of other languages that the text doesn't declare.
fn of_unknown(pieces: &Pieces<'_>, word: &[u8]) -> Option<&'static Help> {
    let help = of_word(word)?;
    for place in 0..pieces.len() {
        if pieces.is_later(place, 0, word) && declared_at(pieces, place) != Declared::Nothing {
            return None;
        }
    }
    Some(help)
}

/// A word of another language at a piece, or before it.
pub fn word_slip<'a>(pieces: &Pieces<'a>, index: usize) -> Option<Slip<'a>> {
    let text = pieces.text(index);
    if let Some(help) = of_unknown(pieces, text) {
        return named(help, text);
    }
    let before = pieces.earlier(index, 1);
    if pieces.is_earlier(index, 2, b".") || !(is_name(text) || is_begun(text)) {
        return None;
    }
    named(of_unknown(pieces, before)?, before)
}

/// Whether a piece shows that the name before it was meant as a word of the language.
fn is_begun(text: &[u8]) -> bool {
    is_among(text, b"( { [ class fun interface if val var")
}
