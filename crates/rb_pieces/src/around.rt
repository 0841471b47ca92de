// What stands around a piece: its line, its statement, and what it is in.

use crate::pieces::Pieces;

/// What the innermost braces around a piece belong to.
#[derive(Clone, Copy, PartialEq, Eq)]
pub enum Home {
    /// Nothing: the piece stands outside of all braces.
    Nowhere,
    Interface,
    Class,
    /// An object of a service.
    Object,
    /// A method or `main`.
    Body,
    /// An `if`, a loop, a `try`, a `catch` or a batch.
    Block,
}

/// Whether a word is one of a list, in which a space stands between each two.
pub fn is_among(word: &[u8], words: &[u8]) -> bool {
    for other in words.split(|byte| *byte == b' ') {
        if other == word {
            return true;
        }
    }
    false
}

/// The words of the language, but for those of types.
const KEYWORDS: &[u8] =
    b"interface class fun remote main val var if else for in while try catch throw return \
    batch print len str new this true false object root";

/// Whether a piece is a word of the language.
pub fn is_keyword(text: &[u8]) -> bool {
    is_among(text, KEYWORDS) || is_type_word(text)
}

/// Whether a piece is a word of the language for a type.
pub fn is_type_word(text: &[u8]) -> bool {
    is_among(text, b"List Rows Int Bool Text Unit")
}

/// Whether a piece is a name.
pub fn is_name(text: &[u8]) -> bool {
    matches!(text.first(), Some(b'a'..=b'z' | b'A'..=b'Z' | b'_')) && !is_keyword(text)
}

/// Whether a piece is a number.
pub fn is_number(text: &[u8]) -> bool {
    matches!(text.first(), Some(b'0'..=b'9'))
}

/// The number of the brace that is open before a piece.
pub fn open_brace(pieces: &Pieces<'_>, index: usize) -> Option<usize> {
    let mut closed = 0usize;
    for back in 0..index {
        let place = index - back - 1;
        match pieces.text(place) {
            b"}" => closed = closed.saturating_add(1),
            b"{" if closed == 0 => return Some(place),
            b"{" => closed -= 1,
            _ => {}
        }
    }
    None
}

/// The first piece of the line in which a piece stands.
pub fn first_of_line(pieces: &Pieces<'_>, index: usize) -> usize {
    let line = pieces.line(index);
    for back in 0..index {
        let place = index - back;
        if pieces.line(place - 1) != line {
            return place;
        }
    }
    0
}

/// The first piece behind the last `;` or brace before a piece.
pub fn first_of_statement(pieces: &Pieces<'_>, index: usize) -> usize {
    for back in 0..index {
        let place = index - back;
        if is_among(pieces.text(place - 1), b"; { }") {
            return place;
        }
    }
    0
}

/// What a brace belongs to, by the first word of the head before it.
fn head_of_brace(pieces: &Pieces<'_>, brace: usize) -> Home {
    let word = pieces.text(first_of_statement(pieces, brace));
    let rows: [(&[u8], Home); 4] = [
        (b"interface", Home::Interface),
        (b"class", Home::Class),
        (b"object", Home::Object),
        (b"fun remote main", Home::Body),
    ];
    for (words, home) in &rows {
        if is_among(word, words) {
            return *home;
        }
    }
    Home::Block
}

/// What the innermost braces around a piece belong to.
pub fn home_of(pieces: &Pieces<'_>, index: usize) -> Home {
    match open_brace(pieces, index) {
        Some(brace) => head_of_brace(pieces, brace),
        None => Home::Nowhere,
    }
}

/// Whether the last declaration that begins before a piece is a class.
pub fn is_in_class(pieces: &Pieces<'_>, index: usize) -> bool {
    let mut found = false;
    for place in 0..index {
        let word = pieces.text(place);
        if is_among(word, b"class interface main object") {
            found = is_among(word, b"class");
        }
    }
    found
}
