// What is said where a token stands with which no program or service begins.

use crate::candidates::{CLOSE_BRACE, MAIN, PARTS, ROOT, SIGNS};
use crate::repairs::{Change, repair};
use crate::slips::slip_at;
use crate::tries::{Reach, TextKind, Tries};
use crate::{read_texts, slip_texts};
use rb_pieces::around::{first_of_line, first_of_statement, is_among, open_brace};
use rb_pieces::{Help, Page, Pieces};
use rb_trees::{Memory, TokenKind};

/// So many things that may stand at a place are told.
const MOST_TOLD: usize = 4;

/// So many bytes of what stands before a missing sign are shown.
const LONGEST_SHOWN: usize = 50;

/// What may stand at a place: a sign or word, or a kind of part.
#[derive(Clone, Copy)]
struct Told {
    text: &'static [u8],
    is_sign: bool,
}

/// What stands before a missing sign: the statement if it is short and on one line, and else the last piece.
fn before_missing<'a>(pieces: &Pieces<'a>, last: usize) -> &'a [u8] {
    let first = first_of_statement(pieces, last).max(first_of_line(pieces, last));
    let statement = pieces.between(first, last);
    if statement.len() > LONGEST_SHOWN {
        pieces.text(last)
    } else {
        statement
    }
}

/// What is said where a closing brace is missing before a piece.
fn say_missing_brace(page: &mut Page, pieces: &Pieces<'_>, index: usize) -> Result<(), Memory> {
    let open = open_brace(pieces, index).unwrap_or(index);
    page.sentence(read_texts::MISSING_BEFORE, pieces.text(index), b"}")?;
    page.sentence_of(read_texts::OPEN_SINCE, b"", pieces.line(open))
}

/// What is said where a sign is missing behind what ends a statement, a line or a head.
fn say_missing_behind(
    page: &mut Page,
    pieces: &Pieces<'_>,
    index: usize,
    sign: &[u8],
) -> Result<(), Memory> {
    let last = index.saturating_sub(1);
    let before = before_missing(pieces, last);
    page.fill(read_texts::MISSING_AFTER, before, sign)?;
    if pieces.line(last) == pieces.line(index) {
        page.sentence(read_texts::HERE, b"", b"")?;
    } else {
        page.sentence_of(read_texts::IN_LINE, b"", pieces.line(last))?;
    }
    match sign {
        b"{" => page.sentence(read_texts::WRITE_SPACED, before, sign),
        _ => page.sentence(read_texts::WRITE_WHOLE, before, sign),
    }
}

/// What is said where a sign or word is missing before a piece.
fn say_missing(
    page: &mut Page,
    pieces: &Pieces<'_>,
    index: usize,
    sign: &[u8],
) -> Result<(), Memory> {
    let last = index.saturating_sub(1);
    match sign {
        b"}" => say_missing_brace(page, pieces, index),
        b";" | b")" | b"]" => say_missing_behind(page, pieces, index, sign),
        _ if pieces.line(last) != pieces.line(index) => {
            say_missing_behind(page, pieces, index, sign)
        }
        _ => {
            page.sentence(read_texts::MISSING_BEFORE, pieces.text(index), sign)?;
            page.sentence(read_texts::WRITE_BEHIND, pieces.text(last), sign)
        }
    }
}

/// What is said of a change after which the text is read further.
fn say_change(
    page: &mut Page,
    pieces: &Pieces<'_>,
    index: usize,
    token: &[u8],
    change: Change,
) -> Result<(), Memory> {
    match change {
        Change::Put(sign) => say_missing(page, pieces, index, sign),
        Change::PutPart(part) => {
            page.sentence(read_texts::PART_MISSING, token, part)?;
            page.sentence(read_texts::WRITE_PART, pieces.earlier(index, 1), b"")
        }
        Change::Take => page.say_name(&read_texts::TAKE_AWAY, token),
        Change::Swap(sign) => page.say(&read_texts::IN_ITS_PLACE, token, sign),
    }
}

/// The kinds of parts that may stand at a place. Where a larger part may, its own beginnings aren't told.
fn parts_there(tries: &Tries<'_>, told: &mut Vec<Told>) -> Result<(), Memory> {
    for (kind, text) in &PARTS {
        let is_covered = match kind {
            TokenKind::Number | TokenKind::Name | TokenKind::Sign(_) => !told.is_empty(),
            _ => false,
        };
        if !is_covered && tries.stands(*kind)? {
            told.push(Told {
                text,
                is_sign: false,
            })?;
        }
    }
    Ok(())
}

/// Whether a sign begins or goes on with a part that may stand at a place.
fn is_of_part(text: &[u8]) -> bool {
    is_among(text, b"( < > =")
}

/// The words and signs that may stand at a place by themselves.
fn signs_there(tries: &Tries<'_>, told: &mut Vec<Told>) -> Result<(), Memory> {
    let has_parts = !told.is_empty();
    for (kind, text) in &SIGNS {
        let is_covered = has_parts && is_of_part(text);
        if !is_covered && told.len() < MOST_TOLD && tries.stands(*kind)? {
            told.push(Told {
                text,
                is_sign: true,
            })?;
        }
    }
    Ok(())
}

/// Adds what may stand at a place, as a list in words.
fn add_told(page: &mut Page, told: &[Told]) -> Result<(), Memory> {
    for (number, one) in told.iter().enumerate() {
        if number > 0 && number == told.len().saturating_sub(1) {
            page.add(b" or ")?;
        } else if number > 0 {
            page.add(b", ")?;
        }
        if one.is_sign {
            page.fill(b"`#`", b"", one.text)?;
        } else {
            page.add(one.text)?;
        }
    }
    Ok(())
}

/// What is said of what may stand at a place.
fn say_what_stands(page: &mut Page, tries: &Tries<'_>) -> Result<(), Memory> {
    let mut told = Vec::new(tries.alloc());
    parts_there(tries, &mut told)?;
    signs_there(tries, &mut told)?;
    if told.is_empty() {
        return page.sentence(read_texts::UNEXPECTED.mend, b"", b"");
    }
    page.add(read_texts::WHAT_CAN_STAND)?;
    add_told(page, told.as_slice())?;
    page.add(b".\n")
}

/// What is said where a name is wanted, and a word of the language or a literal stands there.
fn name_wanted(tries: &Tries<'_>) -> Result<Option<&'static Help>, Memory> {
    let help = match tries.kind_there() {
        Some(TokenKind::Keyword(_)) => &read_texts::KEYWORD_AS_NAME,
        Some(TokenKind::Number | TokenKind::TextLit) => &read_texts::NAME_WANTED,
        _ => return Ok(None),
    };
    let reach = tries.with(&[TokenKind::Name], 1)?;
    if reach.is_beyond(Reach::Place(tries.next_start())) {
        Ok(Some(help))
    } else {
        Ok(None)
    }
}

/// What is said where no slip is known, after tries of other tokens.
fn say_tried(
    page: &mut Page,
    pieces: &Pieces<'_>,
    tries: &Tries<'_>,
    index: usize,
) -> Result<(), Memory> {
    let token = tries.text();
    if let Some(help) = name_wanted(tries)? {
        return page.say_name(help, token);
    }
    if let Some(change) = repair(tries)? {
        return say_change(page, pieces, index, token, change);
    }
    page.sentence(read_texts::UNEXPECTED.wrong, token, b"")?;
    say_what_stands(page, tries)
}

/// What is said where the text ends too early.
fn say_end(page: &mut Page, pieces: &Pieces<'_>, tries: &Tries<'_>) -> Result<(), Memory> {
    match open_brace(pieces, pieces.len()) {
        Some(open) if tries.stands(CLOSE_BRACE)? => {
            page.say_number(&read_texts::BRACE_OPEN, b"", pieces.line(open))
        }
        None if tries.stands(MAIN)? => page.say_plain(&read_texts::MAIN_MISSING),
        None if tries.stands(ROOT)? => page.say_plain(&read_texts::ROOT_MISSING),
        _ => {
            page.sentence(read_texts::ENDS_EARLY.wrong, b"", b"")?;
            say_what_stands(page, tries)
        }
    }
}

/// What is said where a token stands with which no program or service begins.
pub fn say_unexpected(
    page: &mut Page,
    pieces: &Pieces<'_>,
    kind: TextKind,
    at: u32,
) -> Result<(), Memory> {
    let index = pieces.index_of(at);
    if index > 0 && pieces.end(index - 1) > at as usize {
        return page.say_plain(&slip_texts::GLUED);
    }
    if let Some(slip) = slip_at(pieces, kind, index) {
        return page.say(slip.help, slip.name, slip.other);
    }
    match Tries::make(pieces.alloc(), pieces.source(), kind, at)? {
        Some(tries) if pieces.text(index).is_empty() => say_end(page, pieces, &tries),
        Some(tries) => say_tried(page, pieces, &tries, index),
        None => page.say_name(&read_texts::UNEXPECTED, pieces.text(index)),
    }
}
