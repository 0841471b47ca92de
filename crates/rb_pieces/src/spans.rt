// Where expressions begin and end among the pieces of a text. The text is one that is read; in any other the answers mean
// nothing.

use crate::pieces::Pieces;

/// The first and the last piece of an expression.
#[derive(Clone, Copy)]
pub struct Span {
    pub first: usize,
    pub last: usize,
}

/// A sign between two operands: its first piece, the piece behind it, and how tightly it binds.
#[derive(Clone, Copy)]
pub struct Sign {
    pub first: usize,
    pub behind: usize,
    pub level: usize,
}

/// An open bracket, and how many commas of its own stand between it and a piece behind it.
#[derive(Clone, Copy)]
pub struct Slot {
    pub open: usize,
    pub number: usize,
}

/// Whether a piece is a name, a number or a word of the language.
pub fn is_word(text: &[u8]) -> bool {
    matches!(text.first(), Some(b'a'..=b'z' | b'A'..=b'Z' | b'0'..=b'9' | b'_'))
}

/// Whether an operand can end with a piece.
fn ends_operand(text: &[u8]) -> bool {
    match text {
        b")" | b"]" => true,
        b"return" | b"throw" | b"in" => false,
        _ => is_word(text) || text.first() == Some(&b'"'),
    }
}

/// Whether a piece is a sign before an operand.
pub fn is_prefix(pieces: &Pieces<'_>, index: usize) -> bool {
    match pieces.text(index) {
        b"!" => !pieces.is_later(index, 1, b"="),
        b"-" => !ends_operand(pieces.earlier(index, 1)),
        _ => false,
    }
}

/// How tightly the sign binds that begins at a piece behind an operand, and of how many pieces it is.
fn level_at(pieces: &Pieces<'_>, index: usize) -> Option<(usize, usize)> {
    match pieces.text(index) {
        b"|" => Some((1, 2)),
        b"&" => Some((2, 2)),
        b"=" | b"!" if pieces.is_later(index, 1, b"=") => Some((3, 2)),
        b"<" | b">" if pieces.is_later(index, 1, b"=") => Some((4, 2)),
        b"<" | b">" => Some((4, 1)),
        b"+" | b"-" => Some((5, 1)),
        b"*" | b"/" | b"%" => Some((6, 1)),
        _ => None,
    }
}

/// The sign between two operands that begins at a piece behind an operand.
pub fn sign_at(pieces: &Pieces<'_>, index: usize) -> Option<Sign> {
    let (level, count) = level_at(pieces, index)?;
    Some(Sign {
        first: index,
        behind: index.saturating_add(count),
        level,
    })
}

/// The sign between two operands that ends before a piece with which an operand begins.
pub fn sign_before(pieces: &Pieces<'_>, first: usize) -> Option<Sign> {
    let index = first.checked_sub(1)?;
    match pieces.text(index) {
        b"|" | b"&" => sign_at(pieces, index.saturating_sub(1)),
        b"=" => match pieces.earlier(index, 1) {
            b"=" | b"!" | b"<" | b">" => sign_at(pieces, index.saturating_sub(1)),
            _ => None,
        },
        b"!" => None,
        b"-" if is_prefix(pieces, index) => None,
        _ => sign_at(pieces, index),
    }
}

/// The bracket that is open before a piece.
pub fn slot_around(pieces: &Pieces<'_>, index: usize) -> Option<Slot> {
    let mut closed = 0usize;
    let mut number = 0usize;
    for back in 0..index {
        let place = index - back - 1;
        match pieces.text(place) {
            b")" | b"]" => closed = closed.saturating_add(1),
            b"(" | b"[" if closed == 0 => return Some(Slot {
                open: place,
                number,
            }),
            b"(" | b"[" => closed -= 1,
            b"," if closed == 0 => number = number.saturating_add(1),
            _ => {}
        }
    }
    None
}

/// The piece that opens the bracket that a piece closes.
pub fn opening(pieces: &Pieces<'_>, index: usize) -> usize {
    match slot_around(pieces, index) {
        Some(slot) => slot.open,
        None => index,
    }
}

/// The piece that closes the bracket that a piece opens.
pub fn closing(pieces: &Pieces<'_>, index: usize) -> usize {
    let mut open = 0usize;
    for place in index..pieces.len() {
        match pieces.text(place) {
            b"(" | b"[" => open = open.saturating_add(1),
            b")" | b"]" if open <= 1 => return place,
            b")" | b"]" => open -= 1,
            _ => {}
        }
    }
    index
}

/// The piece before another, where it is this word.
fn word_before(pieces: &Pieces<'_>, index: usize, word: &[u8]) -> Option<usize> {
    if pieces.is_earlier(index, 1, word) {
        index.checked_sub(1)
    } else {
        None
    }
}

/// The piece `List` of a `List<T>` that ends before a piece.
pub fn list_before(pieces: &Pieces<'_>, index: usize) -> Option<usize> {
    let mut closed = 0usize;
    for back in 0..index {
        let place = index - back - 1;
        match pieces.text(place) {
            b">" => closed = closed.saturating_add(1),
            b"<" if closed <= 1 => return word_before(pieces, place, b"List"),
            b"<" => closed -= 1,
            text if closed > 0 && is_word(text) => {}
            _ => return None,
        }
    }
    None
}

/// Whether a parenthesis holds one expression and belongs to nothing before it.
pub fn is_group(pieces: &Pieces<'_>, open: usize) -> bool {
    match pieces.earlier(open, 1) {
        b"return" | b"throw" | b"in" => true,
        b">" => list_before(pieces, open).is_none(),
        text => !is_word(text),
    }
}

/// The first piece of what stands before a parenthesis that isn't a group: of a `new` that word, of a list its `List`.
pub fn head_of(pieces: &Pieces<'_>, open: usize) -> usize {
    match list_before(pieces, open) {
        Some(word) => word,
        None if pieces.is_earlier(open, 2, b"new") => open.saturating_sub(2),
        None => open.saturating_sub(1),
    }
}

/// The first piece of the last part of an operand that ends with a piece: the bracket of an index, the name of a member, or
/// what an operand begins with.
fn part_before(pieces: &Pieces<'_>, last: usize) -> usize {
    match pieces.text(last) {
        b"]" => opening(pieces, last),
        b")" => {
            let open = opening(pieces, last);
            if is_group(pieces, open) {
                open
            } else {
                head_of(pieces, open)
            }
        }
        _ => last,
    }
}

/// The first piece of the operand, without signs before it, that ends with a piece.
pub fn operand_first(pieces: &Pieces<'_>, last: usize) -> usize {
    let mut end = last;
    for _ in 0..pieces.len() {
        let first = part_before(pieces, end);
        if pieces.is_earlier(first, 1, b".") {
            end = first.saturating_sub(2);
        } else if pieces.is_later(first, 0, b"[") {
            end = first.saturating_sub(1);
        } else {
            return first;
        }
    }
    last
}

/// The last piece of the first part of an operand: a literal or name, or the bracket behind `new`, `len`, `str` or a list.
fn part_last(pieces: &Pieces<'_>, first: usize) -> usize {
    match pieces.text(first) {
        b"(" => closing(pieces, first),
        b"len" | b"str" => closing(pieces, first.saturating_add(1)),
        b"new" => closing(pieces, first.saturating_add(2)),
        b"List" => {
            for place in first..pieces.len() {
                if pieces.is_later(place, 0, b"(") {
                    return closing(pieces, place);
                }
            }
            first
        }
        _ => first,
    }
}

/// The last piece of a member at the piece of its name: this, or the parenthesis of a call.
fn member_last(pieces: &Pieces<'_>, name: usize) -> usize {
    if pieces.is_later(name, 1, b"(") {
        closing(pieces, name.saturating_add(1))
    } else {
        name
    }
}

/// The first piece at or behind another that is no sign before an operand.
fn behind_prefixes(pieces: &Pieces<'_>, first: usize) -> usize {
    for place in first..pieces.len() {
        if !is_prefix(pieces, place) {
            return place;
        }
    }
    first
}

/// The last piece of the operand, with signs before it, that begins with a piece.
pub fn operand_last(pieces: &Pieces<'_>, first: usize) -> usize {
    let mut last = part_last(pieces, behind_prefixes(pieces, first));
    for _ in 0..pieces.len() {
        let next = last.saturating_add(1);
        match pieces.text(next) {
            b"." => last = member_last(pieces, next.saturating_add(1)),
            b"[" => last = closing(pieces, next),
            _ => return last,
        }
    }
    last
}

/// The first of the signs that stand before an operand, or its own first piece.
fn first_prefix(pieces: &Pieces<'_>, first: usize) -> usize {
    for back in 0..first {
        if !is_prefix(pieces, first - back - 1) {
            return first - back;
        }
    }
    first
}

/// The first piece of what stands left of a sign between operands.
pub fn left_first(pieces: &Pieces<'_>, sign: &Sign) -> usize {
    let mut behind = sign.first;
    for _ in 0..pieces.len() {
        let operand = operand_first(pieces, behind.saturating_sub(1));
        let first = first_prefix(pieces, operand);
        match sign_before(pieces, first) {
            Some(earlier) if earlier.level >= sign.level => behind = earlier.first,
            _ => return first,
        }
    }
    sign.first
}

/// The looser of two signs, of which the second stands before the first.
fn looser(sign: Option<Sign>, earlier: Sign) -> Option<Sign> {
    match sign {
        Some(later) if later.level <= earlier.level => Some(later),
        _ => Some(earlier),
    }
}

/// The sign that is performed last in an expression: the loosest of those between its operands, of like ones the last.
pub fn root_sign(pieces: &Pieces<'_>, span: &Span) -> Option<Sign> {
    let mut root = None;
    let mut last = span.last;
    for _ in 0..pieces.len() {
        let first = first_prefix(pieces, operand_first(pieces, last));
        if first <= span.first {
            return root;
        }
        let Some(sign) = sign_before(pieces, first) else {
            return root;
        };
        root = looser(root, sign);
        last = sign.first.saturating_sub(1);
    }
    root
}

/// The last piece of what stands right of a sign between operands.
fn right_last(pieces: &Pieces<'_>, sign: &Sign) -> usize {
    let mut first = sign.behind;
    for _ in 0..pieces.len() {
        let last = operand_last(pieces, first);
        match sign_at(pieces, last.saturating_add(1)) {
            Some(later) if later.level > sign.level => first = later.behind,
            _ => return last,
        }
    }
    sign.first
}

/// The first and the last piece of the expression that stands at a piece.
pub fn span_at(pieces: &Pieces<'_>, index: usize) -> Span {
    if is_prefix(pieces, index) {
        return Span {
            first: index,
            last: operand_last(pieces, index),
        };
    }
    if let Some(sign) = sign_at(pieces, index) {
        return Span {
            first: left_first(pieces, &sign),
            last: right_last(pieces, &sign),
        };
    }
    if pieces.is_later(index, 0, b"[") {
        return Span {
            first: operand_first(pieces, index.saturating_sub(1)),
            last: closing(pieces, index),
        };
    }
    if pieces.is_earlier(index, 1, b".") {
        return Span {
            first: operand_first(pieces, index.saturating_sub(2)),
            last: member_last(pieces, index),
        };
    }
    Span {
        first: index,
        last: part_last(pieces, index),
    }
}
