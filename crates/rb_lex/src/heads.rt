// What a text begins with.

ghost use Rattle.std.specs.Prelude.{◌≡◌, ◌≤◌, ◌<◌, ◌+◌, false, length};
ghost use Rattle.rb_lex.specs.Heads.{head_of, HeadWithin, word_kind, number_head, text_head, other_head, one_sign};
ghost use Rattle.rb_lex.specs.Ends.{text_end};

use crate::bytes::{Class, after, byte_class, digits_len, line_len, word_len};
use crate::literals::{End, end_of_text};
use crate::numbers::capped_value;
use crate::tables::{keyword_number, sign_number};
use rb_trees::TokenKind;
use rb_trees::limits::LONGEST_TEXT;

/// The greatest value of a number, which is one more behind a minus.
const GREATEST: u64 = 9_223_372_036_854_775_807;

/// What a text begins with. A count is of the bytes behind the first.
#[derive(Clone, Copy)]
pub enum Head {
    /// A separator or a comment.
    Skip(usize),
    /// A token within the limits.
    Take(TokenKind, usize),
    /// A number above the greatest.
    Large,
    /// A text literal whose value is too long.
    Long,
    /// A text literal that isn't closed.
    Open,
    /// A bad byte behind so many bytes.
    Bad(usize),
}

/// What stands at the head of the text, behind a minus or not.
#[tactic(auto, unfolding(crate::specs::Heads::head_of))]
pub fn head_at(minus: bool, text: &[u8]) -> Head
    requires some { 0 < length text.now }
    ensures value { result ≡ head_of minus text.now }
    ensures within { HeadWithin result (length text.now) }
{
    match text {
        [] => unreachable!(),
        [b, more @ ..] => match byte_class(*b) {
            Class::Separator => Head::Skip(0),
            Class::Letter => {
                let n = word_len(more);
                Head::Take(word_kind(&text[..n + 1]), n)
            }
            Class::Digit => {
                let n = digits_len(more);
                number_head(minus, &text[..n + 1], n)
            }
            Class::Quote => text_head(more),
            Class::Other => other_head(text),
        },
    }
}

/// The kind of a word: a keyword, or else a name.
fn word_kind(word: &[u8]) -> TokenKind
    ensures { result ≡ word_kind word.now }
{
    match keyword_number(word) {
        Some(number) => TokenKind::Keyword(number as u8),
        None => TokenKind::Name,
    }
}

/// A number, behind a minus or not, which may be too large.
fn number_head(minus: bool, digits: &[u8], n: usize) -> Head
    ensures { result ≡ number_head minus digits.now n }
{
    let greatest = if minus { GREATEST + 1 } else { GREATEST };
    if capped_value(digits) <= greatest {
        Head::Take(TokenKind::Number, n)
    } else {
        Head::Large
    }
}

/// A text literal, from the bytes behind its first quote on.
fn text_head(text: &[u8]) -> Head
    ensures value { result ≡ text_head (text_end false text.now) }
    ensures within { HeadWithin result (length text.now + 1) }
{
    match end_of_text(text) {
        End::Closes(n, size) => {
            if size <= LONGEST_TEXT {
                Head::Take(TokenKind::TextLit, n + 1)
            } else {
                Head::Long
            }
        }
        End::Breaks(n) => Head::Bad(n + 1),
        End::Never => Head::Open,
    }
}

/// A comment, a sign or a bad byte.
fn other_head(text: &[u8]) -> Head
    requires { 0 < length text.now }
    ensures value { result ≡ other_head text.now }
    ensures within { HeadWithin result (length text.now) }
{
    match text {
        [b'/', b'/', more @ ..] => Head::Skip(1 + line_len(more)),
        [_, _, ..] => match sign_number(&text[..2]) {
            Some(number) => Head::Take(TokenKind::Sign(number as u8), 1),
            None => one_sign(text),
        },
        _ => one_sign(text),
    }
}

/// A sign of one byte, or a bad byte.
fn one_sign(text: &[u8]) -> Head
    requires { 0 < length text.now }
    ensures value { result ≡ one_sign text.now }
    ensures within { HeadWithin result (length text.now) }
{
    match text {
        [] => unreachable!(),
        [_, ..] => match sign_number(&text[..1]) {
            Some(number) => Head::Take(TokenKind::Sign(number as u8), 0),
            None => Head::Bad(0),
        },
    }
}
