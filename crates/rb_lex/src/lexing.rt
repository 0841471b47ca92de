// From a text to its tokens.

ghost use Rattle.std.specs.Prelude.{◌≡◌, ◌≤◌, IfOk, All, false, length};
ghost use Rattle.rb_trees.specs.Outcome.{Tells, Gives};
ghost use Rattle.rb_trees.specs.Reading.{lex_refusal};
ghost use Rattle.rb_meaning_bytes.specs.tokens.Lexes.{Lexes};
ghost use Rattle.rb_meaning_bytes.specs.tokens.Lists.{IsToken, Stands, slice, is_minus};
ghost use Rattle.rb_meaning_bytes.specs.tokens.Texts.{Outcome, Lexed, longest_text};

use crate::bytes::after;
use crate::heads::{Head, head_at};
use rb_trees::{LexError, Seq, Token, TokenKind};
use std::alloc::Global;

/// The greatest number of bytes of a text.
const LONGEST_TEXT: usize = 1_048_576;

/// The tokens of the source, or its first fault.
///
/// What a list of tokens is, `IsTokens` says, and when each error comes, `IsRefusal`; `Lexed` joins them.
/// `Memory` may come at any time, and says nothing of the source.
pub fn lex(alloc: Global, source: &[u8]) -> Result<Seq<Token>, LexError>
    // What is answered, the source has: these tokens, or this first fault.
    ensures told { Tells (λ tokens. tokens) lex_refusal result (Lexed source.now) }
    // What the source has is answered.
    ensures only { (outcome : Outcome) → Lexed source.now outcome → Gives (λ tokens. tokens) lex_refusal result outcome }
    // Each token stands in the source, which has its slice.
    ensures each_token { IfOk result (λ tokens. All (λ token. IsToken source.now token) tokens) }
{
    if source.len() > LONGEST_TEXT {
        return Err(LexError::TooLong(LONGEST_TEXT as u32));
    }
    match str::from_utf8(source) {
        Ok(_text) => tokens(alloc, source),
        Err(error) => Err(LexError::NotUtf8(error.valid_up_to() as u32)),
    }
}

/// The tokens of a text that isn't too long, or its first fault.
fn tokens(alloc: Global, text: &[u8]) -> Result<Seq<Token>, LexError>
    requires { length text.now ≤ longest_text }
    ensures { Tells (λ tokens. tokens) lex_refusal result (Lexes false 0 text.now) }
{
    let mut list = Seq::new(alloc);
    let mut minus = false;
    let mut rest = text;
    while !rest.is_empty() {
        let at = (text.len() - rest.len()) as u32;
        match head_at(minus, rest) {
            Head::Skip(n) => {
                rest = after(rest, n + 1);
            }
            Head::Take(kind, n) => {
                list.push(Token {
                    kind,
                    start: at,
                    end: at + (n as u32 + 1),
                })?;
                minus = is_minus(kind);
                rest = after(rest, n + 1);
            }
            Head::Large => return Err(LexError::NumberTooLarge(at)),
            Head::Long => return Err(LexError::TooLong(at)),
            Head::Open => return Err(LexError::OpenText(at)),
            Head::Bad(n) => return Err(LexError::BadByte(at + n as u32)),
        }
    }
    Ok(list)
}

/// The bytes of a token that stands in the source, by `slice`.
#[tactic(auto, using(crate::proofs::Places::stands_within))]
pub fn token_slice(source: &[u8], token: Token) -> &[u8]
    requires { Stands source.now token }
    ensures { result.now ≡ slice source.now token.start token.end }
{
    &source[token.start as usize..token.end as usize]
}

/// Whether the token is the sign `-`.
fn is_minus(kind: TokenKind) -> bool
    ensures { result ≡ is_minus kind }
{
    match kind {
        TokenKind::Sign(number) => number == 10,
        _ => false,
    }
}
