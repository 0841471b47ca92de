// Looks at the next token.

ghost use Rattle.std.specs.Prelude.{◌≡◌, ◌<◌, [], ◌∷◌, length, IfSome, option_map};
ghost use Rattle.rb_trees.specs.Kinds.{is_kind};
ghost use Rattle.rb_parse.specs.Reading.{take_kind, taken, next_in};
ghost use Rattle.rb_parse.specs.Readers.{Reads, Shortens};

use crate::stop::Stop;
use rb_trees::{Token, TokenKind};

/// Whether two kinds are the same.
pub(crate) fn same_kind(a: TokenKind, b: TokenKind) -> bool
    ensures { result ≡ is_kind a b }
{
    match a {
        TokenKind::Name => matches!(b, TokenKind::Name),
        TokenKind::Number => matches!(b, TokenKind::Number),
        TokenKind::TextLit => matches!(b, TokenKind::TextLit),
        TokenKind::Keyword(m) => match b {
            TokenKind::Keyword(n) => m == n,
            _ => false,
        },
        TokenKind::Sign(m) => match b {
            TokenKind::Sign(n) => m == n,
            _ => false,
        },
    }
}

/// Whether the next token is of the kind.
pub(crate) fn next_is(kind: TokenKind, tokens: &[Token]) -> bool
    ensures { result ≡ next_in (kind ∷ []) tokens.now }
{
    match tokens {
        [token, ..] => same_kind(token.kind, kind),
        [] => false,
    }
}

/// The next token, if it is of the kind, and the tokens behind it.
pub(crate) fn take_if<'t>(kind: TokenKind, tokens: &'t [Token]) -> Option<(Token, &'t [Token])>
    ensures value { taken kind tokens.now ≡ option_map (λ x. (x.0, x.1.now)) result }
    ensures shorter { IfSome result (λ x. length x.1.now < length tokens.now) }
{
    match tokens {
        [token, rest @ ..] => {
            if same_kind(token.kind, kind) {
                Some((*token, rest))
            } else {
                None
            }
        }
        [] => None,
    }
}

/// The next token, which has to be of the kind, and the tokens behind it.
pub(crate) fn expect<'t>(kind: TokenKind, tokens: &'t [Token]) -> Result<(Token, &'t [Token]), Stop>
    ensures value { Reads (λ x. x) result (take_kind kind tokens.now) }
    ensures shorter { Shortens tokens.now result }
{
    match tokens {
        [token, rest @ ..] => {
            if same_kind(token.kind, kind) {
                Ok((*token, rest))
            } else {
                Err(Stop::Unexpected(tokens.len()))
            }
        }
        [] => Err(Stop::Unexpected(0)),
    }
}
