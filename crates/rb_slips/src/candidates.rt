// The kinds of tokens that are tried where a text isn't read.

use rb_trees::TokenKind;

/// A kind of token, and its spelling or what it begins.
pub type Candidate = (TokenKind, &'static [u8]);

pub const MAIN: TokenKind = TokenKind::Keyword(4);

pub const ROOT: TokenKind = TokenKind::Keyword(31);

pub const CLOSE_BRACE: TokenKind = TokenKind::Sign(22);

/// Signs and words that may be missing, or be meant in place of another, the likeliest first.
pub static MISSING: [Candidate; 12] = [
    (TokenKind::Sign(17), b";"),
    (TokenKind::Sign(20), b")"),
    (TokenKind::Sign(19), b"("),
    (TokenKind::Sign(22), b"}"),
    (TokenKind::Sign(21), b"{"),
    (TokenKind::Sign(24), b"]"),
    (TokenKind::Sign(16), b","),
    (TokenKind::Sign(18), b":"),
    (TokenKind::Sign(8), b"="),
    (TokenKind::Sign(15), b"."),
    (TokenKind::Sign(25), b"#"),
    (TokenKind::Keyword(10), b"in"),
];

/// What may be missing that isn't one sign, the likeliest first.
pub static MISSING_PARTS: [Candidate; 3] = [
    (TokenKind::Number, b"An expression"),
    (TokenKind::Keyword(26), b"A type"),
    (TokenKind::Name, b"A name"),
];

/// What may be missing between two operands.
pub static MISSING_OPERATOR: [Candidate; 1] = [(TokenKind::Sign(9), b"An operator")];

/// What may be missing where no part is: this sign could be an operator, too.
pub static MISSING_LAST: [Candidate; 1] = [(TokenKind::Sign(7), b">")];

/// What may stand at a place, by a token with which it begins. Those of a statement may stand where an expression may.
pub static PARTS: [Candidate; 9] = [
    (TokenKind::Keyword(17), b"a statement"),
    (TokenKind::Number, b"an expression"),
    (TokenKind::Keyword(26), b"a type"),
    (TokenKind::Name, b"a name"),
    (TokenKind::Keyword(0), b"an interface"),
    (TokenKind::Keyword(1), b"a class"),
    (TokenKind::Keyword(2), b"a method"),
    (TokenKind::Keyword(30), b"an object"),
    (TokenKind::Sign(9), b"an operator"),
];

/// The words and signs that may stand at a place by themselves.
pub static SIGNS: [Candidate; 17] = [
    (TokenKind::Keyword(4), b"main"),
    (TokenKind::Keyword(31), b"root"),
    (TokenKind::Keyword(8), b"else"),
    (TokenKind::Keyword(10), b"in"),
    (TokenKind::Keyword(13), b"catch"),
    (TokenKind::Keyword(15), b"return"),
    (TokenKind::Sign(17), b";"),
    (TokenKind::Sign(20), b")"),
    (TokenKind::Sign(22), b"}"),
    (TokenKind::Sign(24), b"]"),
    (TokenKind::Sign(7), b">"),
    (TokenKind::Sign(21), b"{"),
    (TokenKind::Sign(19), b"("),
    (TokenKind::Sign(16), b","),
    (TokenKind::Sign(18), b":"),
    (TokenKind::Sign(8), b"="),
    (TokenKind::Sign(6), b"<"),
];
