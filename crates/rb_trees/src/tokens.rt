// Tokens of a text.

/// The kinds of tokens. A keyword or sign is numbered by its place in the language's list, from 0.
#[derive(Clone, Copy, Debug, PartialEq, Eq)]
pub enum TokenKind {
    Name,
    Number,
    TextLit,
    Keyword(u8),
    Sign(u8),
}

/// A token: its kind, and its slice of the text by byte offsets.
#[derive(Clone, Copy, PartialEq, Eq)]
pub struct Token {
    pub kind: TokenKind,
    /// The offset of its first byte.
    pub start: u32,
    /// The offset behind its last byte.
    pub end: u32,
}
