// Tokens that are tried where a text isn't read.

use rb_lex::lex;
use rb_parse::{parse_service_tokens, parse_tokens};
use rb_trees::{LexError, Memory, ReadError, Token, TokenKind};
use std::alloc::Global;

/// A text that is read has at most so many bytes.
const LONGEST_SOURCE: usize = 1_048_576;

/// Where a token stands that was added.
const ADDED: u32 = u32::MAX;

/// What a text is to be.
#[derive(Clone, Copy)]
pub enum TextKind {
    Program,
    Service,
}

/// How far some tokens are the beginning of a program or service.
#[derive(Clone, Copy)]
pub enum Reach {
    /// Up to a token that was added.
    Added,
    /// Up to this place of the text.
    Place(u32),
    /// To the end: they are one.
    Whole,
}

impl Reach {
    /// Whether it is further than another.
    pub fn is_beyond(self, other: Reach) -> bool {
        match (self, other) {
            (Reach::Added, _) | (_, Reach::Whole) => false,
            (_, Reach::Added) | (Reach::Whole, _) => true,
            (Reach::Place(one), Reach::Place(two)) => one > two,
        }
    }
}

/// The tokens before a place and from it on, since the last beginning of a declaration before the place.
#[derive(Drop)]
pub struct Tries<'a> {
    alloc: Global,
    source: &'a [u8],
    kind: TextKind,
    front: Vec<Token>,
    rest: Vec<Token>,
}

/// Whether a declaration begins with a token: `interface`, `class`, `main`, `object` and `root`.
fn begins_declaration(token: &Token) -> bool {
    matches!(token.kind, TokenKind::Keyword(0 | 1 | 4 | 30 | 31))
}

/// The number of the last token with which a declaration begins.
fn last_declaration(tokens: &[Token]) -> usize {
    tokens.iter().rposition(begins_declaration).unwrap_or(0)
}

/// A token of a kind that was added.
fn added(kind: TokenKind) -> Token {
    Token {
        kind,
        start: ADDED,
        end: ADDED,
    }
}

impl<'a> Tries<'a> {
    /// The tokens around a place of a text, or none where the text has no tokens.
    pub fn make(
        alloc: Global,
        source: &'a [u8],
        kind: TextKind,
        at: u32,
    ) -> Result<Option<Tries<'a>>, Memory> {
        let tokens = match lex(alloc, source) {
            Ok(tokens) => tokens,
            Err(LexError::Memory) => return Err(Memory),
            Err(_) => return Ok(None),
        };
        let all = tokens.as_slice();
        let count = all.partition_point(|token| token.start < at);
        let before = all.get(..count).unwrap_or(&[]);
        let front = before.get(last_declaration(before)..).unwrap_or(&[]);
        Ok(Some(Tries {
            alloc,
            source,
            kind,
            front: copied(alloc, front)?,
            rest: copied(alloc, all.get(count..).unwrap_or(&[]))?,
        }))
    }

    /// What memory comes from.
    pub fn alloc(&self) -> Global {
        self.alloc
    }

    /// The kind of the token at the place, or none at the text's end.
    pub fn kind_there(&self) -> Option<TokenKind> {
        Some(self.rest.first()?.kind)
    }

    /// The bytes of the token at the place, or none at the text's end.
    pub fn text(&self) -> &'a [u8] {
        match self.rest.first() {
            Some(token) => self
                .source
                .get(token.start as usize..token.end as usize)
                .unwrap_or(b""),
            None => b"",
        }
    }

    /// Where the token behind the one at the place begins, or the text's end where there is none.
    pub fn next_start(&self) -> u32 {
        match self.rest.get(1) {
            Some(token) => token.start,
            None => self.source.len().min(LONGEST_SOURCE) as u32,
        }
    }

    /// How far some tokens are read.
    fn reach(&self, tokens: &[Token]) -> Result<Reach, Memory> {
        if self.source.len() > LONGEST_SOURCE {
            return Ok(Reach::Added);
        }
        let error = match self.kind {
            TextKind::Program => parse_tokens(self.alloc, self.source, tokens).err(),
            TextKind::Service => parse_service_tokens(self.alloc, self.source, tokens).err(),
        };
        match error {
            None => Ok(Reach::Whole),
            Some(ReadError::Memory) => Err(Memory),
            Some(ReadError::Unexpected(ADDED) | ReadError::TooNested(ADDED)) => Ok(Reach::Added),
            Some(ReadError::Unexpected(at) | ReadError::TooNested(at)) => Ok(Reach::Place(at)),
            Some(ReadError::Lex(_)) => Ok(Reach::Added),
        }
    }

    /// How far the text is read with tokens of these kinds at the place, and with so many tokens left out behind it.
    pub fn with(&self, kinds: &[TokenKind], dropped: usize) -> Result<Reach, Memory> {
        let mut tokens = copied(self.alloc, self.front.as_slice())?;
        for kind in kinds {
            tokens.push(added(*kind))?;
        }
        tokens.extend_from_slice(self.rest.as_slice().get(dropped..).unwrap_or(&[]))?;
        self.reach(tokens.as_slice())
    }

    /// Whether a token of a kind can stand at the place.
    pub fn stands(&self, kind: TokenKind) -> Result<bool, Memory> {
        Ok(!matches!(self.with(&[kind], self.rest.len())?, Reach::Added))
    }
}

/// A copy of tokens.
fn copied(alloc: Global, tokens: &[Token]) -> Result<Vec<Token>, Memory> {
    let mut copy = Vec::new(alloc);
    copy.extend_from_slice(tokens)?;
    Ok(copy)
}
