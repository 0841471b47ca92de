// The limits of nesting.

ghost use Rattle.std.specs.Prelude.{◌≡◌, ◌<◌, ◌≤◌, ◌+◌, length, IfSome};
ghost use Rattle.rb_meaning_bytes.specs.grammar.Limits as limits;
ghost use Rattle.rb_parse.specs.Nested.{nesting_of};

use crate::kinds::{
    AND, ASSIGN, AT_LEAST, AT_MOST, BATCH, CATCH, CLASS, CLOSE_BRACE, CLOSE_BRACKET, DOT, EQUAL,
    FOR, FUN, GREATER, IF, IN, INTERFACE, LESS, LIST, MINUS, NOT, OBJECT, OPEN, OPEN_BRACE,
    OPEN_BRACKET, OR, PERCENT, PLUS, PRINT, ROWS, SEMICOLON, SLASH, STAR, UNEQUAL, WHILE,
};
use crate::next::same_kind;
use rb_trees::limits::MOST_BLOCKS;
use rb_trees::{Token, TokenKind};

/// The greatest number of open types.
const MOST_TYPES: u32 = 64;
/// The greatest number of marks of an outermost expression.
const MOST_MARKS: u32 = 200;
/// The greatest number of open lists of a literal.
const MOST_LISTS: u32 = 64;

/// What is open behind some tokens, and the last two kinds.
#[derive(Clone, Copy)]
pub(crate) struct Nesting {
    blocks: u32,
    types: u32,
    marks: u32,
    last: TokenKind,
    before: TokenKind,
}

impl Nesting {
    /// Nothing is open.
    fn new() -> Nesting
        ensures { nesting_of result ≡ limits.nothing_open }
    {
        Nesting {
            blocks: 0,
            types: 0,
            marks: 0,
            last: SEMICOLON,
            before: SEMICOLON,
        }
    }
}

/// Whether a brace opens a block.
#[tactic(auto, unfolding(rb_meaning_bytes::specs::grammar::Limits::opens_block))]
fn opens_block(n: Nesting, kind: TokenKind) -> bool
    ensures { result ≡ limits.opens_block (nesting_of n) kind }
{
    same_kind(kind, OPEN_BRACE) && !(same_kind(n.before, INTERFACE) || same_kind(n.before, CLASS))
}

/// Whether an angle bracket opens a type.
#[tactic(auto, unfolding(rb_meaning_bytes::specs::grammar::Limits::opens_type))]
fn opens_type(n: Nesting, kind: TokenKind) -> bool
    ensures { result ≡ limits.opens_type (nesting_of n) kind }
{
    same_kind(kind, LESS) && (same_kind(n.last, LIST) || same_kind(n.last, ROWS))
}

/// Whether a bracket is a mark of an expression.
#[tactic(auto, unfolding(rb_meaning_bytes::specs::grammar::Limits::opens_mark))]
fn opens_mark(n: Nesting) -> bool
    ensures { result ≡ limits.opens_mark (nesting_of n) }
{
    let statement = same_kind(n.last, IF)
        || same_kind(n.last, WHILE)
        || same_kind(n.last, FOR)
        || same_kind(n.last, PRINT)
        || same_kind(n.last, CATCH)
        || same_kind(n.last, BATCH);
    !statement && !same_kind(n.before, FUN)
}

/// Whether a token of the kind is a mark wherever it stands.
fn always_mark(kind: TokenKind) -> bool
    ensures { result ≡ limits.always_mark kind }
{
    same_kind(kind, NOT)
        || same_kind(kind, MINUS)
        || same_kind(kind, OR)
        || same_kind(kind, AND)
        || same_kind(kind, EQUAL)
        || same_kind(kind, UNEQUAL)
        || same_kind(kind, AT_MOST)
        || same_kind(kind, AT_LEAST)
        || same_kind(kind, PLUS)
        || same_kind(kind, STAR)
        || same_kind(kind, SLASH)
        || same_kind(kind, PERCENT)
        || same_kind(kind, DOT)
        || same_kind(kind, OPEN_BRACKET)
}

/// Whether a token of the kind is a mark of an expression.
#[tactic(auto, unfolding(rb_meaning_bytes::specs::grammar::Limits::is_mark))]
fn is_mark(n: Nesting, kind: TokenKind) -> bool
    ensures { result ≡ limits.is_mark (nesting_of n) kind }
{
    if same_kind(kind, OPEN) {
        opens_mark(n)
    } else if same_kind(kind, LESS) {
        !opens_type(n, kind)
    } else if same_kind(kind, GREATER) {
        n.types == 0
    } else {
        always_mark(kind)
    }
}

/// Whether no outermost expression goes on over a token of the kind.
#[tactic(auto, unfolding(rb_meaning_bytes::specs::grammar::Limits::ends_expression))]
fn ends_expression(kind: TokenKind) -> bool
    ensures { result ≡ limits.ends_expression kind }
{
    same_kind(kind, SEMICOLON)
        || same_kind(kind, ASSIGN)
        || same_kind(kind, IN)
        || same_kind(kind, OPEN_BRACE)
        || same_kind(kind, CLOSE_BRACE)
}

/// The blocks that are open behind one more token.
#[tactic(auto, unfolding(rb_meaning_bytes::specs::grammar::Limits::blocks_after))]
fn blocks_after(n: Nesting, kind: TokenKind) -> u32
    requires { n.blocks ≤ 64 }
    ensures { result ≡ limits.blocks_after (nesting_of n) kind }
{
    if opens_block(n, kind) {
        n.blocks + 1
    } else if same_kind(kind, CLOSE_BRACE) {
        n.blocks.saturating_sub(1)
    } else {
        n.blocks
    }
}

/// The types that are open behind one more token.
#[tactic(auto, unfolding(rb_meaning_bytes::specs::grammar::Limits::types_after))]
fn types_after(n: Nesting, kind: TokenKind) -> u32
    requires { n.types ≤ 64 }
    ensures { result ≡ limits.types_after (nesting_of n) kind }
{
    if opens_type(n, kind) {
        n.types + 1
    } else if same_kind(kind, GREATER) {
        n.types.saturating_sub(1)
    } else {
        n.types
    }
}

/// The marks of the outermost expression behind one more token.
#[tactic(auto, unfolding(rb_meaning_bytes::specs::grammar::Limits::marks_after))]
fn marks_after(n: Nesting, kind: TokenKind) -> u32
    requires { n.marks ≤ 200 }
    ensures { result ≡ limits.marks_after (nesting_of n) kind }
{
    if ends_expression(kind) {
        0
    } else if is_mark(n, kind) {
        n.marks + 1
    } else {
        n.marks
    }
}

/// What is open behind one more token.
fn after(n: Nesting, kind: TokenKind) -> Nesting
    requires blocks { n.blocks ≤ 64 }
    requires types { n.types ≤ 64 }
    requires marks { n.marks ≤ 200 }
    ensures { nesting_of result ≡ limits.after (nesting_of n) kind }
{
    Nesting {
        blocks: blocks_after(n, kind),
        types: types_after(n, kind),
        marks: marks_after(n, kind),
        last: kind,
        before: n.last,
    }
}

/// Whether a limit is broken.
fn too_deep(n: Nesting) -> bool
    ensures { result ≡ limits.too_deep (nesting_of n) }
{
    n.blocks > MOST_BLOCKS || n.types > MOST_TYPES || n.marks > MOST_MARKS
}

/// The lists of literals that are open behind one more token.
#[tactic(auto, unfolding(rb_meaning_bytes::specs::grammar::Limits::lists_after))]
fn lists_after(lists: u32, kind: TokenKind) -> u32
    requires { lists ≤ 64 }
    ensures { result ≡ limits.lists_after lists kind }
{
    if same_kind(kind, OPEN_BRACKET) {
        lists + 1
    } else if same_kind(kind, CLOSE_BRACKET) {
        lists.saturating_sub(1)
    } else {
        lists
    }
}

/// How many tokens are left where the first bracket of literals stands that opens a list too many.
fn broken_lists(tokens: &[Token]) -> Option<usize>
    ensures value { result ≡ limits.broken_lists 0 tokens.now }
    ensures within { IfSome result (λ left. (0 < left) × (left ≤ length tokens.now)) }
{
    let mut lists = 0;
    let mut rest = tokens;
    while let [token, behind @ ..] = rest {
        lists = lists_after(lists, token.kind);
        if lists > MOST_LISTS {
            return Some(rest.len());
        }
        rest = behind;
    }
    None
}

/// How many tokens are left where the first token stands with which a limit is broken.
pub(crate) fn broken(tokens: &[Token]) -> Option<usize>
    ensures value { result ≡ limits.broken limits.nothing_open tokens.now }
    ensures within { IfSome result (λ left. (0 < left) × (left ≤ length tokens.now)) }
{
    let mut nesting = Nesting::new();
    let mut rest = tokens;
    while let [token, behind @ ..] = rest {
        if same_kind(token.kind, OBJECT) {
            return broken_lists(behind);
        }
        nesting = after(nesting, token.kind);
        if too_deep(nesting) {
            return Some(rest.len());
        }
        rest = behind;
    }
    None
}
