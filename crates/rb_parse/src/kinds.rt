// The kinds of the language's keywords and signs, by name.

use rb_trees::TokenKind;

pub(crate) const INTERFACE: TokenKind = TokenKind::Keyword(0);

pub(crate) const CLASS: TokenKind = TokenKind::Keyword(1);

pub(crate) const FUN: TokenKind = TokenKind::Keyword(2);

pub(crate) const REMOTE: TokenKind = TokenKind::Keyword(3);

pub(crate) const MAIN: TokenKind = TokenKind::Keyword(4);

pub(crate) const VAL: TokenKind = TokenKind::Keyword(5);

pub(crate) const VAR: TokenKind = TokenKind::Keyword(6);

pub(crate) const IF: TokenKind = TokenKind::Keyword(7);

pub(crate) const ELSE: TokenKind = TokenKind::Keyword(8);

pub(crate) const FOR: TokenKind = TokenKind::Keyword(9);

pub(crate) const IN: TokenKind = TokenKind::Keyword(10);

pub(crate) const WHILE: TokenKind = TokenKind::Keyword(11);

pub(crate) const TRY: TokenKind = TokenKind::Keyword(12);

pub(crate) const CATCH: TokenKind = TokenKind::Keyword(13);

pub(crate) const THROW: TokenKind = TokenKind::Keyword(14);

pub(crate) const RETURN: TokenKind = TokenKind::Keyword(15);

pub(crate) const BATCH: TokenKind = TokenKind::Keyword(16);

pub(crate) const PRINT: TokenKind = TokenKind::Keyword(17);

pub(crate) const LEN: TokenKind = TokenKind::Keyword(18);

pub(crate) const STR: TokenKind = TokenKind::Keyword(19);

pub(crate) const NEW: TokenKind = TokenKind::Keyword(20);

pub(crate) const THIS: TokenKind = TokenKind::Keyword(21);

pub(crate) const TRUE: TokenKind = TokenKind::Keyword(22);

pub(crate) const FALSE: TokenKind = TokenKind::Keyword(23);

pub(crate) const LIST: TokenKind = TokenKind::Keyword(24);

pub(crate) const ROWS: TokenKind = TokenKind::Keyword(25);

pub(crate) const INT: TokenKind = TokenKind::Keyword(26);

pub(crate) const BOOL: TokenKind = TokenKind::Keyword(27);

pub(crate) const TEXT: TokenKind = TokenKind::Keyword(28);

pub(crate) const UNIT: TokenKind = TokenKind::Keyword(29);

pub(crate) const OBJECT: TokenKind = TokenKind::Keyword(30);

pub(crate) const ROOT: TokenKind = TokenKind::Keyword(31);

pub(crate) const EQUAL: TokenKind = TokenKind::Sign(0);

pub(crate) const UNEQUAL: TokenKind = TokenKind::Sign(1);

pub(crate) const AT_MOST: TokenKind = TokenKind::Sign(2);

pub(crate) const AT_LEAST: TokenKind = TokenKind::Sign(3);

pub(crate) const AND: TokenKind = TokenKind::Sign(4);

pub(crate) const OR: TokenKind = TokenKind::Sign(5);

pub(crate) const LESS: TokenKind = TokenKind::Sign(6);

pub(crate) const GREATER: TokenKind = TokenKind::Sign(7);

pub(crate) const ASSIGN: TokenKind = TokenKind::Sign(8);

pub(crate) const PLUS: TokenKind = TokenKind::Sign(9);

pub(crate) const MINUS: TokenKind = TokenKind::Sign(10);

pub(crate) const STAR: TokenKind = TokenKind::Sign(11);

pub(crate) const SLASH: TokenKind = TokenKind::Sign(12);

pub(crate) const PERCENT: TokenKind = TokenKind::Sign(13);

pub(crate) const NOT: TokenKind = TokenKind::Sign(14);

pub(crate) const DOT: TokenKind = TokenKind::Sign(15);

pub(crate) const COMMA: TokenKind = TokenKind::Sign(16);

pub(crate) const SEMICOLON: TokenKind = TokenKind::Sign(17);

pub(crate) const COLON: TokenKind = TokenKind::Sign(18);

pub(crate) const OPEN: TokenKind = TokenKind::Sign(19);

pub(crate) const CLOSE: TokenKind = TokenKind::Sign(20);

pub(crate) const OPEN_BRACE: TokenKind = TokenKind::Sign(21);

pub(crate) const CLOSE_BRACE: TokenKind = TokenKind::Sign(22);

pub(crate) const OPEN_BRACKET: TokenKind = TokenKind::Sign(23);

pub(crate) const CLOSE_BRACKET: TokenKind = TokenKind::Sign(24);

pub(crate) const NUMBER_SIGN: TokenKind = TokenKind::Sign(25);
