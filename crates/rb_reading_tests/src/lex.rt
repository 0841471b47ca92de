// Tests of the lexer.

mod texts;
