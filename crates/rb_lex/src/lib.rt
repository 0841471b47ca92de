//! The lexer: from a text to its tokens, or to its first fault.
//!
//! What a token is stands in `rb_meaning_bytes`, in `specs/tokens`; [`lex`] is proved to answer exactly that.
#![tactic(auto)]

mod bytes;
mod heads;
mod laws;
mod lexing;
mod literals;
mod numbers;
mod tables;

pub use laws::{every_text_has_an_outcome, outcomes_are_found_by_rests, texts_have_one_outcome};
pub use lexing::{lex, token_slice};
pub use literals::text_value;
pub use numbers::{capped_value, number_value};
