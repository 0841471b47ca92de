//! Which type is wanted at a place of a text, as far as the text tells it, and what is said where another stands there.
//!
//! [`say_wrong_type`] says what is found, what is wanted and what to do. [`known_type`] is the type of an expression where
//! the text tells it for sure: by literals, by types that are written, and by what operators give.
#![tactic(auto)]

mod known_types;
mod members;
mod standing;
mod type_mends;
mod type_texts;
mod type_words;
mod wanted;
mod wrong_types;

pub use known_types::{Written, known_type, name_of};
pub use members::{Part, member_once};
pub use type_words::written_word;
pub use wrong_types::say_wrong_type;
