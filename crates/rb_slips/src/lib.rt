//! What is said where a text isn't read: a known slip, what is missing or too much, and what can stand there.
//!
//! [`say_read`] and [`say_read_service`] look for slips of other languages first, which name the mend in one step. Then they
//! let the parser try each of some twenty signs and parts at the place, and tell the change after which the text is read
//! furthest. [`other_word`] tells what a word of another language is here.
#![tactic(auto)]

mod candidates;
mod read_texts;
mod reading_help;
mod repairs;
mod slip_forms;
mod slip_members;
mod slip_texts;
mod slip_values;
mod slip_words;
mod slips;
mod tries;
mod unexpected;

pub use reading_help::{say_read, say_read_service};
pub use slip_words::other_word;
