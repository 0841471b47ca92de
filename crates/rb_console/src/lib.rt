//! What a program of the product has to do with the person who starts it: the words that it was started with, how long a
//! connection may be silent, and what is told on standard error behind an answer.
//!
//! None of it changes what a command answers, prints to standard output, or ends with.
#![tactic(auto)]

mod kept_files;
mod telling;
mod timeouts;
mod words;

pub use kept_files::KeptFiles;
pub use telling::tell;
pub use timeouts::timeout_for;
pub use words::{is_plain, words_of};
