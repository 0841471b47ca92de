//! The words and signs of a text, found without judging them, and the pages on which something is said of them.
//!
//! [`Pieces`] are the words, literals and signs of any text, be it read or refused. [`around`] tells what stands around one
//! of them, [`declarations`] where a name is declared, and [`spans`] where expressions begin and end. A [`Page`] takes
//! sentences that name pieces; each name is written as it is shown ([`shown`]).
#![tactic(auto)]

pub mod around;
pub mod declarations;
mod page;
mod pieces;
mod showing;
pub mod spans;

pub use page::{Help, OUT_OF_MEMORY, Page};
pub use pieces::Pieces;
pub use showing::shown;
