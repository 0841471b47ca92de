//! The bytes of a payload, of frames or of a journal, shown piece by piece: where each field stands, and what it is.
//!
//! [`dump`] reads scripts, forests and refusals of both versions by the readers of the codecs, and tells what their decoders
//! say. [`dump_text`] writes what was found as lines. `docs/wire.md` and `docs/journal.md` tell
//! the formats.
#![tactic(auto)]

mod dumping;
mod dumps;
mod fields;
mod frames;
mod journals;
mod leaves;
mod listing;
mod messages;
mod names;
mod pieces;
mod reader;
mod readings;
mod tags;
mod verdicts;
mod walk;

pub use dumping::dump;
pub use dumps::{Dump, Form};
pub use fields::Message;
pub use listing::dump_text;
pub use pieces::Piece;
pub use verdicts::Verdict;
