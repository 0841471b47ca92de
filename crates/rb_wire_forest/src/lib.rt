//! Forests and refusals as bytes, both ways, in each version of the wire; and whether a node fits a remainder.
//!
//! A server answers a script with a forest, or with a refusal. A [`Forest`] is seen in its bytes, and a [`Cursor`] walks it
//! there, without memory: entry by entry, or past what is left of a node ([`Cursor::close`]). [`Forest::fits`] tells of the
//! bytes what [`fits`] tells of a tree. What bytes spell forests and refusals, and what is
//! violated first in other bytes, is said by their formats (`specs/formats` of rb_meaning_bytes);
//! `docs/forests.md` tells it in prose.
#![tactic(auto)]

mod cursor;
mod decoding;
mod early;
mod encoding;
mod fitting;
mod forest;
mod forest_fitting;
mod forest_walk;
mod frames;
mod heads;
mod nodes;
mod refusals;
mod scan;
mod skips;
mod turns;
mod walk;
mod writing;

pub use cursor::Cursor;
pub use decoding::{ForestStop, decode_forest};
pub use encoding::encode_forest;
pub use fitting::{Misfit, fits};
pub use forest::Forest;
pub use heads::LentFault;
pub use rb_wire_fields::texts::Item;
pub use refusals::{decode_refusal, encode_refusal};
pub use scan::{ForestRefusal, scan_forest};
