//! Scripts with the values of their inputs, as bytes and back, in both versions of the wire.
//!
//! The format is data: the tree of fields in `specs/formats` of rb_meaning_bytes says which bytes spell a script and
//! what is violated first in other bytes. [`encode_script`] appends a script's one spelling in a version, and
//! [`decode_script`] gives the script that a payload spells, if it is valid, else the first refusal. One code reads both
//! versions, and one writes them: what differs is how numbers and texts are spelled, and that version 2 has a pool of
//! texts and inputs that are lists.
#![tactic(auto)]

mod checking;
mod codes;
mod collecting;
mod decoding;
mod encoding;
mod exprs;
mod lists;
mod message;
mod names;
mod numbers;
mod operators;
mod pools;
mod steps;
mod texts;
mod values;
mod writing;

pub use checking::{RuleStop, check_script};
pub use decoding::{ScriptStop, decode_script};
pub use encoding::encode_script;
