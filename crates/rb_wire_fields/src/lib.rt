//! The fields of messages, as bytes and back: numbers, truth values, texts and primitive values.
//!
//! What bytes spell a field, and what is violated first in other bytes, is said by the fields of `specs/formats` of
//! rb_meaning_bytes. The readers in [`fields`] and [`texts`] read a field at the front of the bytes and give the bytes after
//! it, or tell by a [`stop`] why there is none. Those that take no memory lend texts where they stand. The writers in [`puts`] append a field's spelling to a buffer.
#![tactic(auto)]

pub mod fields;
pub mod groups;
pub mod puts;
pub mod stop;
pub mod texts;
