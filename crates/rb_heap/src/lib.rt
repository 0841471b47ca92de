//! The heap of running code: at most 100,000 objects, each numbered by its place from 0.
//!
//! Contracts see a [`Heap`] as the list of its objects; what a field's value is and what writing it makes of the list
//! stands in `specs/Objects` of `rb_trees`.
//!
//! A copy of a heap shares the values of each object with it: the copy counts one owner more, and copies no values. A write
//! to an object whose values have another owner gives it a list of its own first, so that the other heap keeps what it had.
//!
//! Fields are lists of names with values, found by walking their list. What a look-up finds, and what a write leaves, stands in
//! `specs/Named` of `rb_trees` and in `specs/Writes` here.
#![tactic(auto)]

mod heap;
mod layouts;
mod names;
mod parts;
mod stops;
mod stored;
mod values;

pub use heap::{Heap, View};
pub use stops::{AddStop, SetStop};
