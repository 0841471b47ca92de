//! Changes of a table by others, applied to a heap.
//!
//! A change gives a field of an object a value, where the object has the field, and its old value and the new one are
//! primitive and of one kind. Any other change is skipped. What a change makes of a table stands in `specs/Changes.antt` of
//! `rb_meaning`.
#![tactic(auto)]

mod bounds;
mod changes;
mod laws;

pub use bounds::are_bounded;
pub use changes::{apply, apply_all};
pub use laws::changes_keep_tables_fitting;
