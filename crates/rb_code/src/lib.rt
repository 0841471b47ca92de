//! The classes of running code, and look-ups in them by name.
//!
//! Contracts see a [`Code`] as the list of its classes; what a look-up finds stands in `specs/Classes` of `rb_trees`.
//! A look-up hashes the name. It takes no longer where there are more classes or methods.
#![tactic(auto)]

mod code;
mod copies;
mod distinct;
mod indexes;
mod names;

pub use code::Code;
pub use distinct::classes_differ;
