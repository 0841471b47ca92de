//! Lists of names with an index, so that a name is found without walking its list.
#![tactic(auto)]

mod names;

pub use names::{Names, same_name};
