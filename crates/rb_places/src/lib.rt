//! Lines and columns of the places of a text, found without walking it from its start.
#![tactic(auto)]

mod places;

pub use places::Places;
