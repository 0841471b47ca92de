//! The lines that runs and tables print: a run's ending, the number of exchanges, and the objects of a table. And the view of a
//! batch's division.
//!
//! What each line of a run is stands in `specs/Shown` of `rb_meaning`, and what a view is in `specs/Views`.
#![tactic(auto)]

mod endings;
mod exchanges;
mod faults;
mod literals;
mod objects;
mod places;
mod primitives;
mod views;

pub use endings::ending_line;
pub use exchanges::exchanges_line;
pub use literals::add_literal;
pub use objects::object_line;
pub use views::{add_parts, add_steps, split_view};
