//! Laws that typed code keeps types: it never faults Kind, and what it gives and leaves fits its types.
//!
//! What fits is defined in `rb_meaning_types`, what code means in `rb_meaning_code`. There is no code here; the laws are
//! functions that do nothing.
#![tactic(auto)]

mod code;
mod lawful;
mod operators;
mod remote;
mod scripts;
mod surrounded;

pub use code::{
    batch_code_keeps_types, service_code_ends, service_code_keeps_types, typed_code_keeps_types,
};
pub use lawful::lawful_code_is_formed;
pub use operators::{conditions_have_truths, operators_keep_types, texts_are_caught};
pub use remote::{remote_calls_are_typed, remote_calls_keep_tables};
pub use scripts::{nodes_hold_the_fault, nodes_stay_within_scripts, scripts_keep_tables};
pub use surrounded::{
    FittingSurroundings, StateFact, handled_code_keeps_types, led_code_keeps_types,
};
