//! The definitions of class code: values, operators, faults, and what code means whatever surrounds it; and the laws
//! that hold of whatever code means.
//!
//! The definitions stand in `specs/`, over the mirror of the trees, with lemmas on them in `proofs/`. There is no code
//! here; the laws are functions that do nothing.
#![tactic(auto)]

mod laws;
mod surroundings;

pub use laws::{
    code_leaves_later_states, handled_code_leaves_later_states, later_is_an_order,
    led_code_leaves_later_states, led_runs_are_handled, more_gas_is_handled_the_same,
    more_gas_is_led_the_same, more_gas_is_the_same_run,
};
pub use surroundings::{SeenAs, Surroundings};
