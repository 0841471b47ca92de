//! The definitions on bytes: tokens, the grammar of programs and services, and the wire.
//!
//! They stand in `specs/`, over the mirror of the trees. There is no code here but the laws of the wire's formats, which
//! are functions that do nothing. The laws of tokens and of the grammar are functions of the crates that read them.
#![tactic(auto)]

mod laws;

pub use laws::{
    each_forest_has_one_spelling, each_payload_is_spelled_or_violated,
    each_refusal_has_one_spelling, each_script_has_one_spelling, each_step_has_a_byte,
    forests_have_a_version, no_payload_is_both, no_spelling_begins_another,
    payloads_have_one_violation, payloads_name_their_version, refusals_have_numbers,
    script_payloads_mean_one_thing, the_code_has_its_size, valid_scripts_are_within_limits,
};
