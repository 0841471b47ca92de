//! Reads programs and services: the one tree of the grammar, or the first refusal.
#![tactic(auto)]

mod atoms;
mod builders;
mod declarations;
mod expressions;
mod grammar_laws;
mod kinds;
mod levels;
mod limits;
mod literals;
mod next;
mod reading;
mod service_reading;
mod services;
mod simple;
mod source;
mod statements;
mod stop;
mod types;
mod values;

pub use grammar_laws::{
    every_service_source_has_an_outcome, every_service_token_list_has_an_outcome,
    every_source_has_an_outcome, every_token_list_has_an_outcome, printed_programs_read_back,
    read_programs_are_lawful, read_services_are_lawful, service_sources_have_one_outcome,
    service_token_lists_have_one_outcome, sources_have_one_outcome, token_lists_have_one_outcome,
};
pub use reading::{parse_tokens, tokens_derive_one_program};
pub use service_reading::{parse_service_tokens, tokens_derive_one_service};
pub use source::{parse_program, parse_service};
