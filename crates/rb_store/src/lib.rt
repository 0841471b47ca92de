//! Services as their texts give them: the service, and the table of its objects.
//!
//! What a source is as a service, `ReadsAsService` says in `specs/ServiceSources` of `rb_meaning`; the refusals of objects
//! and the table stand in `specs/Stores` of `rb_meaning_types`.
#![tactic(auto)]

mod checks;
mod indexed;
mod kinds;
mod laws;
mod printing;
mod references;
mod services;
mod sources;
mod tables;
mod values;

pub use laws::{every_source_has_an_outcome_as_a_service, sources_have_one_outcome_as_services};
pub use printing::print_table;
pub use sources::read_service;
