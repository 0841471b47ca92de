//! The definitions of marks and admission: where each part of a batch is performed, which chains of
//! writers lead remote results back to the remote, and which batches are refused.
//!
//! They stand in `specs/`, over the mirror of the trees, with lemmas on them in `proofs/`. The types
//! here are plain ones that the definitions name.
#![tactic(auto)]

mod forms;
mod scopes;

pub use forms::PlacedForm;
pub use scopes::{Role, Variable};
