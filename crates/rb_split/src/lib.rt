//! The division of a program's batches: of each batch the names of its inputs, its script, and the remainder that is left to
//! the client.
//!
//! What the division of a batch is stands in `specs/Division.antt` of `rb_meaning_split`.
#![tactic(auto)]

mod batches;
mod cuts;
mod division;
mod drafts;
mod exprs;
mod inputs;
mod keeps;
mod loops;
mod numbers;
mod plain;
mod refs;
mod remote;
mod scopes;
mod splits;
mod stops;
mod terms;
mod uses;
mod walk;

pub use splits::{split, split_all};
pub use stops::SplitStop;
