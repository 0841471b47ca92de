//! Which flow from a remote call to a part of what is sent is named, and by which chain.
//!
//! What it asks of a program is offered too: what is portable, what holds a remote operation, which loops are carried, and the
//! program's batches.
#![tactic(auto)]

mod admission;
mod batch;
mod chain;
mod earliest;
mod findings;
mod forms;
mod frames;
mod laws;
mod levels;
mod loops;
mod origins;
mod outermost;
mod parts;
mod portable;
mod program;
mod readers;
mod reading;
mod scope;
mod seen;
mod standing;
mod statements;
mod walk;
mod writers;

pub use admission::{AdmitStop, Admitted, admit};
pub use chain::{Reach, chain_to, least_chain, search_levels};
pub use forms::{is_portable_call, placed_form};
pub use laws::{admitted_programs_send_only_portable_parts, each_bad_part_has_a_refusal};
pub use outermost::{OpenBatch, collect_batches};
pub use portable::{is_constant_list, is_portable};
