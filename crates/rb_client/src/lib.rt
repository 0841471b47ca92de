//! The client's run of a divided program, over any link: at each batch the script is sent, and the remainder is performed on
//! the node that is replied.
//!
//! What a client does with a remainder stands in `specs/` of `rb_meaning_split`; what is run is proved to be that.
#![tactic(auto)]

mod client_run;
mod client_world;
mod divisions;
mod early;
mod faults;
mod inputs;
mod laws;
mod lines;
mod lists;
mod pieces;
mod plan;
mod replay;
mod replay_world;
mod replies;
mod requests;
mod stops;

pub use client_run::run_client;
pub use stops::{BadReason, RunStop};
