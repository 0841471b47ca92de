//! Runs scripts on a service: a [`Host`] holds the service and its table, and [`run_onto`] performs a script there. It appends
//! the bytes of the forest that the script gives, in a version of the wire, while the script runs. [`run_script`] answers the
//! node of that forest.
//!
//! Between scripts others may change the table: [`Host::change`].
//!
//! What a script means stands in `specs/ScriptRun.antt` of `rb_meaning_code`; what is run is proved to be that, whatever
//! the script and its inputs are.
#![tactic(auto)]

mod ends;
mod expressions;
mod holes;
mod host;
mod lent;
mod nodes;
mod places;
mod rules;
mod run;
mod stage;
mod steps;
mod turns;
mod variables;

pub use host::{Host, run_into, run_onto, run_script};
