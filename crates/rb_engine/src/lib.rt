//! Runs class code of both sides: expressions, statements and calls of methods, over a [`World`] that answers what the
//! code asks of its surroundings.
//!
//! [`invoke`] performs a remote call on a service, and a [`Server`] holds a service's table between such calls. What
//! operators give is offered to whoever evaluates by them.
//!
//! What code means stands in `specs/` of `rb_meaning_code`; what is run is proved to be that.
#![tactic(auto)]

mod accessors;
mod args;
mod asking;
mod calls;
mod conditions;
mod control;
mod ends;
mod engine;
mod expressions;
mod faults;
mod frame;
mod kinds;
mod later;
mod machine;
mod misses;
mod name;
mod names;
mod numbers;
mod objects;
mod operand;
mod operators;
mod pairs;
mod remote;
mod seen;
mod server;
mod service;
mod state;
mod statements;
mod sums;
mod taken;
mod targets;
mod units;
mod world;

pub use conditions::{truth_in, truth_of};
pub use ends::{End, Failure};
pub use engine::{call, eval, eval_early, exec, exec_early, exec_slice};
pub use faults::PlainFault;
pub use frame::Frame;
pub use misses::{Miss, at_place, missed};
pub use operand::Operand;
pub use operators::on_one;
pub use pairs::{by_left, on_two};
pub use rb_code::Code;
pub use remote::invoke;
pub use server::Server;
pub use service::ServiceWorld;
pub use state::State;
pub use world::{Halt, RunResult, World};
