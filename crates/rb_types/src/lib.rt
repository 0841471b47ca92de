//! The type checker of programs and services.
#![tactic(auto)]

mod batches;
mod bodies;
mod call_kinds;
mod checker;
mod classes;
mod context;
mod declarations;
mod expressions;
mod index;
mod interfaces;
mod kinds;
mod members;
mod operators;
mod places;
mod programs;
mod scope;
mod statements;
mod typed;

pub use classes::{Classes, IndexedClass};
pub use context::Declarations;
pub use interfaces::{IndexedInterface, Interfaces};
pub use programs::check_service;
pub use typed::{Typed, check};
