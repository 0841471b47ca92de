//! Tests of running code: the heap, look-ups, class code, scripts, and the tables of services.
#![tactic(auto)]

#[cfg(test)]
mod code;
#[cfg(test)]
mod engine;
#[cfg(test)]
mod exec;
#[cfg(test)]
mod heap;
#[cfg(test)]
mod store;
#[cfg(test)]
mod told;
