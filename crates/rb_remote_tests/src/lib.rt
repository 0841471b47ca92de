//! Tests of clients over links, and of the commands over links and sessions.
#![tactic(auto)]

#[cfg(test)]
mod client;
#[cfg(test)]
mod commands;
