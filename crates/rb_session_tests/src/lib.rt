//! Tests of answers, sessions, links, diallers and listeners, in memory.
#![tactic(auto)]

#[cfg(test)]
mod base;
#[cfg(test)]
mod ends;
#[cfg(test)]
mod expected;
#[cfg(test)]
mod hosts;
#[cfg(test)]
mod links;
#[cfg(test)]
mod session;
