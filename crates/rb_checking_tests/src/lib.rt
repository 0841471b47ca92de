//! Tests of what is found of a program before it runs: its types, its marks, its refusals, its division.
#![tactic(auto)]

#[cfg(test)]
mod flow;
#[cfg(test)]
mod marks;
#[cfg(test)]
mod questions;
#[cfg(test)]
mod split;
#[cfg(test)]
mod told;
#[cfg(test)]
mod types;
