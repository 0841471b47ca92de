//! What programs, scripts and services mean: the definitions that the contracts of the product cite.
//!
//! They stand in `specs/`, over the mirror of the trees. There is no code here.
#![tactic(auto)]
