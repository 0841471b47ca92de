//! What the division of a batch is, and what a client does with the remainder: the definitions that the contracts of the
//! division and of the client cite.
//!
//! They stand in `specs/`, over the mirror of the trees. There is no code here.
#![tactic(auto)]
