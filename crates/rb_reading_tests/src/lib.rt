//! Tests of trees, and of the way from text to tokens to trees.
#![tactic(auto)]

#[cfg(test)]
mod expected;
#[cfg(test)]
mod lex;
#[cfg(test)]
mod parse;
#[cfg(test)]
mod trees;
