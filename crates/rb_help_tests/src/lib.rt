//! Tests of what a person is told of troubles: each sentence once.
#![tactic(auto)]

#[cfg(test)]
mod faults;
#[cfg(test)]
mod mistakes_in_batches;
#[cfg(test)]
mod mistakes_in_declarations;
#[cfg(test)]
mod mistakes_in_flows;
#[cfg(test)]
mod mistakes_in_forms;
#[cfg(test)]
mod mistakes_in_lists;
#[cfg(test)]
mod mistakes_in_services;
#[cfg(test)]
mod mistakes_in_types;
#[cfg(test)]
mod mistakes_in_words;
#[cfg(test)]
mod operands;
#[cfg(test)]
mod outside;
#[cfg(test)]
mod programs;
#[cfg(test)]
mod quotes;
#[cfg(test)]
mod readings;
#[cfg(test)]
mod rows;
#[cfg(test)]
mod tests;
#[cfg(test)]
mod text;
#[cfg(test)]
mod troubles;
#[cfg(test)]
mod typing;
#[cfg(test)]
mod wanted;
