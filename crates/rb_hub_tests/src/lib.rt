//! Tests of hubs over hosts in memory.
#![tactic(auto)]

#[cfg(test)]
mod events;
#[cfg(test)]
mod expected;
#[cfg(test)]
mod hosts;
#[cfg(test)]
mod limited;
#[cfg(test)]
mod links;
#[cfg(test)]
mod orders;
#[cfg(test)]
mod rows;
#[cfg(test)]
mod serving;
#[cfg(test)]
mod streams;
