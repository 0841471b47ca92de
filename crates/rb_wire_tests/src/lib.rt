//! Tests of payloads, and of what is shown of trees, tables and endings.
#![tactic(auto)]

#[cfg(test)]
mod digits;
#[cfg(test)]
mod forest;
#[cfg(test)]
mod parts;
#[cfg(test)]
mod payloads;
#[cfg(test)]
mod script;
#[cfg(test)]
mod shown;
#[cfg(test)]
mod versions;
