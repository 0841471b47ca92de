//! Tests of the commands, by rows of texts.
#![tactic(auto)]

#[cfg(test)]
mod admissions;
#[cfg(test)]
mod answers;
#[cfg(test)]
mod batch_faults;
#[cfg(test)]
mod batches;
#[cfg(test)]
mod carried_loops;
#[cfg(test)]
mod checks;
#[cfg(test)]
mod divisions;
#[cfg(test)]
mod faults;
#[cfg(test)]
mod flows;
#[cfg(test)]
mod local_faults;
#[cfg(test)]
mod local_runs;
#[cfg(test)]
mod outputs;
#[cfg(test)]
mod places;
#[cfg(test)]
mod rows;
#[cfg(test)]
mod runs;
#[cfg(test)]
mod service_classes;
#[cfg(test)]
mod tests;
#[cfg(test)]
mod texts;
#[cfg(test)]
mod trials;
#[cfg(test)]
mod types;
