//! Tests of the journal over disks in memory and in files.
#![tactic(auto)]

#[cfg(test)]
mod crashes;
#[cfg(test)]
mod files;
#[cfg(test)]
mod hosts;
#[cfg(test)]
mod images;
#[cfg(test)]
mod kept;
#[cfg(test)]
mod payloads;
#[cfg(test)]
mod rows;
#[cfg(test)]
mod stores;
