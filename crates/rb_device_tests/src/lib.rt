//! Tests of the devices of the system, over loopback and over files alone.
#![tactic(auto)]

#[cfg(test)]
mod dials;
#[cfg(test)]
mod disks;
#[cfg(test)]
mod frames;
#[cfg(test)]
mod hosts;
#[cfg(test)]
mod listens;
