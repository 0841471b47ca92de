// Tests of the division of batches: divisions as texts.

pub mod divided;
mod divisions;
mod limits;
mod parts;
mod steps;
