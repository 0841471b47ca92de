// Tests of scripts as bytes: payloads with their answers, both ways, and the limits of the format.

mod limits;
mod refusals;
pub mod scripts;
mod version_two;
