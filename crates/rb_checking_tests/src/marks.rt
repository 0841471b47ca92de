// Tests of marks and places.

pub mod letters;
mod pictures;
