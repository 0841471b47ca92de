// Tests of look-ups in code.

pub mod classes;
mod look_ups;
