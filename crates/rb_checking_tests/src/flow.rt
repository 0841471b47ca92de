// Tests of admission.

pub mod answers;
mod many;
mod refusals;
