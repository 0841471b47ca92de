// Tests of the checker.

pub mod found;
mod services;
mod typed;
