//! Lays out the text of a program or a service as the product prints it, with its comments.
//!
//! [`format_program`] reads a program and prints it; [`format_service`] does so with a service and its table. Then the
//! comments of the source are put back among the printed lines. The text that comes out is read once more, so that none
//! is given that means something else. What such a text has to do with its source stands in `specs/Formats`, and what it
//! is beside the printed one in `specs/Woven`.
#![tactic(auto)]

mod lines;
mod parts;
mod programs;
mod services;
mod short;
mod slashes;
mod stops;
mod tokens;
mod weaving;
mod woven;

pub use programs::format_program;
pub use services::format_service;
pub use stops::FormatStop;
