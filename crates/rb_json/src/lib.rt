//! The JSON form of scripts: requests are read from JSON and written as JSON, and what a server answers is written as JSON.
#![tactic(auto)]

mod answers;
mod exprs;
mod laws;
mod names;
mod reader;
mod requests;
mod steps;
mod stops;
mod values;
mod words;
mod writing;

pub use answers::json_answer;
pub use laws::{the_reply_is_that_of_the_wire, what_is_written_reads_back};
pub use requests::read_request;
pub use stops::{JsonRefusal, JsonStop};
pub use writing::requests::write_request;
