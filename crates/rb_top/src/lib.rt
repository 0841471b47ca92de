//! The commands of the product, from words to what they print.
#![tactic(auto)]

mod admission;
mod bad_replies;
mod batch_refusals;
mod both_run;
mod command;
mod dial_run;
mod divisions;
mod hub_run;
mod json_run;
mod keep_run;
mod loaded;
mod loading;
mod numbers;
mod printing;
mod refusals;
mod refusing;
mod run_stops;
mod saying;
mod server;
mod service_refusals;
mod session_lines;
mod sessions;
mod source;
mod status;
mod trial;
mod unsplit_run;
mod words;

pub use command::top;
pub use status::{SourceError, Status};
pub use trial::{trial_program, trial_service};
