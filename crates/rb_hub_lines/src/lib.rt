//! The lines of a hub's events, as they are read, and of what comes out of it, as they are shown.
#![tactic(auto)]

mod cutting;
mod finding;
mod reading;
mod showing;
mod texts;
mod words;

pub use reading::{EventsStop, read_events};
pub use showing::{out_line, refusal_line};
pub use texts::event_lines_have_one_reading;
