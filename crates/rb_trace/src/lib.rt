//! Exchanges that are watched: links and Dials that pass everything on, and what is told of each exchange.
//!
//! A [`WatchedDial`] stands around another Dial, and its links are [`WatchedLink`]s around those of that one. Both keep the
//! contracts of what they stand around, so a run over them is the same run. Whoever watches is a [`Watch`]: it sees each request
//! and what came of it, and can change neither. [`Tracer`] tells them on standard error.
#![tactic(auto)]

mod answers;
mod batches;
mod entries;
mod requests;
mod tracer;
mod watched_dial;
mod watched_link;
mod watches;

pub use answers::answer_text;
pub use batches::Batches;
pub use requests::request_text;
pub use tracer::Tracer;
pub use watched_dial::WatchedDial;
pub use watched_link::WatchedLink;
pub use watches::Watch;
