//! A hub: many sessions at once, over every interleaving of the pieces of their streams.
//!
//! The history of their requests stands in `specs/Histories` of `rb_meaning_frames`, and what comes out by it in
//! `specs/Serial` here.
#![tactic(auto)]

mod asking;
mod delivering;
mod events;
mod hub_link;
mod hubs;
mod passing;
mod performing;
mod replying;
mod runs;
mod seats;
mod serving;

pub use events::{End, Event, HubRefusal, HubStop, Out};
pub use hub_link::{HubLink, HubLinkStop};
pub use hubs::Hub;
pub use runs::{each_step_goes_on, play, play_one};
pub use serving::{HubServeStop, serve_hub};
