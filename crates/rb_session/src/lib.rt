//! The server's side of an exchange: the answer to a request, and a link whose server is in the same process.
//!
//! What an answer is stands in `specs/Answers` of `rb_meaning`, and what a link tells in `specs/Links` there.
#![tactic(auto)]

mod answerers;
mod answers;
mod any_link;
mod dials;
mod exchanges;
mod failing_link;
mod frame_link;
mod frames;
mod histories;
mod laws;
mod meddled_link;
mod memory_dial;
mod memory_link;
mod null_dial;
mod places;
mod readings;
mod receiving;
mod requests;
mod serving;
mod sessions;
mod targets;

pub use answerers::Answers;
pub use answers::{answer, perform};
pub use any_link::AnyLink;
pub use dials::{Dial, DialStop};
pub use exchanges::Exchange;
pub use failing_link::FailingLink;
pub use frame_link::FrameLink;
pub use frames::{fill_room, frame_header, leave_room, put_frame};
pub use laws::{each_payload_has_one_answer, sessions_are_fed_anywhere};
pub use meddled_link::MeddledLink;
pub use memory_dial::MemoryDial;
pub use memory_link::MemoryLink;
pub use null_dial::NullDial;
pub use readings::{Ready, read_request};
pub use serving::{ServeCause, ServeStop, Served, serve};
pub use sessions::{Session, SessionStop};
pub use targets::Target;
