//! What frames, streams of requests and their replies are: the definitions that sessions and links cite.
//!
//! They stand in `specs/`. There is no code here but their laws, which are functions that do nothing.
#![tactic(auto)]

mod laws;

pub use laws::{
    each_session_is_in_order, each_stream_is_divided_once, headers_are_spelled, histories_go_on,
    streams_are_cut_anywhere, streams_are_read,
};
