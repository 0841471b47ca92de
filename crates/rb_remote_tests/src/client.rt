// Tests of the client's run, over links that reply as they like.

pub mod answers;
mod carried;
pub mod changes;
mod honest;
pub mod hosts;
mod misfits;
mod others;
mod replies;
pub mod runs;
