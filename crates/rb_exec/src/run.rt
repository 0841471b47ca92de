// A script while it runs.

use crate::variables::Variables;
use bytes::BytesMut;
use rb_engine::Server;

/// What changes while a script runs: the server, the script's variables, and the bytes that end with its node so far.
#[derive(Drop)]
pub struct Run {
    pub server: Server,
    pub variables: Variables,
    pub bytes: BytesMut,
}
