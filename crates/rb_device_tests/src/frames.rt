// What goes over a connection: the frames of a request and of its reply.

use std::alloc::Global;
use std::io::Read;
use std::net::TcpStream;
use std::test::Fail;

/// The frame of the request that calls the method of the hosts.
pub const SENT: &[u8] =
    b"RB\x01\x00\x00\x00\x00\x00\x00\x00\x1f\x01\x00\x00\x00\x00\x01\x11\x00\x00\x00\x00\x00\x00\x00\x3b\x26\x00\x00\x00\x3b\x01\x00\x00\x00\x01n\x23\x00\x00\x00\x00";

/// The frame of its reply.
pub const RECEIVED: &[u8] =
    b"RB\x02\x00\x00\x00\x00\x00\x00\x00\x10\x01\x00\x00\x00\x01\x31\x01\x00\x00\x00\x00\x00\x00\x00\x07\x00";

/// The first five bytes of that frame.
pub const RECEIVED_PART: &[u8] = b"RB\x02\x00\x00";

/// The payload of that reply.
pub const REPLY: &[u8] = b"\x01\x00\x00\x00\x01\x31\x01\x00\x00\x00\x00\x00\x00\x00\x07\x00";

/// Fails where something is found that isn't wanted, and says what was.
pub fn expect(is_wanted: bool, found: &str) -> Result<(), Fail> {
    if is_wanted {
        Ok(())
    } else {
        Err(Fail::new(found))
    }
}

/// Reads all bytes that a peer gets, and fails where they are others than are wanted.
pub fn expect_all(alloc: Global, peer: &mut TcpStream, want: &[u8]) -> Result<(), Fail> {
    let mut bytes = Vec::new(alloc);
    peer.read_to_end(&mut bytes)?;
    expect(bytes.as_slice() == want, "a peer gets other bytes")
}
