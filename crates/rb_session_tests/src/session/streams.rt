// Streams of requests, and of their replies.

/// A request without steps, in its frame.
pub const EMPTY: &[u8] = b"RB\x01\x00\x00\x00\x00\x00\x00\x00\x06\x01\x00\x00\x00\x00\x00";

/// The reply to it.
pub const EMPTY_REPLY: &[u8] = b"RB\x02\x00\x00\x00\x00\x00\x00\x00\x06\x01\x00\x00\x00\x00\x00";

/// The front of that reply that two writes of seven bytes take.
pub const FRONT: &[u8] = b"RB\x02\x00\x00\x00\x00\x00\x00\x00\x06\x01\x00\x00";

/// The request without its last byte.
pub const SHORT: &[u8] = b"RB\x01\x00\x00\x00\x00\x00\x00\x00\x05\x01\x00\x00\x00\x00";

/// The reply to it: what is read ends at offset 5.
pub const SHORT_REPLY: &[u8] = b"RB\x03\x00\x00\x00\x00\x00\x00\x00\x06\x01\x01\x00\x00\x00\x05";

/// A request without steps in version 2.
pub const OTHER: &[u8] = b"RB\x01\x00\x00\x00\x00\x00\x00\x00\x04\x02\x00\x00\x00";

/// The reply to it.
pub const OTHER_REPLY: &[u8] = b"RB\x02\x00\x00\x00\x00\x00\x00\x00\x06\x02\x00\x00\x00\x00\x00";

/// The same request without its last byte.
pub const OTHER_SHORT: &[u8] = b"RB\x01\x00\x00\x00\x00\x00\x00\x00\x03\x02\x00\x00";

/// The reply to it: what is read ends at offset 3.
pub const OTHER_SHORT_REPLY: &[u8] = b"RB\x03\x00\x00\x00\x00\x00\x00\x00\x03\x02\x01\x03";
