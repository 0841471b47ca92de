// The versions of payloads.

use rb_trees::Version;

/// The version of a payload: that which its first byte names, and version 1 for any other byte and for none.
pub fn version_of(payload: &[u8]) -> Version {
    match payload {
        [0x02, ..] => Version::Two,
        _ => Version::One,
    }
}
