// Places by lines and columns.

use rb_base::place;

/// Offsets of texts, with their lines and columns.
const PLACES: &[(&[u8], u8, (u32, u32))] = &[
    (b"ab\n\ncd", 0, (1, 1)),
    (b"ab\n\ncd", 2, (1, 3)),
    (b"ab\n\ncd", 3, (2, 1)),
    (b"ab\n\ncd", 4, (3, 1)),
    (b"ab\n\ncd", 6, (3, 3)),
    (b"", 0, (1, 1)),
];

#[test]
fn places_count_from_one(rt: HostRuntime) {
    for (text, at, want) in PLACES {
        assert!(rt; usize::from(*at) <= text.len() && place(text, u32::from(*at)) == *want);
    }
}
