// Texts at the limits of the form.

use crate::requests::expect_told;
use rb_json::JsonRefusal;
use rb_trees::{Memory, Seq};
use std::alloc::Global;
use std::test::Fail;

/// A text between a front and an end, so many times: the front, the text, how often, and the end.
type Repeated<'a> = (&'a [u8], &'a [u8], u32, &'a [u8]);

/// Adds a text so many times.
fn add_times(into: &mut Seq<u8>, piece: &[u8], count: u32) -> Result<(), Memory> {
    for _ in 0..count {
        into.extend_from_slice(piece)?;
    }
    Ok(())
}

/// Adds such a text.
fn add_repeated(
    into: &mut Seq<u8>,
    (front, piece, count, end): Repeated<'_>,
) -> Result<(), Memory> {
    into.extend_from_slice(front)?;
    add_times(into, piece, count)?;
    into.extend_from_slice(end)
}

/// Fails where such a text is refused otherwise than so.
fn expect_limit(
    alloc: Global,
    repeated: Repeated<'_>,
    want: Option<JsonRefusal>,
) -> Result<(), Fail> {
    let mut text = Seq::new(alloc);
    add_repeated(&mut text, repeated)?;
    expect_told(alloc, text.as_slice(), want)
}

/// Fails at the first such text that is refused otherwise.
fn expect_limits(alloc: Global, rows: &[(Repeated<'_>, Option<JsonRefusal>)]) -> Result<(), Fail> {
    for (repeated, want) in rows {
        expect_limit(alloc, *repeated, *want)?;
    }
    Ok(())
}

/// A request whose first input is a text.
const TEXT: &[u8] = b"{\"inputs\":[\"";

/// A request whose first input is a list.
const LIST: &[u8] = b"{\"inputs\":[[";

/// A request with inputs.
const INPUTS: &[u8] = b"{\"inputs\":[";

#[test]
fn texts_have_at_most_4096_bytes(rt: HostRuntime) -> Result<(), Fail> {
    let end = b"\"],\"steps\":[]}";
    expect_limits(
        rt.alloc(),
        &[
            ((TEXT, b"a", 4_096, end), None),
            ((TEXT, b"a", 4_097, end), Some(JsonRefusal::WrongForm(2))),
        ],
    )
}

#[test]
fn escapes_count_as_what_they_mean(rt: HostRuntime) -> Result<(), Fail> {
    expect_limits(
        rt.alloc(),
        &[
            ((TEXT, b"\\u00e9", 2_048, b"\"],\"steps\":[]}"), None),
            (
                (TEXT, b"\\u00e9", 2_048, b"a\"],\"steps\":[]}"),
                Some(JsonRefusal::WrongForm(2)),
            ),
        ],
    )
}

#[test]
fn names_have_no_such_limit(rt: HostRuntime) -> Result<(), Fail> {
    let front = b"{\"inputs\":[],\"steps\":[[\"do\",0,0,[\"call\",0,0,\"";
    expect_limit(
        rt.alloc(),
        (front, b"a", 5_000, b"\",[\"root\"],[]]]]}"),
        None,
    )
}

#[test]
fn there_are_at_most_255_inputs(rt: HostRuntime) -> Result<(), Fail> {
    let end = b"1],\"steps\":[]}";
    expect_limits(
        rt.alloc(),
        &[
            ((INPUTS, b"1,", 254, end), None),
            ((INPUTS, b"1,", 255, end), Some(JsonRefusal::WrongForm(1))),
        ],
    )
}

#[test]
fn lists_have_at_most_1000_items_together(rt: HostRuntime) -> Result<(), Fail> {
    expect_limits(
        rt.alloc(),
        &[
            ((LIST, b"1,", 998, b"1],[2]],\"steps\":[]}"), None),
            (
                (LIST, b"1,", 998, b"1],[null,2]],\"steps\":[]}"),
                Some(JsonRefusal::WrongForm(1_002)),
            ),
        ],
    )
}

/// Adds a request whose one expression has so many operators around the root object.
fn add_negated(into: &mut Seq<u8>, count: u32) -> Result<(), Memory> {
    into.extend_from_slice(b"{\"inputs\":[],\"steps\":[[\"do\",0,0,")?;
    add_times(into, b"[\"un\",2,0,", count)?;
    into.extend_from_slice(b"[\"root\"]")?;
    add_times(into, b"]", count)?;
    into.extend_from_slice(b"]]}")
}

/// Fails where such a request is refused otherwise than so.
fn expect_negated(alloc: Global, count: u32, want: Option<JsonRefusal>) -> Result<(), Fail> {
    let mut text = Seq::new(alloc);
    add_negated(&mut text, count)?;
    expect_told(alloc, text.as_slice(), want)
}

#[test]
fn texts_have_at_most_127_levels(rt: HostRuntime) -> Result<(), Fail> {
    expect_negated(rt.alloc(), 123, None)?;
    expect_negated(rt.alloc(), 124, Some(JsonRefusal::NotJson))
}
