// Remote calls: the kinds of results, the order of the checks, and where faults stand.

use crate::engine::service::{Call, answered, code};
use rb_engine::Code;
use std::alloc::Global;
use std::test::Fail;

/// Methods that take nothing, and of which of the kinds from 0 to 9 their results are.
static KINDS: [(&str, &[u8; 10]); 11] = [
    ("unit", b"y........."),
    ("int", b".y........"),
    ("bool", b"..y......."),
    ("text", b"...y......"),
    ("self", b"....y....."),
    ("ints", b".....y...."),
    ("bools", b"......y..."),
    ("texts", b".......y.."),
    ("selves", b"........y."),
    ("none", b".....yyyy."),
    ("mixed", b".........."),
];

/// Calls, each with the code of the first check that fails, or 0.
static CALLS: [(Call, u8); 21] = [
    // The first check that fails is told: of the receiver, the method, the arguments, the fuel, the result.
    ((None, "nosuch", "i", 0, 0), 12),
    ((Some(9), "add", "t", 0, 0), 9),
    ((Some(0), "nosuch", "t", 0, 0), 9),
    ((Some(0), "add", "t", 0, 0), 10),
    ((Some(0), "add", "", 0, 0), 10),
    ((Some(0), "add", "ii", 0, 0), 10),
    ((Some(0), "add", "i", 0, 0), 7),
    ((Some(0), "add", "i", 1, 0), 11),
    ((Some(0), "fails", "", 9, 0), 1),
    ((Some(0), "deep", "", 99, 0), 6),
    ((Some(0), "loops", "", 99, 0), 7),
    // Arguments are taken by their types.
    ((Some(0), "add", "i", 1_000, 1), 0),
    ((Some(0), "not", "b", 1_000, 2), 0),
    ((Some(0), "say", "t", 1_000, 3), 0),
    ((Some(0), "same", "o", 1_000, 4), 0),
    ((Some(0), "same", "p", 1_000, 0), 10),
    ((Some(0), "same", "q", 1_000, 0), 10),
    ((Some(0), "same", "i", 1_000, 0), 10),
    ((Some(0), "count", "r", 1_000, 0), 10),
    ((Some(0), "pick", "ibto", 1_000, 4), 0),
    ((Some(0), "pick", "ibot", 1_000, 0), 10),
];

/// Fails where a call isn't answered by this code.
fn expect_code(alloc: Global, code: &Code, call: &Call, wanted: u8) -> Result<(), Fail> {
    let answer = answered(alloc, code, call)?;
    if answer == wanted {
        return Ok(());
    }
    let (_, method, letters, fuel, kind) = call;
    Err(Fail::new(format_args!(
        "code {answer} in place of {wanted}, at {method} with {letters}, fuel {fuel}, kind {kind}"
    )))
}

/// Fails at the first kind that a method's result is of and shouldn't be, or the other way round.
fn expect_kinds(
    alloc: Global,
    code: &Code,
    method: &'static str,
    kinds: &[u8],
) -> Result<(), Fail> {
    for (kind, letter) in (0u8..10).zip(kinds) {
        let wanted = if *letter == b'y' { 0 } else { 11 };
        expect_code(alloc, code, &(Some(0), method, "", 1_000, kind), wanted)?;
    }
    Ok(())
}

/// Fails where a method's result is of other kinds than stand beside it.
fn expect_all_kinds(alloc: Global, code: &Code) -> Result<(), Fail> {
    for (method, kinds) in &KINDS {
        expect_kinds(alloc, code, method, kinds.as_slice())?;
    }
    Ok(())
}

/// Fails where a call isn't answered by the code that stands beside it.
fn expect_codes(alloc: Global, code: &Code) -> Result<(), Fail> {
    for (call, wanted) in &CALLS {
        expect_code(alloc, code, call, *wanted)?;
    }
    Ok(())
}

#[test]
fn the_first_check_that_fails_is_told_and_results_are_of_one_kind(
    rt: HostRuntime,
) -> Result<(), Fail> {
    let code = code(rt.alloc())?;
    expect_codes(rt.alloc(), &code)?;
    expect_all_kinds(rt.alloc(), &code)
}
