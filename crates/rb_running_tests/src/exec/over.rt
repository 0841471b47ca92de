// Steps over lists.
//
// Scripts are payloads of version 2, which docs/wire.md tells byte by byte. Each has one input, a list; step 2 goes over it and
// keeps a value for each item in step 3; and step 4 keeps 7.

use crate::exec::files::{Inputs, add_script, host};
use crate::told::expect;
use rb_trees::{Seq, StoreError, Version, Word};
use std::alloc::Global;
use std::test::Fail;

/// What is shown, a script, the inputs that it is run with, and what it gives.
type Case = (&'static str, &'static [u8], Inputs, &'static str);

/// Step 3 keeps the item. The list is 4, 5, 6.
const ITEMS: &[u8] =
    b"\x02\0\x01\x04\x03\x01\x08\x01\x0a\x01\x0c\x02\x15\x02\x66\x01\0\x01\x11\x03\x67\x22\x01\x11\x04\x68\x20\x01\x0e";

/// The same of a list without items.
const NO_ITEMS: &[u8] =
    b"\x02\0\x01\x04\0\x02\x15\x02\x66\x01\0\x01\x11\x03\x67\x22\x01\x11\x04\x68\x20\x01\x0e";

/// Step 3 keeps the quotient of 6 and the item, at position 1. The list is 3, 0, 2.
const QUOTIENTS: &[u8] =
    b"\x02\0\x01\x04\x03\x01\x06\x01\0\x01\x04\x02\x15\x02\x66\x01\0\x01\x11\x03\x67\x25\x04\x01\x20\x01\x0c\x22\x01\x11\x04\x68\x20\x01\x0e";

/// Step 1 goes over the service's numbers, with step 2 in it, and step 3 keeps the product of number and item. The list is 10,
/// 20.
const PRODUCTS: &[u8] =
    b"\x02\x01\x07numbers\x01\x04\x02\x01\x14\x01\x28\x02\x14\x01\x65\x02\0\x26\x02\x05\0\x23\0\x01\x15\x02\x66\x01\0\x01\x11\x03\x67\x25\x03\x01\x22\x02\x22\x01\x11\x04\x68\x20\x01\x0e";

/// Step 3 keeps 1. The list has no items.
const ONES: &[u8] =
    b"\x02\0\x01\x04\0\x02\x15\x02\x66\x01\0\x01\x11\x03\x67\x20\x01\x02\x11\x04\x68\x20\x01\x0e";

static CASES: [Case; 6] = [
    (
        "each item has a turn",
        ITEMS,
        Inputs::Own,
        "[(4 )(5 )(6 )] 7 ",
    ),
    (
        "a list without items has no turn",
        NO_ITEMS,
        Inputs::Own,
        "[] 7 ",
    ),
    (
        "a turn that faults is the last",
        QUOTIENTS,
        Inputs::Own,
        "[(2 )(!1@1#3)] ",
    ),
    (
        "each row has all items",
        PRODUCTS,
        Inputs::Own,
        "[([(10 )(20 )] )([(20 )(40 )] )([(30 )(60 )] )] 7 ",
    ),
    (
        "what is no list has no turns",
        ONES,
        Inputs::Int(1),
        "!12@102#2",
    ),
    (
        "what isn't there has no turns",
        ONES,
        Inputs::None,
        "!12@102#2",
    ),
];

/// Adds what the script of a case gives on a host of its own, by the bytes of its forest in a version.
fn add_case(
    alloc: Global,
    case: &Case,
    version: Version,
    into: &mut Word,
) -> Result<(), StoreError> {
    let mut host = host(alloc)?;
    Ok(add_script(alloc, &mut host, case.1, case.2, version, into)?)
}

/// Fails where the script of a case gives something else than is wanted, in a version.
fn expect_case(alloc: Global, case: &Case, version: Version) -> Result<(), Fail> {
    let mut told = Seq::new(alloc);
    add_case(alloc, case, version, &mut told)?;
    expect(case.0, told.as_slice(), case.3)
}

/// Fails where one of these scripts gives something else than is wanted, in either version.
pub fn expect_cases(alloc: Global) -> Result<(), Fail> {
    for case in &CASES {
        expect_case(alloc, case, Version::One)?;
        expect_case(alloc, case, Version::Two)?;
    }
    Ok(())
}
