// Endings of runs, and the number of exchanges.

use crate::parts::word;
use crate::shown::expected::expect;
use rb_shown::{ending_line, exchanges_line};
use rb_trees::{Ending, Fault, Value};
use std::alloc::Global;
use std::test::Fail;

/// A program's text, whose line 2 begins at offset 7.
const SOURCE: &[u8] = b"main {\n  print(1 / 0);\n}\n";

/// Faults: each with its code, its text and its place, and the line of a run that ended so.
static FAULTS: [(u8, &str, u32, &str); 14] = [
    // Each fault has its code and its name.
    (1, "", 15, "fault 1 DivZero at 2:9\n"),
    (2, "", 15, "fault 2 Index at 2:9\n"),
    (3, "", 15, "fault 3 TextTooLong at 2:9\n"),
    (4, "", 15, "fault 4 ListTooLong at 2:9\n"),
    (5, "", 15, "fault 5 HeapFull at 2:9\n"),
    (6, "", 15, "fault 6 TooDeep at 2:9\n"),
    (7, "", 15, "fault 7 FuelUsed at 2:9\n"),
    (9, "", 15, "fault 9 NoMethod at 2:9\n"),
    (10, "", 15, "fault 10 BadArguments at 2:9\n"),
    (11, "", 15, "fault 11 WrongKind at 2:9\n"),
    (12, "", 15, "fault 12 Kind at 2:9\n"),
    // What was thrown is shown.
    (
        8,
        "no \"such\"\n",
        0,
        "fault 8 Thrown \"no \\\"such\\\"\\n\" at 1:1\n",
    ),
    // A place behind the text is its end.
    (12, "", 25, "fault 12 Kind at 4:1\n"),
    (12, "", 4_294_967_295, "fault 12 Kind at 4:1\n"),
];

/// Numbers of exchanges, and their lines.
static EXCHANGES: [(u64, &str); 3] = [
    (0, "exchanges 0\n"),
    (12, "exchanges 12\n"),
    (
        18_446_744_073_709_551_615,
        "exchanges 18446744073709551615\n",
    ),
];

/// Fails unless a run that ended so has this line.
fn ends(alloc: Global, ending: &Ending, line: &str) -> Result<(), Fail> {
    let shown = ending_line(alloc, SOURCE, ending)?;
    expect(&shown, line)
}

/// Fails unless a run that ended by each fault has the line beside it.
fn faults_end(alloc: Global, rows: &[(u8, &str, u32, &str)]) -> Result<(), Fail> {
    for (code, text, at, line) in rows {
        let fault = Fault {
            code: *code,
            text: word(alloc, text)?,
        };
        ends(alloc, &Ending::Faulted(fault, *at), line)?;
    }
    Ok(())
}

#[test]
fn a_run_shows_its_value_or_its_fault(rt: HostRuntime) -> Result<(), Fail> {
    ends(rt.alloc(), &Ending::Done(None), "done\n")?;
    ends(rt.alloc(), &Ending::Done(Some(Value::Int(-7))), "done -7\n")?;
    faults_end(rt.alloc(), &FAULTS)
}

/// Fails unless each number of exchanges has the line beside it.
fn exchanges_are(alloc: Global, rows: &[(u64, &str)]) -> Result<(), Fail> {
    for (count, line) in rows {
        let shown = exchanges_line(alloc, *count)?;
        expect(&shown, line)?;
    }
    Ok(())
}

#[test]
fn exchanges_are_counted(rt: HostRuntime) -> Result<(), Fail> {
    exchanges_are(rt.alloc(), &EXCHANGES)
}
