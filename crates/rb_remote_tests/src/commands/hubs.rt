// `hub E S`: the events of many sessions.

use crate::commands::commands::{Row, expect_rows};
use crate::commands::texts::TABLE;
use std::test::Fail;

/// Events that open 65 sessions.
const CROWD: &str = "\
    open\nopen\nopen\nopen\nopen\nopen\nopen\nopen\nopen\nopen\nopen\nopen\nopen\n\
    open\nopen\nopen\nopen\nopen\nopen\nopen\nopen\nopen\nopen\nopen\nopen\nopen\n\
    open\nopen\nopen\nopen\nopen\nopen\nopen\nopen\nopen\nopen\nopen\nopen\nopen\n\
    open\nopen\nopen\nopen\nopen\nopen\nopen\nopen\nopen\nopen\nopen\nopen\nopen\n\
    open\nopen\nopen\nopen\nopen\nopen\nopen\nopen\nopen\nopen\nopen\nopen\nopen\n";

/// What they show: no more than 64 are open at once.
const CROWDED: &str = "\
    0 opened 0\nopened 1\nopened 2\nopened 3\nopened 4\nopened 5\nopened 6\nopened 7\n\
    opened 8\nopened 9\nopened 10\nopened 11\nopened 12\nopened 13\nopened 14\nopened 15\n\
    opened 16\nopened 17\nopened 18\nopened 19\nopened 20\nopened 21\nopened 22\nopened 23\n\
    opened 24\nopened 25\nopened 26\nopened 27\nopened 28\nopened 29\nopened 30\nopened 31\n\
    opened 32\nopened 33\nopened 34\nopened 35\nopened 36\nopened 37\nopened 38\nopened 39\n\
    opened 40\nopened 41\nopened 42\nopened 43\nopened 44\nopened 45\nopened 46\nopened 47\n\
    opened 48\nopened 49\nopened 50\nopened 51\nopened 52\nopened 53\nopened 54\nopened 55\n\
    opened 56\nopened 57\nopened 58\nopened 59\nopened 60\nopened 61\nopened 62\nopened 63\n\
    event 65 crowded\n";

/// Words, the text of the events `e`, and what is shown. No events change the table of the two files.
const ROWS: &[Row<'static>] = &[
    ("hub e s", "", "0 ", TABLE),
    // The request that began first ends last. No session 7 was opened.
    (
        "hub e s",
        "open\nopen\npiece 0 524201\npiece 1 5242010000000000000006010000000000\npiece 0 0000000000000006010000000000\nclose 0\nclose 7\nclose 1\n",
        "0 opened 0\nopened 1\nreply 1 5242020000000000000006010000000000\nreply 0 5242020000000000000006010000000000\nended 0 requests 1 end\nevent 7 unknown session\nended 1 requests 1 end\n",
        TABLE,
    ),
    // What breaks the form ends the session.
    (
        "hub e s",
        "open\npiece 0 5243\npiece 0 52\n",
        "0 opened 0\nended 0 requests 0 bad frame\nevent 3 unknown session\n",
        TABLE,
    ),
    // A session that is closed within a frame is cut.
    (
        "hub e s",
        "open\npiece 0 52\nclose 0\n",
        "0 opened 0\nended 0 requests 0 cut\n",
        TABLE,
    ),
    // A request that is refused is answered too.
    (
        "hub e s",
        "open\npiece 0 5242010000000000000000\nclose 0\n",
        "0 opened 0\nreply 0 5242030000000000000006010100000000\nended 0 requests 1 end\n",
        TABLE,
    ),
    // The greatest number of a session.
    (
        "hub e s",
        "close 4294967295\n",
        "0 event 1 unknown session\n",
        TABLE,
    ),
    // No more than 64 sessions are open at once.
    ("hub e s", CROWD, CROWDED, TABLE),
    // The first line that is no events is told.
    ("hub e s", "open\npiece 0 5\n", "14 events bad line 2\n", ""),
    ("hub e s", "open", "14 events bad line 1\n", ""),
    ("hub e s", "open\nclose 0", "14 events bad line 2\n", ""),
    ("hub e s", "\n", "14 events bad line 1\n", ""),
    ("hub e s", "Open\n", "14 events bad line 1\n", ""),
    ("hub e s", "open \n", "14 events bad line 1\n", ""),
    ("hub e s", "close\n", "14 events bad line 1\n", ""),
    ("hub e s", "close 00\n", "14 events bad line 1\n", ""),
    ("hub e s", "close +0\n", "14 events bad line 1\n", ""),
    (
        "hub e s",
        "close 4294967296\n",
        "14 events bad line 1\n",
        "",
    ),
    ("hub e s", "piece 0\n", "14 events bad line 1\n", ""),
    ("hub e s", "piece 0 \n", "14 events bad line 1\n", ""),
    ("hub e s", "piece 0 AB\n", "14 events bad line 1\n", ""),
    ("hub e s", "piece 0 ab \n", "14 events bad line 1\n", ""),
    ("hub e s", "piece  0 ab\n", "14 events bad line 1\n", ""),
    // The service counts before the lines of the events, and the events' file before the service's.
    ("hub e n", "open", "6 service 20 NoRoot\n", ""),
    ("hub q n", "", "3 file fault q\n", ""),
    ("hub e q", "open", "3 file fault q\n", ""),
    ("hub e", "", "2 words not understood\n", ""),
    ("hub e s 1", "", "2 words not understood\n", ""),
];

#[test]
fn events_show_what_comes_out_of_a_hub(rt: HostRuntime) -> Result<(), Fail> {
    expect_rows(rt.alloc(), "e", ROWS)
}
