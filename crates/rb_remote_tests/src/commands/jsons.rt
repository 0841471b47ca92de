// `json S R`: requests in JSON.

use crate::commands::commands::{Row, expect_rows};
use crate::commands::texts::TABLE;
use std::test::Fail;

/// Words, the text of the request `r`, and what is shown.
const ROWS: &[Row<'static>] = &[
    // Requests that leave the table as it is.
    (
        "json s r",
        r#"{"inputs":[],"steps":[]}"#,
        "0 {\"entries\":[],\"fault\":null}\n",
        TABLE,
    ),
    (
        "json s r",
        r#"{"inputs":[],"steps":[["do",0,9,["call",9,4,"file",["root"],[["lit",7]]]]]}"#,
        "0 {\"entries\":[],\"fault\":[0,9,2,\"\"]}\n",
        TABLE,
    ),
    (
        "json s r",
        r#" { "steps" : [["keep", 3, 0, ["bin", 1, 0, ["in", 0], ["lit", 2]]]], "inputs" : [40] } "#,
        "0 {\"entries\":[[\"value\",42]],\"fault\":null}\n",
        TABLE,
    ),
    (
        "json s r",
        r#"{"inputs":[[1,0]],"steps":[["over",0,5,0,0,[["keep",1,6,["call",6,3,"name",["call",7,4,"file",["root"],[["var",0]]],[]]]]]]}"#,
        "0 {\"entries\":[[\"rows\",[{\"entries\":[[\"value\",\"bb\"]],\"fault\":null},{\"entries\":[[\"value\",\"a\"]],\"fault\":null}]]],\"fault\":null}\n",
        TABLE,
    ),
    (
        "json s r",
        r#"{"inputs":[],"steps":[["keep",0,0,["var",5]]]}"#,
        "0 {\"refusal\":[11,0]}\n",
        TABLE,
    ),
    (
        "json d r",
        r#"{"inputs":[],"steps":[["keep",0,59,["call",59,1,"n",["root"],[]]]]}"#,
        "0 {\"entries\":[[\"value\",7]],\"fault\":null}\n",
        "object 0: D { }\n",
    ),
    // A performed request leaves its table.
    (
        "json s r",
        r#"{"inputs":[5],"steps":[["do",0,0,["call",0,0,"grow",["call",0,4,"file",["root"],[["lit",1]]],[["in",0]]]]]}"#,
        "0 {\"entries\":[],\"fault\":null}\n",
        "object 0: Dir { list = [#1, #2]; }\nobject 1: File { name = \"a\"; size = 10; }\nobject 2: File { name = \"bb\"; size = 205; }\n",
    ),
    // A request that is none is told.
    ("json s r", "{", "17 json 1 NotJson\n", ""),
    ("json s r", "", "17 json 1 NotJson\n", ""),
    (
        "json s r",
        r#"{"inputs":[],"steps":[7]}"#,
        "17 json 2 WrongForm at 3\n",
        "",
    ),
    ("json s r", "[]", "17 json 2 WrongForm at 0\n", ""),
    // The service's file and its refusal count before the request's file, and that before what the request is.
    ("json q p", "{", "3 file fault q\n", ""),
    ("json n p", "{", "6 service 20 NoRoot\n", ""),
    ("json s p", "{", "3 file fault p\n", ""),
    ("json s", "", "2 words not understood\n", ""),
    ("json s r 1", "", "2 words not understood\n", ""),
];

#[test]
fn a_request_in_json_is_answered(rt: HostRuntime) -> Result<(), Fail> {
    expect_rows(rt.alloc(), "r", ROWS)
}
