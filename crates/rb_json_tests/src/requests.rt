// Texts, and what they mean as requests.

use rb_json::{JsonRefusal, JsonStop, read_request, write_request};
use rb_trees::Memory;
use std::alloc::Global;
use std::test::Fail;

/// What is told of a text: why it is no request, or whether the request that it is, written again, is that text.
#[derive(Clone, Copy)]
enum Judged {
    Refused(JsonRefusal),
    Read(bool),
}

fn told(alloc: Global, text: &[u8]) -> Result<Judged, Memory> {
    match read_request(alloc, text) {
        Ok((script, values)) => match write_request(alloc, &script, values.as_slice()) {
            Ok(again) => Ok(Judged::Read(again.as_slice() == text)),
            Err(memory) => Err(memory),
        },
        Err(JsonStop::Refused(refusal)) => Ok(Judged::Refused(refusal)),
        Err(JsonStop::Memory) => Err(Memory),
    }
}

/// Fails where it is refused otherwise than so.
pub fn expect_refusal(found: Option<JsonRefusal>, want: Option<JsonRefusal>) -> Result<(), Fail> {
    if found == want {
        Ok(())
    } else {
        Err(Fail::new(format_args!("{found:?} in place of {want:?}")))
    }
}

/// Fails where a text is refused otherwise than so.
pub fn expect_told(alloc: Global, text: &[u8], want: Option<JsonRefusal>) -> Result<(), Fail> {
    let found = match told(alloc, text)? {
        Judged::Refused(refusal) => Some(refusal),
        Judged::Read(_) => None,
    };
    expect_refusal(found, want)
}

/// Fails at the first text that isn't refused so.
fn expect_all_refused(alloc: Global, texts: &[&[u8]], want: JsonRefusal) -> Result<(), Fail> {
    for text in texts {
        expect_told(alloc, text, Some(want))?;
    }
    Ok(())
}

#[test]
fn texts_that_are_no_json(rt: HostRuntime) -> Result<(), Fail> {
    let rows: &[&[u8]] = &[
        b"",
        b"{",
        b"{\"inputs\":[],\"steps\":[]",
        b"{\"inputs\":[],\"steps\":[]} x",
        b"{\"inputs\":[],\"steps\":[],}",
        b"{\"inputs\":[1e400],\"steps\":[]}",
        b"{\"inputs\":[\"\xff\"],\"steps\":[]}",
        b"{\"inputs\":[\"\\ud800\"],\"steps\":[]}",
    ];
    expect_all_refused(rt.alloc(), rows, JsonRefusal::NotJson)
}

/// Fails at the first text of which another value than this one breaks the form first.
fn expect_wrong_forms(alloc: Global, rows: &[(&[u8], u32)]) -> Result<(), Fail> {
    for (text, place) in rows {
        expect_told(alloc, text, Some(JsonRefusal::WrongForm(*place)))?;
    }
    Ok(())
}

#[test]
fn the_first_value_that_breaks_the_form_is_told(rt: HostRuntime) -> Result<(), Fail> {
    let rows: &[(&[u8], u32)] = &[
        // the request itself
        (b"7", 0),
        (b"[]", 0),
        (b"{}", 0),
        (b"{\"inputs\":[]}", 0),
        (b"{\"inputs\":[],\"steps\":[],\"more\":0}", 0),
        (b"{\"input\":[],\"steps\":[]}", 0),
        (b"{\"inputs\":0,\"steps\":[]}", 1),
        (b"{\"steps\":7,\"inputs\":[1,2]}", 4),
        (b"{\"inputs\":[],\"steps\":[7]}", 3),
        // values
        (b"{\"inputs\":[null],\"steps\":[]}", 2),
        (b"{\"inputs\":[1,1.0],\"steps\":[]}", 3),
        (b"{\"inputs\":[1e0],\"steps\":[]}", 2),
        (b"{\"inputs\":[-0],\"steps\":[]}", 2),
        (b"{\"inputs\":[9223372036854775808],\"steps\":[]}", 2),
        (b"{\"inputs\":[18446744073709551616],\"steps\":[]}", 2),
        (b"{\"inputs\":[-9223372036854775809],\"steps\":[]}", 2),
        (b"{\"inputs\":[[1,[2]]],\"steps\":[]}", 4),
        (b"{\"inputs\":[{}],\"steps\":[]}", 2),
        // steps
        (b"{\"inputs\":[],\"steps\":[[]]}", 3),
        (b"{\"inputs\":[],\"steps\":[[\"drop\",0,0,[\"root\"]]]}", 3),
        (b"{\"inputs\":[],\"steps\":[[\"keep\",0,0]]}", 3),
        (b"{\"inputs\":[],\"steps\":[[\"do\",0,0,[\"root\"],0]]}", 3),
        (
            b"{\"inputs\":[],\"steps\":[[\"do\",4294967296,0,[\"root\"]]]}",
            5,
        ),
        (b"{\"inputs\":[],\"steps\":[[\"do\",0,-1,[\"root\"]]]}", 6),
        (
            b"{\"inputs\":[],\"steps\":[[\"let\",0,0,1,0,[\"root\"]]]}",
            8,
        ),
        (
            b"{\"inputs\":[],\"steps\":[[\"if\",0,0,[\"root\"],[],0]]}",
            10,
        ),
        (
            b"{\"inputs\":[],\"steps\":[[\"each\",0,0,1,true,[\"root\"],[7]]]}",
            12,
        ),
        (b"{\"inputs\":[],\"steps\":[[\"over\",0,0,1,256,[]]]}", 8),
        // expressions
        (b"{\"inputs\":[],\"steps\":[[\"do\",0,0,7]]}", 7),
        (b"{\"inputs\":[],\"steps\":[[\"do\",0,0,[\"root\",1]]]}", 7),
        (b"{\"inputs\":[],\"steps\":[[\"do\",0,0,[\"in\",256]]]}", 9),
        (b"{\"inputs\":[],\"steps\":[[\"do\",0,0,[\"lit\",[]]]]}", 9),
        (
            b"{\"inputs\":[],\"steps\":[[\"do\",0,0,[\"un\",0,0,[\"root\"]]]]}",
            9,
        ),
        (
            b"{\"inputs\":[],\"steps\":[[\"do\",0,0,[\"un\",5,0,[\"root\"]]]]}",
            9,
        ),
        (
            b"{\"inputs\":[],\"steps\":[[\"do\",0,0,[\"bin\",14,0,[\"root\"],[\"root\"]]]]}",
            9,
        ),
        (
            b"{\"inputs\":[],\"steps\":[[\"do\",0,0,[\"bin\",1,0,[\"root\"],[\"up\"]]]]}",
            13,
        ),
        (
            b"{\"inputs\":[],\"steps\":[[\"do\",0,0,[\"call\",0,9,\"n\",[\"root\"],[]]]]}",
            10,
        ),
        (
            b"{\"inputs\":[],\"steps\":[[\"do\",0,0,[\"call\",0,0,\"2\",[\"root\"],[]]]]}",
            11,
        ),
        (
            b"{\"inputs\":[],\"steps\":[[\"do\",0,0,[\"call\",0,0,\"n\",[\"root\"],[[\"root\"],0]]]]}",
            17,
        ),
        // of two, the first
        (b"{\"steps\":[7],\"inputs\":[null]}", 2),
        (b"{\"inputs\":[null],\"steps\":[7]}", 2),
        (
            b"{\"inputs\":[],\"steps\":[[\"do\",0,0,7],[\"do\",-1,0,[\"root\"]]]}",
            7,
        ),
        (
            b"{\"inputs\":[],\"steps\":[[\"do\",-1,-1,0],[\"do\",0,0,7]]}",
            5,
        ),
        // a key that stands twice has its last value
        (b"{\"inputs\":0,\"steps\":[7],\"inputs\":[]}", 3),
    ];
    expect_wrong_forms(rt.alloc(), rows)
}

/// Fails where a text is no request, or is written otherwise.
fn expect_written(alloc: Global, text: &[u8]) -> Result<(), Fail> {
    match told(alloc, text)? {
        Judged::Read(true) => Ok(()),
        _ => Err(Fail::new(format_args!("{text:?} is refused or written otherwise"))),
    }
}

/// Fails at the first text that is no request, or is written otherwise.
fn expect_all_written(alloc: Global, texts: &[&[u8]]) -> Result<(), Fail> {
    for text in texts {
        expect_written(alloc, text)?;
    }
    Ok(())
}

#[test]
fn requests_are_written_as_they_were_read(rt: HostRuntime) -> Result<(), Fail> {
    let rows: &[&[u8]] = &[
        b"{\"inputs\":[],\"steps\":[]}",
        b"{\"inputs\":[],\"steps\":[[\"keep\",0,59,[\"call\",59,1,\"n\",[\"root\"],[]]]]}",
        b"{\"inputs\":[9223372036854775807,-9223372036854775808,true,\"a\\\"b\",[],[1,false,\"x\"]],\"steps\":[]}",
        b"{\"inputs\":[],\"steps\":[[\"do\",4294967295,0,[\"un\",4,1,[\"lit\",7]]]]}",
        b"{\"inputs\":[],\"steps\":[[\"let\",0,0,1,false,[\"bin\",13,2,[\"in\",255],[\"var\",1]]]]}",
        b"{\"inputs\":[],\"steps\":[[\"if\",0,0,[\"lit\",true],[[\"do\",1,0,[\"root\"]]],[]]]}",
        b"{\"inputs\":[],\"steps\":[[\"each\",0,0,1,true,[\"call\",0,8,\"all\",[\"root\"],[[\"lit\",\"\"]]],[]]]}",
        b"{\"inputs\":[[1]],\"steps\":[[\"over\",0,0,1,0,[[\"keep\",1,0,[\"var\",1]]]]]}",
    ];
    expect_all_written(rt.alloc(), rows)
}
