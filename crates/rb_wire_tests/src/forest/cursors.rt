// Walks of forests in their bytes: what is taken.

use crate::digits::bytes_of;
use crate::forest::forests::ALL_FORMS;
use crate::forest::version_two::spellings::ALL_FORMS as SHORT_FORMS;
use rb_wire_forest::{Cursor, Item, scan_forest};
use std::alloc::Global;
use std::fmt::Write;
use std::test::Fail;

/// Forests, and what their walks tell: each value; each branch, and the Rows with their number of nodes, which are open up to
/// their `)`; each node of a Rows within its parentheses; and the step, the position, the code and the text of a fault.
static WALKS: [(&str, &str); 11] = [
    ("01 00000000 00", ""),
    (
        "01 00000001 31 01 8000000000000000 00",
        " -9223372036854775808",
    ),
    (
        "01 00000001 33 00000001 00000001 31 01 000000000000000a 00 00",
        " 1( ( 10 ) )",
    ),
    (
        "01 00000001 33 00000000 01 00000002 0000003c 07",
        " 0( ) 2@60:7",
    ),
    (
        "01 00000002 32 00 00000000 00 32 01 00000000 01 00000005 00000006 0b 00",
        " false( ) true( 5@6:11 )",
    ),
    (
        "01 00000001 33 00000001 00000001 33 00000001 00000001 31 02 01 00 00 00",
        " 1( ( 1( ( true ) ) ) )",
    ),
    (ALL_FORMS, " 7 true( false ) 2( ( é ) ( 3@4:8Big ) ) 9@10:7"),
    // The same in version 2, and numbers of more than one group.
    ("02 00000000 00", ""),
    (
        "02 00000002 31 01 ff ff ff ff ff ff ff ff ff 01 31 01 80 01 00",
        " -9223372036854775808 64",
    ),
    (
        "02 00000001 33 00000001 00000000 01 ac 02 ff ff ff ff 0f 07 00",
        " 1( ( 300@4294967295:7 ) )",
    ),
    (
        SHORT_FORMS,
        " 7 true( false ) 2( ( é ) ( 3@4:8Big ) ) 9@10:7",
    ),
];

/// More steps than any of the walks takes.
const MOST_STEPS: u32 = 100;

/// Tells of a value.
fn tell_value(item: Item<'_>, told: &mut String) -> Result<(), Fail> {
    let added = match item {
        Item::Int(number) => write!(told, " {number}"),
        Item::Bool(truth) => write!(told, " {truth}"),
        Item::Text(text) => write!(told, " {}", str::from_utf8(text).unwrap_or("no letters")),
    };
    Ok(added?)
}

/// Tells of the next entry, or of the next node of a Rows, which is taken.
fn tell_entry(cursor: &mut Cursor<'_>, told: &mut String) -> Result<bool, Fail> {
    if let Some(taken) = cursor.branch() {
        write!(told, " {taken}(")?;
    } else if let Some(nodes) = cursor.rows() {
        write!(told, " {nodes}(")?;
    } else if cursor.turn() {
        told.push_str(" (")?;
    } else if let Some(item) = cursor.value() {
        tell_value(item, told)?;
    } else {
        return Ok(false);
    }
    Ok(true)
}

/// Tells of the end of the innermost, which is closed; false at the root's end.
fn tell_end(cursor: &mut Cursor<'_>, told: &mut String) -> Result<bool, Fail> {
    if let Some(fault) = cursor.fault() {
        let text = str::from_utf8(fault.text).unwrap_or("no letters");
        write!(told, " {}@{}:{}{text}", fault.step, fault.at, fault.code)?;
    }
    if !cursor.leave() {
        return Ok(false);
    }
    told.push_str(" )")?;
    Ok(true)
}

/// Adds what the walk of a payload tells.
fn walk(payload: &[u8], told: &mut String) -> Result<(), Fail> {
    let Ok(forest) = scan_forest(payload) else {
        return Ok(());
    };
    let mut cursor = forest.cursor();
    for _ in 0..MOST_STEPS {
        if !tell_entry(&mut cursor, told)? && !tell_end(&mut cursor, told)? {
            break;
        }
    }
    Ok(())
}

/// Fails unless the walk of each payload tells what stands beside it.
fn walks_are(alloc: Global, rows: &[(&str, &str)]) -> Result<(), Fail> {
    for (digits, wanted) in rows {
        let payload = bytes_of(alloc, digits)?;
        let mut told = String::new(alloc);
        walk(payload.as_slice(), &mut told)?;
        if told.as_str() != *wanted {
            return Err(Fail::new(format_args!("{digits}: {told}")));
        }
    }
    Ok(())
}

#[test]
fn a_cursor_takes_each_entry_where_it_stands(rt: HostRuntime) -> Result<(), Fail> {
    walks_are(rt.alloc(), &WALKS)
}
