// Each call of a cursor, made at each place of walks.

use crate::digits::bytes_of;
use crate::forest::forests::ALL_FORMS;
use crate::forest::opened::{Answer, Call, Opened};
use crate::forest::version_two::spellings::ALL_FORMS as SHORT_FORMS;
use rb_trees::Node;
use rb_wire_forest::{Cursor, Forest, Item, decode_forest, scan_forest};
use std::alloc::Global;
use std::test::Fail;

/// Nodes and Rows within each other, behind each of which something is left: a branch, with Rows of two nodes, the first with
/// a value and a branch; and faults with and without a text.
const NESTED: &str =
    "01 00000002 32 01 00000002 33 00000002 00000002 31 01 0000000000000007 32 00 00000001 31 02 01 00 00 00000000 01 00000003 00000004 08 00000001 61 31 02 00 01 00000005 00000006 0c 31 01 0000000000000009 00";

/// The same in version 2.
const SHORT_NESTED: &str =
    "02 00000002 32 01 00000002 33 00000002 00000002 31 01 0e 32 00 00000001 31 02 01 00 00 00000000 01 03 04 08 01 61 31 02 00 01 05 06 0c 31 01 12 00";

/// Forests: a root without entries; values; Rows without a node, and a fault; branches; Rows within Rows; each form; the same in version 2.
static FORESTS: [&str; 10] = [
    "01 00000000 00",
    "01 00000000 01 00000009 0000000a 08 00000002 c3a9",
    "01 00000003 31 01 8000000000000000 31 02 01 31 03 00000002 c3a9 00",
    "01 00000001 33 00000000 01 00000002 0000003c 07",
    "01 00000002 32 00 00000000 00 32 01 00000000 01 00000005 00000006 0b 00",
    "01 00000001 33 00000001 00000001 33 00000001 00000001 31 02 01 00 00 00",
    ALL_FORMS,
    NESTED,
    SHORT_FORMS,
    SHORT_NESTED,
];

/// All calls.
static CALLS: [Call; 7] = [
    Call::Value,
    Call::Branch,
    Call::Rows,
    Call::Turn,
    Call::Fault,
    Call::Leave,
    Call::Close,
];

/// The calls by which a walk goes on.
static STEPS: [Call; 5] = [
    Call::Value,
    Call::Branch,
    Call::Rows,
    Call::Turn,
    Call::Leave,
];

/// More steps than any of the walks takes.
const MOST_STEPS: u32 = 40;

fn done<'a>(is_done: bool) -> Answer<'a> {
    if is_done {
        Answer::Truth(true)
    } else {
        Answer::Nothing
    }
}

/// The answer of a cursor.
fn ask<'a>(cursor: &mut Cursor<'a>, call: Call) -> Answer<'a> {
    match call {
        Call::Value => match cursor.value() {
            Some(Item::Int(number)) => Answer::Int(number),
            Some(Item::Bool(truth)) => Answer::Truth(truth),
            Some(Item::Text(text)) => Answer::Text(text),
            None => Answer::Nothing,
        },
        Call::Branch => match cursor.branch() {
            Some(taken) => Answer::Truth(taken),
            None => Answer::Nothing,
        },
        Call::Rows => match cursor.rows() {
            Some(nodes) => Answer::Nodes(nodes as usize),
            None => Answer::Nothing,
        },
        Call::Turn => done(cursor.turn()),
        Call::Fault => match cursor.fault() {
            Some(fault) => Answer::Fault(fault.step, fault.at, fault.code, fault.text),
            None => Answer::Nothing,
        },
        Call::Leave => done(cursor.leave()),
        Call::Close => done(cursor.close()),
    }
}

/// Whether the calls, made one after the other, are answered alike.
fn agree(cursor: &mut Cursor<'_>, opened: &mut Opened<'_>, calls: &[Call]) -> bool {
    for call in calls {
        if ask(cursor, *call) != opened.ask(*call) {
            return false;
        }
    }
    true
}

/// The step by which a walk goes on, which is taken, and its answer; None at the walk's end.
fn next_step<'a>(opened: &mut Opened<'a>) -> Option<(Call, Answer<'a>)> {
    for step in &STEPS {
        let answer = opened.ask(*step);
        if answer != Answer::Nothing {
            return Some((*step, answer));
        }
    }
    None
}

/// Whether a call is answered alike behind so many steps, and so are the calls after it, to the end of the walk.
fn agree_at(forest: &Forest<'_>, root: &Node, steps: u32, call: Call) -> bool {
    let mut cursor = forest.cursor();
    let mut opened = Opened::new(root);
    for _ in 0..steps {
        let Some((step, answer)) = next_step(&mut opened) else {
            return false;
        };
        if ask(&mut cursor, step) != answer {
            return false;
        }
    }
    if !agree(&mut cursor, &mut opened, &[call]) {
        return false;
    }
    for _ in 0..MOST_STEPS {
        if !agree(&mut cursor, &mut opened, &CALLS[..6]) {
            return false;
        }
    }
    true
}

/// Whether each call is answered alike at each place of the walk of a forest.
fn agree_everywhere(payload: &[u8], root: &Node) -> bool {
    let Ok(forest) = scan_forest(payload) else {
        return false;
    };
    let mut guide = Opened::new(root);
    for steps in 0..MOST_STEPS {
        for call in &CALLS {
            if !agree_at(&forest, root, steps, *call) {
                return false;
            }
        }
        if next_step(&mut guide).is_none() {
            return true;
        }
    }
    false
}

/// Fails unless so it is with each forest.
fn all_agree(alloc: Global, forests: &[&str]) -> Result<(), Fail> {
    for digits in forests {
        let payload = bytes_of(alloc, digits)?;
        let agree = match &decode_forest(alloc, payload.as_slice()) {
            Ok(root) => agree_everywhere(payload.as_slice(), root),
            Err(_) => false,
        };
        if !agree {
            return Err(Fail::new(format_args!("{digits}")));
        }
    }
    Ok(())
}

#[test]
fn each_call_is_answered_as_the_tree_has_it(rt: HostRuntime) -> Result<(), Fail> {
    all_agree(rt.alloc(), &FORESTS)
}
