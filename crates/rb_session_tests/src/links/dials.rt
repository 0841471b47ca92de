// What is dialled, and the links that are had so, in memory.

ghost use Rattle.std.specs.Prelude.{◌≡◌, IfOk};

use crate::expected::{NO_MEMORY, Told, told};
use crate::hosts::{CALL, CALL_REPLY, NUMBER, SHORT_CALL, SHORT_CALL_REPLY, host_of};
use crate::links::exchanges::{Exchanged, Outcome, exchange_told};
use rb_base::Link;
use rb_heap::Heap;
use rb_session::{
    AnyLink, Dial, DialStop, Exchange, FailingLink, MemoryDial, MemoryLink, NullDial, Target,
};
use rb_trees::{Memory, Seq};
use std::alloc::Global;

/// Where a link is had from, as a table has it.
#[derive(Clone, Copy)]
enum Origin<'a> {
    Address(&'a [u8]),
    Child(&'a [u8]),
    /// It is a link in memory, which goes round the dial.
    Memory,
}

/// Where a link is had from; whether its dial fails; and the exchanges over it, behind which it is given back.
type Call<'a> = (Origin<'a>, bool, &'a [Exchanged<'a>]);

/// The target that is dialled, if one is.
fn target_of(alloc: Global, from: Origin<'_>) -> Result<Option<Target>, Memory> {
    match from {
        Origin::Address(name) => Ok(Some(Target::Address(Seq::from_slice(alloc, name)?))),
        Origin::Child(name) => Ok(Some(Target::Child(Seq::from_slice(alloc, name)?))),
        Origin::Memory => Ok(None),
    }
}

/// Says what goes otherwise in exchanges over a link, or in whether it has a table.
fn link_told<L: Link>(link: &mut L, exchanges: &[Exchanged<'_>], has_table: bool) -> Told {
    let mut exchanged = Ok(());
    for exchange in exchanges {
        exchanged = exchanged.and(exchange_told(link, exchange));
    }
    exchanged.and(told(link.table().is_some() == has_table, "a table, or none"))
}

/// Says what goes otherwise where a target is dialled. A dialled link has no table.
fn dial_told<D: Dial>(dial: &mut D, target: &Target, (_, fails, exchanges): &Call<'_>) -> Told {
    match dial.dial(target) {
        Ok(mut link) => {
            let exchanged = link_told(&mut link, exchanges, false);
            dial.back(link);
            told(!*fails, "a dial doesn't fail").and(exchanged)
        }
        Err(DialStop::Failed) => told(*fails, "a dial fails"),
        Err(DialStop::Memory) => Err(NO_MEMORY),
    }
}

/// Says what goes otherwise where a link in memory goes round a dial. It has a table.
fn around_told<D: Dial>(dial: &mut D, link: MemoryLink, exchanges: &[Exchanged<'_>]) -> Told {
    match dial.around(link) {
        Ok(mut link) => {
            let exchanged = link_told(&mut link, exchanges, true);
            dial.back(link);
            exchanged
        }
        Err(_) => Err(NO_MEMORY),
    }
}

/// A link in memory to the host whose method gives a number.
fn memory_link(alloc: Global) -> Result<MemoryLink, &'static str> {
    match host_of(alloc, NUMBER) {
        Ok(host) => match MemoryLink::make(alloc, host) {
            Ok(link) => Ok(link),
            Err(_) => Err(NO_MEMORY),
        },
        Err(why) => Err(why),
    }
}

/// Says what goes otherwise in a call of a dial.
fn call_told<D: Dial>(alloc: Global, dial: &mut D, call: &Call<'_>) -> Told {
    match target_of(alloc, call.0) {
        Ok(Some(target)) => dial_told(dial, &target, call),
        Ok(None) => match memory_link(alloc) {
            Ok(link) => around_told(dial, link, call.2),
            Err(why) => Err(why),
        },
        Err(_) => Err(NO_MEMORY),
    }
}

/// Says what goes otherwise in calls.
fn calls_told<D: Dial>(alloc: Global, dial: &mut D, calls: &[Call<'_>]) -> Told {
    let mut called = Ok(());
    for call in calls {
        called = called.and(call_told(alloc, dial, call));
    }
    called
}

/// A link to the same host, of which these exchanges fail.
fn failing_link(alloc: Global, failing: &[u64]) -> Result<FailingLink, &'static str>
    ensures { IfOk result (λ link. link.faults ≡ 0) }
{
    match host_of(alloc, NUMBER) {
        Ok(host) => match Seq::from_slice(alloc, failing) {
            Ok(failing) => match FailingLink::make(alloc, host, failing) {
                Ok(link) => Ok(link),
                Err(_) => Err(NO_MEMORY),
            },
            Err(_) => Err(NO_MEMORY),
        },
        Err(why) => Err(why),
    }
}

/// A link that waits: where it is had from, and which of its exchanges fail.
type Waiting<'a> = (Origin<'a>, &'a [u64]);

/// Adds such a link to a dial.
fn added(alloc: Global, dial: &mut MemoryDial<FailingLink>, (from, failing): &Waiting<'_>) -> Told {
    match target_of(alloc, *from) {
        Ok(Some(target)) => match failing_link(alloc, failing) {
            Ok(link) => told(dial.add(target, link).is_ok(), NO_MEMORY),
            Err(why) => Err(why),
        },
        _ => Err(NO_MEMORY),
    }
}

/// A dial of which these calls fail, where these links wait; calls of it; and what is wanted of the one link that came back: whether
/// it was dialled, its pairs, and how many of its exchanges failed.
struct Case<'a> {
    failing: &'a [u64],
    waiting: &'a [Waiting<'a>],
    calls: &'a [Call<'a>],
    is_dialled: bool,
    pairs: &'a [Exchanged<'a>],
    faults: u64,
}

/// Whether a pair is an exchange.
fn is_pair(pair: &Exchange, (request, outcome, kept): &Exchanged<'_>) -> bool {
    matches!(outcome, Outcome::Reply(kind) if *kind == pair.kind)
        && pair.request.as_slice() == *request
        && pair.reply.as_slice() == *kept
}

/// Whether a link has these pairs, and had one object first and has one now.
fn has_kept(
    pairs: &[Exchange],
    wants: &[Exchanged<'_>],
    first: &Heap,
    table: Option<&Heap>,
) -> bool {
    let mut are_pairs = pairs.len() == wants.len();
    for (pair, want) in pairs.iter().zip(wants) {
        are_pairs &= is_pair(pair, want);
    }
    let objects = match table {
        Some(table) => table.len(),
        None => 0,
    };
    are_pairs && first.len() == 1 && objects == 1
}

/// Whether just the link came back that a case says.
fn has_come_back(dial: &MemoryDial<FailingLink>, case: &Case<'_>) -> bool {
    match dial.came_back() {
        [AnyLink::Dialled(link)] => {
            case.is_dialled
                && link.faults() == case.faults
                && link.host().table().len() == 1
                && has_kept(link.pairs(), case.pairs, link.first_table(), link.table())
        }
        [AnyLink::Around(link)] => {
            !case.is_dialled && has_kept(link.pairs(), case.pairs, link.first_table(), link.table())
        }
        _ => false,
    }
}

/// Says what goes otherwise in a case.
fn dialled_told(alloc: Global, dial: &mut MemoryDial<FailingLink>, case: &Case<'_>) -> Told {
    let mut waiting = Ok(());
    for link in case.waiting {
        waiting = waiting.and(added(alloc, dial, link));
    }
    waiting
        .and(calls_told(alloc, dial, case.calls))
        .and(told(has_come_back(dial, case), "another link came back"))
}

/// The same with a new dial.
fn case_told(alloc: Global, case: &Case<'_>) -> Told {
    match Seq::from_slice(alloc, case.failing) {
        Ok(failing) => dialled_told(alloc, &mut MemoryDial::make(alloc, failing), case),
        Err(_) => Err(NO_MEMORY),
    }
}

/// The call, and its reply.
const CALLED: Exchanged<'_> = (CALL, Outcome::Reply(2), CALL_REPLY);

/// The same in version 2.
const CALLED_SHORT: Exchanged<'_> = (SHORT_CALL, Outcome::Reply(2), SHORT_CALL_REPLY);

/// A payload that has no version, and its reply.
const REFUSED: Exchanged<'_> = (b"\x07", Outcome::Reply(3), b"\x01\x02\x00\x00\x00\x00");

/// The call, where an exchange fails.
const LOST: Exchanged<'_> = (CALL, Outcome::Failed, b"");

/// An address, and a name.
const A: Origin<'_> = Origin::Address(b"a");

const B: Origin<'_> = Origin::Address(b"b");

const CASES: &[Case<'_>] = &[
    // A dial takes the first link of its target. The third one is listed, and the fourth finds no link.
    Case {
        failing: &[3],
        waiting: &[(A, &[]), (Origin::Child(b"b"), &[])],
        calls: &[
            (B, true, &[]),
            (A, false, &[CALLED]),
            (A, true, &[]),
            (A, true, &[]),
        ],
        is_dialled: true,
        pairs: &[CALLED],
        faults: 0,
    },
    // A link in memory goes round a dial that fails, and keeps each exchange as a pair.
    Case {
        failing: &[1],
        waiting: &[],
        calls: &[(Origin::Memory, false, &[CALLED])],
        is_dialled: false,
        pairs: &[CALLED],
        faults: 0,
    },
    Case {
        failing: &[],
        waiting: &[],
        calls: &[(Origin::Memory, false, &[CALLED, CALLED_SHORT, REFUSED])],
        is_dialled: false,
        pairs: &[CALLED, CALLED_SHORT, REFUSED],
        faults: 0,
    },
    // A listed exchange fails and leaves no pair.
    Case {
        failing: &[],
        waiting: &[(A, &[2])],
        calls: &[(A, false, &[CALLED])],
        is_dialled: true,
        pairs: &[CALLED],
        faults: 0,
    },
    Case {
        failing: &[],
        waiting: &[(A, &[2])],
        calls: &[(A, false, &[CALLED, LOST])],
        is_dialled: true,
        pairs: &[CALLED],
        faults: 1,
    },
    Case {
        failing: &[],
        waiting: &[(A, &[2])],
        calls: &[(A, false, &[CALLED, LOST, CALLED])],
        is_dialled: true,
        pairs: &[CALLED, CALLED],
        faults: 1,
    },
];

#[test]
fn dials_and_their_links_go_as_the_cases_say(rt: HostRuntime) -> Told {
    let mut told = Ok(());
    for case in CASES {
        told = told.and(case_told(rt.alloc(), case));
    }
    told
}

/// Calls of a dial whose links lead nowhere.
const NULL_CALLS: &[Call<'_>] = &[
    (A, false, &[(CALL, Outcome::Cut(0), b"")]),
    (Origin::Memory, false, &[CALLED]),
];

#[test]
fn a_link_of_the_null_dial_leads_nowhere(rt: HostRuntime) -> Told {
    calls_told(rt.alloc(), &mut NullDial::make(rt.alloc()), NULL_CALLS)
}
