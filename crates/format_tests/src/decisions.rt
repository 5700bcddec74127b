//! Small histories that are decided: a yes, a no at the event that no order explains, and neither.

use crate::histories::Happened::{Answered, Asked, Crashed, Done};
use crate::histories::{Happened, built};
use crate::registers::FewSteps;
use crate::requests::Request::{Guarded, Lookup, MakeDirectory, Read, Remove, Write};
use crate::requests::{Request, SYNCED, UNSTABLE};
use decide::{Decision, decide};
use nfs_history::{History, HistoryFault};
use std::alloc::Global;
use std::test::Fail;

/// What a history is decided as.
#[derive(Clone, Copy)]
enum Want {
    Yes,
    /// A no at this event, the reply to this call, which is the one that is open then.
    No(u64, u64),
    Undecided,
}

/// CREATE of `a`, WRITEs to it, a READ that gives no bytes, and a LOOKUP.
const MADE: Request = Guarded(b'a', 0xaa);

const X: Request = Write(0xaa, UNSTABLE, b"x");

const SYNCED_X: Happened = Done(1, 2, Write(0xaa, SYNCED, b"x"));

const NONE_LEFT: Happened = Done(2, 3, Read(0xaa, b""));

const FOUND: Happened = Done(2, 3, Lookup(0, b'a', 0xaa));

/// More states than a small history needs.
const MANY: usize = 1000;

/// Five MKDIRs at once, which give no handle.
const FIVE_MAKERS: &[Happened] = &[
    Asked(1, 1, MakeDirectory(0, b'a', None)),
    Asked(2, 1, MakeDirectory(0, b'b', None)),
    Asked(3, 1, MakeDirectory(0, b'c', None)),
    Asked(4, 1, MakeDirectory(0, b'd', None)),
    Asked(5, 1, MakeDirectory(0, b'e', None)),
    Answered(1, 1, MakeDirectory(0, b'a', None)),
    Answered(2, 1, MakeDirectory(0, b'b', None)),
    Answered(3, 1, MakeDirectory(0, b'c', None)),
    Answered(4, 1, MakeDirectory(0, b'd', None)),
    Answered(5, 1, MakeDirectory(0, b'e', None)),
];

/// The same, and a LOOKUP that finds what nobody made.
const FIVE_MAKERS_AND_A_WRONG_LOOKUP: &[Happened] = &[
    Asked(1, 1, MakeDirectory(0, b'a', None)),
    Asked(2, 1, MakeDirectory(0, b'b', None)),
    Asked(3, 1, MakeDirectory(0, b'c', None)),
    Asked(4, 1, MakeDirectory(0, b'd', None)),
    Asked(5, 1, MakeDirectory(0, b'e', None)),
    Answered(1, 1, MakeDirectory(0, b'a', None)),
    Answered(2, 1, MakeDirectory(0, b'b', None)),
    Answered(3, 1, MakeDirectory(0, b'c', None)),
    Answered(4, 1, MakeDirectory(0, b'd', None)),
    Answered(5, 1, MakeDirectory(0, b'e', None)),
    Done(1, 2, Lookup(0, b'f', 0xff)),
];

/// Histories, how many states there may be at once, and what each is decided as.
const CASES: &[(&[Happened], usize, Want)] = &[
    // Two WRITEs at once, and a READ that gives the first one.
    (
        &[
            Done(1, 1, MADE),
            Asked(1, 2, X),
            Done(2, 3, Write(0xaa, UNSTABLE, b"y")),
            Answered(1, 2, X),
            Done(1, 4, Read(0xaa, b"x")),
        ],
        MANY,
        Want::Yes,
    ),
    // A READ after a WRITE's reply that gives what was there before.
    (
        &[Done(1, 1, MADE), Done(1, 2, X), NONE_LEFT],
        MANY,
        Want::No(6, 3),
    ),
    // A LOOKUP that finds what a REMOVE took before it.
    (
        &[Done(1, 1, MADE), Done(1, 2, Remove(b'a')), FOUND],
        MANY,
        Want::No(6, 3),
    ),
    // Two GUARDED CREATEs of one name, both of which succeed.
    (
        &[
            Asked(1, 1, MADE),
            Asked(2, 2, Guarded(b'a', 0xbb)),
            Answered(1, 1, MADE),
            Answered(2, 2, Guarded(b'a', 0xbb)),
        ],
        MANY,
        Want::No(4, 2),
    ),
    // What a crash lost: a synced WRITE, and an UNSTABLE one.
    (
        &[Done(1, 1, MADE), SYNCED_X, Crashed, NONE_LEFT],
        MANY,
        Want::No(7, 3),
    ),
    (
        &[Done(1, 1, MADE), Done(1, 2, X), Crashed, NONE_LEFT],
        MANY,
        Want::Yes,
    ),
    // A WRITE without a reply, a part of which is there after a crash.
    (
        &[
            Done(1, 1, MADE),
            Asked(1, 2, Write(0xaa, SYNCED, b"xyz")),
            Crashed,
            Done(2, 3, Read(0xaa, b"xy")),
        ],
        MANY,
        Want::Yes,
    ),
    // A WRITE to a handle that no reply gave: the root is all that exists, and no file.
    (&[Done(1, 1, X)], MANY, Want::No(2, 1)),
    // The same beside a CREATE without a reply, which may have made it.
    (
        &[Asked(1, 1, Guarded(b'a', 0xbb)), Done(2, 2, X)],
        MANY,
        Want::Yes,
    ),
    // None of five MKDIRs of five names matters to another one: a quick walk has one state.
    (FIVE_MAKERS, 1, Want::Yes),
    // The walk over all that may be counts states that are the same once. When the first is answered, any of the other four may have been placed
    // before it: 16 sets of calls, whatever their order. One state less is too few.
    (FIVE_MAKERS_AND_A_WRONG_LOOKUP, 16, Want::No(12, 6)),
    (FIVE_MAKERS_AND_A_WRONG_LOOKUP, 15, Want::Undecided),
];

/// Whether a history is decided so.
fn comes_to(alloc: Global, history: &History, states: usize, want: Want) -> bool {
    let mut watch = FewSteps { left: 10_000 };
    match (decide(alloc, history, states, &mut watch), want) {
        (Decision::Yes(_), Want::Yes) => true,
        (Decision::No(refusal), Want::No(event, call)) => {
            (refusal.event, refusal.call) == (event, call)
                && refusal.open.as_slice() == [call].as_slice()
        }
        (Decision::Undecided(_), Want::Undecided) => true,
        _ => false,
    }
}

fn is_decided(
    alloc: Global,
    list: &[Happened],
    states: usize,
    want: Want,
) -> Result<bool, HistoryFault> {
    let history = built(alloc, list)?;
    Ok(comes_to(alloc, &history, states, want))
}

#[test]
fn small_histories_are_decided(rt: HostRuntime) -> Result<(), Fail> {
    for (list, states, want) in CASES {
        assert!(rt; is_decided(rt.alloc(), list, *states, *want)?);
    }
    Ok(())
}
