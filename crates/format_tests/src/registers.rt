//! Walks over a register: the answers that its calls give by their order alone.

use certificate::Certificate;
use decide::WalksWatch;
use decision_core::Event::{Answered, AtOnce, Called, Passed};
use decision_core::{Event, RegisterMachine, Span, Stop, Walked, Watch, decide, timeline};
use std::alloc::{AllocError, Global};
use std::test::Fail;

/// What a walk comes to.
#[derive(Clone, Copy)]
enum Want {
    /// This event, from 0, is the one that no order explains.
    No(usize),
    /// States are left.
    Left,
    TooManyStates,
    Ended,
    /// The calls have no events.
    NoEvents,
}

/// Ends a walk after so many states in which calls are placed.
#[derive(Drop)]
pub(crate) struct FewSteps {
    pub(crate) left: u64,
}

impl Watch for FewSteps {
    fn is_over(&mut self) -> bool {
        if self.left == 0 {
            return true;
        }
        self.left -= 1;
        false
    }

    fn see(&mut self, _event: usize, _states: usize) {}
}

impl WalksWatch for FewSteps {
    fn again(&mut self) -> Result<Option<Certificate>, AllocError> {
        Ok(None)
    }

    fn next_walk(&mut self, _gave_up: bool) -> Result<Option<Certificate>, AllocError> {
        Ok(None)
    }
}

/// Whether a walk over these comes to that.
fn comes_to(alloc: Global, events: &[Event], states: usize, steps: u64, want: Want) -> bool {
    let mut watch = FewSteps { left: steps };
    match (
        decide(
            alloc,
            &RegisterMachine::new(alloc),
            events,
            states,
            &mut watch,
        ),
        want,
    ) {
        (Ok(Walked::NoWitness { event, .. }), Want::No(at)) => event == at,
        (Ok(Walked::Left(_)), Want::Left) => true,
        (Err(Stop::TooManyStates), Want::TooManyStates) => true,
        (Err(Stop::Ended), Want::Ended) => true,
        _ => false,
    }
}

/// A read beside a write that is open, of what it writes: the read is tried twice, and the write once, with one state at a time.
const EARLY: &[Event] = &[Called(1), Called(101), Answered(101), Answered(1)];

/// A read of what was before a write that was answered, a read of what it wrote, and one of what nothing wrote.
const STALE: &[Event] = &[Called(1), Answered(1), Called(100), Answered(100)];

const READ: &[Event] = &[Called(1), Answered(1), Passed, AtOnce(101)];

const UNWRITTEN: &[Event] = &[Called(1), Called(102), Answered(102), Answered(1)];

/// Events, the limits of states and of steps, and what a walk comes to.
const WALKS: &[(&[Event], usize, u64, Want)] = &[
    (STALE, 9, 99, Want::No(3)),
    (READ, 9, 99, Want::Left),
    (UNWRITTEN, 9, 99, Want::No(2)),
    (EARLY, 9, 99, Want::Left),
    (EARLY, 0, 99, Want::TooManyStates),
    (EARLY, 9, 1, Want::Ended),
    (EARLY, 1, 3, Want::Left),
    (EARLY, 1, 1, Want::Ended),
    (EARLY, 0, 3, Want::TooManyStates),
];

#[test]
fn reads_are_explained_within_limits(rt: HostRuntime) {
    for (events, states, steps, want) in WALKS {
        assert!(rt; comes_to(rt.alloc(), events, *states, *steps, *want));
    }
}

/// Two calls, each with its begin and its end, and what a walk over them comes to.
const CALLS: [([(u64, u64, u64); 2], Want); 3] = [
    ([(1, 1, 2), (100, 4, 4)], Want::No(3)),
    ([(1, 1, 4), (101, 2, 3)], Want::Left),
    ([(1, 1, 4), (101, 2, 4)], Want::NoEvents),
];

fn span((number, begin, end): (u64, u64, u64)) -> Span {
    Span {
        number,
        begin,
        end: Some(end),
    }
}

/// Whether two calls come to that.
fn come_to(
    alloc: Global,
    [first, second]: [(u64, u64, u64); 2],
    want: Want,
) -> Result<bool, AllocError> {
    match timeline(alloc, &[span(first), span(second)], 4)? {
        Some(events) => Ok(comes_to(alloc, events.as_slice(), 9, 99, want)),
        None => Ok(matches!(want, Want::NoEvents)),
    }
}

#[test]
fn calls_go_by_their_begins_and_ends(rt: HostRuntime) -> Result<(), Fail> {
    for (calls, want) in CALLS {
        assert!(rt; come_to(rt.alloc(), calls, want)?);
    }
    Ok(())
}
