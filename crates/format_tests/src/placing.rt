//! Runs of calls in one state.

use crate::placing::Row::{Guessed, NotGiven, NotLegal, Placed};
use crate::requests::Request::{
    Absent, Create, List, Lookup, MakeDirectory, Read, Remove, Rename, Stale, Taken, Write,
};
use crate::requests::{Request, SYNCED, call, outcome};
use decision_steps::{PlaceFault, State};
use file_tree::{Profile, SeenStart};
use nfs3_types::FileHandle;
use std::alloc::{AllocError, Global};
use std::test::Fail;

/// What is done in a state, and what comes of it.
#[derive(Clone, Copy)]
enum Row {
    Placed(Request),
    NotLegal(Request),
    /// It isn't placed, since no reply gave its handle.
    NotGiven(Request),
    /// A handle that isn't bound is taken for one of this object.
    Guessed(u8, u64),
}

/// The life of a file.
const LIFE: &[Row] = &[
    Placed(Create(0, b'a', Some(0xaa))),
    Placed(Lookup(0, b'a', 0xaa)),
    Placed(Write(0xaa, SYNCED, b"x")),
    Placed(Read(0xaa, b"x")),
    NotLegal(Read(0xaa, b"y")),
    Placed(MakeDirectory(0, b'd', Some(0xdd))),
    Placed(Rename(b'a', 0xdd, b'b')),
    Placed(Absent(0, b'a')),
    NotLegal(Absent(0xdd, b'b')),
    NotLegal(Stale(0xaa)),
    NotLegal(Remove(b'a')),
    Placed(Taken(b'c')),
    Placed(Remove(b'c')),
];

/// What handles are bound to.
const HANDLES: &[Row] = &[
    Placed(Create(0, b'a', None)),
    // Nothing is known of the handle, which may be any object's, or none's.
    NotGiven(Write(0xaa, SYNCED, b"x")),
    NotGiven(Absent(0xaa, b'b')),
    Placed(Stale(0xbb)),
    Placed(Lookup(0, b'a', 0xaa)),
    Placed(Write(0xaa, SYNCED, b"x")),
    // An object may have two handles, and a handle one object alone.
    Placed(Lookup(0, b'a', 0xac)),
    Placed(Read(0xac, b"x")),
    NotLegal(Create(0, b'b', Some(0xaa))),
    Placed(Create(0, b'b', Some(0xbb))),
    Placed(Create(0, b'b', Some(0xbb))),
    NotLegal(Lookup(0, b'a', 0xbb)),
    Placed(Lookup(0, b'.', 0)),
];

/// What the handles of a list are bound to.
const LISTS: &[Row] = &[
    Placed(Create(0, b'a', None)),
    Placed(Create(0, b'b', None)),
    // One handle can't be that of two entries, and the first one stays unbound then.
    NotLegal(List(0xaa, 0xaa)),
    Placed(Stale(0xaa)),
    Placed(List(0xab, 0xba)),
    Placed(Lookup(0, b'b', 0xba)),
    NotLegal(Lookup(0, b'a', 0xba)),
    // The handle beside `..` isn't bound.
    Placed(Lookup(0, b'a', 1)),
];

/// A handle that no reply gave.
const GUESS: &[Row] = &[
    Placed(Taken(b'a')),
    Guessed(0xaa, 1),
    Placed(Write(0xaa, SYNCED, b"x")),
    Placed(Lookup(0, b'a', 0xaa)),
];

/// The state before any call of a server that held nothing.
fn opening(alloc: Global) -> Result<State, AllocError> {
    State::opening(alloc, &[0], &SeenStart::empty(alloc), &[])
}

/// What comes of a request.
fn placed(
    alloc: Global,
    profile: Profile,
    state: &State,
    number: u64,
    request: Request,
) -> Result<State, PlaceFault> {
    let call = call(alloc, request)?;
    let outcome = outcome(alloc, request)?;
    state.place(alloc, profile, number, &call, &outcome)
}

/// What comes of it that a handle that isn't bound is taken for one of this object.
fn guessed(alloc: Global, state: &State, byte: u8, object: u64) -> Result<State, PlaceFault> {
    let handle = FileHandle::from_slice(alloc, &[byte])?;
    if state.binds().object(handle.as_slice()).is_some() {
        return Err(PlaceFault::NotLegal);
    }
    Ok(state.guess(alloc, &handle, object)?)
}

/// The state after a row, which is the one before it where nothing is to come of it; none, where it is answered otherwise.
fn after(
    alloc: Global,
    profile: Profile,
    state: State,
    number: u64,
    row: Row,
) -> Result<Option<State>, AllocError> {
    let (came, want) = match row {
        Placed(request) => (placed(alloc, profile, &state, number, request), None),
        NotLegal(request) => (
            placed(alloc, profile, &state, number, request),
            Some(PlaceFault::NotLegal),
        ),
        NotGiven(request) => (
            placed(alloc, profile, &state, number, request),
            Some(PlaceFault::HandleNotGiven),
        ),
        Guessed(byte, object) => (guessed(alloc, &state, byte, object), None),
    };
    match came {
        Ok(next) => Ok(if want.is_none() { Some(next) } else { None }),
        Err(fault) => Ok(if want == Some(fault) {
            Some(state)
        } else {
            None
        }),
    }
}

/// Whether all are answered so, one after the other. Call n makes object n.
fn are_answered(alloc: Global, profile: Profile, rows: &[Row]) -> Result<bool, AllocError> {
    let mut state = opening(alloc)?;
    let mut number: u64 = 0;
    for row in rows {
        number = number.saturating_add(1);
        let Some(next) = after(alloc, profile, state, number, *row)? else {
            return Ok(false);
        };
        state = next;
    }
    Ok(true)
}

/// Each run is answered alike under both profiles.
#[test]
fn calls_are_placed(rt: HostRuntime) -> Result<(), Fail> {
    for rows in [LIFE, HANDLES, LISTS, GUESS] {
        for profile in [Profile::Plain, Profile::Strict] {
            assert!(rt; are_answered(rt.alloc(), profile, rows)?);
        }
    }
    Ok(())
}

/// Whether two states may come of one, which stays as it was: each has the file that it made, and its handle.
fn two_come_of_one(alloc: Global) -> Result<bool, PlaceFault> {
    let made = Create(0, b'a', Some(0xaa));
    let state = opening(alloc)?;
    let one = placed(alloc, Profile::Plain, &state, 1, made)?;
    let other = placed(alloc, Profile::Plain, &state, 2, made)?;
    let is_bare = state.binds().object(&[0xaa]).is_none() && state.tree().nodes().count() == 1;
    let are_made = one.binds().object(&[0xaa]) == Some(1)
        && other.binds().object(&[0xaa]) == Some(2)
        && one.tree().nodes().node(1).is_some()
        && other.tree().nodes().node(1).is_none();
    Ok(is_bare && are_made)
}

#[test]
fn a_state_stays_where_a_call_is_placed(rt: HostRuntime) -> Result<(), Fail> {
    assert!(rt; two_come_of_one(rt.alloc())?);
    Ok(())
}
