//! Which calls may matter to a reply: only to find where a certificate may be. Nothing is said of it.

use crate::call_lists::has_call;
use crate::machine::HistoryMachine;
use crate::walk_state::{WalkState, spread};
use nfs3_types::{DirectoryName, FileHandle, NfsCall};
use std::alloc::{AllocError, Global};

/// What calls may come to, by a number: an object, a name in a directory, or the list of all names in one.
const OBJECT: u64 = 1;

const NAME: u64 = 2;

const LIST: u64 = 3;

/// How a call comes to a thing.
#[derive(Clone, Copy)]
enum Use {
    Looks,
    Changes,
    /// It puts a name into a list, or takes one out: two of these may change places.
    Lists,
}

/// A thing that a call comes to, by its number.
#[derive(Clone, Copy)]
struct Thing {
    number: u64,
    usage: Use,
}

/// Whether two calls that come so to one thing may change places.
fn may_swap(one: Use, other: Use) -> bool {
    match one {
        Use::Looks => matches!(other, Use::Looks),
        Use::Changes => false,
        Use::Lists => matches!(other, Use::Lists),
    }
}

/// What a call comes to in a state: it may be anything where a handle of it isn't bound there.
#[derive(Drop)]
struct Things {
    list: Vec<Thing>,
    is_any: bool,
}

impl Things {
    /// Puts a thing there.
    fn put(&mut self, kind: u64, number: u64, usage: Use) -> Result<(), AllocError> {
        let number = spread(number.wrapping_mul(4).wrapping_add(kind));
        self.list.push(Thing { number, usage })?;
        Ok(())
    }

    /// Whether a thing is there that this one can't change places with.
    fn meets(&self, thing: Thing) -> bool {
        self.list.iter().any(|other| other.number == thing.number
            && !may_swap(other.usage, thing.usage))
    }

    /// Whether these and others may not change places.
    fn meet(&self, others: &Things) -> bool {
        self.is_any || others.is_any || self.list.iter().any(|thing| others.meets(*thing))
    }
}

/// A call with what it comes to.
#[derive(Drop)]
struct Coming {
    n: u64,
    things: Things,
}

/// A number of a name in a directory.
fn name_number(directory: u64, name: &[u8]) -> u64 {
    let mut number = directory;
    for byte in name {
        number = spread(number.wrapping_add(u64::from(*byte)).wrapping_add(1));
    }
    number
}

/// The object that a handle names in a state; else the call may come to anything.
fn put_object(
    things: &mut Things,
    state: &WalkState,
    handle: &FileHandle,
    usage: Use,
) -> Result<Option<u64>, AllocError> {
    let found = state.stands.binds().object(handle.as_slice());
    match found {
        Some(object) => things.put(OBJECT, object, usage)?,
        None => things.is_any = true,
    }
    Ok(found)
}

/// A name, and the object that has it.
fn put_place(
    things: &mut Things,
    state: &WalkState,
    place: &DirectoryName,
    usage: Use,
) -> Result<(), AllocError> {
    let Some(directory) = put_object(things, state, &place.directory, Use::Looks)? else {
        return Ok(());
    };
    let name = place.name.as_slice();
    things.put(NAME, name_number(directory, name), usage)?;
    if matches!(usage, Use::Changes) {
        things.put(LIST, directory, Use::Lists)?;
    }
    if let Some(object) = state.stands.tree().nodes().object(directory, name) {
        things.put(OBJECT, object, usage)?;
        things.put(LIST, object, Use::Looks)?;
    }
    Ok(())
}

/// The list of names in a directory.
fn put_list(things: &mut Things, state: &WalkState, handle: &FileHandle) -> Result<(), AllocError> {
    if let Some(directory) = put_object(things, state, handle, Use::Looks)? {
        things.put(LIST, directory, Use::Looks)?;
    }
    Ok(())
}

/// What a call comes to in a state.
fn things_of(alloc: Global, state: &WalkState, call: &NfsCall) -> Result<Things, AllocError> {
    let mut things = Things {
        list: Vec::new(alloc),
        is_any: false,
    };
    match call {
        NfsCall::GetAttr(object) | NfsCall::ReadLink(object) => {
            put_object(&mut things, state, object, Use::Looks)?;
        }
        NfsCall::SetAttr(call) => {
            put_object(&mut things, state, &call.object, Use::Changes)?;
        }
        NfsCall::Read(call) => {
            put_object(&mut things, state, &call.file, Use::Looks)?;
        }
        NfsCall::Commit(call) => {
            put_object(&mut things, state, &call.file, Use::Looks)?;
        }
        NfsCall::Write(call) => {
            put_object(&mut things, state, &call.file, Use::Changes)?;
        }
        NfsCall::Lookup(place) => put_place(&mut things, state, place, Use::Looks)?,
        NfsCall::Remove(place) | NfsCall::RmDir(place) => {
            put_place(&mut things, state, place, Use::Changes)?;
        }
        NfsCall::Create(call) => put_place(&mut things, state, &call.place, Use::Changes)?,
        NfsCall::MkDir(call) => put_place(&mut things, state, &call.place, Use::Changes)?,
        NfsCall::SymLink(call) => put_place(&mut things, state, &call.place, Use::Changes)?,
        NfsCall::Rename(call) => {
            put_place(&mut things, state, &call.from, Use::Changes)?;
            put_place(&mut things, state, &call.to, Use::Changes)?;
        }
        NfsCall::ReadDir(call) => put_list(&mut things, state, &call.directory)?,
        NfsCall::ReadDirPlus(call) => put_list(&mut things, state, &call.directory)?,
    }
    Ok(things)
}

impl<'h> HistoryMachine<'h> {
    /// What a call or a crash comes to in a state.
    fn things(&self, state: &WalkState, n: u64) -> Result<Things, AllocError> {
        match self.judged(n) {
            Some(call) => things_of(self.alloc, state, call),
            None => Ok(Things {
                list: Vec::new(self.alloc),
                is_any: true,
            }),
        }
    }

    /// Whether all marked calls of a state's era are placed, or among these: then some other may be the first that is lost.
    fn may_lose_soon(&self, state: &WalkState, calls: &[u64]) -> bool {
        if self.history.eras() <= state.era || state.base.is_some() {
            return false;
        }
        let last = self.calls_up_to(state.era);
        for back in 0..last {
            let n = last - back;
            if self.era_of(n) < state.era {
                return true;
            }
            if self.is_missing(state, n) && !has_call(calls, n) {
                return false;
            }
        }
        true
    }

    /// Those of these calls that aren't placed, with what they come to.
    fn unplaced(&self, state: &WalkState, calls: &[u64]) -> Result<Vec<Coming>, AllocError> {
        let mut unplaced = Vec::new(self.alloc);
        for n in calls {
            if !self.is_told(state, *n) {
                let things = self.things(state, *n)?;
                unplaced.push(Coming { n: *n, things })?;
            }
        }
        Ok(unplaced)
    }

    /// Those of these calls that may matter to the last of them, in a state: they come to something that it comes to, or another one that matters to it.
    pub fn mattering(&self, state: &WalkState, calls: &[u64]) -> Result<Vec<u64>, AllocError> {
        if self.may_lose_soon(state, calls) {
            return Vec::from_slice(self.alloc, calls);
        }
        let mut left = self.unplaced(state, calls)?;
        let mut found = Vec::new(self.alloc);
        if let Some(last) = left.pop() {
            found.push(last)?;
        }
        for at in 0..calls.len() {
            left = without_met(self.alloc, left, &mut found, at)?;
        }
        let mut numbers = Vec::with_capacity(self.alloc, found.len())?;
        for one in &found {
            numbers.push(one.n)?;
        }
        Ok(numbers)
    }
}

/// Moves the calls that meet one of those that were found there, if it is one, and gives the rest.
fn without_met(
    alloc: Global,
    left: Vec<Coming>,
    found: &mut Vec<Coming>,
    at: usize,
) -> Result<Vec<Coming>, AllocError> {
    let mut rest = Vec::new(alloc);
    for one in left {
        let is_met = match found.get(at) {
            Some(other) => one.things.meet(&other.things),
            None => false,
        };
        if is_met {
            found.push(one)?;
        } else {
            rest.push(one)?;
        }
    }
    Ok(rest)
}
