//! The reply to a call, and what it changes.

use crate::change::Change;
use crate::failed::failed;
use crate::files::{commit, get_attributes, read, read_link, set_attributes, write};
use crate::listing::{list, list_plus};
use crate::names_of::{create, look_up, make_directory, make_link, remove, remove_directory};
use crate::renaming::rename;
use crate::scene::Scene;
use nfs3_types::{Failure, NfsCall, NfsReply};
use std::alloc::AllocError;

/// The reply to a call, and what it changes.
#[derive(Drop)]
pub struct Decision<'a> {
    /// The reply.
    pub reply: NfsReply,
    /// What the call changes: nothing where the reply is a failure.
    pub change: Change<'a>,
}

/// Why a call gets no success.
pub(crate) enum Stop {
    Failed(Failure),
    NoMemory,
}

impl From<Failure> for Stop {
    fn from(failure: Failure) -> Stop {
        Stop::Failed(failure)
    }
}

impl From<AllocError> for Stop {
    fn from(_error: AllocError) -> Stop {
        Stop::NoMemory
    }
}

impl<'a> Decision<'a> {
    /// The reply, and the change.
    pub fn into_parts(self) -> (NfsReply, Change<'a>) {
        let Decision { reply, change } = self;
        (reply, change)
    }

    /// A success that changes nothing.
    pub(crate) fn look(reply: NfsReply) -> Decision<'a> {
        Decision {
            reply,
            change: Change::Nothing,
        }
    }
}

/// The success of a call, or why it gets none.
fn succeed<'a>(scene: &Scene<'_>, call: &'a NfsCall) -> Result<Decision<'a>, Stop> {
    match call {
        NfsCall::GetAttr(object) => get_attributes(scene, object),
        NfsCall::SetAttr(call) => set_attributes(scene, call),
        NfsCall::Lookup(place) => look_up(scene, place),
        NfsCall::ReadLink(link) => read_link(scene, link),
        NfsCall::Read(call) => read(scene, call),
        NfsCall::Write(call) => write(scene, call),
        NfsCall::Create(call) => create(scene, call),
        NfsCall::MkDir(call) => make_directory(scene, call),
        NfsCall::SymLink(call) => make_link(scene, call),
        NfsCall::Remove(place) => remove(scene, place),
        NfsCall::RmDir(place) => remove_directory(scene, place),
        NfsCall::Rename(call) => rename(scene, call),
        NfsCall::ReadDir(call) => list(scene, call),
        NfsCall::ReadDirPlus(call) => list_plus(scene, call),
        NfsCall::Commit(call) => commit(scene, call),
    }
}

/// The reply to a call: its success where the objects allow one, else the first status of the first cause that holds
/// (docs/SERVER.md), and what the call changes.
pub fn decide<'a>(scene: &Scene<'_>, call: &'a NfsCall) -> Result<Decision<'a>, AllocError> {
    match succeed(scene, call) {
        Ok(decision) => Ok(decision),
        Err(Stop::Failed(failure)) => Ok(Decision::look(failed(scene, call, failure)?)),
        Err(Stop::NoMemory) => Err(AllocError),
    }
}
