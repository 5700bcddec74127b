//! Replies that are failures. The object of the call's first handle, and a RENAME's second directory, are as they were.

use crate::change::Change;
use crate::scene::Scene;
use nfs3_types::{
    Answer, Failure, FileAttributes, FileHandle, NfsCall, NfsReply, Optional, WccData,
};
use std::alloc::AllocError;

/// A failure, with the scene in which its call stays without effect.
#[derive(Clone, Copy)]
struct Failing<'s> {
    scene: &'s Scene<'s>,
    failure: Failure,
}

impl Failing<'_> {
    /// The answer to a call that changes nothing, with the attributes of a handle's object.
    fn look<S>(
        &self,
        handle: &FileHandle,
    ) -> Result<Answer<S, Optional<FileAttributes>>, AllocError> {
        let attributes = self.scene.attributes(handle)?;
        Ok(Answer::Failed(self.failure, attributes))
    }

    /// The answer to a call that changes something, with the attributes of a handle's object before and after.
    fn change<S>(&self, handle: &FileHandle) -> Result<Answer<S, WccData>, AllocError> {
        let wcc = self.scene.wcc(handle, &Change::Nothing)?;
        Ok(Answer::Failed(self.failure, wcc))
    }
}

/// A call's failure.
pub(crate) fn failed(
    scene: &Scene<'_>,
    call: &NfsCall,
    failure: Failure,
) -> Result<NfsReply, AllocError> {
    let failing = Failing { scene, failure };
    let reply = match call {
        NfsCall::GetAttr(_) => NfsReply::GetAttr(Answer::Failed(failure, ())),
        NfsCall::SetAttr(call) => NfsReply::SetAttr(failing.change(&call.object)?),
        NfsCall::Lookup(place) => NfsReply::Lookup(failing.look(&place.directory)?),
        NfsCall::ReadLink(link) => NfsReply::ReadLink(failing.look(link)?),
        NfsCall::Read(call) => NfsReply::Read(failing.look(&call.file)?),
        NfsCall::Write(call) => NfsReply::Write(failing.change(&call.file)?),
        NfsCall::Create(call) => NfsReply::Create(failing.change(&call.place.directory)?),
        NfsCall::MkDir(call) => NfsReply::MkDir(failing.change(&call.place.directory)?),
        NfsCall::SymLink(call) => NfsReply::SymLink(failing.change(&call.place.directory)?),
        NfsCall::Remove(place) => NfsReply::Remove(failing.change(&place.directory)?),
        NfsCall::RmDir(place) => NfsReply::RmDir(failing.change(&place.directory)?),
        NfsCall::Rename(call) => {
            let both = scene.wcc_of_both(call, &Change::Nothing)?;
            NfsReply::Rename(Answer::Failed(failure, both))
        }
        NfsCall::ReadDir(call) => NfsReply::ReadDir(failing.look(&call.directory)?),
        NfsCall::ReadDirPlus(call) => NfsReply::ReadDirPlus(failing.look(&call.directory)?),
        NfsCall::Commit(call) => NfsReply::Commit(failing.change(&call.file)?),
    };
    Ok(reply)
}
