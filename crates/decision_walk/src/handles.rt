//! The handles of a history: those that calls name, and those that replies give.

use crate::machine::HistoryMachine;
use nfs_history::{Meaning, RecordedCall};
use nfs3_types::{Answer, FileHandle, NfsReply, Outcome};
use std::alloc::AllocError;
use tree_answers::{first_handle, second_handle};

/// Puts the handles there that a reply gives.
fn put_given<'h>(list: &mut Vec<&'h FileHandle>, reply: &'h NfsReply) -> Result<(), AllocError> {
    match reply {
        NfsReply::Lookup(Answer::Done(success)) => list.push(&success.object)?,
        NfsReply::Create(Answer::Done(success)) => list.extend(success.object.as_ref())?,
        NfsReply::MkDir(Answer::Done(success)) => list.extend(success.object.as_ref())?,
        NfsReply::SymLink(Answer::Done(success)) => list.extend(success.object.as_ref())?,
        NfsReply::ReadDirPlus(Answer::Done(success)) => {
            for entry in success.entries.as_slice() {
                list.extend(entry.object.as_ref())?;
            }
        }
        _ => {}
    }
    Ok(())
}

/// Puts the handles there of a call and of its reply.
fn put_handles<'h>(
    list: &mut Vec<&'h FileHandle>,
    recorded: &'h RecordedCall,
) -> Result<(), AllocError> {
    if let Meaning::Judged(call) = &recorded.meaning {
        list.push(first_handle(call))?;
        list.extend(second_handle(call))?;
    }
    match &recorded.outcome {
        Some(Outcome::Received(reply)) => put_given(list, reply),
        _ => Ok(()),
    }
}

impl<'h> HistoryMachine<'h> {
    /// All of them, some more than once.
    pub(crate) fn handles(&self) -> Result<Vec<&'h FileHandle>, AllocError> {
        let mut list = Vec::new(self.alloc);
        for recorded in self.history.recorded_calls() {
            put_handles(&mut list, recorded)?;
        }
        Ok(list)
    }
}
