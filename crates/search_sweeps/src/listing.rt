//! Which calls bring a directory nearer to what a READDIR or a READDIRPLUS shows of it.

use crate::sweep::Sweep;
use nfs3_types::{Answer, DirectoryName, FileHandle, NfsCall, NfsReply, Outcome};
use search_lessons::{found_of, made_by};
use search_problem::FoundCall;
use std::alloc::AllocError;

/// The directory whose entries a call shows.
fn directory_listed(call: &NfsCall) -> Option<&FileHandle> {
    match call {
        NfsCall::ReadDir(list) => Some(&list.directory),
        NfsCall::ReadDirPlus(list) => Some(&list.directory),
        _ => None,
    }
}

/// Whether a reply shows an entry of this name.
fn shows(outcome: &Outcome, name: &[u8]) -> bool {
    match outcome {
        Outcome::Received(NfsReply::ReadDir(Answer::Done(success))) => success
            .entries
            .as_slice()
            .iter()
            .any(|entry| entry.name.as_slice() == name),
        Outcome::Received(NfsReply::ReadDirPlus(Answer::Done(success))) => success
            .entries
            .as_slice()
            .iter()
            .any(|entry| entry.name.as_slice() == name),
        _ => false,
    }
}

/// The entry that a call takes away.
fn taken_by(call: &NfsCall) -> Option<&DirectoryName> {
    match call {
        NfsCall::Remove(place) | NfsCall::RmDir(place) => Some(place),
        NfsCall::Rename(rename) => Some(&rename.from),
        _ => None,
    }
}

/// The entry that a call puts.
fn put_by(call: &NfsCall) -> Option<&DirectoryName> {
    match call {
        NfsCall::Rename(rename) => Some(&rename.to),
        _ => made_by(call),
    }
}

impl<'p, 's, 'a> Sweep<'p, 's, 'a> {
    /// Whether two handles name one object.
    fn are_same(&self, one: &FileHandle, other: &FileHandle) -> bool {
        one.as_slice() == other.as_slice()
            || self.state.binds().object(one.as_slice())
                == self.state.binds().object(other.as_slice())
    }

    /// Whether an entry is as a reply shows it, once it is put or taken away; nothing of one that is in no directory that it shows.
    fn is_as_shown(
        &self,
        found: &FoundCall,
        place: Option<&DirectoryName>,
        is_put: bool,
    ) -> Option<bool> {
        let place = place?;
        let directory = directory_listed(&found.call)?;
        if !self.are_same(&place.directory, directory) {
            return None;
        }
        Some(shows(&found.outcome, place.name.as_slice()) == is_put)
    }

    /// Whether a call that is placed brings a directory nearer to what another one shows of it.
    fn is_nearer(&self, found: &FoundCall, helper: &FoundCall) -> bool {
        let taken = self.is_as_shown(found, taken_by(&helper.call), false);
        let put = self.is_as_shown(found, put_by(&helper.call), true);
        taken != Some(false) && put != Some(false) && (taken.is_some() || put.is_some())
    }

    /// How many calls more may go ahead of a call that don't bring a directory nearer to what it shows, where one was placed ahead of it.
    pub(crate) fn blind_left(
        &self,
        found: &FoundCall,
        helper: u64,
        blind: u32,
    ) -> Result<u32, AllocError> {
        if directory_listed(&found.call).is_none() {
            return Ok(blind.saturating_sub(1));
        }
        match found_of(self.alloc, self.problem, helper)? {
            Some(helper) if self.is_nearer(found, &helper) => Ok(blind),
            _ => Ok(blind.saturating_sub(1)),
        }
    }
}
