//! The names that replies give with handles.

use crate::facts::found_of;
use indexmap::IndexMap;
use nfs3_types::{
    Answer, CreateSuccess, DirectoryName, FileHandle, NfsCall, NfsReply, Outcome,
    ReadDirPlusSuccess,
};
use search_problem::{FoundCall, Problem};
use std::alloc::{AllocError, Global};

/// For each handle the names under which replies show it, whatever the directory.
#[derive(Drop)]
pub struct NamesGiven {
    alloc: Global,
    names: IndexMap<Vec<u8>, Vec<Vec<u8>>>,
}

impl NamesGiven {
    /// As the replies of a history give them. Each call is read once.
    pub fn of(alloc: Global, problem: &Problem<'_, '_>) -> Result<NamesGiven, AllocError> {
        let mut given = NamesGiven {
            alloc,
            names: IndexMap::new(alloc),
        };
        for index in 0..problem.known().count() {
            if let Some(found) = found_of(alloc, problem, index as u64 + 1)? {
                given.note(&found)?;
            }
        }
        Ok(given)
    }

    /// Whether a reply shows a handle under a name.
    pub fn has(&self, handle: &FileHandle, name: &[u8]) -> bool {
        match self.names.get(handle.as_slice()) {
            Some(names) => names.iter().any(|other| other.as_slice() == name),
            None => false,
        }
    }

    /// Notes a name of a handle.
    fn put(&mut self, handle: &FileHandle, name: &[u8]) -> Result<(), AllocError> {
        if self.has(handle, name) {
            return Ok(());
        }
        let name = Vec::from_slice(self.alloc, name)?;
        if let Some(names) = self.names.get_mut(handle.as_slice()) {
            names.push(name)?;
            return Ok(());
        }
        let mut names = Vec::new(self.alloc);
        names.push(name)?;
        let key = Vec::from_slice(self.alloc, handle.as_slice())?;
        self.names.insert(key, names)?;
        Ok(())
    }

    /// Notes the handle of what was made.
    fn put_made(
        &mut self,
        place: &DirectoryName,
        success: &CreateSuccess,
    ) -> Result<(), AllocError> {
        match &success.object {
            Some(handle) => self.put(handle, place.name.as_slice()),
            None => Ok(()),
        }
    }

    /// Notes the handles in a list of entries.
    fn put_listed(&mut self, success: &ReadDirPlusSuccess) -> Result<(), AllocError> {
        for entry in success.entries.as_slice() {
            if let Some(handle) = &entry.object {
                self.put(handle, entry.name.as_slice())?;
            }
        }
        Ok(())
    }

    /// Notes the handles that a call's reply gives.
    fn note(&mut self, found: &FoundCall) -> Result<(), AllocError> {
        let Outcome::Received(reply) = &found.outcome else {
            return Ok(());
        };
        match (&found.call, reply) {
            (NfsCall::Create(call), NfsReply::Create(Answer::Done(success))) => {
                self.put_made(&call.place, success)
            }
            (NfsCall::MkDir(call), NfsReply::MkDir(Answer::Done(success))) => {
                self.put_made(&call.place, success)
            }
            (NfsCall::SymLink(call), NfsReply::SymLink(Answer::Done(success))) => {
                self.put_made(&call.place, success)
            }
            (NfsCall::Lookup(place), NfsReply::Lookup(Answer::Done(success))) => {
                self.put(&success.object, place.name.as_slice())
            }
            (NfsCall::ReadDirPlus(_), NfsReply::ReadDirPlus(Answer::Done(success))) => {
                self.put_listed(success)
            }
            _ => Ok(()),
        }
    }
}
