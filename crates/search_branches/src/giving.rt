//! The handles that replies give, bound to the objects that they name.

use crate::branch_facts::BranchFacts;
use nfs3_types::{
    Answer, CreateSuccess, DirectoryName, FileHandle, NfsCall, NfsReply, Outcome,
    ReadDirPlusSuccess,
};
use search_problem::FoundCall;
use std::alloc::AllocError;
use tree_answers::object_named;
use tree_handles::{View, directory_of, named};
use tree_nodes::Nodes;

impl BranchFacts {
    /// The object of an entry of a directory.
    fn entry_object(&self, nodes: &Nodes, place: &DirectoryName) -> Option<u64> {
        let view = View {
            binds: &self.binds,
            nodes,
        };
        match named(&view, place) {
            Some(node) => Some(node.object),
            None => None,
        }
    }

    /// The object that a LOOKUP finds: an entry, or with `.` and `..` the directory itself and the one that it lies in.
    fn object_looked_up(&self, nodes: &Nodes, place: &DirectoryName) -> Option<u64> {
        let view = View {
            binds: &self.binds,
            nodes,
        };
        let directory = directory_of(&view, &place.directory)?;
        object_named(nodes, directory, place.name.as_slice())
    }

    /// Binds the handle that a call was given for the object that it made, or for one that it found there.
    fn bind_made(
        &mut self,
        nodes: &Nodes,
        made: u64,
        place: &DirectoryName,
        success: &CreateSuccess,
    ) -> Result<(), AllocError> {
        let Some(handle) = &success.object else {
            return Ok(());
        };
        let object = self.entry_object(nodes, place).unwrap_or(made);
        self.bind(handle, object)
    }

    /// Binds the handles of a list of entries. Those beside `.` and `..` aren't judged, so they are taken for the directory's own and for
    /// that of the one that it lies in.
    fn bind_listed(
        &mut self,
        nodes: &Nodes,
        directory: &FileHandle,
        success: &ReadDirPlusSuccess,
    ) -> Result<(), AllocError> {
        let view = View {
            binds: &self.binds,
            nodes,
        };
        let Some(parent) = directory_of(&view, directory) else {
            return Ok(());
        };
        for entry in success.entries.as_slice() {
            if let Some(handle) = &entry.object {
                if let Some(object) = object_named(nodes, parent, entry.name.as_slice()) {
                    self.bind(handle, object)?;
                }
            }
        }
        Ok(())
    }

    /// Binds the handles that a reply gives and that are bound to no object yet, as the tree before the call has them. What the call
    /// makes, if anything, has the number `made`.
    pub(crate) fn bind_given(
        &mut self,
        nodes: &Nodes,
        made: u64,
        found: &FoundCall,
    ) -> Result<(), AllocError> {
        let Outcome::Received(reply) = &found.outcome else {
            return Ok(());
        };
        match (&found.call, reply) {
            (NfsCall::Create(call), NfsReply::Create(Answer::Done(success))) => {
                self.bind_made(nodes, made, &call.place, success)
            }
            (NfsCall::MkDir(call), NfsReply::MkDir(Answer::Done(success))) => {
                self.bind_made(nodes, made, &call.place, success)
            }
            (NfsCall::SymLink(call), NfsReply::SymLink(Answer::Done(success))) => {
                self.bind_made(nodes, made, &call.place, success)
            }
            (NfsCall::Lookup(place), NfsReply::Lookup(Answer::Done(success))) => {
                match self.object_looked_up(nodes, place) {
                    Some(object) => self.bind(&success.object, object),
                    None => Ok(()),
                }
            }
            (NfsCall::ReadDirPlus(call), NfsReply::ReadDirPlus(Answer::Done(success))) => {
                self.bind_listed(nodes, &call.directory, success)
            }
            _ => Ok(()),
        }
    }
}
