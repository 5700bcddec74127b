//! Successes that a tree may give. Nothing is proved of them but that they are safe to make: the tree is asked about each.

use crate::{changes, lists, looks};
use certificate::Bind;
use nfs3_types::{FileHandle, NfsCall, NfsReply};
use std::alloc::{AllocError, Global};
use tree_handles::View;

/// What a success is made of.
#[derive(Clone, Copy)]
pub(crate) struct Site<'a> {
    pub(crate) alloc: Global,
    pub(crate) view: View<'a>,
    /// The root's handle.
    pub(crate) root: &'a FileHandle,
    /// The other handles, with their objects.
    pub(crate) handles: &'a [Bind],
    /// The number of the object that the call makes, if any.
    pub(crate) object: u64,
}

impl Site<'_> {
    /// A handle of an object, where there is one.
    pub(crate) fn handle(&self, object: u64) -> Result<Option<FileHandle>, AllocError> {
        if object == 0 {
            return Ok(Some(self.root.clone()?));
        }
        match self.handles.iter().find(|bind| bind.object == object) {
            Some(bind) => Ok(Some(bind.handle.clone()?)),
            None => Ok(None),
        }
    }
}

/// The success of a call, where the tree may have one.
pub(crate) fn done(site: &Site<'_>, call: &NfsCall) -> Result<Option<NfsReply>, AllocError> {
    match call {
        NfsCall::GetAttr(object) => looks::attributes(site, object),
        NfsCall::Lookup(place) => looks::found(site, place),
        NfsCall::ReadLink(link) => looks::text(site, link),
        NfsCall::Read(call) => looks::bytes(site, call),
        NfsCall::ReadDir(call) => lists::names(site, call),
        NfsCall::ReadDirPlus(call) => lists::names_plus(site, call),
        NfsCall::Create(call) => changes::file_made(site, &call.place),
        NfsCall::MkDir(call) => changes::directory_made(site, &call.place),
        NfsCall::SymLink(call) => changes::link_made(site, &call.place),
        _ => changes::other(site, call),
    }
}
