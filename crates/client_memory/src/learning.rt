//! What a client takes in from the replies.

use crate::facts::{Facts, Kind};
use crate::known::Known;
use crate::lists::{Exclusive, Page};
use call_making::{Base, Realm, is_name, is_own};
use nfs3_types::{
    Answer, CreateArguments, CreateMode, DirectoryName, Failure, FileHandle, Name, NfsCall,
    NfsReply, RenameArguments, Verifier,
};
use std::alloc::{AllocError, Global};

/// How many names whose objects aren't known are kept.
const UNSEEN_ROOM: usize = 8;

/// What a client knows and keeps to ask on by.
#[derive(Drop)]
pub struct Memory {
    /// The number of the client.
    client: u32,
    /// The objects.
    pub known: Known,
    /// Names whose objects aren't known though a call gave them.
    unseen: Vec<DirectoryName>,
    /// How many of the names that calls may have given or taken have to be looked up.
    past_due: usize,
    /// The next page of the list that was read last.
    pub page: Option<Page>,
    /// A page of an earlier list.
    pub old_page: Option<Page>,
    /// The exclusive CREATE that was asked last.
    pub exclusive: Option<Exclusive>,
    /// How many calls that may change the tree of files are on their way.
    pub changes: u32,
    /// The write verifier that was told last.
    pub(crate) verifier: Option<Verifier>,
}

/// What stands behind `NFS3_OK`.
pub(crate) fn done<S, F>(answer: &Answer<S, F>) -> Option<&S> {
    match answer {
        Answer::Done(success) => Some(success),
        Answer::Failed(_, _) => None,
    }
}

/// Whether it is `.` or `..`.
fn is_dots(name: &[u8]) -> bool {
    name == b".".as_slice() || name == b"..".as_slice()
}

/// The first handle of a call.
fn first_handle(call: &NfsCall) -> &FileHandle {
    match call {
        NfsCall::GetAttr(object) => object,
        NfsCall::SetAttr(arguments) => &arguments.object,
        NfsCall::Lookup(place) => &place.directory,
        NfsCall::ReadLink(link) => link,
        NfsCall::Read(arguments) => &arguments.file,
        NfsCall::Write(arguments) => &arguments.file,
        NfsCall::Create(arguments) => &arguments.place.directory,
        NfsCall::MkDir(arguments) => &arguments.place.directory,
        NfsCall::SymLink(arguments) => &arguments.place.directory,
        NfsCall::Remove(place) => &place.directory,
        NfsCall::RmDir(place) => &place.directory,
        NfsCall::Rename(arguments) => &arguments.from.directory,
        NfsCall::ReadDir(arguments) => &arguments.directory,
        NfsCall::ReadDirPlus(arguments) => &arguments.directory,
        NfsCall::Commit(arguments) => &arguments.file,
    }
}

/// Whether a call may change the tree of files.
fn may_change(call: &NfsCall) -> bool {
    match call {
        NfsCall::SetAttr(arguments) => arguments.attributes.size.is_some(),
        NfsCall::Write(_) => true,
        NfsCall::Lookup(_) => false,
        _ => first_place(call).is_some(),
    }
}

/// The first name of a call.
fn first_place(call: &NfsCall) -> Option<&DirectoryName> {
    match call {
        NfsCall::Lookup(place) | NfsCall::Remove(place) | NfsCall::RmDir(place) => Some(place),
        NfsCall::Create(arguments) => Some(&arguments.place),
        NfsCall::MkDir(arguments) => Some(&arguments.place),
        NfsCall::SymLink(arguments) => Some(&arguments.place),
        NfsCall::Rename(arguments) => Some(&arguments.from),
        _ => None,
    }
}

impl Memory {
    /// That of a client which knows only the root.
    pub fn new(alloc: Global, client: u32, root: FileHandle) -> Memory {
        Memory {
            client,
            known: Known::new(alloc, root),
            unseen: Vec::new(alloc),
            past_due: 0,
            page: None,
            old_page: None,
            exclusive: None,
            changes: 0,
            verifier: None,
        }
    }

    /// Takes in a reply to a call.
    pub fn learn(&mut self, call: &NfsCall, reply: &NfsReply) -> Result<(), AllocError> {
        self.end(call);
        if let NfsCall::Create(arguments) = call {
            self.keep_exclusive(arguments)?;
        }
        self.note_names(call)?;
        match reply.failure() {
            Some(failure) => self.learn_failure(call, failure),
            None => self.learn_success(call, reply),
        }
    }

    /// Whether a call without a reply was done is asked by looking at its name or its file; an exclusive CREATE may be asked again.
    pub fn give_up(&mut self, call: &NfsCall) -> Result<(), AllocError> {
        self.end(call);
        if let NfsCall::Create(arguments) = call {
            self.keep_exclusive(arguments)?;
        }
        self.note_names(call)?;
        self.doubt_call(call)
    }

    /// The server ran again after a crash: all names have to be looked up.
    pub fn new_era(&mut self) {
        self.known.doubt();
        self.past_due = self.known.past_count();
    }

    /// How many objects that were known before the last crash, and names that calls may have given or taken then, are still to be looked up or
    /// to be looked at.
    pub fn unread(&self) -> usize {
        self.known.unread().saturating_add(self.past_due)
    }

    /// The name that has to be looked up first, of an object that isn't known.
    pub fn unseen(&self) -> Option<&DirectoryName> {
        match self.unseen.get(0) {
            Some(place) => Some(place),
            None => self.known.past(self.past_due.checked_sub(1)?),
        }
    }

    /// A call was drawn, and what was owed first is asked for by it, if anything was.
    pub fn pay(&mut self) {
        if !self.unseen.is_empty() {
            drop(self.unseen.remove(0));
        } else if self.past_due > 0 {
            self.past_due = self.past_due.saturating_sub(1);
        } else {
            self.known.pay();
        }
    }

    /// A call isn't on its way any more.
    fn end(&mut self, call: &NfsCall) {
        if may_change(call) {
            self.changes = self.changes.saturating_sub(1);
        }
    }

    /// A call that was drawn is asked.
    pub fn note_asked(&mut self, call: &NfsCall) {
        if may_change(call) {
            self.changes = self.changes.saturating_add(1);
        }
        let object = match call {
            NfsCall::GetAttr(object) => object,
            NfsCall::ReadLink(link) => link,
            NfsCall::Read(arguments) => &arguments.file,
            NfsCall::ReadDir(arguments) => &arguments.directory,
            NfsCall::ReadDirPlus(arguments) => &arguments.directory,
            _ => return,
        };
        if let Some(facts) = self.known.facts_mut(object.as_slice()) {
            facts.take_look();
        }
    }

    /// Keeps the names of a call that may have changed what they are for.
    fn note_names(&mut self, call: &NfsCall) -> Result<(), AllocError> {
        if !may_change(call) {
            return Ok(());
        }
        if let Some(place) = first_place(call) {
            self.known.note_past(place)?;
        }
        match call {
            NfsCall::Rename(arguments) => self.known.note_past(&arguments.to),
            _ => Ok(()),
        }
    }

    /// It isn't known whether a call was done: its name is looked up, or its file looked at.
    fn doubt_call(&mut self, call: &NfsCall) -> Result<(), AllocError> {
        match first_place(call) {
            Some(place) => self.see(place),
            None => {
                if let Some(facts) = self.known.facts_mut(first_handle(call).as_slice()) {
                    facts.deserve_looks();
                }
                Ok(())
            }
        }
    }

    fn keep_exclusive(&mut self, arguments: &CreateArguments) -> Result<(), AllocError> {
        if let CreateMode::Exclusive(verifier) = arguments.mode {
            self.exclusive = Some(Exclusive {
                directory: arguments.place.directory.clone()?,
                name: arguments.place.name.clone()?,
                verifier,
            });
        }
        Ok(())
    }

    fn learn_failure(&mut self, call: &NfsCall, failure: Failure) -> Result<(), AllocError> {
        if matches!(call, NfsCall::ReadDir(_) | NfsCall::ReadDirPlus(_)) {
            self.page = None;
            self.old_page = None;
        }
        match failure {
            Failure::Stale | Failure::BadHandle => self.lose_object(first_handle(call)),
            Failure::NoEntry => match first_place(call) {
                Some(place) => self.lose_name(place),
                None => Ok(()),
            },
            Failure::Exists => match first_place(call) {
                Some(place) => self.see(place),
                None => Ok(()),
            },
            Failure::InputOutput | Failure::ServerFault => self.doubt_call(call),
            _ => Ok(()),
        }
    }

    fn lose_object(&mut self, handle: &FileHandle) -> Result<(), AllocError> {
        match self.known.index_of(handle.as_slice()) {
            Some(index) => self.known.lose(index),
            None => Ok(()),
        }
    }

    fn lose_name(&mut self, place: &DirectoryName) -> Result<(), AllocError> {
        match self.index_at(place) {
            Some(index) => self.known.lose(index),
            None => Ok(()),
        }
    }

    fn index_at(&self, place: &DirectoryName) -> Option<usize> {
        self.known
            .index_at(place.directory.as_slice(), place.name.as_slice())
    }

    /// Something may have this name: it has to be looked up where it isn't known.
    fn see(&mut self, place: &DirectoryName) -> Result<(), AllocError> {
        if self.index_at(place).is_some() || is_dots(place.name.as_slice()) {
            return Ok(());
        }
        self.look_up_next(place)
    }

    /// Something has this name, which has to be looked up.
    pub(crate) fn look_up_next(&mut self, place: &DirectoryName) -> Result<(), AllocError> {
        let place = place.clone()?;
        if self.unseen.len() < UNSEEN_ROOM {
            self.unseen.push(place)?;
        }
        Ok(())
    }

    fn learn_success(&mut self, call: &NfsCall, reply: &NfsReply) -> Result<(), AllocError> {
        match call {
            NfsCall::Lookup(place) => self.learn_look_up(place, reply),
            NfsCall::Create(arguments) => self.learn_made(&arguments.place, Kind::File, reply),
            NfsCall::MkDir(arguments) => self.learn_made(&arguments.place, Kind::Directory, reply),
            NfsCall::SymLink(arguments) => self.learn_made(&arguments.place, Kind::Link, reply),
            NfsCall::Remove(place) | NfsCall::RmDir(place) => self.lose_name(place),
            NfsCall::Rename(arguments) => self.learn_rename(arguments),
            NfsCall::ReadDir(arguments) => self.learn_list(&arguments.directory, reply),
            NfsCall::ReadDirPlus(arguments) => self.learn_list(&arguments.directory, reply),
            _ => {
                self.learn_file(call, reply);
                Ok(())
            }
        }
    }

    fn learn_rename(&mut self, arguments: &RenameArguments) -> Result<(), AllocError> {
        if self.index_at(&arguments.from) == self.index_at(&arguments.to) {
            return Ok(());
        }
        self.lose_name(&arguments.to)?;
        let Some(index) = self.index_at(&arguments.from) else {
            return self.see(&arguments.to);
        };
        let directory = arguments.to.directory.clone()?;
        let name = arguments.to.name.clone()?;
        let place = self.first_facts(&arguments.to.directory, &arguments.to.name, Kind::Unknown);
        self.known.move_to(index, directory, name);
        if let Some(place) = place
            && let Some(facts) = self.known.facts_at(index)
        {
            facts.realm = place.realm;
            facts.is_own = place.is_own;
            facts.deserve_looks();
        }
        Ok(())
    }

    /// What is to be believed of an object by its place; nothing where the client doesn't work there.
    pub(crate) fn first_facts(
        &self,
        directory: &FileHandle,
        name: &Name,
        kind: Kind,
    ) -> Option<Facts> {
        let name = name.as_slice();
        if !is_name(name) || is_dots(name) {
            return None;
        }
        if self.known.is_root(directory.as_slice()) {
            let base = Base::of(name, self.client)?;
            return Some(Facts::new(kind, base.realm(), Some(base), false));
        }
        let realm = self
            .known
            .facts(self.known.index_of(directory.as_slice())?)?
            .realm;
        let may_change = realm != Realm::Shared || is_own(name, self.client);
        Some(Facts::new(kind, realm, None, may_change))
    }
}
