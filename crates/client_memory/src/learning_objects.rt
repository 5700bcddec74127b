//! What a client takes in of objects: their handles, sizes and lists.

use crate::facts::{Debt, Facts, Kind, Written};
use crate::known::KnownObject;
use crate::learning::{Memory, done};
use crate::lists::Page;
use nfs3_types::{
    CreateSuccess, DirectoryEntryPlus, DirectoryName, FileAttributes, FileHandle, Name, NfsCall,
    NfsReply, ReadArguments, ReadSuccess, Verifier, WriteArguments, WriteSuccess,
};
use std::alloc::AllocError;

impl Memory {
    /// An object has a name: a new one, or one that is known by its handle.
    fn note(
        &mut self,
        directory: &FileHandle,
        name: &Name,
        handle: &FileHandle,
        told: Facts,
    ) -> Result<(), AllocError> {
        let at = self.known.index_at(directory.as_slice(), name.as_slice());
        let same = self.known.index_of(handle.as_slice());
        if let Some(index) = at
            && at != same
        {
            self.known.lose(index)?;
        }
        match self.known.index_of(handle.as_slice()) {
            Some(index) => {
                let directory = directory.clone()?;
                self.known.move_to(index, directory, name.clone()?);
                if let Some(facts) = self.known.facts_at(index) {
                    facts.take(told);
                }
                Ok(())
            }
            None => self.known.add(KnownObject {
                handle: handle.clone()?,
                directory: directory.clone()?,
                name: name.clone()?,
                facts: told,
            }),
        }
    }

    /// LOOKUP gave an object.
    pub(crate) fn learn_look_up(
        &mut self,
        place: &DirectoryName,
        reply: &NfsReply,
    ) -> Result<(), AllocError> {
        let NfsReply::Lookup(answer) = reply else {
            return Ok(());
        };
        let Some(success) = done(answer) else {
            return Ok(());
        };
        let attributes = success.attributes.as_ref();
        if let Some(mut told) = self.first_facts(&place.directory, &place.name, Kind::Unknown) {
            told.take_told(attributes);
            self.note(&place.directory, &place.name, &success.object, told)?;
        }
        self.pay_name(&success.object);
        Ok(())
    }

    /// An object whose name was looked up again is looked at next.
    fn pay_name(&mut self, handle: &FileHandle) {
        if let Some(facts) = self.known.facts_mut(handle.as_slice())
            && facts.debt == Debt::Asked
        {
            facts.debt = Debt::Object;
        }
    }

    /// CREATE, MKDIR or SYMLINK made an object of this kind.
    pub(crate) fn learn_made(
        &mut self,
        place: &DirectoryName,
        kind: Kind,
        reply: &NfsReply,
    ) -> Result<(), AllocError> {
        let answer = match reply {
            NfsReply::Create(answer) | NfsReply::MkDir(answer) | NfsReply::SymLink(answer) =>
                answer,
            _ => return Ok(()),
        };
        let Some(success) = done(answer) else {
            return Ok(());
        };
        self.take_made(place, kind, success)
    }

    fn take_made(
        &mut self,
        place: &DirectoryName,
        kind: Kind,
        success: &CreateSuccess,
    ) -> Result<(), AllocError> {
        let Some(handle) = &success.object else {
            return self.look_up_next(place);
        };
        match self.first_facts(&place.directory, &place.name, kind) {
            Some(mut told) => {
                told.deserve_looks();
                if let Some(attributes) = success.attributes.as_ref() {
                    told.take_attributes(attributes);
                }
                self.note(&place.directory, &place.name, handle, told)
            }
            None => Ok(()),
        }
    }

    /// READDIR or READDIRPLUS gave a list, or a page of it.
    pub(crate) fn learn_list(
        &mut self,
        directory: &FileHandle,
        reply: &NfsReply,
    ) -> Result<(), AllocError> {
        match reply {
            NfsReply::ReadDir(answer) => {
                let Some(list) = done(answer) else {
                    return Ok(());
                };
                let cookie = match list.entries.as_slice().last() {
                    Some(entry) if !list.eof => Some(entry.cookie),
                    _ => None,
                };
                self.keep_page(directory, false, cookie, list.verifier)
            }
            NfsReply::ReadDirPlus(answer) => {
                let Some(list) = done(answer) else {
                    return Ok(());
                };
                let cookie = match list.entries.as_slice().last() {
                    Some(entry) if !list.eof => Some(entry.cookie),
                    _ => None,
                };
                self.keep_page(directory, true, cookie, list.verifier)?;
                for entry in list.entries.as_slice() {
                    self.note_entry(directory, entry)?;
                }
                Ok(())
            }
            _ => Ok(()),
        }
    }

    fn keep_page(
        &mut self,
        directory: &FileHandle,
        plus: bool,
        cookie: Option<u64>,
        verifier: Verifier,
    ) -> Result<(), AllocError> {
        let page = match cookie {
            Some(cookie) => Some(Page {
                directory: directory.clone()?,
                plus,
                cookie,
                verifier,
            }),
            None => None,
        };
        if let Some(before) = self.page.take() {
            self.old_page = Some(before);
        }
        self.page = page;
        Ok(())
    }

    fn note_entry(
        &mut self,
        directory: &FileHandle,
        entry: &DirectoryEntryPlus,
    ) -> Result<(), AllocError> {
        let Some(handle) = &entry.object else {
            return Ok(());
        };
        match self.first_facts(directory, &entry.name, Kind::Unknown) {
            Some(mut told) => {
                told.take_told(entry.attributes.as_ref());
                self.note(directory, &entry.name, handle, told)
            }
            None => Ok(()),
        }
    }

    /// Attributes, sizes and verifiers of calls on an object.
    pub(crate) fn learn_file(&mut self, call: &NfsCall, reply: &NfsReply) {
        match call {
            NfsCall::GetAttr(object) => {
                if let NfsReply::GetAttr(answer) = reply
                    && let Some(attributes) = done(answer)
                {
                    self.take_attributes(object, Some(&**attributes));
                }
            }
            NfsCall::SetAttr(arguments) => {
                if let NfsReply::SetAttr(answer) = reply
                    && let Some(wcc) = done(answer)
                {
                    self.take_new_size(&arguments.object, arguments.attributes.size);
                    self.take_attributes(&arguments.object, wcc.after.as_ref());
                }
            }
            NfsCall::Read(arguments) => {
                if let NfsReply::Read(answer) = reply
                    && let Some(success) = done(answer)
                {
                    self.learn_read(arguments, success);
                }
            }
            NfsCall::Write(arguments) => {
                if let NfsReply::Write(answer) = reply
                    && let Some(success) = done(answer)
                {
                    self.learn_write(arguments, success);
                }
            }
            NfsCall::Commit(arguments) => {
                if let NfsReply::Commit(answer) = reply
                    && let Some(success) = done(answer)
                {
                    self.take_attributes(&arguments.file, success.wcc.after.as_ref());
                    self.take_verifier(success.verifier);
                }
            }
            _ => {}
        }
    }

    fn take_attributes(&mut self, object: &FileHandle, attributes: Option<&FileAttributes>) {
        if let Some(attributes) = attributes
            && let Some(facts) = self.known.facts_mut(object.as_slice())
        {
            facts.take_attributes(attributes);
        }
    }

    fn take_size(&mut self, object: &FileHandle, size: Option<u64>) {
        if let Some(size) = size
            && let Some(facts) = self.known.facts_mut(object.as_slice())
        {
            facts.take_size(size);
        }
    }

    /// A SETATTR set the size, if it is there.
    fn take_new_size(&mut self, object: &FileHandle, size: Option<u64>) {
        if let Some(size) = size
            && let Some(facts) = self.known.facts_mut(object.as_slice())
        {
            facts.take_size(size);
            facts.deserve_looks();
        }
    }

    fn learn_read(&mut self, arguments: &ReadArguments, success: &ReadSuccess) {
        if success.eof && success.count > 0 {
            let end = arguments.offset.saturating_add(u64::from(success.count));
            self.take_size(&arguments.file, Some(end));
        }
        self.take_attributes(&arguments.file, success.attributes.as_ref());
    }

    fn learn_write(&mut self, arguments: &WriteArguments, success: &WriteSuccess) {
        if let Some(facts) = self.known.facts_mut(arguments.file.as_slice())
            && success.count > 0
        {
            let end = arguments.offset.saturating_add(u64::from(success.count));
            let size = facts.size.max(end);
            facts.take_size(size);
            facts.written = Some(Written {
                offset: arguments.offset,
                count: success.count,
            });
            facts.deserve_looks();
        }
        self.take_attributes(&arguments.file, success.wcc.after.as_ref());
        self.take_verifier(success.verifier);
    }

    /// Another write verifier than before tells that what was written may be lost: it is looked at.
    fn take_verifier(&mut self, verifier: Verifier) {
        if let Some(before) = self.verifier
            && before != verifier
        {
            self.known.doubt_writes();
        }
        self.verifier = Some(verifier);
    }
}
