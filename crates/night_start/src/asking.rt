//! The call that a walk asks next.

ghost use Rattle.std.specs.Prelude.{◌≡◌, IfOk, IfSome, false};
ghost use Rattle.nfs3_types.specs.Procedures.{changes_the_tree, procedure_called};

use crate::explorer::{Explorer, Step};
use nfs3_types::{
    DirectoryName, FileHandle, NfsCall, ReadArguments, ReadDirArguments, ReadDirPlusArguments,
};
use std::alloc::AllocError;
use walk_accounts::Cursor;

impl Explorer {
    /// The handle of an object.
    fn handle(&self, number: usize) -> Result<Option<FileHandle>, AllocError> {
        match self.known.accounts.get(number) {
            Some(account) => Ok(Some(account.handle.clone()?)),
            None => Ok(None),
        }
    }

    /// GETATTR of an object.
    fn ask_attributes(&self, number: usize) -> Result<Option<NfsCall>, AllocError>
        ensures { IfOk result (λ next. IfSome next (λ call. changes_the_tree (procedure_called call) ≡ false)) }
    {
        match self.handle(number)? {
            Some(handle) => Ok(Some(NfsCall::GetAttr(handle))),
            None => Ok(None),
        }
    }

    /// READLINK of a link.
    fn ask_text(&self, number: usize) -> Result<Option<NfsCall>, AllocError>
        ensures { IfOk result (λ next. IfSome next (λ call. changes_the_tree (procedure_called call) ≡ false)) }
    {
        match self.handle(number)? {
            Some(handle) => Ok(Some(NfsCall::ReadLink(handle))),
            None => Ok(None),
        }
    }

    /// READ of a file.
    fn ask_bytes(&self, number: usize, offset: u64) -> Result<Option<NfsCall>, AllocError>
        ensures { IfOk result (λ next. IfSome next (λ call. changes_the_tree (procedure_called call) ≡ false)) }
    {
        match self.handle(number)? {
            Some(file) => Ok(Some(NfsCall::Read(ReadArguments {
                file,
                offset,
                count: self.settings.piece,
            }))),
            None => Ok(None),
        }
    }

    /// A page of a directory's list.
    fn ask_page(&self, number: usize, cursor: Cursor) -> Result<Option<NfsCall>, AllocError>
        ensures { IfOk result (λ next. IfSome next (λ call. changes_the_tree (procedure_called call) ≡ false)) }
    {
        let Some(directory) = self.handle(number)? else {
            return Ok(None);
        };
        let Cursor { cookie, verifier } = cursor;
        let count = self.settings.page;
        if self.has_plus {
            Ok(Some(NfsCall::ReadDirPlus(ReadDirPlusArguments {
                directory,
                cookie,
                verifier,
                directory_count: count,
                whole_count: count,
            })))
        } else {
            Ok(Some(NfsCall::ReadDir(ReadDirArguments {
                directory,
                cookie,
                verifier,
                count,
            })))
        }
    }

    /// LOOKUP of the first name of the list that has no account.
    fn ask_name(&self, number: usize) -> Result<Option<NfsCall>, AllocError>
        ensures { IfOk result (λ next. IfSome next (λ call. changes_the_tree (procedure_called call) ≡ false)) }
    {
        let (Some(directory), Some(entry)) = (self.handle(number)?, self.list.next()) else {
            return Ok(None);
        };
        Ok(Some(NfsCall::Lookup(DirectoryName {
            directory,
            name: entry.name.clone()?,
        })))
    }

    /// GETATTR of the object of that name.
    fn ask_entry(&self) -> Result<Option<NfsCall>, AllocError>
        ensures { IfOk result (λ next. IfSome next (λ call. changes_the_tree (procedure_called call) ≡ false)) }
    {
        let Some(entry) = self.list.next() else {
            return Ok(None);
        };
        match &entry.handle {
            Some(handle) => Ok(Some(NfsCall::GetAttr(handle.clone()?))),
            None => Ok(None),
        }
    }

    /// What is asked next; nothing at the end.
    pub(crate) fn next(&self) -> Result<Option<NfsCall>, AllocError>
        ensures { IfOk result (λ next. IfSome next (λ call. changes_the_tree (procedure_called call) ≡ false)) }
    {
        match self.step {
            Step::Root => self.ask_attributes(0),
            Step::Page {
                number,
                cursor,
                from: _,
            } => self.ask_page(number, cursor),
            Step::LookUp { number } => self.ask_name(number),
            Step::Attributes { number: _ } => self.ask_entry(),
            Step::Read {
                number,
                offset,
                from: _,
            } => self.ask_bytes(number, offset),
            Step::Text { number } => self.ask_text(number),
            Step::Again { number } => self.ask_attributes(number),
            Step::Done => Ok(None),
        }
    }
}
