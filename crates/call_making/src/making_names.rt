//! From what a client is going to ask to the call: calls with a name.

ghost use Rattle.std.specs.Prelude.{◌≡◌, ◌≤◌, IfOk, IfSome, IsTrue};
ghost use Rattle.std.specs.List.{list_all};
ghost use Rattle.call_making.specs.Asked.{IsAsked, IsMade, IsNamed, is_name, is_text_byte, is_link_text};

use crate::labels::name_of;
use crate::making::{Maker, sized};
use crate::wish::{Called, Place};
use nfs3_types::{
    CreateArguments, CreateMode, DirectoryName, Held, LinkText, MkDirArguments, Name, NfsCall,
    RenameArguments, SetAttributes, SetTime, SymLinkArguments,
};
use std::alloc::{AllocError, Global};

/// The mode bits of what is made: all may read, and the owner may write.
const FILE_MODE: u32 = 0o644;

const DIRECTORY_MODE: u32 = 0o755;

const LINK_MODE: u32 = 0o777;

/// The most bytes of a link's text, a limit of this project's own: the longest that XFS takes.
const TEXT_LIMIT: usize = 1023;

/// Attributes of which only the mode bits and the size are set, where they are there.
pub fn attributes(mode: Option<u32>, size: Option<u64>) -> SetAttributes {
    SetAttributes {
        mode,
        user: None,
        group: None,
        size,
        access_time: SetTime::Keep,
        modify_time: SetTime::Keep,
    }
}

/// Attributes of a file that is made, with a size, in bytes, where there is one.
pub fn file_attributes(size: Option<u64>) -> SetAttributes {
    attributes(Some(FILE_MODE), size)
}

/// Whether no byte is NUL.
fn are_text_bytes(bytes: &[u8]) -> bool
    ensures { result ≡ list_all is_text_byte bytes.now }
{
    bytes.iter().all(|byte| *byte != 0)
}

/// Whether a link may have this text: 1 to 1,023 bytes, none of them NUL.
fn is_link_text(bytes: &[u8]) -> bool
    ensures { result ≡ is_link_text bytes.now }
{
    1 <= bytes.len() && bytes.len() <= TEXT_LIMIT && are_text_bytes(bytes)
}

/// The text of these bytes, or `a` where a link may not have it.
fn text_of(alloc: Global, bytes: &[u8]) -> Result<LinkText, AllocError>
    ensures { IfOk result (λ text. IsTrue (is_link_text text)) }
{
    if is_link_text(bytes) {
        LinkText::from_slice(alloc, bytes)
    } else {
        LinkText::from_slice(alloc, b"a".as_slice())
    }
}

/// One of a few texts of a link.
fn link_text(alloc: Global, pick: u32) -> Result<LinkText, AllocError>
    ensures { IfOk result (λ text. IsTrue (is_link_text text)) }
{
    match pick {
        0 => text_of(alloc, b"a".as_slice()),
        1 => text_of(alloc, b"../b".as_slice()),
        2 => text_of(alloc, b"/nowhere/at all".as_slice()),
        3 => text_of(alloc, b"g\xc3\xa9\xff".as_slice()),
        _ => {
            let text = vec![in alloc; b'l'; TEXT_LIMIT]?;
            text_of(alloc, text.as_slice())
        }
    }
}

/// The mode with a size within the limit of files.
fn made(mode: CreateMode) -> CreateMode
    ensures { IsMade result }
{
    match mode {
        CreateMode::Unchecked(attributes) => CreateMode::Unchecked(sized(attributes)),
        CreateMode::Guarded(attributes) => CreateMode::Guarded(sized(attributes)),
        CreateMode::Exclusive(verifier) => CreateMode::Exclusive(verifier),
    }
}

impl Maker {
    fn place(&self, place: Place<'_>) -> Result<DirectoryName, AllocError>
        ensures { IfOk result (λ place. IsNamed place) }
    {
        Ok(DirectoryName {
            directory: place.directory.clone()?,
            name: self.name(place.name)?,
        })
    }

    fn name(&self, called: Called<'_>) -> Result<Name, AllocError>
        ensures { IfOk result (λ name. IsTrue (is_name name)) }
    {
        match called {
            Called::Label(label) => label.name(self.alloc, self.stamp.client),
            Called::Bytes(bytes) => name_of(self.alloc, bytes),
        }
    }

    pub(crate) fn look_up(&self, place: Place<'_>) -> Result<NfsCall, AllocError>
        ensures { IfOk result (λ call. IsAsked self.now.stamp call) }
    {
        Ok(NfsCall::Lookup(self.place(place)?))
    }

    pub(crate) fn create(&self, place: Place<'_>, mode: CreateMode) -> Result<NfsCall, AllocError>
        ensures { IfOk result (λ call. IsAsked self.now.stamp call) }
    {
        let place = self.place(place)?;
        let arguments = CreateArguments {
            place,
            mode: made(mode),
        };
        Ok(NfsCall::Create(Held::new(self.alloc, arguments)?))
    }

    pub(crate) fn make_directory(&self, place: Place<'_>) -> Result<NfsCall, AllocError>
        ensures { IfOk result (λ call. IsAsked self.now.stamp call) }
    {
        let arguments = MkDirArguments {
            place: self.place(place)?,
            attributes: sized(attributes(Some(DIRECTORY_MODE), None)),
        };
        Ok(NfsCall::MkDir(Held::new(self.alloc, arguments)?))
    }

    pub(crate) fn make_link(&self, place: Place<'_>, pick: u32) -> Result<NfsCall, AllocError>
        ensures { IfOk result (λ call. IsAsked self.now.stamp call) }
    {
        let place = self.place(place)?;
        let arguments = SymLinkArguments {
            place,
            attributes: sized(attributes(Some(LINK_MODE), None)),
            target: link_text(self.alloc, pick)?,
        };
        Ok(NfsCall::SymLink(Held::new(self.alloc, arguments)?))
    }

    pub(crate) fn remove(&self, place: Place<'_>) -> Result<NfsCall, AllocError>
        ensures { IfOk result (λ call. IsAsked self.now.stamp call) }
    {
        Ok(NfsCall::Remove(self.place(place)?))
    }

    pub(crate) fn remove_directory(&self, place: Place<'_>) -> Result<NfsCall, AllocError>
        ensures { IfOk result (λ call. IsAsked self.now.stamp call) }
    {
        Ok(NfsCall::RmDir(self.place(place)?))
    }

    pub(crate) fn rename(&self, from: Place<'_>, to: Place<'_>) -> Result<NfsCall, AllocError>
        ensures { IfOk result (λ call. IsAsked self.now.stamp call) }
    {
        let from = self.place(from)?;
        let to = self.place(to)?;
        let arguments = RenameArguments { from, to };
        Ok(NfsCall::Rename(Held::new(self.alloc, arguments)?))
    }
}
