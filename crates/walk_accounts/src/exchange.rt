//! A call with the reply to it, and what the two tell.

ghost use Rattle.std.specs.Prelude.{◌≡◌, ◌<◌, ◌^◌, length};
ghost use Rattle.walk_accounts.specs.Exchanges.{asks_bytes, bytes_in, is_at_end, asks_text, is_text, text_in, asks_attributes, tells, asks_name, finds, asks_entries, is_entry, has_entry, gives, is_cursor, asks_page, page_end, page_in, page_of};

use crate::account::Kind;
use nfs3_types::{Answer, DirectoryEntryPlus, NfsCall, NfsReply, Verifier};

/// A call with the reply to it.
pub struct Exchange {
    /// The call.
    pub call: NfsCall,
    /// The reply to it.
    pub reply: NfsReply,
}

impl Drop for Exchange {
    fn drop(self) {
        let Exchange { call, reply } = self;
        drop(call);
        drop(reply);
    }
}

/// Where a list goes on, or begins.
#[derive(Clone, Copy)]
pub struct Cursor {
    /// 0 at the front, else that of the last entry.
    pub cookie: u64,
    /// The one that came with the cookie; 0 at the front.
    pub verifier: Verifier,
}

impl Cursor {
    /// A list's front.
    pub const FRONT: Cursor = Cursor {
        cookie: 0,
        verifier: Verifier { value: 0 },
    };
}

/// What an exchange is to a list.
#[derive(Clone, Copy)]
pub enum Page {
    /// No page of it.
    Other,
    /// The page that reaches the end.
    Last,
    /// A page; the next one begins here.
    More(Cursor),
}

/// Whether a READ of these bytes is asked.
pub(crate) fn asks_bytes(call: &NfsCall, file: &[u8], offset: u64) -> bool
    ensures { result ≡ asks_bytes file.now offset call.now }
{
    match call {
        NfsCall::Read(asked) => asked.file.as_slice() == file && asked.offset == offset,
        _ => false,
    }
}

/// The bytes that a READ gave, none of another reply.
pub(crate) fn bytes_in(reply: &NfsReply) -> &[u8]
    ensures value { result.now ≡ bytes_in reply.now }
    ensures bound { length (bytes_in reply.now) < 2 ^ 32 }
{
    match reply {
        NfsReply::Read(answer) => match answer {
            Answer::Done(success) => success.bytes.as_slice(),
            Answer::Failed(_, _) => &[],
        },
        _ => &[],
    }
}

/// Whether a READ reached the end.
pub(crate) fn is_at_end(reply: &NfsReply) -> bool
    ensures { result ≡ is_at_end reply.now }
{
    match reply {
        NfsReply::Read(answer) => match answer {
            Answer::Done(success) => success.eof,
            Answer::Failed(_, _) => false,
        },
        _ => false,
    }
}

/// Whether a READLINK of this link is asked.
pub(crate) fn asks_text(call: &NfsCall, link: &[u8]) -> bool
    ensures { result ≡ asks_text link.now call.now }
{
    match call {
        NfsCall::ReadLink(asked) => asked.as_slice() == link,
        _ => false,
    }
}

/// Whether a READLINK gave a text.
pub(crate) fn is_text(reply: &NfsReply) -> bool
    ensures { result ≡ is_text reply.now }
{
    match reply {
        NfsReply::ReadLink(answer) => match answer {
            Answer::Done(_) => true,
            Answer::Failed(_, _) => false,
        },
        _ => false,
    }
}

/// The text that a READLINK gave, empty of another reply.
pub(crate) fn text_in(reply: &NfsReply) -> &[u8]
    ensures value { result.now ≡ text_in reply.now }
    ensures bound { length (text_in reply.now) < 2 ^ 32 }
{
    match reply {
        NfsReply::ReadLink(answer) => match answer {
            Answer::Done(success) => success.target.as_slice(),
            Answer::Failed(_, _) => &[],
        },
        _ => &[],
    }
}

/// Whether a GETATTR of this object is asked.
pub(crate) fn asks_attributes(call: &NfsCall, object: &[u8]) -> bool
    ensures { result ≡ asks_attributes object.now call.now }
{
    match call {
        NfsCall::GetAttr(asked) => asked.as_slice() == object,
        _ => false,
    }
}

/// Whether a GETATTR tells this kind and size.
pub(crate) fn tells(reply: &NfsReply, kind: Kind, size: u64) -> bool
    ensures { result ≡ tells kind size reply.now }
{
    match reply {
        NfsReply::GetAttr(answer) => match answer {
            Answer::Done(attributes) => {
                attributes.file_type.number() == kind.number() && attributes.size == size
            }
            Answer::Failed(_, _) => false,
        },
        _ => false,
    }
}

/// Whether a LOOKUP of this name is asked.
fn asks_name(call: &NfsCall, directory: &[u8], name: &[u8]) -> bool
    ensures { result ≡ asks_name directory.now name.now call.now }
{
    match call {
        NfsCall::Lookup(asked) => {
            asked.directory.as_slice() == directory && asked.name.as_slice() == name
        }
        _ => false,
    }
}

/// Whether a LOOKUP gave this handle.
fn finds(reply: &NfsReply, handle: &[u8]) -> bool
    ensures { result ≡ finds handle.now reply.now }
{
    match reply {
        NfsReply::Lookup(answer) => match answer {
            Answer::Done(success) => success.object.as_slice() == handle,
            Answer::Failed(_, _) => false,
        },
        _ => false,
    }
}

/// Whether a READDIRPLUS of this directory is asked.
fn asks_entries(call: &NfsCall, directory: &[u8]) -> bool
    ensures { result ≡ asks_entries directory.now call.now }
{
    match call {
        NfsCall::ReadDirPlus(asked) => asked.directory.as_slice() == directory,
        _ => false,
    }
}

/// Whether an entry has this name and handle.
fn is_entry(entry: &DirectoryEntryPlus, name: &[u8], handle: &[u8]) -> bool
    ensures { result ≡ is_entry name.now handle.now entry.now }
{
    if entry.name.as_slice() != name {
        return false;
    }
    match &entry.object {
        Some(object) => object.as_slice() == handle,
        None => false,
    }
}

/// Whether an entry of a READDIRPLUS gives this name and handle.
fn has_entry(reply: &NfsReply, name: &[u8], handle: &[u8], index: usize) -> bool
    ensures { result ≡ has_entry name.now handle.now index reply.now }
{
    match reply {
        NfsReply::ReadDirPlus(answer) => match answer {
            Answer::Done(success) => match success.entries.as_slice().get(index) {
                Some(entry) => is_entry(entry, name, handle),
                None => false,
            },
            Answer::Failed(_, _) => false,
        },
        _ => false,
    }
}

/// Whether a cookie and its verifier are a cursor's.
fn is_cursor(cursor: Cursor, cookie: u64, verifier: Verifier) -> bool
    ensures { result ≡ is_cursor cursor cookie verifier }
{
    cookie == cursor.cookie && verifier.value == cursor.verifier.value
}

/// Whether a page of this directory's list is asked, from the cursor on.
fn asks_page(call: &NfsCall, directory: &[u8], cursor: Cursor) -> bool
    ensures { result ≡ asks_page directory.now cursor call.now }
{
    match call {
        NfsCall::ReadDir(asked) => {
            asked.directory.as_slice() == directory
                && is_cursor(cursor, asked.cookie, asked.verifier)
        }
        NfsCall::ReadDirPlus(asked) => {
            asked.directory.as_slice() == directory
                && is_cursor(cursor, asked.cookie, asked.verifier)
        }
        _ => false,
    }
}

/// What comes behind a page whose last entry has this cookie.
fn page_end(eof: bool, verifier: Verifier, cookie: Option<u64>) -> Page
    ensures { result ≡ page_end eof verifier cookie }
{
    if eof {
        return Page::Last;
    }
    match cookie {
        Some(cookie) => Page::More(Cursor { cookie, verifier }),
        None => Page::Other,
    }
}

/// What comes behind the page that a reply gives.
pub fn page_in(reply: &NfsReply) -> Page
    ensures { result ≡ page_in reply.now }
{
    match reply {
        NfsReply::ReadDir(answer) => match answer {
            Answer::Done(success) => {
                let cookie = match success.entries.as_slice().last() {
                    Some(entry) => Some(entry.cookie),
                    None => None,
                };
                page_end(success.eof, success.verifier, cookie)
            }
            Answer::Failed(_, _) => Page::Other,
        },
        NfsReply::ReadDirPlus(answer) => match answer {
            Answer::Done(success) => {
                let cookie = match success.entries.as_slice().last() {
                    Some(entry) => Some(entry.cookie),
                    None => None,
                };
                page_end(success.eof, success.verifier, cookie)
            }
            Answer::Failed(_, _) => Page::Other,
        },
        _ => Page::Other,
    }
}

impl Exchange {
    /// Whether it gives this handle for this name of this directory: by a LOOKUP, or by this entry of a READDIRPLUS.
    pub(crate) fn gives(&self, directory: &[u8], name: &[u8], handle: &[u8], entry: usize) -> bool
        ensures { result ≡ gives directory.now name.now handle.now entry self.now }
    {
        (asks_name(&self.call, directory, name) && finds(&self.reply, handle))
            || (asks_entries(&self.call, directory) && has_entry(&self.reply, name, handle, entry))
    }

    /// What it is to the list of this directory that goes on at the cursor.
    pub(crate) fn page(&self, directory: &[u8], cursor: Cursor) -> Page
        ensures { result ≡ page_of directory.now cursor self.now }
    {
        if asks_page(&self.call, directory, cursor) {
            page_in(&self.reply)
        } else {
            Page::Other
        }
    }
}
