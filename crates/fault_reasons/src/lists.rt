//! Successes of READDIR and READDIRPLUS (RFC 1813, sections 3.3.16 and 3.3.17): all names of the directory, whatever the cookie.

use crate::candidates::Site;
use nfs3_types::{
    Answer, DirectoryEntry, DirectoryEntryPlus, Held, ItemList, Name, NfsReply, Optional,
    ReadDirArguments, ReadDirPlusArguments, ReadDirPlusSuccess, ReadDirSuccess, TRANSFER_LIMIT,
    Verifier,
};
use std::alloc::AllocError;
use tree_handles::directory_of;

/// The names of a directory, in the order of their bytes; none where one is too long for a list.
fn entries(site: &Site<'_>, directory: u64) -> Result<Option<Vec<DirectoryEntry>>, AllocError> {
    let mut entries = Vec::new(site.alloc);
    let Some(names) = site.view.nodes.names(directory) else {
        return Ok(None);
    };
    for (name, object) in names {
        if name.len() > TRANSFER_LIMIT {
            return Ok(None);
        }
        entries.reserve(1)?;
        let entry = DirectoryEntry {
            file_number: object,
            name: Name::from_slice(site.alloc, name)?,
            cookie: 0,
        };
        entries.push(entry).unwrap();
    }
    Ok(Some(entries))
}

pub(crate) fn names(
    site: &Site<'_>,
    call: &ReadDirArguments,
) -> Result<Option<NfsReply>, AllocError> {
    let Some(directory) = directory_of(&site.view, &call.directory) else {
        return Ok(None);
    };
    let Some(entries) = entries(site, directory)? else {
        return Ok(None);
    };
    let success = ReadDirSuccess {
        attributes: Optional::none(),
        verifier: Verifier { value: 0 },
        entries: ItemList::new(entries),
        eof: true,
    };
    let success = Held::new(site.alloc, success)?;
    Ok(Some(NfsReply::ReadDir(Answer::Done(success))))
}

/// The same without handles, which a reply may leave out.
fn entries_plus(
    site: &Site<'_>,
    directory: u64,
) -> Result<Option<Vec<DirectoryEntryPlus>>, AllocError> {
    let mut entries = Vec::new(site.alloc);
    let Some(names) = site.view.nodes.names(directory) else {
        return Ok(None);
    };
    for (name, object) in names {
        if name.len() > TRANSFER_LIMIT {
            return Ok(None);
        }
        entries.reserve(1)?;
        let entry = DirectoryEntryPlus {
            file_number: object,
            name: Name::from_slice(site.alloc, name)?,
            cookie: 0,
            attributes: Optional::none(),
            object: None,
        };
        entries.push(entry).unwrap();
    }
    Ok(Some(entries))
}

pub(crate) fn names_plus(
    site: &Site<'_>,
    call: &ReadDirPlusArguments,
) -> Result<Option<NfsReply>, AllocError> {
    let Some(directory) = directory_of(&site.view, &call.directory) else {
        return Ok(None);
    };
    let Some(entries) = entries_plus(site, directory)? else {
        return Ok(None);
    };
    let success = ReadDirPlusSuccess {
        attributes: Optional::none(),
        verifier: Verifier { value: 0 },
        entries: ItemList::new(entries),
        eof: true,
    };
    let success = Held::new(site.alloc, success)?;
    Ok(Some(NfsReply::ReadDirPlus(Answer::Done(success))))
}
