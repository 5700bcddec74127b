//! READDIR and READDIRPLUS (RFC 1813, sections 3.3.16 and 3.3.17).

use crate::decision::{Decision, Stop};
use crate::scene::Scene;
use nfs3_types::{
    Answer, DirectoryEntry, DirectoryEntryPlus, Failure, Held, ItemList, Name, NfsReply, Optional,
    ReadDirArguments, ReadDirPlusArguments, ReadDirPlusSuccess, ReadDirSuccess, TRANSFER_LIMIT,
    Verifier,
};
use std::alloc::{AllocError, Global};
use tree_stores::Names;

/// The bytes of a list without entries: the status, the flag of the attributes, the verifier, and the two flags at its end.
const EMPTY_LIST: usize = 24;
/// The bytes of an entry without its name: a flag, the object's number, the name's length and the cookie.
const PLAIN_ENTRY: usize = 24;
/// The same with the absent attributes and the handle.
const ENTRY_WITH_HANDLE: usize = 44;

/// The names that a list gives.
#[derive(Clone, Copy)]
struct Span {
    /// Behind so many names.
    behind: usize,
    /// So many, or as many as there are.
    count: usize,
    /// Whether no name is left.
    whole: bool,
}

/// The names behind a cookie that fit into so many bytes.
fn fitting(
    scene: &Scene<'_>,
    names: &Names,
    cookie: u64,
    bytes: u32,
    entry: usize,
) -> Result<Span, Failure> {
    let room = (bytes as usize).min(TRANSFER_LIMIT);
    let behind = cookie as usize;
    let mut used = EMPTY_LIST.saturating_add(scene.attributes_length());
    let mut count: usize = 0;
    for (name, _) in names.iter().skip(behind) {
        let size = entry.saturating_add(name.len()).saturating_add(3) / 4 * 4;
        used = used.saturating_add(size);
        if used > room {
            return cut_off(behind, count);
        }
        count = count.saturating_add(1);
    }
    Ok(Span {
        behind,
        count: usize::MAX,
        whole: true,
    })
}

/// So many names where others are left. There has to be one.
fn cut_off(behind: usize, count: usize) -> Result<Span, Failure> {
    if count == 0 {
        return Err(Failure::TooSmall);
    }
    Ok(Span {
        behind,
        count,
        whole: false,
    })
}

/// A name that stands in a list.
fn listed_name(alloc: Global, name: &[u8]) -> Result<Name, Stop> {
    if name.len() > TRANSFER_LIMIT {
        return Err(Stop::Failed(Failure::TooSmall));
    }
    Ok(Name::from_slice(alloc, name)?)
}

/// The entries of a READDIR. A cookie is the place of its name, counted from 1.
fn entries(scene: &Scene<'_>, names: &Names, span: Span) -> Result<Vec<DirectoryEntry>, Stop> {
    let mut entries = Vec::new(scene.alloc);
    let mut cookie = span.behind as u64;
    for (name, object) in names.iter().skip(span.behind).take(span.count) {
        cookie = cookie.saturating_add(1);
        entries.reserve(1)?;
        let entry = DirectoryEntry {
            file_number: object,
            name: listed_name(scene.alloc, name)?,
            cookie,
        };
        entries.push(entry).unwrap();
    }
    Ok(entries)
}

/// An entry of a READDIRPLUS: its object's handle stands beside it.
fn entry_plus(
    scene: &Scene<'_>,
    cookie: u64,
    name: &[u8],
    object: u64,
) -> Result<DirectoryEntryPlus, Stop> {
    Ok(DirectoryEntryPlus {
        file_number: object,
        name: listed_name(scene.alloc, name)?,
        cookie,
        attributes: Optional::none(),
        object: Some(scene.handle(object)?),
    })
}

/// The entries of a READDIRPLUS.
fn entries_plus(
    scene: &Scene<'_>,
    names: &Names,
    span: Span,
) -> Result<Vec<DirectoryEntryPlus>, Stop> {
    let mut entries = Vec::new(scene.alloc);
    let mut cookie = span.behind as u64;
    for (name, object) in names.iter().skip(span.behind).take(span.count) {
        cookie = cookie.saturating_add(1);
        entries.reserve(1)?;
        entries
            .push(entry_plus(scene, cookie, name, object)?)
            .unwrap();
    }
    Ok(entries)
}

/// A list of names in the order of their bytes, without `.` and `..`.
pub(crate) fn list<'a>(
    scene: &Scene<'_>,
    call: &'a ReadDirArguments,
) -> Result<Decision<'a>, Stop> {
    let (_, names) = scene.directory(&call.directory)?;
    let span = fitting(scene, names, call.cookie, call.count, PLAIN_ENTRY)?;
    let success = ReadDirSuccess {
        attributes: scene.attributes(&call.directory)?,
        verifier: Verifier { value: 0 },
        entries: ItemList::new(entries(scene, names, span)?),
        eof: span.whole,
    };
    let success = Held::new(scene.alloc, success)?;
    Ok(Decision::look(NfsReply::ReadDir(Answer::Done(success))))
}

/// The same, with the handles of the objects.
pub(crate) fn list_plus<'a>(
    scene: &Scene<'_>,
    call: &'a ReadDirPlusArguments,
) -> Result<Decision<'a>, Stop> {
    let (_, names) = scene.directory(&call.directory)?;
    let span = fitting(
        scene,
        names,
        call.cookie,
        call.whole_count,
        ENTRY_WITH_HANDLE,
    )?;
    let success = ReadDirPlusSuccess {
        attributes: scene.attributes(&call.directory)?,
        verifier: Verifier { value: 0 },
        entries: ItemList::new(entries_plus(scene, names, span)?),
        eof: span.whole,
    };
    let success = Held::new(scene.alloc, success)?;
    Ok(Decision::look(NfsReply::ReadDirPlus(Answer::Done(success))))
}
