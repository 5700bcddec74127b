//! Where a list of names and its directory differ (RFC 1813, sections 3.3.16 and 3.3.17).

use crate::scene::{Scene, push_line};
use history_lines::Text;
use nfs3_types::{
    DirectoryEntryPlus, FileHandle, ReadDirArguments, ReadDirPlusArguments, ReadDirPlusSuccess,
    ReadDirSuccess,
};
use std::alloc::AllocError;
use std::collections::BTreeSet;
use tree_answers::object_named;
use tree_handles::{View, directory_of};
use tree_nodes::Nodes;

/// How many names a line has at most.
const MOST: u64 = 10;

/// A line of names, which is there once it has one.
struct NameLine<'a> {
    text: Text<'a>,
    count: u64,
}

impl<'a> NameLine<'a> {
    /// Words, and no names yet.
    fn new(scene: &Scene<'_, '_>, words: &str) -> Result<NameLine<'a>, AllocError> {
        let mut text = Text::new(scene.alloc);
        text.push_words(words)?;
        Ok(NameLine { text, count: 0 })
    }

    /// Appends a name, where there is room for it.
    fn push(&mut self, name: &[u8]) -> Result<(), AllocError> {
        if self.count < MOST {
            self.text.push_quoted(" ", name)?;
        }
        self.count = self.count.saturating_add(1);
        Ok(())
    }

    /// Appends the line, where it has a name.
    fn end(self, lines: &mut Vec<u8>) -> Result<(), AllocError> {
        let NameLine { text, count } = self;
        if count == 0 {
            return Ok(());
        }
        let mut text = text;
        if count > MOST {
            text.push_number(" and more: ", count - MOST)?;
        }
        push_line(lines, text)
    }
}

impl<'a> Drop for NameLine<'a> {
    fn drop(self) {
        let NameLine { text, count: _ } = self;
        drop(text);
    }
}

/// A line of the listed names that the directory doesn't have.
fn push_strange(
    lines: &mut Vec<u8>,
    scene: &Scene<'_, '_>,
    nodes: &Nodes,
    directory: u64,
    listed: &[&[u8]],
) -> Result<(), AllocError> {
    let mut line = NameLine::new(scene, "  listed and not there:")?;
    for name in listed {
        if object_named(nodes, directory, *name).is_none() {
            line.push(*name)?;
        }
    }
    line.end(lines)
}

/// A line of the names that are listed once more. It gives all that are listed.
fn push_again<'n>(
    lines: &mut Vec<u8>,
    scene: &Scene<'_, '_>,
    listed: &[&'n [u8]],
) -> Result<BTreeSet<&'n [u8]>, AllocError> {
    let mut line = NameLine::new(scene, "  listed once more:")?;
    let mut names = BTreeSet::new(scene.alloc);
    for name in listed {
        if !names.insert(*name)? {
            line.push(*name)?;
        }
    }
    line.end(lines)?;
    Ok(names)
}

/// A line of the directory's names that aren't listed.
fn push_missing<'n>(
    lines: &mut Vec<u8>,
    scene: &Scene<'_, '_>,
    nodes: &'n Nodes,
    directory: u64,
    listed: &BTreeSet<&'n [u8]>,
) -> Result<(), AllocError> {
    let mut line = NameLine::new(scene, "  there and not listed:")?;
    if let Some(names) = nodes.names(directory) {
        for (name, _) in names {
            if !listed.contains(&name) {
                line.push(name)?;
            }
        }
    }
    line.end(lines)
}

/// Whether an entry has a handle that isn't that of the object which its directory has by that name. Of `.` and `..` handles aren't judged.
fn has_wrong_handle(
    scene: &Scene<'_, '_>,
    nodes: &Nodes,
    directory: u64,
    entry: &DirectoryEntryPlus,
) -> bool {
    let name = entry.name.as_slice();
    if name == b".".as_slice() || name == b"..".as_slice() {
        return false;
    }
    match (&entry.object, object_named(nodes, directory, name)) {
        (Some(handle), Some(object)) => scene.binds.object(handle.as_slice()) != Some(object),
        _ => false,
    }
}

/// A line of the entries that have wrong handles.
fn push_wrong_handles(
    lines: &mut Vec<u8>,
    scene: &Scene<'_, '_>,
    nodes: &Nodes,
    handle: &FileHandle,
    entries: &[DirectoryEntryPlus],
) -> Result<(), AllocError> {
    let view = View {
        binds: scene.binds,
        nodes,
    };
    let Some(directory) = directory_of(&view, handle) else {
        return Ok(());
    };
    let mut line = NameLine::new(scene, "  listed with a wrong handle:")?;
    for entry in entries {
        if has_wrong_handle(scene, nodes, directory, entry) {
            line.push(entry.name.as_slice())?;
        }
    }
    line.end(lines)
}

/// Lines of where a list differs from the directory of a handle. A whole list has all names.
fn push_listed<'n>(
    lines: &mut Vec<u8>,
    scene: &Scene<'_, '_>,
    nodes: &'n Nodes,
    handle: &FileHandle,
    listed: &[&'n [u8]],
    is_whole: bool,
) -> Result<(), AllocError> {
    let view = View {
        binds: scene.binds,
        nodes,
    };
    let Some(directory) = directory_of(&view, handle) else {
        return Ok(());
    };
    push_strange(lines, scene, nodes, directory, listed)?;
    let names = push_again(lines, scene, listed)?;
    if is_whole {
        return push_missing(lines, scene, nodes, directory, &names);
    }
    Ok(())
}

/// Lines of a READDIR.
pub(crate) fn push_names<'n>(
    lines: &mut Vec<u8>,
    scene: &Scene<'_, '_>,
    nodes: &'n Nodes,
    call: &ReadDirArguments,
    success: &'n ReadDirSuccess,
) -> Result<(), AllocError> {
    let mut listed = Vec::new(scene.alloc);
    for entry in success.entries.as_slice() {
        listed.push(entry.name.as_slice())?;
    }
    let is_whole = call.cookie == 0 && success.eof;
    push_listed(
        lines,
        scene,
        nodes,
        &call.directory,
        listed.as_slice(),
        is_whole,
    )
}

/// Lines of a READDIRPLUS.
pub(crate) fn push_names_plus<'n>(
    lines: &mut Vec<u8>,
    scene: &Scene<'_, '_>,
    nodes: &'n Nodes,
    call: &ReadDirPlusArguments,
    success: &'n ReadDirPlusSuccess,
) -> Result<(), AllocError> {
    let mut listed = Vec::new(scene.alloc);
    for entry in success.entries.as_slice() {
        listed.push(entry.name.as_slice())?;
    }
    let is_whole = call.cookie == 0 && success.eof;
    push_listed(
        lines,
        scene,
        nodes,
        &call.directory,
        listed.as_slice(),
        is_whole,
    )?;
    let entries = success.entries.as_slice();
    push_wrong_handles(lines, scene, nodes, &call.directory, entries)
}
