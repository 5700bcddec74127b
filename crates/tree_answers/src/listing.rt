//! Where READDIR and READDIRPLUS may succeed with these entries (RFC 1813, sections 3.3.16 and 3.3.17).

ghost use Rattle.std.specs.Prelude.{◌≡◌, IfOk, IsSome, map};
ghost use Rattle.std.specs.List.{list_all};
ghost use Rattle.tree_handles.specs.tree_nodes_specs.Place.{path_of};
ghost use Rattle.tree_handles.specs.Standing.{place_of};
ghost use Rattle.tree_answers.specs.Listing.{may_be_listed, is_listing, readdir_is_legal, has_its_handle, readdirplus_is_legal};

use crate::name_set::Names;
use nfs3_types::{
    Answer, DirectoryEntry, DirectoryEntryPlus, NfsReply, ReadDirArguments, ReadDirPlusArguments,
};
use std::alloc::{AllocError, Global};
use tree_handles::tree_nodes::{Bytes, Nodes};
use tree_handles::{View, directory_of, entry_at, gives_object, is_dot, is_two_dots};

/// Whether a directory has the name.
fn may_be_listed(nodes: &Nodes, directory: u64, name: &Bytes) -> bool
    requires { IsSome (path_of nodes.now directory) }
    ensures { result ≡ may_be_listed nodes.now (place_of nodes.now directory) name.now }
{
    let name = name.as_slice();
    is_dot(name) || is_two_dots(name) || entry_at(nodes, directory, name).is_some()
}

/// Whether a directory has all these names.
fn may_all_be_listed(nodes: &Nodes, directory: u64, names: &[Bytes]) -> bool
    requires { IsSome (path_of nodes.now directory) }
    ensures { result ≡ list_all (may_be_listed nodes.now (place_of nodes.now directory)) names.now }
{
    for name in names {
        if !may_be_listed(nodes, directory, name) {
            return false;
        }
    }
    true
}

/// Whether a list of these names may be answered.
fn is_listing(nodes: &Nodes, directory: u64, cookie: u64, eof: bool, names: &Names) -> bool
    requires { IsSome (path_of nodes.now directory) }
    ensures { result ≡ is_listing nodes.now (place_of nodes.now directory) cookie eof names.now }
{
    if !names.are_distinct() || !may_all_be_listed(nodes, directory, names.as_slice()) {
        return false;
    }
    let whole = cookie == 0 && eof;
    !whole || names.hold_all_of(nodes, directory)
}

/// The names of a READDIR.
fn listed_names(alloc: Global, entries: &[DirectoryEntry]) -> Result<Names, AllocError>
    ensures { IfOk result (λ names. names ≡ map (λ e. e.name) entries.now) }
{
    let mut names = Names::new(alloc);
    for entry in entries {
        names = names.with(alloc, entry.name.as_slice())?;
    }
    Ok(names)
}

/// A READDIR succeeds with these entries.
pub fn readdir_is_legal(
    alloc: Global,
    view: &View<'_>,
    call: &ReadDirArguments,
    reply: &NfsReply,
) -> Result<bool, AllocError>
    ensures { IfOk result (λ right. right ≡ readdir_is_legal view.now.binds.now view.now.nodes.now call.now reply.now) }
{
    match reply {
        NfsReply::ReadDir(Answer::Done(success)) => {
            let Some(directory) = directory_of(view, &call.directory) else {
                return Ok(false);
            };
            let names = listed_names(alloc, success.entries.as_slice())?;
            Ok(is_listing(view.nodes, directory, call.cookie, success.eof, &names))
        }
        _ => Ok(false),
    }
}

/// The names of a READDIRPLUS.
fn listed_names_plus(alloc: Global, entries: &[DirectoryEntryPlus]) -> Result<Names, AllocError>
    ensures { IfOk result (λ names. names ≡ map (λ e. e.name) entries.now) }
{
    let mut names = Names::new(alloc);
    for entry in entries {
        names = names.with(alloc, entry.name.as_slice())?;
    }
    Ok(names)
}

/// Whether the handle beside an entry, if any, is one of its object.
fn has_its_handle(view: &View<'_>, directory: u64, entry: &DirectoryEntryPlus) -> bool
    requires { IsSome (path_of view.now.nodes.now directory) }
    ensures { result ≡ has_its_handle view.now.binds.now view.now.nodes.now (place_of view.now.nodes.now directory) entry.now }
{
    match entry_at(view.nodes, directory, entry.name.as_slice()) {
        Some(node) => gives_object(view.binds, &entry.object, node.object),
        None => true,
    }
}

/// Whether each handle is.
fn have_their_handles(view: &View<'_>, directory: u64, entries: &[DirectoryEntryPlus]) -> bool
    requires { IsSome (path_of view.now.nodes.now directory) }
    ensures { result ≡ list_all (has_its_handle view.now.binds.now view.now.nodes.now (place_of view.now.nodes.now directory)) entries.now }
{
    for entry in entries {
        if !has_its_handle(view, directory, entry) {
            return false;
        }
    }
    true
}

/// A READDIRPLUS succeeds with these entries.
pub fn readdirplus_is_legal(
    alloc: Global,
    view: &View<'_>,
    call: &ReadDirPlusArguments,
    reply: &NfsReply,
) -> Result<bool, AllocError>
    ensures { IfOk result (λ right. right ≡ readdirplus_is_legal view.now.binds.now view.now.nodes.now call.now reply.now) }
{
    match reply {
        NfsReply::ReadDirPlus(Answer::Done(success)) => {
            let Some(directory) = directory_of(view, &call.directory) else {
                return Ok(false);
            };
            let entries = success.entries.as_slice();
            let names = listed_names_plus(alloc, entries)?;
            let is_right = is_listing(view.nodes, directory, call.cookie, success.eof, &names)
                && have_their_handles(view, directory, entries);
            Ok(is_right)
        }
        _ => Ok(false),
    }
}
