//! Why a call may fail at its names, and without a look at the tree (RFC 1813, section 3.3, by procedure).

ghost use Rattle.std.specs.Prelude.{◌≡◌, Some};
ghost use Rattle.tree_handles.specs.tree_nodes_specs.Tree.{Names, entry_of};
ghost use Rattle.tree_answers.specs.Causes.{is_absent, name_is_absent, stops, name_is_present, is_unchecked, create_over_directory, remove_of_directory, rmdir_of_no_directory, is_filled_directory, rmdir_of_filled_directory, isnt_plain, name_isnt_plain, is_odd, has_odd_byte, name_has_odd_byte, setattr_with_guard, listing_with_cookie};

use crate::asked::{entry_wanted, first_place, second_place};
use nfs3_types::{CreateMode, DirectoryName, NfsCall};
use tree_handles::tree_nodes::{Content, Node, Nodes};
use tree_handles::{View, directory_of, is_directory, is_file, is_plain, named};

/// Whether a live directory has no such entry.
fn is_absent(view: &View<'_>, place: &DirectoryName) -> bool
    ensures { result ≡ is_absent view.now.binds.now view.now.nodes.now place.now }
{
    if directory_of(view, &place.directory).is_none() {
        return false;
    }
    named(view, place).is_none()
}

/// A name that has to be an entry is none.
pub(crate) fn name_is_absent(view: &View<'_>, call: &NfsCall) -> bool
    ensures { result ≡ name_is_absent view.now.binds.now view.now.nodes.now call.now }
{
    match entry_wanted(call) {
        Some(place) => is_absent(view, place),
        None => false,
    }
}

/// Whether a CREATE doesn't go on at such an object.
fn stops(mode: &CreateMode, content: &Content) -> bool
    ensures { result ≡ stops mode.now content.now }
{
    match mode {
        CreateMode::Unchecked(_) => !is_file(content),
        CreateMode::Guarded(_) | CreateMode::Exclusive(_) => true,
    }
}

/// A name that would be made is an entry.
pub(crate) fn name_is_present(view: &View<'_>, call: &NfsCall) -> bool
    ensures { result ≡ name_is_present view.now.binds.now view.now.nodes.now call.now }
{
    match call {
        NfsCall::Create(call) => {
            match named(view, &call.place) {
                Some(node) => stops(&call.mode, &node.content),
                None => false,
            }
        }
        NfsCall::MkDir(call) => named(view, &call.place).is_some(),
        NfsCall::SymLink(call) => named(view, &call.place).is_some(),
        _ => false,
    }
}

/// Whether a CREATE is unchecked.
fn is_unchecked(mode: &CreateMode) -> bool
    ensures { result ≡ is_unchecked mode.now }
{
    match mode {
        CreateMode::Unchecked(_) => true,
        CreateMode::Guarded(_) | CreateMode::Exclusive(_) => false,
    }
}

/// An unchecked CREATE of a directory's name.
pub(crate) fn create_over_directory(view: &View<'_>, call: &NfsCall) -> bool
    ensures { result ≡ create_over_directory view.now.binds.now view.now.nodes.now call.now }
{
    match call {
        NfsCall::Create(call) => {
            match named(view, &call.place) {
                Some(node) => is_unchecked(&call.mode) && is_directory(&node.content),
                None => false,
            }
        }
        _ => false,
    }
}

/// REMOVE of a directory.
pub(crate) fn remove_of_directory(view: &View<'_>, call: &NfsCall) -> bool
    ensures { result ≡ remove_of_directory view.now.binds.now view.now.nodes.now call.now }
{
    match call {
        NfsCall::Remove(place) => {
            match named(view, place) {
                Some(node) => is_directory(&node.content),
                None => false,
            }
        }
        _ => false,
    }
}

/// RMDIR of no directory.
pub(crate) fn rmdir_of_no_directory(view: &View<'_>, call: &NfsCall) -> bool
    ensures { result ≡ rmdir_of_no_directory view.now.binds.now view.now.nodes.now call.now }
{
    match call {
        NfsCall::RmDir(place) => {
            match named(view, place) {
                Some(node) => !is_directory(&node.content),
                None => false,
            }
        }
        _ => false,
    }
}

/// Whether an entry is a directory that isn't empty.
pub(crate) fn is_filled_directory(nodes: &Nodes, node: &Node) -> bool
    ensures { (path : Names) → entry_of nodes.now node.now.object ≡ Some (path, node.now)
        → result ≡ is_filled_directory nodes.now (path, node.now) }
{
    is_directory(&node.content) && !nodes.is_bare(node.object)
}

/// RMDIR of a directory that isn't empty.
pub(crate) fn rmdir_of_filled_directory(view: &View<'_>, call: &NfsCall) -> bool
    ensures { result ≡ rmdir_of_filled_directory view.now.binds.now view.now.nodes.now call.now }
{
    match call {
        NfsCall::RmDir(place) => {
            match named(view, place) {
                Some(node) => is_filled_directory(view.nodes, node),
                None => false,
            }
        }
        _ => false,
    }
}

/// Whether no entry can have the name of a place.
fn isnt_plain(place: &DirectoryName) -> bool
    ensures { result ≡ isnt_plain place.now }
{
    !is_plain(place.name.as_slice())
}

/// A name is empty, `.` or `..`.
pub(crate) fn name_isnt_plain(call: &NfsCall) -> bool
    ensures { result ≡ name_isnt_plain call.now }
{
    let first = match first_place(call) {
        Some(place) => isnt_plain(place),
        None => false,
    };
    let second = match second_place(call) {
        Some(place) => isnt_plain(place),
        None => false,
    };
    first || second
}

/// Whether a name in ASCII has no such byte.
fn is_odd(byte: u8) -> bool
    ensures { result ≡ is_odd byte }
{
    byte == 0 || byte == b'/' || byte > 127
}

/// Whether the name of a place holds such a byte.
fn has_odd_byte(place: &DirectoryName) -> bool
    ensures { result ≡ has_odd_byte place.now }
{
    for byte in place.name.as_slice() {
        if is_odd(*byte) {
            return true;
        }
    }
    false
}

/// A name holds byte 0, a slash or a byte above 127.
pub(crate) fn name_has_odd_byte(call: &NfsCall) -> bool
    ensures { result ≡ name_has_odd_byte call.now }
{
    let first = match first_place(call) {
        Some(place) => has_odd_byte(place),
        None => false,
    };
    let second = match second_place(call) {
        Some(place) => has_odd_byte(place),
        None => false,
    };
    first || second
}

/// SETATTR with a guard.
pub(crate) fn setattr_with_guard(call: &NfsCall) -> bool
    ensures { result ≡ setattr_with_guard call.now }
{
    match call {
        NfsCall::SetAttr(call) => call.guard.is_some(),
        _ => false,
    }
}

/// READDIR or READDIRPLUS behind a cookie.
pub(crate) fn listing_with_cookie(call: &NfsCall) -> bool
    ensures { result ≡ listing_with_cookie call.now }
{
    match call {
        NfsCall::ReadDir(call) => call.cookie != 0,
        NfsCall::ReadDirPlus(call) => call.cookie != 0,
        _ => false,
    }
}
