//! Why a call may fail at its handles (RFC 1813, section 2.6 and section 3.3, by procedure).

ghost use Rattle.std.specs.Prelude.{◌≡◌};
ghost use Rattle.std.specs.Option.{option_copied};
ghost use Rattle.tree_answers.specs.Causes.{content_of, isnt_live, handle_isnt_live, is_of_no_directory, handle_of_no_directory, readlink_of_no_link, is_of_directory, file_is_directory, is_of_link, file_is_link};

use crate::asked::{file_wanted, first_handle, second_handle, wants_directory};
use nfs3_types::{FileHandle, NfsCall};
use tree_handles::tree_nodes::Content;
use tree_handles::{View, is_directory, is_link, live_entry};

/// What a live handle names.
fn content_of<'a>(view: &View<'a>, handle: &FileHandle) -> Option<&'a Content>
    ensures { option_copied result ≡ content_of view.now.binds.now view.now.nodes.now handle.now }
{
    match live_entry(view, handle) {
        Some(node) => Some(&node.content),
        None => None,
    }
}

/// Whether a handle names nothing that stands.
fn isnt_live(view: &View<'_>, handle: &FileHandle) -> bool
    ensures { result ≡ isnt_live view.now.binds.now view.now.nodes.now handle.now }
{
    live_entry(view, handle).is_none()
}

/// A handle isn't live.
pub(crate) fn handle_isnt_live(view: &View<'_>, call: &NfsCall) -> bool
    ensures { result ≡ handle_isnt_live view.now.binds.now view.now.nodes.now call.now }
{
    if isnt_live(view, first_handle(call)) {
        return true;
    }
    match second_handle(call) {
        Some(handle) => isnt_live(view, handle),
        None => false,
    }
}

/// Whether a live handle isn't a directory's.
fn is_of_no_directory(view: &View<'_>, handle: &FileHandle) -> bool
    ensures { result ≡ is_of_no_directory view.now.binds.now view.now.nodes.now handle.now }
{
    match content_of(view, handle) {
        Some(content) => !is_directory(content),
        None => false,
    }
}

/// A live handle isn't that of the directory that it has to be.
pub(crate) fn handle_of_no_directory(view: &View<'_>, call: &NfsCall) -> bool
    ensures { result ≡ handle_of_no_directory view.now.binds.now view.now.nodes.now call.now }
{
    if wants_directory(call) && is_of_no_directory(view, first_handle(call)) {
        return true;
    }
    match second_handle(call) {
        Some(handle) => is_of_no_directory(view, handle),
        None => false,
    }
}

/// READLINK of no link.
pub(crate) fn readlink_of_no_link(view: &View<'_>, call: &NfsCall) -> bool
    ensures { result ≡ readlink_of_no_link view.now.binds.now view.now.nodes.now call.now }
{
    match call {
        NfsCall::ReadLink(link) => {
            match content_of(view, link) {
                Some(content) => !is_link(content),
                None => false,
            }
        }
        _ => false,
    }
}

/// Whether a live handle is a directory's.
fn is_of_directory(view: &View<'_>, handle: &FileHandle) -> bool
    ensures { result ≡ is_of_directory view.now.binds.now view.now.nodes.now handle.now }
{
    match content_of(view, handle) {
        Some(content) => is_directory(content),
        None => false,
    }
}

/// What has to be a file is a directory.
pub(crate) fn file_is_directory(view: &View<'_>, call: &NfsCall) -> bool
    ensures { result ≡ file_is_directory view.now.binds.now view.now.nodes.now call.now }
{
    match file_wanted(call) {
        Some(handle) => is_of_directory(view, handle),
        None => false,
    }
}

/// Whether a live handle is a link's.
fn is_of_link(view: &View<'_>, handle: &FileHandle) -> bool
    ensures { result ≡ is_of_link view.now.binds.now view.now.nodes.now handle.now }
{
    match content_of(view, handle) {
        Some(content) => is_link(content),
        None => false,
    }
}

/// What has to be a file is a link.
pub(crate) fn file_is_link(view: &View<'_>, call: &NfsCall) -> bool
    ensures { result ≡ file_is_link view.now.binds.now view.now.nodes.now call.now }
{
    match file_wanted(call) {
        Some(handle) => is_of_link(view, handle),
        None => false,
    }
}
