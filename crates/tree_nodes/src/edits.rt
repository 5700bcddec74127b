//! Changes of the bytes of files in the table.

ghost use Rattle.std.specs.Prelude.{◌≡◌, ℕ, List, IfOk, OnOk, OnErr, Some};
ghost use Rattle.std.specs.FinMap as map;
ghost use Rattle.tree_nodes.specs.declared.node.File.{File};
ghost use Rattle.tree_nodes.specs.declared.node.Content.TheVariants as contents;
ghost use Rattle.tree_nodes.specs.Files.{file_node};
ghost use Rattle.tree_nodes.specs.Edits.{edited, IsWithin};
ghost use Rattle.tree_stores.specs.Undo.{Restores};
ghost use Rattle.tree_stores.specs.Books.{IsOwn};
ghost use Rattle.tree_nodes.specs.Changes.{Sets};
ghost use Rattle.tree_nodes.specs.Walk.{Held};
ghost use Rattle.tree_nodes.specs.Table.{child, held};
ghost use Rattle.tree_nodes.specs.TableChanges.{IsSame};

use crate::node::{Content, File};
use crate::table::{Body, Edit, Entry};
use std::alloc::AllocError;
use tree_stores::{FileUndo, Pages, Shared, Slots};

/// Changes a file's bytes.
fn edit_file(file: &mut File, edit: Edit<'_>) -> Result<FileUndo, AllocError>
    requires { IsWithin edit }
    ensures ok { OnOk result (file.new ≡ record file.old { bytes = edited edit.entry file.old.bytes }) }
    ensures undo { IfOk result (λ undo. Restores undo (edited edit.entry file.old.bytes) file.old.bytes) }
    ensures err { OnErr result (file.new ≡ file.old) }
{
    match edit {
        Edit::Write(offset, added) => file.bytes.write(offset, added),
        Edit::Resize(size) => file.bytes.resize(size),
    }
}

/// Changes the bytes of what is a file.
fn edit_content(content: &mut Content, edit: Edit<'_>) -> Result<FileUndo, AllocError>
    requires limit { IsWithin edit }
    requires file { (file : File) × (content.old ≡ contents.File file) }
    ensures ok { OnOk result ((file : File) → content.old ≡ contents.File file → content.new ≡ contents.File (record file { bytes = edited edit.entry file.bytes })) }
    ensures undo { IfOk result (λ undo. (file : File) → content.old ≡ contents.File file → Restores undo (edited edit.entry file.bytes) file.bytes) }
    ensures err { OnErr result (content.new ≡ content.old) }
{
    let Content::File(file) = content else {
        unreachable!()
    };
    edit_file(file, edit)
}

/// Changes the bytes of what is a file, where it stands.
fn edit_body(body: &mut Shared<Body>, edit: Edit<'_>) -> Result<FileUndo, AllocError>
    requires limit { IsWithin edit }
    requires file { (file : File) × (body.old.node.content ≡ contents.File file) }
    ensures ok { OnOk result ((file : File) → body.old.node.content ≡ contents.File file
        → body.new ≡ record body.old { node = file_node body.old.node.object (edited edit.entry file.bytes) file.verifier }) }
    ensures undo { IfOk result (λ undo. (file : File) → body.old.node.content ≡ contents.File file → Restores undo (edited edit.entry file.bytes) file.bytes) }
    ensures err { OnErr result (body.new ≡ body.old) }
{
    let body = body.get_mut()?;
    edit_content(&mut body.node.content, edit)
}

/// Changes the bytes of a file on a page that has its slots to itself.
fn edit_in(pages: &mut Pages<Entry>, object: u64, edit: Edit<'_>) -> Result<FileUndo, AllocError>
    requires own { IsOwn pages.old object }
    requires limit { IsWithin edit }
    requires file { (h : Held) × (file : File) × (held pages.old.map object ≡ Some h) × (h.2.content ≡ contents.File file) }
    ensures ok { OnOk result ((h : Held) (file : File) → held pages.old.map object ≡ Some h → h.2.content ≡ contents.File file
        → Sets object (file_node h.2.object (edited edit.entry file.bytes) file.verifier) (child pages.old.map) (child pages.new.map) (held pages.old.map) (held pages.new.map)) }
    ensures undo { IfOk result (λ undo. (h : Held) (file : File) → held pages.old.map object ≡ Some h → h.2.content ≡ contents.File file
        → Restores undo (edited edit.entry file.bytes) file.bytes) }
    ensures len { map.len pages.new.map ≡ map.len pages.old.map }
    ensures err { OnErr result (pages.new.map ≡ pages.old.map) }
{
    let Some(mut entry) = pages.take(object) else {
        unreachable!()
    };
    let edited = edit_body(&mut entry.body, edit);
    pages.put(object, entry);
    edited
}

/// Changes the bytes of a file that stands.
pub(crate) fn edit_bytes(
    entries: &mut Slots<Entry>,
    object: u64,
    edit: Edit<'_>,
) -> Result<FileUndo, AllocError>
    requires limit { IsWithin edit }
    requires file { (h : Held) × (file : File) × (held entries.old object ≡ Some h) × (h.2.content ≡ contents.File file) }
    ensures ok { OnOk result ((h : Held) (file : File) → held entries.old object ≡ Some h → h.2.content ≡ contents.File file
        → Sets object (file_node h.2.object (edited edit.entry file.bytes) file.verifier) (child entries.old) (child entries.new) (held entries.old) (held entries.new)) }
    ensures undo { IfOk result (λ undo. (h : Held) (file : File) → held entries.old object ≡ Some h → h.2.content ≡ contents.File file
        → Restores undo (edited edit.entry file.bytes) file.bytes) }
    ensures len { map.len entries.new ≡ map.len entries.old }
    ensures err { OnErr result (IsSame entries.old entries.new) }
{
    let pages = entries.pages_mut();
    pages.own(object)?;
    let edited = edit_in(pages, object, edit);
    pages.share(object);
    edited
}

/// Takes a change of a file's bytes back.
fn restore_file(file: &mut File, undo: FileUndo) -> Result<(), AllocError>
    requires { (before : List ℕ) × Restores undo file.old.bytes before }
    ensures ok { OnOk result ((before : List ℕ) → Restores undo file.old.bytes before → file.new ≡ record file.old { bytes = before }) }
    ensures err { OnErr result (file.new ≡ file.old) }
{
    file.bytes.restore(undo)
}

/// Takes a change of the bytes of what is a file back.
fn restore_content(content: &mut Content, undo: FileUndo) -> Result<(), AllocError>
    requires { (file : File) × (before : List ℕ) × (content.old ≡ contents.File file) × Restores undo file.bytes before }
    ensures ok { OnOk result ((file : File) (before : List ℕ) → content.old ≡ contents.File file → Restores undo file.bytes before
        → content.new ≡ contents.File (record file { bytes = before })) }
    ensures err { OnErr result (content.new ≡ content.old) }
{
    let Content::File(file) = content else {
        unreachable!()
    };
    restore_file(file, undo)
}

/// Takes a change of the bytes of what is a file back, where it stands.
fn restore_body(body: &mut Shared<Body>, undo: FileUndo) -> Result<(), AllocError>
    requires { (file : File) × (before : List ℕ) × (body.old.node.content ≡ contents.File file) × Restores undo file.bytes before }
    ensures ok { OnOk result ((file : File) (before : List ℕ) → body.old.node.content ≡ contents.File file → Restores undo file.bytes before
        → body.new ≡ record body.old { node = file_node body.old.node.object before file.verifier }) }
    ensures err { OnErr result (body.new ≡ body.old) }
{
    let body = body.get_mut()?;
    restore_content(&mut body.node.content, undo)
}

/// Takes a change of the bytes of a file on a page that has its slots to itself back.
fn restore_in(pages: &mut Pages<Entry>, object: u64, undo: FileUndo) -> Result<(), AllocError>
    requires own { IsOwn pages.old object }
    requires file { (h : Held) × (file : File) × (before : List ℕ) × (held pages.old.map object ≡ Some h) × (h.2.content ≡ contents.File file) × Restores undo file.bytes before }
    ensures ok { OnOk result ((h : Held) (file : File) (before : List ℕ) → held pages.old.map object ≡ Some h → h.2.content ≡ contents.File file → Restores undo file.bytes before
        → Sets object (file_node h.2.object before file.verifier) (child pages.old.map) (child pages.new.map) (held pages.old.map) (held pages.new.map)) }
    ensures len { map.len pages.new.map ≡ map.len pages.old.map }
    ensures err { OnErr result (pages.new.map ≡ pages.old.map) }
{
    let Some(mut entry) = pages.take(object) else {
        unreachable!()
    };
    let restored = restore_body(&mut entry.body, undo);
    pages.put(object, entry);
    restored
}

/// Takes a change of the bytes of a file that stands back.
pub(crate) fn restore_bytes(
    entries: &mut Slots<Entry>,
    object: u64,
    undo: FileUndo,
) -> Result<(), AllocError>
    requires { (h : Held) × (file : File) × (before : List ℕ) × (held entries.old object ≡ Some h) × (h.2.content ≡ contents.File file) × Restores undo file.bytes before }
    ensures ok { OnOk result ((h : Held) (file : File) (before : List ℕ) → held entries.old object ≡ Some h → h.2.content ≡ contents.File file → Restores undo file.bytes before
        → Sets object (file_node h.2.object before file.verifier) (child entries.old) (child entries.new) (held entries.old) (held entries.new)) }
    ensures len { map.len entries.new ≡ map.len entries.old }
    ensures err { OnErr result (IsSame entries.old entries.new) }
{
    let pages = entries.pages_mut();
    pages.own(object)?;
    let restored = restore_in(pages, object, undo);
    pages.share(object);
    restored
}
