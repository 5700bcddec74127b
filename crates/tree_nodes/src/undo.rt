//! Changes of the table, each with what takes it back.

ghost use Rattle.std.specs.Prelude.{◌≡◌, ◌<◌, ◌^◌, ℕ, List, length, IsSome, IfOk, OnOk, OnErr, Some, None};
ghost use Rattle.tree_nodes.specs.declared.node.File.{File};
ghost use Rattle.tree_nodes.specs.declared.node.Content.TheVariants as contents;
ghost use Rattle.tree_nodes.specs.Tree.{Tree};
ghost use Rattle.tree_nodes.specs.Walk.{Held};
ghost use Rattle.tree_nodes.specs.Table.{child, held};
ghost use Rattle.tree_nodes.specs.TableChanges.{IsSame};
ghost use Rattle.tree_nodes.specs.Edits.{IsWithin};
ghost use Rattle.tree_nodes.specs.Results.{IsMade, IsRemoved, IsEdited, IsMoved};
ghost use Rattle.tree_nodes.specs.Shown.{IsTableOf};
ghost use Rattle.tree_nodes.specs.Undo.{IsPutBack, IsMovedBack, StepsBack, TakesBack, held_nodes};

use crate::bytes::Bytes;
use crate::changes::{add, cut, shift, shift_over};
use crate::edits::{edit_bytes, restore_bytes};
use crate::node::Node;
use crate::table::{Edit, Entry, Place, child};
use std::alloc::{AllocError, Global};
use tree_stores::{FileUndo, Slots};

/// What one change took away or put, in the place of a copy of the tree.
#[derive(Drop)]
pub struct Undo {
    pub(crate) step: Step,
}

/// What a change was.
#[derive(Drop)]
pub(crate) enum Step {
    /// The tree stayed.
    Nothing,
    /// This object was put.
    Made(u64),
    /// This object was taken away.
    Removed(Entry),
    /// This file's bytes were others.
    Edited(u64, FileUndo),
    /// This object lay elsewhere.
    Moved(Move),
}

/// Where an object lay, and what lay where it went.
#[derive(Drop)]
pub(crate) struct Move {
    pub(crate) object: u64,
    pub(crate) place: Place,
    pub(crate) displaced: Option<Entry>,
}

impl Undo {
    /// What a change takes back that leaves the tree as it is.
    #[tactic(auto, unfolding(crate::specs::Undo::TakesBack))]
    pub fn nothing() -> Undo
        ensures { (tree : Tree) → TakesBack result tree tree }
    {
        Undo {
            step: Step::Nothing,
        }
    }

    /// How many nodes it holds: what the change took away, and neither what stayed nor what moved.
    pub fn nodes(&self) -> u64
        ensures { result ≡ held_nodes self.now }
    {
        match &self.step {
            Step::Nothing | Step::Made(_) | Step::Edited(..) => 0,
            Step::Removed(_) => 1,
            Step::Moved(change) => u64::from(change.displaced.is_some()),
        }
    }
}

/// Puts an object that isn't there under a name of a directory.
pub(crate) fn make(
    entries: &mut Slots<Entry>,
    alloc: Global,
    directory: u64,
    name: &[u8],
    node: Node,
) -> Result<Undo, AllocError>
    requires stands { IsSome (held entries.old directory) }
    requires new { held entries.old node.object ≡ None }
    requires short { length name.now < 2 ^ 32 }
    ensures ok { IfOk result (λ undo. IsMade directory name.now node undo entries.old entries.new) }
    ensures err { OnErr result (IsSame entries.old entries.new) }
{
    let object = node.object;
    add(entries, alloc, directory, name, node)?;
    Ok(Undo {
        step: Step::Made(object),
    })
}

/// Takes an object with no names in it away.
pub(crate) fn remove(entries: &mut Slots<Entry>, object: u64) -> Result<Undo, AllocError>
    requires stands { (h : Held) × (held entries.old object ≡ Some h) × (h.0 ≡ object → ⊥) × IsSome (held entries.old h.0) }
    requires bare { (name : List ℕ) → child entries.old object name ≡ None }
    ensures ok { IfOk result (λ undo. IsRemoved object undo entries.old entries.new) }
    ensures err { OnErr result (IsSame entries.old entries.new) }
{
    let entry = cut(entries, object)?;
    Ok(Undo {
        step: Step::Removed(entry),
    })
}

/// Changes the bytes of a file that stands.
pub(crate) fn edit(
    entries: &mut Slots<Entry>,
    object: u64,
    edit: Edit<'_>,
) -> Result<Undo, AllocError>
    requires limit { IsWithin edit }
    requires file { (h : Held) × (file : File) × (held entries.old object ≡ Some h) × (h.2.content ≡ contents.File file) }
    ensures ok { IfOk result (λ undo. IsEdited object edit.entry undo entries.old entries.new) }
    ensures err { OnErr result (IsSame entries.old entries.new) }
{
    let undo = edit_bytes(entries, object, edit)?;
    Ok(Undo {
        step: Step::Edited(object, undo),
    })
}

/// Puts an object under another name. What lay there goes.
pub(crate) fn rename(
    entries: &mut Slots<Entry>,
    alloc: Global,
    object: u64,
    directory: u64,
    name: &[u8],
) -> Result<Undo, AllocError>
    requires stands { (h : Held) × (held entries.old object ≡ Some h) × IsSome (held entries.old h.0) × (directory ≡ h.0 → name.now ≡ h.1 → ⊥) }
    requires directory { IsSome (held entries.old directory) }
    requires displaced { (other : ℕ) → child entries.old directory name.now ≡ Some other → IsSome (held entries.old other) × (other ≡ object → ⊥) × (other ≡ directory → ⊥) }
    requires bare { (other : ℕ) (any : List ℕ) → child entries.old directory name.now ≡ Some other → child entries.old other any ≡ None }
    requires short { length name.now < 2 ^ 32 }
    ensures ok { IfOk result (λ undo. IsMoved object directory name.now undo entries.old entries.new) }
    ensures err { OnErr result (IsSame entries.old entries.new) }
{
    let place = Place {
        parent: directory,
        name: Bytes::from_slice(alloc, name)?,
    };
    match child(entries, directory, name) {
        Some(other) => move_over(entries, object, place, other),
        None => move_free(entries, object, place),
    }
}

/// Puts an object under a free name.
fn move_free(entries: &mut Slots<Entry>, object: u64, place: Place) -> Result<Undo, AllocError>
    requires stands { (h : Held) × (held entries.old object ≡ Some h) × IsSome (held entries.old h.0) × (place.parent ≡ h.0 → place.name ≡ h.1 → ⊥) }
    requires directory { IsSome (held entries.old place.parent) }
    requires free { child entries.old place.parent place.name ≡ None }
    ensures ok { IfOk result (λ undo. IsMoved object place.parent place.name undo entries.old entries.new) }
    ensures err { OnErr result (IsSame entries.old entries.new) }
{
    let place = shift(entries, object, place)?;
    Ok(Undo {
        step: Step::Moved(Move {
            object,
            place,
            displaced: None,
        }),
    })
}

/// Puts an object under the name of another one, which goes.
fn move_over(
    entries: &mut Slots<Entry>,
    object: u64,
    place: Place,
    other: u64,
) -> Result<Undo, AllocError>
    requires stands { (h : Held) × (held entries.old object ≡ Some h) × IsSome (held entries.old h.0) × (place.parent ≡ h.0 → place.name ≡ h.1 → ⊥) }
    requires directory { IsSome (held entries.old place.parent) }
    requires there { child entries.old place.parent place.name ≡ Some other }
    requires displaced { IsSome (held entries.old other) × (other ≡ object → ⊥) × (other ≡ place.parent → ⊥) }
    requires bare { (any : List ℕ) → child entries.old other any ≡ None }
    ensures ok { IfOk result (λ undo. IsMoved object place.parent place.name undo entries.old entries.new) }
    ensures err { OnErr result (IsSame entries.old entries.new) }
{
    let (place, displaced) = shift_over(entries, object, place, other)?;
    Ok(Undo {
        step: Step::Moved(Move {
            object,
            place,
            displaced,
        }),
    })
}

/// Puts an object that was taken away back.
fn put_back(entries: &mut Slots<Entry>, alloc: Global, entry: Entry) -> Result<(), AllocError>
    requires { (tree : Tree) × (before : Tree) × IsTableOf entries.old tree × IsPutBack entry tree before }
    ensures ok { OnOk result ((tree before : Tree) → IsTableOf entries.old tree → IsPutBack entry tree before → IsTableOf entries.new before) }
    ensures err { OnErr result (IsSame entries.old entries.new) }
{
    let body = entry.body.into_inner()?;
    let name = body.name;
    add(entries, alloc, entry.parent, name.as_slice(), body.node)
}

/// Puts an object where it lay, and back what it took the place of.
fn move_back(entries: &mut Slots<Entry>, alloc: Global, step: Move) -> Result<(), AllocError>
    requires { (tree : Tree) × (before : Tree) × IsTableOf entries.old tree × IsMovedBack step tree before }
    ensures ok { OnOk result ((tree before : Tree) → IsTableOf entries.old tree → IsMovedBack step tree before → IsTableOf entries.new before) }
    ensures err { OnErr result ((tree before : Tree) → IsTableOf entries.old tree → IsMovedBack step tree before → (now : Tree) × IsTableOf entries.new now) }
{
    shift(entries, step.object, step.place)?;
    match step.displaced {
        Some(entry) => put_back(entries, alloc, entry),
        None => Ok(()),
    }
}

/// Takes a change back. Where memory runs out, a part of it may be.
pub(crate) fn take_back(
    entries: &mut Slots<Entry>,
    alloc: Global,
    step: Step,
) -> Result<(), AllocError>
    requires { (tree : Tree) × (before : Tree) × IsTableOf entries.old tree × StepsBack step tree before }
    ensures ok { OnOk result ((tree before : Tree) → IsTableOf entries.old tree → StepsBack step tree before → IsTableOf entries.new before) }
    ensures err { OnErr result ((tree before : Tree) → IsTableOf entries.old tree → StepsBack step tree before → (now : Tree) × IsTableOf entries.new now) }
{
    match step {
        Step::Nothing => Ok(()),
        Step::Made(object) => {
            drop(cut(entries, object)?);
            Ok(())
        }
        Step::Removed(entry) => put_back(entries, alloc, entry),
        Step::Edited(object, bytes) => restore_bytes(entries, object, bytes),
        Step::Moved(step) => move_back(entries, alloc, step),
    }
}
