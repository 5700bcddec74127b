//! The table of a tree's objects.

ghost use Rattle.std.specs.Prelude.{true, false, option_and_then, ◌≡◌, ◌<◌, ℕ, List, IsSome, IfSome, IfOk, Some, None};
ghost use Rattle.std.specs.Ordering.{nat_cmp};
ghost use Rattle.std.specs.FinMap as map;
ghost use Rattle.std.specs.Map.{keys_of};
ghost use Rattle.std.specs.Option.{option_copied, option_map};
ghost use Rattle.std.specs.Cmp.Lexicographic.{slice_cmp};
ghost use Rattle.std.specs.BTreeSet.{contains};
ghost use Rattle.tree_nodes.specs.Walk.{Held, node_of, IsTree, IsBeyond};
ghost use Rattle.tree_nodes.specs.Openings.{IsOpening};
ghost use Rattle.tree_nodes.specs.Table.{name_in, names_in, child, held};

use crate::bytes::Bytes;
use crate::node::{Content, Node};
use std::alloc::{AllocError, Global};
use std::collections::BTreeSet;
use tree_stores::names::Iter;
use tree_stores::{Names, Shared, Slots};

/// An object with its place. A walk to the root reads nothing else of it than its directory's number, so this stands outside
/// what copies of the tree share.
#[derive(Drop)]
pub(crate) struct Entry {
    /// The object of the directory that it lies in; the root's is its own.
    pub(crate) parent: u64,
    pub(crate) body: Shared<Body>,
}

/// What else there is of an object. What a look-up reads of a directory stands together, ahead of the name.
#[derive(Drop)]
pub(crate) struct Body {
    /// The objects of the names in it.
    pub(crate) names: Names,
    pub(crate) node: Node,
    /// Its name in its directory.
    pub(crate) name: Bytes,
}

/// The root alone, a directory, object 0.
pub(crate) fn root_alone(alloc: Global) -> Result<Slots<Entry>, AllocError>
    ensures { IfOk result IsOpening }
{
    let root = Body {
        name: Bytes::from_vec(Vec::new(alloc)),
        node: Node {
            object: 0,
            content: Content::Directory,
        },
        names: Names::new(alloc),
    };
    let body = Shared::new(alloc, root)?;
    let mut entries = Slots::new(alloc);
    entries.insert(0, Entry { parent: 0, body })?;
    Ok(entries)
}

/// The node of an object.
pub(crate) fn node_at(entries: &Slots<Entry>, object: u64) -> Option<&Node>
    ensures { option_copied result ≡ node_of (held entries.now) object }
{
    let Some(entry) = entries.get(object) else {
        return None;
    };
    Some(&entry.body.get().node)
}

/// The object of the directory that an object lies in.
pub(crate) fn parent_of(entries: &Slots<Entry>, object: u64) -> Option<u64>
    ensures { result ≡ option_map (λ h. h.0) (held entries.now object) }
{
    let Some(entry) = entries.get(object) else {
        return None;
    };
    Some(entry.parent)
}

/// The object of the directory that an object lies in, and its name there.
pub(crate) fn place_of(entries: &Slots<Entry>, object: u64) -> Option<(u64, &Bytes)>
    ensures { option_map {U = ℕ × List ℕ} (λ place. (place.0, place.1.now)) result ≡ option_map (λ h. (h.0, h.1)) (held entries.now object) }
{
    let Some(entry) = entries.get(object) else {
        return None;
    };
    Some((entry.parent, &entry.body.get().name))
}

/// The names in a directory, with their objects.
pub(crate) fn names_of(entries: &Slots<Entry>, directory: u64) -> Option<Iter<'_>>
    ensures { result ≡ option_map names_in (map.get entries.now directory) }
{
    let Some(entry) = entries.get(directory) else {
        return None;
    };
    Some(entry.body.get().names.iter())
}

/// Whether no name leads on from an object.
pub(crate) fn is_bare(entries: &Slots<Entry>, object: u64) -> bool
    ensures bare { result ≡ true → (name : List ℕ) → child entries.now object name ≡ None }
    ensures other { result ≡ false → (name : List ℕ) × (next : ℕ) × (child entries.now object name ≡ Some next) }
{
    let Some(entry) = entries.get(object) else {
        return true;
    };
    entry.body.get().names.is_empty()
}

/// The object of a name in a directory.
pub(crate) fn child(entries: &Slots<Entry>, directory: u64, name: &[u8]) -> Option<u64>
    ensures { result ≡ child entries.now directory name.now }
{
    let Some(entry) = entries.get(directory) else {
        return None;
    };
    entry.body.get().names.get(name)
}

/// The node of a name in a directory.
pub(crate) fn entry_in<'a>(
    entries: &'a Slots<Entry>,
    directory: u64,
    name: &[u8],
) -> Option<&'a Node>
    ensures { option_copied result ≡ option_and_then (node_of (held entries.now)) (child entries.now directory name.now) }
{
    let Some(object) = child(entries, directory, name) else {
        return None;
    };
    node_at(entries, object)
}

/// Looks at an object, at those below it, and so on, no more than so many. Where all were seen, and another object isn't one of
/// them, it gives how many more it would have looked at.
pub(crate) fn look_below(entries: &Slots<Entry>, object: u64, front: u64, most: u32) -> Option<u32>
    ensures outside { IsSome result → IsBeyond (child entries.now) object front }
    ensures less { IfSome result (λ left. left < most) }
{
    if object == front || most == 0 {
        return None;
    }
    let mut left = most - 1;
    let Some(entry) = entries.get(front) else {
        return Some(left);
    };
    for (_, next) in entry.body.get().names.iter() {
        left = look_below(entries, object, next, left)?;
    }
    Some(left)
}

/// Whether the name of each of these objects is among others.
fn are_among(entries: &Slots<Entry>, here: &Names, names: &BTreeSet<Bytes>) -> bool
    requires { (name : List ℕ) (next : ℕ) → name_in here.now name ≡ Some next → (h : Held) × (held entries.now next ≡ Some h) × (h.1 ≡ name) }
    ensures all { result ≡ true → (name : List ℕ) (next : ℕ) → name_in here.now name ≡ Some next → contains (slice_cmp nat_cmp) names.now name ≡ true }
    ensures missing { result ≡ false → (name : List ℕ) × (next : ℕ) × (name_in here.now name ≡ Some next) × (contains (slice_cmp nat_cmp) names.now name ≡ false) }
{
    for (_, object) in here.iter() {
        let Some(listed) = entries.get(object) else {
            unreachable!()
        };
        if !names.contains(&listed.body.get().name) {
            return false;
        }
    }
    true
}

/// Whether the name of each object in a directory is among these. It looks at one more than there are, at most.
pub(crate) fn lists_all(entries: &Slots<Entry>, directory: u64, names: &BTreeSet<Bytes>) -> bool
    requires { IsTree (child entries.now) (held entries.now) }
    ensures all { result ≡ true → (name : List ℕ) (next : ℕ) → child entries.now directory name ≡ Some next → contains (slice_cmp nat_cmp) names.now name ≡ true }
    ensures missing { result ≡ false → (name : List ℕ) × (next : ℕ) × (child entries.now directory name ≡ Some next) × (contains (slice_cmp nat_cmp) names.now name ≡ false) }
{
    let Some(entry) = entries.get(directory) else {
        return true;
    };
    are_among(entries, &entry.body.get().names, names)
}

/// The numbers of all objects.
pub(crate) fn objects_of(alloc: Global, entries: &Slots<Entry>) -> Result<Vec<u64>, AllocError>
    ensures { IfOk result (λ objects. objects.items ≡ keys_of (map.entries entries.now)) }
{
    let mut objects = Vec::new(alloc);
    for (object, _) in entries.iter() {
        objects.push(object)?;
    }
    Ok(objects)
}

/// Where an object lies.
#[derive(Drop)]
pub(crate) struct Place {
    pub(crate) parent: u64,
    pub(crate) name: Bytes,
}

/// A change of a file's bytes.
#[derive(Drop)]
pub(crate) enum Edit<'a> {
    /// These bytes stand at an offset.
    Write(u64, &'a [u8]),
    /// The file is cut, or filled with zeros, to a size.
    Resize(u64),
}
