//! Whether two tables hold the same, and numbers of what they hold.

ghost use Rattle.std.specs.Prelude.{◌≡◌, ℕ, true, All, IsTrue, Decides};
ghost use Rattle.tree_nodes.specs.Table.{placed, held};

use crate::node::{Content, File};
use crate::table::Entry;
use tree_stores::Slots;
use tree_stores::nfs3_types::Verifier;

/// What a number of bytes counts with.
const MIX: u64 = 0x9e37_79b9_7f4a_7c15;

/// What the number of an object counts with.
const SPREAD: u64 = 0x7fb5_d329_728e_a185;

/// Whether two files were made with the same verifier, or both with none.
fn same_verifier(one: &Option<Verifier>, other: &Option<Verifier>) -> bool
    ensures { Decides result (one.now ≡ other.now) }
{
    match (one, other) {
        (None, None) => true,
        (Some(one), Some(other)) => one.value == other.value,
        _ => false,
    }
}

/// Whether two files are the same.
fn same_file(one: &File, other: &File) -> bool
    ensures { IsTrue result → one.now ≡ other.now }
{
    if same_verifier(&one.verifier, &other.verifier) {
        return one.bytes.is_same(&other.bytes);
    }
    false
}

/// Whether two objects are of one type, and hold the same.
fn same_content(one: &Content, other: &Content) -> bool
    ensures { IsTrue result → one.now ≡ other.now }
{
    match (one, other) {
        (Content::Directory, Content::Directory) => true,
        (Content::File(one), Content::File(other)) => same_file(one, other),
        (Content::Link(one), Content::Link(other)) => one == other,
        _ => false,
    }
}

/// Whether two objects have one number, and lie in the same place, and are the same, but for the names in them.
fn same_entry(object: u64, one: &Entry, other_object: u64, other: &Entry) -> bool
    ensures { IsTrue result → (object ≡ other_object) × (placed one.now ≡ placed other.now) }
{
    let ours = one.body.get();
    let theirs = other.body.get();
    if object != other_object
        || one.parent != other.parent
        || ours.node.object != theirs.node.object
    {
        return false;
    }
    if ours.name == theirs.name {
        return same_content(&ours.node.content, &theirs.node.content);
    }
    false
}

/// Whether the same objects lie in the same places.
pub(crate) fn same_entries(one: &Slots<Entry>, other: &Slots<Entry>) -> bool
    ensures { IsTrue result → (object : ℕ) → held one.now object ≡ held other.now object }
{
    if one.len() != other.len() {
        return false;
    }
    let mut theirs = other.iter();
    for (object, entry) in one.iter() {
        let Some((other_object, other_entry)) = theirs.next() else {
            return false;
        };
        if !same_entry(object, entry, other_object, other_entry) {
            return false;
        }
    }
    match theirs.next() {
        None => true,
        Some(_) => false,
    }
}

/// Whether an object lies in the same place, and is the same, or is in neither.
pub(crate) fn same_object(one: &Slots<Entry>, other: &Slots<Entry>, object: u64) -> bool
    ensures { IsTrue result → held one.now object ≡ held other.now object }
{
    match (one.get(object), other.get(object)) {
        (None, None) => true,
        (Some(ours), Some(theirs)) => same_entry(object, ours, object, theirs),
        _ => false,
    }
}

/// Whether each of these objects does.
pub(crate) fn same_objects(one: &Slots<Entry>, other: &Slots<Entry>, objects: &[u64]) -> bool
    ensures { IsTrue result → All (λ object. held one.now object ≡ held other.now object) objects.now }
{
    for object in objects {
        if !same_object(one, other, *object) {
            return false;
        }
    }
    true
}

/// A number of bytes that come after others.
fn bytes_number(first: u64, bytes: &[u8]) -> u64 {
    let mut number = first;
    for byte in bytes {
        number = (number ^ u64::from(*byte)).wrapping_mul(MIX);
        number ^= number >> 29;
    }
    number
}

/// A number of what an object is, after another one.
fn content_number(first: u64, content: &Content) -> u64 {
    match content {
        Content::Directory => first.wrapping_add(1),
        Content::File(file) => {
            let verifier = match &file.verifier {
                Some(verifier) => verifier.value.wrapping_mul(MIX).wrapping_add(3),
                None => 2,
            };
            (first ^ file.bytes.number())
                .wrapping_mul(MIX)
                .wrapping_add(verifier)
        }
        Content::Link(text) => bytes_number(first.wrapping_add(4), text.as_slice()),
    }
}

/// A number of an object, of its place, and of what it is.
pub(crate) fn entry_number(object: u64, entry: &Entry) -> u64 {
    let body = entry.body.get();
    let place = object.wrapping_mul(SPREAD).wrapping_add(entry.parent);
    let named = bytes_number(place, body.name.as_slice());
    let number = content_number(named, &body.node.content);
    (number ^ (number >> 31)).wrapping_mul(SPREAD)
}
