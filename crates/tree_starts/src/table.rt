//! What of the objects so far decides where others may stand.

ghost use Rattle.std.specs.Prelude.{◌≡◌, ◌≤◌, ◌+◌, ◌∷◌, ◌++◌, [], None, length, OnOk, OnErr, IfOk};
ghost use Rattle.tree_starts.specs.Seen.{seen_object, seen_node};
ghost use Rattle.tree_starts.specs.Start.{keys_of, is_parent, may_be_named, fits, is_directory, object_fault, start_limit};

use crate::fault::StartFault;
use crate::keys::Keys;
use crate::names::is_plain;
use crate::object::TEXT_LIMIT;
use crate::seen::{SeenNode, SeenObject, SeenStart};
use nfs3_types::FILE_LIMIT;
use std::alloc::{AllocError, Global};
use std::marker::Model;

/// The objects of a start so far, each of which may stand where it is. Contracts see it as their list.
pub struct StartTable<'a> {
    keys: Keys<'a>,
    seen: Vec<SeenObject<'a>>,
}

impl<'a> Model for StartTable<'a> {
    ghost use Rattle.std.specs.Prelude.{◌≡◌, List};
    ghost use Rattle.tree_starts.specs.Seen.{all_seen};
    ghost use Rattle.tree_starts.specs.Start.{keys_of, AllMayStand};
    ghost use Rattle.tree_starts.specs.declared.object.StartObject.{StartObject};

    ghost Value = { List StartObject };

    ghost view = { λ t. all_seen t.seen.items };

    ghost invariant = { λ t. (t.keys ≡ keys_of (all_seen t.seen.items)) × AllMayStand (all_seen t.seen.items) };
}

impl Drop for StartTable<'_> {
    fn drop(self) {
        let StartTable { keys, seen } = self;
        drop(keys);
        drop(seen);
    }
}

impl<'a> StartTable<'a> {
    /// Of no objects.
    #[tactic(auto, unfolding(crate::specs::Start::fault_from))]
    pub fn new(alloc: Global) -> StartTable<'a>
        ensures { result ≡ [] }
    {
        StartTable {
            keys: Keys::new(alloc),
            seen: Vec::new(alloc),
        }
    }

    /// Whether an object may lie in this one: in the root, 0, or in a directory that is there.
    pub fn is_parent(&self, parent: u64) -> bool
        ensures { result ≡ is_parent (keys_of self.now) parent }
    {
        self.keys.is_parent(parent)
    }

    /// Whether an object can have this name in this directory: it isn't empty, `.` or `..`, nor taken there.
    pub fn may_be_named(&self, parent: u64, name: &'a [u8]) -> bool
        ensures { result ≡ may_be_named (keys_of self.now) parent name.now }
    {
        is_plain(name) && self.keys.is_free(parent, name)
    }

    /// What is wrong with the next object, if anything is, told as a fault of this number.
    pub fn fault_of(&self, number: u64, object: &SeenObject<'a>) -> Option<StartFault>
        ensures { result ≡ object_fault (keys_of self.now) number (seen_object object.now) }
    {
        if !self.is_parent(object.parent) {
            return Some(StartFault::BadStart(number));
        }
        if object.name.len() > TEXT_LIMIT {
            return Some(StartFault::TooLarge(number));
        }
        if !self.may_be_named(object.parent, object.name) {
            return Some(StartFault::BadStart(number));
        }
        if !fits(&object.node) {
            return Some(StartFault::TooLarge(number));
        }
        None
    }

    /// Puts the next object after the others.
    pub fn push(&mut self, object: &SeenObject<'a>) -> Result<(), AllocError>
        requires { object_fault (keys_of self.old) (length self.old + 1) (seen_object object.now) ≡ None }
        ensures ok { OnOk result (self.new ≡ self.old ++ seen_object object.now ∷ []) }
        ensures err { OnErr result (self.new ≡ self.old) }
    {
        self.seen.reserve(1)?;
        self.keys
            .push(object.parent, object.name, is_directory(&object.node))?;
        self.seen.push(*object).unwrap();
        Ok(())
    }

    /// The start that they are.
    pub fn finish(self) -> SeenStart<'a>
        requires { length self ≤ start_limit }
        ensures { result ≡ self.entry }
    {
        let StartTable { keys, seen } = self;
        drop(keys);
        SeenStart::of_objects(seen)
    }
}

fn is_directory(node: &SeenNode<'_>) -> bool
    ensures { result ≡ is_directory (seen_node node.now) }
{
    match node {
        SeenNode::File(_) => false,
        SeenNode::Directory => true,
        SeenNode::Link(_) => false,
    }
}

/// Whether a file's bytes or a link's text are within their limit.
fn fits(node: &SeenNode<'_>) -> bool
    ensures { result ≡ fits (seen_node node.now) }
{
    match node {
        SeenNode::File(bytes) => bytes.len() <= FILE_LIMIT as usize,
        SeenNode::Directory => true,
        SeenNode::Link(text) => text.len() <= TEXT_LIMIT,
    }
}
