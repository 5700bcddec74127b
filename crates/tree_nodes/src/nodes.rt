//! The nodes of a tree, by the numbers of their objects.

ghost use Rattle.std.specs.Prelude.{List, ◌≡◌, ◌↔◌, ◌<◌, ◌≤◌, ◌+◌, ◌^◌, ℕ, false, true, [], ◌∷◌, ◌++◌, IsTrue, IfOk, OnOk, OnErr, Some, None, IsSome, IfSome, All, Contains, length, option_and_then};
ghost use Rattle.std.specs.Option.{option_copied, option_map};
ghost use Rattle.std.specs.FinMap as map;
ghost use Rattle.tree_stores.specs.nfs3_types_specs.Limits.{file_limit};
ghost use Rattle.tree_nodes.specs.declared.node.Node.{Node};
ghost use Rattle.tree_nodes.specs.declared.node.File.{File};
ghost use Rattle.tree_nodes.specs.declared.node.Content.TheVariants as contents;
ghost use Rattle.tree_nodes.specs.Tree.{Names, Tree, path_cmp, entry_of, is_bare, opening, parent};
ghost use Rattle.tree_nodes.specs.Files.{node_limit, file_node};
ghost use Rattle.tree_stores.specs.Files.{resized, written};
ghost use Rattle.tree_nodes.specs.Moved.{is_from, moved};
ghost use Rattle.tree_nodes.specs.Sound.{IsSound};
ghost use Rattle.tree_nodes.specs.Shown.{Shown, Shown-prop};
ghost use Rattle.tree_nodes.specs.Place.{node_in, AreNamesIn, object_above, are_among};
ghost use Rattle.tree_nodes.specs.Numbered.{IsNumbered};
ghost use Rattle.tree_nodes.specs.Printed.{entry_text, tree_text, EntryFits, IsPrintable};
ghost use Rattle.tree_nodes.specs.Paths.{paths_of, LiesIn};
ghost use Rattle.tree_nodes.specs.Spots.{spot_of, AreOthersSame, OthersStay};
ghost use Rattle.std.specs.List.{flat_map};
ghost use Rattle.std.specs.BTreeMap.{get, IsOrdered};
ghost use Rattle.tree_nodes.specs.Undo.{TakesBack};

use crate::bytes::{Bytes, Path};
use crate::lift::lift;
use crate::node::Node;
use crate::print::{put_entry, put_word};
use crate::ranks::{Ranks, TOP};
use crate::same::{entry_number, same_entries, same_object, same_objects};
use crate::table::{
    Edit, Entry, child, entry_in, is_bare, lists_all, look_below, names_of, node_at, objects_of,
    parent_of, place_of, root_alone,
};
use crate::undo::{Undo, edit, make, remove, rename, take_back};
use std::alloc::{AllocError, Global};
use std::collections::{BTreeMap, BTreeSet};
use std::marker::Model;
use tree_stores::Slots;
use tree_stores::names::Iter;

/// How many objects below one that moves are looked at: ahead of the walk from its new directory to the root where it has no rank of its
/// own, and once more behind as many steps of that walk.
const FEW: u32 = 32;

/// The nodes of a tree. A contract sees the finite map from paths to nodes.
pub struct Nodes {
    alloc: Global,
    entries: Slots<Entry>,
    ranks: Ranks,
    /// The tree, with that it is the one that the names lead through.
    ghost shown: { Shown entries } by { Shown-prop entries },
}

impl Drop for Nodes {
    fn drop(self) {
        let Nodes {
            alloc: _,
            entries,
            ranks,
        } = self;
        drop(entries);
        drop(ranks);
    }
}

impl Model for Nodes {
    ghost use Rattle.std.specs.Prelude.{ℕ};
    ghost use Rattle.std.specs.Coded.{coded_ℕ, coded_list};
    ghost use Rattle.std.specs.FinMap as finite;
    ghost use Rattle.tree_nodes.specs.Tree.{Tree};
    ghost use Rattle.tree_nodes.specs.Codes.{node_code};
    ghost use Rattle.tree_nodes.specs.Shown.{IsKept};

    ghost Value = { Tree };

    ghost coded = { finite.code (coded_list (coded_list coded_ℕ)) node_code };

    ghost view = { λ n. n.shown.0 };

    ghost invariant = { λ n. IsKept n.entries n.ranks };
}

impl Nodes {
    /// The root alone, a directory, object 0.
    pub fn opening(alloc: Global) -> Result<Nodes, AllocError>
        ensures { IfOk result (λ nodes. nodes ≡ opening) }
    {
        Ok(Nodes {
            alloc,
            entries: root_alone(alloc)?,
            ranks: Ranks::new(alloc),
        })
    }

    /// The same nodes. It costs a step for each 4,096 numbers of objects: what the trees have in common they share, until one of them
    /// changes.
    pub fn copy(&self) -> Result<Nodes, AllocError>
        ensures { IfOk result (λ nodes. nodes ≡ self.now) }
    {
        Ok(Nodes {
            alloc: self.alloc,
            entries: self.entries.copy()?,
            ranks: Ranks::never(self.alloc),
        })
    }

    /// Whether two trees are the same. It compares their objects one by one, and bytes only where their numbers are the same.
    pub fn is_same(&self, other: &Nodes) -> bool
        ensures { IsTrue result → self.now ≡ other.now }
    {
        same_entries(&self.entries, &other.entries)
    }

    /// Whether an object lies in both trees in the same place, and is the same, or is in neither.
    pub fn has_spot_of(&self, other: &Nodes, object: u64) -> bool
        ensures { IsTrue result → spot_of self.now object ≡ spot_of other.now object }
    {
        same_object(&self.entries, &other.entries, object)
    }

    /// Whether two trees are the same, where they differ in no other objects than these and those.
    pub fn is_same_at(&self, other: &Nodes, objects: &[u64], others: &[u64]) -> bool
        ensures { IsTrue result → AreOthersSame objects.now others.now self.now other.now → self.now ≡ other.now }
    {
        if !same_objects(&self.entries, &other.entries, objects) {
            return false;
        }
        same_objects(&self.entries, &other.entries, others)
    }

    /// A number of an object: of its own number, of the directory that it lies in, its name there, its type and what it holds. It is the
    /// same for objects that are the same, and 0 where there is no object of that number.
    pub fn number_of(&self, object: u64) -> u64 {
        match self.entries.get(object) {
            Some(entry) => entry_number(object, entry),
            None => 0,
        }
    }

    /// How many nodes there are, and what every tree keeps.
    pub fn count(&self) -> u64
        ensures value { result ≡ map.len self.now }
        ensures sound { IsSound self.now }
        ensures numbered { IsNumbered self.now }
    {
        self.entries.len() as u64
    }

    /// The node of an object.
    pub fn node(&self, object: u64) -> Option<&Node>
        ensures { option_copied result ≡ option_map (λ e. e.1) (entry_of self.now object) }
    {
        node_at(&self.entries, object)
    }

    /// The numbers of all objects. It takes a step for each.
    pub fn objects(&self) -> Result<Vec<u64>, AllocError>
        ensures { IfOk result (λ objects. (object : ℕ) → IsSome (entry_of self.now object) → Contains objects.items object) }
    {
        objects_of(self.alloc, &self.entries)
    }

    /// The node of a name in a directory, by the directory's object.
    pub fn entry(&self, directory: u64, name: &[u8]) -> Option<&Node>
        ensures node { option_copied result ≡ node_in self.now directory name.now }
        ensures place { option_and_then (λ n. entry_of self.now n.object) (option_copied result)
            ≡ option_and_then (λ e. option_map (λ n. (e.0 ++ name.now ∷ [], n)) (map.get self.now (e.0 ++ name.now ∷ []))) (entry_of self.now directory) }
        ensures stands { (e : Names × Node) (node : Node) → entry_of self.now directory ≡ Some e → option_copied result ≡ Some node
            → entry_of self.now node.object ≡ Some (e.0 ++ name.now ∷ [], node) }
    {
        entry_in(&self.entries, directory, name)
    }

    /// The object of a name in a directory, by the directory's object. It doesn't go to the object itself.
    pub fn object(&self, directory: u64, name: &[u8]) -> Option<u64>
        ensures { result ≡ option_map (λ n. n.object) (node_in self.now directory name.now) }
    {
        child(&self.entries, directory, name)
    }

    /// The names in a directory, in their order, with their objects. A file or a link has none.
    pub fn names(&self, directory: u64) -> Option<Iter<'_>>
        ensures names { IfSome result (AreNamesIn self.now directory) }
        ensures stands { IsSome result ↔ IsSome (entry_of self.now directory) }
    {
        names_of(&self.entries, directory)
    }

    /// The object of the directory that an object lies in. The root lies in itself (RFC 1813, section 3.3.3).
    pub fn parent(&self, object: u64) -> Option<u64>
        ensures { result ≡ object_above self.now object }
    {
        self.above(object)
    }

    fn above(&self, object: u64) -> Option<u64>
        ensures value { result ≡ object_above self.now object }
        ensures sound { IsSound self.now }
        ensures numbered { IsNumbered self.now }
    {
        parent_of(&self.entries, object)
    }

    /// Whether nothing lies below an object.
    pub fn is_bare(&self, object: u64) -> bool
        ensures { (e : Names × Node) → entry_of self.now object ≡ Some e → result ≡ is_bare self.now e.0 }
    {
        is_bare(&self.entries, object)
    }

    /// Whether nothing lies below a name in a directory.
    pub fn is_bare_at(&self, directory: u64, name: &[u8]) -> bool
        ensures { (e : Names × Node) → entry_of self.now directory ≡ Some e → result ≡ is_bare self.now (e.0 ++ name.now ∷ []) }
    {
        match entry_in(&self.entries, directory, name) {
            Some(node) => self.is_bare(node.object),
            None => true,
        }
    }

    /// Whether few objects lie from the front on, and an object isn't one of them.
    fn is_beyond(&self, object: u64, front: u64) -> bool
        ensures { result ≡ true → (e f : Names × Node) → entry_of self.now object ≡ Some e → entry_of self.now front ≡ Some f → is_from e.0 f.0 ≡ false }
    {
        look_below(&self.entries, object, front, FEW).is_some()
    }

    /// Whether an object ranks as high as the front, so that it doesn't lie below it.
    fn ranks_as_high(&self, object: u64, front: u64) -> bool
        ensures { result ≡ true → (object ≡ front → ⊥) → (e f : Names × Node) → entry_of self.now object ≡ Some e → entry_of self.now front ≡ Some f → is_from e.0 f.0 ≡ false }
    {
        let rank = self.ranks.get(front);
        rank < TOP && rank <= self.ranks.get(object)
    }

    /// Whether an object is the one in front, or lies below it. It takes a walk to the root, which ends early where an object on the way
    /// ranks as high as the front, or, behind some steps, where few objects lie below the front. Where the front has no rank of its own,
    /// those are looked at first.
    pub fn is_from(&self, object: u64, front: u64) -> bool
        ensures { (e f : Names × Node) → entry_of self.now object ≡ Some e → entry_of self.now front ≡ Some f → result ≡ is_from e.0 f.0 }
    {
        if self.ranks.get(front) == TOP && self.is_beyond(object, front) {
            return false;
        }
        let mut at = object;
        let mut steps: u32 = 0;
        while at != front {
            if self.ranks_as_high(at, front) || (steps == FEW && self.is_beyond(at, front)) {
                return false;
            }
            let Some(above) = self.above(at) else {
                return false;
            };
            if above == at {
                return false;
            }
            at = above;
            steps = steps.saturating_add(1);
        }
        true
    }

    /// Whether the name of each entry of a directory is among these. It looks at one entry more than there are names, at most.
    pub fn lists_all(&self, directory: u64, names: &BTreeSet<Bytes>) -> bool
        ensures { (e : Names × Node) → entry_of self.now directory ≡ Some e → result ≡ are_among names.now self.now e.0 }
    {
        lists_all(&self.entries, directory, names)
    }

    /// Puts a node that isn't there at a free name of a directory.
    pub fn make(&mut self, directory: u64, name: &[u8], node: Node) -> Result<Undo, AllocError>
        requires stands { IsSome (entry_of self.old directory) }
        requires free { node_in self.old directory name.now ≡ None }
        requires new { entry_of self.old node.object ≡ None }
        requires room { map.len self.old < node_limit }
        requires short { length name.now < 2 ^ 32 }
        ensures ok { OnOk result ((e : Names × Node) → entry_of self.old directory ≡ Some e → self.new ≡ map.insert self.old (e.0 ++ name.now ∷ []) node) }
        ensures spots { OnOk result (OthersStay node.object self.new self.old) }
        ensures undo { IfOk result (λ undo. TakesBack undo self.new self.old) }
        ensures err { OnErr result (self.new ≡ self.old) }
    {
        let object = node.object;
        self.ranks.begin(object);
        let made = make(&mut self.entries, self.alloc, directory, name, node);
        let least = self.ranks.get(object).saturating_add(1);
        lift(&self.entries, &mut self.ranks, directory, least);
        made
    }

    /// Takes an object with nothing below it away, unless it is the root.
    pub fn remove(&mut self, object: u64) -> Result<Undo, AllocError>
        requires stands { IsSome (entry_of self.old object) }
        requires isnt_root { (e : Names × Node) → entry_of self.old object ≡ Some e → e.0 ≡ [] → ⊥ }
        requires bare { (e : Names × Node) → entry_of self.old object ≡ Some e → is_bare self.old e.0 ≡ true }
        ensures ok { OnOk result ((e : Names × Node) → entry_of self.old object ≡ Some e → self.new ≡ map.remove self.old e.0) }
        ensures spots { OnOk result (OthersStay object self.new self.old) }
        ensures undo { IfOk result (λ undo. TakesBack undo self.new self.old) }
        ensures err { OnErr result (self.new ≡ self.old) }
    {
        remove(&mut self.entries, object)
    }

    /// Writes bytes to a file. Those outside stay, and a gap behind the end is filled with zeros.
    pub fn write(&mut self, object: u64, offset: u64, added: &[u8]) -> Result<Undo, AllocError>
        requires limit { offset + length added.now ≤ file_limit }
        requires file { (e : Names × Node) × (file : File) × (entry_of self.old object ≡ Some e) × (e.1.content ≡ contents.File file) }
        ensures ok { OnOk result ((e : Names × Node) (file : File) → entry_of self.old object ≡ Some e → e.1.content ≡ contents.File file
            → self.new ≡ map.insert self.old e.0 (file_node object (written file.bytes offset added.now) file.verifier)) }
        ensures spots { OnOk result (OthersStay object self.new self.old) }
        ensures undo { IfOk result (λ undo. TakesBack undo self.new self.old) }
        ensures err { OnErr result (self.new ≡ self.old) }
    {
        edit(&mut self.entries, object, Edit::Write(offset, added))
    }

    /// Cuts a file's bytes, or fills them with zeros, to a size.
    pub fn resize(&mut self, object: u64, size: u64) -> Result<Undo, AllocError>
        requires limit { size ≤ file_limit }
        requires file { (e : Names × Node) × (file : File) × (entry_of self.old object ≡ Some e) × (e.1.content ≡ contents.File file) }
        ensures ok { OnOk result ((e : Names × Node) (file : File) → entry_of self.old object ≡ Some e → e.1.content ≡ contents.File file
            → self.new ≡ map.insert self.old e.0 (file_node object (resized file.bytes size) file.verifier)) }
        ensures spots { OnOk result (OthersStay object self.new self.old) }
        ensures undo { IfOk result (λ undo. TakesBack undo self.new self.old) }
        ensures err { OnErr result (self.new ≡ self.old) }
    {
        edit(&mut self.entries, object, Edit::Resize(size))
    }

    /// Moves an object, with all that lies below it, to a name in a directory. What stood there, with nothing below it, goes.
    pub fn rename(&mut self, object: u64, directory: u64, name: &[u8]) -> Result<Undo, AllocError>
        requires stands { IsSome (entry_of self.old object) }
        requires directory { IsSome (entry_of self.old directory) }
        requires outside { (e f : Names × Node) → entry_of self.old object ≡ Some e → entry_of self.old directory ≡ Some f → is_from (f.0 ++ name.now ∷ []) e.0 ≡ false }
        requires bare { (f : Names × Node) → entry_of self.old directory ≡ Some f → is_bare self.old (f.0 ++ name.now ∷ []) ≡ true }
        requires short { length name.now < 2 ^ 32 }
        ensures ok { OnOk result ((e f : Names × Node) → entry_of self.old object ≡ Some e → entry_of self.old directory ≡ Some f
            → self.new ≡ moved self.old e.0 (f.0 ++ name.now ∷ [])) }
        ensures spots { OnOk result ((other : ℕ) → (other ≡ object → ⊥) → ((node : Node) → node_in self.old directory name.now ≡ Some node → other ≡ node.object → ⊥)
            → spot_of self.new other ≡ spot_of self.old other) }
        ensures undo { IfOk result (λ undo. TakesBack undo self.new self.old) }
        ensures err { OnErr result (self.new ≡ self.old) }
    {
        let moved = rename(&mut self.entries, self.alloc, object, directory, name);
        let least = self.ranks.get(object).saturating_add(1);
        lift(&self.entries, &mut self.ranks, directory, least);
        moved
    }

    /// Takes a change back.
    pub fn undo(&mut self, undo: Undo) -> Result<(), AllocError>
        requires { (before : Tree) × TakesBack undo self.old before }
        ensures ok { OnOk result ((before : Tree) → TakesBack undo self.old before → self.new ≡ before) }
    {
        self.ranks.forget();
        take_back(&mut self.entries, self.alloc, undo.step)
    }

    /// The object of the directory that an object lies in, and its name there.
    fn lies(&self, object: u64) -> Option<(u64, &Bytes)>
        ensures { (e : Names × Node) → entry_of self.now object ≡ Some e → (object ≡ 0 → ⊥) → LiesIn self.now e.0 (option_map {U = ℕ × List ℕ} (λ place. (place.0, place.1.now)) result) }
    {
        place_of(&self.entries, object)
    }

    /// The path of an object.
    fn path(&self, object: u64) -> Result<Path, AllocError>
        requires stands { IsSome (entry_of self.now object) }
        requires numbered { IsNumbered self.now }
        ensures { IfOk result (λ path. (e : Names × Node) → entry_of self.now object ≡ Some e → path ≡ e.0) }
    {
        let alloc = self.alloc;
        let mut names = Vec::new(alloc);
        let mut at = object;
        while at != 0 {
            let Some((directory, name)) = self.lies(at) else {
                unreachable!()
            };
            names.push(Bytes::from_slice(alloc, name.as_slice())?)?;
            at = directory;
        }
        names.reverse();
        Ok(Path::new(names))
    }

    /// The objects by their paths.
    fn paths(&self) -> Result<BTreeMap<Path, u64>, AllocError>
        ensures ordered { IfOk result (λ paths. IsOrdered path_cmp paths) }
        ensures objects { IfOk result (λ paths. (p : Names) → get path_cmp paths p ≡ option_map (λ n. n.object) (map.get self.now p)) }
    {
        let mut paths = BTreeMap::new(self.alloc);
        for (object, _) in self.entries.iter() {
            let path = self.path(object)?;
            let Ok(_) = paths.insert(path, object) else {
                return Err(AllocError);
            };
        }
        Ok(paths)
    }

    /// The nodes in the order of their paths.
    fn put_entries(&self, out: &mut Vec<u8>, paths: &BTreeMap<Path, u64>) -> Result<(), AllocError>
        requires paths { paths.now.entries ≡ paths_of (map.entries self.now) }
        requires sound { IsSound self.now }
        requires numbered { IsNumbered self.now }
        ensures ok { OnOk result (out.new.items ≡ out.old.items ++ flat_map entry_text (map.entries self.now)) }
        ensures fits { OnOk result (All EntryFits (map.entries self.now)) }
    {
        for (path, object) in paths.iter() {
            let Some(node) = self.node(*object) else {
                unreachable!()
            };
            put_entry(out, path, node)?;
        }
        Ok(())
    }

    /// The nodes by path, in the items of XDR (RFC 4506).
    #[tactic(auto, unfolding(crate::specs::Printed::tree_text))]
    pub fn put_tree(&self, out: &mut Vec<u8>) -> Result<(), AllocError>
        ensures ok { OnOk result (out.new.items ≡ out.old.items ++ tree_text self.now) }
        ensures fits { OnOk result (IsPrintable self.now) }
    {
        let paths = self.paths()?;
        put_word(out, self.count() as u32)?;
        self.put_entries(out, &paths)
    }
}
