//! Starting objects where their names and bytes lie: in a file, or in a start.

ghost use Rattle.std.specs.Prelude.{◌≡◌, ◌≤◌, [], length};
ghost use Rattle.tree_starts.specs.Seen.{all_seen};
ghost use Rattle.tree_starts.specs.Start.{IsStart, start_limit};

use std::alloc::Global;
use std::marker::Model;

/// What an object is, with its bytes where they lie.
#[derive(Clone, Copy)]
pub enum SeenNode<'a> {
    /// A regular file with these bytes.
    File(&'a [u8]),
    /// A directory.
    Directory,
    /// A symbolic link with this text.
    Link(&'a [u8]),
}

/// An object that stood at first, with its name and bytes where they lie.
#[derive(Clone, Copy)]
pub struct SeenObject<'a> {
    /// The number of the directory that it lies in.
    pub parent: u64,
    /// Its name there.
    pub name: &'a [u8],
    /// What it is.
    pub node: SeenNode<'a>,
}

/// What a server held at first, where it lies. Contracts see it as the list of its objects, which is a start.
#[derive(Drop)]
pub struct SeenStart<'a> {
    seen: Vec<SeenObject<'a>>,
}

impl<'a> Model for SeenStart<'a> {
    ghost use Rattle.std.specs.Prelude.{List};
    ghost use Rattle.tree_starts.specs.Seen.{all_seen};
    ghost use Rattle.tree_starts.specs.Start.{IsStart};
    ghost use Rattle.tree_starts.specs.declared.object.StartObject.{StartObject};

    ghost Value = { List StartObject };

    ghost view = { λ s. all_seen s.seen.items };

    ghost invariant = { λ s. IsStart (all_seen s.seen.items) };
}

impl<'a> SeenStart<'a> {
    /// That of a server which held nothing.
    #[tactic(auto, unfolding(crate::specs::Start::fault_from))]
    pub fn empty(alloc: Global) -> SeenStart<'a>
        ensures { result ≡ [] }
    {
        SeenStart {
            seen: Vec::new(alloc),
        }
    }

    /// These objects.
    pub fn of_objects(seen: Vec<SeenObject<'a>>) -> SeenStart<'a>
        requires { IsStart (all_seen seen.items) }
        ensures { result ≡ all_seen seen.entry.items }
    {
        SeenStart { seen }
    }

    /// The objects, in the order of their numbers.
    pub fn objects(&self) -> &[SeenObject<'a>]
        ensures value { all_seen result.now ≡ self.now }
        ensures start { IsStart self.now }
        ensures few { length self.now ≤ start_limit }
    {
        self.seen.as_slice()
    }

    /// How many there are.
    pub fn count(&self) -> usize
        ensures value { result ≡ length self.now }
        ensures few { length self.now ≤ start_limit }
    {
        self.seen.len()
    }
}
