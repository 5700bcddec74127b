//! What a history begins with, owned or lent.

ghost use Rattle.std.specs.Prelude.{◌≡◌, IfOk};

use history_file::tree_starts::{Profile, SeenStart, Start};
use nfs3_types::FileHandle;
use std::alloc::{AllocError, Global};
use std::marker::Model;

/// What a history begins with: the handle of its root directory, what the server held, and how strictly its replies are judged.
pub struct OwnedHead {
    root: FileHandle,
    start: Start,
    profile: Profile,
}

impl Drop for OwnedHead {
    fn drop(self) {
        let OwnedHead {
            root,
            start,
            profile: _,
        } = self;
        drop(root);
        drop(start);
    }
}

impl Model for OwnedHead {
    ghost use Rattle.history_file.specs.tree_starts_specs.Head.{Head};

    ghost Value = { Head };

    ghost view = { λ h. record { root = h.root; start = h.start; profile = h.profile } };
}

impl OwnedHead {
    /// That of these.
    pub fn new(root: FileHandle, start: Start, profile: Profile) -> OwnedHead
        ensures { result ≡ record { root = root; start = start; profile = profile } }
    {
        OwnedHead {
            root,
            start,
            profile,
        }
    }

    /// The handle of the root directory.
    pub fn root(&self) -> &FileHandle
        ensures { result.now ≡ self.now.root }
    {
        &self.root
    }

    /// What the server held at first.
    pub fn start(&self) -> &Start
        ensures { result.now ≡ self.now.start }
    {
        &self.start
    }

    /// How strictly the replies are judged.
    pub fn profile(&self) -> Profile
        ensures { result ≡ self.now.profile }
    {
        self.profile
    }

    /// The same, with the start lent.
    pub fn lend(&self, alloc: Global) -> Result<LentHead<'_>, AllocError>
        ensures { IfOk result (λ head. head ≡ self.now) }
    {
        let root = self.root.clone()?;
        let start = self.start.lend(alloc)?;
        Ok(LentHead {
            root,
            start,
            profile: self.profile,
        })
    }
}

/// The same, with the start where it lies.
pub struct LentHead<'a> {
    root: FileHandle,
    start: SeenStart<'a>,
    profile: Profile,
}

impl<'a> Drop for LentHead<'a> {
    fn drop(self) {
        let LentHead {
            root,
            start,
            profile: _,
        } = self;
        drop(root);
        drop(start);
    }
}

impl<'a> Model for LentHead<'a> {
    ghost use Rattle.history_file.specs.tree_starts_specs.Head.{Head};

    ghost Value = { Head };

    ghost view = { λ h. record { root = h.root; start = h.start; profile = h.profile } };
}

impl<'a> LentHead<'a> {
    /// That of these.
    pub fn new(root: FileHandle, start: SeenStart<'a>, profile: Profile) -> LentHead<'a>
        ensures { result ≡ record { root = root; start = start.entry; profile = profile } }
    {
        LentHead {
            root,
            start,
            profile,
        }
    }

    /// The handle of the root directory.
    pub fn root(&self) -> &FileHandle
        ensures { result.now ≡ self.now.root }
    {
        &self.root
    }

    /// What the server held at first.
    pub fn start(&self) -> &SeenStart<'a>
        ensures { result.now ≡ self.now.start }
    {
        &self.start
    }

    /// How strictly the replies are judged.
    pub fn profile(&self) -> Profile
        ensures { result ≡ self.now.profile }
    {
        self.profile
    }
}
