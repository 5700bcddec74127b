//! Where the exchanges of an object are.

ghost use Rattle.std.specs.Prelude.{◌≡◌, IfSome};
ghost use Rattle.nfs3_types.specs.Numbers.{type_number};
ghost use Rattle.walk_accounts.specs.Exchanges.{kind_number};

use nfs3_types::{FileHandle, FileType, Name};

/// What an object of a start can be.
#[derive(Clone, Copy, PartialEq, Eq)]
pub enum Kind {
    /// A regular file.
    File,
    /// A directory.
    Directory,
    /// A symbolic link.
    Link,
}

impl Kind {
    /// The number of its type in `ftype3`.
    pub(crate) fn number(self) -> u32
        ensures { result ≡ kind_number self }
    {
        match self {
            Kind::File => 1,
            Kind::Directory => 2,
            Kind::Link => 5,
        }
    }

    /// The kind of a type that a start can have.
    pub fn of(file_type: FileType) -> Option<Kind>
        ensures { IfSome result (λ kind. kind_number kind ≡ type_number file_type) }
    {
        match file_type {
            FileType::Regular => Some(Kind::File),
            FileType::Directory => Some(Kind::Directory),
            FileType::SymbolicLink => Some(Kind::Link),
            _ => None,
        }
    }
}

/// The exchanges from one to another, which isn't among them.
#[derive(Clone, Copy)]
pub struct Part {
    /// The number of the first.
    pub from: usize,
    /// The number after the last.
    pub to: usize,
}

/// An object that was found, and which exchanges tell of it. Account 0 is the root's.
pub struct Account {
    /// The number of the account of the directory that it lies in; of the root 0.
    pub parent: u64,
    /// Its name there; of the root empty.
    pub name: Name,
    /// Its handle.
    pub handle: FileHandle,
    /// What it is.
    pub kind: Kind,
    /// Its size, as the attributes tell.
    pub size: u64,
    /// The exchange that gave its handle.
    pub named_by: usize,
    /// The entry of it that did, where it is a READDIRPLUS.
    pub entry: usize,
    /// The GETATTR that told its kind and size at the end.
    pub told_by: usize,
    /// Those that show it: a file's READs, a directory's lists, a link's READLINK.
    pub part: Part,
}

impl Drop for Account {
    fn drop(self) {
        let Account {
            parent: _,
            name,
            handle,
            kind: _,
            size: _,
            named_by: _,
            entry: _,
            told_by: _,
            part: _,
        } = self;
        drop(name);
        drop(handle);
    }
}
