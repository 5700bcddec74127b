//! What a client believes of an object that it knows.

use call_making::{Base, Realm};
use nfs3_types::{FILE_LIMIT, FileAttributes, FileType, Time};

/// How many looks at an object are worth a call after each change: its bytes, and its attributes.
const LOOKS: u32 = 2;

/// What kind of object it is.
#[derive(Clone, Copy, PartialEq, Eq)]
pub enum Kind {
    /// A directory.
    Directory,
    /// A regular file.
    File,
    /// A symbolic link.
    Link,
    /// Not told yet, or another.
    Unknown,
}

impl Kind {
    /// The kind that attributes tell.
    fn of(file_type: FileType) -> Kind {
        match file_type {
            FileType::Regular => Kind::File,
            FileType::Directory => Kind::Directory,
            FileType::SymbolicLink => Kind::Link,
            _ => Kind::Unknown,
        }
    }
}

/// What a client still has to look at, after a crash or where a reply told too little.
#[derive(Clone, Copy, PartialEq, Eq)]
pub enum Debt {
    /// Nothing.
    Paid,
    /// Its name has to be looked up, and then the object looked at.
    Name,
    /// Its name is being looked up.
    Asked,
    /// The object has to be looked at: its bytes, its text or its list.
    Object,
}

/// The bytes that a WRITE put into a file.
#[derive(Clone, Copy)]
pub struct Written {
    /// The first byte, counted from 0.
    pub offset: u64,
    /// How many.
    pub count: u32,
}

/// What a client believes of an object.
#[derive(Clone, Copy)]
pub struct Facts {
    pub kind: Kind,
    /// Where it is.
    pub realm: Realm,
    /// The directory in the root that it is, where it is one.
    pub base: Option<Base>,
    /// The client may change it: it has one of the client's own names, or one that is used by all.
    pub is_own: bool,
    /// Bytes, at most 16,777,216.
    pub size: u64,
    /// The `ctime` that was told last.
    pub changed: Option<Time>,
    /// What was written last.
    pub written: Option<Written>,
    /// What has to be looked at.
    pub debt: Debt,
    /// It was known before the last crash, and hasn't been looked at behind it.
    pub is_unread: bool,
    /// How many looks at it are worth a call, since it changed.
    pub looks: u32,
}

impl Facts {
    /// Those of an object of which only its place is known.
    pub(crate) fn new(kind: Kind, realm: Realm, base: Option<Base>, is_own: bool) -> Facts {
        Facts {
            kind,
            realm,
            base,
            is_own,
            size: 0,
            changed: None,
            written: None,
            debt: Debt::Paid,
            is_unread: false,
            looks: 0,
        }
    }

    /// Takes in attributes.
    pub(crate) fn take_attributes(&mut self, attributes: &FileAttributes) {
        self.kind = Kind::of(attributes.file_type);
        self.size = attributes.size.min(FILE_LIMIT);
        self.changed = Some(attributes.change_time);
    }

    /// Takes in a size, in bytes.
    pub(crate) fn take_size(&mut self, size: u64) {
        self.size = size.min(FILE_LIMIT);
    }

    /// Takes in attributes, or that none were told: then the object has to be looked at.
    pub(crate) fn take_told(&mut self, attributes: Option<&FileAttributes>) {
        match attributes {
            Some(attributes) => self.take_attributes(attributes),
            None => self.debt = Debt::Object,
        }
    }

    /// It changed, or it may have.
    pub(crate) fn deserve_looks(&mut self) {
        self.looks = LOOKS;
    }

    /// One of the looks is asked for.
    pub(crate) fn take_look(&mut self) {
        self.looks = self.looks.saturating_sub(1);
    }

    /// Takes in what a new reply told of an object that was known before.
    pub(crate) fn take(&mut self, told: Facts) {
        self.realm = told.realm;
        self.base = told.base;
        self.is_own = told.is_own;
        self.looks = self.looks.max(told.looks);
        if told.kind != Kind::Unknown {
            self.kind = told.kind;
            self.size = told.size;
            self.changed = told.changed;
        }
    }
}
