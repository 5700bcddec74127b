//! What the server holds at first, and the habits and faults by which it answers.

use nfs3_types::{Failure, Procedure};

/// What an object is.
#[derive(Clone, Copy, PartialEq, Eq)]
pub(crate) enum What {
    /// A file of so many bytes.
    File(u64),
    Directory,
    /// A link with this text.
    Link(&'static [u8]),
}

/// An object of a table: the number of its directory, its name, and what it is. The root is object 0; those of a table have the numbers from 1 on.
pub(crate) type Object = (u32, &'static [u8], What);

/// A tree in the order in which a walk finds it.
pub(crate) const TREE: &[Object] = &[
    (0, b"empty", What::File(0)),
    (0, b"docs", What::Directory),
    (0, b"a b\xff\\", What::File(7)),
    (0, b"link", What::Link(b"../docs/one\x00")),
    (0, b"deep", What::Directory),
    (0, b"...", What::File(20)),
    (2, b"one", What::File(14)),
    (2, b"empty", What::Directory),
    (5, b"deeper", What::Directory),
    (9, b"deeper", What::Directory),
    (10, b"deeper", What::Directory),
    (11, b"deepest", What::File(100)),
    (11, b"..a", What::Link(b"")),
    (11, b"one", What::File(1)),
];

/// One object of each kind.
pub(crate) const FLAT: &[Object] = &[
    (0, b"a", What::File(20)),
    (0, b"b", What::Directory),
    (2, b"c/\n", What::Link(b"text")),
];

/// Two directories, and a file in one of them.
pub(crate) const SMALL: &[Object] = &[
    (0, b"a", What::Directory),
    (0, b"b", What::Directory),
    (1, b"f", What::File(5)),
];

/// How a server answers.
#[derive(Clone, Copy)]
pub(crate) struct Habits {
    /// READDIRPLUS gives handles.
    pub(crate) lists_handles: bool,
    /// READDIRPLUS gives attributes.
    pub(crate) lists_attributes: bool,
    /// LOOKUP gives attributes.
    pub(crate) finds_attributes: bool,
    /// What makes an object gives its handle.
    pub(crate) gives_made: bool,
    /// The most entries of a page.
    pub(crate) page: u64,
    /// The end of a file is told only if a READ asks for bytes after it.
    pub(crate) tells_late: bool,
    /// The most bytes that a READ gives.
    pub(crate) piece: u64,
    pub(crate) fault: Fault,
}

/// The habits of a common server.
pub(crate) const COMMON: Habits = Habits {
    lists_handles: true,
    lists_attributes: true,
    finds_attributes: true,
    gives_made: true,
    page: 1_000,
    tells_late: false,
    piece: 1 << 20,
    fault: Fault::None,
};

/// Places in an object's attributes, in words (RFC 1813, section 2.6, `fattr3`).
pub(crate) const TYPE: usize = 0;

pub(crate) const LINKS: usize = 2;

pub(crate) const SIZE: usize = 6;

pub(crate) const FILE_SYSTEM: usize = 12;

pub(crate) const NUMBER: usize = 14;

pub(crate) const MODIFIED: usize = 18;

pub(crate) const CHANGED: usize = 20;

/// What a server does wrong. Objects are named by their numbers.
#[derive(Clone, Copy, PartialEq, Eq)]
pub(crate) enum Fault {
    None,
    /// It fails all calls of a procedure.
    Fails(Procedure, Failure),
    /// It answers all calls of a procedure with a failure of another one.
    Answers(Procedure),
    /// In an object's attributes the word at this place is this.
    Tells(u32, usize, u32),
    /// The same, once the root's attributes were asked before.
    TellsLater(u32, usize, u32),
    /// An object has the handle of another.
    SameHandle(u32, u32),
    /// LOOKUP gives another handle than READDIRPLUS.
    Rehandled(u32),
    /// Lists give this name too.
    Lists(&'static [u8]),
    /// A list gives a name of so many bytes.
    ListsLong(usize),
    /// A list stops without an end.
    EmptyPages,
    /// READs give no byte.
    NoBytes,
    /// READs give so many bytes more than they were asked for.
    TooMany(u64),
    /// READs tell another count.
    WrongCount,
}
