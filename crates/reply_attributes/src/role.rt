//! Whose attributes a reply carries.

/// An object that a reply may tell of.
#[derive(Clone, Copy)]
pub enum Role {
    /// The object of the call's first handle; of a procedure with a name that is the directory.
    First,
    /// The second directory of a RENAME.
    Second,
    /// What a LOOKUP found, and the object of a CREATE, a MKDIR or a SYMLINK.
    Answer,
    /// The object of an entry of a READDIRPLUS, from 0.
    Entry(usize),
}
