//! What a client keeps to ask on by: a list that wasn't at its end, and an exclusive CREATE.

use nfs3_types::{FileHandle, Name, Verifier};

/// The next page of a list.
#[derive(Drop)]
pub struct Page {
    pub directory: FileHandle,
    /// READDIRPLUS, not READDIR.
    pub plus: bool,
    /// That of the last entry; 0 begins a list.
    pub cookie: u64,
    /// The one that came with the cookie.
    pub verifier: Verifier,
}

/// An exclusive CREATE.
#[derive(Drop)]
pub struct Exclusive {
    pub directory: FileHandle,
    pub name: Name,
    pub verifier: Verifier,
}
