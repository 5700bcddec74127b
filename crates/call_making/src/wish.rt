//! What a client is going to ask, before it is a call.

use crate::labels::Label;
use nfs3_types::{CreateMode, FileHandle, SetAttributes, StableHow, Time, Verifier};

/// A name: one of the few that a client asks by, or one that a call or a reply had.
#[derive(Clone, Copy)]
pub enum Called<'k> {
    Label(Label),
    Bytes(&'k [u8]),
}

/// A name in a directory.
#[derive(Clone, Copy)]
pub struct Place<'k> {
    pub directory: &'k FileHandle,
    pub name: Called<'k>,
}

/// A range of a file's bytes.
#[derive(Clone, Copy)]
pub struct Range {
    /// The first byte, counted from 0.
    pub offset: u64,
    /// How many.
    pub count: u32,
}

/// A list, or a page of one.
#[derive(Clone, Copy)]
pub struct Listing<'k> {
    pub directory: &'k FileHandle,
    /// READDIRPLUS, not READDIR.
    pub plus: bool,
    /// That of the last entry of the page before; 0 begins a list.
    pub cookie: u64,
    /// The one that came with the cookie.
    pub verifier: Verifier,
    /// The most bytes of the answer; of READDIRPLUS those of names and cookies, and a quarter of the answer's.
    pub count: u32,
}

/// What a client asks.
#[derive(Clone, Copy)]
pub enum Wish<'k> {
    GetAttr(&'k FileHandle),
    SetAttr(&'k FileHandle, SetAttributes, Option<Time>),
    LookUp(Place<'k>),
    ReadLink(&'k FileHandle),
    Read(&'k FileHandle, Range),
    Write(&'k FileHandle, Range, StableHow),
    Create(Place<'k>, CreateMode),
    MkDir(Place<'k>),
    /// With one of a few texts.
    SymLink(Place<'k>, u32),
    Remove(Place<'k>),
    RmDir(Place<'k>),
    Rename(Place<'k>, Place<'k>),
    List(Listing<'k>),
    Commit(&'k FileHandle, Range),
}
