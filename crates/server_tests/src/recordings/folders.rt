//! Folders under /tmp, as starts.

mod odd;
mod trees;

use crate::recordings::mending::{bytes_of, put_words};
use folder_start::{FolderFault, Limits, folder_start, start_within};
use history_file::WriteFault;
use history_mending::part_head_from;
use odd::Odd;
use std::alloc::Global;
use std::net::Net;
use std::rt::Files;
use std::test::Fail;
use std::{fs, io};
use tree_starts::{Profile, Start};
use trees::{Item, joined, make_folder, put};

/// A folder with a file in a directory in a directory, an empty file, a hole, and a link to nothing; and a link to it.
const TREE: &[(&str, Item)] = &[
    ("tree/a/b", Item::Directory),
    ("tree/a/b/f", Item::File(b"hello")),
    ("tree/e", Item::File(b"")),
    ("tree/h", Item::Hole(5000)),
    ("tree/l", Item::Link("a/nowhere")),
    ("link", Item::Link("tree")),
];

/// The head of a history of version 2 that begins with its objects, as docs/FORMATS.md lays it out: up to the hole's 5,000 zeros, and after them.
const BEFORE_ZEROS: &[u32] = &[
    0x4e465348, 0x49535432, 4, 0x01020304, 0, 6, 0, 0, 1, 0x61000000, 2, 0, 0, 1, 0x65000000, 1, 0,
    0, 0, 1, 0x68000000, 1, 5000,
];

const AFTER_ZEROS: &[u32] = &[
    0, 0, 1, 0x6c000000, 5, 9, 0x612f6e6f, 0x77686572, 0x65000000, 0, 1, 1, 0x62000000, 2, 0, 5, 1,
    0x66000000, 1, 5, 0x68656c6c, 0x6f000000, 0,
];

/// How many bytes the objects take in it.
const TREE_BYTES: u64 = 6 * 20 + 4 + 5004 + 16 + 12;

/// A file with one name, and one with two.
const ONE_NAME: &[(&str, Item)] = &[("a", Item::File(b"a"))];

const TWO_NAMES: &[(&str, Item)] = &[("a\n\\", Item::File(b"a")), ("b", Item::Name("a\n\\"))];

/// What comes of a folder.
#[derive(Clone, Copy)]
enum Came {
    /// The objects of `TREE`.
    Tree,
    /// So many objects.
    Count(usize),
    /// A refusal: these words after the folder's path.
    Refused(&'static str),
}

/// What is put into a folder, which path in it is read, and what comes of it.
type Case = (&'static [(&'static str, Item)], &'static str, Came);

const CASES: [Case; 11] = [
    (TREE, "tree", Came::Tree),
    (TREE, "link", Came::Tree),
    (&[], "", Came::Count(0)),
    (&[("", Item::Nested(300))], "", Came::Count(300)),
    (
        &[],
        "a",
        Came::Refused(": isn't there: say a folder that is"),
    ),
    (ONE_NAME, "a", Came::Refused(": is no directory: say one")),
    (ONE_NAME, "a/b", Came::Refused(": is no directory: say one")),
    (
        TWO_NAMES,
        "",
        Came::Refused("/a\\x0a\\x5c: has 2 names (hard links): give the folder one name for each"),
    ),
    (
        &[("s", Item::Socket)],
        "",
        Came::Refused("/s: is a socket, which no start can hold: remove it from the folder"),
    ),
    (
        &[("f", Item::Hole(16_777_217))],
        "",
        Came::Refused(
            "/f: has 16777217 bytes, over the 16777216 of a start: remove it from the folder",
        ),
    ),
    (&[("f", Item::Hole(16_777_216))], "", Came::Count(1)),
];

/// How many objects and how many bytes there may be, and what comes of the tree.
const LIMITS: [(usize, u64, Came); 3] = [
    (6, TREE_BYTES, Came::Tree),
    (
        5,
        TREE_BYTES,
        Came::Refused(
            "/a/b: with this directory there are over 1000000 objects: say a folder with fewer",
        ),
    ),
    (
        6,
        TREE_BYTES - 1,
        Came::Refused(
            "/a/b/f: with it the objects take over 268435456 bytes of a history file: say a smaller folder",
        ),
    ),
];

/// Whether a start is that of `TREE`.
fn is_tree(alloc: Global, start: &Start) -> Result<bool, WriteFault> {
    let mut wanted = bytes_of(alloc, BEFORE_ZEROS, &[])?;
    let length = wanted.len().saturating_add(5000);
    wanted.resize(length, 0)?;
    put_words(&mut wanted, AFTER_ZEROS)?;
    let head = part_head_from(alloc, &[1, 2, 3, 4], Profile::Plain, start)?;
    Ok(head.as_slice() == wanted.as_slice())
}

/// Whether a refusal is said in these words after a folder's path.
fn says(alloc: Global, fault: &FolderFault, path: &str, words: &str) -> bool {
    match format!(in alloc; "{fault}") {
        Ok(said) => said.as_str().strip_prefix(path) == Some(words),
        Err(_) => false,
    }
}

/// Whether this comes of a folder, where there may be as much as in a file, or so much.
fn gives<R: Files + AllocGlobal>(rt: &R, path: &str, limits: Option<Limits>, want: Came) -> bool {
    let found = match limits {
        Some(limits) => start_within(rt, path, limits),
        None => folder_start(rt, path),
    };
    match found {
        Ok(start) => match want {
            Came::Tree => is_tree(rt.alloc(), &start) == Ok(true),
            Came::Count(count) => start.objects().len() == count,
            Came::Refused(_) => false,
        },
        Err(fault) => match want {
            Came::Refused(words) => says(rt.alloc(), &fault, path, words),
            _ => false,
        },
    }
}

/// Whether this comes of a path in a folder, once these are put into it.
fn gives_with<R: Files + Net + AllocGlobal>(
    rt: &R,
    folder: &str,
    (items, name, want): Case,
    limits: Option<Limits>,
) -> io::Result<bool> {
    for (name, item) in items {
        put(rt, folder, name, *item)?;
    }
    let path = joined(rt, folder, name)?;
    Ok(gives(rt, path.as_str(), limits, want))
}

/// The same of a folder that is made, and removed.
fn comes<R: Files + Net + AllocGlobal>(
    rt: &R,
    case: Case,
    limits: Option<Limits>,
) -> io::Result<bool> {
    let folder = make_folder(rt)?;
    let right = gives_with(rt, folder.as_str(), case, limits);
    fs::remove_dir_all(rt, folder.as_str())?;
    right
}

#[test]
fn a_folder_is_found_or_refused(rt: HostRuntime) -> Result<(), Fail> {
    for case in CASES {
        assert!(rt; comes(&rt, case, None)?);
    }
    for (objects, bytes, want) in LIMITS {
        let limits = Limits { objects, bytes };
        assert!(rt; comes(&rt, (TREE, "tree", want), Some(limits))?);
    }
    Ok(())
}

/// Names that a runtime says are in a folder, and the words in which it is refused.
const ODD_NAMES: [(&[u8], &str); 7] = [
    (
        b"..\0gone\0",
        "/gone: went while the folder was read: let nothing else use the folder, and run again",
    ),
    (
        b"denied\0",
        "/denied: permission denied: run as a user who may read it, or as root",
    ),
    (
        b"grows\0",
        "/grows: changed while it was read: let nothing else use the folder, and run again",
    ),
    (
        b"long\0",
        "/long: the path is too long for the system: run in the folder, and say `.`",
    ),
    (
        b"broken\0",
        "/broken: can't be read, Input/output error (os error 5): look at the disk and the system's log",
    ),
    (
        b"\xff\n\0",
        "/\\xff\\x0a: has a name that isn't UTF-8: rename it",
    ),
    (
        b"b\0a\0b\0",
        ": the objects are no start (BadStart 3): let nothing else use the folder, and run again",
    ),
];

/// Whether a folder with these names, as the runtime says, is refused in these words.
fn refuses_odd<R: Files + AllocGlobal>(
    rt: &R,
    path: &str,
    names: &'static [u8],
    words: &'static str,
) -> bool {
    let odd = Odd { under: rt, names };
    gives(&odd, path, None, Came::Refused(words))
}

#[test]
fn what_a_system_says_is_refused(rt: HostRuntime) -> Result<(), Fail> {
    let folder = make_folder(&rt)?;
    put(&rt, folder.as_str(), "grows", Item::File(b"hello"))?;
    for (names, words) in ODD_NAMES {
        assert!(rt; refuses_odd(&rt, folder.as_str(), names, words), "{words}");
    }
    fs::remove_dir_all(&rt, folder.as_str())?;
    Ok(())
}
