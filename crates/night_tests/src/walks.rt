//! The walk of an export: what it finds, and why an export is refused.

mod exports;

use crate::server::Fault::{
    Answers, EmptyPages, Fails, Lists, ListsLong, NoBytes, Rehandled, SameHandle, Tells,
    TellsLater, TooMany, WrongCount,
};
use crate::server::{
    CHANGED, COMMON, FILE_SYSTEM, FLAT, Fault, Habits, LINKS, MODIFIED, NUMBER, Object, SIZE, TREE,
    TYPE, Tree, What, byte_at, handle_of,
};
use history_file::tree_starts::{START_LIMIT, Start, StartNode, StartObject};
use nfs3_types::Failure::{Access, InputOutput, Jukebox, NotSupported, Stale};
use nfs3_types::FileType::{BlockDevice, CharacterDevice, Fifo, Socket};
use nfs3_types::NfsCall;
use nfs3_types::Procedure::{GetAttr, Read, ReadDirPlus, ReadLink};
use night_start::Change::{ChangeTime, FileId, Handle, Kind, ModifyTime, Size};
use night_start::{Cause, Settings, Walk, WalkFault};
use std::alloc::{AllocError, Global};
use std::test::Fail;

const SETTINGS: Settings = Settings {
    piece: 7,
    page: 100_000,
    is_empty: false,
    objects: START_LIMIT,
};

/// More calls than a walk makes.
const ALL: u32 = 10_000;

/// Walks an export, and hands so many calls back with their replies. The offsets of READs are changed by this before.
fn walk(tree: &mut Tree, settings: Settings, few: u32, change: u64) -> Result<Start, WalkFault> {
    let mut walk = Walk::new(tree.alloc, handle_of(tree.alloc, 0)?, settings)?;
    for step in 0..ALL {
        let Some(mut call) = walk.next()? else {
            break;
        };
        if step == few {
            break;
        }
        let reply = tree.reply(&call)?;
        if let NfsCall::Read(asked) = &mut call {
            asked.offset ^= change;
        }
        walk.learn(call, reply)?;
    }
    walk.finish()
}

/// Walks an export to its end.
fn start_at(tree: &mut Tree, settings: Settings) -> Result<Start, WalkFault> {
    walk(tree, settings, ALL, 0)
}

/// Whether these are the bytes of a file.
fn is_file(number: u32, bytes: &[u8], what: What) -> bool {
    let mut offset = 0u64;
    for byte in bytes {
        if *byte != byte_at(number, offset) {
            return false;
        }
        offset = offset.saturating_add(1);
    }
    what == What::File(offset)
}

/// Whether an object of a start is that of a table.
fn is_same(number: u32, found: &StartObject, object: &Object) -> bool {
    let (parent, name, what) = *object;
    if found.parent != u64::from(parent) || found.name.as_slice() != name {
        return false;
    }
    match &found.node {
        StartNode::File(bytes) => is_file(number, bytes.as_slice(), what),
        StartNode::Directory => what == What::Directory,
        StartNode::Link(text) => match what {
            What::Link(target) => text.as_slice() == target,
            What::File(_) | What::Directory => false,
        },
    }
}

/// Whether a start has the objects of a table.
fn is_tree(start: &Start, objects: &[Object]) -> bool {
    let mut number = 0u32;
    for (found, object) in start.objects().iter().zip(objects.iter()) {
        number = number.saturating_add(1);
        if !is_same(number, found, object) {
            return false;
        }
    }
    start.objects().len() == objects.len()
}

/// Whether a walk finds the objects of the table.
fn finds_all(alloc: Global, habits: Habits, settings: Settings) -> Result<bool, WalkFault> {
    let mut tree = Tree::new(alloc, TREE, habits)?;
    let start = start_at(&mut tree, settings)?;
    Ok(is_tree(&start, TREE))
}

/// Whether LOOKUP gives attributes, the most entries of a page, the most bytes of a READ, and whether the end of a file is told late.
const HABITS: [(bool, u64, u64, bool); 3] = [
    (true, 1, 1_000, false),
    (false, 3, 5, true),
    (true, 100, 1_000, true),
];

/// The server has no READDIRPLUS.
const NO_PLUS: Fault = Fails(ReadDirPlus, NotSupported);

/// Whether READDIRPLUS gives handles, and attributes, and what is wrong.
const LISTS: [(bool, bool, Fault); 5] = [
    (true, true, Fault::None),
    (true, false, Fault::None),
    (false, true, Fault::None),
    (false, false, Fault::None),
    (false, false, NO_PLUS),
];

#[test]
fn trees_are_found(rt: HostRuntime) -> Result<(), Fail> {
    let alloc = rt.alloc();
    for (lists_handles, lists_attributes, fault) in LISTS {
        for (finds_attributes, page, piece, tells_late) in HABITS {
            let habits = Habits {
                lists_handles,
                lists_attributes,
                finds_attributes,
                gives_made: true,
                page,
                tells_late,
                piece,
                fault,
            };
            assert!(rt; finds_all(alloc, habits, SETTINGS)?);
        }
    }
    let habits = Habits {
        page: 4,
        piece: 1_000,
        ..COMMON
    };
    assert!(rt; finds_all(alloc, habits, Settings::COMMON)?);
    Ok(())
}

/// A server with a fault and these objects.
fn faulty(alloc: Global, objects: &[Object], fault: Fault, page: u64) -> Result<Tree, AllocError> {
    let habits = Habits {
        lists_attributes: !matches!(fault, Rehandled(_)),
        page,
        fault,
        ..COMMON
    };
    Tree::new(alloc, objects, habits)
}

/// Whether a server with a fault is refused for this cause at this path.
fn is_refused(alloc: Global, fault: Fault, cause: Cause, path: &str) -> Result<bool, AllocError> {
    let mut tree = faulty(alloc, FLAT, fault, 3)?;
    match start_at(&mut tree, SETTINGS) {
        Ok(_) => Ok(false),
        Err(WalkFault::Refused(refusal)) => {
            Ok(refusal.cause == cause && refusal.path.as_str() == path)
        }
        Err(WalkFault::NoMemory) => Err(AllocError),
    }
}

/// The path of the link.
const LINK: &str = "/b/c\\x2f\\x0a";

/// What a server does wrong, why it is refused, and at which path.
const REFUSED: [(Fault, Cause, &str); 36] = [
    (Tells(1, LINKS, 3), Cause::Linked(3), "/a"),
    (Tells(3, LINKS, 3), Cause::Linked(3), LINK),
    (Tells(2, FILE_SYSTEM, 2), Cause::OtherFileSystem, "/b"),
    (Tells(2, NUMBER, 1), Cause::TwoNames, "/b"),
    (Tells(2, NUMBER, 0), Cause::TwoNames, "/b"),
    (SameHandle(3, 1), Cause::TwoNames, LINK),
    (
        Tells(1, SIZE, 16_777_217),
        Cause::FileTooLarge(16_777_217),
        "/a",
    ),
    (Tells(3, SIZE, 1_048_577), Cause::TextTooLong, LINK),
    (Tells(1, SIZE, 19), Cause::Changed(Size), "/a"),
    (Tells(1, SIZE, 21), Cause::Changed(Size), "/a"),
    (TellsLater(3, SIZE, 3), Cause::Changed(Size), LINK),
    (TellsLater(0, SIZE, 3), Cause::Changed(Size), "/"),
    (TellsLater(0, MODIFIED, 1), Cause::Changed(ModifyTime), "/"),
    (TellsLater(2, CHANGED, 1), Cause::Changed(ChangeTime), "/b"),
    (TellsLater(1, NUMBER, 9), Cause::Changed(FileId), "/a"),
    (TellsLater(1, TYPE, 7), Cause::Changed(Kind), "/a"),
    (Rehandled(2), Cause::Changed(Handle), "/b"),
    (Lists(b"a"), Cause::ListedTwice, "/a"),
    (Lists(b"."), Cause::ListedTwice, "/."),
    (Lists(b""), Cause::NoName, "/"),
    (ListsLong(1_048_577), Cause::NameTooLong, "/"),
    (EmptyPages, Cause::EmptyPage, "/"),
    (NoBytes, Cause::NoBytes, "/a"),
    (TooMany(1), Cause::TooManyBytes, "/a"),
    (WrongCount, Cause::WrongCount, "/a"),
    (Answers(GetAttr), Cause::WrongReply, "/"),
    (Answers(Read), Cause::WrongReply, "/a"),
    (Fails(GetAttr, Access), Cause::Failed(Access, GetAttr), "/"),
    (
        Fails(ReadDirPlus, Jukebox),
        Cause::Failed(Jukebox, ReadDirPlus),
        "/",
    ),
    (
        Fails(Read, InputOutput),
        Cause::Failed(InputOutput, Read),
        "/a",
    ),
    (Fails(ReadLink, Stale), Cause::Failed(Stale, ReadLink), LINK),
    (Tells(1, TYPE, 6), Cause::Special(Socket), "/a"),
    (Tells(1, TYPE, 7), Cause::Special(Fifo), "/a"),
    (Tells(1, TYPE, 3), Cause::Special(BlockDevice), "/a"),
    (Tells(1, TYPE, 4), Cause::Special(CharacterDevice), "/a"),
    (Tells(0, TYPE, 1), Cause::NoDirectory, "/"),
];

#[test]
fn faults_are_refused(rt: HostRuntime) -> Result<(), Fail> {
    for (index, (fault, cause, path)) in REFUSED.iter().enumerate() {
        assert!(rt;
            is_refused(rt.alloc(), *fault, *cause, path)?,
            "{index}: {path}"
        );
    }
    Ok(())
}

/// Whether this is told of an export that has these objects, and of one that has to be empty or not.
fn is_told(
    alloc: Global,
    objects: &[Object],
    fault: Fault,
    is_empty: bool,
    words: &str,
) -> Result<bool, AllocError> {
    let settings = Settings {
        is_empty,
        ..SETTINGS
    };
    let mut tree = faulty(alloc, objects, fault, 100)?;
    let told = match start_at(&mut tree, settings) {
        Ok(start) => format!(in alloc; "{} objects", start.objects().len()),
        Err(fault) => format!(in alloc; "{fault}"),
    }?;
    Ok(told.as_str() == words)
}

const DENIED: &str =
    "/: READDIRPLUS failed with status 13: the server refuses access: run as root, and export with no_root_squash (and insecure, for ports above 1023)";

const LATE: &str =
    "/: READDIRPLUS failed with status 10008: the server needs more time (NFS3ERR_JUKEBOX): run again later";

/// The objects of an export, what is wrong, whether the export has to be empty, and what is told.
const TOLD: [(&[Object], Fault, bool, &str); 7] = [
    (
        TREE,
        Fault::None,
        true,
        "/: isn't empty: remove what it holds, or leave out --empty (empty, docs, a\\x20b\\xff\\x5c, link, deep, ..)",
    ),
    (
        FLAT,
        Fault::None,
        true,
        "/: isn't empty: remove what it holds, or leave out --empty (a, b)",
    ),
    (&[], Fault::None, true, "0 objects"),
    (&[], NO_PLUS, true, "0 objects"),
    (FLAT, Fails(ReadDirPlus, Access), false, DENIED),
    (FLAT, Fails(ReadDirPlus, Jukebox), false, LATE),
    (
        FLAT,
        SameHandle(3, 1),
        false,
        "/b/c\\x2f\\x0a: is the same object as /a: give the export one name for each",
    ),
];

#[test]
fn exports_are_told(rt: HostRuntime) -> Result<(), Fail> {
    for (objects, fault, is_empty, words) in TOLD {
        assert!(rt; is_told(rt.alloc(), objects, fault, is_empty, words)?);
    }
    Ok(())
}

/// Why a walk that has room for so many objects, and is handed so many calls that are changed so, gives no start; nothing if it gives the tree. No other is to
/// be given.
fn cause_of(
    alloc: Global,
    objects: usize,
    few: u32,
    change: u64,
) -> Result<Option<Cause>, AllocError> {
    let settings = Settings {
        objects,
        ..SETTINGS
    };
    let mut tree = Tree::new(alloc, FLAT, COMMON)?;
    match walk(&mut tree, settings, few, change) {
        Ok(start) => {
            if is_tree(&start, FLAT) {
                Ok(None)
            } else {
                Err(AllocError)
            }
        }
        Err(WalkFault::Refused(refusal)) => Ok(Some(refusal.cause)),
        Err(WalkFault::NoMemory) => Err(AllocError),
    }
}

/// For how many objects a walk has room, how many calls it is handed, how the offsets of its READs are changed, and why it gives no start, if it gives none.
const JUDGED: [(usize, u32, u64, Option<Cause>); 5] = [
    (3, ALL, 0, None),
    (2, ALL, 0, Some(Cause::TooMany)),
    (3, ALL, 1, Some(Cause::Unfinished)),
    (3, 0, 0, Some(Cause::Unfinished)),
    (3, 9, 0, Some(Cause::Unfinished)),
];

#[test]
fn walks_are_judged(rt: HostRuntime) -> Result<(), Fail> {
    for (objects, few, change, cause) in JUDGED {
        assert!(rt; cause_of(rt.alloc(), objects, few, change)? == cause);
    }
    Ok(())
}
