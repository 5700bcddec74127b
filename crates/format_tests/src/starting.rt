//! A tree of what was there at first, and which calls can succeed in a small tree.

use crate::printing::{Done, ONE_FILE, WRITE_A, binds, tree_after};
use crate::requests::{Request, call, outcome};
use file_tree::{FileTree, Profile, Start, StartFault, StartNode, StartObject, TreeSetting};
use nfs3_types::{Data, Name};
use replay_law::{Replayable, StepFault};
use std::alloc::{AllocError, Global};
use std::test::Fail;

/// The file `abc` at the name `a`, as an object of a start.
fn one_file(alloc: Global) -> Result<Vec<StartObject>, AllocError> {
    let mut objects = Vec::new(alloc);
    objects.push(StartObject {
        parent: 0,
        name: Name::from_slice(alloc, b"a".as_slice())?,
        node: StartNode::File(Data::from_slice(alloc, b"abc".as_slice())?),
    })?;
    Ok(objects)
}

/// A directory beside that file, by its parent, the letter of its name and how often this is there; and why it isn't a start.
const BESIDE: [(u64, u8, u32, Option<StartFault>); 4] = [
    (0, b'a', 1, Some(StartFault::BadStart(2))),
    (1, b'b', 1, Some(StartFault::BadStart(2))),
    (0, b'a', 1_048_577, Some(StartFault::TooLarge(2))),
    (0, b'b', 1, None),
];

/// Why such a directory can't be beside that file.
fn refusal(
    alloc: Global,
    parent: u64,
    letter: u8,
    length: u32,
) -> Result<Option<StartFault>, AllocError> {
    let mut objects = one_file(alloc)?;
    let name = Vec::from_elem(alloc, letter, length as usize)?;
    objects.push(StartObject {
        parent,
        name: Name::from_slice(alloc, name.as_slice())?,
        node: StartNode::Directory,
    })?;
    Ok(Start::new(alloc, objects).err())
}

#[test]
fn what_is_no_start_is_refused_by_name(rt: HostRuntime) -> Result<(), Fail> {
    for (parent, letter, length, want) in BESIDE {
        assert!(rt; refusal(rt.alloc(), parent, letter, length)? == want);
    }
    Ok(())
}

/// That file's start under the strict profile, where handle aa names it.
fn strict_setting(alloc: Global) -> Result<TreeSetting, StartFault> {
    Ok(TreeSetting {
        binds: binds(alloc, &[(0xaa, 1)])?,
        start: Start::new(alloc, one_file(alloc)?)?,
        profile: Profile::Strict,
    })
}

/// Whether a tree is printed as that of a file which was written.
fn is_printed(alloc: Global, tree: &FileTree) -> Result<bool, AllocError> {
    let mut out = Vec::new(alloc);
    tree.print_state(&mut out)?;
    Ok(out.as_slice() == ONE_FILE.as_slice())
}

/// Whether the tree of a setting is printed so, also after a WRITE of the same bytes, which is told no attributes.
fn is_written_over(alloc: Global, setting: &TreeSetting) -> Result<bool, StepFault> {
    let mut tree = FileTree::opening(alloc, setting)?;
    let started = is_printed(alloc, &tree)?;
    let call = call(alloc, WRITE_A)?;
    let outcome = outcome(alloc, WRITE_A)?;
    drop(tree.step(setting, 2, &call, &outcome)?);
    Ok(started && is_printed(alloc, &tree)?)
}

#[test]
fn a_starting_file_is_printed_and_written_over(rt: HostRuntime) -> Result<(), Fail> {
    let setting = strict_setting(rt.alloc())?;
    assert!(rt; is_written_over(rt.alloc(), &setting)?);
    Ok(())
}

const MAKE: Request = Request::MakeDirectory(0, b'd', None);

const MAKE_NOWHERE: Request = Request::MakeDirectory(7, b'd', None);

/// Call 5 made `d`.
const MADE: Done = &[(5, MAKE)];

/// LOOKUP of `d`, of a name that isn't there, and of the root itself, each of which gives handle 9.
const LOOK_D: Request = Request::Lookup(0, b'd', 9);

const LOOK_E: Request = Request::Lookup(0, b'e', 9);

const LOOK_ROOT: Request = Request::Lookup(0, b'.', 9);

/// Handles with their objects, what is done, a call with its number, and whether it can succeed then.
const ASKED: &[(&[(u8, u64)], Done, (u64, Request), bool)] = &[
    // MKDIR in the root, in a directory that isn't there, and by the number of the root.
    (&[], &[], (5, MAKE), true),
    (&[], &[], (5, MAKE_NOWHERE), false),
    (&[], &[], (0, MAKE), false),
    // The object of the name has the handle, or doesn't.
    (&[(9, 5)], MADE, (6, LOOK_D), true),
    (&[(9, 4)], MADE, (6, LOOK_D), false),
    (&[(9, 5)], MADE, (6, LOOK_E), false),
    (&[(9, 4)], MADE, (6, LOOK_ROOT), true),
];

/// Whether a call can succeed after what is done.
fn may_succeed(
    alloc: Global,
    handles: &[(u8, u64)],
    done: Done,
    (number, request): (u64, Request),
) -> Result<bool, StepFault> {
    let binds = binds(alloc, handles)?;
    let tree = tree_after(alloc, &binds, done)?;
    let call = call(alloc, request)?;
    Ok(tree.allows(&binds, number, &call)?)
}

#[test]
fn a_call_can_succeed_or_not(rt: HostRuntime) -> Result<(), Fail> {
    for (handles, done, asked, want) in ASKED {
        assert!(rt; may_succeed(rt.alloc(), handles, done, *asked)? == *want);
    }
    Ok(())
}
