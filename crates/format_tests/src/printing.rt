//! Trees that are printed, and steps that are taken back.

ghost use Rattle.std.specs.Prelude.{IfOk};
ghost use Rattle.tree_nodes.specs.Undo.{TakesBack};

use crate::requests::{Request, SYNCED, call, outcome};
use file_tree::{Binds, FileTree, Profile, Undo};
use replay_law::{Replayable, StepFault};
use std::alloc::{AllocError, Global};
use std::test::Fail;

/// The tree of one file `abc` at the name `a`, of object 1 (docs/FORMATS.md).
pub(crate) const ONE_FILE: [u8; 56] = [
    0, 0, 0, 2, 0, 0, 0, 0, 0, 0, 0, 0, 0, 0, 0, 0, 0, 0, 0, 2, 0, 0, 0, 1, 0, 0, 0, 1, 97, 0, 0,
    0, 0, 0, 0, 0, 0, 0, 0, 1, 0, 0, 0, 1, 0, 0, 0, 3, 97, 98, 99, 0, 0, 0, 0, 0,
];

/// The same file at the name `b`.
const AT_B: [u8; 56] = [
    0, 0, 0, 2, 0, 0, 0, 0, 0, 0, 0, 0, 0, 0, 0, 0, 0, 0, 0, 2, 0, 0, 0, 1, 0, 0, 0, 1, 98, 0, 0,
    0, 0, 0, 0, 0, 0, 0, 0, 1, 0, 0, 0, 1, 0, 0, 0, 3, 97, 98, 99, 0, 0, 0, 0, 0,
];

const CREATE_A: Request = Request::Create(0, b'a', Some(0xaa));

const CREATE_B: Request = Request::Create(0, b'b', Some(0xbb));

/// WRITE of `abc` to `a`.
pub(crate) const WRITE_A: Request = Request::Write(0xaa, SYNCED, b"abc");

/// RENAME of `a` to `b`.
const RENAME_A: Request = Request::Rename(b'a', 0, b'b');

/// Requests that are done, each with its number.
pub(crate) type Done = &'static [(u64, Request)];

/// The root's handle 0, and these handles of these objects.
pub(crate) fn binds(alloc: Global, handles: &[(u8, u64)]) -> Result<Binds, AllocError> {
    let mut binds = Binds::of_root(alloc, &[0])?;
    for (handle, object) in handles {
        binds.push(&[*handle], *object)?;
    }
    Ok(binds)
}

/// The step of a request that is done.
fn step(
    alloc: Global,
    tree: &mut FileTree,
    binds: &Binds,
    number: u64,
    request: Request,
) -> Result<Undo, StepFault>
    ensures { IfOk result (λ undo. TakesBack undo tree.new tree.old) }
{
    let call = call(alloc, request)?;
    let outcome = outcome(alloc, request)?;
    tree.step_under(Profile::Plain, binds, number, &call, &outcome)
}

/// The tree after these requests.
pub(crate) fn tree_after(
    alloc: Global,
    binds: &Binds,
    requests: &[(u64, Request)],
) -> Result<FileTree, StepFault> {
    let mut tree = FileTree::empty(alloc)?;
    for (number, request) in requests {
        drop(step(alloc, &mut tree, binds, *number, *request)?);
    }
    Ok(tree)
}

/// Prints a tree after the step of a request, and once it is taken back. The number is that of the nodes which stood aside meanwhile.
fn print_both(
    alloc: Global,
    mut tree: FileTree,
    binds: &Binds,
    (number, request): (u64, Request),
    after: &mut Vec<u8>,
    back: &mut Vec<u8>,
) -> Result<u64, StepFault> {
    let undo = step(alloc, &mut tree, binds, number, request)?;
    let nodes = FileTree::undo_nodes(&undo);
    tree.print_state(after)?;
    let before = tree.undo(undo)?;
    before.print_state(back)?;
    Ok(nodes)
}

/// `a` is made and written, and then `b` is made.
const TWO_MADE: Done = &[(1, CREATE_A), (2, WRITE_A), (3, CREATE_B)];

/// Requests before a step, the step, how many bytes are printed before it, what is printed after it, and how many nodes stand aside.
const TAKEN_BACK: [(Done, (u64, Request), usize, &[u8], u64); 2] = [
    (&[(1, CREATE_A)], (2, WRITE_A), 52, &ONE_FILE, 0),
    // A RENAME over a file.
    (TWO_MADE, (4, RENAME_A), 88, &AT_B, 1),
];

/// Whether what is printed is so, and is the same before the step and once it is taken back.
fn is_taken_back(
    alloc: Global,
    done: Done,
    last: (u64, Request),
    length: usize,
    want: &[u8],
    aside: u64,
) -> Result<bool, StepFault> {
    let binds = binds(alloc, &[(0xaa, 1), (0xbb, 3)])?;
    let tree = tree_after(alloc, &binds, done)?;
    let mut before = Vec::new(alloc);
    tree.print_state(&mut before)?;
    let mut after = Vec::new(alloc);
    let mut back = Vec::new(alloc);
    let nodes = print_both(alloc, tree, &binds, last, &mut after, &mut back)?;
    let same = before.len() == length && back.as_slice() == before.as_slice();
    Ok(same && after.as_slice() == want && nodes == aside)
}

#[test]
fn a_step_is_printed_and_taken_back(rt: HostRuntime) -> Result<(), Fail> {
    for (done, last, length, want, aside) in TAKEN_BACK {
        assert!(rt; is_taken_back(rt.alloc(), done, last, length, want, aside)?);
    }
    Ok(())
}

/// How many nodes stand aside while a directory at `a` with a hundred empty files is renamed.
fn nodes_of_a_rename(alloc: Global) -> Result<u64, StepFault> {
    let binds = binds(alloc, &[(0xaa, 1)])?;
    let made = Request::MakeDirectory(0, b'a', Some(0xaa));
    let mut tree = tree_after(alloc, &binds, &[(1, made)])?;
    for name in 100..200u8 {
        let request = Request::Create(0xaa, name, None);
        drop(step(alloc, &mut tree, &binds, u64::from(name), request)?);
    }
    let undo = step(alloc, &mut tree, &binds, 200, RENAME_A)?;
    Ok(FileTree::undo_nodes(&undo))
}

#[test]
fn a_renamed_directory_is_not_copied(rt: HostRuntime) -> Result<(), Fail> {
    assert!(rt; nodes_of_a_rename(rt.alloc())? == 0);
    Ok(())
}
