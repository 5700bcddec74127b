//! What a sweep asks of a call.

use nfs3_types::{
    Answer, CreateMode, DirectoryName, FileHandle, NfsCall, NfsReply, Outcome, StableHow,
};
use search_problem::{FoundCall, Move, Nature, Problem, find};
use std::alloc::{AllocError, Global};

/// A call as a sweep places it: with its reply, or as done in full.
pub fn move_of(problem: &Problem<'_, '_>, number: u64) -> Move {
    if problem.nature(number) == Nature::Unanswered {
        Move::Take(number)
    } else {
        Move::Answer(number)
    }
}

/// The call of a number, with its reply, if it has a place.
pub fn found_of(
    alloc: Global,
    problem: &Problem<'_, '_>,
    number: u64,
) -> Result<Option<FoundCall>, AllocError> {
    find(alloc, problem.known(), move_of(problem, number))
}

/// Whether two calls of one era overlap: neither ended before the other began.
pub fn overlap(problem: &Problem<'_, '_>, one: u64, other: u64) -> bool {
    let known = problem.known();
    known.era(one) == known.era(other)
        && !precedes(problem, one, other)
        && !precedes(problem, other, one)
}

/// Whether a call ended before another one began.
pub fn precedes(problem: &Problem<'_, '_>, one: u64, other: u64) -> bool {
    match problem.known().end(one) {
        Some(end) => end < problem.known().begin(other),
        None => false,
    }
}

/// Whether a crash can't take a call's place, whatever follows it: a success that changes the tree and isn't an unstable WRITE.
pub fn is_stable(found: &FoundCall, nature: Nature) -> bool {
    if nature != Nature::Changing {
        return false;
    }
    match &found.outcome {
        Outcome::Received(NfsReply::Write(Answer::Done(success))) => {
            success.count > 0 && !matches!(success.level, StableHow::Unstable)
        }
        Outcome::Received(_) => true,
        Outcome::Taken(_) => false,
    }
}

/// The entry that a call makes, if it makes one where it isn't there.
pub fn made_by(call: &NfsCall) -> Option<&DirectoryName> {
    match call {
        NfsCall::Create(create) => Some(&create.place),
        NfsCall::MkDir(make) => Some(&make.place),
        NfsCall::SymLink(link) => Some(&link.place),
        _ => None,
    }
}

/// The size that an UNCHECKED CREATE asks for.
pub(crate) fn size_asked(mode: &CreateMode) -> Option<u64> {
    match mode {
        CreateMode::Unchecked(attributes) => attributes.size,
        CreateMode::Guarded(_) | CreateMode::Exclusive(_) => None,
    }
}

/// The entries that a call names.
pub fn places_of(call: &NfsCall) -> (Option<&DirectoryName>, Option<&DirectoryName>) {
    match call {
        NfsCall::Lookup(place) | NfsCall::Remove(place) | NfsCall::RmDir(place) => (
            Some(place),
            None,
        ),
        NfsCall::Create(create) => (Some(&create.place), None),
        NfsCall::MkDir(make) => (Some(&make.place), None),
        NfsCall::SymLink(link) => (Some(&link.place), None),
        NfsCall::Rename(rename) => (Some(&rename.from), Some(&rename.to)),
        _ => (None, None),
    }
}

/// The handles that a call names, the directories of its entries among them.
pub fn handles_of(call: &NfsCall) -> (Option<&FileHandle>, Option<&FileHandle>) {
    match call {
        NfsCall::GetAttr(handle) | NfsCall::ReadLink(handle) => (Some(handle), None),
        NfsCall::SetAttr(set) => (Some(&set.object), None),
        NfsCall::Read(read) => (Some(&read.file), None),
        NfsCall::Write(write) => (Some(&write.file), None),
        NfsCall::Commit(commit) => (Some(&commit.file), None),
        NfsCall::ReadDir(list) => (Some(&list.directory), None),
        NfsCall::ReadDirPlus(list) => (Some(&list.directory), None),
        _ => match places_of(call) {
            (Some(from), Some(to)) => (Some(&from.directory), Some(&to.directory)),
            (Some(place), None) => (Some(&place.directory), None),
            _ => (None, None),
        },
    }
}

/// Whether a call was answered by a failure.
pub fn is_failed(found: &FoundCall) -> bool {
    match &found.outcome {
        Outcome::Received(reply) => reply.failure().is_some(),
        Outcome::Taken(_) => false,
    }
}

/// The handle that a reply gives of what its call made or looked up.
pub fn given_by(found: &FoundCall) -> Option<&FileHandle> {
    match &found.outcome {
        Outcome::Received(
            NfsReply::Create(Answer::Done(success))
            | NfsReply::MkDir(Answer::Done(success))
            | NfsReply::SymLink(Answer::Done(success)),
        ) => success.object.as_ref(),
        Outcome::Received(NfsReply::Lookup(Answer::Done(success))) => Some(&success.object),
        _ => None,
    }
}

/// Whether a call shows a file's bytes or size, which may differ although its handle is right.
pub fn shows_file(call: &NfsCall) -> bool {
    matches!(call, NfsCall::Read(_) | NfsCall::GetAttr(_))
}
