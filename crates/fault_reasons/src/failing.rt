//! Failures that a tree may give.

use crate::changes::no_attributes;
use nfs3_types::{Answer, Failure, Held, NfsCall, NfsReply, Optional, RenameWcc};
use std::alloc::{AllocError, Global};
use tree_answers::{Cause, causes, is_caused_by};
use tree_handles::View;

/// The statuses of failures that have a cause, those that tell most first.
const STATUSES: [Failure; 7] = [
    Failure::Stale,
    Failure::NoEntry,
    Failure::Exists,
    Failure::NotDirectory,
    Failure::IsDirectory,
    Failure::NotEmpty,
    Failure::Invalid,
];

/// A status that stands beside a cause which holds where the call is made.
fn status_of(view: &View<'_>, call: &NfsCall, cause: Cause) -> Option<Failure> {
    for status in STATUSES {
        if is_caused_by(view, call, status, cause) {
            return Some(status);
        }
    }
    None
}

/// The first cause that holds where the call is made, by a status that stands beside it.
fn first_status(view: &View<'_>, call: &NfsCall) -> Option<Failure> {
    for cause in causes() {
        let status = status_of(view, call, cause);
        if status.is_some() {
            return status;
        }
    }
    None
}

/// A failure of a RENAME, with no attributes of its directories.
fn failed_rename(alloc: Global, status: Failure) -> Result<NfsReply, AllocError> {
    let both = RenameWcc {
        from: no_attributes(),
        to: no_attributes(),
    };
    Ok(NfsReply::Rename(Answer::Failed(status, Held::new(alloc, both)?)))
}

/// A call's failure, with no attributes.
fn failed_with(alloc: Global, call: &NfsCall, status: Failure) -> Result<NfsReply, AllocError> {
    let reply = match call {
        NfsCall::GetAttr(_) => NfsReply::GetAttr(Answer::Failed(status, ())),
        NfsCall::SetAttr(_) => NfsReply::SetAttr(Answer::Failed(status, no_attributes())),
        NfsCall::Lookup(_) => NfsReply::Lookup(Answer::Failed(status, Optional::none())),
        NfsCall::ReadLink(_) => NfsReply::ReadLink(Answer::Failed(status, Optional::none())),
        NfsCall::Read(_) => NfsReply::Read(Answer::Failed(status, Optional::none())),
        NfsCall::Write(_) => NfsReply::Write(Answer::Failed(status, no_attributes())),
        NfsCall::Create(_) => NfsReply::Create(Answer::Failed(status, no_attributes())),
        NfsCall::MkDir(_) => NfsReply::MkDir(Answer::Failed(status, no_attributes())),
        NfsCall::SymLink(_) => NfsReply::SymLink(Answer::Failed(status, no_attributes())),
        NfsCall::Remove(_) => NfsReply::Remove(Answer::Failed(status, no_attributes())),
        NfsCall::RmDir(_) => NfsReply::RmDir(Answer::Failed(status, no_attributes())),
        NfsCall::Rename(_) => return failed_rename(alloc, status),
        NfsCall::ReadDir(_) => NfsReply::ReadDir(Answer::Failed(status, Optional::none())),
        NfsCall::ReadDirPlus(_) => NfsReply::ReadDirPlus(Answer::Failed(status, Optional::none())),
        NfsCall::Commit(_) => NfsReply::Commit(Answer::Failed(status, no_attributes())),
    };
    Ok(reply)
}

/// The failure of a call by the first cause that holds in the tree, where one does.
pub(crate) fn failed(
    alloc: Global,
    view: &View<'_>,
    call: &NfsCall,
) -> Result<Option<NfsReply>, AllocError> {
    match first_status(view, call) {
        Some(status) => Ok(Some(failed_with(alloc, call, status)?)),
        None => Ok(None),
    }
}
