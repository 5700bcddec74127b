//! What keeps a WRITE from being lost: a COMMIT behind it, or its verifier in a later era.

ghost use Rattle.std.specs.Prelude.{IfSome, IsTrue};
ghost use Rattle.decide.specs.Marking.{IsWrite, IsCommit, IsReachedAt, CommitsIt, ShowsIt};

use crate::verifiers::shown_by;
use nfs_history::{Meaning, RecordedCall};
use nfs3_types::{
    Answer, CommitArguments, CommitSuccess, NfsCall, NfsReply, Outcome, WriteArguments,
    WriteSuccess,
};

/// A WRITE that succeeded.
#[derive(Clone, Copy)]
pub(crate) struct WriteAnswered<'a> {
    /// What it asked for.
    pub(crate) call: &'a WriteArguments,
    /// What it was told.
    pub(crate) success: &'a WriteSuccess,
    /// The event of its reply.
    pub(crate) at: u64,
}

/// A COMMIT that succeeded.
#[derive(Clone, Copy)]
pub(crate) struct CommitAnswered<'a> {
    /// What it asked for.
    pub(crate) call: &'a CommitArguments,
    /// What it was told.
    success: &'a CommitSuccess,
    /// The event of its reply.
    at: u64,
}

/// The call, where it is a WRITE that succeeded.
pub(crate) fn as_write(recorded: &RecordedCall) -> Option<WriteAnswered<'_>>
    ensures { IfSome result (λ found. IsWrite recorded.now found.call.now found.success.now found.at) }
{
    let Meaning::Judged(call) = &recorded.meaning else {
        return None;
    };
    let NfsCall::Write(call) = call else {
        return None;
    };
    let Some(outcome) = &recorded.outcome else {
        return None;
    };
    let Outcome::Received(reply) = outcome else {
        return None;
    };
    let NfsReply::Write(answer) = reply else {
        return None;
    };
    let Answer::Done(success) = answer else {
        return None;
    };
    let Some(at) = recorded.end else {
        return None;
    };
    Some(WriteAnswered { call, success, at })
}

/// The call, where it is a COMMIT that succeeded.
pub(crate) fn as_commit(recorded: &RecordedCall) -> Option<CommitAnswered<'_>>
    ensures { IfSome result (λ found. IsCommit recorded.now found.call.now found.success.now found.at) }
{
    let Meaning::Judged(call) = &recorded.meaning else {
        return None;
    };
    let NfsCall::Commit(call) = call else {
        return None;
    };
    let Some(outcome) = &recorded.outcome else {
        return None;
    };
    let Outcome::Received(reply) = outcome else {
        return None;
    };
    let NfsReply::Commit(answer) = reply else {
        return None;
    };
    let Answer::Done(success) = answer else {
        return None;
    };
    let Some(at) = recorded.end else {
        return None;
    };
    Some(CommitAnswered { call, success, at })
}

/// The first byte that a WRITE of this many bytes wrote and that a COMMIT reaches.
fn reached(commit: &CommitArguments, write: &WriteArguments, count: u32) -> Option<u64>
    ensures { IfSome result (IsReachedAt commit.now write.now count) }
{
    let byte = if write.offset < commit.offset {
        commit.offset
    } else {
        write.offset
    };
    if byte - write.offset >= u64::from(count) {
        return None;
    }
    if commit.count == 0 {
        return Some(byte);
    }
    if byte - commit.offset < u64::from(commit.count) {
        Some(byte)
    } else {
        None
    }
}

/// Whether the second call is a COMMIT that reaches a byte of the first, a WRITE, and was sent after its reply in the same era.
pub(crate) fn commits(recorded: &RecordedCall, later: &RecordedCall) -> bool
    ensures { IsTrue result → CommitsIt recorded.now later.now }
{
    let Some(write) = as_write(recorded) else {
        return false;
    };
    let Some(commit) = as_commit(later) else {
        return false;
    };
    if commit.call.file.as_slice() != write.call.file.as_slice() {
        return false;
    }
    if later.era != recorded.era {
        return false;
    }
    if later.begin <= write.at {
        return false;
    }
    let Some(_byte) = reached(commit.call, write.call, write.success.count) else {
        return false;
    };
    true
}

/// Whether the first call is a WRITE of at least one byte whose verifier the reply to the second shows, in a later era.
pub(crate) fn shows_again(recorded: &RecordedCall, later: &RecordedCall) -> bool
    ensures { IsTrue result → ShowsIt recorded.now later.now }
{
    let Some(write) = as_write(recorded) else {
        return false;
    };
    let Some(shown) = shown_by(later, 0) else {
        return false;
    };
    if write.success.count == 0 {
        return false;
    }
    if later.era <= recorded.era {
        return false;
    }
    shown.verifier == write.success.verifier.value
}
