//! What a WRITE or a COMMIT says of stable storage. Its bytes aren't copied.

ghost use Rattle.std.specs.Prelude.{◌≡◌, Some, IfOk, option_map};
ghost use Rattle.std.specs.Option.{option_copied};
ghost use Rattle.xdr_records.specs.Reading.{item_here, reading, Answers, AnswersAll};
ghost use Rattle.xdr_records.specs.Items.{end_at};
ghost use Rattle.xdr_records.specs.Grammar.Grammar.{one_opaque};
ghost use Rattle.nfs3_types.specs.declared.calls.NfsCall.TheVariants as calls;
ghost use Rattle.nfs3_types.specs.declared.calls.WriteArguments.{WriteArguments};
ghost use Rattle.nfs3_types.specs.declared.calls.CommitArguments.{CommitArguments};
ghost use Rattle.nfs3_msgs.specs.nfs3_values_specs.Calls.{write_arguments, commit_arguments};
ghost use Rattle.nfs3_msgs.specs.nfs3_values_specs.Told.{kind_of, told, Reads, IsButForMemory};
ghost use Rattle.nfs3_msgs.specs.Messages.{arguments_of, result_of};
ghost use Rattle.nfs_history.specs.Matching.{seen_call};
ghost use Rattle.nfs_history.specs.History.{IsRecorded};
ghost use Rattle.nfs_history.specs.Reread.{asked_from, came_from, known_call};
ghost use Rattle.nfs_history.specs.declared.recorded.Meaning.TheVariants as meanings;
ghost use Rattle.nfs_history.specs.Success.{write_success, commit_success, succeeded};
ghost use Rattle.nfs_history.specs.Storage.{storage_value, write_storage, commit_storage, storage_as, storage_in, brought_as, brought_in};

use crate::effects::{has_no_effect, results_of};
use crate::judging::body_of;
use crate::matching::SeenCall;
use crate::recorded::{Meaning, RecordedCall};
use nfs3_msgs::nfs3_values::{XdrValue, fault_at};
use nfs3_msgs::{MessageFault, read_result};
use nfs3_types::{
    Answer, CommitSuccess, NfsCall, NfsReply, Outcome, Procedure, StableHow, WriteSuccess,
};
use rpc_reader::read_call;
use std::alloc::{AllocError, Global};
use std::marker::Model;
use xdr_records::Reader;

/// A WRITE or a COMMIT that succeeded, with its handle where it lies and without its bytes.
#[derive(Clone, Copy)]
pub struct StorageCall<'a> {
    /// The handle.
    pub file: &'a [u8],
    /// Where the bytes begin, in bytes from the file's start.
    pub offset: u64,
    /// Of a WRITE the bytes that its reply counts; of a COMMIT those that it asked for, where 0 means all.
    pub count: u32,
    /// Of a WRITE how stable its reply says that they are.
    pub level: Option<StableHow>,
    /// The write verifier of the reply.
    pub verifier: u64,
}

/// The arguments of a WRITE, with the handle and the bytes where they lie.
#[derive(Drop)]
struct SeenWrite<'a> {
    file: &'a [u8],
    offset: u64,
    count: u32,
    level: StableHow,
    bytes: &'a [u8],
}

impl<'a> Model for SeenWrite<'a> {
    ghost use Rattle.nfs3_types.specs.declared.calls.WriteArguments.{WriteArguments};

    ghost Value = { WriteArguments };

    ghost view = { λ w. record { file = w.file.now; offset = w.offset; count = w.count; level = w.level; bytes = w.bytes.now } };
}

/// The arguments of a COMMIT, with the handle where it lies.
#[derive(Drop)]
struct SeenCommit<'a> {
    file: &'a [u8],
    offset: u64,
    count: u32,
}

impl<'a> Model for SeenCommit<'a> {
    ghost use Rattle.nfs3_types.specs.declared.calls.CommitArguments.{CommitArguments};

    ghost Value = { CommitArguments };

    ghost view = { λ c. record { file = c.file.now; offset = c.offset; count = c.count } };
}

/// The bytes behind their length at the front of what is left.
fn lent_opaque<'a>(reader: &mut Reader<'a>, max: u32) -> Result<&'a [u8], MessageFault>
    ensures { Answers told (λ bytes. bytes.now) reader.new result (reading kind_of (one_opaque max) reader.old) }
{
    let at = reader.offset();
    reader.opaque(max).map_err(|fault| fault_at(at, fault))
}

/// Nothing stands behind the last item.
fn ended(reader: &Reader<'_>) -> Result<(), MessageFault>
    ensures { IsButForMemory result (item_here kind_of reader.now.at (end_at reader.now)) }
{
    let at = reader.offset();
    reader.done().map_err(|fault| fault_at(at, fault))
}

/// The arguments of a WRITE at the front of what is left.
#[tactic(auto, unfolding(nfs3_msgs::specs::Arguments::write_arguments, nfs3_msgs::specs::Arguments::handle, nfs3_msgs::specs::Arguments::file_data))]
fn write_from<'a>(alloc: Global, reader: &mut Reader<'a>) -> Result<SeenWrite<'a>, MessageFault>
    ensures { Reads write_arguments reader.old reader.new result }
{
    let file = lent_opaque(reader, 64)?;
    let offset = u64::read(alloc, reader)?;
    let count = u32::read(alloc, reader)?;
    let level = StableHow::read(alloc, reader)?;
    let bytes = lent_opaque(reader, u32::MAX)?;
    Ok(SeenWrite {
        file,
        offset,
        count,
        level,
        bytes,
    })
}

/// The arguments of a COMMIT at the front of what is left.
#[tactic(auto, unfolding(nfs3_msgs::specs::Arguments::commit_arguments, nfs3_msgs::specs::Arguments::handle))]
fn commit_from<'a>(alloc: Global, reader: &mut Reader<'a>) -> Result<SeenCommit<'a>, MessageFault>
    ensures { Reads commit_arguments reader.old reader.new result }
{
    let file = lent_opaque(reader, 64)?;
    let offset = u64::read(alloc, reader)?;
    let count = u32::read(alloc, reader)?;
    Ok(SeenCommit {
        file,
        offset,
        count,
    })
}

/// The arguments of a WRITE, all of the bytes.
#[tactic(auto, unfolding(nfs3_msgs::specs::Messages::arguments))]
fn seen_write<'a>(alloc: Global, bytes: &'a [u8]) -> Result<SeenWrite<'a>, MessageFault>
    ensures { AnswersAll told calls.Write result (arguments_of 7 bytes.now) }
{
    let mut reader = Reader::new(bytes);
    let write = write_from(alloc, &mut reader)?;
    ended(&reader)?;
    Ok(write)
}

/// The arguments of a COMMIT, all of the bytes.
#[tactic(auto, unfolding(nfs3_msgs::specs::Messages::arguments))]
fn seen_commit<'a>(alloc: Global, bytes: &'a [u8]) -> Result<SeenCommit<'a>, MessageFault>
    ensures { AnswersAll told calls.Commit result (arguments_of 21 bytes.now) }
{
    let mut reader = Reader::new(bytes);
    let commit = commit_from(alloc, &mut reader)?;
    ended(&reader)?;
    Ok(commit)
}

/// What stands behind the status of a WRITE's reply that is a success.
pub fn write_success(outcome: &Outcome) -> Option<&WriteSuccess>
    ensures { option_copied result ≡ write_success outcome.now }
{
    let Outcome::Received(reply) = outcome else {
        return None;
    };
    let NfsReply::Write(answer) = reply else {
        return None;
    };
    match answer {
        Answer::Done(success) => Some(success),
        Answer::Failed(..) => None,
    }
}

/// What stands behind the status of a COMMIT's reply that is a success.
pub fn commit_success(outcome: &Outcome) -> Option<&CommitSuccess>
    ensures { option_copied result ≡ commit_success outcome.now }
{
    let Outcome::Received(reply) = outcome else {
        return None;
    };
    let NfsReply::Commit(answer) = reply else {
        return None;
    };
    match answer {
        Answer::Done(success) => Some(success),
        Answer::Failed(..) => None,
    }
}

/// What a WRITE says that came out so.
fn write_storage<'a>(file: &'a [u8], offset: u64, outcome: &Outcome) -> Option<StorageCall<'a>>
    ensures { (a : WriteArguments) → a.file ≡ file.now → a.offset ≡ offset → option_map storage_value result ≡ option_map (write_storage a) (write_success outcome.now) }
{
    let success = write_success(outcome)?;
    Some(StorageCall {
        file,
        offset,
        count: success.count,
        level: Some(success.level),
        verifier: success.verifier.value,
    })
}

/// What a COMMIT says that came out so.
fn commit_storage<'a>(
    file: &'a [u8],
    offset: u64,
    count: u32,
    outcome: &Outcome,
) -> Option<StorageCall<'a>>
    ensures { (a : CommitArguments) → a.file ≡ file.now → a.offset ≡ offset → a.count ≡ count → option_map storage_value result ≡ option_map (commit_storage a) (commit_success outcome.now) }
{
    let success = commit_success(outcome)?;
    Some(StorageCall {
        file,
        offset,
        count,
        level: None,
        verifier: success.verifier.value,
    })
}

/// How a call of this procedure came out that has this result.
fn outcome_of(alloc: Global, procedure: u32, results: &[u8]) -> Result<Option<Outcome>, AllocError>
    ensures { IfOk result (λ outcome. outcome ≡ came_from (result_of procedure results.now)) }
{
    match read_result(alloc, procedure, results) {
        Ok(answer) => Ok(Some(Outcome::Received(answer))),
        Err(MessageFault::NoMemory) => Err(AllocError),
        Err(MessageFault::BadMessage { .. }) => Ok(None),
    }
}

/// What a WRITE with these arguments and this result says.
fn written<'a>(
    alloc: Global,
    arguments: &'a [u8],
    results: &[u8],
) -> Result<Option<StorageCall<'a>>, AllocError>
    ensures { IfOk result (λ found. option_map storage_value found ≡ storage_as (asked_from (arguments_of 7 arguments.now)) (came_from (result_of 7 results.now))) }
{
    let write = match seen_write(alloc, arguments) {
        Ok(write) => write,
        Err(MessageFault::NoMemory) => return Err(AllocError),
        Err(MessageFault::BadMessage { .. }) => return Ok(None),
    };
    match outcome_of(alloc, Procedure::Write.number(), results)? {
        Some(outcome) => Ok(write_storage(write.file, write.offset, &outcome)),
        None => Ok(None),
    }
}

/// What a COMMIT with these arguments and this result says.
fn committed<'a>(
    alloc: Global,
    arguments: &'a [u8],
    results: &[u8],
) -> Result<Option<StorageCall<'a>>, AllocError>
    ensures { IfOk result (λ found. option_map storage_value found ≡ storage_as (asked_from (arguments_of 21 arguments.now)) (came_from (result_of 21 results.now))) }
{
    let commit = match seen_commit(alloc, arguments) {
        Ok(commit) => commit,
        Err(MessageFault::NoMemory) => return Err(AllocError),
        Err(MessageFault::BadMessage { .. }) => return Ok(None),
    };
    match outcome_of(alloc, Procedure::Commit.number(), results)? {
        Some(outcome) => Ok(commit_storage(commit.file, commit.offset, commit.count, &outcome)),
        None => Ok(None),
    }
}

/// What a call says of stable storage that was read before without a fault.
pub(crate) fn storage_again<'a>(
    alloc: Global,
    seen: &SeenCall<'a>,
) -> Result<Option<StorageCall<'a>>, AllocError>
    requires { IsRecorded (seen_call seen.now) (known_call (seen_call seen.now)) }
    ensures { IfOk result (λ found. option_map storage_value found ≡ storage_in (known_call (seen_call seen.now))) }
{
    let Ok(head) = read_call(seen.message) else {
        unreachable!();
    };
    let body = body_of(&seen.answer);
    if has_no_effect(&head, &body) {
        return Ok(None);
    }
    let Some(results) = results_of(&body) else {
        return Ok(None);
    };
    if head.procedure == Procedure::Write.number() {
        return written(alloc, head.args, results);
    }
    if head.procedure == Procedure::Commit.number() {
        return committed(alloc, head.args, results);
    }
    Ok(None)
}

/// How many bytes a WRITE with these arguments brought.
fn brought_by(alloc: Global, arguments: &[u8]) -> Result<Option<usize>, AllocError>
    ensures { IfOk result (λ found. found ≡ brought_as (asked_from (arguments_of 7 arguments.now))) }
{
    match seen_write(alloc, arguments) {
        Ok(write) => Ok(Some(write.bytes.len())),
        Err(MessageFault::NoMemory) => Err(AllocError),
        Err(MessageFault::BadMessage { .. }) => Ok(None),
    }
}

/// How many bytes a WRITE brought that was read before without a fault.
pub(crate) fn brought_again(alloc: Global, seen: &SeenCall<'_>) -> Result<Option<usize>, AllocError>
    requires { IsRecorded (seen_call seen.now) (known_call (seen_call seen.now)) }
    ensures { IfOk result (λ found. found ≡ brought_in (known_call (seen_call seen.now))) }
{
    let Ok(head) = read_call(seen.message) else {
        unreachable!();
    };
    let body = body_of(&seen.answer);
    if has_no_effect(&head, &body) {
        return Ok(None);
    }
    if head.procedure != Procedure::Write.number() {
        return Ok(None);
    }
    brought_by(alloc, head.args)
}

/// Whether a call was answered by a success.
pub fn succeeded(call: &NfsCall, outcome: &Outcome) -> bool
    ensures { result ≡ succeeded call.now outcome.now }
{
    match outcome {
        Outcome::Received(reply) => call.is_answered_by(reply) && reply.failure().is_none(),
        Outcome::Taken(_) => false,
    }
}

/// What a judged call says that came out so.
fn storage_of<'a>(call: &'a NfsCall, outcome: &Outcome) -> Option<StorageCall<'a>>
    ensures { option_map storage_value result ≡ storage_as (meanings.Judged call.now) (Some outcome.now) }
{
    match call {
        NfsCall::Write(write) => write_storage(write.file.as_slice(), write.offset, outcome),
        NfsCall::Commit(commit) => commit_storage(
            commit.file.as_slice(),
            commit.offset,
            commit.count,
            outcome,
        ),
        _ => None,
    }
}

impl RecordedCall {
    ghost use Rattle.std.specs.Prelude.{◌≡◌, option_map};
    ghost use Rattle.nfs_history.specs.Storage.{storage_value, storage_in, brought_in, has_succeeded};

    /// What a WRITE or a COMMIT says of stable storage that succeeded.
    pub fn storage(&self) -> Option<StorageCall<'_>>
        ensures { option_map storage_value result ≡ storage_in self.now }
    {
        let Meaning::Judged(call) = &self.meaning else {
            return None;
        };
        let outcome = self.outcome.as_ref()?;
        storage_of(call, outcome)
    }

    /// How many bytes a WRITE brought.
    pub fn brought(&self) -> Option<usize>
        ensures { result ≡ brought_in self.now }
    {
        match &self.meaning {
            Meaning::Judged(NfsCall::Write(write)) => Some(write.bytes.as_slice().len()),
            _ => None,
        }
    }

    /// Whether it is a judged call that was answered by a success.
    pub fn succeeded(&self) -> bool
        ensures { result ≡ has_succeeded self.now }
    {
        match (&self.meaning, &self.outcome) {
            (Meaning::Judged(call), Some(outcome)) => succeeded(call, outcome),
            _ => false,
        }
    }
}
