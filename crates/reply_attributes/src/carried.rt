//! The type and the size of an object after a call, and its size before it, as a reply gives them.

ghost use Rattle.std.specs.Prelude.{◌≡◌, option_and_then, slice_get};
ghost use Rattle.std.specs.Option.{option_copied};
ghost use Rattle.reply_attributes.specs.Attributes.{of_first, of_second, of_answer, of_wcc, of_directory, of_written, of_committed, of_renamed, of_seen, of_made, of_found, entries_of, type_and_size, post_attr, pre_size};

use crate::role::Role;
use nfs3_types::{
    Answer, CommitSuccess, CreateSuccess, DirectoryEntryPlus, FileAttributes, Held, LookupSuccess,
    NfsReply, Optional, RenameWcc, WccAttributes, WccData, WriteSuccess,
};

/// The attributes of an answer that has the same, done or failed.
fn wcc_of(answer: &Answer<WccData, WccData>) -> &WccData
    ensures { result.now ≡ of_wcc answer.now }
{
    match answer {
        Answer::Done(wcc) => wcc,
        Answer::Failed(_, wcc) => wcc,
    }
}

/// Those of the directory in which something is made.
fn directory_wcc(answer: &Answer<Held<CreateSuccess>, WccData>) -> &WccData
    ensures { result.now ≡ of_directory answer.now }
{
    match answer {
        Answer::Done(success) => &success.wcc,
        Answer::Failed(_, wcc) => wcc,
    }
}

/// The attributes of a file after a WRITE.
fn written_wcc(answer: &Answer<WriteSuccess, WccData>) -> &WccData
    ensures { result.now ≡ of_written answer.now }
{
    match answer {
        Answer::Done(success) => &success.wcc,
        Answer::Failed(_, wcc) => wcc,
    }
}

/// Those of a file after a COMMIT.
fn committed_wcc(answer: &Answer<CommitSuccess, WccData>) -> &WccData
    ensures { result.now ≡ of_committed answer.now }
{
    match answer {
        Answer::Done(success) => &success.wcc,
        Answer::Failed(_, wcc) => wcc,
    }
}

/// Those of the two directories after a RENAME.
fn renamed_wcc(answer: &Answer<Held<RenameWcc>, Held<RenameWcc>>) -> &RenameWcc
    ensures { result.now ≡ of_renamed answer.now }
{
    match answer {
        Answer::Done(both) => both,
        Answer::Failed(_, both) => both,
    }
}

/// What there was of the object of the first handle before the call.
fn first_before(reply: &NfsReply) -> Option<&WccAttributes>
    ensures { option_copied result ≡ (of_first reply.now).before }
{
    match reply {
        NfsReply::SetAttr(answer) | NfsReply::Remove(answer) | NfsReply::RmDir(answer) => {
            wcc_of(answer).before.as_ref()
        }
        NfsReply::Create(answer) | NfsReply::MkDir(answer) | NfsReply::SymLink(answer) => {
            directory_wcc(answer).before.as_ref()
        }
        NfsReply::Write(answer) => written_wcc(answer).before.as_ref(),
        NfsReply::Rename(answer) => renamed_wcc(answer).from.before.as_ref(),
        NfsReply::Commit(answer) => committed_wcc(answer).before.as_ref(),
        NfsReply::GetAttr(_)
        | NfsReply::Lookup(_)
        | NfsReply::ReadLink(_)
        | NfsReply::Read(_)
        | NfsReply::ReadDir(_)
        | NfsReply::ReadDirPlus(_) => None,
    }
}

/// The attributes of the object of the first handle, where the call changes nothing.
fn first_seen(reply: &NfsReply) -> Option<&FileAttributes>
    ensures { option_copied result ≡ of_seen reply.now }
{
    match reply {
        NfsReply::GetAttr(Answer::Done(attributes)) => Some(attributes),
        NfsReply::Lookup(Answer::Done(success)) => success.directory_attributes.as_ref(),
        NfsReply::Lookup(Answer::Failed(_, attributes)) => attributes.as_ref(),
        NfsReply::ReadLink(Answer::Done(success)) => success.attributes.as_ref(),
        NfsReply::ReadLink(Answer::Failed(_, attributes)) => attributes.as_ref(),
        NfsReply::Read(Answer::Done(success)) => success.attributes.as_ref(),
        NfsReply::Read(Answer::Failed(_, attributes)) => attributes.as_ref(),
        NfsReply::ReadDir(Answer::Done(success)) => success.attributes.as_ref(),
        NfsReply::ReadDir(Answer::Failed(_, attributes)) => attributes.as_ref(),
        NfsReply::ReadDirPlus(Answer::Done(success)) => success.attributes.as_ref(),
        NfsReply::ReadDirPlus(Answer::Failed(_, attributes)) => attributes.as_ref(),
        _ => None,
    }
}

/// The attributes of the object of the first handle.
fn first_after(reply: &NfsReply) -> Option<&FileAttributes>
    ensures { option_copied result ≡ (of_first reply.now).after }
{
    match reply {
        NfsReply::SetAttr(answer) | NfsReply::Remove(answer) | NfsReply::RmDir(answer) => {
            wcc_of(answer).after.as_ref()
        }
        NfsReply::Create(answer) | NfsReply::MkDir(answer) | NfsReply::SymLink(answer) => {
            directory_wcc(answer).after.as_ref()
        }
        NfsReply::Write(answer) => written_wcc(answer).after.as_ref(),
        NfsReply::Rename(answer) => renamed_wcc(answer).from.after.as_ref(),
        NfsReply::Commit(answer) => committed_wcc(answer).after.as_ref(),
        NfsReply::GetAttr(_)
        | NfsReply::Lookup(_)
        | NfsReply::ReadLink(_)
        | NfsReply::Read(_)
        | NfsReply::ReadDir(_)
        | NfsReply::ReadDirPlus(_) => first_seen(reply),
    }
}

/// The attributes of a RENAME's second directory.
fn second_after(reply: &NfsReply) -> Option<&FileAttributes>
    ensures { option_copied result ≡ (of_second reply.now).after }
{
    match reply {
        NfsReply::Rename(answer) => renamed_wcc(answer).to.after.as_ref(),
        _ => None,
    }
}

/// What there was of it before the call.
fn second_before(reply: &NfsReply) -> Option<&WccAttributes>
    ensures { option_copied result ≡ (of_second reply.now).before }
{
    match reply {
        NfsReply::Rename(answer) => renamed_wcc(answer).to.before.as_ref(),
        _ => None,
    }
}

/// The attributes of what was made, or found where a CREATE may find it.
fn made_attributes(answer: &Answer<Held<CreateSuccess>, WccData>) -> Option<&FileAttributes>
    ensures { option_copied result ≡ of_made answer.now }
{
    match answer {
        Answer::Done(success) => success.attributes.as_ref(),
        Answer::Failed(_, _) => None,
    }
}

/// Those of what was found.
fn found_attributes(
    answer: &Answer<Held<LookupSuccess>, Optional<FileAttributes>>,
) -> Option<&FileAttributes>
    ensures { option_copied result ≡ of_found answer.now }
{
    match answer {
        Answer::Done(success) => success.attributes.as_ref(),
        Answer::Failed(_, _) => None,
    }
}

/// The attributes of what a LOOKUP found, or of the object of a CREATE, a MKDIR or a SYMLINK.
fn answer_after(reply: &NfsReply) -> Option<&FileAttributes>
    ensures { option_copied result ≡ of_answer reply.now }
{
    match reply {
        NfsReply::Lookup(answer) => found_attributes(answer),
        NfsReply::Create(answer) => made_attributes(answer),
        NfsReply::MkDir(answer) => made_attributes(answer),
        NfsReply::SymLink(answer) => made_attributes(answer),
        _ => None,
    }
}

/// The entries of a READDIRPLUS that succeeded; of any other reply there are none.
pub fn entries_of(reply: &NfsReply) -> &[DirectoryEntryPlus]
    ensures { result.now ≡ entries_of reply.now }
{
    match reply {
        NfsReply::ReadDirPlus(Answer::Done(success)) => success.entries.as_slice(),
        _ => &[],
    }
}

/// The attributes of the object of an entry.
fn entry_after(reply: &NfsReply, k: usize) -> Option<&FileAttributes>
    ensures { option_copied result ≡ option_and_then (λ entry. entry.attributes) (slice_get (entries_of reply.now) k) }
{
    match entries_of(reply).get(k) {
        Some(entry) => entry.attributes.as_ref(),
        None => None,
    }
}

/// The type's number and the size.
pub fn type_and_size(attributes: &FileAttributes) -> (u32, u64)
    ensures { result ≡ type_and_size attributes.now }
{
    (attributes.file_type.number(), attributes.size)
}

/// The number of the type (RFC 1813, section 2.6, `ftype3`) and the size of an object after the call, where the
/// reply gives them. It takes no memory.
pub fn post_attr(reply: &NfsReply, role: Role) -> Option<(u32, u64)>
    ensures { result ≡ post_attr reply.now role }
{
    let attributes = match role {
        Role::First => first_after(reply),
        Role::Second => second_after(reply),
        Role::Answer => answer_after(reply),
        Role::Entry(k) => entry_after(reply, k),
    };
    match attributes {
        Some(attributes) => Some(type_and_size(attributes)),
        None => None,
    }
}

/// The size of an object before the call, where the reply gives it. It takes no memory.
pub fn pre_size(reply: &NfsReply, role: Role) -> Option<u64>
    ensures { result ≡ pre_size reply.now role }
{
    let before = match role {
        Role::First => first_before(reply),
        Role::Second => second_before(reply),
        Role::Answer | Role::Entry(_) => None,
    };
    match before {
        Some(before) => Some(before.size),
        None => None,
    }
}
