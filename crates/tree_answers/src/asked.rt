//! What a call speaks of.

ghost use Rattle.std.specs.Prelude.{◌≡◌};
ghost use Rattle.std.specs.Option.{option_copied};
ghost use Rattle.tree_answers.specs.Asked.{first_handle, first_place, second_place, second_handle, is_listing_call, wants_directory, file_wanted, entry_wanted};

use nfs3_types::{DirectoryName, FileHandle, NfsCall};

/// The first handle of a call.
pub fn first_handle(call: &NfsCall) -> &FileHandle
    ensures { result.now ≡ first_handle call.now }
{
    match call {
        NfsCall::GetAttr(object) => object,
        NfsCall::SetAttr(call) => &call.object,
        NfsCall::Lookup(place) => &place.directory,
        NfsCall::ReadLink(link) => link,
        NfsCall::Read(call) => &call.file,
        NfsCall::Write(call) => &call.file,
        NfsCall::Create(call) => &call.place.directory,
        NfsCall::MkDir(call) => &call.place.directory,
        NfsCall::SymLink(call) => &call.place.directory,
        NfsCall::Remove(place) => &place.directory,
        NfsCall::RmDir(place) => &place.directory,
        NfsCall::Rename(call) => &call.from.directory,
        NfsCall::ReadDir(call) => &call.directory,
        NfsCall::ReadDirPlus(call) => &call.directory,
        NfsCall::Commit(call) => &call.file,
    }
}

/// The first place that a call names.
pub fn first_place(call: &NfsCall) -> Option<&DirectoryName>
    ensures { option_copied result ≡ first_place call.now }
{
    match call {
        NfsCall::Lookup(place) => Some(place),
        NfsCall::Create(call) => Some(&call.place),
        NfsCall::MkDir(call) => Some(&call.place),
        NfsCall::SymLink(call) => Some(&call.place),
        NfsCall::Remove(place) => Some(place),
        NfsCall::RmDir(place) => Some(place),
        NfsCall::Rename(call) => Some(&call.from),
        NfsCall::GetAttr(_)
        | NfsCall::SetAttr(_)
        | NfsCall::ReadLink(_)
        | NfsCall::Read(_)
        | NfsCall::Write(_)
        | NfsCall::ReadDir(_)
        | NfsCall::ReadDirPlus(_)
        | NfsCall::Commit(_) => None,
    }
}

/// The second place, of a RENAME.
pub fn second_place(call: &NfsCall) -> Option<&DirectoryName>
    ensures { option_copied result ≡ second_place call.now }
{
    match call {
        NfsCall::Rename(call) => Some(&call.to),
        _ => None,
    }
}

/// The second handle, of a RENAME.
pub fn second_handle(call: &NfsCall) -> Option<&FileHandle>
    ensures { option_copied result ≡ second_handle call.now }
{
    match second_place(call) {
        Some(place) => Some(&place.directory),
        None => None,
    }
}

/// Whether it is a READDIR or a READDIRPLUS.
pub(crate) fn is_listing_call(call: &NfsCall) -> bool
    ensures { result ≡ is_listing_call call.now }
{
    match call {
        NfsCall::ReadDir(_) => true,
        NfsCall::ReadDirPlus(_) => true,
        NfsCall::GetAttr(_)
        | NfsCall::SetAttr(_)
        | NfsCall::Lookup(_)
        | NfsCall::ReadLink(_)
        | NfsCall::Read(_)
        | NfsCall::Write(_)
        | NfsCall::Create(_)
        | NfsCall::MkDir(_)
        | NfsCall::SymLink(_)
        | NfsCall::Remove(_)
        | NfsCall::RmDir(_)
        | NfsCall::Rename(_)
        | NfsCall::Commit(_) => false,
    }
}

/// Whether its first handle has to be a directory's.
pub(crate) fn wants_directory(call: &NfsCall) -> bool
    ensures { result ≡ wants_directory call.now }
{
    first_place(call).is_some() || is_listing_call(call)
}

/// The handle that has to be a file's.
pub(crate) fn file_wanted(call: &NfsCall) -> Option<&FileHandle>
    ensures { option_copied result ≡ file_wanted call.now }
{
    match call {
        NfsCall::Read(call) => Some(&call.file),
        NfsCall::Write(call) => Some(&call.file),
        NfsCall::Commit(call) => Some(&call.file),
        NfsCall::SetAttr(call) => {
            if call.attributes.size.is_some() {
                Some(&call.object)
            } else {
                None
            }
        }
        NfsCall::GetAttr(_)
        | NfsCall::Lookup(_)
        | NfsCall::ReadLink(_)
        | NfsCall::Create(_)
        | NfsCall::MkDir(_)
        | NfsCall::SymLink(_)
        | NfsCall::Remove(_)
        | NfsCall::RmDir(_)
        | NfsCall::Rename(_)
        | NfsCall::ReadDir(_)
        | NfsCall::ReadDirPlus(_) => None,
    }
}

/// The place that has to have an entry.
pub(crate) fn entry_wanted(call: &NfsCall) -> Option<&DirectoryName>
    ensures { option_copied result ≡ entry_wanted call.now }
{
    match call {
        NfsCall::Lookup(place) => Some(place),
        NfsCall::Remove(place) => Some(place),
        NfsCall::RmDir(place) => Some(place),
        NfsCall::Rename(call) => Some(&call.from),
        NfsCall::GetAttr(_)
        | NfsCall::SetAttr(_)
        | NfsCall::ReadLink(_)
        | NfsCall::Read(_)
        | NfsCall::Write(_)
        | NfsCall::Create(_)
        | NfsCall::MkDir(_)
        | NfsCall::SymLink(_)
        | NfsCall::ReadDir(_)
        | NfsCall::ReadDirPlus(_)
        | NfsCall::Commit(_) => None,
    }
}
