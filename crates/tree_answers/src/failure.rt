//! Which failures are permitted (RFC 1813, section 2.6 and section 3.3, by procedure).

ghost use Rattle.std.specs.Prelude.{◌≡◌};
ghost use Rattle.std.specs.List.{list_any};
ghost use Rattle.tree_answers.specs.Failure.{same_status, row, causes, is_judged_status, is_caused_by, is_permitted};

use crate::asked::is_listing_call;
use crate::handle_causes::{
    file_is_directory, file_is_link, handle_isnt_live, handle_of_no_directory, readlink_of_no_link,
};
use crate::name_causes::{
    create_over_directory, listing_with_cookie, name_has_odd_byte, name_is_absent, name_is_present,
    name_isnt_plain, remove_of_directory, rmdir_of_filled_directory, rmdir_of_no_directory,
    setattr_with_guard,
};
use crate::rename_causes::{
    rename_below_itself, rename_onto_directory, rename_onto_filled_directory,
    rename_onto_no_directory,
};
use nfs3_types::{Failure, NfsCall};
use tree_handles::View;

/// Why a call may fail.
#[derive(Clone, Copy, PartialEq, Eq)]
pub enum Cause {
    /// A handle isn't live.
    HandleIsntLive,
    /// A live handle isn't that of the directory that it has to be.
    HandleOfNoDirectory,
    /// READLINK of a file or a directory.
    ReadLinkOfNoLink,
    /// What has to be a file is a directory.
    FileIsDirectory,
    /// What has to be a file is a link.
    FileIsLink,
    /// A name that has to be an entry is none.
    NameIsAbsent,
    /// A name that would be made is an entry.
    NameIsPresent,
    /// An unchecked CREATE of a name that a directory has.
    CreateOverDirectory,
    /// REMOVE of a name that a directory has.
    RemoveOfDirectory,
    /// RMDIR of a name that a file or a link has.
    RmDirOfNoDirectory,
    /// RMDIR of a directory that isn't empty.
    RmDirOfFilledDirectory,
    /// Of a directory.
    RenameOntoNoDirectory,
    /// Of no directory.
    RenameOntoDirectory,
    /// Of anything else.
    RenameOntoFilledDirectory,
    /// Of a directory.
    RenameBelowItself,
    /// A name is empty, `.` or `..`.
    NameIsntPlain,
    /// A name holds byte 0, a slash or a byte above 127.
    NameHasOddByte,
    /// SETATTR with a guard.
    SetAttrWithGuard,
    /// READDIR or READDIRPLUS with a cookie other than 0.
    ListingWithCookie,
    /// READDIR or READDIRPLUS.
    AnyListing,
}

/// Whether a status is one of these.
fn is_one_of(failure: Failure, statuses: &[Failure]) -> bool
    ensures { result ≡ list_any (same_status failure) statuses.now }
{
    for status in statuses {
        if failure.number() == status.number() {
            return true;
        }
    }
    false
}

/// Whether a status stands beside a name that can't be an entry's.
fn stands_beside_odd_names(failure: Failure) -> bool
    ensures { result ≡ list_any (same_status failure) (row Cause.NameIsntPlain).statuses }
{
    is_one_of(
        failure,
        &[
            Failure::Invalid,
            Failure::Exists,
            Failure::NoEntry,
            Failure::IsDirectory,
            Failure::NotEmpty,
        ],
    )
}

/// Whether a status stands beside a cause.
fn gives(cause: Cause, failure: Failure) -> bool
    ensures { result ≡ list_any (same_status failure) (row cause).statuses }
{
    match cause {
        Cause::HandleIsntLive => is_one_of(failure, &[Failure::Stale, Failure::BadHandle]),
        Cause::HandleOfNoDirectory => is_one_of(failure, &[Failure::NotDirectory]),
        Cause::ReadLinkOfNoLink => is_one_of(failure, &[Failure::Invalid]),
        Cause::FileIsDirectory => is_one_of(failure, &[Failure::IsDirectory, Failure::Invalid]),
        Cause::FileIsLink => is_one_of(failure, &[Failure::Invalid]),
        Cause::NameIsAbsent => is_one_of(failure, &[Failure::NoEntry]),
        Cause::NameIsPresent => is_one_of(failure, &[Failure::Exists]),
        Cause::CreateOverDirectory => is_one_of(failure, &[Failure::IsDirectory]),
        Cause::RemoveOfDirectory => is_one_of(failure, &[Failure::IsDirectory, Failure::Invalid]),
        Cause::RmDirOfNoDirectory => is_one_of(failure, &[Failure::NotDirectory]),
        Cause::RmDirOfFilledDirectory => is_one_of(failure, &[Failure::NotEmpty, Failure::Exists]),
        Cause::RenameOntoNoDirectory => is_one_of(
            failure,
            &[Failure::Exists, Failure::NotDirectory],
        ),
        Cause::RenameOntoDirectory => is_one_of(failure, &[Failure::Exists, Failure::IsDirectory]),
        Cause::RenameOntoFilledDirectory => is_one_of(
            failure,
            &[Failure::NotEmpty, Failure::Exists],
        ),
        Cause::RenameBelowItself => is_one_of(failure, &[Failure::Invalid]),
        Cause::NameIsntPlain => stands_beside_odd_names(failure),
        Cause::NameHasOddByte => is_one_of(failure, &[Failure::Invalid]),
        Cause::SetAttrWithGuard => is_one_of(failure, &[Failure::NotSynchronized]),
        Cause::ListingWithCookie => is_one_of(failure, &[Failure::BadCookie]),
        Cause::AnyListing => is_one_of(failure, &[Failure::TooSmall]),
    }
}

/// Whether a cause holds where a call is made, whatever its reply.
pub fn holds(view: &View<'_>, call: &NfsCall, cause: Cause) -> bool
    ensures { result ≡ (row cause).holds view.now.binds.now view.now.nodes.now call.now }
{
    match cause {
        Cause::HandleIsntLive => handle_isnt_live(view, call),
        Cause::HandleOfNoDirectory => handle_of_no_directory(view, call),
        Cause::ReadLinkOfNoLink => readlink_of_no_link(view, call),
        Cause::FileIsDirectory => file_is_directory(view, call),
        Cause::FileIsLink => file_is_link(view, call),
        Cause::NameIsAbsent => name_is_absent(view, call),
        Cause::NameIsPresent => name_is_present(view, call),
        Cause::CreateOverDirectory => create_over_directory(view, call),
        Cause::RemoveOfDirectory => remove_of_directory(view, call),
        Cause::RmDirOfNoDirectory => rmdir_of_no_directory(view, call),
        Cause::RmDirOfFilledDirectory => rmdir_of_filled_directory(view, call),
        Cause::RenameOntoNoDirectory => rename_onto_no_directory(view, call),
        Cause::RenameOntoDirectory => rename_onto_directory(view, call),
        Cause::RenameOntoFilledDirectory => rename_onto_filled_directory(view, call),
        Cause::RenameBelowItself => rename_below_itself(view, call),
        Cause::NameIsntPlain => name_isnt_plain(call),
        Cause::NameHasOddByte => name_has_odd_byte(call),
        Cause::SetAttrWithGuard => setattr_with_guard(call),
        Cause::ListingWithCookie => listing_with_cookie(call),
        Cause::AnyListing => is_listing_call(call),
    }
}

/// Whether a cause holds that a status stands beside.
pub fn is_caused_by(view: &View<'_>, call: &NfsCall, failure: Failure, cause: Cause) -> bool
    ensures { result ≡ is_caused_by view.now.binds.now view.now.nodes.now call.now failure cause }
{
    if gives(cause, failure) {
        holds(view, call, cause)
    } else {
        false
    }
}

/// Whether one of these causes does.
fn is_caused_by_any(view: &View<'_>, call: &NfsCall, failure: Failure, causes: &[Cause]) -> bool
    ensures { result ≡ list_any (is_caused_by view.now.binds.now view.now.nodes.now call.now failure) causes.now }
{
    for cause in causes {
        if is_caused_by(view, call, failure, *cause) {
            return true;
        }
    }
    false
}

/// The causes, in the table's order.
pub fn causes() -> [Cause; 20]
    ensures { result ≡ causes }
{
    [
        Cause::HandleIsntLive,
        Cause::HandleOfNoDirectory,
        Cause::ReadLinkOfNoLink,
        Cause::FileIsDirectory,
        Cause::FileIsLink,
        Cause::NameIsAbsent,
        Cause::NameIsPresent,
        Cause::CreateOverDirectory,
        Cause::RemoveOfDirectory,
        Cause::RmDirOfNoDirectory,
        Cause::RmDirOfFilledDirectory,
        Cause::RenameOntoNoDirectory,
        Cause::RenameOntoDirectory,
        Cause::RenameOntoFilledDirectory,
        Cause::RenameBelowItself,
        Cause::NameIsntPlain,
        Cause::NameHasOddByte,
        Cause::SetAttrWithGuard,
        Cause::ListingWithCookie,
        Cause::AnyListing,
    ]
}

/// Whether any cause does.
fn is_caused(view: &View<'_>, call: &NfsCall, failure: Failure) -> bool
    ensures { result ≡ list_any (is_caused_by view.now.binds.now view.now.nodes.now call.now failure) causes }
{
    is_caused_by_any(view, call, failure, &causes())
}

/// Whether a status may answer only beside a cause. Every other one may answer any call.
pub fn is_judged_status(failure: Failure) -> bool
    ensures { result ≡ is_judged_status failure }
{
    is_one_of(
        failure,
        &[
            Failure::NoEntry,
            Failure::Exists,
            Failure::NotDirectory,
            Failure::IsDirectory,
            Failure::NotEmpty,
            Failure::Stale,
            Failure::BadHandle,
            Failure::NotSynchronized,
            Failure::BadCookie,
            Failure::TooSmall,
        ],
    )
}

/// Whether a call may fail with a status.
pub fn is_permitted(view: &View<'_>, call: &NfsCall, failure: Failure) -> bool
    ensures { result ≡ is_permitted view.now.binds.now view.now.nodes.now call.now failure }
{
    if is_judged_status(failure) {
        is_caused(view, call, failure)
    } else {
        true
    }
}
