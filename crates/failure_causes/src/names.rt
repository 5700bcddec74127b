//! Causes by name.

use tree_answers::Cause;

/// The name of a cause, as reports have it.
pub fn cause_name(cause: Cause) -> &'static str {
    match cause {
        Cause::HandleIsntLive => "HandleIsntLive",
        Cause::HandleOfNoDirectory => "HandleOfNoDirectory",
        Cause::ReadLinkOfNoLink => "ReadLinkOfNoLink",
        Cause::FileIsDirectory => "FileIsDirectory",
        Cause::FileIsLink => "FileIsLink",
        Cause::NameIsAbsent => "NameIsAbsent",
        Cause::NameIsPresent => "NameIsPresent",
        Cause::CreateOverDirectory => "CreateOverDirectory",
        Cause::RemoveOfDirectory => "RemoveOfDirectory",
        Cause::RmDirOfNoDirectory => "RmDirOfNoDirectory",
        Cause::RmDirOfFilledDirectory => "RmDirOfFilledDirectory",
        Cause::RenameOntoNoDirectory => "RenameOntoNoDirectory",
        Cause::RenameOntoDirectory => "RenameOntoDirectory",
        Cause::RenameOntoFilledDirectory => "RenameOntoFilledDirectory",
        Cause::RenameBelowItself => "RenameBelowItself",
        Cause::NameIsntPlain => "NameIsntPlain",
        Cause::NameHasOddByte => "NameHasOddByte",
        Cause::SetAttrWithGuard => "SetAttrWithGuard",
        Cause::ListingWithCookie => "ListingWithCookie",
        Cause::AnyListing => "AnyListing",
    }
}
