//! Successes of the calls that change the tree, and of COMMIT (RFC 1813, sections 3.3.2, 3.3.7 to 3.3.10, 3.3.12 to 3.3.14 and 3.3.21). Each
//! is what the reply would be if the call succeeded: whether it can, the tree says.

use crate::candidates::Site;
use nfs3_types::{
    Answer, CommitSuccess, CreateSuccess, DirectoryName, Held, NfsCall, NfsReply, Optional,
    RenameWcc, Verifier, WccData, WriteArguments, WriteSuccess,
};
use std::alloc::AllocError;
use tree_answers::object_named;
use tree_handles::directory_of;

/// Attributes before and after a call, which a reply may leave out.
pub(crate) fn no_attributes() -> WccData {
    WccData {
        before: Optional::none(),
        after: Optional::none(),
    }
}

/// The same of both directories of a RENAME.
pub(crate) fn no_attributes_of_both(site: &Site<'_>) -> Result<Held<RenameWcc>, AllocError> {
    let both = RenameWcc {
        from: no_attributes(),
        to: no_attributes(),
    };
    Held::new(site.alloc, both)
}

/// The object that has a name behind a call that makes it: the one that has it already, or a new one.
fn object_at(site: &Site<'_>, place: &DirectoryName) -> u64 {
    match directory_of(&site.view, &place.directory) {
        Some(directory) => {
            object_named(site.view.nodes, directory, place.name.as_slice()).unwrap_or(site.object)
        }
        None => site.object,
    }
}

/// What stands behind the status where a name was made.
fn made(site: &Site<'_>, place: &DirectoryName) -> Result<Held<CreateSuccess>, AllocError> {
    let success = CreateSuccess {
        object: site.handle(object_at(site, place))?,
        attributes: Optional::none(),
        wcc: no_attributes(),
    };
    Held::new(site.alloc, success)
}

pub(crate) fn file_made(
    site: &Site<'_>,
    place: &DirectoryName,
) -> Result<Option<NfsReply>, AllocError> {
    let success = made(site, place)?;
    Ok(Some(NfsReply::Create(Answer::Done(success))))
}

pub(crate) fn directory_made(
    site: &Site<'_>,
    place: &DirectoryName,
) -> Result<Option<NfsReply>, AllocError> {
    let success = made(site, place)?;
    Ok(Some(NfsReply::MkDir(Answer::Done(success))))
}

pub(crate) fn link_made(
    site: &Site<'_>,
    place: &DirectoryName,
) -> Result<Option<NfsReply>, AllocError> {
    let success = made(site, place)?;
    Ok(Some(NfsReply::SymLink(Answer::Done(success))))
}

/// All bytes are written.
fn written(call: &WriteArguments) -> NfsReply {
    let success = WriteSuccess {
        wcc: no_attributes(),
        count: call.bytes.as_slice().len() as u32,
        level: call.level,
        verifier: Verifier { value: 0 },
    };
    NfsReply::Write(Answer::Done(success))
}

fn committed() -> NfsReply {
    let success = CommitSuccess {
        wcc: no_attributes(),
        verifier: Verifier { value: 0 },
    };
    NfsReply::Commit(Answer::Done(success))
}

/// Calls whose success tells nothing of the tree.
pub(crate) fn other(site: &Site<'_>, call: &NfsCall) -> Result<Option<NfsReply>, AllocError> {
    let reply = match call {
        NfsCall::SetAttr(_) => NfsReply::SetAttr(Answer::Done(no_attributes())),
        NfsCall::Write(call) => written(call),
        NfsCall::Remove(_) => NfsReply::Remove(Answer::Done(no_attributes())),
        NfsCall::RmDir(_) => NfsReply::RmDir(Answer::Done(no_attributes())),
        NfsCall::Rename(_) => NfsReply::Rename(Answer::Done(no_attributes_of_both(site)?)),
        NfsCall::Commit(_) => committed(),
        _ => return Ok(None),
    };
    Ok(Some(reply))
}
