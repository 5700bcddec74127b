//! What stands behind `NFS3_OK`.

use nfs3_types::{
    Answer, DirectoryEntry, DirectoryEntryPlus, FileAttributes, LookupSuccess, NfsReply,
    ReadLinkSuccess, ReadSuccess,
};

fn done<S, F>(answer: &Answer<S, F>) -> Option<&S> {
    match answer {
        Answer::Done(success) => Some(success),
        Answer::Failed(_, _) => None,
    }
}

pub(crate) fn attributes_told(reply: &NfsReply) -> Option<FileAttributes> {
    match reply {
        NfsReply::GetAttr(answer) => match done(answer) {
            Some(attributes) => Some(**attributes),
            None => None,
        },
        _ => None,
    }
}

pub(crate) fn lookup_told(reply: &NfsReply) -> Option<&LookupSuccess> {
    match reply {
        NfsReply::Lookup(answer) => match done(answer) {
            Some(success) => Some(&**success),
            None => None,
        },
        _ => None,
    }
}

pub(crate) fn bytes_told(reply: &NfsReply) -> Option<&ReadSuccess> {
    match reply {
        NfsReply::Read(answer) => done(answer),
        _ => None,
    }
}

pub(crate) fn text_told(reply: &NfsReply) -> Option<&ReadLinkSuccess> {
    match reply {
        NfsReply::ReadLink(answer) => done(answer),
        _ => None,
    }
}

pub(crate) fn entries_told(reply: &NfsReply) -> Option<&[DirectoryEntry]> {
    match reply {
        NfsReply::ReadDir(answer) => match done(answer) {
            Some(success) => Some(success.entries.as_slice()),
            None => None,
        },
        _ => None,
    }
}

pub(crate) fn entries_plus_told(reply: &NfsReply) -> Option<&[DirectoryEntryPlus]> {
    match reply {
        NfsReply::ReadDirPlus(answer) => match done(answer) {
            Some(success) => Some(success.entries.as_slice()),
            None => None,
        },
        _ => None,
    }
}
