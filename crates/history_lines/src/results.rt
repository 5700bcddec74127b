//! What the reply to a call of a judged procedure gives, in words.

use crate::names::{level_name, status_name, type_name};
use crate::text::Text;
use nfs3_types::{
    Answer, CommitSuccess, CreateSuccess, DirectoryEntry, DirectoryEntryPlus, FileAttributes,
    LookupSuccess, NfsReply, Optional, ReadDirPlusSuccess, ReadDirSuccess, ReadLinkSuccess,
    ReadSuccess, WriteSuccess,
};
use std::alloc::AllocError;

/// Appends a status by its name, or by its number where it has none.
pub(crate) fn add_status(text: &mut Text<'_>, number: u32) {
    match status_name(number) {
        Some(name) => {
            text.add_words(" ");
            text.add_words(name);
        }
        None => text.add_number(" status ", u64::from(number)),
    }
}

/// Appends the attributes of an object.
fn add_attributes(text: &mut Text<'_>, attributes: &FileAttributes) {
    text.add_words(" ");
    text.add_words(type_name(attributes.file_type));
    text.add_octal(" mode 0", attributes.mode);
    text.add_number(" links ", u64::from(attributes.link_count));
    text.add_number(" user ", u64::from(attributes.user));
    text.add_number(" group ", u64::from(attributes.group));
    text.add_number(" size ", attributes.size);
    text.add_number(" fileid ", attributes.file_number);
}

/// Appends the attributes of an object, where they are there.
fn add_if_there(text: &mut Text<'_>, attributes: &Optional<FileAttributes>) {
    if let Some(attributes) = attributes.as_ref() {
        add_attributes(text, attributes);
    }
}

fn add_lookup(text: &mut Text<'_>, success: &LookupSuccess) {
    text.add_handle(" object ", success.object.as_slice());
    add_if_there(text, &success.attributes);
}

fn add_readlink(text: &mut Text<'_>, success: &ReadLinkSuccess) {
    text.add_quoted(" target ", success.target.as_slice());
}

/// Appends whether a list or a file ends here.
fn add_end(text: &mut Text<'_>, eof: bool) {
    if eof {
        text.add_words(" eof");
    }
}

fn add_read(text: &mut Text<'_>, success: &ReadSuccess) {
    text.add_number(" count ", u64::from(success.count));
    add_end(text, success.eof);
    text.add_bytes(" data ", success.bytes.as_slice());
}

fn add_write(text: &mut Text<'_>, success: &WriteSuccess) {
    text.add_number(" count ", u64::from(success.count));
    text.add_words(" ");
    text.add_words(level_name(success.level));
    text.add_long(" verifier ", success.verifier.value);
}

fn add_create(text: &mut Text<'_>, success: &CreateSuccess) {
    match &success.object {
        Some(object) => text.add_handle(" object ", object.as_slice()),
        None => text.add_words(" no object"),
    }
    add_if_there(text, &success.attributes);
}

fn add_entry(text: &mut Text<'_>, entry: &DirectoryEntry) {
    text.add_name(" ", entry.name.as_slice());
}

fn add_entry_plus(text: &mut Text<'_>, entry: &DirectoryEntryPlus) {
    text.add_name(" ", entry.name.as_slice());
    if let Some(object) = &entry.object {
        text.add_handle(" object ", object.as_slice());
    }
}

fn add_readdir(text: &mut Text<'_>, success: &ReadDirSuccess) {
    let entries = success.entries.as_slice();
    text.add_number(" entries ", entries.len() as u64);
    for entry in entries {
        add_entry(text, entry);
    }
    add_end(text, success.eof);
}

fn add_readdirplus(text: &mut Text<'_>, success: &ReadDirPlusSuccess) {
    let entries = success.entries.as_slice();
    text.add_number(" entries ", entries.len() as u64);
    for entry in entries {
        add_entry_plus(text, entry);
    }
    add_end(text, success.eof);
}

/// Appends what a successful reply gives.
fn add_success(text: &mut Text<'_>, reply: &NfsReply) {
    match reply {
        NfsReply::GetAttr(Answer::Done(attributes)) => add_attributes(text, attributes),
        NfsReply::Lookup(Answer::Done(success)) => add_lookup(text, success),
        NfsReply::ReadLink(Answer::Done(success)) => add_readlink(text, success),
        NfsReply::Read(Answer::Done(success)) => add_read(text, success),
        NfsReply::Write(Answer::Done(success)) => add_write(text, success),
        NfsReply::Create(Answer::Done(success))
        | NfsReply::MkDir(Answer::Done(success))
        | NfsReply::SymLink(Answer::Done(success)) => add_create(text, success),
        NfsReply::ReadDir(Answer::Done(success)) => add_readdir(text, success),
        NfsReply::ReadDirPlus(Answer::Done(success)) => add_readdirplus(text, success),
        NfsReply::Commit(Answer::Done(success)) => {
            text.add_long(" verifier ", success.verifier.value);
        }
        _ => {}
    }
}

/// Appends the status of a reply, and what it gives.
pub(crate) fn add_result(text: &mut Text<'_>, reply: &NfsReply) {
    match reply.failure() {
        Some(failure) => add_status(text, failure.number()),
        None => {
            add_status(text, 0);
            add_success(text, reply);
        }
    }
}

/// Appends the status of a reply, and what it gives.
pub fn push_result(text: &mut Text<'_>, reply: &NfsReply) -> Result<(), AllocError> {
    add_result(text, reply);
    text.whole()
}
