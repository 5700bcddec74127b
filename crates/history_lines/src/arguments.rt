//! What a call of a judged procedure asks, in words.

use crate::names::level_name;
use crate::text::Text;
use nfs3_types::{
    CreateArguments, CreateMode, DirectoryName, MkDirArguments, NfsCall, ReadDirArguments,
    ReadDirPlusArguments, SetAttrArguments, SetAttributes, SetTime, SymLinkArguments, Time,
    WriteArguments,
};
use std::alloc::AllocError;

/// Appends a moment, as seconds and nanoseconds.
fn add_time(text: &mut Text<'_>, words: &str, time: Time) {
    text.add_number(words, u64::from(time.seconds));
    text.add_number(" s ", u64::from(time.nanoseconds));
    text.add_words(" ns");
}

/// Appends how a time is set, where it is.
fn add_set_time(text: &mut Text<'_>, words: &str, time: SetTime) {
    match time {
        SetTime::Keep => {}
        SetTime::ServerTime => {
            text.add_words(words);
            text.add_words("SET_TO_SERVER_TIME");
        }
        SetTime::ClientTime(time) => add_time(text, words, time),
    }
}

/// Appends a number, where it is there.
fn add_optional(text: &mut Text<'_>, words: &str, number: Option<u64>) {
    if let Some(number) = number {
        text.add_number(words, number);
    }
}

/// Appends the attributes that are set.
fn add_set_attributes(text: &mut Text<'_>, set: &SetAttributes) {
    if let Some(mode) = set.mode {
        text.add_octal(" mode 0", mode);
    }
    add_optional(text, " user ", set.user.map(u64::from));
    add_optional(text, " group ", set.group.map(u64::from));
    add_optional(text, " size ", set.size);
    add_set_time(text, " access time ", set.access_time);
    add_set_time(text, " modify time ", set.modify_time);
}

/// Appends a name in a directory.
fn add_place(text: &mut Text<'_>, words: &str, place: &DirectoryName) {
    text.add_handle(words, place.directory.as_slice());
    text.add_name(" name ", place.name.as_slice());
}

fn add_setattr(text: &mut Text<'_>, call: &SetAttrArguments) {
    text.add_handle(" object ", call.object.as_slice());
    add_set_attributes(text, &call.attributes);
    if let Some(guard) = call.guard {
        add_time(text, " guard ", guard);
    }
}

/// Appends which bytes of a file are meant.
fn add_range(text: &mut Text<'_>, offset: u64, count: u32) {
    text.add_number(" offset ", offset);
    text.add_number(" count ", u64::from(count));
}

fn add_write(text: &mut Text<'_>, call: &WriteArguments) {
    text.add_handle(" file ", call.file.as_slice());
    add_range(text, call.offset, call.count);
    text.add_words(" ");
    text.add_words(level_name(call.level));
    text.add_bytes(" data ", call.bytes.as_slice());
}

fn add_create(text: &mut Text<'_>, call: &CreateArguments) {
    add_place(text, " directory ", &call.place);
    match &call.mode {
        CreateMode::Unchecked(attributes) => {
            text.add_words(" UNCHECKED");
            add_set_attributes(text, attributes);
        }
        CreateMode::Guarded(attributes) => {
            text.add_words(" GUARDED");
            add_set_attributes(text, attributes);
        }
        CreateMode::Exclusive(verifier) => text.add_long(" EXCLUSIVE verifier ", verifier.value),
    }
}

fn add_mkdir(text: &mut Text<'_>, call: &MkDirArguments) {
    add_place(text, " directory ", &call.place);
    add_set_attributes(text, &call.attributes);
}

fn add_symlink(text: &mut Text<'_>, call: &SymLinkArguments) {
    add_place(text, " directory ", &call.place);
    text.add_quoted(" target ", call.target.as_slice());
    add_set_attributes(text, &call.attributes);
}

fn add_readdir(text: &mut Text<'_>, call: &ReadDirArguments) {
    text.add_handle(" directory ", call.directory.as_slice());
    text.add_number(" cookie ", call.cookie);
    text.add_long(" verifier ", call.verifier.value);
    text.add_number(" count ", u64::from(call.count));
}

fn add_readdirplus(text: &mut Text<'_>, call: &ReadDirPlusArguments) {
    text.add_handle(" directory ", call.directory.as_slice());
    text.add_number(" cookie ", call.cookie);
    text.add_long(" verifier ", call.verifier.value);
    text.add_number(" dircount ", u64::from(call.directory_count));
    text.add_number(" maxcount ", u64::from(call.whole_count));
}

/// Appends the arguments of a call.
pub(crate) fn add_arguments(text: &mut Text<'_>, call: &NfsCall) {
    match call {
        NfsCall::GetAttr(object) => text.add_handle(" object ", object.as_slice()),
        NfsCall::SetAttr(call) => add_setattr(text, call),
        NfsCall::Lookup(place) | NfsCall::Remove(place) | NfsCall::RmDir(place) => {
            add_place(text, " directory ", place);
        }
        NfsCall::ReadLink(link) => text.add_handle(" link ", link.as_slice()),
        NfsCall::Read(call) => {
            text.add_handle(" file ", call.file.as_slice());
            add_range(text, call.offset, call.count);
        }
        NfsCall::Write(call) => add_write(text, call),
        NfsCall::Create(call) => add_create(text, call),
        NfsCall::MkDir(call) => add_mkdir(text, call),
        NfsCall::SymLink(call) => add_symlink(text, call),
        NfsCall::Rename(call) => {
            add_place(text, " from directory ", &call.from);
            add_place(text, " to directory ", &call.to);
        }
        NfsCall::ReadDir(call) => add_readdir(text, call),
        NfsCall::ReadDirPlus(call) => add_readdirplus(text, call),
        NfsCall::Commit(call) => {
            text.add_handle(" file ", call.file.as_slice());
            add_range(text, call.offset, call.count);
        }
    }
}

/// Appends the arguments of a call.
pub fn push_arguments(text: &mut Text<'_>, call: &NfsCall) -> Result<(), AllocError> {
    add_arguments(text, call);
    text.whole()
}
