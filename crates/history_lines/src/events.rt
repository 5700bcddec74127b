//! The events of a history file, one after the other. Nothing is copied, and nothing is kept of those that are read.

ghost use Rattle.std.specs.Prelude.{◌≡◌, ◌+◌, ◌-◌, ◌≤◌, ◌<◌, ℕ, List, length, IfOk, IfErr, OnOk, Some, Err};
ghost use Rattle.tree_starts.specs.declared.object.StartObject.{StartObject};
ghost use Rattle.tree_starts.specs.declared.profile.Profile.{Profile};

use crate::items::{count, event, fault_of, object_count, objects, opaque, profile};
use history_file::{FileFault, HISTORY_LIMIT, SeenEvent, Version, version_of};
use nfs3_types::HANDLE_LIMIT;
use std::alloc::Global;
use tree_starts::{Profile, SeenStart};
use xdr_records::Reader;

/// What of a history file is still unread.
#[derive(Clone, Copy)]
pub struct UnreadEvents<'a> {
    rest: &'a [u8],
    /// How many events are read.
    read: u64,
    /// How many calls are among them.
    calls: u64,
    /// How many events there are.
    count: u64,
    ghost in_count: { read ≤ count },
    ghost among_them: { calls ≤ read },
}

/// What stands before the events of a history file, and its events, which are unread.
#[derive(Drop)]
pub struct BegunFile<'a> {
    /// What the server held at first.
    pub start: SeenStart<'a>,
    /// How strictly its replies are judged.
    pub profile: Profile,
    /// Its events.
    pub unread: UnreadEvents<'a>,
}

fn is_call(event: &SeenEvent<'_>) -> bool {
    matches!(event, SeenEvent::Call { .. })
}

impl<'a> BegunFile<'a> {
    ghost use Rattle.history_file.specs.FileFaults.{IsFileFault};
    ghost use Rattle.history_file.specs.FileReading.{version_of};
    ghost use Rattle.history_lines.specs.Left.{body_of, IsBegun, IsLeft, IsErrorIn};

    /// What is unread of a file of version 1 after its magic.
    fn in_first(alloc: Global, body: &'a [u8]) -> Result<BegunFile<'a>, FileFault>
        ensures found { IfOk result (λ b. IsBegun Version.First body.now b.start b.profile b.unread.count b.unread.rest.now × (b.unread.read ≡ 0)) }
        ensures fault { IsErrorIn (Some Version.First) (λ fault. body_of Version.First body.now ≡ Err fault) result }
    {
        let mut reader = Reader::new(body);
        opaque(&mut reader, HANDLE_LIMIT as u32)?;
        let count = count(&mut reader)?;
        Ok(BegunFile {
            start: SeenStart::empty(alloc),
            profile: Profile::Plain,
            unread: UnreadEvents::ahead(&reader, count),
        })
    }

    /// What is unread of a file of version 2 after its magic.
    fn in_second(alloc: Global, body: &'a [u8]) -> Result<BegunFile<'a>, FileFault>
        ensures found { IfOk result (λ b. IsBegun Version.Second body.now b.start b.profile b.unread.count b.unread.rest.now × (b.unread.read ≡ 0)) }
        ensures fault { IsErrorIn (Some Version.Second) (λ fault. body_of Version.Second body.now ≡ Err fault) result }
    {
        let mut reader = Reader::new(body);
        opaque(&mut reader, HANDLE_LIMIT as u32)?;
        let profile = profile(&mut reader)?;
        let number = object_count(&mut reader)?;
        let start = objects(alloc, &mut reader, number)?;
        let count = count(&mut reader)?;
        Ok(BegunFile {
            start,
            profile,
            unread: UnreadEvents::ahead(&reader, count),
        })
    }

    fn in_body(alloc: Global, version: Version, body: &'a [u8]) -> Result<BegunFile<'a>, FileFault>
        ensures found { IfOk result (λ b. IsBegun version body.now b.start b.profile b.unread.count b.unread.rest.now × (b.unread.read ≡ 0)) }
        ensures fault { IsErrorIn (Some version) (λ fault. body_of version body.now ≡ Err fault) result }
    {
        match version {
            Version::First => BegunFile::in_first(alloc, body),
            Version::Second => BegunFile::in_second(alloc, body),
        }
    }

    /// Ahead of the first event of a file.
    pub fn of_file(alloc: Global, bytes: &'a [u8]) -> Result<BegunFile<'a>, FileFault>
        ensures found { IfOk result (λ b. IsLeft bytes.now b.start b.profile b.unread) }
        ensures first { IfOk result (λ b. b.unread.read ≡ 0) }
        // Only a start takes memory.
        ensures fault { IsErrorIn (version_of bytes.now) (IsFileFault bytes.now) result }
    {
        let Some(version) = version_of(bytes) else {
            return Err(FileFault::BadMagic);
        };
        if bytes.len() > HISTORY_LIMIT {
            return Err(FileFault::TooLarge);
        }
        BegunFile::in_body(alloc, version, &bytes[8..])
    }
}

impl<'a> UnreadEvents<'a> {
    ghost use Rattle.history_file.specs.FileFaults.{IsFileFault};
    ghost use Rattle.history_lines.specs.Left.{IsLeft, IsWhole};

    /// The events, of this number, which stand here.
    fn ahead(reader: &Reader<'a>, count: u32) -> UnreadEvents<'a>
        ensures count { result.count ≡ count }
        ensures rest { result.rest.now ≡ reader.now.rest }
        ensures none { result.read ≡ 0 }
    {
        UnreadEvents {
            rest: reader.rest(),
            read: 0,
            calls: 0,
            count: u64::from(count),
        }
    }

    /// The number of the last event that was read.
    pub fn read(&self) -> u64
        ensures { result ≡ self.now.read }
    {
        self.read
    }

    /// The number of the last call that was read.
    pub fn calls(&self) -> u64 {
        self.calls
    }

    /// How many bytes of the file are left.
    pub fn left_bytes(&self) -> u64
        ensures { result ≡ length self.now.rest.now }
    {
        self.rest.len() as u64
    }

    /// How many events are left.
    pub fn left(&self) -> u64
        ensures { result ≡ self.now.count - self.now.read }
    {
        self.count - self.read
    }

    /// The next event. At an error it stands where it stood.
    pub fn next(&mut self) -> Result<SeenEvent<'a>, FileFault>
        requires { self.old.read < self.old.count }
        ensures goes_on { OnOk result ((bytes : List ℕ) (start : List StartObject) (profile : Profile) → IsLeft bytes start profile self.old → IsLeft bytes start profile self.new) }
        ensures fault { IfErr result (λ fault. (bytes : List ℕ) (start : List StartObject) (profile : Profile) → IsLeft bytes start profile self.old → IsFileFault bytes fault) }
        ensures one { OnOk result (self.new.count - self.new.read < self.old.count - self.old.read) }
        ensures step { OnOk result (self.new.read ≡ self.old.read + 1) }
    {
        let mut reader = Reader::new(self.rest);
        let event = event(&mut reader, self.read + 1)?;
        self.rest = reader.rest();
        self.read += 1;
        self.calls += u64::from(is_call(&event));
        Ok(event)
    }

    /// Whether nothing stands behind the last event, where it is read.
    pub fn ended(&self) -> Result<(), FileFault>
        requires { self.now.count ≤ self.now.read }
        ensures ok { OnOk result ((bytes : List ℕ) (start : List StartObject) (profile : Profile) → IsLeft bytes start profile self.now → IsWhole bytes) }
        ensures fault { IfErr result (λ fault. (bytes : List ℕ) (start : List StartObject) (profile : Profile) → IsLeft bytes start profile self.now → IsFileFault bytes fault) }
    {
        match Reader::new(self.rest).done() {
            Ok(()) => Ok(()),
            Err(fault) => Err(fault_of(fault)),
        }
    }
}
