//! Calls that come by chance.

ghost use Rattle.std.specs.Prelude.{◌≤◌, length};

use crate::messages::bytes_of;
use crate::random::Random;
use crate::soak::known::Known;
use client_calls::{
    Creation, commit, create, get_attributes, look_up, make_directory, make_link, plain_call, read,
    read_directory, read_directory_plus, read_link, remove, remove_directory, rename, set_size,
    write,
};
use nfs3_types::{FileType, StableHow};
use std::alloc::{AllocError, Global};

/// The numbers of NULL, ACCESS, MKNOD, LINK, FSSTAT, FSINFO and PATHCONF, one that is no procedure's, and that of GETATTR, which is called
/// without arguments: calls that are in no history.
const UNJUDGED: [u32; 9] = [0, 4, 11, 15, 18, 19, 20, 22, 1];

// A name, now and then one that no entry has.
fn name_of(pick: u64) -> &'static [u8]
    ensures { length result.now ≤ 2 }
{
    match pick {
        0 => b".".as_slice(),
        1 => b"..".as_slice(),
        2 => b"".as_slice(),
        3 => b"/".as_slice(),
        4..=9 => b"a".as_slice(),
        10..=14 => b"b".as_slice(),
        15..=19 => b"c".as_slice(),
        20..=24 => b"d".as_slice(),
        _ => b"e".as_slice(),
    }
}

// How many names there are to pick from, with those that come more often.
const PICKS: u64 = 30;

fn level_of(pick: u64) -> StableHow {
    match pick {
        0 => StableHow::FileSync,
        1 => StableHow::DataSync,
        _ => StableHow::Unstable,
    }
}

fn creation_of(pick: u64) -> Creation {
    match pick {
        0 => Creation::Guarded(None),
        1 => Creation::Exclusive(1),
        2 => Creation::Exclusive(2),
        3 => Creation::Unchecked(Some(5)),
        _ => Creation::Unchecked(None),
    }
}

/// One client's way to ask.
#[derive(Clone, Copy)]
pub struct Asker<'k> {
    /// Where memory is taken from.
    pub alloc: Global,
    /// The objects that clients know of.
    pub known: &'k Known,
    /// What it picks by.
    pub random: Random,
    /// The transaction number of its last call.
    pub xid: u32,
    /// The server's device may fail.
    pub device_fails: bool,
}

impl<'k> Asker<'k> {
    // An object of a kind, now and then one of another, or one that never was.
    fn object(&mut self, kind: FileType) -> u64 {
        let kind = match self.random.below(16) {
            0 => FileType::Directory,
            1 => FileType::Regular,
            2 => FileType::SymbolicLink,
            _ => kind,
        };
        match self.random.below(40) {
            0 => 1_000_000,
            _ => self.known.one(&mut self.random, kind),
        }
    }

    // A directory, mostly the root.
    fn directory(&mut self) -> u64 {
        match self.random.below(3) {
            0 => self.object(FileType::Directory),
            _ => 0,
        }
    }

    // A call on a name in a directory.
    fn ask_by_name(&mut self) -> Result<Vec<u8>, AllocError> {
        let (alloc, xid) = (self.alloc, self.xid);
        let (directory, other) = (self.directory(), self.directory());
        let random = &mut self.random;
        let name = name_of(random.below(PICKS));
        match random.below(36) {
            0..=11 => create(alloc, xid, directory, name, creation_of(random.below(10))),
            12 | 13 => make_link(alloc, xid, directory, name, bytes_of(random.below(20))),
            14..=19 => {
                let to = name_of(random.below(PICKS));
                rename(alloc, xid, (directory, name), (other, to))
            }
            20..=23 => make_directory(alloc, xid, directory, name),
            24..=27 => look_up(alloc, xid, directory, name),
            28 | 29 => remove_directory(alloc, xid, directory, name),
            _ => remove(alloc, xid, directory, name),
        }
    }

    // A call on a file or a link.
    fn ask_by_handle(&mut self) -> Result<Vec<u8>, AllocError> {
        let (alloc, xid) = (self.alloc, self.xid);
        let file = self.object(FileType::Regular);
        let link = self.object(FileType::SymbolicLink);
        let random = &mut self.random;
        let (place, count) = (random.below(120), random.below(100));
        match random.below(48) {
            0..=5 => get_attributes(alloc, xid, file),
            6..=11 => read_link(alloc, xid, link),
            12 | 13 => set_size(alloc, xid, file, None),
            14..=17 => set_size(alloc, xid, file, Some(count)),
            18..=23 => commit(alloc, xid, file, place, count as u32),
            24..=35 => read(alloc, xid, file, place, count as u32),
            _ => {
                let level = level_of(random.below(12));
                let offset = if random.below(60) == 0 {
                    20_000_000
                } else {
                    place
                };
                write(alloc, xid, file, offset, level, bytes_of(count))
            }
        }
    }

    // A list of a directory, mostly from its first entry on, or a call that is in no history.
    fn ask_list(&mut self) -> Result<Vec<u8>, AllocError> {
        let (alloc, xid) = (self.alloc, self.xid);
        let directory = self.directory();
        let random = &mut self.random;
        let (cookie, count) = match random.below(4) {
            0 => (random.below(4), 4096),
            1 => (0, random.below(200) as u32),
            _ => (0, 4096),
        };
        match random.below(3) {
            0 => read_directory(alloc, xid, directory, cookie, count),
            1 => read_directory_plus(alloc, xid, directory, cookie, count),
            _ => {
                let procedure = UNJUDGED.get(random.below(9) as usize).copied();
                plain_call(alloc, xid, procedure.unwrap_or(0))
            }
        }
    }

    /// The message of a call.
    pub fn ask(&mut self) -> Result<Vec<u8>, AllocError> {
        self.xid = self.xid.wrapping_add(1);
        match self.random.below(32) {
            0..=17 => self.ask_by_name(),
            18..=20 => self.ask_list(),
            _ => self.ask_by_handle(),
        }
    }
}
