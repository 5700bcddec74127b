//! What a client asks of objects.

use crate::drawing::{Draw, WHOLE};
use call_making::{Range, Wish, attributes};
use client_memory::{Facts, Kind, Target};
use nfs3_types::{SetAttributes, SetTime, StableHow, Time};

/// The mode bits that a SETATTR sets.
const MODE: u32 = 0o755;

/// The last offset of a WRITE, and the last size that is set: a WRITE of 4,096 bytes ends at 65,536.
const FAR: u64 = WHOLE - 4096;

impl<'k> Draw<'k> {
    fn size(&self, target: Target) -> u64 {
        match self.facts(target) {
            Some(facts) => facts.size,
            None => 0,
        }
    }

    /// Where a READ or a WRITE begins in a file of this size, in bytes: mostly within it, now and then behind it, seldom far behind.
    fn offset(&mut self, size: u64) -> u64 {
        let offset = match self.random.below(32) {
            0..=7 => 0,
            8..=15 => self.random.below(size / 16 + 1).saturating_mul(16),
            16..=21 => self.random.below(size.saturating_add(1)),
            22..=24 => size,
            25..=30 => size.saturating_add(self.random.below(64)),
            _ => self.far_offset(size),
        };
        offset.min(FAR)
    }

    fn far_offset(&mut self, size: u64) -> u64 {
        match self.random.below(16) {
            0 => self.random.below(FAR),
            _ => size.saturating_add(self.random.below(2048)),
        }
    }

    /// How many bytes are written: mostly 64 at most, and in a quiet spell never more, since no history in which a longer WRITE got no
    /// reply can be found to be wrong.
    fn write_count(&mut self) -> u32 {
        match self.random.below(64) {
            0 => 0,
            1..=5 if !self.is_quiet => 16 + self.random.small(500),
            6 if !self.is_quiet => 4096,
            7..=24 => 1 + self.random.small(63),
            _ => 16 * (1 + self.random.small(4)),
        }
    }

    /// How safe a WRITE has to be: mostly not at all.
    fn level(&mut self) -> StableHow {
        if self.is_quiet {
            return StableHow::Unstable;
        }
        match self.random.below(8) {
            0 => StableHow::FileSync,
            1 => StableHow::DataSync,
            _ => StableHow::Unstable,
        }
    }

    pub(crate) fn write(&mut self) -> Wish<'k> {
        let Some(file) = self.object_of(Kind::File, true) else {
            return self.create();
        };
        let size = self.size(file);
        let offset = self.offset(size);
        let count = self.write_count();
        let level = self.level();
        Wish::Write(self.handle(file), Range { offset, count }, level)
    }

    pub(crate) fn read(&mut self) -> Wish<'k> {
        let Some(file) = self.object_of(Kind::File, false) else {
            return self.look_up();
        };
        let size = self.size(file);
        let offset = match self.random.below(2) {
            0 => 0,
            _ => self.offset(size),
        };
        let count = match self.random.below(64) {
            0 => 0,
            1 => 65_536,
            2..=15 => self.random.small(200),
            _ => size.saturating_add(16).min(WHOLE) as u32,
        };
        Wish::Read(self.handle(file), Range { offset, count })
    }

    pub(crate) fn get_attributes(&mut self) -> Wish<'k> {
        let memory = self.memory;
        let target = match self.random.below(8) {
            0 => memory.known.lost(&mut self.random),
            1 => Some(Target::Root),
            2..=5 => self.object_of(Kind::File, false),
            _ => self.object(false).map(Target::Known),
        };
        Wish::GetAttr(self.handle(target.unwrap_or(Target::Root)))
    }

    /// The size that a SETATTR sets on a file of this size, both in bytes: cut, kept or grown.
    fn new_size(&mut self, size: u64) -> u64 {
        let new_size = match self.random.below(32) {
            0..=9 => 0,
            10..=19 => self.random.below(size.saturating_add(1)),
            20 => size,
            21..=30 => size.saturating_add(self.random.below(300)),
            _ => self.far_offset(size),
        };
        new_size.min(FAR)
    }

    fn attributes_without_size(&mut self) -> SetAttributes {
        let mut chosen = attributes(None, None);
        match self.random.below(4) {
            0 => chosen.mode = Some(MODE),
            1 => chosen.modify_time = SetTime::ServerTime,
            2 => {
                chosen.access_time = SetTime::ClientTime(Time {
                    seconds: self.random.small(1 << 30),
                    nanoseconds: 0,
                });
            }
            _ => {}
        }
        chosen
    }

    /// The `ctime` that was told last, or one that no object has.
    fn guard(&mut self, facts: Option<Facts>) -> Option<Time> {
        match self.random.below(8) {
            0 => Some(Time {
                seconds: 1,
                nanoseconds: 1,
            }),
            1 | 2 => facts?.changed,
            _ => None,
        }
    }

    pub(crate) fn set_attributes(&mut self) -> Wish<'k> {
        if self.random.once_in(4) {
            let Some(index) = self.object(true) else {
                return self.create();
            };
            let target = Target::Known(index);
            let facts = self.facts(target);
            let guard = self.guard(facts);
            let chosen = self.attributes_without_size();
            return Wish::SetAttr(self.handle(target), chosen, guard);
        }
        let Some(file) = self.object_of(Kind::File, true) else {
            return self.create();
        };
        let size = self.size(file);
        let size = self.new_size(size);
        let facts = self.facts(file);
        let guard = self.guard(facts);
        Wish::SetAttr(self.handle(file), attributes(None, Some(size)), guard)
    }

    /// COMMIT of the whole, of what was written last, of all behind an offset, or of some part.
    pub(crate) fn commit(&mut self) -> Wish<'k> {
        let Some(file) = self.object_of(Kind::File, false) else {
            return self.look_up();
        };
        let size = self.size(file);
        let written = match self.facts(file) {
            Some(facts) => facts.written,
            None => None,
        };
        let range = match (self.random.below(8), written) {
            (0..=2, Some(written)) => Range {
                offset: written.offset,
                count: written.count,
            },
            (3, _) => Range {
                offset: self.random.below(size.saturating_add(1)),
                count: 0,
            },
            (4, _) => Range {
                offset: self.random.below(size.saturating_add(1)),
                count: self.random.small(64),
            },
            _ => Range {
                offset: 0,
                count: 0,
            },
        };
        Wish::Commit(self.handle(file), range)
    }

    pub(crate) fn read_link(&mut self) -> Wish<'k> {
        match self.object_of(Kind::Link, false) {
            Some(link) => Wish::ReadLink(self.handle(link)),
            None => self.list(),
        }
    }
}
