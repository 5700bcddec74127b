//! The files of a sweep, each as the list of the calls that changed its bytes.

use crate::changes::Change;
use indexmap::IndexMap;
use nfs3_types::FileHandle;
use std::alloc::{AllocError, Global};
use std::cmp::Ordering;

/// The place of a call that had none.
pub const NO_PLACE: u64 = u64::MAX;

/// A call that changed a file, or would have.
#[derive(Drop)]
pub struct Writer {
    /// The call's number, counted from 1.
    pub number: u64,
    /// From 0 on.
    pub era: usize,
    /// Its place in its era, from 0 on, or `NO_PLACE`.
    pub place: u64,
    /// Whether a crash can't take it.
    pub is_stable: bool,
    /// Whether a crash took it, or no place was given to it.
    pub is_gone: bool,
    /// What it does to the file's bytes.
    pub change: Change,
}

/// The calls that changed a file, or would have, in their order.
#[derive(Drop)]
pub(crate) struct FileLog {
    pub writers: Vec<Writer>,
    /// The last era of which a crash took places.
    crashed: Option<usize>,
}

/// One of a file's calls, by where it stands in the log.
#[derive(Clone, Copy)]
pub(crate) struct Item {
    pub number: u64,
    pub era: usize,
    pub place: u64,
    pub index: usize,
    pub is_stable: bool,
}

/// Which of two calls comes first in a file's list.
pub(crate) fn order_of(one: &Item, other: &Item) -> Ordering {
    match one.era.cmp(&other.era) {
        Ordering::Equal => one.place.cmp(&other.place),
        order => order,
    }
}

/// Bytes of a file as a list of calls makes them.
#[derive(Drop)]
pub(crate) struct Folded {
    pub bytes: Vec<u8>,
    /// For each byte the item that made it, by its place in the list, or the list's length.
    pub owners: Vec<usize>,
    pub size: u64,
}

impl Folded {
    /// Sets a byte.
    fn set(&mut self, at: usize, byte: u8, owner: usize) {
        if let Some(kept) = self.bytes.get_mut(at) {
            *kept = byte;
        }
        if let Some(kept) = self.owners.get_mut(at) {
            *kept = owner;
        }
    }

    /// Puts what a WRITE wrote into the bytes from an offset on.
    fn write(&mut self, from: u64, offset: u64, count: u64, bytes: &[u8], owner: usize) {
        let end = offset.saturating_add(count);
        self.size = self.size.max(end);
        let first = offset.max(from);
        let last = end.min(from.saturating_add(self.bytes.len() as u64));
        for at in first..last {
            let byte = bytes.get((at - offset) as usize).copied().unwrap_or(0);
            self.set((at - from) as usize, byte, owner);
        }
    }

    /// Cuts or fills the file.
    fn resize(&mut self, from: u64, size: u64, owner: usize) {
        let first = size.saturating_sub(from);
        for at in first..self.bytes.len() as u64 {
            self.set(at as usize, 0, owner);
        }
        self.size = size;
    }
}

impl FileLog {
    /// Notes that a crash took the places of an era but so many. Of one era it goes over the calls once, however often it is told.
    fn lose(&mut self, era: usize, kept: u64) {
        if self.crashed == Some(era) {
            return;
        }
        self.crashed = Some(era);
        for writer in self.writers.iter_mut().rev() {
            if writer.era != era || writer.place < kept {
                break;
            }
            writer.is_gone = true;
        }
    }

    /// The calls that are gone, or those that aren't.
    pub(crate) fn items(&self, alloc: Global, gone: bool) -> Result<Vec<Item>, AllocError> {
        let mut items = Vec::new(alloc);
        for (index, writer) in self.writers.iter().enumerate() {
            if writer.is_gone == gone {
                items.push(Item {
                    number: writer.number,
                    era: writer.era,
                    place: writer.place,
                    index,
                    is_stable: writer.is_stable,
                })?;
            }
        }
        Ok(items)
    }

    /// The last byte behind what a WRITE wrote; 0 for other calls.
    pub(crate) fn end_of(&self, item: &Item) -> u64 {
        match self.writers.get(item.index) {
            Some(writer) => match &writer.change {
                Change::Wrote { offset, count, .. } => offset.saturating_add(*count),
                Change::Sized(_) => 0,
            },
            None => 0,
        }
    }

    /// Whether a call has a say in so many bytes from an offset on, or in the size of a file that is so large without it.
    pub(crate) fn has_a_say(&self, item: &Item, from: u64, count: usize, size: u64) -> bool {
        let Some(writer) = self.writers.get(item.index) else {
            return false;
        };
        match &writer.change {
            Change::Wrote {
                offset,
                count: written,
                ..
            } => {
                let end = offset.saturating_add(*written);
                end > size || (*offset < from.saturating_add(count as u64) && end > from)
            }
            Change::Sized(_) => true,
        }
    }

    /// The bytes from an offset on, as these calls of the log make them.
    pub(crate) fn fold(
        &self,
        alloc: Global,
        items: &[Item],
        from: u64,
        count: usize,
    ) -> Result<Folded, AllocError> {
        let mut folded = Folded {
            bytes: vec![in alloc; 0; count]?,
            owners: vec![in alloc; items.len(); count]?,
            size: 0,
        };
        for (owner, item) in items.iter().enumerate() {
            let Some(writer) = self.writers.get(item.index) else {
                continue;
            };
            match &writer.change {
                Change::Wrote {
                    offset,
                    count,
                    bytes,
                } => folded.write(from, *offset, *count, bytes.as_slice(), owner),
                Change::Sized(size) => folded.resize(from, *size, owner),
            }
        }
        Ok(folded)
    }
}

/// The files of a sweep by their handles.
#[derive(Drop)]
pub struct Files {
    alloc: Global,
    logs: IndexMap<Vec<u8>, FileLog>,
    /// The handles of the places of the era that changed files, each with how many moves led to it.
    trail: Vec<(usize, Vec<u8>)>,
}

impl Files {
    /// No file has been changed.
    pub fn new(alloc: Global) -> Files {
        Files {
            alloc,
            logs: IndexMap::new(alloc),
            trail: Vec::new(alloc),
        }
    }

    /// The calls that changed the file of a handle.
    pub(crate) fn log(&self, handle: &[u8]) -> Option<&FileLog> {
        self.logs.get(handle)
    }

    /// Puts a call behind the others of its file.
    fn append(&mut self, handle: &[u8], writer: Writer) -> Result<(), AllocError> {
        if let Some(log) = self.logs.get_mut(handle) {
            log.writers.push(writer)?;
            return Ok(());
        }
        let mut writers = Vec::new(self.alloc);
        writers.push(writer)?;
        let key = Vec::from_slice(self.alloc, handle)?;
        let log = FileLog {
            writers,
            crashed: None,
        };
        self.logs.insert(key, log)?;
        Ok(())
    }

    /// Notes a call that is placed, by so many moves.
    pub fn place(
        &mut self,
        handle: &FileHandle,
        writer: Writer,
        depth: usize,
    ) -> Result<(), AllocError> {
        let key = Vec::from_slice(self.alloc, handle.as_slice())?;
        self.append(handle.as_slice(), writer)?;
        self.trail.push((depth, key))?;
        Ok(())
    }

    /// Notes a call that has no place.
    pub fn leave_out(&mut self, handle: &FileHandle, writer: Writer) -> Result<(), AllocError> {
        self.append(handle.as_slice(), writer)
    }

    /// Takes back what was placed past so many moves.
    pub fn back_to(&mut self, depth: usize) {
        for _ in 0..self.trail.len() {
            if !self.is_past(depth) {
                return;
            }
            if let Some((_, handle)) = self.trail.pop() {
                if let Some(log) = self.logs.get_mut(handle.as_slice()) {
                    log.writers.pop();
                }
            }
        }
    }

    /// Whether a call is noted that more moves than so many led to.
    fn is_past(&self, depth: usize) -> bool {
        match self.trail.last() {
            Some((last, _)) => *last > depth,
            None => false,
        }
    }

    /// Ends an era, of whose places so many are kept.
    pub fn end_era(&mut self, era: usize, kept: u64) {
        for _ in 0..self.trail.len() {
            if let Some((_, handle)) = self.trail.pop() {
                if let Some(log) = self.logs.get_mut(handle.as_slice()) {
                    log.lose(era, kept);
                }
            }
        }
    }
}
