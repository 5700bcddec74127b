//! What was read of a stream and isn't passed on yet.

ghost use Rattle.std.specs.Prelude.{◌≡◌, ◌<◌, ◌≤◌, ℕ, List, [], ◌++◌, length, take, drop, IfOk, OnOk, OnErr};
ghost use Rattle.std.specs.Io.KnownBytes.{Consumes, Keeps, IsAtEnd};

use crate::front::announced;
use program_streams::READ_SIZE;
use std::alloc::{AllocError, Global};
use std::io::{self, Read};
use std::marker::Model;

/// How many bytes a header has.
const HEADER_SIZE: usize = 4;

/// The most bytes that a read asks for: a record's with its header.
const MOST: usize = 2_097_156;

/// Bytes of a stream in the order in which they came, and room behind them. It grows with the bytes that came, and not with
/// what a header announces.
#[derive(Drop)]
pub(crate) struct Window {
    bytes: Vec<u8>,
    start: usize,
    end: usize,
    /// Where the next read ends at the latest.
    stop: usize,
    /// How many bytes were passed on last, which is how many a read asks for where nothing is known of what comes.
    usual: usize,
}

impl Model for Window {
    ghost use Rattle.std.specs.Prelude.{◌-◌, ◌≤◌, length, slice_range};
    ghost use Rattle.nfs_tap.specs.Waiting.{Pending};

    ghost Value = { Pending };

    ghost view = { λ w. record { bytes = slice_range w.bytes.items w.start w.end; room = w.stop - w.end } };

    ghost invariant = { λ w. (w.start ≤ w.end) × (w.end ≤ w.stop) × (w.stop ≤ length w.bytes.items) };
}

/// How many bytes the next read is to ask for: what the record at the front lacks, twice as many as there are at most. So a
/// stream of large records is read a record at a time.
fn wanted(bytes: &[u8], usual: usize) -> usize
    ensures { (0 < result) × (result ≤ 2097156) }
{
    let count = match announced(bytes) {
        Some(count) => (HEADER_SIZE + count)
            .saturating_sub(bytes.len())
            .min(bytes.len().max(READ_SIZE)),
        None => usual.max(READ_SIZE),
    };
    count.max(1).min(MOST)
}

/// Makes a block at least so long. What stands in it stays.
fn lengthen(bytes: &mut Vec<u8>, size: usize) -> Result<(), AllocError>
    ensures kept { take (length bytes.old.items) bytes.new.items ≡ bytes.old.items }
    ensures long { length bytes.old.items ≤ length bytes.new.items }
    ensures ok { OnOk result (size ≤ length bytes.new.items) }
{
    if size <= bytes.len() {
        return Ok(());
    }
    bytes.resize(size, 0)
}

impl Window {
    /// Nothing was read yet.
    pub(crate) fn new(alloc: Global) -> Window
        ensures { result.bytes ≡ [] }
    {
        Window {
            bytes: Vec::new(alloc),
            start: 0,
            end: 0,
            stop: 0,
            usual: 0,
        }
    }

    /// What was read and not passed on.
    pub(crate) fn as_slice(&self) -> &[u8]
        ensures { result.now ≡ self.now.bytes }
    {
        &self.bytes.as_slice()[self.start..self.end]
    }

    /// So many bytes at the front are passed on.
    pub(crate) fn advance(&mut self, count: usize)
        requires { count ≤ length self.old.bytes }
        ensures { self.new.bytes ≡ drop count self.old.bytes }
    {
        self.start += count;
        self.usual = count;
    }

    // Moves the bytes to the front of the block.
    fn move_to_front(&mut self)
        ensures { self.new.bytes ≡ self.old.bytes }
    {
        let (start, end) = (self.start, self.end);
        if start == 0 {
            return;
        }
        self.bytes.as_mut_slice().copy_within(start..end, 0);
        self.start = 0;
        self.end = end - start;
    }

    // Lets so many bytes be read behind those that are there, and no more.
    fn set_room(&mut self, count: usize) -> Result<(), AllocError>
        requires { count ≤ 2097156 }
        ensures bytes { self.new.bytes ≡ self.old.bytes }
        ensures room { OnOk result (self.new.room ≡ count) }
    {
        let stop = self.end + count;
        lengthen(&mut self.bytes, stop)?;
        self.stop = stop;
        Ok(())
    }

    /// Makes room for the next read.
    pub(crate) fn make_room(&mut self) -> Result<(), AllocError>
        ensures bytes { self.new.bytes ≡ self.old.bytes }
        ensures room { OnOk result (0 < self.new.room) }
    {
        let count = wanted(self.as_slice(), self.usual);
        self.move_to_front();
        self.set_room(count)
    }

    /// One read into the room.
    pub(crate) fn read_from<I: Read>(&mut self, reader: &mut I) -> io::Result<usize>
        ensures ok { IfOk result (λ n. (more : List ℕ) × (length more ≡ n) × (self.new.bytes ≡ self.old.bytes ++ more)
            × Consumes (I.remaining reader.old) (I.remaining reader.new) more) }
        ensures end { IfOk result (λ n. 0 < self.old.room → n ≡ 0 → IsAtEnd (I.remaining reader.new)) }
        ensures err { OnErr result ((self.new ≡ self.old) × Keeps (I.remaining reader.old) (I.remaining reader.new)) }
    {
        let (end, stop) = (self.end, self.stop);
        match reader.read(&mut self.bytes.as_mut_slice()[end..stop]) {
            Ok(count) => {
                self.end = end + count;
                Ok(count)
            }
            Err(error) => Err(error),
        }
    }
}
