//! The bytes of a regular file. A contract sees the whole list of them.

ghost use Rattle.std.specs.Prelude.{◌≡◌, ◌+◌, ◌≤◌, ◌++◌, List, ℕ, [], length, take, drop, replicate, max, nat_eq, IsTrue, IfOk, OnOk, OnErr};
ghost use Rattle.std.specs.Cmp.Lexicographic.{pointwise};
ghost use Rattle.nfs3_types.specs.Limits.{file_limit};
ghost use Rattle.tree_stores.specs.Files.{resized, written};
ghost use Rattle.tree_stores.specs.Undo.{Restores};

use crate::file_bytes::changes::{FileUndo, replace};
use crate::file_bytes::page::{self, PAGE};
use crate::file_bytes::pages::{Pages, cut_pages, piece, stored, written_pages};
use std::alloc::{AllocError, Global};
use std::marker::Model;
use std::mem;

/// At most `nfs3_types::FILE_LIMIT` bytes.
pub struct FileBytes {
    alloc: Global,
    size: u64,
    pages: Pages,
}

impl Drop for FileBytes {
    fn drop(self) {
        let FileBytes {
            alloc: _,
            size: _,
            pages,
        } = self;
        drop(pages);
    }
}

impl Model for FileBytes {
    ghost use Rattle.std.specs.Prelude.{List, ℕ};
    ghost use Rattle.tree_stores.specs.Paged.{byte_of, listed, IsFile};

    ghost Value = { List ℕ };

    ghost view = { λ s. listed (byte_of s.pages) s.size };

    ghost invariant = { λ s. IsFile (byte_of s.pages) s.size };
}

impl FileBytes {
    /// An empty file.
    pub fn new(alloc: Global) -> FileBytes
        ensures { result ≡ [] }
    {
        FileBytes::zeros(alloc, 0)
    }

    /// As many zeros, which take no memory.
    pub fn zeros(alloc: Global, size: u64) -> FileBytes
        requires { size ≤ file_limit }
        ensures { result ≡ replicate size 0 }
    {
        FileBytes {
            alloc,
            size,
            pages: Pages::new(alloc),
        }
    }

    /// A copy of these bytes.
    pub fn from_slice(alloc: Global, bytes: &[u8]) -> Result<FileBytes, AllocError>
        requires { length bytes.now ≤ file_limit }
        ensures { IfOk result (λ file. file ≡ bytes.now) }
    {
        let size = bytes.len() as u64;
        if size <= PAGE {
            let pages = Pages::one(alloc, bytes)?;
            return Ok(FileBytes { alloc, size, pages });
        }
        let mut file = FileBytes::new(alloc);
        drop(file.write(0, bytes)?);
        Ok(file)
    }

    /// How many bytes.
    pub fn len(&self) -> u64
        ensures value { result ≡ length self.now }
        ensures bound { result ≤ file_limit }
    {
        self.size
    }

    /// Whether there are none.
    pub fn is_empty(&self) -> bool
        ensures { result ≡ nat_eq (length self.now) 0 }
    {
        self.len() == 0
    }

    /// Bytes at an offset. It costs the pages that they touch.
    pub fn write(&mut self, offset: u64, added: &[u8]) -> Result<FileUndo, AllocError>
        requires { offset + length added.now ≤ file_limit }
        ensures ok { OnOk result (self.new ≡ written self.old offset added.now) }
        ensures undo { IfOk result (λ undo. Restores undo self.new self.old) }
        ensures err { OnErr result (self.new ≡ self.old) }
    {
        let changes = written_pages(self.alloc, &self.pages, offset, added)?;
        let size = self.size.max(offset + added.len() as u64);
        self.exchange(FileUndo { size, changes })
    }

    /// Another size. What it costs are the pages that it cuts.
    pub fn resize(&mut self, size: u64) -> Result<FileUndo, AllocError>
        requires { size ≤ file_limit }
        ensures ok { OnOk result (self.new ≡ resized self.old size) }
        ensures undo { IfOk result (λ undo. Restores undo self.new self.old) }
        ensures err { OnErr result (self.new ≡ self.old) }
    {
        let changes = if size < self.size {
            cut_pages(self.alloc, &self.pages, size)?
        } else {
            Vec::new(self.alloc)
        };
        self.exchange(FileUndo { size, changes })
    }

    /// What stood here ahead of the change that gave the undo value.
    pub fn restore(&mut self, undo: FileUndo) -> Result<(), AllocError>
        requires { (before : List ℕ) × Restores undo self.old before }
        ensures ok { OnOk result ((before : List ℕ) → Restores undo self.old before → self.new ≡ before) }
        ensures err { OnErr result (self.new ≡ self.old) }
    {
        drop(self.exchange(undo)?);
        Ok(())
    }

    /// Takes a size and pages, and gives the undo value of that.
    fn exchange(&mut self, undo: FileUndo) -> Result<FileUndo, AllocError>
        requires { (before : List ℕ) × Restores undo self.old before }
        ensures ok { OnOk result ((before : List ℕ) → Restores undo self.old before → self.new ≡ before) }
        ensures undo { IfOk result (λ redo. Restores redo self.new self.old) }
        ensures err { OnErr result (self.new ≡ self.old) }
    {
        let FileUndo { size, changes } = undo;
        let changes = replace(self.alloc, &mut self.pages, changes)?;
        let size = mem::replace(&mut self.size, size);
        Ok(FileUndo { size, changes })
    }

    /// Whether these bytes stand at an offset, none of them beyond the file's end.
    pub fn has_at(&self, offset: u64, bytes: &[u8]) -> bool
        ensures { result ≡ pointwise nat_eq bytes.now (take (length bytes.now) (drop offset self.now)) }
    {
        if bytes.is_empty() {
            return true;
        }
        let count = bytes.len() as u64;
        if count > self.size.saturating_sub(offset) {
            return false;
        }
        for number in offset / PAGE..(offset + count).div_ceil(PAGE) {
            let at = offset.saturating_sub(number * PAGE) as usize;
            if !page::has_at(
                stored(&self.pages, number),
                at,
                piece(bytes, offset, number),
            ) {
                return false;
            }
        }
        true
    }

    /// Appends all bytes.
    pub fn put(&self, out: &mut Vec<u8>) -> Result<(), AllocError>
        ensures { OnOk result (out.new.items ≡ out.old.items ++ self.now) }
    {
        for number in 0..self.size.div_ceil(PAGE) {
            let count = (self.size - number * PAGE).min(PAGE) as usize;
            page::put(out, stored(&self.pages, number), count)?;
        }
        Ok(())
    }

    /// The same bytes.
    pub fn copy(&self) -> Result<FileBytes, AllocError>
        ensures { IfOk result (λ file. file ≡ self.now) }
    {
        Ok(FileBytes {
            alloc: self.alloc,
            size: self.size,
            pages: self.pages.copy()?,
        })
    }

    /// A number of the bytes, the same for equal files. It costs a step for each page that is kept.
    pub fn number(&self) -> u64 {
        self.pages.number().wrapping_add(self.size)
    }

    /// Whether another file has the same bytes. It compares no bytes of pages that tell by their numbers that they differ.
    pub fn is_same(&self, other: &FileBytes) -> bool
        ensures { IsTrue result → self.now ≡ other.now }
    {
        other.size == self.size && self.pages.is_same(&other.pages)
    }
}
