//! A system that says odd things of its files.

use std::alloc::{Allocator, Global};
use std::fs::{Metadata, OpenOptions};
use std::io;
use std::rt::Files;

/// A runtime over another one, each of whose directories has these names. What it says of some of them isn't so.
#[derive(Drop)]
pub(crate) struct Odd<'a, R> {
    pub(crate) under: &'a R,
    pub(crate) names: &'static [u8],
}

/// Ends of paths, and the numbers of the errors that are told of the files there.
const ERRORS: [(&str, i32); 4] = [("/gone", 2), ("/denied", 13), ("/long", 36), ("/broken", 5)];

/// What is said of the file at a path, where it isn't what is so.
fn said_of(path: &str) -> Option<io::Result<Metadata>> {
    for (end, number) in ERRORS {
        if path.ends_with(end) {
            return Some(Err(io::Error::from_raw_os_error(number)));
        }
    }
    if path.ends_with("/grows") {
        return Some(Ok(Metadata::of_file(3)));
    }
    if path.ends_with("/a") || path.ends_with("/b") {
        return Some(Ok(Metadata::of_dir()));
    }
    None
}

impl<R: AllocGlobal> Alloc for Odd<'_, R> {
    type A = Global;

    fn alloc(&self) -> Global {
        self.under.alloc()
    }
}

impl<R: Files> Files for Odd<'_, R> {
    type File = R::File;

    type Dir = &'static [u8];

    fn open_file(&self, how: &OpenOptions, path: &str) -> io::Result<R::File> {
        self.under.open_file(how, path)
    }

    fn open_dir(&self, path: &str) -> io::Result<&'static [u8]> {
        if path.ends_with('/') {
            Ok(self.names)
        } else {
            Ok(b"")
        }
    }

    fn metadata(&self, path: &str) -> io::Result<Metadata> {
        self.under.metadata(path)
    }

    fn symlink_metadata(&self, path: &str) -> io::Result<Metadata> {
        match said_of(path) {
            Some(said) => said,
            None => self.under.symlink_metadata(path),
        }
    }

    fn copy(&self, from: &str, to: &str) -> io::Result<u64> {
        self.under.copy(from, to)
    }

    fn rename(&self, from: &str, to: &str) -> io::Result<()> {
        self.under.rename(from, to)
    }

    fn remove_file(&self, path: &str) -> io::Result<()> {
        self.under.remove_file(path)
    }

    fn create_dir(&self, path: &str) -> io::Result<()> {
        self.under.create_dir(path)
    }

    fn remove_dir(&self, path: &str) -> io::Result<()> {
        self.under.remove_dir(path)
    }

    fn remove_dir_all<B: Allocator>(&self, alloc: B, path: &str) -> io::Result<()> {
        self.under.remove_dir_all(alloc, path)
    }
}
