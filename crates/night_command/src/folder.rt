//! The folder that a night's files are written to.

use std::alloc::AllocError;
use std::fs;
use std::io::{self, ErrorKind};
use std::rt::Files;

/// A folder that was made for a night.
#[derive(Clone, Copy)]
pub(crate) struct Folder<'a> {
    pub(crate) path: &'a str,
}

impl<'a> Folder<'a> {
    /// Makes a folder that wasn't there.
    pub(crate) fn make<R: Files>(rt: &R, path: &'a str) -> io::Result<Folder<'a>> {
        fs::create_dir(rt, path)?;
        Ok(Folder { path })
    }

    /// Writes a file into it. Whether it is there now.
    pub(crate) fn write<R: Files + AllocGlobal>(
        &self,
        rt: &R,
        name: &str,
        bytes: &[u8],
    ) -> Result<bool, AllocError> {
        let folder = self.path;
        let path = format!(in rt.alloc(); "{folder}/{name}")?;
        match fs::write(rt, path.as_str(), bytes) {
            Ok(()) => Ok(true),
            Err(error) if error.kind() == ErrorKind::OutOfMemory => Err(AllocError),
            Err(_) => Ok(false),
        }
    }

    /// Removes it, if nothing is in it.
    pub(crate) fn remove<R: Files>(&self, rt: &R) {
        let _ = fs::remove_dir(rt, self.path);
    }
}
