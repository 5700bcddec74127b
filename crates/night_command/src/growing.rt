//! A file of orders, which is written to while it is read.

use program_streams::Input;
use std::fs::File;
use std::io::{self, Read};
use std::rt::Files;

/// A file that is opened when it is first read: a named pipe is opened only once its writer comes.
#[derive(Drop)]
pub(crate) struct GrowingFile<'a, R> {
    rt: &'a R,
    path: &'a str,
    file: Option<File>,
}

impl<'a, R: Files<File = File>> GrowingFile<'a, R> {
    pub(crate) fn new(rt: &'a R, path: &'a str) -> GrowingFile<'a, R> {
        GrowingFile {
            rt,
            path,
            file: None,
        }
    }
}

impl<R: Files<File = File>> Input for GrowingFile<'_, R> {
    fn read(&mut self, buf: &mut [u8]) -> io::Result<usize> {
        if self.file.is_none() {
            self.file = Some(File::open(self.rt, self.path)?);
        }
        match self.file.as_mut() {
            Some(file) => file.read(buf),
            None => Ok(0),
        }
    }
}
