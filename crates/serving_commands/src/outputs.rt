//! The two files that a run writes.

use crate::fault::RunFault;
use crate::recorded::RunTexts;
use program_streams::{are_one_file, write_pieces};
use std::fs::{self, File};
use std::rt::Files;

/// Whether a file that is written is one of those that are read, by whatever name.
pub(crate) fn is_read<R: Files>(rt: &R, path: &str, read: &[Option<&str>]) -> bool {
    for other in read {
        if matches!(*other, Some(other) if are_one_file(rt, path, other)) {
            return true;
        }
    }
    false
}

/// Says that a file isn't written since it is used otherwise too.
fn tell_shared<R: Eprint>(rt: &R, path: &str) {
    let _ = eprintln!(rt; "nfsbench: {path}: this file is read too, or named twice");
}

/// A file that is made empty. Why it can't be is said on standard error.
fn create_file<R: Files<File = File> + Eprint>(rt: &R, path: &str) -> Result<File, RunFault> {
    match fs::create(rt, path) {
        Ok(file) => Ok(file),
        Err(error) => {
            let _ = eprintln!(rt; "nfsbench: {path}: {error}");
            Err(RunFault::CannotWrite)
        }
    }
}

/// The two files that a run writes.
#[derive(Drop)]
pub(crate) struct Outputs {
    history: File,
    certificate: File,
}

impl Outputs {
    /// The files at these paths, made empty. One file can't be both, or one of those that are read. Why there are none is said on standard
    /// error.
    pub(crate) fn create<R: Files<File = File> + Eprint>(
        rt: &R,
        history: &str,
        certificate: &str,
        read: &[Option<&str>],
    ) -> Result<Outputs, RunFault> {
        if is_read(rt, history, read) {
            tell_shared(rt, history);
            return Err(RunFault::CannotWrite);
        }
        if are_one_file(rt, history, certificate) || is_read(rt, certificate, read) {
            tell_shared(rt, certificate);
            return Err(RunFault::CannotWrite);
        }
        let history_file = create_file(rt, history)?;
        // A link that led nowhere may lead to the history now.
        if are_one_file(rt, history, certificate) {
            tell_shared(rt, certificate);
            return Err(RunFault::CannotWrite);
        }
        Ok(Outputs {
            history: history_file,
            certificate: create_file(rt, certificate)?,
        })
    }

    /// Writes the texts of what was recorded.
    pub(crate) fn write(&mut self, recorded: &RunTexts) -> Result<(), RunFault> {
        let history = write_pieces(&mut self.history, recorded.history.as_slice());
        let certificate = write_pieces(&mut self.certificate, recorded.certificate.as_slice());
        if history.is_ok() && certificate.is_ok() {
            Ok(())
        } else {
            Err(RunFault::CannotWrite)
        }
    }
}
