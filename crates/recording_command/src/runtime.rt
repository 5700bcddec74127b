//! What a recording needs of the runtime.

use nfs_relay::RelayRuntime;
use std::fs::File;
use std::rt::Files;

/// What a recording needs of the runtime: files, and what a relay needs. Its types are named, so that threads may share it.
pub trait RecordingRuntime: Files<File = File> + RelayRuntime {}

impl<R: Files<File = File> + RelayRuntime> RecordingRuntime for R {}
