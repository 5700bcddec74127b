//! A record of a journal.

ghost use Rattle.std.specs.Prelude.{◌≡◌, IfOk};

use std::alloc::{AllocError, Global};
use std::marker::Model;

/// The bytes of a record. A contract sees the list of them.
#[derive(Drop)]
pub struct Record {
    bytes: Vec<u8>,
}

impl Model for Record {
    ghost use Rattle.std.specs.Prelude.{List, ℕ};

    ghost Value = { List ℕ };

    ghost view = { λ r. r.bytes.items };
}

impl Record {
    /// The record of these bytes, as of a journal that was kept in a file. It takes the room of the bytes.
    pub fn from_slice(alloc: Global, bytes: &[u8]) -> Result<Record, AllocError>
        ensures { IfOk result (λ r. r ≡ bytes.now) }
    {
        Ok(Record {
            bytes: Vec::from_slice(alloc, bytes)?,
        })
    }

    /// Its bytes.
    pub fn as_slice(&self) -> &[u8]
        ensures { result.now ≡ self.now }
    {
        self.bytes.as_slice()
    }
}
