//! Byte strings with a bound: handles, names and file data. A contract sees each as the list of its bytes.

ghost use Rattle.std.specs.Prelude.{◌≡◌, ◌≤◌, ◌<◌, ◌^◌, IfOk, length};

use crate::short::ShortBytes;
use std::alloc::{AllocError, Global};
use std::marker::Model;

/// The most bytes of a file handle (RFC 1813, section 2.4, `NFS3_FHSIZE`).
pub const HANDLE_LIMIT: usize = 64;

/// The most bytes of a file: a limit of the model.
pub const FILE_LIMIT: u64 = 16_777_216;

/// The most bytes that a READ of the bundled server gives, and that its lists and a link's text may have: what FSINFO tells as `rtmax`
/// (RFC 1813, section 3.3.19).
pub const TRANSFER_LIMIT: usize = 1_048_576;

/// A file handle, `nfs_fh3`: at most 64 bytes that only the server understands.
#[derive(Drop)]
pub struct FileHandle {
    bytes: ShortBytes,
}

impl Model for FileHandle {
    ghost use Rattle.std.specs.Prelude.{◌≤◌, List, ℕ, length};

    ghost Value = { List ℕ };

    ghost view = { λ h. h.bytes };

    ghost invariant = { λ h. length h.bytes ≤ 64 };
}

impl FileHandle {
    /// The handle of these bytes.
    pub fn from_slice(alloc: Global, bytes: &[u8]) -> Result<FileHandle, AllocError>
        requires { length bytes.now ≤ 64 }
        ensures { IfOk result (λ h. h ≡ bytes.now) }
    {
        Ok(FileHandle {
            bytes: ShortBytes::from_slice(alloc, bytes)?,
        })
    }

    /// Its bytes.
    pub fn as_slice(&self) -> &[u8]
        ensures value { result.now ≡ self.now }
        ensures bound { length self.now ≤ 64 }
    {
        self.bytes.as_slice()
    }
}

/// A name in a directory, `filename3`: below 2^32 bytes, with no rule on which.
#[derive(Drop)]
pub struct Name {
    text: ShortBytes,
}

impl Model for Name {
    ghost use Rattle.std.specs.Prelude.{◌<◌, ◌^◌, List, ℕ, length};

    ghost Value = { List ℕ };

    ghost view = { λ n. n.text };

    ghost invariant = { λ n. length n.text < 2 ^ 32 };
}

impl Name {
    /// The name of these bytes.
    pub fn from_slice(alloc: Global, bytes: &[u8]) -> Result<Name, AllocError>
        requires { length bytes.now < 2 ^ 32 }
        ensures { IfOk result (λ n. n ≡ bytes.now) }
    {
        Ok(Name {
            text: ShortBytes::from_slice(alloc, bytes)?,
        })
    }

    /// Its bytes.
    pub fn as_slice(&self) -> &[u8]
        ensures value { result.now ≡ self.now }
        ensures bound { length self.now < 2 ^ 32 }
    {
        self.text.as_slice()
    }
}

/// What is read from a file or written to it, `opaque data<>`: below 2^32 bytes.
#[derive(Drop)]
pub struct Data {
    content: Vec<u8>,
}

impl Model for Data {
    ghost use Rattle.std.specs.Prelude.{◌<◌, ◌^◌, List, ℕ, length};

    ghost Value = { List ℕ };

    ghost view = { λ d. d.content.items };

    ghost invariant = { λ d. length d.content.items < 2 ^ 32 };
}

impl Data {
    /// The data of these bytes.
    pub fn from_slice(alloc: Global, bytes: &[u8]) -> Result<Data, AllocError>
        requires { length bytes.now < 2 ^ 32 }
        ensures { IfOk result (λ d. d ≡ bytes.now) }
    {
        Ok(Data {
            content: Vec::from_slice(alloc, bytes)?,
        })
    }

    /// Its bytes.
    pub fn as_slice(&self) -> &[u8]
        ensures value { result.now ≡ self.now }
        ensures bound { length self.now < 2 ^ 32 }
    {
        self.content.as_slice()
    }
}

/// The text of a symbolic link, `nfspath3`: below 2^32 bytes, with no rule on which.
#[derive(Drop)]
pub struct LinkText {
    target: Vec<u8>,
}

impl Model for LinkText {
    ghost use Rattle.std.specs.Prelude.{◌<◌, ◌^◌, List, ℕ, length};

    ghost Value = { List ℕ };

    ghost view = { λ t. t.target.items };

    ghost invariant = { λ t. length t.target.items < 2 ^ 32 };
}

impl LinkText {
    /// The text of these bytes.
    pub fn from_slice(alloc: Global, bytes: &[u8]) -> Result<LinkText, AllocError>
        requires { length bytes.now < 2 ^ 32 }
        ensures { IfOk result (λ t. t ≡ bytes.now) }
    {
        Ok(LinkText {
            target: Vec::from_slice(alloc, bytes)?,
        })
    }

    /// Its bytes.
    pub fn as_slice(&self) -> &[u8]
        ensures value { result.now ≡ self.now }
        ensures bound { length self.now < 2 ^ 32 }
    {
        self.target.as_slice()
    }
}

impl Clone for FileHandle {
    ghost is_clone = { λ x y. y ≡ x };

    fn clone(&self) -> Result<FileHandle, AllocError> {
        Ok(FileHandle {
            bytes: self.bytes.clone()?,
        })
    }
}

impl Clone for Name {
    ghost is_clone = { λ x y. y ≡ x };

    fn clone(&self) -> Result<Name, AllocError> {
        Ok(Name {
            text: self.text.clone()?,
        })
    }
}

impl Clone for Data {
    ghost is_clone = { λ x y. y ≡ x };

    fn clone(&self) -> Result<Data, AllocError> {
        Data::from_slice(*self.content.allocator(), self.as_slice())
    }
}

impl Clone for LinkText {
    ghost is_clone = { λ x y. y ≡ x };

    fn clone(&self) -> Result<LinkText, AllocError> {
        LinkText::from_slice(*self.target.allocator(), self.as_slice())
    }
}
