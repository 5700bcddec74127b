//! Byte strings of which the short ones stand in their value. A contract sees each as the list of its bytes.

ghost use Rattle.std.specs.Prelude.{◌≡◌, ◌≤◌, IfOk, length};
ghost use Rattle.nfs3_types.specs.Short.{bytes_of, IsStored};

use std::alloc::{AllocError, Global};
use std::marker::Model;

/// How many bytes a value has room for.
const INLINE_LIMIT: usize = 23;

/// A byte string. Up to 23 bytes stand in the value, more of them on the heap.
pub struct ShortBytes {
    store: Store,
}

/// Where the bytes stand: how many count, and they with zeros behind; or those that the value has no room for.
#[derive(Drop)]
enum Store {
    Inline(u8, [u8; INLINE_LIMIT]),
    Heap(Vec<u8>),
}

impl Model for ShortBytes {
    ghost use Rattle.std.specs.Prelude.{List, ℕ};
    ghost use Rattle.nfs3_types.specs.Short.{bytes_of, IsStored};

    ghost Value = { List ℕ };

    ghost view = { λ b. bytes_of b.store };

    ghost invariant = { λ b. IsStored b.store };
}

impl Store {
    /// Bytes that the value has room for.
    fn inline(bytes: &[u8]) -> Store
        requires { length bytes.now ≤ 23 }
        ensures stored { IsStored result }
        ensures same { bytes_of result ≡ bytes.now }
    {
        let mut inline = [0; INLINE_LIMIT];
        inline[..bytes.len()].copy_from_slice(bytes);
        Store::Inline(bytes.len() as u8, inline)
    }
}

impl ShortBytes {
    /// These bytes.
    pub fn from_slice(alloc: Global, bytes: &[u8]) -> Result<ShortBytes, AllocError>
        ensures { IfOk result (λ b. b ≡ bytes.now) }
    {
        if bytes.len() > INLINE_LIMIT {
            return Ok(ShortBytes {
                store: Store::Heap(Vec::from_slice(alloc, bytes)?),
            });
        }
        Ok(ShortBytes {
            store: Store::inline(bytes),
        })
    }

    /// These bytes, which stay on the heap where the value has no room for them.
    pub fn from_vec(bytes: Vec<u8>) -> ShortBytes
        ensures { result ≡ bytes.items }
    {
        if bytes.len() > INLINE_LIMIT {
            return ShortBytes {
                store: Store::Heap(bytes),
            };
        }
        ShortBytes {
            store: Store::inline(bytes.as_slice()),
        }
    }

    /// The bytes.
    pub fn as_slice(&self) -> &[u8]
        ensures { result.now ≡ self.now }
    {
        match &self.store {
            Store::Inline(count, bytes) => &bytes[..*count as usize],
            Store::Heap(bytes) => bytes.as_slice(),
        }
    }
}

impl Drop for ShortBytes {
    fn drop(self) {
        let ShortBytes { store } = self;
        drop(store);
    }
}

impl Clone for ShortBytes {
    ghost is_clone = { λ x y. y ≡ x };

    fn clone(&self) -> Result<ShortBytes, AllocError> {
        let store = match &self.store {
            Store::Inline(count, bytes) => Store::Inline(*count, *bytes),
            Store::Heap(bytes) => Store::Heap(bytes.clone()?),
        };
        Ok(ShortBytes { store })
    }
}
