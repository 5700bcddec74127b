//! Objects that clients know of.

use crate::random::Random;
use nfs_history::{StartNode, StartObject};
use nfs3_types::FileType;
use std::alloc::{AllocError, Global};
use std::sync::atomic::{AtomicU64, Ordering};

/// How many objects of each kind are known.
const ROOM: u64 = 5;

/// The numbers of kinds of objects (RFC 1813, section 2.6, `ftype3`) are below this one.
const KINDS: u64 = 8;

/// Objects that clients know of, some of each kind; 0, the root, in place of one that is still lacking.
#[derive(Drop)]
pub struct Known {
    objects: Vec<AtomicU64>,
}

impl Known {
    /// Known are some of the objects that are there at first.
    pub fn new(alloc: Global, start: &[StartObject]) -> Result<Known, AllocError> {
        let mut objects = Vec::new(alloc);
        for _ in 0..KINDS * ROOM {
            objects.push(AtomicU64::new(0))?;
        }
        let known = Known { objects };
        let mut random = Random::new(start.len() as u64);
        for (number, object) in start.iter().enumerate() {
            let kind = match &object.node {
                StartNode::Directory => FileType::Directory,
                StartNode::File(_) => FileType::Regular,
                StartNode::Link(_) => FileType::SymbolicLink,
            };
            known.note(&mut random, kind, (number as u64).saturating_add(1));
        }
        Ok(known)
    }

    // The word for one object of a kind.
    fn word(&self, random: &mut Random, kind: FileType) -> Option<&AtomicU64> {
        let place = (kind as u64)
            .wrapping_mul(ROOM)
            .wrapping_add(random.below(ROOM));
        self.objects.get(place as usize)
    }

    /// Notes an object, in place of another one.
    pub fn note(&self, random: &mut Random, kind: FileType, object: u64) {
        if let Some(word) = self.word(random, kind) {
            word.store(object, Ordering::SeqCst);
        }
    }

    /// An object of a kind, which may be gone.
    pub fn one(&self, random: &mut Random, kind: FileType) -> u64 {
        match self.word(random, kind) {
            Some(word) => word.load(Ordering::SeqCst),
            None => 0,
        }
    }
}
