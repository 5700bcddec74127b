//! What happened on a way, of which only a certificate is made. Nothing is said of it. States that come of one share its older parts.

use certificate::Place;
use std::alloc::{AllocError, Global};
use std::mem;
use std::rc::Rc;

/// How many deeds a state has for itself, at most.
const MOST_OWN: usize = 32;

/// How many parts it has for itself, at most.
const MOST_PARTS: usize = 64;

/// What happened on a way, for a certificate.
#[derive(Clone, Copy)]
pub enum Deed {
    /// A call was placed.
    Placed(Place),
    /// A WRITE that is placed, and has no reply, wrote so many bytes, whatever its place says.
    Counted(u64, u32),
    /// What comes after it in its era is lost.
    Cut,
    /// The era ended.
    Ended,
}

/// Deeds that states share.
type Part = Rc<Vec<Deed>, Global>;

/// Parts that states share.
type Group = Rc<Vec<Part>, Global>;

/// Deeds, one after the other: those of the groups, those of the parts, and the latest.
#[derive(Drop)]
pub(crate) struct Deeds {
    alloc: Global,
    groups: Vec<Group>,
    parts: Vec<Part>,
    own: Vec<Deed>,
}

impl Deeds {
    /// None.
    pub(crate) fn none(alloc: Global) -> Deeds {
        Deeds {
            alloc,
            groups: Vec::new(alloc),
            parts: Vec::new(alloc),
            own: Vec::new(alloc),
        }
    }

    /// The same, for another state.
    pub(crate) fn copy(&self) -> Result<Deeds, AllocError> {
        let mut groups = Vec::with_capacity(self.alloc, self.groups.len())?;
        for group in &self.groups {
            groups.push(group.clone()?)?;
        }
        let mut parts = Vec::with_capacity(self.alloc, self.parts.len())?;
        for part in &self.parts {
            parts.push(part.clone()?)?;
        }
        Ok(Deeds {
            alloc: self.alloc,
            groups,
            parts,
            own: Vec::from_slice(self.alloc, self.own.as_slice())?,
        })
    }

    /// Puts one after the others.
    pub(crate) fn push(&mut self, deed: Deed) -> Result<(), AllocError> {
        if self.own.len() >= MOST_OWN {
            let full = mem::replace(&mut self.own, Vec::new(self.alloc));
            self.parts.push(Rc::new(self.alloc, full)?)?;
        }
        if self.parts.len() >= MOST_PARTS {
            let full = mem::replace(&mut self.parts, Vec::new(self.alloc));
            self.groups.push(Rc::new(self.alloc, full)?)?;
        }
        self.own.push(deed)?;
        Ok(())
    }

    /// All of them.
    pub(crate) fn list(&self) -> Result<Vec<Deed>, AllocError> {
        let mut all = Vec::new(self.alloc);
        for group in &self.groups {
            for part in group.as_slice() {
                all.extend_from_slice(part.as_slice())?;
            }
        }
        for part in &self.parts {
            all.extend_from_slice(part.as_slice())?;
        }
        all.extend_from_slice(self.own.as_slice())?;
        Ok(all)
    }
}
