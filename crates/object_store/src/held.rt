//! The objects that a call has taken out.

use crate::node::Node;
use crate::parents::Parents;
use std::alloc::{AllocError, Global};

/// How many objects a call holds at most: two directories, and what two names lead to.
pub(crate) const MOST_HELD: usize = 4;

/// The objects that a call has taken out. No other call can take them until they are given back.
pub struct Held {
    pub(crate) nodes: Vec<Node>,
    /// Which directory each directory lies in, of a call that asks for it or changes it.
    pub(crate) parents: Option<Parents>,
}

impl Drop for Held {
    fn drop(self) {
        let Held { nodes, parents } = self;
        drop(nodes);
        drop(parents);
    }
}

impl Held {
    /// No objects yet, with room for those of a call.
    pub(crate) fn new(alloc: Global) -> Result<Held, AllocError> {
        Ok(Held {
            nodes: Vec::with_capacity(alloc, 2 * MOST_HELD)?,
            parents: None,
        })
    }

    /// The objects, and the directories' parents.
    pub(crate) fn into_parts(self) -> (Vec<Node>, Option<Parents>) {
        let Held { nodes, parents } = self;
        (nodes, parents)
    }

    /// Which directory each directory lies in, if the call asked for it.
    pub fn parents(&self) -> Option<&Parents> {
        self.parents.as_ref()
    }

    /// The same, to be changed.
    pub fn parents_mut(&mut self) -> Option<&mut Parents> {
        self.parents.as_mut()
    }

    /// The object of this number, if it is held.
    pub fn get(&self, number: u64) -> Option<&Node> {
        self.nodes.iter().find(|node| node.number == number)
    }

    /// The same, to be changed.
    pub fn get_mut(&mut self, number: u64) -> Option<&mut Node> {
        self.nodes.iter_mut().find(|node| node.number == number)
    }

    /// Lets an object go that was removed: it isn't given back.
    pub fn let_go(&mut self, number: u64) {
        self.nodes.retain(|node| node.number != number);
    }
}
