//! The ways to the branches that workers took.

use search_problem::Move;
use std::alloc::{AllocError, Global};
use std::sync::{Mutex, Wait};

/// Which branch: the worker that took it, and its place among that worker's, from 1 on.
#[derive(Clone, Copy)]
pub(crate) struct NodeName {
    worker: u32,
    place: u32,
}

impl NodeName {
    /// The branch without a move, which nobody takes.
    pub(crate) const ROOT: NodeName = NodeName {
        worker: 0,
        place: 0,
    };
}

/// A branch that was taken, by the move that led to it.
#[derive(Clone, Copy)]
struct Node {
    /// The branch that it grows from.
    parent: NodeName,
    chosen: Move,
}

/// The ways to all branches that were taken. Each worker writes a list of its own, some 24 bytes a branch, and reads the others' lists
/// only where it goes to a branch that it stole; so workers seldom wait for one another.
#[derive(Drop)]
pub(crate) struct Ways {
    alloc: Global,
    lists: Vec<Mutex<Vec<Node>>>,
}

/// Puts a branch into a list, and gives its place.
fn put(list: &mut Vec<Node>, node: Node) -> Result<u32, AllocError> {
    if list.len() >= u32::MAX as usize - 1 {
        return Err(AllocError);
    }
    list.push(node)?;
    Ok(list.len() as u32)
}

impl Ways {
    /// Of so many workers, none of which has taken a branch.
    pub(crate) fn new(alloc: Global, workers: u32) -> Result<Ways, AllocError> {
        let mut lists = Vec::new(alloc);
        for _ in 0..workers {
            lists.push(Mutex::new(Vec::new(alloc)))?;
        }
        Ok(Ways { alloc, lists })
    }

    /// Names the branch that a worker took, to which a move led from another one.
    pub(crate) fn add<R: Wait>(
        &self,
        rt: &R,
        worker: u32,
        parent: NodeName,
        chosen: Move,
    ) -> Result<NodeName, AllocError> {
        let Some(list) = self.lists.get(worker as usize) else {
            return Err(AllocError);
        };
        let place = put(&mut list.lock(rt), Node { parent, chosen })?;
        Ok(NodeName { worker, place })
    }

    /// The branch of a name, where there is one.
    fn node<R: Wait>(&self, rt: &R, name: NodeName) -> Option<Node> {
        let list = self.lists.get(name.worker as usize)?;
        let nodes = list.lock(rt);
        nodes.get((name.place as usize).checked_sub(1)?).copied()
    }

    /// The moves that lead to a branch, of which there are so many.
    pub(crate) fn to<R: Wait>(
        &self,
        rt: &R,
        name: NodeName,
        depth: usize,
    ) -> Result<Vec<Move>, AllocError> {
        let mut moves = Vec::new(self.alloc);
        let mut at = name;
        for _ in 0..depth {
            let Some(node) = self.node(rt, at) else {
                break;
            };
            moves.push(node.chosen)?;
            at = node.parent;
        }
        moves.reverse();
        Ok(moves)
    }
}
