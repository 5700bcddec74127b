//! The objects, in parts with a lock each.

ghost use Rattle.std.specs.Prelude.{◌≡◌, IfOk, vec_len};

use crate::held::Held;
use crate::node::{Content, Node};
use crate::parents::Parents;
use crate::wanted::Targets;
use std::alloc::{AllocError, Global};
use std::collections::BTreeMap;
use std::mem;
use std::sync::{Condvar, Mutex, Wait};
use tree_stores::Names;

/// In so many parts the objects stand, so that calls which take and give back different ones seldom meet.
const SHARDS: usize = 64;

/// Where an object is.
enum Slot {
    /// It can be taken.
    Free(Content),
    /// A call has it.
    Taken,
    /// A call is about to make it.
    Promised,
}

impl Drop for Slot {
    fn drop(self) {
        match self {
            Slot::Free(content) => drop(content),
            Slot::Taken | Slot::Promised => {}
        }
    }
}

impl Slot {
    /// The object, if it stands here.
    fn into_content(self) -> Option<Content> {
        match self {
            Slot::Free(content) => Some(content),
            Slot::Taken | Slot::Promised => None,
        }
    }
}

/// Whether a call has the object.
fn is_taken(slots: &BTreeMap<u64, Slot>, number: u64) -> bool {
    matches!(slots.get(&number), Some(Slot::Taken))
}

/// Takes an object out, where it is there.
fn take_out(slots: &mut BTreeMap<u64, Slot>, number: u64) -> Option<Content> {
    let slot = slots.get_mut(&number)?;
    match slot {
        Slot::Free(_) => mem::replace(slot, Slot::Taken).into_content(),
        Slot::Taken | Slot::Promised => None,
    }
}

/// Puts an object into its place.
fn put_back(slots: &mut BTreeMap<u64, Slot>, number: u64, content: Content) {
    match slots.get_mut(&number) {
        Some(slot) => *slot = Slot::Free(content),
        None => drop(content),
    }
}

/// The names of a directory that can be taken.
fn names_in(slots: &mut BTreeMap<u64, Slot>, directory: u64) -> Option<&mut Names> {
    match slots.get_mut(&directory)? {
        Slot::Free(content) => content.names_mut(),
        Slot::Taken | Slot::Promised => None,
    }
}

/// Those of these numbers that aren't among the others.
fn without(alloc: Global, numbers: &[u64], others: &[u64]) -> Result<Vec<u64>, AllocError> {
    let mut rest = Vec::with_capacity(alloc, 2)?;
    for number in numbers {
        if !others.contains(number) {
            rest.push(*number)?;
        }
    }
    Ok(rest)
}

/// Whether the first of numbers that rise comes ahead of the last of others that do.
fn is_ahead(numbers: &[u64], others: &[u64]) -> bool {
    match (numbers.first(), others.last()) {
        (Some(least), Some(last)) => least <= last,
        _ => false,
    }
}

/// A part of the objects.
struct Shard {
    slots: Mutex<BTreeMap<u64, Slot>>,
    /// Told when an object was given back, or removed.
    freed: Condvar,
}

impl Drop for Shard {
    fn drop(self) {
        let Shard { slots, freed } = self;
        drop(slots);
        drop(freed);
    }
}

impl Shard {
    fn new(alloc: Global) -> Shard {
        Shard {
            slots: Mutex::new(BTreeMap::new(alloc)),
            freed: Condvar::new(),
        }
    }

    /// Takes an object, and waits while another call has it.
    fn take<R: Wait>(&self, rt: &R, number: u64) -> Option<Content> {
        let mut slots = self
            .freed
            .wait_while(rt, self.slots.lock(rt), |slots| is_taken(slots, number));
        take_out(&mut *slots, number)
    }

    /// Gives an object back, or puts one in its promised place.
    fn give<R: Wait>(&self, rt: &R, number: u64, content: Content) {
        {
            let mut slots = self.slots.lock(rt);
            put_back(&mut *slots, number, content);
        }
        self.freed.notify_all();
    }

    /// Makes a place for an object.
    fn promise<R: Wait>(&self, rt: &R, number: u64) -> Result<(), AllocError> {
        let mut slots = self.slots.lock(rt);
        slots.insert(number, Slot::Promised)?;
        Ok(())
    }

    /// Removes the place of an object.
    fn remove<R: Wait>(&self, rt: &R, number: u64) {
        {
            let mut slots = self.slots.lock(rt);
            let _ = slots.remove(&number);
        }
        self.freed.notify_all();
    }
}

/// The objects, in parts with a lock each, and which directory each directory lies in, under another lock. The place of an object
/// that is taken says so.
pub struct ObjectTable {
    shards: Vec<Shard>,
    /// Absent while a call has it.
    parents: Mutex<Option<Parents>>,
    parents_freed: Condvar,
    ghost all: { vec_len shards ≡ 64 },
}

impl Drop for ObjectTable {
    fn drop(self) {
        let ObjectTable {
            shards,
            parents,
            parents_freed,
        } = self;
        drop(shards);
        drop(parents);
        drop(parents_freed);
    }
}

/// The parts, all empty.
fn empty_shards(alloc: Global) -> Result<Vec<Shard>, AllocError>
    ensures { IfOk result (λ shards. vec_len shards ≡ 64) }
{
    (0..SHARDS).map(|_| Shard::new(alloc)).collect(alloc)
}

impl ObjectTable {
    /// The root directory alone.
    pub fn new(alloc: Global) -> Result<ObjectTable, AllocError> {
        let mut table = ObjectTable {
            shards: empty_shards(alloc)?,
            parents: Mutex::new(Some(Parents::new(alloc))),
            parents_freed: Condvar::new(),
        };
        table.insert(0, Content::Directory(Names::new(alloc)))?;
        Ok(table)
    }

    /// The part of an object.
    fn shard(&self, number: u64) -> &Shard {
        &self.shards[(number % SHARDS as u64) as usize]
    }

    /// Puts an object in, while no call is under way.
    pub(crate) fn insert(&mut self, number: u64, content: Content) -> Result<(), AllocError> {
        let shard = &mut self.shards[(number % SHARDS as u64) as usize];
        shard.slots.get_mut().insert(number, Slot::Free(content))?;
        Ok(())
    }

    /// Puts an object into a directory, while no call is under way.
    pub(crate) fn enter(
        &mut self,
        directory: u64,
        name: &[u8],
        object: u64,
    ) -> Result<(), AllocError> {
        let shard = &mut self.shards[(directory % SHARDS as u64) as usize];
        match names_in(shard.slots.get_mut(), directory) {
            Some(names) => names.insert(name, object),
            None => Ok(()),
        }
    }

    /// Puts a directory into another, while no call is under way.
    pub(crate) fn put_parent(&mut self, directory: u64, parent: u64) -> Result<(), AllocError> {
        match self.parents.get_mut() {
            Some(parents) => parents.put(directory, parent),
            None => Ok(()),
        }
    }

    /// Takes the directories' parents, and waits while another call has them. They are taken before any object.
    fn take_parents<R: Wait>(&self, rt: &R) -> Option<Parents> {
        let mut parents = self
            .parents_freed
            .wait_while(rt, self.parents.lock(rt), |parents| parents.is_none());
        parents.take()
    }

    /// Gives the directories' parents back.
    fn give_parents<R: Wait>(&self, rt: &R, parents: Parents) {
        {
            let mut place = self.parents.lock(rt);
            *place = Some(parents);
        }
        self.parents_freed.notify_all();
    }

    /// Takes those of these objects that are there.
    fn take_all<R: Wait>(
        &self,
        rt: &R,
        held: &mut Held,
        numbers: &[u64],
    ) -> Result<(), AllocError> {
        for number in numbers {
            held.nodes.reserve(1)?;
            if let Some(content) = self.shard(*number).take(rt, *number) {
                let node = Node {
                    number: *number,
                    content,
                };
                held.nodes.push(node).unwrap();
            }
        }
        Ok(())
    }

    /// Takes these objects, and what the names lead to. Where that would take one ahead of another that is held, it gives those that
    /// are to be taken next time.
    fn take_with_leads<R: Wait>(
        &self,
        rt: &R,
        alloc: Global,
        held: &mut Held,
        targets: &Targets<'_>,
        wanted: &[u64],
    ) -> Result<Option<Vec<u64>>, AllocError> {
        if targets.wants_parents() {
            held.parents = self.take_parents(rt);
        }
        self.take_all(rt, held, wanted)?;
        let leads = targets.leads(alloc, held)?;
        let missing = without(alloc, leads.as_slice(), wanted)?;
        if is_ahead(missing.as_slice(), wanted) {
            return Ok(Some(targets.handles_with(alloc, leads.as_slice())?));
        }
        self.take_all(rt, held, missing.as_slice())?;
        Ok(None)
    }

    /// Takes the objects of a call in rising order: those of its handles, and those that its names lead to. Where a name leads to one
    /// ahead of another that is held, all are given back, and it begins again.
    pub fn hold<R: Wait>(
        &self,
        rt: &R,
        alloc: Global,
        targets: &Targets<'_>,
    ) -> Result<Held, AllocError> {
        let mut wanted = targets.handles(alloc)?;
        for _ in rt.forever() {
            let mut held = Held::new(alloc)?;
            let taken = self.take_with_leads(rt, alloc, &mut held, targets, wanted.as_slice());
            match taken {
                Ok(None) => return Ok(held),
                Ok(Some(next)) => {
                    self.give_back(rt, held);
                    wanted = next;
                }
                Err(fault) => {
                    self.give_back(rt, held);
                    return Err(fault);
                }
            }
        }
        unreachable!()
    }

    /// Gives all objects of a call back.
    pub fn give_back<R: Wait>(&self, rt: &R, held: Held) {
        let (nodes, parents) = held.into_parts();
        for node in nodes {
            let (number, content) = node.into_parts();
            self.shard(number).give(rt, number, content);
        }
        if let Some(parents) = parents {
            self.give_parents(rt, parents);
        }
    }

    /// Makes a place for an object that a call is about to make.
    pub fn promise<R: Wait>(&self, rt: &R, number: u64) -> Result<(), AllocError> {
        self.shard(number).promise(rt, number)
    }

    /// Puts an object into its promised place.
    pub fn fulfil<R: Wait>(&self, rt: &R, number: u64, content: Content) {
        self.shard(number).give(rt, number, content);
    }

    /// Removes the place of an object, one that was removed or that wasn't made.
    pub fn remove<R: Wait>(&self, rt: &R, number: u64) {
        self.shard(number).remove(rt, number);
    }
}
