//! The objects that a server held at first, owned.

ghost use Rattle.std.specs.Prelude.{◌≡◌, ◌+◌, ◌∷◌, ◌++◌, [], length, IfOk, OnOk};
ghost use Rattle.tree_starts.specs.Seen.{all_seen};
ghost use Rattle.tree_starts.specs.Start.{keys_of, IsStart, IsJudged, object_fault, start_fault};

use crate::fault::StartFault;
use crate::object::{START_LIMIT, StartObject};
use crate::seen::{SeenObject, SeenStart};
use crate::table::StartTable;
use std::alloc::{AllocError, Global};
use std::marker::Model;

/// What a server held at first. Contracts see it as the list of its objects, which is a start.
pub struct Start {
    objects: Vec<StartObject>,
}

impl Model for Start {
    ghost use Rattle.std.specs.Prelude.{List};
    ghost use Rattle.tree_starts.specs.Start.{IsStart};
    ghost use Rattle.tree_starts.specs.declared.object.StartObject.{StartObject};

    ghost Value = { List StartObject };

    ghost view = { λ s. s.objects.items };

    ghost invariant = { λ s. IsStart s.objects.items };
}

impl Drop for Start {
    fn drop(self) {
        let Start { objects } = self;
        drop(objects);
    }
}

/// Puts the next object after the others, where it may stand.
fn take_next<'a>(
    table: &mut StartTable<'a>,
    number: u64,
    object: &'a StartObject,
) -> Result<(), StartFault>
    requires { number ≡ length table.old + 1 }
    ensures judged { IsJudged (object_fault (keys_of table.old) number object.now) result }
    ensures pushed { OnOk result (table.new ≡ table.old ++ object.now ∷ []) }
{
    let seen = object.as_seen();
    if let Some(fault) = table.fault_of(number, &seen) {
        return Err(fault);
    }
    table.push(&seen)?;
    Ok(())
}

/// Whether these are a start.
fn judge(alloc: Global, objects: &[StartObject]) -> Result<(), StartFault>
    ensures { IsJudged (start_fault objects.now) result }
{
    if objects.len() > START_LIMIT {
        return Err(StartFault::TooLarge(START_LIMIT as u64 + 1));
    }
    let mut table = StartTable::new(alloc);
    for (index, object) in objects.iter().enumerate() {
        match take_next(&mut table, index as u64 + 1, object) {
            Ok(()) => {}
            Err(fault) => return Err(fault),
        }
    }
    Ok(())
}

/// The objects, with their names and bytes lent.
fn lend_objects(alloc: Global, objects: &[StartObject]) -> Result<Vec<SeenObject<'_>>, AllocError>
    ensures { IfOk result (λ v. all_seen v.items ≡ objects.now) }
{
    let mut seen = Vec::with_capacity(alloc, objects.len())?;
    for object in objects {
        let lent = object.as_seen();
        seen.push(lent)?;
    }
    Ok(seen)
}

/// The objects, each with a copy of its name and bytes.
fn copy_objects(alloc: Global, seen: &[SeenObject<'_>]) -> Result<Vec<StartObject>, AllocError>
    requires { IsStart (all_seen seen.now) }
    ensures { IfOk result (λ v. v.items ≡ all_seen seen.now) }
{
    let mut objects = Vec::with_capacity(alloc, seen.len())?;
    for object in seen {
        let copy = StartObject::from_seen(alloc, object)?;
        objects.push(copy)?;
    }
    Ok(objects)
}

impl Start {
    /// That of a server which held nothing.
    #[tactic(auto, unfolding(crate::specs::Start::fault_from))]
    pub fn empty(alloc: Global) -> Start
        ensures { result ≡ [] }
    {
        Start {
            objects: Vec::new(alloc),
        }
    }

    /// These objects, where they are a start.
    pub fn new(alloc: Global, objects: Vec<StartObject>) -> Result<Start, StartFault>
        ensures found { IfOk result (λ s. s ≡ objects.items) }
        // Exactly a start is taken, memory aside, and the first fault of anything else is named.
        ensures judged { IsJudged (start_fault objects.items) result }
    {
        judge(alloc, objects.as_slice())?;
        Ok(Start { objects })
    }

    /// The objects, in the order of their numbers.
    pub fn objects(&self) -> &[StartObject]
        ensures value { result.now ≡ self.now }
        ensures start { IsStart self.now }
    {
        self.objects.as_slice()
    }

    /// The same, with the names and bytes lent.
    pub fn lend(&self, alloc: Global) -> Result<SeenStart<'_>, AllocError>
        ensures { IfOk result (λ s. s ≡ self.now) }
    {
        let seen = lend_objects(alloc, self.objects.as_slice())?;
        Ok(SeenStart::of_objects(seen))
    }

    /// The same, with a copy of the names and bytes.
    pub fn of_seen(alloc: Global, seen: &SeenStart<'_>) -> Result<Start, AllocError>
        ensures { IfOk result (λ s. s ≡ seen.now) }
    {
        let objects = copy_objects(alloc, seen.objects())?;
        Ok(Start { objects })
    }

    /// A copy.
    pub fn copy(&self) -> Result<Start, AllocError>
        ensures { IfOk result (λ s. s ≡ self.now) }
    {
        let alloc = *self.objects.allocator();
        let seen = self.lend(alloc)?;
        Start::of_seen(alloc, &seen)
    }
}
