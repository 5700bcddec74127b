//! In what a state may differ from the one that it is compared by.

ghost use Rattle.std.specs.Prelude.{◌≡◌, ℕ, List, [], ◌⊎◌, Contains, IsSome, IfOk, IsTrue, Some};
ghost use Rattle.std.specs.Arc.{arc_value};
ghost use Rattle.tree_handles.specs.Binding.{object_of};
ghost use Rattle.tree_nodes.specs.Spots.{spot_of};
ghost use Rattle.file_tree.specs.Touching.{IsOneOf};
ghost use Rattle.decision_steps.specs.Listed.{given_pairs};
ghost use Rattle.decision_steps.specs.declared.given.GivenHandle.{GivenHandle};
ghost use Rattle.decision_steps.specs.Differing.{DiffersIn, Keeps, Notes};

use crate::binding::are_bound;
use crate::given::GivenHandle;
use file_tree::FileTree;
use nfs3_types::FileHandle;
use std::alloc::{AllocError, Global};
use std::marker::Model;
use std::sync::Arc;
use tree_handles::Binds;

/// The objects that a call touched.
pub(crate) type Touched = (Option<u64>, Option<u64>);

/// A tree and handles that many states are compared by, the objects that may lie elsewhere in a state or be others, and the handles that may
/// name something else.
pub(crate) struct Difference {
    pub(crate) alloc: Global,
    pub(crate) tree: Arc<FileTree, Global>,
    pub(crate) binds: Arc<Binds, Global>,
    pub(crate) objects: Vec<u64>,
    pub(crate) handles: Vec<FileHandle>,
}

impl Drop for Difference {
    fn drop(self) {
        let Difference {
            alloc: _,
            tree,
            binds,
            objects,
            handles,
        } = self;
        drop(tree);
        drop(binds);
        drop(objects);
        drop(handles);
    }
}

impl Model for Difference {
    ghost use Rattle.std.specs.Arc.{arc_value};
    ghost use Rattle.decision_steps.specs.Differing.{DifferenceView, difference_code};

    ghost Value = { DifferenceView };

    ghost coded = { difference_code };

    ghost view = { λ d. record { origin = (arc_value d.tree, arc_value d.binds); objects = d.objects.items; handles = d.handles.items } };
}

/// A difference that states share.
pub(crate) fn shared(
    alloc: Global,
    difference: Difference,
) -> Result<Arc<Difference, Global>, AllocError>
    ensures { IfOk result (λ shared. arc_value shared ≡ difference) }
{
    match Arc::new(alloc, difference) {
        Ok(shared) => Ok(shared),
        Err(_) => Err(AllocError),
    }
}

/// Puts an object there, unless it is there.
pub(crate) fn put_object(objects: &mut Vec<u64>, object: u64) -> Result<(), AllocError>
    ensures keeps { IfOk result (λ _. Keeps objects.old.items objects.new.items) }
    ensures has { IfOk result (λ _. Contains objects.new.items object) }
{
    for one in objects.as_slice() {
        if *one == object {
            return Ok(());
        }
    }
    objects.push(object)?;
    Ok(())
}

/// Whether an object is one of these.
fn is_among(objects: &[u64], object: u64) -> bool
    ensures { IsTrue result → Contains objects.now object }
{
    for one in objects {
        if *one == object {
            return true;
        }
    }
    false
}

/// Puts an object there, unless it is one of these.
fn put_other(rest: &mut Vec<u64>, objects: &[u64], object: u64) -> Result<(), AllocError>
    ensures keeps { IfOk result (λ _. Keeps rest.old.items rest.new.items) }
    ensures has { IfOk result (λ _. Contains objects.now object ⊎ Contains rest.new.items object) }
{
    if is_among(objects, object) {
        return Ok(());
    }
    rest.push(object)?;
    Ok(())
}

/// Those of the first that aren't among the second, so that no object is looked at twice.
pub(crate) fn not_among(
    alloc: Global,
    others: &[u64],
    objects: &[u64],
) -> Result<Vec<u64>, AllocError>
    ensures { IfOk result (λ rest. (o : ℕ) → Contains others.now o → Contains objects.now o ⊎ Contains rest.items o) }
{
    let mut rest = Vec::new(alloc);
    for object in others {
        put_other(&mut rest, objects, *object)?;
    }
    Ok(rest)
}

/// Puts an object there, if there is one.
fn put_touched(objects: &mut Vec<u64>, touched: Option<u64>) -> Result<(), AllocError>
    ensures keeps { IfOk result (λ _. Keeps objects.old.items objects.new.items) }
    ensures has { IfOk result (λ _. (o : ℕ) → touched ≡ Some o → Contains objects.new.items o) }
{
    match touched {
        Some(object) => put_object(objects, object),
        None => Ok(()),
    }
}

/// Puts a handle there.
pub(crate) fn put_handle(
    handles: &mut Vec<FileHandle>,
    handle: &FileHandle,
) -> Result<(), AllocError>
    ensures keeps { IfOk result (λ _. Keeps handles.old.items handles.new.items) }
    ensures has { IfOk result (λ _. Contains handles.new.items handle.now) }
{
    handles.push(handle.clone()?)?;
    Ok(())
}

/// Puts a handle there that a reply gave, unless it was bound.
fn put_given(
    handles: &mut Vec<FileHandle>,
    binds: &Binds,
    handle: &FileHandle,
) -> Result<(), AllocError>
    ensures keeps { IfOk result (λ _. Keeps handles.old.items handles.new.items) }
    ensures has { IfOk result (λ _. Contains handles.new.items handle.now ⊎ IsSome (object_of binds.now handle.now)) }
{
    if binds.object(handle.as_slice()).is_some() {
        return Ok(());
    }
    put_handle(handles, handle)
}

impl Difference {
    /// The objects, with those that a call touched.
    fn objects_and(&self, touched: Touched) -> Result<Vec<u64>, AllocError>
        ensures keeps { IfOk result (λ objects. Keeps self.now.objects objects.items) }
        ensures has { IfOk result (λ objects. (o : ℕ) → IsOneOf touched o → Contains objects.items o) }
    {
        let mut objects = Vec::from_slice(self.alloc, self.objects.as_slice())?;
        put_touched(&mut objects, touched.0)?;
        put_touched(&mut objects, touched.1)?;
        Ok(objects)
    }

    /// The handles, once more.
    pub(crate) fn handles_too(&self) -> Result<Vec<FileHandle>, AllocError>
        ensures { IfOk result (λ handles. Keeps self.now.handles handles.items) }
    {
        let mut handles = Vec::new(self.alloc);
        for handle in &self.handles {
            put_handle(&mut handles, handle)?;
        }
        Ok(handles)
    }

    /// The difference, with the objects of another one.
    pub(crate) fn with_objects_of(&self, other: &Difference) -> Result<Difference, AllocError>
        ensures origin { IfOk result (λ difference. difference.origin ≡ self.now.origin) }
        ensures objects { IfOk result (λ difference. difference.objects ≡ other.now.objects) }
        ensures handles { IfOk result (λ difference. Keeps self.now.handles difference.handles) }
    {
        Ok(Difference {
            alloc: self.alloc,
            tree: self.tree.clone()?,
            binds: self.binds.clone()?,
            objects: Vec::from_slice(self.alloc, other.objects.as_slice())?,
            handles: self.handles_too()?,
        })
    }

    /// The handles, with those that a reply gave and that weren't bound.
    fn handles_and(
        &self,
        binds: &Binds,
        given: &[GivenHandle<'_>],
    ) -> Result<Vec<FileHandle>, AllocError>
        ensures keeps { IfOk result (λ handles. Keeps self.now.handles handles.items) }
        ensures has { IfOk result (λ handles. (one : GivenHandle) → Contains given.now one → Contains handles.items one.handle.now ⊎ IsSome (object_of binds.now one.handle.now)) }
    {
        let mut handles = self.handles_too()?;
        for one in given {
            put_given(&mut handles, binds, one.handle)?;
        }
        Ok(handles)
    }
}

/// The difference after a call that touched these objects, and whose reply gave these handles.
pub(crate) fn difference_after(
    difference: &Arc<Difference, Global>,
    binds: &Binds,
    touched: Touched,
    given: &[GivenHandle<'_>],
) -> Result<Arc<Difference, Global>, AllocError>
    ensures { IfOk result (λ after. Notes (arc_value difference.now) touched binds.now (given_pairs given.now) (arc_value after)) }
{
    if touched.0.is_none() && touched.1.is_none() && are_bound(binds, given) {
        let same = difference.clone()?;
        return Ok(same);
    }
    let objects = difference.objects_and(touched)?;
    let handles = difference.handles_and(binds, given)?;
    let after = Difference {
        alloc: difference.alloc,
        tree: difference.tree.clone()?,
        binds: difference.binds.clone()?,
        objects,
        handles,
    };
    let after = shared(difference.alloc, after)?;
    Ok(after)
}

/// No difference.
pub(crate) fn no_difference(
    alloc: Global,
    tree: &Arc<FileTree, Global>,
    binds: &Arc<Binds, Global>,
) -> Result<Arc<Difference, Global>, AllocError>
    ensures origin { IfOk result (λ difference. (arc_value difference).origin ≡ (arc_value tree.now, arc_value binds.now)) }
    ensures differs { IfOk result (λ difference. DiffersIn (arc_value difference) (arc_value tree.now) (arc_value binds.now)) }
{
    let none = Difference {
        alloc,
        tree: tree.clone()?,
        binds: binds.clone()?,
        objects: Vec::new(alloc),
        handles: Vec::new(alloc),
    };
    shared(alloc, none)
}
