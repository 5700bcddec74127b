//! A state of a walk, in which calls are placed.

ghost use Rattle.std.specs.Prelude.{◌≡◌, ◌⊎◌, ℕ, List, false, [], None, Some, Err, Contains, IfOk, IsTrue};
ghost use Rattle.std.specs.Arc.{arc_value};
ghost use Rattle.tree_nodes.specs.Spots.{spot_of};
ghost use Rattle.tree_nodes.specs.Tree.{Tree};
ghost use Rattle.tree_handles.specs.Binding.{Bindings, object_of};
ghost use Rattle.file_tree.specs.Setting.{under};
ghost use Rattle.file_tree.specs.StartTree.{start_tree};
ghost use Rattle.file_tree.specs.Touching.{OnlyTouched};
ghost use Rattle.decision_steps.specs.Known.{AgreesWith, knows_handles};
ghost use Rattle.decision_steps.specs.Placing.{placed_in, Covers};
ghost use Rattle.decision_steps.specs.Differing.{AgreesOn, AreTheSameBut, NameTheSameBut, Keeps};
ghost use Rattle.decision_steps.specs.declared.fault.PlaceFault.TheVariants.{NotLegal, HandleNotGiven};

use crate::asked::{is_failure, knows_handles};
use crate::binding::{are_bound, bound_with};
use crate::difference::{
    Difference, Touched, difference_after, no_difference, not_among, put_handle, put_object, shared,
};
use crate::fault::PlaceFault;
use crate::given::{GivenHandle, given_handles};
use file_tree::FileTree;
use nfs3_types::{FileHandle, NfsCall, Outcome};
use replay_law::StepFault;
use std::alloc::{AllocError, Global};
use std::marker::Model;
use std::sync::Arc;
use tree_handles::{Binds, View};
use tree_starts::{Profile, SeenStart};

/// How many objects or handles of a state may differ from those that it is compared by, before it had better be compared by others.
const MOST_CHANGED: usize = 8;

/// A state: the tree, and the handles that are bound so far. It stands for every binding of all handles of a history that
/// binds those alike. States share what they have in common. Those that are compared by one tree and its handles know in what they
/// may differ from these, so that to compare two looks at nothing else.
pub struct State {
    tree: Arc<FileTree, Global>,
    binds: Arc<Binds, Global>,
    difference: Arc<Difference, Global>,
}

impl Drop for State {
    fn drop(self) {
        let State {
            tree,
            binds,
            difference,
        } = self;
        drop(tree);
        drop(binds);
        drop(difference);
    }
}

impl Model for State {
    ghost use Rattle.std.specs.Arc.{arc_value};
    ghost use Rattle.decision_steps.specs.Standing.{Standing, standing_code};
    ghost use Rattle.decision_steps.specs.Differing.{DiffersIn};

    ghost Value = { Standing };

    ghost coded = { standing_code };

    ghost view = { λ s. record { tree = arc_value s.tree; binds = arc_value s.binds; origin = (arc_value s.difference).origin } };

    ghost invariant = { λ s. DiffersIn (arc_value s.difference) (arc_value s.tree) (arc_value s.binds) };
}

/// A tree that states share.
fn shared_tree(alloc: Global, tree: FileTree) -> Result<Arc<FileTree, Global>, AllocError>
    ensures { IfOk result (λ shared. arc_value shared ≡ tree) }
{
    match Arc::new(alloc, tree) {
        Ok(shared) => Ok(shared),
        Err(_) => Err(AllocError),
    }
}

/// Handles that states share.
fn shared_binds(alloc: Global, binds: Binds) -> Result<Arc<Binds, Global>, AllocError>
    ensures { IfOk result (λ shared. arc_value shared ≡ binds) }
{
    match Arc::new(alloc, binds) {
        Ok(shared) => Ok(shared),
        Err(_) => Err(AllocError),
    }
}

/// The tree after a call, with the handles bound as they are, and the objects that the call touched. Nothing is copied where it is the same.
fn tree_stepped(
    alloc: Global,
    tree: &Arc<FileTree, Global>,
    profile: Profile,
    binds: &Binds,
    number: u64,
    call: &NfsCall,
    outcome: &Outcome,
) -> Result<(Arc<FileTree, Global>, Touched), PlaceFault>
    ensures next { IfOk result (λ after. under profile binds.now (arc_value tree.now) number call.now outcome.now ≡ Some (arc_value after.0)) }
    ensures touched { IfOk result (λ after. OnlyTouched after.1 (arc_value after.0) (arc_value tree.now)) }
    ensures not_legal { result ≡ Err NotLegal → under profile binds.now (arc_value tree.now) number call.now outcome.now ≡ None }
    ensures decided { result ≡ Err HandleNotGiven → ⊥ }
{
    match tree.after(profile, binds, number, call, outcome) {
        Ok(Some((after, touched))) => Ok((shared_tree(alloc, after)?, touched)),
        Ok(None) => Ok((tree.clone()?, (None, None))),
        Err(StepFault::NotAllowed) => Err(PlaceFault::NotLegal),
        Err(StepFault::NoMemory) => Err(PlaceFault::NoMemory),
    }
}

/// Puts an object there, unless it lies in both trees in the same place, and is the same.
fn put_unlike(
    objects: &mut Vec<u64>,
    tree: &FileTree,
    other: &FileTree,
    object: u64,
) -> Result<(), AllocError>
    ensures keeps { IfOk result (λ _. Keeps objects.old.items objects.new.items) }
    ensures has { IfOk result (λ _. Contains objects.new.items object ⊎ (spot_of tree.now object ≡ spot_of other.now object)) }
{
    if tree.nodes().has_spot_of(other.nodes(), object) {
        return Ok(());
    }
    put_object(objects, object)
}

/// Puts a handle there, unless it names the same by both.
fn put_rebound(
    handles: &mut Vec<FileHandle>,
    binds: &Binds,
    others: &Binds,
    handle: &FileHandle,
) -> Result<(), AllocError>
    ensures keeps { IfOk result (λ _. Keeps handles.old.items handles.new.items) }
    ensures has { IfOk result (λ _. Contains handles.new.items handle.now ⊎ (object_of binds.now handle.now ≡ object_of others.now handle.now)) }
{
    if binds.object(handle.as_slice()) == others.object(handle.as_slice()) {
        return Ok(());
    }
    put_handle(handles, handle)
}

/// Whether each of these handles, if it is bound by the first, names the same by the second.
fn agree_on(binds: &Binds, others: &Binds, handles: &[FileHandle]) -> bool
    ensures { IsTrue result → AgreesOn handles.now binds.now others.now }
{
    for handle in handles {
        let bytes = handle.as_slice();
        if binds.object(bytes).is_some() && binds.object(bytes) != others.object(bytes) {
            return false;
        }
    }
    true
}

impl State {
    /// What stands before any call: the tree of what the server held at first, and the root's handle alone. It is told which handles may be
    /// bound later, so that binding one of them copies few others.
    pub fn opening(
        alloc: Global,
        root: &[u8],
        start: &SeenStart<'_>,
        handles: &[&FileHandle],
    ) -> Result<State, AllocError>
        ensures tree { IfOk result (λ state. state.tree ≡ start_tree start.now) }
        ensures binds { IfOk result (λ state. state.binds ≡ record { root = root.now; pairs = [] }) }
        ensures origin { IfOk result (λ state. state.origin ≡ (state.tree, state.binds)) }
        ensures covers { IfOk result (λ state. (plan : Bindings) → plan.root ≡ root.now → AgreesWith state.binds plan) }
    {
        let tree = shared_tree(alloc, FileTree::of_start(alloc, start)?)?;
        let mut binds = Binds::of_root(alloc, root)?;
        for handle in handles {
            binds.know(handle.as_slice())?;
        }
        let binds = shared_binds(alloc, binds)?;
        let difference = no_difference(alloc, &tree, &binds)?;
        Ok(State {
            tree,
            binds,
            difference,
        })
    }

    /// The same state.
    pub fn copy(&self) -> Result<State, AllocError>
        ensures { IfOk result (λ copy. copy ≡ self.now) }
    {
        Ok(State {
            tree: self.tree.clone()?,
            binds: self.binds.clone()?,
            difference: self.difference.clone()?,
        })
    }

    /// The other state's tree, with the handles that are bound here.
    pub fn with_tree_of(&self, other: &State) -> Result<State, AllocError>
        requires { self.now.origin ≡ other.now.origin }
        ensures { IfOk result (λ back. back ≡ record self.now { tree = other.now.tree }) }
    {
        let difference = self.difference.with_objects_of(&other.difference)?;
        Ok(State {
            tree: other.tree.clone()?,
            binds: self.binds.clone()?,
            difference: shared(self.difference.alloc, difference)?,
        })
    }

    /// The tree.
    pub fn tree(&self) -> &FileTree
        ensures { result.now ≡ self.now.tree }
    {
        self.tree.as_ref()
    }

    /// The handles that are bound.
    pub fn binds(&self) -> &Binds
        ensures { result.now ≡ self.now.binds }
    {
        self.binds.as_ref()
    }

    /// The bound handles with their objects, but for the root's.
    pub fn bound(&self) -> Result<Vec<(Vec<u8>, u64)>, AllocError> {
        self.binds.list()
    }

    /// A number of the tree, the same of trees that are the same.
    pub fn number(&self) -> u64 {
        self.tree.number()
    }

    /// Whether so much differs from what the state is compared by that it had better be compared by something else.
    pub fn is_worn(&self) -> bool {
        self.difference.objects.len() > MOST_CHANGED || self.difference.handles.len() > MOST_CHANGED
    }

    /// Whether both have the same tree. Both are compared by the same.
    pub fn has_tree_of(&self, other: &State) -> bool
        requires { self.now.origin ≡ other.now.origin }
        ensures { IsTrue result → self.now.tree ≡ other.now.tree }
    {
        let objects = self.difference.objects.as_slice();
        let others = other.difference.objects.as_slice();
        match not_among(self.difference.alloc, others, objects) {
            Ok(rest) => self.tree.is_same_at(&other.tree, objects, rest.as_slice()),
            Err(_) => self.tree.is_same_at(&other.tree, objects, others),
        }
    }

    /// Whether each handle that is bound here names the same there. Both are compared by the same.
    pub fn agrees_with(&self, other: &State) -> bool
        requires { self.now.origin ≡ other.now.origin }
        ensures { IsTrue result → AgreesWith self.now.binds other.now.binds }
    {
        let binds = self.binds.as_ref();
        let others = other.binds.as_ref();
        agree_on(binds, others, self.difference.handles.as_slice())
            && agree_on(binds, others, other.difference.handles.as_slice())
    }

    /// Puts those of these objects there that don't lie in both trees in the same place, or aren't the same.
    fn put_all_unlike(
        &self,
        like: &State,
        among: &[u64],
        objects: &mut Vec<u64>,
    ) -> Result<(), AllocError>
        ensures keeps { IfOk result (λ _. Keeps objects.old.items objects.new.items) }
        ensures rest { IfOk result (λ _. (o : ℕ) → Contains among.now o → Contains objects.new.items o ⊎ (spot_of self.now.tree o ≡ spot_of like.now.tree o)) }
    {
        for object in among {
            put_unlike(objects, &self.tree, &like.tree, *object)?;
        }
        Ok(())
    }

    /// The objects that don't lie in both trees in the same place, or aren't the same.
    fn unlike_objects(&self, like: &State) -> Result<Vec<u64>, AllocError>
        requires { self.now.origin ≡ like.now.origin }
        ensures { IfOk result (λ objects. AreTheSameBut objects.items self.now.tree like.now.tree) }
    {
        let mut objects = Vec::new(self.difference.alloc);
        self.put_all_unlike(like, self.difference.objects.as_slice(), &mut objects)?;
        self.put_all_unlike(like, like.difference.objects.as_slice(), &mut objects)?;
        Ok(objects)
    }

    /// Puts those of these handles there that don't name the same by both.
    fn put_all_rebound(
        &self,
        like: &State,
        among: &[FileHandle],
        handles: &mut Vec<FileHandle>,
    ) -> Result<(), AllocError>
        ensures keeps { IfOk result (λ _. Keeps handles.old.items handles.new.items) }
        ensures rest { IfOk result (λ _. (h : List ℕ) → Contains among.now h → Contains handles.new.items h ⊎ (object_of self.now.binds h ≡ object_of like.now.binds h)) }
    {
        for handle in among {
            put_rebound(handles, &self.binds, &like.binds, handle)?;
        }
        Ok(())
    }

    /// The handles that don't name the same by both.
    fn unlike_handles(&self, like: &State) -> Result<Vec<FileHandle>, AllocError>
        requires { self.now.origin ≡ like.now.origin }
        ensures { IfOk result (λ handles. NameTheSameBut handles.items self.now.binds like.now.binds) }
    {
        let mut handles = Vec::new(self.difference.alloc);
        self.put_all_rebound(like, self.difference.handles.as_slice(), &mut handles)?;
        self.put_all_rebound(like, like.difference.handles.as_slice(), &mut handles)?;
        Ok(handles)
    }

    /// The same state, compared by another one. Both were compared by the same.
    pub fn renewed(&self, like: &State) -> Result<State, AllocError>
        requires { self.now.origin ≡ like.now.origin }
        ensures { IfOk result (λ after. after ≡ record self.now { origin = (like.now.tree, like.now.binds) }) }
    {
        let alloc = self.difference.alloc;
        let difference = Difference {
            alloc,
            tree: like.tree.clone()?,
            binds: like.binds.clone()?,
            objects: self.unlike_objects(like)?,
            handles: self.unlike_handles(like)?,
        };
        Ok(State {
            tree: self.tree.clone()?,
            binds: self.binds.clone()?,
            difference: shared(alloc, difference)?,
        })
    }

    /// Places a call whose handles are bound.
    fn place_known(
        &self,
        alloc: Global,
        profile: Profile,
        number: u64,
        call: &NfsCall,
        outcome: &Outcome,
    ) -> Result<State, PlaceFault>
        requires { IsTrue (knows_handles self.now.binds call.now) }
        ensures covers { (plan : Bindings) (after : Tree) → AgreesWith self.now.binds plan → under profile plan self.now.tree number call.now outcome.now ≡ Some after
            → Covers result self.now call.now plan after }
        ensures next { IfOk result (λ next. placed_in profile self.now number call.now outcome.now ≡ Some next) }
        ensures origin { IfOk result (λ next. next.origin ≡ self.now.origin) }
        ensures not_legal { result ≡ Err NotLegal → placed_in profile self.now number call.now outcome.now ≡ None }
        ensures decided { result ≡ Err HandleNotGiven → ⊥ }
    {
        let view = View {
            binds: &self.binds,
            nodes: self.tree.nodes(),
        };
        let given = given_handles(alloc, &view, number, call, outcome)?;
        let binds = bound_with(alloc, &self.binds, given.as_slice())?;
        let (tree, touched) = tree_stepped(
            alloc, &self.tree, profile, &binds, number, call, outcome,
        )?;
        let difference = difference_after(
            &self.difference,
            &self.binds,
            touched,
            given.as_slice(),
        )?;
        Ok(State {
            tree,
            binds,
            difference,
        })
    }

    /// The state with this tree, after a call that touched these objects and gave no handle.
    fn with_tree(&self, tree: Arc<FileTree, Global>, touched: Touched) -> Result<State, AllocError>
        requires { OnlyTouched touched (arc_value tree) self.now.tree }
        ensures { IfOk result (λ next. next ≡ record self.now { tree = arc_value tree }) }
    {
        let difference = difference_after(&self.difference, &self.binds, touched, &[])?;
        Ok(State {
            tree,
            binds: self.binds.clone()?,
            difference,
        })
    }

    /// Places a call that names a handle which isn't bound: a failure that is permitted though it names nothing.
    fn place_unknown(
        &self,
        alloc: Global,
        profile: Profile,
        number: u64,
        call: &NfsCall,
        outcome: &Outcome,
    ) -> Result<State, PlaceFault>
        requires { knows_handles self.now.binds call.now ≡ false }
        ensures covers { (plan : Bindings) (after : Tree) → AgreesWith self.now.binds plan → under profile plan self.now.tree number call.now outcome.now ≡ Some after
            → Covers result self.now call.now plan after }
        ensures next { IfOk result (λ next. placed_in profile self.now number call.now outcome.now ≡ Some next) }
        ensures origin { IfOk result (λ next. next.origin ≡ self.now.origin) }
        ensures not_legal { result ≡ Err NotLegal → ⊥ }
    {
        if !is_failure(outcome) {
            return Err(PlaceFault::HandleNotGiven);
        }
        match tree_stepped(
            alloc,
            &self.tree,
            profile,
            &self.binds,
            number,
            call,
            outcome,
        ) {
            Ok((tree, touched)) => Ok(self.with_tree(tree, touched)?),
            Err(PlaceFault::NotLegal) => Err(PlaceFault::HandleNotGiven),
            Err(fault) => Err(fault),
        }
    }

    /// The state after a call with its outcome. What the call makes, if anything, is the object of this number. The handles that its
    /// reply gives are bound to the objects that they have to name.
    pub fn place(
        &self,
        alloc: Global,
        profile: Profile,
        number: u64,
        call: &NfsCall,
        outcome: &Outcome,
    ) -> Result<State, PlaceFault>
        // Each binding of all handles that agrees with the state's, and by which the call leads to a tree, is covered.
        ensures covers { (plan : Bindings) (after : Tree) → AgreesWith self.now.binds plan → under profile plan self.now.tree number call.now outcome.now ≡ Some after
            → Covers result self.now call.now plan after }
        ensures next { IfOk result (λ next. placed_in profile self.now number call.now outcome.now ≡ Some next) }
        ensures origin { IfOk result (λ next. next.origin ≡ self.now.origin) }
        ensures not_legal { result ≡ Err NotLegal → placed_in profile self.now number call.now outcome.now ≡ None }
        ensures undecided { result ≡ Err HandleNotGiven → knows_handles self.now.binds call.now ≡ false }
    {
        if knows_handles(&self.binds, call) {
            self.place_known(alloc, profile, number, call, outcome)
        } else {
            self.place_unknown(alloc, profile, number, call, outcome)
        }
    }

    /// Whether a call comes out so here, leaves the tree as it is, and gives no handle that isn't bound.
    pub fn is_left_by(
        &self,
        alloc: Global,
        profile: Profile,
        number: u64,
        call: &NfsCall,
        outcome: &Outcome,
    ) -> Result<bool, AllocError> {
        if !knows_handles(&self.binds, call) && !is_failure(outcome) {
            return Ok(false);
        }
        let view = View {
            binds: &self.binds,
            nodes: self.tree.nodes(),
        };
        let given = given_handles(alloc, &view, number, call, outcome)?;
        if !are_bound(&self.binds, given.as_slice()) {
            return Ok(false);
        }
        match self.tree.after(profile, &self.binds, number, call, outcome) {
            Ok(next) => Ok(next.is_none()),
            Err(StepFault::NotAllowed) => Ok(false),
            Err(StepFault::NoMemory) => Err(AllocError),
        }
    }

    /// The state in which a handle that isn't bound names this object.
    pub fn guess(
        &self,
        alloc: Global,
        handle: &FileHandle,
        object: u64,
    ) -> Result<State, AllocError>
        requires { object_of self.now.binds handle.now ≡ None }
        ensures names { IfOk result (λ more. object_of more.binds handle.now ≡ Some object) }
        ensures covers { IfOk result (λ more. (plan : Bindings) → AgreesWith self.now.binds plan → object_of plan handle.now ≡ Some object → AgreesWith more.binds plan) }
        ensures tree { IfOk result (λ more. more.tree ≡ self.now.tree) }
        ensures origin { IfOk result (λ more. more.origin ≡ self.now.origin) }
    {
        let mut more = self.binds.copy()?;
        more.push(handle.as_slice(), object)?;
        let given = [GivenHandle { handle, object }];
        let difference = difference_after(&self.difference, &self.binds, (None, None), &given)?;
        Ok(State {
            tree: self.tree.clone()?,
            binds: shared_binds(alloc, more)?,
            difference,
        })
    }
}
