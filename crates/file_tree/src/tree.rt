//! The file tree, stepped by the calls of a history and taken back.

ghost use Rattle.std.specs.Prelude.{◌≡◌, ◌↔◌, Some, None, Err, OnOk, OnErr, IfOk, IfSome, IsTrue, option_map, unwrap_or};
ghost use Rattle.replay_law.specs.declared.replay.StepFault.TheVariants.{NotAllowed};
ghost use Rattle.tree_nodes.specs.Tree.{opening};
ghost use Rattle.tree_nodes.specs.Spots.{AreOthersSame};
ghost use Rattle.tree_nodes.specs.Undo.{TakesBack, held_nodes};
ghost use Rattle.file_tree.specs.Allows.{AllowsSuccess};
ghost use Rattle.file_tree.specs.Change.{Change};
ghost use Rattle.file_tree.specs.Planning.{Does};
ghost use Rattle.file_tree.specs.Judging.{change_under};
ghost use Rattle.file_tree.specs.Setting.{under};
ghost use Rattle.file_tree.specs.StartTree.{start_tree};
ghost use Rattle.file_tree.specs.Success.{changed};
ghost use Rattle.file_tree.specs.Touching.{touched_by, OnlyTouched};
ghost use Rattle.tree_nodes.specs.Printed.{tree_text, IsPrintable};
ghost use Rattle.tree_nodes.specs.Unprinted.{same_text};

use crate::allowed::may_succeed;
use crate::judged::change_under;
use crate::object_change::ObjectChange;
use crate::setting::TreeSetting;
use crate::start::nodes_of;
use nfs3_types::{NfsCall, Outcome};
use replay_law::{Replayable, StepFault};
use std::alloc::{AllocError, Global};
use std::marker::Model;
use tree_answers::tree_handles::{Binds, View};
use tree_nodes::{Nodes, Undo};
use tree_starts::{Profile, SeenStart};

/// A file tree. Contracts see it as a finite map from paths to nodes.
pub struct FileTree {
    alloc: Global,
    nodes: Nodes,
    /// A number of what the calls changed that led from one tree to the next, each a copy: trees that come of one and are the same have the
    /// same. What changes a tree in place leaves it.
    number: u64,
}

impl Drop for FileTree {
    fn drop(self) {
        let FileTree {
            alloc: _,
            nodes,
            number: _,
        } = self;
        drop(nodes);
    }
}

impl Model for FileTree {
    ghost use Rattle.tree_nodes.specs.Tree.{Tree};

    ghost Value = { Tree };

    ghost use Rattle.std.specs.FinMap as map;
    ghost use Rattle.std.specs.Coded.{coded_list, coded_ℕ};
    ghost use Rattle.tree_nodes.specs.contracts.node.Node as node;

    ghost coded = { map.code (coded_list (coded_list coded_ℕ)) node.the_row.coded };

    ghost view = { λ t. t.nodes };
}

/// The objects that a change touches: the one that it makes, writes, takes away or moves, and the one whose name it takes.
type Touched = (Option<u64>, Option<u64>);

fn touched(nodes: &Nodes, plan: &ObjectChange<'_>) -> Touched
    ensures { result ≡ touched_by nodes.now plan.now }
{
    match plan {
        ObjectChange::Keep => (None, None),
        ObjectChange::Make { node, .. } => (Some(node.object), None),
        ObjectChange::Write { object, .. }
        | ObjectChange::Resize { object, .. }
        | ObjectChange::Remove { object } => (Some(*object), None),
        ObjectChange::Rename {
            object,
            directory,
            name,
        } => (Some(*object), nodes.object(*directory, name)),
    }
}

/// A number of two objects.
fn number_of(nodes: &Nodes, (one, other): Touched) -> u64 {
    let mut number: u64 = 0;
    if let Some(object) = one {
        number = number.wrapping_add(nodes.number_of(object));
    }
    if let Some(object) = other {
        number = number.wrapping_add(nodes.number_of(object));
    }
    number
}

impl FileTree {
    /// Does what is planned.
    fn carry_out(&mut self, plan: ObjectChange<'_>) -> Result<Undo, AllocError>
        requires { (change : Change) × Does self.old plan change }
        ensures next { OnOk result ((change : Change) → Does self.old plan.entry change → self.new ≡ changed self.old change) }
        ensures spots { OnOk result (OnlyTouched (touched_by self.old plan.entry) self.new self.old) }
        ensures undo { IfOk result (λ undo. TakesBack undo self.new self.old) }
        ensures err { OnErr result (self.new ≡ self.old) }
    {
        match plan {
            ObjectChange::Keep => Ok(Undo::nothing()),
            ObjectChange::Make {
                directory,
                name,
                node,
            } => self.nodes.make(directory, name, node),
            ObjectChange::Write {
                object,
                offset,
                bytes,
            } => self.nodes.write(object, offset, bytes),
            ObjectChange::Resize { object, size } => self.nodes.resize(object, size),
            ObjectChange::Remove { object } => self.nodes.remove(object),
            ObjectChange::Rename {
                object,
                directory,
                name,
            } => self.nodes.rename(object, directory, name),
        }
    }
}

impl FileTree {
    /// The root alone.
    pub fn empty(alloc: Global) -> Result<FileTree, AllocError>
        ensures { IfOk result (λ tree. tree ≡ opening) }
    {
        Ok(FileTree {
            alloc,
            nodes: Nodes::opening(alloc)?,
            number: 0,
        })
    }

    /// The root and what stood at first.
    pub fn of_start(alloc: Global, start: &SeenStart<'_>) -> Result<FileTree, AllocError>
        ensures { IfOk result (λ tree. tree ≡ start_tree start.now) }
    {
        Ok(FileTree {
            alloc,
            nodes: nodes_of(alloc, start)?,
            number: 0,
        })
    }

    /// Does what a call with its outcome makes of the tree, where the profile lets it.
    fn step_planned(
        &mut self,
        profile: Profile,
        binds: &Binds,
        number: u64,
        call: &NfsCall,
        outcome: &Outcome,
    ) -> Result<Undo, StepFault>
        ensures next { OnOk result (option_map (changed self.old) (change_under profile binds.now self.old number call.now outcome.now) ≡ Some self.new) }
        ensures undo { IfOk result (λ undo. TakesBack undo self.new self.old) }
        ensures not_allowed { result ≡ Err NotAllowed → change_under profile binds.now self.old number call.now outcome.now ≡ None }
        ensures err { OnErr result (self.new ≡ self.old) }
    {
        let view = View {
            binds,
            nodes: &self.nodes,
        };
        let plan = change_under(self.alloc, profile, &view, number, call, outcome)?;
        Ok(self.carry_out(plan)?)
    }

    /// Takes the step of a call with its outcome. What the call makes, if anything, is the object of this number. Under the
    /// strict profile a received reply has to agree with the trees before and after it.
    ///
    /// `Ok` gives what takes the step back. `Err(NotAllowed)`: the call can't have come out so in this tree. `Err(NoMemory)` says
    /// nothing of the call. After an `Err` the tree is as it was.
    pub fn step_under(
        &mut self,
        profile: Profile,
        binds: &Binds,
        number: u64,
        call: &NfsCall,
        outcome: &Outcome,
    ) -> Result<Undo, StepFault>
        ensures next { OnOk result (under profile binds.now self.old number call.now outcome.now ≡ Some self.new) }
        ensures undo { IfOk result (λ undo. TakesBack undo self.new self.old) }
        ensures not_allowed { result ≡ Err NotAllowed → under profile binds.now self.old number call.now outcome.now ≡ None }
        ensures err { OnErr result (self.new ≡ self.old) }
    {
        self.step_planned(profile, binds, number, call, outcome)
    }
}

impl FileTree {
    /// A copy of the tree, in which a change was made.
    fn with_change(&self, plan: ObjectChange<'_>) -> Result<(FileTree, Touched), AllocError>
        requires { (change : Change) × Does self.now plan change }
        ensures next { IfOk result (λ next. (change : Change) → Does self.now plan.entry change → next.0 ≡ changed self.now change) }
        ensures touched { IfOk result (λ next. OnlyTouched next.1 next.0 self.now) }
    {
        let touched = touched(&self.nodes, &plan);
        let before = number_of(&self.nodes, touched);
        let mut next = FileTree {
            alloc: self.alloc,
            nodes: self.nodes.copy()?,
            number: self.number,
        };
        drop(next.carry_out(plan)?);
        let after = number_of(&next.nodes, touched);
        next.number = next.number.wrapping_sub(before).wrapping_add(after);
        Ok((next, touched))
    }

    /// The tree in which what a call with its outcome makes of it is done, where the profile lets it; none, where that is nothing.
    fn planned(
        &self,
        profile: Profile,
        binds: &Binds,
        number: u64,
        call: &NfsCall,
        outcome: &Outcome,
    ) -> Result<Option<(FileTree, Touched)>, StepFault>
        ensures next { IfOk result (λ next. option_map (changed self.now) (change_under profile binds.now self.now number call.now outcome.now) ≡ Some (unwrap_or (option_map (λ n. n.0) next) self.now)) }
        ensures touched { IfOk result (λ next. IfSome next (λ n. OnlyTouched n.1 n.0 self.now)) }
        ensures not_allowed { result ≡ Err NotAllowed → change_under profile binds.now self.now number call.now outcome.now ≡ None }
    {
        let view = View {
            binds,
            nodes: &self.nodes,
        };
        let plan = change_under(self.alloc, profile, &view, number, call, outcome)?;
        match plan {
            ObjectChange::Keep => Ok(None),
            plan => Ok(Some(self.with_change(plan)?)),
        }
    }

    /// The tree after a call with its outcome, which leaves this one as it is; none, where it is the same. What both have in common they
    /// share. What the call makes, if anything, is the object of this number. Beside it stand the objects that the call touched.
    ///
    /// `Err(NotAllowed)`: the call can't have come out so in this tree. `Err(NoMemory)` says nothing of the call.
    pub fn after(
        &self,
        profile: Profile,
        binds: &Binds,
        number: u64,
        call: &NfsCall,
        outcome: &Outcome,
    ) -> Result<Option<(FileTree, Touched)>, StepFault>
        ensures next { IfOk result (λ next. under profile binds.now self.now number call.now outcome.now ≡ Some (unwrap_or (option_map (λ n. n.0) next) self.now)) }
        ensures touched { IfOk result (λ next. IfSome next (λ n. OnlyTouched n.1 n.0 self.now)) }
        ensures not_allowed { result ≡ Err NotAllowed → under profile binds.now self.now number call.now outcome.now ≡ None }
    {
        self.planned(profile, binds, number, call, outcome)
    }

    /// A number that is the same of trees that are the same, where `after` led to both from one tree.
    pub fn number(&self) -> u64 {
        self.number
    }

    /// Whether both are the same, where they differ in no other objects than these and those.
    pub fn is_same_at(&self, other: &FileTree, objects: &[u64], others: &[u64]) -> bool
        ensures { IsTrue result → AreOthersSame objects.now others.now self.now other.now → self.now ≡ other.now }
    {
        self.number == other.number && self.nodes.is_same_at(&other.nodes, objects, others)
    }

    /// Whether both are the same.
    pub fn is_same(&self, other: &FileTree) -> bool
        ensures { IsTrue result → self.now ≡ other.now }
    {
        self.number == other.number && self.nodes.is_same(&other.nodes)
    }

    /// Whether call number `number` may succeed: some success of its procedure has a next tree. For a LOOKUP of an
    /// object whose handle isn't its number in eight bytes it goes over all handles that are found by a hash; what else
    /// it takes doesn't grow with them.
    pub fn allows(&self, binds: &Binds, number: u64, call: &NfsCall) -> Result<bool, AllocError>
        ensures { IfOk result (λ allowed. IsTrue allowed ↔ AllowsSuccess binds.now self.now number call.now) }
    {
        let view = View {
            binds,
            nodes: &self.nodes,
        };
        may_succeed(self.alloc, &view, number, call)
    }

    /// Its nodes.
    pub fn nodes(&self) -> &Nodes
        ensures { result.now ≡ self.now }
    {
        &self.nodes
    }

    /// How many nodes what takes a step back holds, the files' bytes aside.
    pub fn undo_nodes(undo: &Undo) -> u64
        ensures { result ≡ held_nodes undo.now }
    {
        undo.nodes()
    }
}

impl Replayable for FileTree {
    type Setting = TreeSetting;

    type Call = NfsCall;

    type Outcome = Outcome;

    type Undo = Undo;

    ghost is_state = { IsPrintable };

    ghost start = { λ setting. start_tree setting.start };

    ghost next = { λ setting tree number call outcome. under setting.profile setting.binds tree number call outcome };

    ghost undoes = { λ undo after before. TakesBack undo after before };

    ghost printed = { tree_text };

    ghost print_tells = { same_text };

    fn opening(alloc: Global, setting: &TreeSetting) -> Result<Self, AllocError> {
        let start = setting.start.lend(alloc)?;
        FileTree::of_start(alloc, &start)
    }

    /// `step_under`, with the profile and the binds of the setting; the trait's clauses say the same of `next`, by the lines above.
    fn step(
        &mut self,
        setting: &TreeSetting,
        number: u64,
        call: &NfsCall,
        outcome: &Outcome,
    ) -> Result<Undo, StepFault> {
        self.step_under(setting.profile, &setting.binds, number, call, outcome)
    }

    fn undo(mut self, undo: Undo) -> Result<Self, AllocError> {
        self.nodes.undo(undo)?;
        Ok(self)
    }

    fn print_state(&self, out: &mut Vec<u8>) -> Result<(), AllocError> {
        let mut text = Vec::new(self.alloc);
        self.nodes.put_tree(&mut text)?;
        out.extend_from_slice(text.as_slice())
    }
}
