//! Eras that end.

ghost use Rattle.std.specs.Prelude.{◌≡◌, ◌≢◌, ◌<◌, ◌≤◌, ◌-◌, ◌++◌, length, nat_le, position, vec_len, vec_capacity, IfOk, OnOk, OnErr, IfSome, IsSome, Some};
ghost use Rattle.std.specs.List.Sorted.{IsNonDecreasingBy};
ghost use Rattle.replay_law.specs.Run.{state_after};
ghost use Rattle.tree_nodes.specs.Printed.{tree_text};
ghost use Rattle.tree_nodes.specs.Tree.{Tree};
ghost use Rattle.file_tree.specs.StartTree.{start_tree};
ghost use Rattle.journal.specs.Device.{Device};
ghost use Rattle.book_laws.specs.Placing.{front_with};
ghost use Rattle.book_laws.specs.Book.{next_by, tree_of, records_kept};
ghost use Rattle.book_laws.specs.Book.Condition.{running};
ghost use Rattle.book_ledger.specs.Inside.{IsAsked, IsTied, AreTied, Goes, Holds, asked_by, setting_in};
ghost use Rattle.book_ledger.specs.Undoing.{tree_after, steps_kept, CanRun, CanRunAgain, LeadBack, Loses, GoesDown, IsReady, Restarts};

use crate::ledger::Ledger;
use crate::lookups::{call_asked, object_made};
use crate::placed::{Condition, EraOver, PlacedCall};
use file_tree::{Binds, FileTree, Undo};
use journal::tree_at_first;
use nfs_history::{Event, History};
use replay_law::{Replayable, StepFault};
use std::alloc::AllocError;
use std::mem;

/// Takes a step that the tree allows.
fn run_step(
    tree: &mut FileTree,
    binds: &Binds,
    history: &History,
    placed: &PlacedCall,
) -> Result<(), AllocError>
    requires asked { IsAsked history.now.known.calls placed.now.number }
    requires next { IsSome (next_by (record { profile = history.now.known.head.profile; first = length history.now.known.head.start; binds = binds.now }) tree.old placed.now.number (asked_by history.now.known.calls placed.now.number) placed.now.outcome) }
    ensures { OnOk result (next_by (record { profile = history.now.known.head.profile; first = length history.now.known.head.start; binds = binds.now }) tree.old placed.now.number (asked_by history.now.known.calls placed.now.number) placed.now.outcome ≡ Some tree.new) }
{
    let number = placed.number;
    let Some(object) = object_made(history, number) else {
        return Err(AllocError);
    };
    let call = call_asked(history, number);
    let profile = history.profile();
    match tree.step_under(profile, binds, object, call, &placed.outcome) {
        Ok(undo) => {
            drop(undo);
            Ok(())
        }
        Err(StepFault::NoMemory) => Err(AllocError),
        Err(StepFault::NotAllowed) => unreachable!(),
    }
}

/// Takes the steps of these calls.
fn run_steps(
    tree: &mut FileTree,
    binds: &Binds,
    history: &History,
    placed: &[PlacedCall],
) -> Result<(), AllocError>
    requires { CanRun (record { profile = history.now.known.head.profile; first = length history.now.known.head.start; binds = binds.now }) history.now.known.calls tree.old placed.now }
    ensures { OnOk result (tree_after (record { profile = history.now.known.head.profile; first = length history.now.known.head.start; binds = binds.now }) history.now.known.calls tree.old placed.now ≡ Some tree.new) }
{
    for next in placed {
        run_step(tree, binds, history, next)?;
    }
    Ok(())
}

/// Takes so many steps back, the last one first.
fn take_back(tree: FileTree, undos: &mut Vec<Undo>, count: u64) -> Result<FileTree, AllocError>
    requires there { count ≤ length undos.old.items }
    requires back { (before : Tree) × LeadBack undos.old.items count tree before }
    ensures { IfOk result (λ back. (before : Tree) → LeadBack undos.old.items count tree before → back ≡ before) }
{
    let mut tree = tree;
    for _ in 0..count {
        let Some(undo) = undos.pop() else {
            unreachable!();
        };
        tree = tree.undo(undo)?;
    }
    Ok(tree)
}

/// The first of these calls behind which there are so many records, which never fall.
fn place_with(placed: &[PlacedCall], keep: u64) -> Option<usize>
    ensures first { IsNonDecreasingBy (λ call. call.records) placed.now → result ≡ position (λ call. nat_le keep call.records) placed.now }
    ensures within { IfSome result (λ place. place < length placed.now) }
{
    let place = placed.partition_point(|call| call.records < keep);
    if place < placed.len() {
        Some(place)
    } else {
        None
    }
}

impl Ledger {
    /// How many of the calls placed now a crash keeps that keeps so many records.
    fn front_with(&self, keep: u64) -> usize
        ensures { Holds (λ book. result ≡ front_with (keep - records_kept book) book.placed) self.now }
    {
        if keep <= self.kept {
            return 0;
        }
        match place_with(self.placed.as_slice(), keep) {
            Some(place) => place + 1,
            None => self.placed.len(),
        }
    }

    /// The tree behind what was kept and the first `count` calls placed now, worked out from what stood at first.
    fn tree_behind(&self, count: usize) -> Result<FileTree, AllocError>
        requires { CanRunAgain self.now count }
        ensures { IfOk result (λ tree. state_after (next_by (setting_in self.now)) (start_tree self.now.history.known.head.start) (steps_kept self.now count) ≡ Some tree) }
    {
        let mut tree = tree_at_first(self.alloc, self.history.start())?;
        for era in self.over.iter() {
            let kept = &era.placed[..era.kept];
            run_steps(&mut tree, &self.binds, &self.history, kept)?;
        }
        let placed = &self.placed[..count];
        run_steps(&mut tree, &self.binds, &self.history, placed)?;
        Ok(tree)
    }

    /// The tree behind a crash that keeps so many records, of which so many are lost. Room is set aside for the crash. The
    /// book is down from then on.
    pub fn prepare_crash(&mut self, keep: u64, lost: u64) -> Result<FileTree, AllocError>
        requires alive { self.old.condition ≢ Condition.Dead }
        requires tied { (device : Device) × AreTied self.old device × Loses device keep lost }
        ensures down { Goes GoesDown self.old self.new }
        ensures stopped { self.new.condition ≡ Condition.Down }
        ensures ready { IfOk result (IsReady self.old keep lost) }
        ensures room { OnOk result (1 ≤ self.new.history.spare) }
        ensures place { OnOk result (vec_len self.new.over < vec_capacity self.new.over) }
    {
        self.condition = Condition::Down;
        self.history.reserve()?;
        self.over.reserve(1)?;
        match self.tree.take() {
            Some(tree) => take_back(tree, &mut self.undos, lost),
            None => self.tree_behind(self.front_with(keep)),
        }
    }

    /// Ends the era, of whose records so many are kept, and begins the next one with this tree. Room is set aside for it.
    pub fn end_era(&mut self, keep: u64, tree: FileTree)
        requires alive { self.old.condition ≢ Condition.Dead }
        requires room { 1 ≤ self.old.history.spare }
        requires place { vec_len self.old.over < vec_capacity self.old.over }
        ensures { Restarts self.old keep tree self.new }
    {
        let kept = self.front_with(keep);
        let placed = mem::replace(&mut self.placed, Vec::new(self.alloc));
        self.over.push(EraOver { placed, kept }).unwrap();
        if self.history.append(Event::Crash).is_err() {
            unreachable!();
        }
        self.tree = Some(tree);
        self.undos.clear();
        self.kept = keep;
        self.condition = Condition::Running;
    }

    /// The tree, unless memory ran out while a step of it was taken back: then it is worked out when it is needed again.
    pub fn tree(&self) -> Option<&FileTree>
        requires { IsTied self.now }
        ensures tree { IfSome result (λ tree. Holds (λ book. tree_of book ≡ Some tree.now) self.now) }
        ensures stands { Holds (λ book. book.condition ≡ running → IsSome result) self.now }
    {
        self.tree.as_ref()
    }

    /// Appends the tree's bytes.
    pub fn print_tree(&self, out: &mut Vec<u8>) -> Result<(), AllocError>
        requires { IsTied self.now }
        ensures ok { OnOk result (Holds (λ book. (tree : Tree) → tree_of book ≡ Some tree → out.new.items ≡ out.old.items ++ tree_text tree) self.now) }
        ensures err { OnErr result (out.new.items ≡ out.old.items) }
    {
        match &self.tree {
            Some(tree) => tree.print_state(out),
            None => self.tree_behind(self.placed.len())?.print_state(out),
        }
    }
}
