//! All of a book but its device.

ghost use Rattle.std.specs.Prelude.{◌≡◌, ◌≢◌, ℕ, [], IfOk, OnOk, IfErr};
ghost use Rattle.tree_starts.specs.Start.{IsStart};
ghost use Rattle.book_laws.specs.Book.Condition.{down, dead};
ghost use Rattle.book_laws.specs.Steps.{opening_book, Closes};
ghost use Rattle.book_ledger.specs.Inside.{book_of, AreTied, Goes, Settles};
ghost use Rattle.book_ledger.specs.Refusals.{CloseStops};

use crate::fault::CloseFault;
use crate::placed::{CallState, Condition, EraOver, PlacedCall};
use file_tree::{Binds, FileTree, Profile, Start, Undo};
use journal::{binds_at_first, tree_at_first};
use nfs_history::{Event, History, LaneState};
use nfs3_types::FileHandle;
use std::alloc::{AllocError, Global};
use std::mem;

/// The history that was recorded, and its serial order.
pub struct Ledger {
    /// What its lists grow by.
    pub alloc: Global,
    /// The calls and replies, as clients saw them.
    pub history: History,
    /// The eras that are over.
    pub over: Vec<EraOver>,
    /// The calls that were placed in the era now, in order.
    pub placed: Vec<PlacedCall>,
    /// How far each call of the history has come.
    pub calls: Vec<CallState>,
    /// The handles of the objects that were made.
    pub binds: Binds,
    /// The tree behind the calls that were kept and those placed now. After some faults it is to be worked out again.
    pub tree: Option<FileTree>,
    /// What takes back the steps of the records past the mark, where there is a tree.
    pub undos: Vec<Undo>,
    /// How many records of the eras that are over were kept.
    pub kept: u64,
    /// Whether it takes calls.
    pub condition: Condition,
}

impl Drop for Ledger {
    fn drop(self) {
        let Ledger {
            alloc: _,
            history,
            over,
            placed,
            calls,
            binds,
            tree,
            undos,
            kept: _,
            condition: _,
        } = self;
        drop(history);
        drop(over);
        drop(placed);
        drop(calls);
        drop(binds);
        drop(tree);
        drop(undos);
    }
}

/// A history of no events.
fn empty_history(alloc: Global, profile: Profile, start: Start) -> Result<History, AllocError>
    requires { IsStart start }
    ensures { IfOk result (λ history. history ≡ (opening_book profile start 0).history) }
{
    let root = FileHandle::from_slice(alloc, 0u64.to_be_bytes().as_slice())?;
    match History::build_from(alloc, root, profile, start, Vec::new(alloc)) {
        Ok(history) => Ok(history),
        Err(_) => Err(AllocError),
    }
}

impl Ledger {
    /// Ahead of the first step, of a server that holds these objects, whose replies are judged so strictly.
    pub fn new_from(alloc: Global, profile: Profile, start: Start) -> Result<Ledger, AllocError>
        ensures { IfOk result (λ ledger. (faults : ℕ) → AreTied ledger (opening_book profile start faults).device
            × (book_of ledger (opening_book profile start faults).device ≡ opening_book profile start faults)) }
    {
        let binds = binds_at_first(alloc, start.objects().len() as u64)?;
        let tree = tree_at_first(alloc, &start)?;
        Ok(Ledger {
            alloc,
            history: empty_history(alloc, profile, start)?,
            over: Vec::new(alloc),
            placed: Vec::new(alloc),
            calls: Vec::new(alloc),
            binds,
            tree: Some(tree),
            undos: Vec::new(alloc),
            kept: 0,
            condition: Condition::Running,
        })
    }

    /// It takes no calls until a crash.
    pub fn go_down(&mut self)
        requires { self.old.condition ≢ Condition.Dead }
        ensures { Goes (λ old new. new ≡ record old { condition = down }) self.old self.new }
    {
        self.condition = Condition::Down;
    }

    /// It takes no calls any more.
    pub fn die(&mut self)
        ensures { Goes (λ old new. new ≡ record old { condition = dead }) self.old self.new }
    {
        self.condition = Condition::Dead;
    }

    /// All records are on stable storage. What took their steps back is given up.
    pub fn settle(&mut self) -> Vec<Undo>
        requires { self.old.condition ≡ Condition.Running }
        ensures { Settles self.old self.new }
    {
        mem::replace(&mut self.undos, Vec::new(self.alloc))
    }

    /// Closes a lane.
    pub fn close_lane(&mut self, lane: u32) -> Result<(), CloseFault>
        ensures closed { OnOk result (Goes (λ old new. Closes old lane new) self.old self.new) }
        ensures refused { IfErr result (λ fault. Goes (λ old new. CloseStops old lane fault × (new ≡ old)) self.old self.new) }
    {
        match self.history.lane(lane) {
            LaneState::Open => {}
            LaneState::EraOver => return Err(CloseFault::EraOver(self.history.eras())),
            LaneState::Closed => return Err(CloseFault::LaneClosed),
        }
        match self.history.append(Event::Close { lane }) {
            Ok(()) => Ok(()),
            Err(_) => Err(CloseFault::NoMemory),
        }
    }
}

impl Ledger {
    /// The history alone.
    pub fn into_history(self) -> History
        ensures { result ≡ self.history }
    {
        let Ledger {
            alloc: _,
            history,
            over,
            placed,
            calls,
            binds,
            tree,
            undos,
            kept: _,
            condition: _,
        } = self;
        drop(over);
        drop(placed);
        drop(calls);
        drop(binds);
        drop(tree);
        drop(undos);
        history
    }
}
