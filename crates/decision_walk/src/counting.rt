//! WRITEs without a reply: how they are placed while it is open how many bytes they wrote, and how calls are placed that come to their files.

ghost use Rattle.std.specs.Prelude.{◌≡◌, ◌⊎◌, ◌≤◌, ◌<◌, ◌+◌, ℕ, List, false, Some, None, Ok, IfOk, IfSome, IsTrue, option_copied};
ghost use Rattle.certificate.specs.Plan.{call_of};
ghost use Rattle.tree_nodes.specs.Numbered.{IsNumbered};
ghost use Rattle.tree_handles.specs.Binding.{object_of};
ghost use Rattle.decision_walk.specs.View.{WalkView, Adds};
ghost use Rattle.decision_walk.specs.Opening.{write_in, call_of_history, write_of, open_at, IsWithin};
ghost use Rattle.decision_walk.specs.Placings.{HasPlaced, HasPlacedFor, HasTaken, HasTakenFor, IsApart, IsResolution, DoesNotFit};
ghost use Rattle.decision_walk.specs.Settling.{may_change};
ghost use Rattle.decision_walk.specs.Resolving.{CanOpen, HasWrote, IsResolvedTo, IsBaseResolvedTo, IsNowhereOpen};

use crate::eras::way_lost;
use crate::kept_tree::KeptTree;
use crate::machine::HistoryMachine;
use crate::open_writes::{Counts, OpenWrite, is_open, open_at, with_write, without_writes};
use crate::touching::object_touched;
use crate::walk_state::WalkState;
use crate::why::Why;
use certificate::Place;
use decision_core::Stop;
use decision_steps::{PlaceFault, State, is_failure};
use nfs3_types::{FileHandle, NfsCall, Outcome, WriteArguments};
use tree_answers::first_handle;
use tree_handles::{View, file_of};
use tree_starts::Profile;

/// How many counts of an open WRITE are tried at most where a call looks at its file.
const MOST_LOOKED_AT: u32 = 65_537;

/// How many where a call changes it: each makes a state.
const MOST_CHANGED: u32 = 1_025;

/// The WRITE that a call is.
fn write_in(call: &NfsCall) -> Option<&WriteArguments>
    ensures { option_copied result ≡ write_in call.now }
{
    match call {
        NfsCall::Write(write) => Some(write),
        _ => None,
    }
}

/// The tree and the handles of a state.
fn view_of(stands: &State) -> View<'_>
    ensures binds { result.binds.now ≡ stands.now.binds }
    ensures nodes { result.nodes.now ≡ stands.now.tree }
{
    View {
        binds: stands.binds(),
        nodes: stands.tree().nodes(),
    }
}

/// Nothing happens: each tree has what the contract says.
fn number_objects(stands: &State)
    ensures { IsNumbered stands.now.tree }
{
    let _count = stands.tree().nodes().count();
}

/// Whether a handle is bound to this object.
pub(crate) fn names(stands: &State, handle: &FileHandle, object: u64) -> bool
    ensures { IsTrue result → object_of stands.now.binds handle.now ≡ Some object }
{
    match stands.binds().object(handle.as_slice()) {
        Some(named) => named == object,
        None => false,
    }
}

/// How many counts an open WRITE may have, if they are at most so many.
fn counts_of(one: OpenWrite, most: u32) -> Result<u32, Stop<Why>>
    ensures { IfOk result (λ counts. one.least + counts ≡ one.most + 1) }
{
    if one.most < one.least {
        return Err(way_lost());
    }
    if one.most - one.least >= most {
        return Err(Stop::NotCovered(Why::LongWrite(one.call)));
    }
    Ok(one.most - one.least + 1)
}

impl<'h> HistoryMachine<'h> {
    /// The WRITE that a call is.
    pub(crate) fn write_of(&self, n: u64) -> Option<&WriteArguments>
        ensures { IfSome result (λ write. write_of self.now.history.now.known n ≡ Some write.now) }
    {
        write_in(self.judged(n)?)
    }

    /// The open WRITE of a state whose file's bytes, or how many they are, a call shows or changes that came out so.
    pub(crate) fn write_touched(
        &self,
        state: &WalkState,
        n: u64,
        call: &NfsCall,
        outcome: &Outcome,
    ) -> Result<Option<OpenWrite>, Stop<Why>>
        ensures apart { result ≡ Ok None → IsApart state.now call.now outcome.now }
        ensures found { IfOk result (λ touched. IfSome touched (λ one. open_at state.now.writes one.object ≡ Some one)) }
    {
        if state.writes.is_empty() {
            return Ok(None);
        }
        if !is_failure(outcome)
            && state
                .stands
                .binds()
                .object(first_handle(call).as_slice())
                .is_none()
        {
            return Err(Stop::NotCovered(Why::HandleNotGiven(n)));
        }
        let view = view_of(&state.stands);
        match object_touched(&view, call, outcome) {
            Some(object) => Ok(open_at(state.writes.as_slice(), object)),
            None => Ok(None),
        }
    }

    /// Whether a call that came out so may come to the file of an open WRITE.
    pub(crate) fn is_touched(
        &self,
        state: &WalkState,
        n: u64,
        call: &NfsCall,
        outcome: &Outcome,
    ) -> bool {
        match self.write_touched(state, n, call, outcome) {
            Ok(touched) => touched.is_some(),
            Err(_) => true,
        }
    }

    /// A tree with its handles once a WRITE wrote so many bytes of this object's file.
    fn written(&self, stands: &State, one: OpenWrite, count: u32) -> Result<State, Stop<Why>>
        ensures wrote { IfOk result (λ next. HasWrote self.now.history.now.known one.call one.object count stands.now next) }
        ensures origin { IfOk result (λ next. next.origin ≡ stands.now.origin) }
    {
        let (Some(call), Some(object)) = (self.judged(one.call), self.object_made(one.call)) else {
            return Err(way_lost());
        };
        let Some(write) = write_in(call) else {
            return Err(way_lost());
        };
        if !names(stands, &write.file, one.object) {
            return Err(way_lost());
        }
        number_objects(stands);
        let outcome = Outcome::Taken(Some(count));
        match stands.place(self.alloc, Profile::Plain, object, call, &outcome) {
            Ok(next) => Ok(next),
            Err(PlaceFault::NoMemory) => Err(Stop::NoMemory),
            Err(_) => Err(way_lost()),
        }
    }

    /// A tree with the WRITEs that are open in it, once this one wrote so many bytes, if it is open there.
    fn resolved_in(
        &self,
        stands: &State,
        writes: &[OpenWrite],
        one: OpenWrite,
        count: u32,
    ) -> Result<KeptTree, Stop<Why>>
        ensures resolved { IfOk result (λ kept. IsResolvedTo self.now.history.now.known one.call count (record { tree = stands.now.tree; writes = writes.now; origin = stands.now.origin }) kept) }
        ensures origin { IfOk result (λ kept. kept.origin ≡ stands.now.origin) }
    {
        let Some(other) = open_at(writes, one.object) else {
            return Ok(KeptTree {
                alloc: self.alloc,
                stands: stands.copy()?,
                writes: Vec::from_slice(self.alloc, writes)?,
            });
        };
        if other.call != one.call {
            return Err(way_lost());
        }
        let stands = self.written(stands, other, count)?;
        Ok(KeptTree {
            alloc: self.alloc,
            stands,
            writes: without_writes(self.alloc, writes, one.object)?,
        })
    }

    /// What the era's crash goes back to, once this WRITE wrote so many bytes.
    fn resolved_base(
        &self,
        state: &WalkState,
        one: OpenWrite,
        count: u32,
    ) -> Result<Option<KeptTree>, Stop<Why>>
        ensures resolved { IfOk result (IsBaseResolvedTo self.now.history.now.known one.call count state.now.base) }
        ensures origin { IfOk result (λ base. IfSome base (λ b. b.origin ≡ state.now.origin)) }
    {
        match &state.base {
            Some(base) => {
                let after = self.resolved_in(&base.stands, base.writes.as_slice(), one, count)?;
                Ok(Some(after))
            }
            None => Ok(None),
        }
    }

    /// The state in which an open WRITE wrote so many bytes.
    fn resolved(
        &self,
        state: &WalkState,
        one: OpenWrite,
        count: u32,
    ) -> Result<WalkState, Stop<Why>>
        ensures resolved { IfOk result (IsResolution self.now.history.now.known self.now.marks.items state.now one.call count) }
        ensures origin { IfOk result (λ after. after.origin ≡ state.now.origin) }
    {
        let kept = self.resolved_in(&state.stands, state.writes.as_slice(), one, count)?;
        let base = self.resolved_base(state, one, count)?;
        Ok(state.with_trees(kept, base, one.call, count)?)
    }

    /// Puts the states there to which a call leads, which came out so and changes the file of this open WRITE, if that wrote so many bytes.
    fn place_once_written(
        &self,
        states: &mut Vec<WalkState>,
        state: &WalkState,
        written: (OpenWrite, u32),
        place: Place,
        call: &NfsCall,
        outcome: &Outcome,
    ) -> Result<(), Stop<Why>>
        ensures { IfOk result (λ _. Adds state.now.origin states.old.items states.new.items
            × HasPlacedFor self.now.history.now.known self.now.marks.items states.new.items state.now written.0.call written.1 (call_of place) call.now outcome.now) }
    {
        let (one, count) = written;
        let resolved = self.resolved(state, one, count)?;
        self.place_apart(states, &resolved, place, call, outcome)
    }

    /// Puts the states there to which a call leads, which came out so and changes the file of this open WRITE.
    pub(crate) fn place_changing(
        &self,
        states: &mut Vec<WalkState>,
        state: &WalkState,
        one: OpenWrite,
        place: Place,
        call: &NfsCall,
        outcome: &Outcome,
    ) -> Result<(), Stop<Why>>
        requires found { open_at state.now.writes one.object ≡ Some one }
        ensures { IfOk result (λ _. Adds state.now.origin states.old.items states.new.items × HasPlaced self.now.history.now.known self.now.marks.items states.new.items state.now (call_of place) call.now outcome.now) }
    {
        for more in 0..counts_of(one, MOST_CHANGED)? {
            let written = (one, one.least + more);
            self.place_once_written(states, state, written, place, call, outcome)?;
        }
        Ok(())
    }

    /// Whether a call may come out so and look at the file of an open WRITE, if that wrote so many bytes.
    fn fits(
        &self,
        state: &WalkState,
        written: (OpenWrite, u32),
        place: Place,
        call: &NfsCall,
        outcome: &Outcome,
    ) -> Result<bool, Stop<Why>>
        ensures { IfOk result (λ fits. fits ≡ false → DoesNotFit self.now.history.now.known self.now.marks.items state.now written.0.call (call_of place) call.now outcome.now written.1) }
    {
        let (one, count) = written;
        let resolved = self.resolved(state, one, count)?;
        let found = self.try_apart(&resolved, place, call, outcome)?;
        Ok(found.is_some())
    }

    /// The counts of an open WRITE with which a call fits that came out so, and those between.
    fn counts_that_fit(
        &self,
        state: &WalkState,
        one: OpenWrite,
        place: Place,
        call: &NfsCall,
        outcome: &Outcome,
    ) -> Result<Counts, Stop<Why>>
        ensures { IfOk result (λ counts. (count : ℕ) → one.least ≤ count → count ≤ one.most
            → DoesNotFit self.now.history.now.known self.now.marks.items state.now one.call (call_of place) call.now outcome.now count ⊎ IsWithin counts count) }
    {
        let mut counts = Counts::none();
        for more in 0..counts_of(one, MOST_LOOKED_AT)? {
            let count = one.least + more;
            let fits = self.fits(state, (one, count), place, call, outcome)?;
            counts = counts.with_fitting(count, fits);
        }
        Ok(counts)
    }

    /// Puts the states there to which a call leads, which came out so and looks at the file of this open WRITE.
    pub(crate) fn place_looking(
        &self,
        states: &mut Vec<WalkState>,
        state: &WalkState,
        one: OpenWrite,
        place: Place,
        call: &NfsCall,
        outcome: &Outcome,
    ) -> Result<(), Stop<Why>>
        requires found { open_at state.now.writes one.object ≡ Some one }
        requires looks { may_change call.now ≡ false }
        ensures { IfOk result (λ _. Adds state.now.origin states.old.items states.new.items × HasPlaced self.now.history.now.known self.now.marks.items states.new.items state.now (call_of place) call.now outcome.now) }
    {
        let counts = self.counts_that_fit(state, one, place, call, outcome)?;
        if counts.most < counts.least {
            return Ok(());
        }
        let after = state.narrowed(one.call, counts.least, counts.most)?;
        self.put_children(
            states,
            &after,
            place,
            &after.stands,
            after.writes.as_slice(),
        )
    }

    /// A WRITE without a reply as an open one, if its file stands in the tree, and no sizes are asked for.
    fn opened(&self, state: &WalkState, n: u64) -> Option<OpenWrite>
        ensures { IfSome result (CanOpen self.now.history.now.known state.now n) }
    {
        if self.history.profile() != Profile::Plain {
            return None;
        }
        let write = self.write_of(n)?;
        let entry = file_of(&view_of(&state.stands), &write.file)?;
        if !names(&state.stands, &write.file, entry.object) {
            return None;
        }
        number_objects(&state.stands);
        let most = (write.bytes.as_slice().len() as u32).min(write.count);
        Some(OpenWrite {
            call: n,
            object: entry.object,
            least: 0,
            most,
        })
    }

    /// Whether a WRITE is open in a state, or in what its crash goes back to.
    pub(crate) fn is_open_in(&self, state: &WalkState, n: u64) -> bool
        ensures { result ≡ false → IsNowhereOpen state.now n }
    {
        if is_open(state.writes.as_slice(), n) {
            return true;
        }
        match &state.base {
            Some(base) => is_open(base.writes.as_slice(), n),
            None => false,
        }
    }

    /// Puts the states there in which a WRITE is placed, and open, where no other one is over its file.
    fn put_opened(
        &self,
        states: &mut Vec<WalkState>,
        state: &WalkState,
        n: u64,
        call: &NfsCall,
    ) -> Result<(), Stop<Why>>
        requires call { call_of_history self.now.history.now.known n ≡ Some call.now }
        ensures { IfOk result (λ _. Adds state.now.origin states.old.items states.new.items × HasTaken self.now.history.now.known self.now.marks.items states.new.items state.now n call.now) }
    {
        let Some(one) = self.opened(state, n) else {
            return Err(way_lost());
        };
        if open_at(state.writes.as_slice(), one.object).is_some() || self.is_open_in(state, n) {
            return Err(way_lost());
        }
        let writes = with_write(self.alloc, state.writes.as_slice(), one)?;
        let place = Place::Taken(n, Some(0));
        self.put_children(states, state, place, &state.stands, writes.as_slice())
    }

    /// Puts the states there in which a WRITE is placed, and open, after another open WRITE over its file wrote so many bytes.
    fn put_opened_after(
        &self,
        states: &mut Vec<WalkState>,
        state: &WalkState,
        written: (OpenWrite, u32),
        n: u64,
        call: &NfsCall,
    ) -> Result<(), Stop<Why>>
        requires call { call_of_history self.now.history.now.known n ≡ Some call.now }
        ensures { IfOk result (λ _. Adds state.now.origin states.old.items states.new.items
            × HasTakenFor self.now.history.now.known self.now.marks.items states.new.items state.now written.0.call written.1 n call.now) }
    {
        let (one, count) = written;
        let resolved = self.resolved(state, one, count)?;
        self.put_opened(states, &resolved, n, call)
    }

    /// Puts the states there in which a WRITE is placed, and open, where this one is open over its file.
    fn open_over(
        &self,
        states: &mut Vec<WalkState>,
        state: &WalkState,
        one: OpenWrite,
        n: u64,
        call: &NfsCall,
    ) -> Result<(), Stop<Why>>
        requires call { call_of_history self.now.history.now.known n ≡ Some call.now }
        requires found { open_at state.now.writes one.object ≡ Some one }
        ensures { IfOk result (λ _. Adds state.now.origin states.old.items states.new.items × HasTaken self.now.history.now.known self.now.marks.items states.new.items state.now n call.now) }
    {
        for more in 0..counts_of(one, MOST_CHANGED)? {
            let written = (one, one.least + more);
            self.put_opened_after(states, state, written, n, call)?;
        }
        Ok(())
    }

    /// Puts the states there in which a WRITE without a reply is placed, and open. It is false if the WRITE can't be open.
    pub(crate) fn place_open(
        &self,
        states: &mut Vec<WalkState>,
        state: &WalkState,
        n: u64,
        call: &NfsCall,
    ) -> Result<bool, Stop<Why>>
        requires call { call_of_history self.now.history.now.known n ≡ Some call.now }
        ensures { IfOk result (λ placed. Adds state.now.origin states.old.items states.new.items
            × (IsTrue placed → HasTaken self.now.history.now.known self.now.marks.items states.new.items state.now n call.now)) }
    {
        let Some(one) = self.opened(state, n) else {
            return Ok(false);
        };
        match open_at(state.writes.as_slice(), one.object) {
            Some(earlier) => self.open_over(states, state, earlier, n, call)?,
            None => self.put_opened(states, state, n, call)?,
        }
        Ok(true)
    }

    /// Whether a call that came out so comes to no open WRITE's file.
    fn is_apart(&self, state: &WalkState, n: u64, call: &NfsCall, outcome: &Outcome) -> bool
        ensures { IsTrue result → IsApart state.now call.now outcome.now }
    {
        match self.write_touched(state, n, call, outcome) {
            Ok(None) => true,
            Ok(Some(_)) | Err(_) => false,
        }
    }

    /// Whether a WRITE's handle is bound and names no file that stands: then it wasn't taken, whatever its count is.
    pub(crate) fn writes_nowhere(&self, state: &WalkState, n: u64, call: &NfsCall) -> bool
        ensures { IsTrue result → (states : List WalkView) → HasTaken self.now.history.now.known self.now.marks.items states state.now n call.now }
    {
        let Some(write) = write_in(call) else {
            return false;
        };
        let view = view_of(&state.stands);
        if view.binds.object(write.file.as_slice()).is_none() {
            return false;
        }
        if file_of(&view, &write.file).is_some() || self.makes_open(state, n) {
            return false;
        }
        self.is_apart(state, n, call, &Outcome::Taken(None))
    }
}
