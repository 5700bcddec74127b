//! A state of a walk: the tree that the calls have led to, and the handles that are bound.

ghost use Rattle.std.specs.Prelude.{◌≡◌, ◌==◌, ◌+◌, ◌++◌, [], ◌∷◌, None, not, filter, Some, IfOk, IfSome};
ghost use Rattle.certificate.specs.Plan.{call_of};
ghost use Rattle.tree_handles.specs.Binding.{Bindings, object_of};
ghost use Rattle.decision_walk.specs.Placings.{kept_of, child_of, crashed, with_trees, narrowed, narrowed_kept, renewed, renewed_kept};
ghost use Rattle.decision_walk.specs.Settling.{settled, past_done};
ghost use Rattle.decision_steps.specs.Known.{AgreesWith};

use crate::bars::Bar;
use crate::deeds::{Deed, Deeds};
use crate::kept_tree::KeptTree;
use crate::machine::HistoryMachine;
use crate::open_writes::{OpenWrite, is_open, narrowed_writes};
use certificate::Place;
use decision_steps::State;
use nfs3_types::FileHandle;
use std::alloc::{AllocError, Global};
use std::marker::Model;

/// A state: the tree with the handles that are bound, and the tree to which a crash would go back. Both are compared by the same.
pub struct WalkState {
    pub(crate) alloc: Global,
    pub(crate) stands: State,
    /// The WRITEs of which it is open how many bytes they wrote, by their numbers: the tree is that without them.
    pub(crate) writes: Vec<OpenWrite>,
    /// What the era's crash goes back to, if a call is lost.
    pub(crate) base: Option<KeptTree>,
    /// The era, from 1 on.
    pub(crate) era: u64,
    /// Calls of earlier eras count as placed, and aren't listed.
    pub(crate) past: u64,
    /// The calls that are placed, as far as they may be asked for.
    pub(crate) placed: Vec<u64>,
    /// The latest reply by which a call was forgotten: by its event. Each call that was is placed.
    pub(crate) answered_to: u64,
    /// What handles that aren't bound don't name.
    pub(crate) barred: Vec<Bar>,
    /// All that happened, which only a certificate is made of.
    pub(crate) deeds: Deeds,
}

impl Drop for WalkState {
    fn drop(self) {
        let WalkState {
            alloc: _,
            stands,
            writes,
            base,
            era: _,
            past: _,
            placed,
            answered_to: _,
            barred,
            deeds,
        } = self;
        drop(stands);
        drop(writes);
        drop(base);
        drop(placed);
        drop(barred);
        drop(deeds);
    }
}

impl Model for WalkState {
    ghost use Rattle.std.specs.Prelude.{◌≡◌, IfSome};
    ghost use Rattle.decision_walk.specs.View.{WalkView, view_code};

    ghost Value = { WalkView };

    ghost coded = { view_code };

    ghost view = { λ s. record {
      tree = s.stands.tree;
      writes = s.writes.items;
      binds = s.stands.binds;
      base = s.base;
      era = s.era;
      past = s.past;
      placed = s.placed.items;
      answered_to = s.answered_to;
      barred = s.barred.items;
      origin = s.stands.origin;
    } };

    ghost invariant = { λ s. IfSome s.base (λ b. b.origin ≡ s.stands.origin) };
}

impl WalkState {
    ghost use Rattle.std.specs.Prelude.{option_map, unwrap_or};

    /// The state before any call.
    pub(crate) fn opening(alloc: Global, stands: State) -> WalkState
        ensures { result ≡ record { tree = stands.tree; writes = []; binds = stands.binds; base = None; era = 1; past = 0; placed = []; answered_to = 0; barred = []; origin = stands.origin } }
    {
        WalkState {
            alloc,
            stands,
            writes: Vec::new(alloc),
            base: None,
            era: 1,
            past: 0,
            placed: Vec::new(alloc),
            answered_to: 0,
            barred: Vec::new(alloc),
            deeds: Deeds::none(alloc),
        }
    }

    /// All that happened. A WRITE of which it is open how many bytes it wrote has as few as it may have.
    pub fn deeds(&self) -> Result<Vec<Deed>, AllocError> {
        let mut deeds = self.deeds.list()?;
        for one in &self.writes {
            deeds.push(Deed::Counted(one.call, one.least))?;
        }
        Ok(deeds)
    }

    /// The handles that are bound, with their objects, but for the root's.
    pub fn bound(&self) -> Result<Vec<(Vec<u8>, u64)>, AllocError> {
        self.stands.bound()
    }

    /// The base, for another state.
    pub(crate) fn copy_base(&self) -> Result<Option<KeptTree>, AllocError>
        ensures same { IfOk result (λ base. base ≡ self.now.base) }
        ensures origin { IfOk result (λ base. IfSome base (λ b. b.origin ≡ self.now.origin)) }
    {
        match &self.base {
            Some(base) => Ok(Some(base.copy()?)),
            None => Ok(None),
        }
    }

    /// The open WRITEs, for another state.
    fn copy_writes(&self) -> Result<Vec<OpenWrite>, AllocError>
        ensures { IfOk result (λ writes. writes.items ≡ self.now.writes) }
    {
        Vec::from_slice(self.alloc, self.writes.as_slice())
    }

    /// The calls that are placed, for another state.
    fn copy_placed(&self) -> Result<Vec<u64>, AllocError>
        ensures { IfOk result (λ placed. placed.items ≡ self.now.placed) }
    {
        Vec::from_slice(self.alloc, self.placed.as_slice())
    }

    /// The bars, for another state.
    fn copy_bars(&self) -> Result<Vec<Bar>, AllocError>
        ensures { IfOk result (λ bars. bars.items ≡ self.now.barred) }
    {
        Vec::from_slice(self.alloc, self.barred.as_slice())
    }

    /// The tree with its open WRITEs, for another state.
    pub(crate) fn kept(&self) -> Result<KeptTree, AllocError>
        ensures { IfOk result (λ kept. kept ≡ kept_of self.now) }
    {
        Ok(KeptTree {
            alloc: self.alloc,
            stands: self.stands.copy()?,
            writes: self.copy_writes()?,
        })
    }

    /// The calls that are placed, with one more.
    fn placed_and(&self, n: u64) -> Result<Vec<u64>, AllocError>
        ensures { IfOk result (λ placed. placed.items ≡ self.now.placed ++ n ∷ []) }
    {
        let mut placed = self.placed.clone()?;
        placed.reserve(1)?;
        placed.push(n).unwrap();
        Ok(placed)
    }

    /// What happened, with a place after it, which is the first that is lost where there is a base now and there was none.
    fn deeds_and(&self, place: Place, has_base: bool) -> Result<Deeds, AllocError> {
        let mut deeds = self.deeds.copy()?;
        if self.base.is_none() && has_base {
            deeds.push(Deed::Cut)?;
        }
        deeds.push(Deed::Placed(place))?;
        Ok(deeds)
    }

    /// What happened, with the era's end: an open WRITE that its crash takes away has as few bytes as it may have.
    fn deeds_and_end(&self) -> Result<Deeds, AllocError> {
        let mut deeds = self.deeds.copy()?;
        if let Some(base) = &self.base {
            for one in &self.writes {
                if !is_open(base.writes.as_slice(), one.call) {
                    deeds.push(Deed::Counted(one.call, one.least))?;
                }
            }
        }
        deeds.push(Deed::Ended)?;
        Ok(deeds)
    }

    /// The state in which a call is placed, which led to this tree, with these open WRITEs, and these handles, with this base.
    pub(crate) fn child(
        &self,
        place: Place,
        next: &State,
        writes: &[OpenWrite],
        base: Option<KeptTree>,
    ) -> Result<WalkState, AllocError>
        requires next { next.now.origin ≡ self.now.origin }
        requires base { IfSome base (λ b. b.origin ≡ self.now.origin) }
        ensures { IfOk result (λ child. child ≡ child_of self.now next.now writes.now base (call_of place)) }
    {
        let deeds = self.deeds_and(place, base.is_some())?;
        Ok(WalkState {
            alloc: self.alloc,
            stands: next.copy()?,
            writes: Vec::from_slice(self.alloc, writes)?,
            base,
            era: self.era,
            past: self.past,
            placed: self.placed_and(place.number())?,
            answered_to: self.answered_to,
            barred: self.copy_bars()?,
            deeds,
        })
    }

    /// The state with other trees, once this open WRITE wrote so many bytes.
    pub(crate) fn with_trees(
        &self,
        kept: KeptTree,
        base: Option<KeptTree>,
        call: u64,
        count: u32,
    ) -> Result<WalkState, AllocError>
        requires kept { kept.origin ≡ self.now.origin }
        requires base { IfSome base (λ b. b.origin ≡ self.now.origin) }
        ensures { IfOk result (λ after. after ≡ with_trees self.now kept base) }
    {
        let mut deeds = self.deeds.copy()?;
        deeds.push(Deed::Counted(call, count))?;
        let stands = self.stands.with_tree_of(&kept.stands)?;
        Ok(WalkState {
            alloc: self.alloc,
            stands,
            writes: Vec::from_slice(self.alloc, kept.writes.as_slice())?,
            base,
            era: self.era,
            past: self.past,
            placed: self.copy_placed()?,
            answered_to: self.answered_to,
            barred: self.copy_bars()?,
            deeds,
        })
    }

    /// The base, where this call wrote no fewer and no more bytes than these.
    fn narrowed_base(
        &self,
        call: u64,
        least: u32,
        most: u32,
    ) -> Result<Option<KeptTree>, AllocError>
        ensures narrowed { IfOk result (λ base. base ≡ option_map (narrowed_kept call least most) self.now.base) }
        ensures origin { IfOk result (λ base. IfSome base (λ b. b.origin ≡ self.now.origin)) }
    {
        match &self.base {
            Some(base) => Ok(Some(base.narrowed(call, least, most)?)),
            None => Ok(None),
        }
    }

    /// The state, where this call wrote no fewer and no more bytes than these.
    pub(crate) fn narrowed(&self, call: u64, least: u32, most: u32) -> Result<WalkState, AllocError>
        ensures { IfOk result (λ after. after ≡ narrowed self.now call least most) }
    {
        Ok(WalkState {
            alloc: self.alloc,
            stands: self.stands.copy()?,
            writes: narrowed_writes(self.alloc, self.writes.as_slice(), call, least, most)?,
            base: self.narrowed_base(call, least, most)?,
            era: self.era,
            past: self.past,
            placed: self.copy_placed()?,
            answered_to: self.answered_to,
            barred: self.copy_bars()?,
            deeds: self.deeds.copy()?,
        })
    }

    /// The state in which a handle that isn't bound names this object.
    pub(crate) fn with_guess(
        &self,
        alloc: Global,
        handle: &FileHandle,
        object: u64,
    ) -> Result<WalkState, AllocError>
        requires { object_of self.now.binds handle.now ≡ None }
        ensures rest { IfOk result (λ after. after ≡ record self.now { binds = after.binds }) }
        ensures covers { IfOk result (λ after. (plan : Bindings) → AgreesWith self.now.binds plan → object_of plan handle.now ≡ Some object → AgreesWith after.binds plan) }
    {
        Ok(WalkState {
            alloc: self.alloc,
            stands: self.stands.guess(alloc, handle, object)?,
            writes: self.copy_writes()?,
            base: self.copy_base()?,
            era: self.era,
            past: self.past,
            placed: self.copy_placed()?,
            answered_to: self.answered_to,
            barred: self.copy_bars()?,
            deeds: self.deeds.copy()?,
        })
    }

    /// The state with other bars.
    pub(crate) fn with_bars(&self, barred: Vec<Bar>) -> Result<WalkState, AllocError>
        ensures { IfOk result (λ after. after ≡ record self.now { barred = barred.items }) }
    {
        Ok(WalkState {
            alloc: self.alloc,
            stands: self.stands.copy()?,
            writes: self.copy_writes()?,
            base: self.copy_base()?,
            era: self.era,
            past: self.past,
            placed: self.copy_placed()?,
            answered_to: self.answered_to,
            barred,
            deeds: self.deeds.copy()?,
        })
    }

    /// What the era's crash goes back to.
    fn gone_back(&self) -> Result<KeptTree, AllocError>
        ensures back { IfOk result (λ back. back ≡ unwrap_or self.now.base (kept_of self.now)) }
        ensures origin { IfOk result (λ back. back.origin ≡ self.now.origin) }
    {
        match &self.base {
            Some(base) => base.copy(),
            None => self.kept(),
        }
    }

    /// The state in which the era's crash came, whose number this is, and in which the next era begins.
    pub(crate) fn crashed(&self, n: u64, era: u64) -> Result<WalkState, AllocError>
        requires { era ≡ self.now.era + 1 }
        ensures { IfOk result (λ after. after ≡ crashed self.now n) }
    {
        let deeds = self.deeds_and_end()?;
        let back = self.gone_back()?;
        Ok(WalkState {
            alloc: self.alloc,
            stands: self.stands.with_tree_of(&back.stands)?,
            writes: Vec::from_slice(self.alloc, back.writes.as_slice())?,
            base: None,
            era,
            past: self.past,
            placed: self.placed_and(n)?,
            answered_to: self.answered_to,
            barred: self.copy_bars()?,
            deeds,
        })
    }

    /// The state, which doesn't know of this call any more, and of none that was answered by this event.
    pub(crate) fn without_call(self, n: u64, answered_to: u64) -> WalkState
        ensures { result ≡ record self { placed = filter (λ m. not (m == n)) self.placed; answered_to = answered_to } }
    {
        let WalkState {
            alloc,
            stands,
            writes,
            base,
            era,
            past,
            placed,
            answered_to: _,
            barred,
            deeds,
        } = self;
        WalkState {
            alloc,
            stands,
            writes,
            base,
            era,
            past,
            placed: without(placed, n),
            answered_to,
            barred,
            deeds,
        }
    }

    /// The state, in which a call is placed besides that leaves the tree as it is. One without a reply has no place in a certificate.
    pub(crate) fn with_settled(self, n: u64, is_answered: bool) -> Result<WalkState, AllocError>
        ensures { IfOk result (λ after. after ≡ settled self n) }
    {
        let WalkState {
            alloc,
            stands,
            writes,
            base,
            era,
            past,
            mut placed,
            answered_to,
            barred,
            mut deeds,
        } = self;
        placed.reserve(1)?;
        placed.push(n).unwrap();
        if is_answered {
            deeds.push(Deed::Placed(Place::Answered(n)))?;
        }
        Ok(WalkState {
            alloc,
            stands,
            writes,
            base,
            era,
            past,
            placed,
            answered_to,
            barred,
            deeds,
        })
    }

    /// The state, in which all calls of earlier eras count as placed.
    pub(crate) fn with_past_done(self, machine: &HistoryMachine<'_>) -> WalkState
        ensures { result ≡ past_done machine.now.history.now.known self }
    {
        let WalkState {
            alloc,
            stands,
            writes,
            base,
            era,
            past: _,
            placed,
            answered_to,
            barred,
            deeds,
        } = self;
        WalkState {
            alloc,
            stands,
            writes,
            base,
            era,
            past: era,
            placed: machine.without_earlier(placed, era),
            answered_to,
            barred,
            deeds,
        }
    }

    /// What the era's crash goes back to, compared by this state. Both were compared by the same.
    fn renewed_base(&self, like: &State) -> Result<Option<KeptTree>, AllocError>
        requires { self.now.origin ≡ like.now.origin }
        ensures renewed { IfOk result (λ base. base ≡ option_map (renewed_kept (like.now.tree, like.now.binds)) self.now.base) }
        ensures origin { IfOk result (λ base. IfSome base (λ b. b.origin ≡ (like.now.tree, like.now.binds))) }
    {
        match &self.base {
            Some(base) => Ok(Some(base.renewed(like)?)),
            None => Ok(None),
        }
    }

    /// The state with the same trees and handles, in these forms.
    fn with_parts(self, stands: State, base: Option<KeptTree>) -> WalkState
        requires { IfSome base (λ b. b.origin ≡ stands.origin) }
        ensures { result ≡ record self { tree = stands.tree; binds = stands.binds; base = base; origin = stands.origin } }
    {
        let WalkState {
            alloc,
            stands: earlier,
            writes,
            base: earlier_base,
            era,
            past,
            placed,
            answered_to,
            barred,
            deeds,
        } = self;
        drop(earlier);
        drop(earlier_base);
        WalkState {
            alloc,
            stands,
            writes,
            base,
            era,
            past,
            placed,
            answered_to,
            barred,
            deeds,
        }
    }

    /// The same state, compared by this one. Both were compared by the same.
    pub(crate) fn renewed(self, like: &State) -> Result<WalkState, AllocError>
        requires { self.origin ≡ like.now.origin }
        ensures { IfOk result (λ after. after ≡ renewed self (like.now.tree, like.now.binds)) }
    {
        let stands = self.stands.renewed(like)?;
        let base = self.renewed_base(like)?;
        Ok(self.with_parts(stands, base))
    }

    /// Whether so much differs from what the state is compared by that it had better be compared by something else.
    pub(crate) fn is_worn(&self) -> bool {
        if self.stands.is_worn() {
            return true;
        }
        match &self.base {
            Some(base) => base.stands.is_worn(),
            None => false,
        }
    }

    /// A number that is the same of states that are the same, also where some open WRITEs that may have written nothing are of one alone.
    pub(crate) fn digest(&self) -> u64 {
        let mut digest = self.era.wrapping_add(self.stands.number());
        for call in &self.placed {
            digest = digest.wrapping_add(spread(call.wrapping_mul(2)));
        }
        if let Some(base) = &self.base {
            digest = digest.wrapping_add(spread(base.stands.number()).wrapping_add(1));
        }
        for bar in &self.barred {
            digest = digest.wrapping_add(spread(spread(bar.call).wrapping_add(bar.object)));
        }
        for one in &self.writes {
            if one.least > 0 {
                let counts = u64::from(one.least) << 32 | u64::from(one.most);
                digest = digest.wrapping_add(spread(spread(one.call).wrapping_add(counts)));
            }
        }
        digest
    }
}

/// Spreads a number's bits.
pub(crate) fn spread(number: u64) -> u64 {
    let number = (number ^ (number >> 31)).wrapping_mul(0x7fb5_d329_728e_a185);
    (number ^ (number >> 27)).wrapping_mul(0x81da_def4_bc2d_d44d)
}

/// The calls but for this one.
fn without(calls: Vec<u64>, n: u64) -> Vec<u64>
    ensures { result.items ≡ filter (λ m. not (m == n)) calls.items }
{
    let mut calls = calls;
    calls.retain(|m| *m != n);
    calls
}
