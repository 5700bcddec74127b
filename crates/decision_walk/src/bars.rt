//! What handles that aren't bound don't name: a call failed on one, and no object that existed then would let it.

ghost use Rattle.std.specs.Prelude.{◌≡◌, ℕ, Some, None, IsTrue, IfOk, IsSome, option_copied};
ghost use Rattle.std.specs.List.{AllByRecursion};
ghost use Rattle.nfs_history.specs.declared.knowing.KnownCalls.{KnownCalls};
ghost use Rattle.tree_handles.specs.Binding.{Bindings, object_of};
ghost use Rattle.decision_walk.specs.Opening.{call_of_history};
ghost use Rattle.decision_walk.specs.Bars.{handle_at, barred_handle, IsBarred, AreBarred, DoesNotName};
ghost use Rattle.decision_walk.specs.Barring.{IsNamed, KeepsBars, IsBarring};

use crate::machine::HistoryMachine;
use crate::walk_state::WalkState;
use nfs3_types::{FileHandle, NfsCall};
use std::alloc::AllocError;
use tree_answers::{first_handle, second_handle};

/// A handle, by a call that names it, and an object that it doesn't name.
#[derive(Clone, Copy)]
pub struct Bar {
    /// The call.
    pub(crate) call: u64,
    /// Whether it is the second handle of the call, a RENAME, and not the first.
    pub(crate) is_second: bool,
    /// The object.
    pub(crate) object: u64,
}

/// Whether two bars are the same.
fn is_same_bar(one: Bar, other: Bar) -> bool
    ensures { IsTrue result → one ≡ other }
{
    one.call == other.call && one.is_second == other.is_second && one.object == other.object
}

/// Whether a bar is one of these.
fn has_bar(bars: &[Bar], bar: Bar) -> bool
    ensures { IsTrue result → (known : KnownCalls) (binds : Bindings) → AreBarred known binds bars.now → IsBarred known binds bar }
{
    for one in bars {
        if is_same_bar(*one, bar) {
            return true;
        }
    }
    false
}

/// Whether each of the second bars is one of the first.
pub(crate) fn has_bars(bars: &[Bar], others: &[Bar]) -> bool
    ensures { IsTrue result → (known : KnownCalls) (binds : Bindings) → AreBarred known binds bars.now → AreBarred known binds others.now }
{
    for bar in others {
        if !has_bar(bars, *bar) {
            return false;
        }
    }
    true
}

impl<'h> HistoryMachine<'h> {
    /// The handle of a bar.
    fn barred_handle(&self, bar: Bar) -> Option<&FileHandle>
        ensures { option_copied result ≡ barred_handle self.now.history.now.known bar }
    {
        let call = self.judged(bar.call)?;
        if bar.is_second {
            second_handle(call)
        } else {
            Some(first_handle(call))
        }
    }

    /// Whether a bar says that this handle doesn't name this object.
    fn bars(&self, bar: Bar, handle: &FileHandle, object: u64) -> bool
        ensures { IsTrue result → (binds : Bindings) → IsBarred self.now.history.now.known binds bar → DoesNotName binds handle.now object }
    {
        if bar.object != object {
            return false;
        }
        match self.barred_handle(bar) {
            Some(barred) => barred.as_slice() == handle.as_slice(),
            None => false,
        }
    }

    /// Whether a state's bars say that this handle doesn't name this object.
    pub(crate) fn is_barred(&self, state: &WalkState, handle: &FileHandle, object: u64) -> bool
        ensures { IsTrue result → (binds : Bindings) → AreBarred self.now.history.now.known binds state.now.barred → DoesNotName binds handle.now object }
    {
        for bar in &state.barred {
            if self.bars(*bar, handle, object) {
                return true;
            }
        }
        false
    }

    /// Puts a bar there, of a handle that isn't bound and an object that exists, unless there is one.
    fn put_bar(
        &self,
        bars: &mut Vec<Bar>,
        state: &WalkState,
        bar: Bar,
        call: &NfsCall,
        handle: &FileHandle,
    ) -> Result<(), AllocError>
        requires history { call_of_history self.now.history.now.known bar.call ≡ Some call.now }
        requires handle { handle_at bar.is_second call.now ≡ Some handle.now }
        requires named { IsNamed call.now handle.now }
        ensures { IfOk result (λ _. KeepsBars self.now.history.now.known state.now call.now bars.old.items bars.new.items) }
    {
        if state.stands.binds().object(handle.as_slice()).is_some() {
            return Ok(());
        }
        if state.stands.tree().nodes().node(bar.object).is_none() {
            return Ok(());
        }
        if self.is_barred(state, handle, bar.object) {
            return Ok(());
        }
        bars.push(bar)?;
        Ok(())
    }

    /// Puts a bar there of a handle that isn't bound and each of these objects that exist.
    fn put_bars(
        &self,
        bars: &mut Vec<Bar>,
        state: &WalkState,
        objects: &[u64],
        first: Bar,
        call: &NfsCall,
        handle: &FileHandle,
    ) -> Result<(), AllocError>
        requires history { call_of_history self.now.history.now.known first.call ≡ Some call.now }
        requires handle { handle_at first.is_second call.now ≡ Some handle.now }
        requires named { IsNamed call.now handle.now }
        ensures { IfOk result (λ _. KeepsBars self.now.history.now.known state.now call.now bars.old.items bars.new.items) }
    {
        for object in objects {
            let bar = Bar {
                call: first.call,
                is_second: first.is_second,
                object: *object,
            };
            self.put_bar(bars, state, bar, call, handle)?;
        }
        Ok(())
    }

    /// The state, in which no handle that isn't bound and that this call names names an object that exists.
    pub(crate) fn barred(
        &self,
        state: &WalkState,
        n: u64,
        call: &NfsCall,
    ) -> Result<WalkState, AllocError>
        requires { call_of_history self.now.history.now.known n ≡ Some call.now }
        ensures { IfOk result (IsBarring self.now.history.now.known state.now call.now) }
    {
        let objects = state.stands.tree().nodes().objects()?;
        let objects = objects.as_slice();
        let mut bars = Vec::from_slice(self.alloc, state.barred.as_slice())?;
        let mut bar = Bar {
            call: n,
            is_second: false,
            object: 0,
        };
        self.put_bars(&mut bars, state, objects, bar, call, first_handle(call))?;
        if let Some(handle) = second_handle(call) {
            bar.is_second = true;
            self.put_bars(&mut bars, state, objects, bar, call, handle)?;
        }
        state.with_bars(bars)
    }
}
