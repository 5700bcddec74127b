//! Which places of an era a crash may not take away.

ghost use Rattle.std.specs.Prelude.{◌≡◌, ◌+◌, ◌-◌, ◌<◌, ◌≤◌, min, IfOk, OnErr};
ghost use Rattle.cut_check.specs.Stability.{kept_at, last_byte, IsPaintedIn, IsSameKept, KeepsOneMore};

use crate::effect::{Effect, effect_of};
use crate::last_writes::LastWrites;
use nfs3_types::{NfsCall, Outcome};
use std::alloc::{AllocError, Global};
use std::collections::BTreeMap;

/// What is known of the places of an era that were noted, in order. Each note takes logarithmic time, taken over all of them.
#[derive(Drop)]
pub struct Stability {
    alloc: Global,
    /// How many places were noted.
    placed: u64,
    /// The position of the last stable one.
    needed: u64,
    /// By object.
    files: BTreeMap<u64, LastWrites>,
}

/// The last byte of a WRITE, or the last that there can be.
fn last_written(offset: u64, count: u32) -> u64
    requires { 0 < count }
    ensures { result ≡ min (offset + count - 1) last_byte }
{
    offset.saturating_add(u64::from(count) - 1)
}

/// The last byte that a COMMIT reaches.
fn last_reached(offset: u64, count: u32) -> u64
    ensures without_end { count ≡ 0 → result ≡ last_byte }
    ensures of_count { 0 < count → result ≡ min (offset + count - 1) last_byte }
{
    if count == 0 {
        return u64::MAX;
    }
    last_written(offset, count)
}

/// Gives bytes of an object a position, and answers the greatest that one of them had.
fn paint(
    alloc: Global,
    files: &mut BTreeMap<u64, LastWrites>,
    object: u64,
    first: u64,
    last: u64,
    position: u64,
) -> Result<u64, AllocError>
    requires { first ≤ last }
    ensures ok { IfOk result (λ greatest. IsPaintedIn (kept_at files.old) (kept_at files.new) object first last position greatest) }
    ensures err { OnErr result (IsSameKept (kept_at files.old) (kept_at files.new)) }
{
    match files.get_mut(&object) {
        Some(writes) => writes.paint(first, last, position),
        None => {
            let mut writes = LastWrites::new(alloc);
            let greatest = writes.paint(first, last, position)?;
            files.insert(object, writes)?;
            Ok(greatest)
        }
    }
}

/// Takes in one more place, and answers the position of the last stable one.
fn take_in(
    alloc: Global,
    files: &mut BTreeMap<u64, LastWrites>,
    placed: u64,
    needed: u64,
    effect: Effect,
) -> Result<u64, AllocError>
    requires { placed < last_byte }
    ensures ok { IfOk result (λ newly. KeepsOneMore placed needed (kept_at files.old) effect newly (kept_at files.new)) }
    ensures err { OnErr result (IsSameKept (kept_at files.old) (kept_at files.new)) }
{
    match effect {
        Effect::Nothing => Ok(needed),
        Effect::Lasting => Ok(placed + 1),
        Effect::Unstable {
            object,
            offset,
            count,
        } => {
            if count == 0 {
                return Ok(needed);
            }
            let last = last_written(offset, count);
            paint(alloc, files, object, offset, last, placed + 1)?;
            Ok(needed)
        }
        Effect::Committed {
            object,
            offset,
            count,
        } => {
            let last = last_reached(offset, count);
            let greatest = paint(alloc, files, object, offset, last, 0)?;
            Ok(greatest.max(needed))
        }
    }
}

impl Stability {
    ghost use Rattle.std.specs.Prelude.{◌≡◌, ◌++◌, ◌∷◌, [], List, OnOk, OnErr};
    ghost use Rattle.cut_check.specs.declared.effect.Effect.{Effect};
    ghost use Rattle.cut_check.specs.Effect.{effect_of};
    ghost use Rattle.cut_check.specs.Stable.{IsLastStable};
    ghost use Rattle.cut_check.specs.Stability.{IsStabilityOf};

    /// No place is noted.
    pub fn new(alloc: Global) -> Stability
        ensures { IsStabilityOf result [] }
    {
        Stability {
            alloc,
            placed: 0,
            needed: 0,
            files: BTreeMap::new(alloc),
        }
    }

    /// Notes a place by what it means.
    pub(crate) fn note_effect(&mut self, effect: Effect) -> Result<(), AllocError>
        ensures ok { OnOk result ((effects : List Effect) → IsStabilityOf self.old effects → IsStabilityOf self.new (effects ++ effect ∷ [])) }
        ensures err { OnErr result ((effects : List Effect) → IsStabilityOf self.old effects → IsStabilityOf self.new effects) }
    {
        if self.placed == u64::MAX {
            return Err(AllocError);
        }
        self.needed = take_in(
            self.alloc,
            &mut self.files,
            self.placed,
            self.needed,
            effect,
        )?;
        self.placed += 1;
        Ok(())
    }

    /// Notes a place: a call, how it came out, and the object that its handle names. It is refused for want of memory, and where
    /// 2^64 - 1 places are noted.
    pub fn note(
        &mut self,
        object: Option<u64>,
        call: &NfsCall,
        outcome: &Outcome,
    ) -> Result<(), AllocError>
        ensures ok { OnOk result ((effects : List Effect) → IsStabilityOf self.old effects
            → IsStabilityOf self.new (effects ++ effect_of object call.now outcome.now ∷ [])) }
        ensures err { OnErr result ((effects : List Effect) → IsStabilityOf self.old effects → IsStabilityOf self.new effects) }
    {
        self.note_effect(effect_of(object, call, outcome))
    }

    /// The position, from 1 on, of the last stable place, or 0 where none is.
    pub fn needed(&self) -> u64
        ensures { (effects : List Effect) → IsStabilityOf self.now effects → IsLastStable effects result }
    {
        self.needed
    }
}
