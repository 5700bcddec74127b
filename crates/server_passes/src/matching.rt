//! Whether what clients were told is what was recorded.

ghost use Rattle.std.specs.Prelude.{◌≡◌, ◌≢◌, ◌↔◌, ℕ, Err, IsTrue, is_some, count_by, All, IfOk, OnOk, IfErr};
ghost use Rattle.server_passes.specs.declared.fault.CloseFault.TheVariants.{MissingPass, Torn};
ghost use Rattle.server_passes.specs.Lanes.{calls_on, exchanges_in};
ghost use Rattle.server_passes.specs.Least.{IsLeast};
ghost use Rattle.server_passes.specs.Matching.{exchanges_on, told, IsToldTwice, IsToldOther, IsTorn, IsTold, IsLeastTorn, IsCloseFault, IsFineOrNoMemory, IsThatOrNoMemory, answered, AreCovered};
ghost use Rattle.server_passes.specs.Telling.{IsToldOtherThan};

use crate::fault::CloseFault;
use crate::lanes::LaneCalls;
use crate::least::{least_of, least_with};
use crate::messages::are_exchanges;
use crate::passes::Pass;
use history_file::Event;
use indexmap::IndexSet;
use nfs_history::{History, RecordedCall};
use std::alloc::{AllocError, Global};

/// How many calls were answered.
fn count_answered(calls: &[RecordedCall]) -> usize
    ensures { result ≡ count_by (λ call. is_some call.«end») calls.now }
{
    calls.iter().filter(|call| call.end.is_some()).count()
}

/// Whether the passes tell of so many calls.
fn tell_of(passes: &[Pass], count: usize) -> bool
    ensures { IsTrue result ↔ (told passes.now ≡ count) }
{
    let mut untold = count;
    for pass in passes {
        match untold.checked_sub(pass.exchanges().len()) {
            Some(left) => untold = left,
            None => return false,
        }
    }
    untold == 0
}

/// The least lane that two passes have.
fn least_twice(alloc: Global, passes: &[Pass]) -> Result<Option<u32>, AllocError>
    ensures { IfOk result (IsLeast (IsToldTwice passes.now)) }
{
    let mut met = IndexSet::new(alloc);
    let mut least = None;
    for pass in passes {
        let lane = pass.lane();
        if !met.insert(lane)? {
            least = Some(least_with(least, lane));
        }
    }
    Ok(least)
}

/// Whether a pass tells what was recorded on its lane.
fn tells_right(events: &[Event], lanes: &LaneCalls, pass: &Pass) -> bool
    ensures { IsTrue result ↔ (pass.now.exchanges ≡ exchanges_in events.now (calls_on lanes.now pass.now.lane)) }
{
    are_exchanges(events, lanes.on(pass.lane()), pass.exchanges())
}

/// The least lane of a pass that tells of other exchanges than were recorded on it.
fn least_other(events: &[Event], lanes: &LaneCalls, passes: &[Pass]) -> Option<u32>
    ensures { IsLeast (IsToldOtherThan events.now lanes.now passes.now) result }
{
    let mut least = None;
    for pass in passes {
        if !tells_right(events, lanes, pass) {
            least = Some(least_with(least, pass.lane()));
        }
    }
    least
}

/// The least torn lane.
fn least_torn(alloc: Global, history: &History, passes: &[Pass]) -> Result<Option<u32>, AllocError>
    ensures { IfOk result (IsLeast (IsTorn history.now passes.now)) }
{
    let lanes = LaneCalls::of_calls(alloc, history.recorded_calls())?;
    let twice = least_twice(alloc, passes)?;
    let other = least_other(history.events(), &lanes, passes);
    Ok(least_of(twice, other))
}

/// Whether the passes tell of each answered call once, in the order of its lane, with its message and its reply as they were
/// recorded, and of nothing else. Its time is in proportion to the calls, the passes and the bytes compared, its memory to the
/// answered calls and the passes.
pub fn match_passes(alloc: Global, history: &History, passes: &[Pass]) -> Result<(), CloseFault>
    ensures ok { OnOk result (IsTold history.now passes.now) }
    // Each pass tells what was recorded on its lane.
    ensures each { OnOk result (All (λ pass. pass.exchanges ≡ exchanges_on history.now pass.lane) passes.now) }
    // What is told so is found so, memory aside.
    ensures only { IsTold history.now passes.now → IsFineOrNoMemory result }
    // The first fault, in the order of their names; of the torn lanes the least.
    ensures fault { IfErr result (IsCloseFault history.now passes.now) }
    // It is named, memory aside; a count that differs always is.
    ensures missing { told passes.now ≢ answered history.now → result ≡ Err MissingPass }
    ensures torn { (lane : ℕ) → IsLeastTorn history.now passes.now lane → IsThatOrNoMemory (Torn lane) result }
    // No answered call's lane is left out.
    ensures covered { OnOk result (AreCovered history.now passes.now) }
{
    let answered = count_answered(history.recorded_calls());
    if !tell_of(passes, answered) {
        return Err(CloseFault::MissingPass);
    }
    match least_torn(alloc, history, passes)? {
        Some(lane) => Err(CloseFault::Torn(lane)),
        None => Ok(()),
    }
}
