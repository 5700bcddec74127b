//! The events of a history that are kept, and the history of them.

ghost use Rattle.std.specs.Prelude.{◌≡◌, ◌++◌, ◌∷◌, [], cond, length, IfOk, OnOk};
ghost use Rattle.history_file.specs.Owning.{happened, all_happened};
ghost use Rattle.nfs_history.specs.Answers.{IsErrorOf};
ghost use Rattle.nfs_history.specs.FirstFault.{FirstFaultOf};
ghost use Rattle.nfs_history.specs.History.{IsHistory};
ghost use Rattle.history_prefix.specs.Marks.{kept, kept_recording};

use nfs_history::{Event, History, HistoryFault};
use std::alloc::{AllocError, Global};
use tree_starts::Start;

/// Puts a copy of an event behind others, if it is kept.
fn put_kept(
    alloc: Global,
    events: &mut Vec<Event>,
    event: &Event,
    is_kept: bool,
) -> Result<(), AllocError>
    ensures { OnOk result (all_happened events.new.items ≡ all_happened events.old.items ++ cond is_kept (happened event.now ∷ []) []) }
{
    if is_kept {
        let copy = Event::from_seen(alloc, &event.as_seen())?;
        events.push(copy)?;
    }
    Ok(())
}

/// Copies of the events whose mark keeps them, in order.
pub fn keep_events(
    alloc: Global,
    events: &[Event],
    marks: &[bool],
) -> Result<Vec<Event>, AllocError>
    requires { length marks.now ≡ length events.now }
    ensures { IfOk result (λ copies. all_happened copies.items ≡ kept marks.now (all_happened events.now)) }
{
    let mut copies = Vec::new(alloc);
    for index in 0..events.len() {
        put_kept(alloc, &mut copies, &events[index], marks[index])?;
    }
    Ok(copies)
}

/// The history of the events of a history whose mark keeps them. It begins with what that history begins with. The first fault is named,
/// where the events that are kept are those of none.
pub fn kept_history(
    alloc: Global,
    history: &History,
    marks: &[bool],
) -> Result<History, HistoryFault>
    requires { length marks.now ≡ length history.now.events }
    ensures found { IfOk result (IsHistory (kept_recording history.now marks.now)) }
    ensures fault { IsErrorOf (FirstFaultOf (kept_recording history.now marks.now).events) result }
    // No room is set aside.
    ensures bare { IfOk result (λ part. part.spare ≡ 0) }
{
    let events = keep_events(alloc, history.events(), marks)?;
    let root = history.root().clone()?;
    let start = Start::of_seen(alloc, &history.start().lend(alloc)?)?;
    History::build_from(alloc, root, history.profile(), start, events)
}
