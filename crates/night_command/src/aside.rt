//! Calls that the server never answered, though it went on behind them.

use history_file::Event;
use night_eras::night_verdict::LeftAside;
use recording_health::{Unanswered, unanswered_in};
use std::alloc::{AllocError, Global};

/// How many changes are answered in turn behind a call that was left aside, beside the first, which may have been asked ahead of it. A thread of a
/// right server may sleep through a few.
const PASSING: u64 = 8;

/// One more call that was left aside.
fn one_more(told: Option<LeftAside>, call: &Unanswered) -> LeftAside {
    match told {
        Some(told) => LeftAside {
            count: told.count.saturating_add(1),
            lane: told.lane,
            xid: told.xid,
        },
        None => LeftAside {
            count: 1,
            lane: call.lane,
            xid: call.xid,
        },
    }
}

/// The calls that got no reply and ask for no change, though at least eight changes were asked and answered behind them on their lanes, each behind
/// the reply to the one before.
pub(crate) fn left_aside_in(
    alloc: Global,
    events: &[Event],
) -> Result<Option<LeftAside>, AllocError> {
    let mut told = None;
    for call in unanswered_in(alloc, events)?.iter() {
        if call.overtakers >= PASSING {
            told = Some(one_more(told, call));
        }
    }
    Ok(told)
}
