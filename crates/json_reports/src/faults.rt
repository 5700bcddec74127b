//! A fault as it is told: its name, as in the line of a command, and its values under plain names.

use crate::object::Member;
use certificate::TextFault;
use nfs_history::{HistoryFault, Which};
use witness_check::Fault;

/// A fault's name and its values, of which none has more than two.
#[derive(Clone, Copy)]
pub(crate) struct ToldFault {
    pub(crate) name: &'static str,
    pub(crate) first: Option<Member<'static>>,
    pub(crate) second: Option<Member<'static>>,
}

impl ToldFault {
    /// One without a value.
    fn plain(name: &'static str) -> ToldFault {
        ToldFault {
            name,
            first: None,
            second: None,
        }
    }

    /// One that names a call.
    fn of_call(name: &'static str, call: u64) -> ToldFault {
        ToldFault::of_one(name, Member::number("call", call))
    }

    /// One that names an era.
    fn of_era(name: &'static str, era: u64) -> ToldFault {
        ToldFault::of_one(name, Member::number("era", era))
    }

    /// One that names an event.
    fn of_event(name: &'static str, event: u64) -> ToldFault {
        ToldFault::of_one(name, Member::number("event", event))
    }

    /// One with this value.
    fn of_one(name: &'static str, first: Member<'static>) -> ToldFault {
        ToldFault {
            name,
            first: Some(first),
            second: None,
        }
    }

    /// One with these values.
    fn of_two(name: &'static str, first: Member<'static>, second: Member<'static>) -> ToldFault {
        ToldFault {
            name,
            first: Some(first),
            second: Some(second),
        }
    }
}

/// A fault of a plan.
pub(crate) fn of_plan(fault: Fault) -> ToldFault {
    match fault {
        Fault::WrongEras => ToldFault::plain("WrongEras"),
        Fault::Unknown(call) => ToldFault::of_call("Unknown", call),
        Fault::WrongEra(call) => ToldFault::of_call("WrongEra", call),
        Fault::Twice(call) => ToldFault::of_call("Twice", call),
        Fault::NotToPlace(call) => ToldFault::of_call("NotToPlace", call),
        Fault::Missing(call) => ToldFault::of_call("Missing", call),
        Fault::BadCut(era) => ToldFault::of_era("BadCut", era),
        Fault::Early { call, ended } => ToldFault::of_two(
            "Early",
            Member::number("call", call),
            Member::number("other", ended),
        ),
        Fault::Illegal(call) => ToldFault::of_call("Illegal", call),
        Fault::ShortCut { era, needed } => ToldFault::of_two(
            "ShortCut",
            Member::number("era", era),
            Member::number("needed", needed),
        ),
        Fault::Verifier(era) => ToldFault::of_era("Verifier", era),
    }
}

/// What of a call lies outside the model.
fn outside_name(which: Which) -> &'static str {
    match which {
        Which::Link => "Link",
        Which::Node => "Node",
        Which::CountDiffers => "CountDiffers",
        Which::TooFar => "TooFar",
    }
}

/// A fault of a history.
pub(crate) fn of_history(fault: HistoryFault) -> ToldFault {
    match fault {
        HistoryFault::BadMagic => ToldFault::plain("BadMagic"),
        HistoryFault::TooLarge => ToldFault::plain("TooLarge"),
        HistoryFault::Truncated => ToldFault::plain("Truncated"),
        HistoryFault::Trailing => ToldFault::plain("Trailing"),
        HistoryFault::BadStart(object) => {
            ToldFault::of_one("BadStart", Member::number("object", object))
        }
        HistoryFault::BadProfile => ToldFault::plain("BadProfile"),
        HistoryFault::BadEvent(event) => ToldFault::of_event("BadEvent", event),
        HistoryFault::LaneClosed(event) => ToldFault::of_event("LaneClosed", event),
        HistoryFault::BadRpc(event) => ToldFault::of_event("BadRpc", event),
        HistoryFault::XidInUse(event) => ToldFault::of_event("XidInUse", event),
        HistoryFault::NoSuchCall(event) => ToldFault::of_event("NoSuchCall", event),
        HistoryFault::Sealed(call) => ToldFault::of_call("Sealed", call),
        HistoryFault::BadArgs(call) => ToldFault::of_call("BadArgs", call),
        HistoryFault::BadResult(call) => ToldFault::of_call("BadResult", call),
        HistoryFault::Outside { call, which } => ToldFault::of_two(
            "Outside",
            Member::number("call", call),
            Member::text("which", outside_name(which)),
        ),
        // A verdict never has it.
        HistoryFault::NoMemory => ToldFault::plain("out of memory"),
    }
}

/// A fault of a certificate's text.
pub(crate) fn of_text(fault: TextFault) -> ToldFault {
    match fault {
        TextFault::BadLine(line) => ToldFault::of_one("BadLine", Member::number("line", line)),
        // A verdict never has it.
        TextFault::NoMemory => ToldFault::plain("out of memory"),
    }
}
