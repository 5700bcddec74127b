//! Why the events of a file end where they do.

use nfs_history::EventFault;
use std::fmt;
use thiserror::Error;

/// Why the events that a file gives end where they do.
#[derive(Clone, Copy, Debug, PartialEq, Eq, Error)]
pub enum End {
    /// Nothing is behind the last of them.
    Whole,
    /// The file ends in the middle of the next event.
    Cut,
    /// What is behind the last of them begins as no event does.
    NoEvent,
    /// The next event may not follow those before it: its fault.
    CannotFollow(EventFault),
    /// With the next event the history would pass a limit.
    Full,
}

impl fmt::Display for End {
    ghost use Rattle.std.specs.Prelude.{Some};
    ghost use Rattle.history_mending.specs.EndText.{end_words};

    ghost output = { λ end. Some (end_words end) };

    fn fmt<W: fmt::Write>(&self, f: &mut fmt::Formatter<W>) -> fmt::Result {
        match self {
            End::Whole => f.write_str("whole"),
            End::Cut => f.write_str("cut"),
            End::NoEvent => f.write_str("no event"),
            End::CannotFollow(fault) => write!(f, "{fault}"),
            End::Full => f.write_str("full"),
        }
    }
}
