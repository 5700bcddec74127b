//! How a connection ended.

ghost use Rattle.std.specs.Prelude.{◌≡◌, ◌↔◌, IsTrue};
ghost use Rattle.nfs_tap.specs.declared.pump.PumpEnd.TheVariants as ends;
ghost use Rattle.std.specs.Option.{option_or};
ghost use Rattle.nfs_relay.specs.Words.{halt_of};

use crate::control::Halt;
use nfs_tap::PumpEnd;
use std::fmt;

/// How the two pumps of a lane ended.
#[derive(Clone, Copy)]
pub(crate) struct LaneEnd {
    pub(crate) lane: u32,
    pub(crate) calls: PumpEnd,
    pub(crate) replies: PumpEnd,
    /// Whether the server ended it, before anybody else had and outside a crash.
    pub(crate) is_by_server: bool,
    /// Whether the recording ended it.
    pub(crate) is_halted: bool,
}

impl LaneEnd {
    /// Whether both streams ended, and nothing failed.
    pub(crate) fn is_clean(&self) -> bool
        ensures { IsTrue result ↔ ((self.now.calls ≡ ends.End) × (self.now.replies ≡ ends.End)) }
    {
        self.calls == PumpEnd::End && self.replies == PumpEnd::End
    }

    /// Whether replies could still have come, and it wasn't the server that ended the lane: the recording ended, or its bound was reached, or
    /// the client was gone, or sent what isn't noted.
    pub(crate) fn is_cut(&self) -> bool {
        let is_by_others = matches!(self.replies, PumpEnd::WriteFault | PumpEnd::Bound)
            || !matches!(self.calls, PumpEnd::End | PumpEnd::WriteFault);
        self.is_halted || (is_by_others && !self.is_by_server)
    }

    /// Why the whole recording ends with this lane, if it does.
    pub(crate) fn halt(&self) -> Option<Halt>
        ensures { result ≡ option_or (halt_of self.now.calls) (halt_of self.now.replies) }
    {
        match halt_of(self.calls) {
            Some(halt) => Some(halt),
            None => halt_of(self.replies),
        }
    }
}

impl fmt::Display for LaneEnd {
    ghost use Rattle.std.specs.Prelude.{Some};
    ghost use Rattle.nfs_relay.specs.Words.{lane_end_words};

    ghost output = { λ end. Some (lane_end_words end.lane end.calls end.replies) };

    fn fmt<W: fmt::Write>(&self, f: &mut fmt::Formatter<W>) -> fmt::Result {
        let LaneEnd {
            lane,
            calls,
            replies,
            is_by_server: _,
            is_halted: _,
        } = *self;
        write!(f, "lane {lane} ended: calls {calls}, replies {replies}")
    }
}

/// Why a recording ends where a pump ended so.
fn halt_of(end: PumpEnd) -> Option<Halt>
    ensures { result ≡ halt_of end }
{
    match end {
        PumpEnd::LogFull => Some(Halt::LogFull),
        PumpEnd::NoMemory => Some(Halt::NoMemory),
        _ => None,
    }
}
