//! The exchanges that are noted.

ghost use Rattle.std.specs.Prelude.{◌≡◌, ◌++◌, OnOk};
ghost use Rattle.export_walk.specs.Noted.{is_noted, noted_if};

use nfs3_types::{NfsCall, NfsReply, Procedure};
use std::alloc::AllocError;

/// A call and the reply to it, as messages without record marking.
#[derive(Drop)]
pub struct NotedExchange {
    /// The call.
    pub call: Vec<u8>,
    /// The reply.
    pub reply: Vec<u8>,
}

/// Whether an exchange is noted: a LOOKUP or a READDIRPLUS that succeeded. The others give no handle.
pub(crate) fn is_noted(call: &NfsCall, reply: &NfsReply) -> bool
    ensures { result ≡ is_noted call.now reply.now }
{
    let gives_handles = matches!(call.procedure(), Procedure::Lookup | Procedure::ReadDirPlus);
    gives_handles && reply.failure().is_none()
}

/// Puts an exchange after the others, where that is due.
pub(crate) fn note(
    noted: &mut Vec<NotedExchange>,
    is_due: bool,
    exchange: NotedExchange,
) -> Result<(), AllocError>
    ensures { OnOk result (noted.new.items ≡ noted.old.items ++ noted_if is_due exchange) }
{
    if is_due {
        noted.reserve(1)?;
        noted.push(exchange).unwrap();
    }
    Ok(())
}
