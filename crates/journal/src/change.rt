//! Changes, as a journal has them.

ghost use Rattle.std.specs.Prelude.{◌≡◌};
ghost use Rattle.journal.specs.Exactly.{Exactly};
ghost use Rattle.journal.specs.Journal.{IsChange, IsJournalRecord};

use crate::parts::{call_of, head_of, reply_of, results_of};
use crate::record_fault::RecordFault;
use crate::text::{JournalRecord, read_text};
use nfs3_types::{NfsCall, NfsReply};
use std::alloc::Global;
use xdr_records::RECORD_LIMIT;

/// A call that changed the tree, with its reply.
#[derive(Drop)]
pub struct Change {
    /// The messages, as they are written.
    pub written: JournalRecord,
    /// The call, read from its message.
    pub call: NfsCall,
    /// The reply, read from its message.
    pub reply: NfsReply,
}

/// What these messages are.
fn change_of(alloc: Global, call: &[u8], reply: &[u8]) -> Result<(NfsCall, NfsReply), RecordFault>
    ensures { Exactly (λ c. IsChange call.now reply.now c.0 c.1) result }
{
    if call.len() > RECORD_LIMIT {
        return Err(RecordFault::NoRecord);
    }
    let Some(head) = head_of(call) else {
        return Err(RecordFault::NoRecord);
    };
    let Some(results) = results_of(reply, head.xid) else {
        return Err(RecordFault::NoRecord);
    };
    let asked = call_of(alloc, head.procedure, head.args)?;
    match reply_of(alloc, head.procedure, results) {
        Ok(answer) => Ok((asked, answer)),
        Err(fault) => Err(fault),
    }
}

/// The change whose record the bytes are, all of them.
pub fn read_record(alloc: Global, bytes: &[u8]) -> Result<Change, RecordFault>
    // What the bytes are is read, and nothing else; `NoRecord` where they are no record.
    ensures { Exactly (IsJournalRecord bytes.now) result }
{
    let written = read_text(alloc, bytes)?;
    match change_of(alloc, written.call.as_slice(), written.reply.as_slice()) {
        Ok((call, reply)) => Ok(Change {
            written,
            call,
            reply,
        }),
        Err(fault) => Err(fault),
    }
}
