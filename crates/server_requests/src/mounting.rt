//! What a client asks before it uses a server of NFS version 3, answered ahead of the server: the MOUNT service, and what NFS tells of
//! rights and limits. No such call is judged, and none stands in a history.

mod answer;
mod asked;
mod results;

ghost use Rattle.std.specs.Prelude.{IfOk};
ghost use Rattle.rpc_reader.specs.Views.{call_value};
ghost use Rattle.server_requests.specs.Mounting.{IsMountReply, IsReplyTo};

use crate::mounting::asked::answer_to;
use rpc_reader::{CallHead, read_call};
use std::alloc::{AllocError, Global};

/// The reply to a call with this head, as a message.
fn reply_to(alloc: Global, head: &CallHead<'_>) -> Result<Option<Vec<u8>>, AllocError>
    ensures { IfOk result (IsReplyTo (call_value head.now)) }
{
    match answer_to(head) {
        Some(answer) => Ok(Some(answer.message(alloc, head.xid)?)),
        None => Ok(None),
    }
}

/// The reply to a message that is a call of the MOUNT service, or of ACCESS, FSSTAT, FSINFO or PATHCONF, as a message. Every other message
/// is left to the server. Message and reply have no record marks.
pub fn mount_reply(alloc: Global, message: &[u8]) -> Result<Option<Vec<u8>>, AllocError>
    ensures { IfOk result (IsMountReply message.now) }
{
    match read_call(message) {
        Ok(head) => reply_to(alloc, &head),
        Err(_) => Ok(None),
    }
}
