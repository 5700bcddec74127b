//! Whether a record is the reply to a call.

ghost use Rattle.rpc_connection.specs.Answers.{IsTold};

use crate::fault::ConnectionFault;
use rpc_reader::read_reply;

/// Fine where a message is a reply with this transaction number.
pub(crate) fn check_reply(xid: u32, message: &[u8]) -> Result<(), ConnectionFault>
    ensures { IsTold xid message.now result }
{
    match read_reply(message) {
        Ok(head) if head.xid == xid => Ok(()),
        Ok(head) => Err(ConnectionFault::OtherNumber(head.xid)),
        Err(fault) => Err(ConnectionFault::NotRpc(fault)),
    }
}
