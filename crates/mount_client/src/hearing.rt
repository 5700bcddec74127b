//! The root that a reply gives.

ghost use Rattle.mount_client.specs.Hearing.{IsTold, IsHeard};

use crate::fault::MountFault;
use crate::results::{Told, read_mount};
use crate::status::MountStatus;
use nfs3_types::FileHandle;
use rpc_client::Refusal;
use rpc_connection::ConnectionFault;
use rpc_reader::{ReplyBody, read_reply};
use std::alloc::Global;

/// The root that the results of MNT give.
#[tactic(auto, using(crate::proofs::Roots::root_short))]
fn root_told(alloc: Global, results: &[u8]) -> Result<FileHandle, MountFault>
    ensures { IsTold results.now result }
{
    let Ok(told) = read_mount(results) else {
        return Err(MountFault::BadResult);
    };
    match told {
        Told::Mounted(root, is_taken) => {
            if is_taken {
                Ok(FileHandle::from_slice(alloc, root)?)
            } else {
                Err(MountFault::NoAuthSys)
            }
        }
        Told::Failed(number) => Err(MountFault::Status(MountStatus::named(number))),
    }
}

/// The root that a reply to MNT gives, a message without record marking.
pub fn root_in(alloc: Global, message: &[u8]) -> Result<FileHandle, MountFault>
    ensures { IsHeard message.now result }
{
    let head = match read_reply(message) {
        Ok(head) => head,
        Err(fault) => return Err(MountFault::Connection(ConnectionFault::NotRpc(fault))),
    };
    if let Some(refusal) = Refusal::in_body(&head.body) {
        return Err(MountFault::Refused(refusal));
    }
    match head.body {
        ReplyBody::Success(results) => root_told(alloc, results),
        _ => unreachable!(),
    }
}
