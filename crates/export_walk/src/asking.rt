//! A call of a walk, and the reply to it.

ghost use Rattle.std.specs.Prelude.{IfOk};
ghost use Rattle.export_walk.specs.Noted.{AreMessages};

use crate::end::WalkEnd;
use crate::hearing::result_in;
use crate::noting::NotedExchange;
use nfs3_types::{Failure, NfsCall, NfsReply};
use rpc_client::{Credential, put_message};
use rpc_connection::{Connection, ConnectionRuntime};
use std::thread;
use std::time::Duration;

/// How many times in a second a call is asked again that the server needs more time for.
const TRIES_IN_A_SECOND: u64 = 10;

/// The reply to a call, and the messages of both.
#[derive(Drop)]
pub(crate) struct Answered {
    pub(crate) reply: NfsReply,
    pub(crate) messages: NotedExchange,
}

/// Asks a call on a connection.
pub(crate) fn ask<R: ConnectionRuntime>(
    rt: &R,
    connection: &mut Connection,
    who: Credential,
    xid: u32,
    call: &NfsCall,
) -> Result<Answered, WalkEnd>
    ensures { IfOk result (λ answered. AreMessages who call.now answered.reply answered.messages) }
{
    let mut message = Vec::new(rt.alloc());
    put_message(&mut message, xid, who, call)?;
    let told = connection.ask(rt, xid, message.as_slice())?;
    let reply = result_in(rt.alloc(), call, told.as_slice())?;
    let messages = NotedExchange {
        call: message,
        reply: told,
    };
    Ok(Answered { reply, messages })
}

/// Asks a call on a connection, and again with another transaction number where the server needs more time for it (NFS3ERR_JUKEBOX, RFC 1813,
/// section 2.6), for so many seconds. `xid` is the number before the first.
pub(crate) fn ask_patiently<R: ConnectionRuntime>(
    rt: &R,
    connection: &mut Connection,
    who: Credential,
    xid: &mut u32,
    call: &NfsCall,
    seconds: u64,
) -> Result<Answered, WalkEnd>
    ensures { IfOk result (λ answered. AreMessages who call.now answered.reply answered.messages) }
{
    for _ in 0..seconds.saturating_mul(TRIES_IN_A_SECOND) {
        *xid = xid.wrapping_add(1);
        let answered = ask(rt, connection, who, *xid, call)?;
        if answered.reply.failure() != Some(Failure::Jukebox) {
            return Ok(answered);
        }
        thread::sleep(rt, Duration::from_millis(1_000 / TRIES_IN_A_SECOND));
    }
    *xid = xid.wrapping_add(1);
    ask(rt, connection, who, *xid, call)
}
