//! What is tried before a recording begins, so that what is wrong shows at once.

use crate::runtime::RecordingRuntime;
use crate::tap_words::{RootWords, TapRequest};
use nfs3_types::{FileHandle, NfsCall};
use rpc_client::{Credential, put_message};
use rpc_connection::Connection;
use rpc_reader::{ReplyBody, read_reply};
use std::alloc::{AllocError, Global};
use std::fs::{self, OpenOptions};
use std::io::{self, ErrorKind};
use std::net::SocketAddr;
use std::rt::Files;
use std::time::Duration;
use xdr_records::Reader;

/// How many seconds the server may take to answer for the root.
const PATIENCE: u64 = 5;

/// The transaction number of the one call that is made.
const XID: u32 = 1;

/// Who asks.
const WHO: Credential = Credential { uid: 0, gid: 0 };

/// Tries whether a file may be written. One that isn't there is made, and removed again.
fn try_to_write<R: Files>(rt: &R, path: &str) -> io::Result<()> {
    match fs::metadata(rt, path) {
        Ok(known) if known.is_dir() => Err(io::Error::from(ErrorKind::IsADirectory)),
        // A pipe or a device isn't opened ahead of its time.
        Ok(known) if !known.is_file() => Ok(()),
        Ok(_) => {
            drop(OpenOptions::new().append(true).open(rt, path)?);
            Ok(())
        }
        Err(_) => {
            drop(fs::create(rt, path)?);
            let _ = fs::remove_file(rt, path);
            Ok(())
        }
    }
}

/// Whether the history may be written at the end; why it may not is said on standard error. A file that isn't there is made, and removed again.
pub(crate) fn can_write<R: Files + Eprint>(rt: &R, path: &str) -> bool {
    match try_to_write(rt, path) {
        Ok(()) => true,
        Err(error) => {
            let _ = eprintln!(rt; "nfsbench: {path}: {error}");
            false
        }
    }
}

/// Says so where the recorder is to relay to itself.
pub(crate) fn is_own_port<R: RecordingRuntime>(rt: &R, request: &TapRequest<'_>) -> bool {
    let server = request.server;
    let is_own = server.ip().is_loopback() && server.port() == request.port;
    if is_own {
        let _ = eprintln!(rt; "--port and --server are the same port of this machine");
    }
    is_own
}

/// The message of a GETATTR.
fn message_for(alloc: Global, root: &FileHandle) -> Result<Vec<u8>, AllocError> {
    let call = NfsCall::GetAttr(root.clone()?);
    let mut message = Vec::new(alloc);
    put_message(&mut message, XID, WHO, &call)?;
    Ok(message)
}

/// The status that the server answers a GETATTR of the root with, if it answers.
fn status_of_root<R: RecordingRuntime>(
    rt: &R,
    server: &SocketAddr,
    root: &FileHandle,
) -> Option<u32> {
    let message = message_for(rt.alloc(), root).ok()?;
    let patience = Duration::from_secs(PATIENCE);
    let mut connection = Connection::connect(rt, server, patience).ok()?;
    let reply = connection.ask(rt, XID, message.as_slice()).ok()?;
    match read_reply(reply.as_slice()).ok()?.body {
        ReplyBody::Success(results) => Reader::new(results).u32().ok(),
        _ => None,
    }
}

/// Asks the server for the root's attributes, and says so where it doesn't know the root's handle. A recording that counts its
/// connections, or that ends with standard input, begins ahead of its server, which then isn't asked.
pub(crate) fn probe_root<R: RecordingRuntime>(rt: &R, request: &TapRequest<'_>, root: &FileHandle) {
    let is_given = matches!(request.root, RootWords::Handle(_));
    if !is_given || !request.ends.is_any() {
        return;
    }
    match status_of_root(rt, &request.server, root) {
        None | Some(0) => {}
        Some(status) => {
            let _ = eprintln!(rt;
                "the server answers GETATTR of the root with status {status}: is --root its handle?"
            );
        }
    }
}
