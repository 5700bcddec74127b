//! Connections that are served, from the words to the files.

ghost use Rattle.std.specs.Prelude.{IfOk};
ghost use Rattle.serving_commands.specs.Recording.{IsRecording};

use crate::beginning::Beginning;
use crate::fault::RunFault;
use crate::lanes::{Served, Serving, SimServer, serve_lanes};
use crate::recorded::{RunTexts, record_closed};
use crate::words::ServeRequest;
use crash_harness::journal_server::{OpenGate, Profile, Server, SimDevice};
use recording_command::{RecordingRuntime, part_path};
use server_connection::Room;
use std::alloc::{AllocError, Global};
use std::fs;
use std::net::{IpAddr, Ipv4Addr, SocketAddr, TcpListener};
use std::sync::Mutex;
use std::sync::atomic::{AtomicBool, AtomicU64};

/// A server that begins so, over a device that doesn't fail. It is strict where the words or the beginning ask for it.
fn server_from(
    alloc: Global,
    request: &ServeRequest<'_>,
    beginning: Beginning,
) -> Result<SimServer, AllocError> {
    let (profile, start) = beginning.into_parts();
    let profile = if request.is_strict {
        Profile::Strict
    } else {
        profile
    };
    let device = SimDevice::new(alloc, None, None, None);
    Server::new_from(alloc, OpenGate, device, profile, start)
}

/// Ends a server, and writes what it recorded.
fn save(alloc: Global, server: SimServer, served: Served) -> Result<RunTexts, RunFault>
    ensures { IfOk result IsRecording }
{
    let Served {
        mut outputs,
        passes,
        ended_otherwise: _,
    } = served;
    let closed = server.close(passes)?;
    let recorded = record_closed(alloc, closed)?;
    outputs.write(&recorded)?;
    Ok(recorded)
}

/// Serves the connections that the words ask for, while a file at this path grows beside the history.
fn serve_beside<R: RecordingRuntime>(
    rt: &R,
    request: &ServeRequest<'_>,
    server: &SimServer,
    listener: &TcpListener,
    path: &str,
) -> Result<Served, RunFault> {
    let head = server.put_head(rt)?;
    let serving = Serving {
        server,
        listener,
        is_open: &Mutex::new(false),
        has_ended: &AtomicBool::new(false),
        ended_otherwise: &AtomicU64::new(0),
        records: request.calls,
        room: &Room::of_history(head.len()),
        export: request.export,
    };
    serve_lanes(rt, serving, request, path, head.as_slice())
}

/// Says how many connections ended otherwise than by a close, where any did.
fn tell_otherwise<R: RecordingRuntime>(rt: &R, count: u64) {
    if count > 0 {
        let _ = eprintln!(rt; "connections that ended otherwise than by a close: {count}");
    }
}

/// Serves the connections that the words ask for by a server that begins so, and writes what it recorded: first each connection is taken on a
/// thread of its own, and when all have ended the server closes. It waits as long as clients let it. What is recorded meanwhile is in a file
/// beside the history, which goes once the history is written. With what it recorded comes how many connections ended otherwise than by a close.
pub fn serve<R: RecordingRuntime>(
    rt: &R,
    request: &ServeRequest<'_>,
    beginning: Beginning,
) -> Result<(RunTexts, u64), RunFault>
    // The certificate is a witness of the history.
    ensures explained { IfOk result (λ served. IsRecording served.0) }
{
    let localhost = IpAddr::V4(Ipv4Addr::new(127, 0, 0, 1));
    let address = SocketAddr::new(localhost, request.port);
    let Ok(listener) = TcpListener::bind(rt, address) else {
        return Err(RunFault::CannotListen);
    };
    let path = part_path(rt.alloc(), request.history)?;
    if fs::metadata(rt, path.as_str()).is_ok() {
        return Err(RunFault::PartStands);
    }
    if path.as_str() == request.certificate {
        return Err(RunFault::CannotWrite);
    }
    let server = server_from(rt.alloc(), request, beginning)?;
    let served = match serve_beside(rt, request, &server, &listener, path.as_str()) {
        Ok(served) => served,
        Err(fault) => {
            drop(server.close(Vec::new(rt.alloc())));
            return Err(fault);
        }
    };
    let ended_otherwise = served.ended_otherwise;
    let recorded = save(rt.alloc(), server, served)?;
    let _ = fs::remove_file(rt, path.as_str());
    tell_otherwise(rt, ended_otherwise);
    Ok((recorded, ended_otherwise))
}
