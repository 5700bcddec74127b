//! Connections that are served side by side.

use crate::fault::RunFault;
use crate::outputs::Outputs;
use crate::part::{follow, make_part};
use crate::words::ServeRequest;
use crash_harness::journal_server::{OpenGate, Pass, Server, SimDevice};
use nfs_relay::RelayRuntime;
use program_streams::are_one_file;
use recording_command::{Part, RecordingRuntime};
use server_connection::{Allowance, Export, Room, StreamEnd, serve_export};
use std::net::{Shutdown, TcpListener, TcpStream};
use std::sync::Mutex;
use std::sync::atomic::{AtomicBool, AtomicU64, Ordering};
use std::thread::{self, JoinHandle, Scope};
use std::time::Duration;

/// The bundled server, over a device in memory that doesn't fail.
pub(crate) type SimServer = Server<OpenGate, SimDevice>;

/// What was served: the files for it, and what the clients know.
pub(crate) struct Served {
    pub(crate) outputs: Outputs,
    pub(crate) passes: Vec<Pass>,
    /// How many connections the server ended before their clients did.
    pub(crate) ended_otherwise: u64,
}

/// What the threads of connections share.
#[derive(Clone, Copy)]
pub(crate) struct Serving<'a> {
    pub(crate) server: &'a SimServer,
    pub(crate) listener: &'a TcpListener,
    /// Whether connections may be taken. It is locked until that is known.
    pub(crate) is_open: &'a Mutex<bool>,
    /// Whether all connections have ended.
    pub(crate) has_ended: &'a AtomicBool,
    /// How many the server ended before their clients did.
    pub(crate) ended_otherwise: &'a AtomicU64,
    /// How many records of a connection are answered at most.
    pub(crate) records: u64,
    /// What the history has room for.
    pub(crate) room: &'a Room,
    pub(crate) export: Export,
}

/// The thread of a connection.
type Lane = JoinHandle<Result<Pass, RunFault>>;

impl Serving<'_> {
    /// The next connection that comes.
    fn take<R: RelayRuntime>(self, rt: &R) -> TcpStream {
        for _ in rt.forever() {
            match self.listener.accept() {
                Ok((stream, _)) => return stream,
                // A connection that ended before it was taken, or want of descriptors.
                Err(_) => thread::sleep(rt, Duration::from_millis(1)),
            }
        }
        unreachable!()
    }

    /// Serves a connection to its end, and closes it.
    fn serve<R: RelayRuntime>(self, rt: &R, stream: TcpStream) -> Result<Pass, RunFault> {
        let mut pass = self.server.join_lane(rt)?;
        let _ = stream.set_nodelay(true);
        let (mut reader, mut writer) = (&stream, &stream);
        let allowance = Allowance {
            records: self.records,
            room: self.room,
        };
        let end = serve_export(
            rt,
            rt.alloc(),
            self.export,
            &mut reader,
            &mut writer,
            self.server,
            &mut pass,
            allowance,
        );
        let _ = stream.shutdown(Shutdown::Both);
        drop(self.server.leave(rt, &mut pass));
        if !is_close(end) {
            self.ended_otherwise.fetch_add(1, Ordering::SeqCst);
        }
        tell_end(rt, pass.lane(), end);
        Ok(pass)
    }

    /// Serves the next connection that comes, once connections may be taken.
    fn serve_next<R: RelayRuntime>(self, rt: &R) -> Result<Pass, RunFault> {
        let is_open = *self.is_open.lock(rt);
        if !is_open {
            return Err(RunFault::NoThread);
        }
        let stream = self.take(rt);
        self.serve(rt, stream)
    }
}

/// Whether a connection ended by a close: that of its client, or the server's own after as many records as the words allow.
fn is_close(end: StreamEnd) -> bool {
    matches!(end, StreamEnd::End | StreamEnd::Bound)
}

/// Says how a connection ended, unless all that came was read.
fn tell_end<R: RelayRuntime>(rt: &R, lane: u32, end: StreamEnd) {
    if end != StreamEnd::End {
        let _ = eprintln!(rt; "lane {lane} ended: {end}");
    }
}

/// Begins the thread of a connection.
fn begin_lane<'s, E, R: RelayRuntime>(
    scope: &Scope<'s, E>,
    rt: &'s R,
    serving: Serving<'s>,
) -> Option<Lane> {
    scope.spawn(move || serving.serve_next(rt)).ok()
}

/// Begins the threads of so many connections.
fn begin_lanes<'s, E, R: RelayRuntime>(
    scope: &Scope<'s, E>,
    rt: &'s R,
    serving: Serving<'s>,
    count: u32,
) -> Result<Vec<Lane>, RunFault> {
    let mut lanes = Vec::new(rt.alloc());
    for _ in 0..count {
        match begin_lane(scope, rt, serving) {
            Some(lane) => lanes.push(lane)?,
            None => return Err(RunFault::NoThread),
        }
    }
    Ok(lanes)
}

/// Begins to keep on disk what is recorded, in a thread of its own.
fn begin_part<'s, E, R: RelayRuntime>(
    scope: &Scope<'s, E>,
    rt: &'s R,
    serving: Serving<'s>,
    part: Part,
) -> Option<JoinHandle<()>> {
    let following = scope.spawn(move || follow(rt, serving.server, part, serving.has_ended));
    if following.is_err() {
        let _ = eprintln!(rt; "what is recorded isn't kept on disk meanwhile: no thread");
    }
    following.ok()
}

/// What the clients of connections know, once all have ended.
fn join_lanes<R: RelayRuntime>(rt: &R, lanes: Vec<Lane>) -> Result<Vec<Pass>, RunFault> {
    let mut passes = Vec::new(rt.alloc());
    for lane in lanes {
        passes.push(lane.join(rt)?)?;
    }
    Ok(passes)
}

/// What the clients know once all connections have ended, and each event is on disk.
fn await_lanes<R: RelayRuntime>(
    rt: &R,
    serving: Serving<'_>,
    lanes: Vec<Lane>,
    following: Option<JoinHandle<()>>,
) -> Result<Vec<Pass>, RunFault> {
    let passes = join_lanes(rt, lanes);
    serving.has_ended.store(true, Ordering::SeqCst);
    if let Some(following) = following {
        following.join(rt);
    }
    passes
}

/// Serves as many connections as are asked for, each on a thread of its own, once there is a thread for each and the files are made. A
/// file grows beside the history, which begins with these bytes.
pub(crate) fn serve_lanes<R: RecordingRuntime>(
    rt: &R,
    serving: Serving<'_>,
    request: &ServeRequest<'_>,
    path: &str,
    head: &[u8],
) -> Result<Served, RunFault> {
    thread::scope(thread::scope_env(), rt, |scope| {
        let mut is_open = serving.is_open.lock(rt);
        let lanes = begin_lanes(scope, rt, serving, request.lanes)?;
        let read = [request.start, None];
        let outputs = Outputs::create(rt, request.history, request.certificate, &read)?;
        // A link that led nowhere may lead to what grows beside the history.
        if are_one_file(rt, path, request.history) || are_one_file(rt, path, request.certificate) {
            return Err(RunFault::CannotWrite);
        }
        let following = match make_part(rt, path, head) {
            Some(part) => begin_part(scope, rt, serving, part),
            None => None,
        };
        *is_open = true;
        drop(is_open);
        let passes = await_lanes(rt, serving, lanes, following)?;
        Ok(Served {
            outputs,
            passes,
            ended_otherwise: serving.ended_otherwise.load(Ordering::SeqCst),
        })
    })
}
