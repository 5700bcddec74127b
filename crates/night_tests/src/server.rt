//! One little server over a small tree, in threads of a test, and the night that may call it. Rows say what it holds, how it answers, what it does
//! wrong, and when it is silent, ends a connection or dies.

mod answers;
mod connection;
mod message;
mod objects;
mod tree;

pub(crate) use answers::byte_at;
use connection::serve_stream;
pub(crate) use connection::{Answer, Manner, RIGHT, Seen, manner_of};
pub(crate) use message::Message;
use nfs_tap::TapLog;
use night_clients::{ClientsRuntime, Night};
use night_lanes::{Depth, Settings};
pub(crate) use objects::{
    CHANGED, COMMON, FILE_SYSTEM, FLAT, Fault, Habits, LINKS, MODIFIED, NUMBER, Object, SIZE,
    SMALL, TREE, TYPE, What,
};
use rpc_client::Credential;
use std::net::{IpAddr, Ipv4Addr, SocketAddr, TcpListener, TcpStream};
use std::sync::atomic::{AtomicBool, Ordering};
use std::thread::{self, JoinHandle, Scope};
use std::time::Duration;
pub(crate) use tree::{Tree, handle_of};

/// A server that listens, and a night that calls it.
#[derive(Drop)]
pub(crate) struct Server {
    listener: TcpListener,
    pub(crate) address: SocketAddr,
    pub(crate) night: Night,
    is_over: AtomicBool,
}

/// A port of 127.0.0.1; 0 is any that is free.
fn local(port: u16) -> SocketAddr {
    SocketAddr::new(IpAddr::V4(Ipv4Addr::new(127, 0, 0, 1)), port)
}

impl Server {
    /// A server on a port that was free, and a night of this depth, in which replies may take five seconds.
    pub(crate) fn new<R: ClientsRuntime>(rt: &R, depth: u32) -> Option<Server> {
        let alloc = rt.alloc();
        let listener = TcpListener::bind(rt, local(0)).ok()?;
        let address = listener.local_addr().ok()?;
        let log = TapLog::new(alloc, handle_of(alloc, 0).ok()?);
        let settings = Settings {
            server: address,
            depth: Depth::new(depth)?,
            reply_seconds: 5,
            credential: Credential { uid: 7, gid: 9 },
            reserved: 0,
        };
        Some(Server {
            listener,
            address,
            night: Night::new(alloc, log, settings).ok()?,
            is_over: AtomicBool::new(false),
        })
    }

    /// The night of a server that listens no more.
    pub(crate) fn into_night(self) -> Night {
        let Server {
            listener,
            night,
            ..
        } = self;
        drop(listener);
        night
    }
}

/// Begins the thread of a connection.
fn begin_stream<'s, E, R: ClientsRuntime>(
    scope: &Scope<'s, E>,
    rt: &'s R,
    server: &'s Server,
    stream: TcpStream,
    manner: Manner,
) -> Option<JoinHandle<Option<Seen>>> {
    scope
        .spawn(move || serve_stream(rt, &server.night, stream, manner))
        .ok()
}

/// Serves the connections that come, until there were enough or the server is over, and gives what each saw. If it dies, it gives the word of a crash then.
fn serve<R: ClientsRuntime>(rt: &R, server: &Server, manner: Manner) -> Option<Vec<Seen>> {
    let seen = thread::scope(thread::scope_env(), rt, |scope| {
        let mut threads = Vec::new(rt.alloc());
        let mut drops = manner.drops_first;
        for _ in 0..manner.connections {
            let (stream, _) = server.listener.accept().ok()?;
            if server.is_over.load(Ordering::SeqCst) {
                break;
            }
            if drops {
                drops = false;
                continue;
            }
            let thread = begin_stream(scope, rt, server, stream, manner)?;
            if threads.push(thread).is_err() {
                return None;
            }
        }
        let mut seen = Vec::new(rt.alloc());
        for thread in threads {
            if seen.push(thread.join(rt)?).is_err() {
                return None;
            }
        }
        Some(seen)
    });
    if manner.dies {
        let _ = server.night.crash(rt);
    }
    seen
}

/// Begins to serve.
pub(crate) fn begin<'s, E, R: ClientsRuntime>(
    scope: &Scope<'s, E>,
    rt: &'s R,
    server: &'s Server,
    manner: Manner,
) -> Option<JoinHandle<Option<Vec<Seen>>>> {
    scope.spawn(move || serve(rt, server, manner)).ok()
}

/// Ends the server, which waits for a connection.
pub(crate) fn wake<R: ClientsRuntime>(rt: &R, server: &Server) {
    server.is_over.store(true, Ordering::SeqCst);
    let _ = TcpStream::connect_timeout(rt, &server.address, Duration::from_secs(1));
}
