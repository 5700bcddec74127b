//! What clients need of the runtime.

use std::net::{Net, TcpListener, TcpStream};
use std::sync::Wait;
use std::thread::Threads;
use std::time::Clock;

/// What clients need of the runtime: sockets, threads, locks and a clock. Its types are named, so that threads may share it.
pub trait ClientsRuntime: Net<Listener = TcpListener, Stream = TcpStream>
    + Threads
    + Wait
    + Clock
    + AllocGlobal
    + Sync {}

impl<R> ClientsRuntime for R
where
    R: Net<Listener = TcpListener, Stream = TcpStream>
        + Threads
        + Wait
        + Clock
        + AllocGlobal
        + Sync,
{}
