//! What a connection needs of the runtime.

use std::net::{Net, TcpListener, TcpStream};
use std::sync::Wait;
use std::time::Clock;

/// What a connection needs of the runtime: sockets, whose types are named, the leave to wait, a clock and memory.
pub trait ConnectionRuntime: Net<Listener = TcpListener, Stream = TcpStream>
    + Wait
    + Clock
    + AllocGlobal {}

impl<R> ConnectionRuntime for R
where
    R: Net<Listener = TcpListener, Stream = TcpStream> + Wait + Clock + AllocGlobal,
{}
