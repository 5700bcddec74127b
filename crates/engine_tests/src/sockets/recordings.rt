//! What is recorded.

use super::{comes, connect, ends, free_port, listen, port_of, sends, take_file, taps};
use crate::histories::Happened::{Closed, Crashed, Done};
use crate::histories::{AA, Exchange, Happened, NULL, PLAIN, file, records};
use nfs_relay::RelayRuntime;
use program_streams::Stream;
use recording_command::RecordingRuntime;
use std::alloc::Global;
use std::io;
use std::net::{TcpListener, TcpStream};
use std::test::Fail;
use std::thread::{self, JoinHandle, Scope};

/// What ends a connection.
#[derive(Clone, Copy)]
enum Ending {
    /// The client hangs up.
    Client,
    /// A crash is told.
    Crash,
    /// The recorder ends.
    Recorder,
}

/// What clients ask on one connection after the other, and what is recorded of it.
#[derive(Clone, Copy)]
struct Row {
    connections: &'static [(&'static [Exchange], Ending)],
    options: &'static str,
    said: &'static [u8],
    history: &'static [Happened],
}

/// A LINK of the handle aa to the name `b` of the root, which succeeds (RFC 1813, section 3.3.15).
const LINK: Exchange = Exchange(15, &[1, AA, 1, 0, 1, 0x6200_0000], &[0, 0, 0, 0]);

const ROWS: [Row; 4] = [
    Row {
        connections: &[(&[NULL, NULL], Ending::Client)],
        options: "--root 00 --lanes 1",
        said: b"calls 2\n",
        history: &[Done(1, 7, NULL), Done(1, 7, NULL), Closed(1)],
    },
    Row {
        connections: &[(&[NULL], Ending::Crash), (&[NULL], Ending::Client)],
        options: "--root 00",
        said: b"calls 2\n",
        history: &[
            Done(1, 7, NULL),
            Closed(1),
            Crashed,
            Done(2, 7, NULL),
            Closed(2),
        ],
    },
    // What has the history refused is only reported.
    Row {
        connections: &[(&[NULL, LINK], Ending::Client)],
        options: "--root 00 --lanes 1",
        said: b"calls 2\n",
        history: &[Done(1, 7, NULL), Done(1, 7, LINK), Closed(1)],
    },
    Row {
        connections: &[(&[NULL, LINK], Ending::Recorder)],
        options: "--root 00 --lanes 1 --stop-at-outside",
        said: b"calls 1\n",
        history: &[Done(1, 7, NULL)],
    },
];

/// The ports of a recording, of its server, and of the stream that tells it of crashes.
#[derive(Clone, Copy)]
struct Ports {
    tap: u16,
    server: u16,
    control: u16,
}

/// A client, and the server's end of its connection.
fn connection<R: RelayRuntime>(
    rt: &R,
    port: u16,
    listener: &TcpListener,
) -> io::Result<(TcpStream, TcpStream)> {
    let client = connect(rt, port)?;
    let (server, _) = listener.accept()?;
    Ok((client, server))
}

/// Whether each call that one end sends comes to the other, and its reply comes back.
fn exchange(
    alloc: Global,
    client: &mut TcpStream,
    server: &mut TcpStream,
    asked: &[Exchange],
) -> bool {
    for exchange in asked {
        let Ok((call, reply)) = records(alloc, 7, *exchange) else {
            return false;
        };
        let is_asked = sends(client, &call) && comes(server, &call);
        if !is_asked || !sends(server, &reply) || !comes(client, &reply) {
            return false;
        }
    }
    true
}

/// Whether a client is answered by the server, and the connection of both ends as it should.
fn calls<R: RelayRuntime>(
    rt: &R,
    port: u16,
    listener: &TcpListener,
    (asked, ending): (&[Exchange], Ending),
    control: &mut TcpStream,
) -> bool {
    let Ok((mut client, mut server)) = connection(rt, port, listener) else {
        return false;
    };
    let is_answered = exchange(rt.alloc(), &mut client, &mut server, asked);
    let is_ended = match ending {
        Ending::Client => true,
        Ending::Crash => sends(control, b"crash\n") && ends(&mut client),
        Ending::Recorder => ends(&mut client),
    };
    drop(client);
    is_answered && is_ended && ends(&mut server)
}

/// Whether the clients of a row call one after the other.
fn come<R: RelayRuntime>(rt: &R, ports: Ports, listener: &TcpListener, row: &Row) -> bool {
    let Ok(mut control) = connect(rt, ports.control) else {
        return false;
    };
    for (asked, ending) in row.connections {
        if !calls(rt, ports.tap, listener, (*asked, *ending), &mut control) {
            return false;
        }
    }
    true
}

/// Begins the clients and the server in a thread of their own.
fn begin<'s, E, R: RelayRuntime>(
    scope: &Scope<'s, E>,
    rt: &'s R,
    ports: Ports,
    listener: &'s TcpListener,
    row: &'s Row,
) -> Option<JoinHandle<bool>> {
    scope.spawn(move || come(rt, ports, listener, row)).ok()
}

/// Whether as many calls are recorded as should be, of which a recording is told on a stream, which is its standard input.
fn are_tapped<R: RecordingRuntime>(rt: &R, ports: Ports, control: &TcpListener, row: &Row) -> bool {
    let Ok((orders, _)) = control.accept() else {
        return false;
    };
    let mut orders = Stream::new(orders);
    let servers = (ports.tap, ports.server);
    taps(rt, servers, row.options, &mut orders, row.said)
}

/// Whether what is said is recorded: the program runs on this thread, which has the files.
fn is_tapped<R: RecordingRuntime>(
    rt: &R,
    ports: Ports,
    listener: &TcpListener,
    control: &TcpListener,
    row: &Row,
) -> bool {
    thread::scope(thread::scope_env(), rt, |scope| {
        let came = begin(scope, rt, ports, listener, row);
        let tapped = are_tapped(rt, ports, control, row);
        match came {
            Some(came) => tapped && came.join(rt),
            None => false,
        }
    })
}

/// Whether just the history of a row is recorded.
fn is_recorded<R: RecordingRuntime>(rt: &R, row: &Row) -> io::Result<bool> {
    let listener = listen(rt)?;
    let control = listen(rt)?;
    let ports = Ports {
        tap: free_port(rt)?,
        server: port_of(&listener)?,
        control: port_of(&control)?,
    };
    let is_right = is_tapped(rt, ports, &listener, &control, row);
    let tapped = take_file(rt, ports.tap, "tapped")?;
    let wanted = file(rt.alloc(), PLAIN, row.history)?;
    Ok(is_right && tapped.as_slice() == wanted.as_slice())
}

#[test]
fn what_clients_say_is_recorded(rt: HostRuntime) -> Result<(), Fail> {
    // The prover knows the types that a function names.
    let _listener: Option<TcpListener> = None;
    let _stream: Option<TcpStream> = None;
    for row in ROWS.iter() {
        assert!(rt; is_recorded(&rt, row)?, "{}", row.options);
    }
    Ok(())
}
