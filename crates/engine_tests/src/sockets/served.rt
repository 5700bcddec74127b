//! The bundled server: clients side by side, one of them with a recorder in front of the server, what was there at first, and what is refused.

use super::{connect, ends, free_port, is_answered, listen, port_of, says, sends, take_file, taps};
use crate::histories::{Exchange, records};
use journal_server::{CloseFault, CrashFault};
use nfs_history::{HistoryFault, Profile, read_history};
use nfs_relay::RelayRuntime;
use recording_command::RecordingRuntime;
use serving_commands::{RunFault, fault_report};
use std::alloc::Global;
use std::net::{TcpListener, TcpStream};
use std::test::Fail;
use std::thread::{self, JoinHandle, Scope};
use std::{fs, io};

/// The name `a`, and `abc`.
const A: u32 = 0x6100_0000;

const ABC: u32 = 0x6162_6300;

/// A CREATE of `a` in the root, a WRITE of three bytes to the file, and a READ of it, to the bundled server's handles (RFC 1813, sections
/// 3.3.8, 3.3.7 and 3.3.6).
const EXCHANGES: &[Exchange] = &[
    Exchange(
        8,
        &[8, 0, 0, 1, A, 0, 0, 0, 0, 0, 0, 0],
        &[0, 1, 8, 0, 1, 0, 0, 0],
    ),
    Exchange(7, &[8, 0, 1, 0, 0, 3, 2, 3, ABC], &[0, 0, 0, 3, 2, 0, 1]),
    Exchange(6, &[8, 0, 1, 0, 0, 10], &[0, 0, 3, 1, 3, ABC]),
];

/// A MNT of `/` of transaction 9, as one fragment, and its reply with the root's handle (RFC 1813, section 5.2.1).
const MOUNTING: (&[u8], &[u8]) = (
    b"\x80\0\0\x30\0\0\0\x09\0\0\0\0\0\0\0\x02\0\x01\x86\xa5\0\0\0\x03\0\0\0\x01\0\0\0\0\0\0\0\0\0\0\0\0\0\0\0\0\0\0\0\x01/\0\0\0",
    b"\x80\0\0\x34\0\0\0\x09\0\0\0\x01\0\0\0\0\0\0\0\0\0\0\0\0\0\0\0\0\
      \0\0\0\0\0\0\0\x08\0\0\0\0\0\0\0\0\0\0\0\x02\0\0\0\x01\0\0\0\0",
);

/// A plain history without a call, of a server that held a file `a` of three bytes at first (`docs/FORMATS.md`, version 2).
pub(super) const START: &[u8] = b"NFSHIST2\0\0\0\0\0\0\0\0\0\0\0\x01\
      \0\0\0\0\0\0\0\0\0\0\0\x01a\0\0\0\0\0\0\x01\0\0\0\x03abc\0\0\0\0\0";

/// A READ of the file, which gives its attributes too (RFC 1813, sections 3.3.6 and 2.6).
const READING: &[Exchange] = &[Exchange(
    6,
    &[8, 0, 1, 0, 0, 10],
    &[
        0, 1, 1, 0o644, 1, 0, 0, 0, 3, 0, 0, 0, 0, 0, 0, 0, 1, 0, 0, 0, 0, 0, 0, 3, 1, 3, ABC,
    ],
)];

/// Whether a client that comes to a port asks these in turn, and is answered so; the first has this transaction number.
fn are_answered<R: RelayRuntime>(rt: &R, port: u16, first: u32, all: &[Exchange]) -> bool {
    let Ok(mut stream) = connect(rt, port) else {
        return false;
    };
    let mut xid = first;
    for exchange in all {
        let Ok((call, reply)) = records(rt.alloc(), xid, *exchange) else {
            return false;
        };
        if !is_answered(&mut stream, &call, &reply) {
            return false;
        }
        xid = xid.saturating_add(1);
    }
    true
}

/// Whether a client mounts.
fn mounts(stream: &mut TcpStream) -> bool {
    is_answered(stream, MOUNTING.0, MOUNTING.1)
}

/// Whether a client that comes to this port can say a part of a record. It hangs up then.
fn hangs_up<R: RelayRuntime>(rt: &R, port: u16) -> bool {
    match connect(rt, port) {
        Ok(mut stream) => sends(&mut stream, b"\x80\0\0\x58\0\0\0\x01"),
        Err(_) => false,
    }
}

/// Whether a client that sends no call is hung up on.
fn is_hung_up_on<R: RelayRuntime>(rt: &R, port: u16) -> bool {
    match connect(rt, port) {
        Ok(mut stream) => sends(&mut stream, b"\x80\0\0\x08garbage!") && ends(&mut stream),
        Err(_) => false,
    }
}

/// Whether three clients find what they should: while one is connected to the server, which mounts it, another hangs up at the server, and one is
/// answered at the recorder. After its third call the server ends the first one's connection.
fn are_three_answered<R: RelayRuntime>(rt: &R, server: u16, recorder: u16) -> bool {
    let Ok(mut first) = connect(rt, server) else {
        return false;
    };
    mounts(&mut first)
        && hangs_up(rt, server)
        && are_answered(rt, recorder, 1, EXCHANGES)
        && mounts(&mut first)
        && mounts(&mut first)
        && ends(&mut first)
}

/// Clients, with the ports to which they come.
#[derive(Clone, Copy)]
enum Clients {
    /// Three: two at the server, one at the recorder.
    Three { server: u16, recorder: u16 },
    /// One that sends no call.
    Garbling(u16),
    /// One that reads what was there at first.
    Reading(u16),
}

/// Whether clients find what they should.
fn come<R: RelayRuntime>(rt: &R, clients: Clients) -> bool {
    match clients {
        Clients::Three { server, recorder } => are_three_answered(rt, server, recorder),
        Clients::Garbling(port) => is_hung_up_on(rt, port),
        Clients::Reading(port) => are_answered(rt, port, 3, READING),
    }
}

/// Begins clients in a thread of their own.
fn begin<'s, E, R: RelayRuntime>(
    scope: &Scope<'s, E>,
    rt: &'s R,
    clients: Clients,
) -> Option<JoinHandle<bool>> {
    scope.spawn(move || come(rt, clients)).ok()
}

/// Whether the bundled server at a port, with these options, says this at its end, with this status.
pub(super) fn serves<R: RecordingRuntime>(
    rt: &R,
    port: u16,
    options: &str,
    text: &[u8],
    status: u8,
) -> bool {
    let line = format!(in rt.alloc();
        "nfsbench serve --port {port} {options} /tmp/nfsbench_{port}.served /tmp/nfsbench_{port}.certificate"
    );
    says(rt, line, &mut b"".as_slice(), text, status)
}

/// The same, and whether clients find what they should meanwhile. The server runs on this thread, which has the files.
fn serves_clients<R: RecordingRuntime>(
    rt: &R,
    port: u16,
    clients: Clients,
    options: &str,
    text: &[u8],
    status: u8,
) -> bool {
    thread::scope(thread::scope_env(), rt, |scope| {
        let came = begin(scope, rt, clients);
        let served = serves(rt, port, options, text, status);
        match came {
            Some(came) => served && came.join(rt),
            None => false,
        }
    })
}

/// How many calls a history has, its profile, and how many objects its server held at first.
type Shape = (u64, Profile, usize);

/// Whether bytes are a history of this shape.
fn is_history(alloc: Global, bytes: &[u8], (calls, profile, objects): Shape) -> bool {
    match read_history(alloc, bytes) {
        Ok(history) => history.calls() == calls
            && history.profile() == profile
            && history.start().objects().len() == objects,
        Err(_) => false,
    }
}

/// Whether the server at a port wrote a history of this shape, and this certificate.
fn are_written<R: RecordingRuntime>(
    rt: &R,
    port: u16,
    shape: Shape,
    certificate: &[u8],
) -> io::Result<bool> {
    let served = take_file(rt, port, "served")?;
    let text = take_file(rt, port, "certificate")?;
    Ok(is_history(rt.alloc(), &served, shape) && text.as_slice() == certificate)
}

/// The certificate of the three calls, and their history.
const CERTIFICATE: &[u8] = b"witness 1\nbind 0000000000000001 1\nplace 1\nplace 2\nplace 3\nend\n";

const THREE_CALLS: Shape = (3, Profile::Plain, 0);

#[test]
fn clients_are_served_side_by_side_and_recorded(rt: HostRuntime) -> Result<(), Fail> {
    // The prover knows the types that a function names.
    let _listener: Option<TcpListener> = None;
    let _stream: Option<TcpStream> = None;
    let server = free_port(&rt)?;
    let recorder = free_port(&rt)?;
    let all = thread::scope(thread::scope_env(), &rt, |scope| {
        let _listener: Option<TcpListener> = None;
        let _stream: Option<TcpStream> = None;
        let served = scope.spawn(|| {
            let _listener: Option<TcpListener> = None;
            let _stream: Option<TcpStream> = None;
            serves(&rt, server, "--lanes 3 --calls 3 --mountable", b"yes\n", 0)
        });
        let called = begin(scope, &rt, Clients::Three { server, recorder });
        let options = "--root 0000000000000000 --lanes 1";
        let tapped = taps(
            &rt,
            (recorder, server),
            options,
            &mut b"".as_slice(),
            b"calls 3\n",
        );
        let (Ok(served), Some(called)) = (served, called) else {
            return false;
        };
        tapped && served.join(&rt) && called.join(&rt)
    });
    assert!(rt; all);
    assert!(rt; are_written(&rt, server, THREE_CALLS, CERTIFICATE)?);
    let tapped = take_file(&rt, recorder, "tapped")?;
    assert!(rt; is_history(rt.alloc(), &tapped, THREE_CALLS));
    Ok(())
}

/// Options of a server whose client sends no call, and the status: the verdict is a yes of both, and both write their files.
const GARBLED: [(&str, u8); 2] = [
    ("--lanes 1 --calls 3", 0),
    ("--lanes 1 --calls 3 --strict-connections", 1),
];

#[test]
fn a_client_that_sends_no_call_says_nothing_of_the_history(rt: HostRuntime) -> Result<(), Fail> {
    // The prover knows the types that a function names.
    let _listener: Option<TcpListener> = None;
    let _stream: Option<TcpStream> = None;
    for (options, status) in GARBLED {
        let port = free_port(&rt)?;
        let clients = Clients::Garbling(port);
        assert!(rt; serves_clients(&rt, port, clients, options, b"yes\n", status));
        assert!(rt; are_written(&rt, port, (0, Profile::Plain, 0), b"witness 1\nend\n")?);
    }
    Ok(())
}

/// The certificate of the READ.
const PLACED: &[u8] = b"witness 1\nbind 0000000000000001 1\nplace 1\nend\n";

/// Whether the server at a port serves one connection from the start, strictly, and says that it explains what it did.
fn serves_from_start<R: RecordingRuntime>(rt: &R, port: u16) -> io::Result<bool> {
    let path = format!(in rt.alloc(); "/tmp/nfsbench_{port}.start")?;
    fs::write(rt, path.as_str(), START)?;
    let options = format!(in rt.alloc(); "--lanes 1 --calls 1 --strict --start {path}")?;
    let clients = Clients::Reading(port);
    Ok(serves_clients(rt, port, clients, options.as_str(), b"yes\n", 0))
}

#[test]
fn what_was_there_at_first_is_served_strictly(rt: HostRuntime) -> Result<(), Fail> {
    // The prover knows the types that a function names.
    let _listener: Option<TcpListener> = None;
    let _stream: Option<TcpStream> = None;
    let port = free_port(&rt)?;
    assert!(rt; serves_from_start(&rt, port)?);
    assert!(rt; take_file(&rt, port, "start")?.as_slice() == START);
    assert!(rt; are_written(&rt, port, (1, Profile::Strict, 1), PLACED)?);
    Ok(())
}

/// Whether the bundled server refuses to serve, with this line.
fn refuses<R: RecordingRuntime>(rt: &R, port: u16, lanes: u32, files: &str, text: &[u8]) -> bool {
    let line = format!(in rt.alloc();
        "nfsbench serve --port {port} --lanes {lanes} --calls 1 {files}"
    );
    says(rt, line, &mut b"".as_slice(), text, 2)
}

/// Whether a port at which someone listens is refused, and at one that is free, files which can't be made.
fn refuses_ports_and_files<R: RecordingRuntime>(rt: &R) -> io::Result<bool> {
    let taken = listen(rt)?;
    let port = port_of(&taken)?;
    let is_refused = refuses(rt, port, 1, "h c", b"refused: cannot listen\n");
    drop(taken);
    let files = "/missing/history /missing/certificate";
    Ok(is_refused && refuses(rt, port, 2, files, b"refused: cannot write\n"))
}

#[test]
fn what_serve_cannot_have_is_refused(rt: HostRuntime) -> Result<(), Fail> {
    // The prover knows the types that a function names.
    let _listener: Option<TcpListener> = None;
    let _stream: Option<TcpStream> = None;
    assert!(rt; refuses_ports_and_files(&rt)?);
    Ok(())
}

/// What is said of each fault. What is refused has status 2, what ends otherwise 1.
const FAULTS: [(RunFault, &str); 10] = [
    (RunFault::BadPlan(7), "refused: BadPlan 7"),
    (
        RunFault::Start(HistoryFault::BadStart(5)),
        "refused: start: BadStart 5",
    ),
    (RunFault::CannotReadStart, "refused: start: cannot read"),
    (RunFault::CannotListen, "refused: cannot listen"),
    (RunFault::NoThread, "refused: no thread"),
    (
        RunFault::PartStands,
        "refused: a .part of an earlier recording is there: mend it, or remove it",
    ),
    (RunFault::CannotWrite, "refused: cannot write"),
    (
        RunFault::Crash(CrashFault::DeviceFault),
        "crash: DeviceFault",
    ),
    (
        RunFault::Close(CloseFault::MissingPass),
        "close: MissingPass",
    ),
    (RunFault::Close(CloseFault::Torn(3)), "close: Torn 3"),
];

#[test]
fn each_fault_of_a_run_has_its_line(rt: HostRuntime) -> Result<(), Fail> {
    for (fault, line) in FAULTS {
        let report = fault_report(rt.alloc(), fault)?;
        let status = if line.starts_with("refused") { 2 } else { 1 };
        let is_so = report.status() == status && report.line().strip_suffix("\n") == Some(line);
        assert!(rt; is_so, "{line}");
    }
    Ok(())
}
