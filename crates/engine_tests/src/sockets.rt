//! Connections of 127.0.0.1, what comes over them, and what the program says and writes meanwhile.

mod nights;
mod recordings;
mod served;
mod wrong;

use nfs_relay::RelayRuntime;
use nfsbench_engine::run_words;
use program_streams::Input;
use recording_command::RecordingRuntime;
use std::alloc::AllocError;
use std::io::{self, ErrorKind, Read, Write};
use std::net::{IpAddr, Ipv4Addr, Net, SocketAddr, TcpListener, TcpStream};
use std::time::Duration;
use std::{fs, thread};

/// A port of 127.0.0.1; 0 is any that is free.
fn local(port: u16) -> SocketAddr {
    SocketAddr::new(IpAddr::V4(Ipv4Addr::new(127, 0, 0, 1)), port)
}

/// A listener on a port that was free.
fn listen<R: RelayRuntime>(rt: &R) -> io::Result<TcpListener> {
    TcpListener::bind(rt, local(0))
}

/// The port of a listener.
fn port_of(listener: &TcpListener) -> io::Result<u16> {
    Ok(listener.local_addr()?.port())
}

/// A port that is free.
fn free_port<R: RelayRuntime>(rt: &R) -> io::Result<u16> {
    port_of(&listen(rt)?)
}

/// A connection to a port, to which someone may listen soon.
fn connect<R: RelayRuntime>(rt: &R, port: u16) -> io::Result<TcpStream> {
    for _try in 0..10_000 {
        if let Ok(stream) = TcpStream::connect(rt, local(port)) {
            return Ok(stream);
        }
        thread::sleep(rt, Duration::from_millis(1));
    }
    Err(io::Error::from(ErrorKind::TimedOut))
}

/// Whether the record goes out.
fn sends(stream: &mut TcpStream, record: &[u8]) -> bool {
    stream.write_all(record).is_ok()
}

/// Whether just this record comes next.
fn comes(stream: &mut TcpStream, record: &[u8]) -> bool {
    let mut buffer = [0; 192];
    if record.len() > buffer.len() {
        return false;
    }
    let bytes = &mut buffer[..record.len()];
    stream.read_exact(bytes).is_ok() && *bytes == *record
}

/// Whether the stream ends.
fn ends(stream: &mut TcpStream) -> bool {
    matches!(stream.read(&mut [0; 64]), Ok(0))
}

/// Whether a call gets its reply, each a record.
fn is_answered(stream: &mut TcpStream, call: &[u8], reply: &[u8]) -> bool {
    sends(stream, call) && comes(stream, reply)
}

/// What the words of a line that was made are told, if it is with this status.
fn told_by<R: RecordingRuntime, I: Input>(
    rt: &R,
    line: Result<String, AllocError>,
    input: &mut I,
    status: u8,
) -> Option<Vec<u8>> {
    let line = line.ok()?;
    let words = line.split(' ').collect::<Vec<&str>>(rt.alloc()).ok()?;
    let mut told = Vec::new(rt.alloc());
    if run_words(rt, words.as_slice(), input, &mut told) == status {
        Some(told)
    } else {
        None
    }
}

/// Whether the words of a line that was made are told this, with this status.
fn says<R: RecordingRuntime, I: Input>(
    rt: &R,
    line: Result<String, AllocError>,
    input: &mut I,
    text: &[u8],
    status: u8,
) -> bool {
    match told_by(rt, line, input, status) {
        Some(told) => told.as_slice() == text,
        None => false,
    }
}

/// Where the last line of a text begins, which ends with a line feed.
fn last_line(text: &[u8]) -> usize {
    let mut begin = 0;
    for (place, byte) in text.iter().enumerate() {
        let next = place.saturating_add(1);
        if *byte == b'\n' && next < text.len() {
            begin = next;
        }
    }
    begin
}

/// Whether the last line that the words of a line that was made are told begins so, with this status.
fn ends_with<R: RecordingRuntime>(
    rt: &R,
    line: Result<String, AllocError>,
    last: &[u8],
    status: u8,
) -> bool {
    let Some(told) = told_by(rt, line, &mut b"".as_slice(), status) else {
        return false;
    };
    let text = told.as_slice();
    text.get(last_line(text)..)
        .map_or(false, |line| line.starts_with(last))
}

/// Whether the recorder at a port, with these options and another port for the server, says this at its end.
fn taps<R: RecordingRuntime, I: Input>(
    rt: &R,
    (port, server): (u16, u16),
    options: &str,
    input: &mut I,
    text: &[u8],
) -> bool {
    let line = format!(in rt.alloc();
        "nfsbench tap --port {port} --server {server} {options} --quiet /tmp/nfsbench_{port}.tapped"
    );
    says(rt, line, input, text, 0)
}

/// What a file of this kind at a port has. It is taken away.
fn take_file<R: RecordingRuntime>(rt: &R, port: u16, kind: &str) -> io::Result<Vec<u8>> {
    let path = format!(in rt.alloc(); "/tmp/nfsbench_{port}.{kind}")?;
    let bytes = fs::read(rt, path.as_str())?;
    fs::remove_file(rt, path.as_str())?;
    Ok(bytes)
}
