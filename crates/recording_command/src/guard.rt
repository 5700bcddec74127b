//! A connection of the recorder's own to the server, which carries nothing of a client. It shows a server that goes down while no client is
//! there, and one that is there where a crash is told; and it keeps the time.

use nfs_relay::{Relay, RelayRuntime};
use recording_health::Watch;
use std::alloc::Global;
use std::io::{ErrorKind, Read, Write};
use std::net::{SocketAddr, TcpStream};
use std::sync::Mutex;
use std::thread;
use std::time::{Clock, Duration, Instant};

/// How many milliseconds are between two looks.
const PAUSE: u64 = 50;

/// How many milliseconds are between two looks for an answer.
const SHORT_PAUSE: u64 = 10;

/// How often it is looked for an answer where a crash is told.
const LOOKS: u32 = 100;

/// How many milliseconds are between two connections, or two tries to make one.
const CONNECT_PAUSE: u64 = 200;

/// How many seconds a connection may take.
const CONNECT_SECS: u64 = 1;

/// Behind how many seconds the server is asked again, which may end a connection on which nothing is asked.
const ASKING_SECS: u32 = 60;

/// Within how many seconds a crash is to be told of.
const TELLING_SECS: u32 = 10;

/// A call of NULL (RFC 1813, section 3.3.0) as a record of one fragment.
const NULL_CALL: &[u8] =
    b"\x80\0\0\x28nfsb\0\0\0\0\0\0\0\x02\0\x01\x86\xa3\0\0\0\x03\0\0\0\0\0\0\0\0\0\0\0\0\0\0\0\0\0\0\0\0";

/// What is heard on a connection that isn't waited for.
#[derive(Clone, Copy, PartialEq, Eq)]
enum Heard {
    Nothing,
    Answer,
    End,
}

/// Whether so much time has gone by since.
fn has_passed<R: Clock>(rt: &R, since: Option<Instant>, time: Duration) -> bool {
    let (Some(since), Ok(now)) = (since, Instant::now(rt)) else {
        return false;
    };
    now.duration_since(since) >= time
}

/// Whether so many seconds have gone by since.
pub(crate) fn is_past<R: Clock>(rt: &R, since: Option<Instant>, seconds: Option<u32>) -> bool {
    match seconds {
        Some(seconds) => has_passed(rt, since, Duration::from_secs(u64::from(seconds))),
        None => false,
    }
}

/// Reads what is there.
fn read_from(stream: &TcpStream) -> Heard {
    let mut buffer = [0u8; 256];
    let mut reader = stream;
    match reader.read(&mut buffer) {
        Ok(0) => Heard::End,
        Ok(_) => Heard::Answer,
        Err(error) => match error.kind() {
            ErrorKind::WouldBlock | ErrorKind::Interrupted => Heard::Nothing,
            _ => Heard::End,
        },
    }
}

/// Asks by a NULL call.
fn ask(stream: &TcpStream) {
    let mut writer = stream;
    let _ = writer.write(NULL_CALL);
}

/// What is known of the server.
#[derive(Drop)]
pub(crate) struct Known {
    stream: Option<TcpStream>,
    /// Whether the server answered on it.
    has_answered: bool,
    /// When it was asked last.
    asked: Option<Instant>,
    /// When a connection was tried or ended last.
    tried: Option<Instant>,
    /// When the server ended a connection on which it had answered, where it has no other yet, and no crash was told since.
    ended: Option<Instant>,
    /// How often it did so outside a crash.
    outages: u64,
    /// How many crashes were told while the server answered.
    survivals: u64,
    /// How many events were noted by each second.
    moments: Vec<usize>,
    /// When that was counted last.
    counted: Option<Instant>,
}

impl Known {
    fn new(alloc: Global) -> Known {
        Known {
            stream: None,
            has_answered: false,
            asked: None,
            tried: None,
            ended: None,
            outages: 0,
            survivals: 0,
            moments: Vec::new(alloc),
            counted: None,
        }
    }

    /// Counts the events, once a second.
    fn count<R: Clock>(&mut self, rt: &R, events: usize) {
        if self.counted.is_none() || is_past(rt, self.counted, Some(1)) {
            self.counted = Instant::now(rt).ok();
            // Without memory a wait looks shorter.
            let _ = self.moments.push(events);
        }
    }

    /// Makes a connection, if it is time for one.
    fn connect<R: RelayRuntime>(&mut self, rt: &R, server: &SocketAddr) {
        let pause = Duration::from_millis(CONNECT_PAUSE);
        if self.tried.is_some() && !has_passed(rt, self.tried, pause) {
            return;
        }
        let patience = Duration::from_secs(CONNECT_SECS);
        if let Ok(stream) = TcpStream::connect_timeout(rt, server, patience) {
            if stream.set_nonblocking(true).is_ok() {
                ask(&stream);
                self.asked = Instant::now(rt).ok();
                self.stream = Some(stream);
            }
        }
        self.tried = Instant::now(rt).ok();
    }

    /// The server ended the connection.
    fn end<R: Clock>(&mut self, rt: &R) {
        let now = Instant::now(rt).ok();
        self.stream = None;
        self.tried = now;
        if self.has_answered && self.ended.is_none() {
            self.ended = now;
        }
        self.has_answered = false;
    }

    /// The server answered: it is there, or there again.
    fn answer(&mut self) {
        self.has_answered = true;
        if self.ended.is_some() {
            self.ended = None;
            self.outages = self.outages.saturating_add(1);
        }
    }

    /// What is heard on the connection, if there is one.
    fn listen(&self) -> Option<Heard> {
        match self.stream.as_ref() {
            Some(stream) => Some(read_from(stream)),
            None => None,
        }
    }

    /// Asks on the connection, if there is one.
    fn ask<R: Clock>(&mut self, rt: &R) {
        if let Some(stream) = self.stream.as_ref() {
            ask(stream);
        }
        self.asked = Instant::now(rt).ok();
    }

    /// Looks after the server. By now there are so many events.
    fn look<R: RelayRuntime>(&mut self, rt: &R, server: &SocketAddr, events: usize) {
        self.count(rt, events);
        match self.listen() {
            None => self.connect(rt, server),
            Some(Heard::End) => self.end(rt),
            Some(Heard::Answer) => self.answer(),
            Some(Heard::Nothing) => {
                if is_past(rt, self.asked, Some(ASKING_SECS)) {
                    self.ask(rt);
                }
            }
        }
    }

    /// Whether the server answers a call that is sent now.
    fn is_there<R: RelayRuntime>(&mut self, rt: &R) -> bool {
        // What came before says nothing of now.
        if self.listen() == Some(Heard::Answer) {
            self.answer();
        }
        self.ask(rt);
        for _look in 0..LOOKS {
            match self.listen() {
                Some(Heard::Nothing) => thread::sleep(rt, Duration::from_millis(SHORT_PAUSE)),
                Some(Heard::Answer) => return true,
                Some(Heard::End) => {
                    self.end(rt);
                    return false;
                }
                None => return false,
            }
        }
        false
    }

    /// A crash is told. The connection of the era ends with it.
    fn take_crash<R: RelayRuntime>(&mut self, rt: &R) {
        if self.is_there(rt) {
            self.survivals = self.survivals.saturating_add(1);
        }
        if is_past(rt, self.ended, Some(TELLING_SECS)) {
            self.outages = self.outages.saturating_add(1);
        }
        self.ended = None;
        self.stream = None;
        self.has_answered = false;
        self.tried = Instant::now(rt).ok();
    }

    /// What it showed. A server that is down now went down outside a crash.
    pub(crate) fn watch(&self) -> Watch<'_> {
        Watch {
            outages: if self.ended.is_some() {
                self.outages.saturating_add(1)
            } else {
                self.outages
            },
            survivals: self.survivals,
            moments: self.moments.as_slice(),
        }
    }
}

/// A connection of the recorder's own to a server.
#[derive(Drop)]
pub(crate) struct Guard {
    server: SocketAddr,
    /// Whether it is asked for.
    is_on: bool,
    known: Mutex<Known>,
}

impl Guard {
    /// No connection is made yet, and none where it isn't asked for.
    pub(crate) fn new(alloc: Global, server: SocketAddr, is_on: bool) -> Guard {
        Guard {
            server,
            is_on,
            known: Mutex::new(Known::new(alloc)),
        }
    }

    /// Whether it is asked for.
    pub(crate) fn is_on(&self) -> bool {
        self.is_on
    }

    /// Looks after the server until the relay has ended.
    pub(crate) fn follow<R: RelayRuntime>(&self, rt: &R, relay: &Relay) {
        for _ in rt.forever() {
            if relay.has_ended(rt) {
                return;
            }
            let events = relay.log().lock(rt).events().len();
            self.known.lock(rt).look(rt, &self.server, events);
            thread::sleep(rt, Duration::from_millis(PAUSE));
        }
    }

    /// A crash is told, and is noted behind this.
    pub(crate) fn take_crash<R: RelayRuntime>(&self, rt: &R) {
        if self.is_on {
            self.known.lock(rt).take_crash(rt);
        }
    }

    /// What is known by it.
    pub(crate) fn known(&self) -> &Mutex<Known> {
        &self.known
    }
}
