//! A connection that is relayed, by two pumps.

ghost use Rattle.std.specs.Prelude.{◌≡◌, IfErr};
ghost use Rattle.history_file.specs.Event.Event.{close};
ghost use Rattle.nfs_relay.specs.Closing.{NotesOnce};

use crate::control::{Halt, Lane};
use crate::ending::LaneEnd;
use crate::health::ServerEnd;
use crate::relay::{Relay, RelayRuntime};
use nfs_tap::{PumpEnd, TapLog, pump_calls, pump_replies};
use std::io::ErrorKind;
use std::net::{Shutdown, TcpStream};
use std::sync::Wait;
use std::sync::atomic::{AtomicBool, AtomicU64, Ordering};
use std::thread::{self, JoinHandle};
use std::time::{Duration, Instant};

/// How many times a connection to the server is tried.
const CONNECT_TRIES: u32 = 10_000;

/// How many seconds a server has to take a connection.
const CONNECT_SECS: u64 = 20;

/// How many seconds a server may keep a connection whose client has ended its side.
const DRAIN_SECS: u64 = 60;

/// How far a lane has ended.
#[derive(Drop)]
struct Ended {
    /// How many of its pumps have.
    pumps: AtomicU64,
    /// Whether the server ended it before anybody else had.
    by_server: AtomicBool,
}

/// Whether a connection isn't made for want of something on this side, such as files or ports; else the server refuses it, or can't be
/// reached.
fn is_of_this_side(kind: ErrorKind) -> bool {
    !matches!(
        kind,
        ErrorKind::ConnectionRefused
            | ErrorKind::ConnectionReset
            | ErrorKind::ConnectionAborted
            | ErrorKind::TimedOut
            | ErrorKind::HostUnreachable
            | ErrorKind::NetworkUnreachable
    )
}

/// A client's connection and the server's, which are relayed.
#[derive(Clone, Copy)]
struct Pair<'a> {
    client: &'a TcpStream,
    server: &'a TcpStream,
}

impl Pair<'_> {
    /// Ends both connections, so that no read or write of them waits any more.
    fn shut(self) {
        let _ = self.client.shutdown(Shutdown::Both);
        let _ = self.server.shutdown(Shutdown::Both);
    }

    /// Records are sent as they come.
    fn send_at_once(self) {
        let _ = self.client.set_nodelay(true);
        let _ = self.server.set_nodelay(true);
    }
}

impl Relay {
    /// Relays a client's connection that was taken, to its end.
    pub(crate) fn serve<R: RelayRuntime>(&self, rt: &R, client: TcpStream) {
        if let Some(server) = self.connect(rt) {
            let pair = Pair {
                client: &client,
                server: &server,
            };
            self.relay(rt, pair);
        }
        self.leave(rt);
    }

    /// A connection to the server, which may take a while to come up.
    fn connect<R: RelayRuntime>(&self, rt: &R) -> Option<TcpStream> {
        let start = Instant::now(rt).ok();
        let mut is_ours = false;
        for _try in 0..CONNECT_TRIES {
            if self.reason(rt).is_some() {
                return None;
            }
            let patience = Duration::from_secs(1);
            match TcpStream::connect_timeout(rt, &self.server, patience) {
                Ok(server) => return Some(server),
                Err(error) => is_ours = is_of_this_side(error.kind()),
            }
            if is_late(rt, start) {
                break;
            }
            thread::sleep(rt, Duration::from_millis(1));
        }
        if self.is_counted {
            self.halt(rt, Halt::CannotConnect);
        }
        self.tell_unconnected(rt, is_ours);
        None
    }

    /// Says that a client's connection got no server, and whose fault that is.
    fn tell_unconnected<R: RelayRuntime>(&self, rt: &R, is_ours: bool) {
        if is_ours {
            self.health.lock(rt).note_unserved();
            let _ = eprintln!(rt; "a connection ended: the system gives none to the server");
        } else {
            self.health.lock(rt).note_untaken();
            let _ = eprintln!(rt; "a connection ended: the server takes none");
        }
    }

    /// The next lane, once the connections of a server that went down have ended.
    fn take_lane<R: Wait>(&self, rt: &R) -> Option<Lane> {
        let mut control = self
            .changed
            .wait_while(rt, self.control.lock(rt), |control| control.is_crashing());
        control.take_lane()
    }

    /// Relays a connection on a lane of its own, and notes its close.
    fn relay<R: RelayRuntime>(&self, rt: &R, pair: Pair<'_>) {
        let Some(lane) = self.take_lane(rt) else {
            return;
        };
        pair.send_at_once();
        let end = self.pump_both(rt, lane, pair);
        if let Err(reason) = note_close(&mut self.log.lock(rt), lane.number) {
            self.halt(rt, reason);
        }
        self.control.lock(rt).leave_lane();
        self.changed.notify_all();
        // What is said waits for whoever reads it, so it comes last: a crash waits for the lanes to end.
        match end {
            Some(end) => self.tell_end(rt, end),
            None => self.lack_thread(rt),
        }
    }

    /// Runs the pumps of a lane, unless there is no thread for them.
    fn pump_both<R: RelayRuntime>(&self, rt: &R, lane: Lane, pair: Pair<'_>) -> Option<LaneEnd> {
        let ended = Ended {
            pumps: AtomicU64::new(0),
            by_server: AtomicBool::new(false),
        };
        let ended = &ended;
        thread::scope(thread::scope_env(), rt, move |scope| {
            let calls = scope.spawn(move || self.run_calls(rt, lane, pair, ended));
            let replies = scope.spawn(move || self.run_replies(rt, lane, pair, ended));
            if calls.is_ok() && replies.is_ok() {
                self.watch(rt, lane, ended);
            }
            let is_halted = self.reason(rt).is_some() && ended.pumps.load(Ordering::SeqCst) < 2;
            pair.shut();
            let (Ok(calls), Ok(replies)) = (calls, replies) else {
                return None;
            };
            Some(LaneEnd {
                lane: lane.number,
                calls: calls.join(rt),
                replies: replies.join(rt),
                is_by_server: ended.by_server.load(Ordering::SeqCst),
                is_halted,
            })
        })
    }

    /// Pumps what the client sends. Where its side ends, what the server has to say still comes.
    fn run_calls<R: RelayRuntime>(
        &self,
        rt: &R,
        lane: Lane,
        pair: Pair<'_>,
        ended: &Ended,
    ) -> PumpEnd {
        let (mut reader, mut writer) = (pair.client, pair.server);
        let end = pump_calls(
            rt,
            rt.alloc(),
            &mut reader,
            &mut writer,
            lane.number,
            &self.log,
        );
        if end == PumpEnd::WriteFault {
            self.note_server_end(rt, lane, ended);
        }
        // Noted before the server's side is ended, which is then no end of the server's.
        self.note_end(rt, ended);
        if end == PumpEnd::End {
            let _ = pair.server.shutdown(Shutdown::Write);
        } else {
            pair.shut();
        }
        end
    }

    /// Pumps what the server sends. With its side the client's connection ends.
    fn run_replies<R: RelayRuntime>(
        &self,
        rt: &R,
        lane: Lane,
        pair: Pair<'_>,
        ended: &Ended,
    ) -> PumpEnd {
        let (mut reader, mut writer) = (pair.server, pair.client);
        let end = pump_replies(
            rt,
            rt.alloc(),
            &mut reader,
            &mut writer,
            lane.number,
            &self.log,
        );
        if matches!(end, PumpEnd::End | PumpEnd::ReadFault) {
            self.note_server_end(rt, lane, ended);
        }
        pair.shut();
        self.note_end(rt, ended);
        end
    }

    /// The server ended a lane. Where nobody else had, that is noted.
    fn note_server_end<R: Wait>(&self, rt: &R, lane: Lane, ended: &Ended) {
        if ended.pumps.load(Ordering::SeqCst) > 0 || !self.control.lock(rt).runs(lane.era) {
            return;
        }
        ended.by_server.store(true, Ordering::SeqCst);
        let events = self.log.lock(rt).events().len();
        self.health.lock(rt).note_end(ServerEnd {
            lane: lane.number,
            events,
        });
    }

    /// A pump ended.
    fn note_end<R: Wait>(&self, rt: &R, ended: &Ended) {
        ended.pumps.fetch_add(1, Ordering::SeqCst);
        drop(self.control.lock(rt));
        self.changed.notify_all();
    }

    /// Waits until both pumps have ended, or the lane is to end, also since the server keeps a connection whose client has
    /// ended its side.
    fn watch<R: RelayRuntime>(&self, rt: &R, lane: Lane, ended: &Ended) {
        let control = self
            .changed
            .wait_while(rt, self.control.lock(rt), |control| {
                control.runs(lane.era) && ended.pumps.load(Ordering::SeqCst) == 0
            });
        let patience = Duration::from_secs(DRAIN_SECS);
        let (control, waited) = self
            .changed
            .wait_timeout_while(rt, control, patience, |control| {
                control.runs(lane.era) && ended.pumps.load(Ordering::SeqCst) < 2
            });
        drop(control);
        if waited.timed_out() {
            let number = lane.number;
            let _ = eprintln!(rt; "lane {number} ends: the server keeps it open");
        }
    }

    /// Notes the records of a lane that weren't noted.
    fn note_pumps<R: Wait>(&self, rt: &R, end: LaneEnd) {
        let mut health = self.health.lock(rt);
        health.note_pump(end.lane, false, end.calls);
        health.note_pump(end.lane, true, end.replies);
        if end.is_cut() {
            health.note_cut(end.lane);
        }
    }

    /// Says how a lane ended where something failed, and ends the recording where the log can't go on.
    fn tell_end<R: RelayRuntime>(&self, rt: &R, end: LaneEnd) {
        if let Some(reason) = end.halt() {
            self.halt(rt, reason);
        }
        self.note_pumps(rt, end);
        if end.is_by_server {
            let number = end.lane;
            let _ = eprintln!(rt; "lane {number}: the server ended the connection first");
        }
        if !end.is_clean() {
            let _ = rt.eprintln(end);
        }
    }
}

/// Whether the server had time enough.
fn is_late<R: RelayRuntime>(rt: &R, start: Option<Instant>) -> bool {
    match (start, Instant::now(rt)) {
        (Some(start), Ok(now)) => now.duration_since(start) >= Duration::from_secs(CONNECT_SECS),
        _ => false,
    }
}

/// Has the close of a lane noted.
fn note_close(log: &mut TapLog, lane: u32) -> Result<(), Halt>
    ensures once { NotesOnce log.old (close lane) result log.new }
    ensures reason { IfErr result (λ reason. reason ≡ Halt.NoMemory) }
{
    match log.note_close(lane) {
        Ok(()) => Ok(()),
        Err(_) => Err(Halt::NoMemory),
    }
}
