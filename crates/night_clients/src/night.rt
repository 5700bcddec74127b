//! The clients of a night, era by era.

ghost use Rattle.std.specs.Prelude.{◌≡◌, OnOk, OnErr};
ghost use Rattle.history_file.specs.Event.Event.{crash};
ghost use Rattle.nfs_tap.specs.Noting.{with_event};

use crate::control::Control;
use crate::conversation::{LaneEnd, give_up_all};
use crate::runtime::ClientsRuntime;
use nfs_tap::{NoteFault, TapLog};
use night_calls::Client;
use night_lanes::{Counts, Lane, Quota, Settings, Trouble, TroubleKind, Troubles};
use std::alloc::{AllocError, Global};
use std::io::ErrorKind;
use std::net::{Shutdown, TcpStream};
use std::sync::atomic::{AtomicU64, Ordering};
use std::sync::{Condvar, Mutex, Wait};
use std::thread;
use std::time::Duration;

/// How many nanoseconds a read or a write waits before a client looks up.
pub(crate) const TICK_NANOSECONDS: u32 = 50_000_000;

/// Within how many seconds the word of a crash explains that a connection ended, or wasn't taken.
const CRASH_SECONDS: u64 = 5;

/// How an era ended.
#[derive(Clone, Copy, PartialEq, Eq)]
pub enum EraEnd {
    /// Each client made its calls, or a trouble of it is told.
    Finished,
    /// The server went down, and its crash is noted.
    Crashed,
}

/// The clients of a night, and what they saw.
#[derive(Drop)]
pub struct Night {
    pub(crate) settings: Settings,
    pub(crate) log: Mutex<TapLog>,
    control: Mutex<Control>,
    /// Told when the control changes.
    changed: Condvar,
    /// The era that runs, as in the control.
    era: AtomicU64,
    troubles: Mutex<Troubles>,
    counts: Mutex<Counts>,
}

impl Night {
    /// No client has called.
    pub fn new(alloc: Global, log: TapLog, settings: Settings) -> Result<Night, AllocError> {
        Ok(Night {
            settings,
            log: Mutex::new(log),
            control: Mutex::new(Control::new()),
            changed: Condvar::new(),
            era: AtomicU64::new(0),
            troubles: Mutex::new(Troubles::new(alloc)?),
            counts: Mutex::new(Counts::new(alloc)?),
        })
    }

    /// What was noted.
    pub fn log(&self) -> &Mutex<TapLog> {
        &self.log
    }

    /// What hindered the calls.
    pub fn troubles(&self) -> &Mutex<Troubles> {
        &self.troubles
    }

    /// How many calls were made by clients that have ended, and how they came out.
    pub fn counts(&self) -> &Mutex<Counts> {
        &self.counts
    }

    /// One trouble more.
    pub(crate) fn tell<R: Wait>(&self, rt: &R, trouble: Trouble) {
        self.troubles.lock(rt).tell(trouble);
    }

    /// Whether an era runs.
    pub(crate) fn runs(&self, era: u64) -> bool {
        self.era.load(Ordering::SeqCst) == era
    }

    /// Begins an era and has all clients call in it, as [`Night::run_begun`].
    pub fn run_era<R: ClientsRuntime>(
        &self,
        rt: &R,
        clients: &mut [Client],
        quota: Quota,
    ) -> EraEnd {
        let era = self.begin(rt, clients.len());
        self.run_begun(rt, clients, era, quota)
    }

    /// Has all clients call in an era that has begun for so many, each on a connection and a thread of its own, until each has made its
    /// calls or the server goes down. Where no thread can be made, clients call one after the other.
    pub fn run_begun<R: ClientsRuntime>(
        &self,
        rt: &R,
        clients: &mut [Client],
        era: u64,
        quota: Quota,
    ) -> EraEnd {
        if clients.is_empty() {
            return EraEnd::Finished;
        }
        let count = clients.len();
        thread::for_each_mut(
            rt,
            clients,
            count,
            &|_place, client: &mut Client| {
                self.run_client(rt, client, era, quota);
            },
        );
        let control = self
            .changed
            .wait_while(rt, self.control.lock(rt), |control| control.is_crashing());
        if control.runs(era) {
            EraEnd::Finished
        } else {
            EraEnd::Crashed
        }
    }

    /// Whether clients of the era haven't ended.
    pub fn is_calling<R: Wait>(&self, rt: &R) -> bool {
        self.control.lock(rt).running() > 0
    }

    /// Begins an era of this number of clients, once a crash is noted that goes before it. A crash from then on waits for their ends.
    pub fn begin<R: Wait>(&self, rt: &R, clients: usize) -> u64 {
        let mut control = self
            .changed
            .wait_while(rt, self.control.lock(rt), |control| control.is_crashing());
        control.begin(clients)
    }

    /// The server went down: ends the clients that run, waits for their closes, and notes the crash after them. An `Err` says why it isn't
    /// noted.
    pub fn crash<R: Wait>(&self, rt: &R) -> Result<(), TroubleKind> {
        let era = self.control.lock(rt).begin_crash();
        self.era.store(era, Ordering::SeqCst);
        self.changed.notify_all();
        let control = self
            .changed
            .wait_while(rt, self.control.lock(rt), |control| control.running() > 0);
        drop(control);
        let noted = note_crash(&mut self.log.lock(rt));
        if let Err(kind) = noted {
            self.tell(rt, Trouble::of_night(kind));
        }
        self.control.lock(rt).end_crash();
        self.changed.notify_all();
        noted
    }

    /// Has a client call.
    fn run_client<R: ClientsRuntime>(&self, rt: &R, client: &mut Client, era: u64, quota: Quota) {
        match self.connect(rt) {
            Ok(stream) => self.run_connected(rt, client, era, quota, &stream),
            Err(kind) => {
                let number = client.stamp().client;
                self.tell_unless_crash(rt, era, Trouble::of_client(number, kind));
            }
        }
        self.control.lock(rt).leave();
        self.changed.notify_all();
    }

    /// A connection to the server.
    fn connect<R: ClientsRuntime>(&self, rt: &R) -> Result<TcpStream, TroubleKind> {
        let patience = self.settings.patience();
        let stream = match TcpStream::connect_timeout(rt, &self.settings.server, patience) {
            Ok(stream) => stream,
            Err(error) => return Err(connect_trouble(error.kind())),
        };
        let tick = Some(Duration::from_nanos(u64::from(TICK_NANOSECONDS)));
        let _ = stream.set_nodelay(true);
        if stream.set_read_timeout(tick).is_err() || stream.set_write_timeout(tick).is_err() {
            return Err(TroubleKind::NoSocket);
        }
        Ok(stream)
    }

    /// Has a client call on a connection, whose close is noted.
    fn run_connected<R: ClientsRuntime>(
        &self,
        rt: &R,
        client: &mut Client,
        era: u64,
        quota: Quota,
        stream: &TcpStream,
    ) {
        let number = client.stamp().client;
        let Some(lane) = self.control.lock(rt).take_lane(era) else {
            return;
        };
        match Lane::new(rt.alloc(), lane, era, number, quota) {
            Ok(mut lane) => {
                let end = self.converse(rt, client, &mut lane, stream);
                self.end_lane(rt, client, &mut lane, end, stream);
            }
            Err(AllocError) => self.tell(rt, Trouble::of_client(number, TroubleKind::NoMemory)),
        }
    }

    /// Ends a connection, with what is open on it.
    fn end_lane<R: ClientsRuntime>(
        &self,
        rt: &R,
        client: &mut Client,
        lane: &mut Lane,
        end: LaneEnd,
        stream: &TcpStream,
    ) {
        if end == LaneEnd::Ended {
            self.tell_unless_crash(rt, lane.era, lane.trouble_of(0, TroubleKind::Ended));
        }
        let _ = stream.shutdown(Shutdown::Both);
        if let Err(fault) = self.log.lock(rt).note_close(lane.number) {
            self.tell(rt, lane.trouble(close_trouble(fault)));
        }
        if give_up_all(client, lane).is_err() || self.counts.lock(rt).add(&lane.counts).is_err() {
            self.tell(rt, lane.trouble(TroubleKind::NoMemory));
        }
    }

    /// Tells a trouble, unless the word of a crash comes within some seconds that explains it.
    fn tell_unless_crash<R: ClientsRuntime>(&self, rt: &R, era: u64, trouble: Trouble) {
        let patience = Duration::from_secs(u64::from(self.settings.reply_seconds).min(
            CRASH_SECONDS,
        ));
        let (control, _) = self
            .changed
            .wait_timeout_while(rt, self.control.lock(rt), patience, |control| {
                control.runs(era)
            });
        let is_crash = !control.runs(era);
        drop(control);
        if !is_crash {
            self.tell(rt, trouble);
        }
    }
}

/// The trouble of a connection that isn't made: the server's where it refuses it or doesn't take it in time, else this side's.
fn connect_trouble(kind: ErrorKind) -> TroubleKind {
    match kind {
        ErrorKind::ConnectionRefused
        | ErrorKind::ConnectionReset
        | ErrorKind::ConnectionAborted
        | ErrorKind::TimedOut => TroubleKind::CannotConnect,
        _ => TroubleKind::NoSocket,
    }
}

/// The trouble of a close that isn't noted.
fn close_trouble(fault: NoteFault) -> TroubleKind {
    match fault {
        NoteFault::NoMemory => TroubleKind::NoMemory,
        fault => TroubleKind::LogRefuses(fault),
    }
}

/// Has a crash noted, if the log has room for it.
fn note_crash(log: &mut TapLog) -> Result<(), TroubleKind>
    ensures noted { OnOk result (log.new ≡ with_event log.old crash) }
    ensures kept { OnErr result (log.new ≡ log.old) }
{
    if !log.has_room(0) {
        return Err(TroubleKind::LogFull);
    }
    match log.note_crash() {
        Ok(()) => Ok(()),
        Err(_) => Err(TroubleKind::NoMemory),
    }
}
