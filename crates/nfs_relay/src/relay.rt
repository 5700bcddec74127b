//! The relay: it takes connections, and ends them.

ghost use Rattle.std.specs.Prelude.{◌≡◌, ◌≢◌, ◌⊎◌, Err, IfErr, IsOk};
ghost use Rattle.history_file.specs.Event.Event.{crash};
ghost use Rattle.nfs_tap.specs.Room.{HasRoom};
ghost use Rattle.nfs_relay.specs.Closing.{NotesOnce};

use crate::control::{Admission, Control, Halt};
use crate::health::Health;
use crate::tally::{Progress, Tally};
use crate::waiting::{LeftLane, Waiting};
use history_file::{EVENT_LIMIT, HISTORY_LIMIT};
use nfs_tap::TapLog;
use std::alloc::{AllocError, Global};
use std::io::ErrorKind;
use std::net::{Net, SocketAddr, TcpListener, TcpStream};
use std::sync::{Condvar, Mutex, Wait};
use std::thread::{self, Threads};
use std::time::{Clock, Duration, Instant};

/// What a relay needs of the runtime.
pub trait RelayRuntime: Net<Listener = TcpListener, Stream = TcpStream>
    + Threads
    + Wait
    + Clock
    + Eprint
    + AllocGlobal
    + Sync {}

impl<R> RelayRuntime for R
where
    R: Net<Listener = TcpListener, Stream = TcpStream>
        + Threads
        + Wait
        + Clock
        + Eprint
        + AllocGlobal
        + Sync,
{}

/// How many events, and how many bytes, are left where the limits of a history are near.
const NEAR: (usize, usize) = (EVENT_LIMIT as usize / 10, HISTORY_LIMIT / 10);

/// How many milliseconds the relay sleeps where no connection waits.
const PAUSE: u64 = 1;

/// Connections between clients and a server, and the log of what they say.
#[derive(Drop)]
pub struct Relay {
    pub(crate) log: Mutex<TapLog>,
    pub(crate) control: Mutex<Control>,
    /// Told when the control changes.
    pub(crate) changed: Condvar,
    pub(crate) health: Mutex<Health>,
    pub(crate) server: SocketAddr,
    /// Whether so many connections are to come, each of which has to get its server.
    pub(crate) is_counted: bool,
    is_quiet: bool,
}

impl Relay {
    /// A relay to a server, for so many connections or any number of them.
    pub fn new(
        alloc: Global,
        log: TapLog,
        server: SocketAddr,
        lanes: Option<u32>,
        is_quiet: bool,
    ) -> Relay {
        Relay {
            log: Mutex::new(log),
            control: Mutex::new(Control::new(lanes)),
            changed: Condvar::new(),
            health: Mutex::new(Health::new(alloc)),
            server,
            is_counted: lanes.is_some(),
            is_quiet,
        }
    }

    /// What was noted.
    pub fn log(&self) -> &Mutex<TapLog> {
        &self.log
    }

    /// What went wrong, beside what the log shows.
    pub fn health(&self) -> &Mutex<Health> {
        &self.health
    }

    /// Whether all its connections have ended, and no more come.
    pub fn has_ended<R: Wait>(&self, rt: &R) -> bool {
        let control = self.control.lock(rt);
        control.is_over() && control.present() == 0
    }

    /// Why it ended, or is to end, where not all its connections had come.
    pub fn reason<R: Wait>(&self, rt: &R) -> Option<Halt> {
        self.control.lock(rt).reason()
    }

    /// Ends the connections.
    pub fn finish<R: Wait>(&self, rt: &R) {
        self.halt(rt, Halt::Told);
    }

    /// Ends the connections for a reason.
    pub(crate) fn halt<R: Wait>(&self, rt: &R, reason: Halt) {
        self.control.lock(rt).halt(reason);
        self.changed.notify_all();
    }

    /// Ends the connections of a server that went down, and notes the crash behind their closes.
    pub fn crash<R: Wait + Eprint>(&self, rt: &R) {
        self.control.lock(rt).begin_crash();
        self.changed.notify_all();
        let control = self
            .changed
            .wait_while(rt, self.control.lock(rt), |control| control.relayed() > 0);
        drop(control);
        let noted = note_crash(&mut self.log.lock(rt));
        if let Err(reason) = noted {
            self.halt(rt, reason);
        }
        self.control.lock(rt).end_crash();
        self.changed.notify_all();
        if noted.is_ok() {
            let _ = eprintln!(rt; "the crash is noted");
        }
    }

    /// Whether a connection that came is taken.
    fn admits<R: RelayRuntime>(&self, rt: &R) -> bool {
        if !self.log.lock(rt).has_room(0) {
            self.halt(rt, Halt::LogFull);
            return false;
        }
        let admission = self.control.lock(rt).admit();
        match admission {
            Admission::Admitted => true,
            Admission::Refused => {
                self.health.lock(rt).note_unserved();
                let _ = eprintln!(rt; "a connection ended: too many are open");
                false
            }
            Admission::Over => false,
        }
    }

    /// Says that there is no thread for a connection that was taken.
    pub(crate) fn lack_thread<R: Wait + Eprint>(&self, rt: &R) {
        if self.is_counted {
            self.halt(rt, Halt::NoThread);
        }
        self.health.lock(rt).note_unserved();
        let _ = eprintln!(rt; "a connection ended: no thread");
    }

    /// An order isn't understood, or can't be read.
    pub fn miss_order<R: Wait>(&self, rt: &R) {
        self.health.lock(rt).note_missed();
    }

    /// Says that connections that come can't be taken, when this begins.
    fn tell_untakable<R: RelayRuntime>(&self, rt: &R, ticker: &mut Ticker, why: ErrorKind) {
        let is_deaf = !matches!(
            why,
            ErrorKind::WouldBlock | ErrorKind::Interrupted | ErrorKind::ConnectionAborted
        );
        if is_deaf && !ticker.is_deaf {
            self.health.lock(rt).note_unserved();
            let _ = eprintln!(rt; "no connection can be taken: are too many files open?");
        }
        ticker.is_deaf = is_deaf;
    }

    /// A connection that was taken ended.
    pub(crate) fn leave<R: Wait>(&self, rt: &R) {
        self.control.lock(rt).leave();
        self.changed.notify_all();
    }

    /// Relays the connections that come to a listener, until no more do and all have ended.
    pub fn run<R: RelayRuntime>(&self, rt: &R, listener: TcpListener) {
        let _ = listener.set_nonblocking(true);
        thread::scope(thread::scope_env(), rt, move |scope| {
            let mut ticker = Ticker::new(rt);
            for _ in rt.forever() {
                if self.control.lock(rt).is_over() {
                    break;
                }
                match listener.accept() {
                    Ok((client, _)) => {
                        if self.admits(rt) && scope.spawn(move || self.serve(rt, client)).is_err() {
                            self.lack_thread(rt);
                            self.leave(rt);
                        }
                    }
                    Err(error) => {
                        self.tell_untakable(rt, &mut ticker, error.kind());
                        thread::sleep(rt, Duration::from_millis(PAUSE));
                    }
                }
                self.tell_progress(rt, &mut ticker);
            }
            drop(listener);
            self.wait_for_ends(rt, &mut ticker);
            let left = ticker.waiting.follow(self.log.lock(rt).events());
            tell_left(rt, left);
        });
    }

    /// Waits until the connections that were taken have ended.
    fn wait_for_ends<R: RelayRuntime>(&self, rt: &R, ticker: &mut Ticker) {
        for _ in rt.forever() {
            let control = self.control.lock(rt);
            if control.present() == 0 {
                return;
            }
            let (control, _) = self
                .changed
                .wait_timeout(rt, control, Duration::from_millis(100));
            drop(control);
            self.tell_progress(rt, ticker);
        }
        unreachable!()
    }

    /// Once a second, tells how far the recording is.
    fn tell_progress<R: RelayRuntime>(&self, rt: &R, ticker: &mut Ticker) {
        if !ticker.is_due(rt) {
            return;
        }
        let log = self.log.lock(rt);
        ticker.tally.follow(log.events());
        let left = ticker.waiting.follow(log.events());
        let is_near = is_near_limit(&log);
        drop(log);
        tell_left(rt, left);
        if is_near && !ticker.is_warned {
            ticker.is_warned = true;
            let _ = eprintln!(rt;
                "the history is near its limits: 1000000 events, 268435456 bytes"
            );
        }
        if self.is_quiet {
            return;
        }
        let present = self.control.lock(rt).present();
        let tally = ticker.tally;
        let _ = rt.eprintln(Progress { present, tally });
    }
}

/// Names the lanes that ended while calls on them waited for a reply.
fn tell_left<R: Eprint>(rt: &R, left: Result<Vec<LeftLane>, AllocError>) {
    if let Ok(left) = left {
        for lane in left.iter() {
            let _ = rt.eprintln(*lane);
        }
    }
}

/// When how far a recording is was told last, and what was counted by then.
#[derive(Drop)]
struct Ticker {
    last: Option<Instant>,
    tally: Tally,
    waiting: Waiting,
    /// Whether it was told that the limits are near.
    is_warned: bool,
    /// Whether the last connection that came couldn't be taken.
    is_deaf: bool,
}

impl Ticker {
    fn new<R: Clock + AllocGlobal>(rt: &R) -> Ticker {
        Ticker {
            last: Instant::now(rt).ok(),
            tally: Tally::new(),
            waiting: Waiting::new(rt.alloc()),
            is_warned: false,
            is_deaf: false,
        }
    }

    /// Whether a second has gone by since it was due.
    fn is_due<R: Clock>(&mut self, rt: &R) -> bool {
        let Ok(now) = Instant::now(rt) else {
            return false;
        };
        let is_due = match self.last {
            Some(last) => now.duration_since(last) >= Duration::from_secs(1),
            None => true,
        };
        if is_due {
            self.last = Some(now);
        }
        is_due
    }
}

/// Whether nine parts of ten of what a history may have are taken.
fn is_near_limit(log: &TapLog) -> bool {
    log.events().len() > EVENT_LIMIT as usize - NEAR.0 || !log.has_room(NEAR.1)
}

/// Has a crash noted, if the log has room for it.
fn note_crash(log: &mut TapLog) -> Result<(), Halt>
    ensures once { NotesOnce log.old crash result log.new }
    ensures full { HasRoom log.old 0 → result ≢ Err Halt.LogFull }
    ensures within { IsOk result → HasRoom log.old 0 }
    ensures reason { IfErr result (λ reason. (reason ≡ Halt.LogFull) ⊎ (reason ≡ Halt.NoMemory)) }
{
    if !log.has_room(0) {
        return Err(Halt::LogFull);
    }
    match log.note_crash() {
        Ok(()) => Ok(()),
        Err(_) => Err(Halt::NoMemory),
    }
}
