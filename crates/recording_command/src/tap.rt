//! A recording, from its words to its history file.

ghost use Rattle.std.specs.Prelude.{◌≡◌, ◌<◌, ℕ, List};
ghost use Rattle.std.specs.Io.KnownBytes.{Appends};
ghost use Rattle.program_streams.specs.Told.{memory_line};
ghost use Rattle.recording_command.specs.Tap.{IsTold};
ghost use Rattle.recording_command.specs.declared.tap_end.TapEnd.{TapEnd};

use crate::guard::Guard;
use crate::part::{Part, part_path};
use crate::probing::{can_write, is_own_port, probe_root};
use crate::recorder::{Recorder, tell_unfinished, tell_unreadable};
use crate::refusals::Refusals;
use crate::root::root_of;
use crate::runtime::RecordingRuntime;
use crate::saving::{Beginning, SaveFault, events_file, write_events_of};
use crate::tap_end::{TapEnd, refusal_of, tell_end};
use crate::tap_words::TapRequest;
use crate::watching::{OrderFile, await_end};
use folder_start::{FolderFault, folder_start};
use nfs_relay::{Halt, Order, OrderReader, Relay, RelayRuntime, calls_in};
use nfs_tap::TapLog;
use nfs3_types::FileHandle;
use program_streams::{Input, Output, READ_SIZE, are_one_file, line_of};
use recording_health::{Finding, Findings, Reading, Recording, findings_of, reading_of};
use std::alloc::{AllocError, Global};
use std::fs::{self, File, Metadata};
use std::io::{self, ErrorKind, Write};
use std::net::{IpAddr, Ipv4Addr, SocketAddr, TcpListener};
use std::os::unix::fs::MetadataExt;
use std::thread::{self, JoinHandle, Scope};
use tree_starts::{Profile, Start};

/// Does what the lines say of which the bytes are a piece.
fn take_orders<R: RelayRuntime>(
    rt: &R,
    recorder: &Recorder,
    orders: &mut OrderReader,
    bytes: &[u8],
) -> Result<(), AllocError> {
    for byte in bytes {
        match recorder.take_byte(rt, orders, *byte)? {
            Some(Order::Crash) => recorder.crash(rt),
            Some(Order::Up | Order::End | Order::Unknown) => {
                recorder.relay.miss_order(rt);
                let _ = eprintln!(rt; "an order is unknown: crash is the only one");
            }
            None => {}
        }
    }
    Ok(())
}

/// Hands the orders on an input to the relay, to the end of the input.
fn read_orders<R: RelayRuntime, I: Input>(
    rt: &R,
    recorder: &Recorder,
    input: &mut I,
) -> Result<(), AllocError> {
    let mut buffer = vec![in rt.alloc(); 0; READ_SIZE]?;
    let mut orders = OrderReader::new(rt.alloc());
    for _ in rt.forever() {
        match input.read(buffer.as_mut_slice()) {
            Ok(0) => {
                tell_unfinished(rt, &recorder.relay, &orders);
                return Ok(());
            }
            Ok(count) => take_orders(rt, recorder, &mut orders, &buffer[..count])?,
            Err(error) if error.kind() == ErrorKind::Interrupted => {}
            Err(_) => {
                tell_unreadable(rt, &recorder.relay);
                return Ok(());
            }
        }
    }
    unreachable!()
}

/// Writes what the log of a relay that has ended holds, and says how many calls that is. What has no room in a history's file behind what the
/// server held at first isn't written, and that is told.
fn save<R: RelayRuntime, W: Write>(rt: &R, recorder: &Recorder, file: &mut W) -> TapEnd {
    let halt = recorder.relay.reason(rt);
    recorder.refusals.finish(rt, &recorder.relay);
    let log = recorder.relay.log().lock(rt);
    let events = recorder.refusals.kept(rt, log.events());
    match write_events_of(rt.alloc(), &recorder.beginning, log.root(), events, file) {
        Ok(count) => {
            let calls = calls_in(events.get(..count).unwrap_or(events));
            let is_cut = count < events.len();
            tell_halt(rt, if is_cut { Some(Halt::LogFull) } else { halt }, calls);
            TapEnd::Written(calls)
        }
        Err(SaveFault::CannotWrite) => TapEnd::CannotWrite,
        Err(SaveFault::Failed(error)) => {
            let _ = eprintln!(rt; "nfsbench: the history isn't written: {error}");
            TapEnd::CannotWrite
        }
        Err(SaveFault::NoMemory) => TapEnd::NoMemory,
    }
}

/// Says why a recording ended before it was told to.
fn tell_halt<R: RelayRuntime>(rt: &R, halt: Option<Halt>, calls: usize) {
    let reason = match halt {
        Some(Halt::LogFull) => "LogFull",
        Some(Halt::NoMemory) => "out of memory",
        _ => return,
    };
    let _ = eprintln!(rt; "the recording ended: {reason}; calls {calls}");
}

/// Begins to keep on disk what a relay notes, in a thread of its own.
fn begin_part<'s, E, R: RelayRuntime>(
    scope: &Scope<'s, E>,
    rt: &'s R,
    relay: &'s Relay,
    part: Part,
) -> Option<JoinHandle<()>> {
    scope.spawn(move || part.follow(rt, relay)).ok()
}

/// Begins to look after the server, in a thread of its own. Where there is none, that is said, and the recording goes on.
fn begin_guard<'s, E, R: RelayRuntime>(
    scope: &Scope<'s, E>,
    rt: &'s R,
    recorder: &'s Recorder,
) -> Option<JoinHandle<()>> {
    if !recorder.guard.is_on() {
        return None;
    }
    let guarding = scope.spawn(move || recorder.guard.follow(rt, &recorder.relay));
    if guarding.is_err() {
        recorder.relay.miss_order(rt);
        let _ = eprintln!(rt; "the server isn't looked after: no thread");
    }
    guarding.ok()
}

/// The file that grows beside a recording. Where it can't be made, that is said, and the recording goes on.
fn make_part<R: RecordingRuntime>(rt: &R, recorder: &Recorder, path: &str) -> Option<Part> {
    match Part::beside(rt, &recorder.relay, &recorder.beginning, path) {
        Ok(part) => Some(part),
        Err(_) => {
            let _ = eprintln!(rt;
                "what is noted isn't kept on disk meanwhile: {path} can't be written"
            );
            None
        }
    }
}

/// Begins to record in a thread of its own.
fn begin_relay<'s, E, R: RelayRuntime>(
    scope: &Scope<'s, E>,
    rt: &'s R,
    relay: &'s Relay,
    listener: TcpListener,
) -> Option<JoinHandle<()>> {
    scope.spawn(move || relay.run(rt, listener)).ok()
}

/// Begins to record in a thread of its own, which writes the history when the relay has ended.
fn begin_recording<'s, E, R: RelayRuntime>(
    scope: &Scope<'s, E>,
    rt: &'s R,
    recorder: &'s Recorder,
    listener: TcpListener,
    mut file: File,
) -> Option<JoinHandle<TapEnd>> {
    let recording = scope.spawn(move || {
        recorder.relay.run(rt, listener);
        save(rt, recorder, &mut file)
    });
    recording.ok()
}

/// Writes the history of a relay that has ended, unless it couldn't begin.
fn save_ended<R: RecordingRuntime>(rt: &R, recorder: &Recorder, path: &str) -> TapEnd {
    if let Some(refusal) = refusal_of(recorder.relay.reason(rt)) {
        return refusal;
    }
    match fs::create(rt, path) {
        Ok(mut file) => save(rt, recorder, &mut file),
        Err(error) => {
            let _ = eprintln!(rt; "nfsbench: {path}: {error}");
            TapEnd::CannotWrite
        }
    }
}

/// Records so many connections as the relay takes.
fn record_lanes<R: RecordingRuntime>(
    rt: &R,
    recorder: &Recorder,
    listener: TcpListener,
    path: &str,
) -> TapEnd {
    recorder.relay.run(rt, listener);
    save_ended(rt, recorder, path)
}

/// The number of a file, on its device.
fn number_of(known: io::Result<Metadata>) -> Option<(u64, u64)> {
    let known = known.ok()?;
    Some((known.dev(), known.ino()))
}

/// What became of a recording whose file was made at a path ahead of it: one that isn't there any more isn't written.
fn end_at<R: RecordingRuntime>(
    rt: &R,
    path: &str,
    made: Option<(u64, u64)>,
    end: TapEnd,
) -> TapEnd {
    match end {
        TapEnd::Written(_) if number_of(fs::metadata(rt, path)) != made => {
            let _ = eprintln!(rt; "the history was taken away while it was recorded");
            TapEnd::CannotWrite
        }
        end => end,
    }
}

/// Records until the input ends. The file is made first, since the recording may end before the input does.
fn record_until_end<R: RecordingRuntime, I: Input>(
    rt: &R,
    recorder: &Recorder,
    listener: TcpListener,
    path: &str,
    input: &mut I,
) -> TapEnd {
    let relay = &recorder.relay;
    let file = match fs::create(rt, path) {
        Ok(file) => file,
        Err(error) => {
            let _ = eprintln!(rt; "nfsbench: {path}: {error}");
            relay.finish(rt);
            return TapEnd::CannotWrite;
        }
    };
    let made = number_of(file.metadata());
    let end = thread::scope(thread::scope_env(), rt, |scope| {
        let Some(recording) = begin_recording(scope, rt, recorder, listener, file) else {
            relay.finish(rt);
            let _ = fs::remove_file(rt, path);
            return TapEnd::NoThread;
        };
        if let Err(AllocError) = read_orders(rt, recorder, input) {
            relay.miss_order(rt);
            let _ = eprintln!(rt; "the recording ends: out of memory");
        }
        relay.finish(rt);
        recording.join(rt)
    });
    end_at(rt, path, made, end)
}

/// Records until one of the ends comes that the words name, or all connections have.
fn record_to_ends<R: RecordingRuntime>(
    rt: &R,
    recorder: &Recorder,
    listener: TcpListener,
    request: &TapRequest<'_>,
    orders: Option<OrderFile>,
) -> TapEnd {
    let relay = &recorder.relay;
    let is_run = thread::scope(thread::scope_env(), rt, |scope| {
        let Some(recording) = begin_relay(scope, rt, relay, listener) else {
            return false;
        };
        if let Err(AllocError) = await_end(rt, recorder, &request.ends, orders) {
            relay.miss_order(rt);
            let _ = eprintln!(rt; "the recording ends: out of memory");
        }
        relay.finish(rt);
        recording.join(rt);
        true
    });
    if is_run {
        save_ended(rt, recorder, request.history)
    } else {
        relay.finish(rt);
        TapEnd::NoThread
    }
}

/// Records in the way that the words ask for.
fn record_as<R: RecordingRuntime, I: Input>(
    rt: &R,
    recorder: &Recorder,
    listener: TcpListener,
    request: &TapRequest<'_>,
    orders: Option<OrderFile>,
    input: &mut I,
) -> TapEnd {
    if request.ends.is_any() {
        record_to_ends(rt, recorder, listener, request, orders)
    } else if request.lanes.is_some() {
        record_lanes(rt, recorder, listener, request.history)
    } else {
        record_until_end(rt, recorder, listener, request.history, input)
    }
}

/// Begins to report the calls that have the history refused, in a thread of its own. Where there is none, they are reported at the end.
fn begin_refusals<'s, E, R: RelayRuntime>(
    scope: &Scope<'s, E>,
    rt: &'s R,
    recorder: &'s Recorder,
) -> Option<JoinHandle<()>> {
    let following = scope.spawn(move || recorder.refusals.follow(rt, &recorder.relay));
    following.ok()
}

/// Records in the way that the words ask for, and reports meanwhile what has the history refused, and looks after the server where the
/// words ask for that.
fn record_guarded<R: RecordingRuntime, I: Input>(
    rt: &R,
    recorder: &Recorder,
    listener: TcpListener,
    request: &TapRequest<'_>,
    orders: Option<OrderFile>,
    input: &mut I,
) -> TapEnd {
    thread::scope(thread::scope_env(), rt, |scope| {
        let guarding = begin_guard(scope, rt, recorder);
        let following = begin_refusals(scope, rt, recorder);
        let end = record_as(rt, recorder, listener, request, orders, input);
        if let Some(guarding) = guarding {
            guarding.join(rt);
        }
        if let Some(following) = following {
            following.join(rt);
        }
        end
    })
}

/// Records, while a file grows beside it.
fn record_beside<R: RecordingRuntime, I: Input>(
    rt: &R,
    recorder: &Recorder,
    listener: TcpListener,
    request: &TapRequest<'_>,
    orders: Option<OrderFile>,
    input: &mut I,
    part: Option<Part>,
) -> TapEnd {
    let Some(part) = part else {
        return record_guarded(rt, recorder, listener, request, orders, input);
    };
    thread::scope(thread::scope_env(), rt, |scope| {
        let following = begin_part(scope, rt, &recorder.relay, part);
        if following.is_none() {
            let _ = eprintln!(rt; "what is noted isn't kept on disk meanwhile: no thread");
        }
        let end = record_guarded(rt, recorder, listener, request, orders, input);
        if let Some(following) = following {
            following.join(rt);
        }
        end
    })
}

/// Records, and keeps on disk what is noted meanwhile, until the history is written.
fn record_kept<R: RecordingRuntime, I: Input>(
    rt: &R,
    recorder: &Recorder,
    listener: TcpListener,
    request: &TapRequest<'_>,
    orders: Option<OrderFile>,
    input: &mut I,
) -> TapEnd {
    let Ok(path) = part_path(rt.alloc(), request.history) else {
        return TapEnd::NoMemory;
    };
    if fs::metadata(rt, path.as_str()).is_ok() {
        return TapEnd::PartStands;
    }
    let part = make_part(rt, recorder, path.as_str());
    let end = record_beside(rt, recorder, listener, request, orders, input, part);
    if matches!(end, TapEnd::Written(_)) || recorder.relay.log().lock(rt).events().is_empty() {
        let _ = fs::remove_file(rt, path.as_str());
    }
    end
}

/// What is read of the history of a log, as it is in its file, and whether the file has no room for all of it.
#[derive(Clone, Copy)]
struct ReadBack {
    reading: Reading,
    is_cut: bool,
}

/// What is read of the history of a log, as it is in its file.
fn read_back<R: RecordingRuntime>(rt: &R, recorder: &Recorder) -> Result<ReadBack, AllocError> {
    let log = recorder.relay.log().lock(rt);
    let events = recorder.refusals.kept(rt, log.events());
    match events_file(rt.alloc(), &recorder.beginning, log.root(), events) {
        Ok(file) => Ok(ReadBack {
            reading: reading_of(rt.alloc(), file.bytes.as_slice())?,
            is_cut: file.events < events.len(),
        }),
        // It was written, so that this is for memory.
        Err(_) => Err(AllocError),
    }
}

/// Nothing was read.
const UNREAD: ReadBack = ReadBack {
    reading: Reading::NONE,
    is_cut: false,
};

/// What was wrong with the server, where this was read of the history.
fn found_in<R: RecordingRuntime>(
    rt: &R,
    recorder: &Recorder,
    read: ReadBack,
) -> Result<Findings, AllocError> {
    let relay = &recorder.relay;
    let halt = if read.is_cut {
        Some(Halt::LogFull)
    } else {
        relay.reason(rt)
    };
    let log = relay.log().lock(rt);
    let health = relay.health().lock(rt);
    let known = recorder.guard.known().lock(rt);
    let recording = Recording {
        events: log.events(),
        ends: health.ends(),
        refusals: health.refused(),
        cut: health.cut(),
        untaken: health.untaken(),
        unserved: health.unserved(),
        missed: health.missed(),
        untold: health.more(),
        watch: known.watch(),
        halt,
    };
    findings_of(rt.alloc(), recording, read.reading)
}

/// Appends the line of something that was wrong.
fn add_line(alloc: Global, lines: &mut String, finding: &Finding) -> Result<(), AllocError> {
    let line = line_of(alloc, "unhealthy: ", finding)?;
    lines.push_str(line.as_str())?;
    Ok(())
}

/// What was wrong, in lines.
fn lines_of(alloc: Global, found: &[Finding]) -> Result<String, AllocError> {
    let mut lines = String::new(alloc);
    for finding in found {
        add_line(alloc, &mut lines, finding)?;
    }
    Ok(lines)
}

/// What was wrong with the server, in lines; for whoever wants it the history is read too.
fn findings<R: RecordingRuntime>(
    rt: &R,
    recorder: &Recorder,
    request: &TapRequest<'_>,
) -> Result<String, AllocError> {
    let read = if request.is_strict {
        read_back(rt, recorder)?
    } else {
        UNREAD
    };
    let found = found_in(rt, recorder, read)?;
    lines_of(rt.alloc(), found.all.as_slice())
}

/// A recording that ended, and the lines ahead of its last one.
#[derive(Drop)]
struct Ended {
    end: TapEnd,
    lines: String,
}

/// Says what was wrong with the server: in lines of the answer where the words ask for it, else on standard error.
fn with_findings<R: RecordingRuntime>(
    rt: &R,
    recorder: &Recorder,
    request: &TapRequest<'_>,
    calls: usize,
) -> Result<Ended, AllocError> {
    let lines = findings(rt, recorder, request)?;
    if lines.is_empty() {
        return Ok(Ended {
            end: TapEnd::Written(calls),
            lines,
        });
    }
    if request.is_strict {
        return Ok(Ended {
            end: TapEnd::Unhealthy(calls),
            lines,
        });
    }
    let _ = rt.eprint(lines.as_str());
    Ok(Ended {
        end: TapEnd::Written(calls),
        lines: String::new(rt.alloc()),
    })
}

/// What a server held at first, where the words tell of it or ask for the strict profile. Why a folder is no start is said on standard error.
fn beginning_of<R: RecordingRuntime>(
    rt: &R,
    request: &TapRequest<'_>,
) -> Result<Option<Beginning>, TapEnd> {
    let profile = request.profile;
    let start = match request.start {
        Some(path) => match folder_start(rt, path) {
            Ok(start) => start,
            Err(FolderFault::NoMemory) => return Err(TapEnd::NoMemory),
            Err(fault) => {
                let _ = rt.eprintln(fault);
                return Err(TapEnd::NoStart);
            }
        },
        None if profile == Profile::Plain => return Ok(None),
        None => Start::empty(rt.alloc()),
    };
    Ok(Some(Beginning { profile, start }))
}

/// The file that the orders come from, where the words name one.
fn orders_of<R: RecordingRuntime>(
    rt: &R,
    request: &TapRequest<'_>,
) -> Result<Option<OrderFile>, TapEnd> {
    let Some(path) = request.ends.orders else {
        return Ok(None);
    };
    // What is read isn't written over.
    if are_one_file(rt, path, request.history) {
        let _ = eprintln!(rt; "nfsbench: {path}: the history and the orders are one file");
        return Err(TapEnd::CannotWrite);
    }
    match OrderFile::open(rt, path) {
        Some(file) => Ok(Some(file)),
        None => Err(TapEnd::NoOrders),
    }
}

/// What the words name that is read before there is a port for clients.
#[derive(Drop)]
struct Named {
    root: FileHandle,
    beginning: Option<Beginning>,
    orders: Option<OrderFile>,
}

/// Reads what the words name.
fn named_by<R: RecordingRuntime>(rt: &R, request: &TapRequest<'_>) -> Result<Named, TapEnd> {
    let root = root_of(rt, request.root)?;
    let beginning = beginning_of(rt, request)?;
    let orders = orders_of(rt, request)?;
    Ok(Named {
        root,
        beginning,
        orders,
    })
}

/// The port for clients, where the history can be written too.
fn listen<R: RecordingRuntime>(rt: &R, request: &TapRequest<'_>) -> Result<TcpListener, TapEnd> {
    if is_own_port(rt, request) {
        return Err(TapEnd::CannotListen);
    }
    let localhost = IpAddr::V4(Ipv4Addr::new(127, 0, 0, 1));
    let address = SocketAddr::new(localhost, request.port);
    let Ok(listener) = TcpListener::bind(rt, address) else {
        return Err(TapEnd::CannotListen);
    };
    if !can_write(rt, request.history) {
        return Err(TapEnd::CannotWrite);
    }
    Ok(listener)
}

/// What a recording begins with.
#[derive(Drop)]
struct Opened {
    recorder: Recorder,
    listener: TcpListener,
    orders: Option<OrderFile>,
}

/// What a recording begins with, of what the words name.
fn opened_of<R: RecordingRuntime>(
    rt: &R,
    request: &TapRequest<'_>,
    named: Named,
    listener: TcpListener,
) -> Opened {
    let Named {
        root,
        beginning,
        orders,
    } = named;
    probe_root(rt, request, &root);
    let log = TapLog::new(rt.alloc(), root);
    let relay = Relay::new(
        rt.alloc(),
        log,
        request.server,
        request.lanes,
        request.is_quiet,
    );
    // Where connections are counted the server may count them too.
    let is_guarded = request.is_strict && request.lanes.is_none();
    Opened {
        recorder: Recorder {
            relay,
            beginning,
            guard: Guard::new(rt.alloc(), request.server, is_guarded),
            refusals: Refusals::new(rt.alloc(), request.stops_at_outside),
        },
        listener,
        orders,
    }
}

/// Opens what a recording needs.
fn open<R: RecordingRuntime>(rt: &R, request: &TapRequest<'_>) -> Result<Opened, TapEnd> {
    let named = named_by(rt, request)?;
    let listener = listen(rt, request)?;
    Ok(opened_of(rt, request, named, listener))
}

/// Records what the words ask for.
fn record<R: RecordingRuntime, I: Input>(rt: &R, request: &TapRequest<'_>, input: &mut I) -> Ended {
    let none = String::new(rt.alloc());
    let Opened {
        recorder,
        listener,
        orders,
    } = match open(rt, request) {
        Ok(opened) => opened,
        Err(end) => return Ended { end, lines: none },
    };
    match record_kept(rt, &recorder, listener, request, orders, input) {
        TapEnd::Written(calls) => match with_findings(rt, &recorder, request, calls) {
            Ok(ended) => ended,
            Err(AllocError) => Ended {
                end: TapEnd::NoMemory,
                lines: none,
            },
        },
        end => Ended { end, lines: none },
    }
}

/// Records what the words ask for, and says what became of it: first what was wrong with the server, where the words ask for it.
pub fn run_tap<R: RecordingRuntime, I: Input, O: Output>(
    rt: &R,
    request: &TapRequest<'_>,
    input: &mut I,
    output: &mut O,
) -> u8
    ensures told { (end : TapEnd) × (lines : List ℕ) × IsTold end lines result (O.contents output.old) (O.contents output.new) }
    ensures memory_line { result ≡ 3
        → Appends (O.contents output.old) (O.contents output.new) memory_line }
    ensures known { result < 4 }
{
    let Ended { end, lines } = record(rt, request, input);
    tell_end(rt.alloc(), output, end, lines)
}
