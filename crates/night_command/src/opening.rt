//! A night is opened: the server answers, its export is mounted, and what it holds is known.

ghost use Rattle.std.specs.Prelude.{◌≡◌, IfOk};
ghost use Rattle.night_command.specs.Nights.{profile_asked};

use crate::refusal::NightRefusal;
use crate::words::TestRequest;
use export_walk::{NotedExchange, WalkEnd, WalkedExport, walk_export};
use history_file::{WriteFault, write_history_from};
use mount_client::{MountFault, mount, unmount};
use nfs_tap::{NoteFault, TapLog};
use nfs3_types::FileHandle;
use night_clients::{ClientsRuntime, is_up_within};
use night_start::Settings;
use std::alloc::Global;
use std::time::Duration;
use tree_starts::{Profile, Start};

/// The lane of the walk. Those of clients begin with 1.
pub(crate) const WALK_LANE: u32 = 0;

/// What a night begins with.
#[derive(Drop)]
pub(crate) struct Opened {
    /// The handle of the export's root.
    pub(crate) root: FileHandle,
    /// What the export held.
    pub(crate) start: Start,
    /// The walk's calls that gave a handle, with their replies.
    pub(crate) log: TapLog,
    /// How many bytes of the history's file are taken by what the export held.
    pub(crate) reserved: usize,
}

/// The profile that a request asks for.
pub(crate) fn profile_of(request: &TestRequest<'_>) -> Profile
    ensures { result ≡ profile_asked request.now.is_strict }
{
    if request.is_strict {
        Profile::Strict
    } else {
        Profile::Plain
    }
}

/// Notes the exchanges of a walk on a lane of their own, which is closed after them.
fn note_walk(log: &mut TapLog, noted: &[NotedExchange]) -> Result<(), NoteFault> {
    for exchange in noted {
        log.note_call(WALK_LANE, exchange.call.as_slice())?;
        log.note_reply(WALK_LANE, exchange.reply.as_slice())?;
    }
    if noted.is_empty() {
        return Ok(());
    }
    log.note_close(WALK_LANE)
}

/// How many bytes a history's file takes without events.
fn bytes_taken(
    alloc: Global,
    root: &FileHandle,
    profile: Profile,
    start: &Start,
) -> Result<usize, NightRefusal> {
    match write_history_from(alloc, root.as_slice(), profile, start, &[]) {
        Ok(file) => Ok(file.len()),
        Err(WriteFault::TooLarge) => Err(NightRefusal::StartTooLarge),
        Err(WriteFault::NoMemory) => Err(NightRefusal::NoMemory),
    }
}

/// What a night begins with, of an export that was walked.
fn open_walked(
    alloc: Global,
    root: FileHandle,
    profile: Profile,
    walked: WalkedExport,
) -> Result<Opened, NightRefusal>
    ensures { IfOk result (λ opened. opened.start ≡ walked.start) }
{
    let WalkedExport { start, noted, .. } = walked;
    let reserved = bytes_taken(alloc, &root, profile, &start)?;
    let mut log = TapLog::new(alloc, FileHandle::from_slice(alloc, root.as_slice())?);
    match note_walk(&mut log, noted.as_slice()) {
        Ok(()) => Ok(Opened {
            root,
            start,
            log,
            reserved,
        }),
        // Its calls have numbers of their own, and each is answered.
        Err(_) => Err(NightRefusal::NoMemory),
    }
}

/// Waits for the server, mounts its export, and walks it.
pub(crate) fn open_night<R: ClientsRuntime>(
    rt: &R,
    request: &TestRequest<'_>,
) -> Result<Opened, NightRefusal> {
    let seconds = request.crashes.up_seconds;
    if !is_up_within(rt, &request.server, Duration::from_secs(u64::from(seconds))) {
        return Err(NightRefusal::NotUp(seconds));
    }
    let patience = Duration::from_secs(u64::from(request.limits.reply_seconds));
    let who = request.clients.credential;
    let root = match mount(rt, &request.mount, request.export.as_bytes(), who, patience) {
        Ok(root) => root,
        Err(MountFault::NoMemory) => return Err(NightRefusal::NoMemory),
        Err(fault) => return Err(NightRefusal::Mount(fault)),
    };
    let settings = Settings {
        is_empty: request.is_empty,
        ..Settings::COMMON
    };
    let walked_root = FileHandle::from_slice(rt.alloc(), root.as_slice())?;
    match walk_export(rt, &request.server, walked_root, who, settings, patience) {
        Ok(walked) => open_walked(rt.alloc(), root, profile_of(request), walked),
        Err(WalkEnd::NoMemory) => Err(NightRefusal::NoMemory),
        Err(end) => Err(NightRefusal::Walk(end)),
    }
}

/// Tells the mount daemon that the export isn't mounted any more. Nothing depends on it.
pub(crate) fn leave<R: ClientsRuntime>(rt: &R, request: &TestRequest<'_>) {
    let patience = Duration::from_secs(1);
    let who = request.clients.credential;
    unmount(rt, &request.mount, request.export.as_bytes(), who, patience);
}
