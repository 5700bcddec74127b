//! A night's clients call.

ghost use Rattle.std.specs.Prelude.{◌≡◌, IfOk};

use crate::growing::GrowingFile;
use crate::opening::Opened;
use crate::words::{TestRequest, mix_of};
use nfs3_types::FileHandle;
use night_calls::{Client, Mix};
use night_clients::Night;
use night_eras::{ErasEnd, ErasPlan, Orders, run_eras};
use night_lanes::{Depth, Settings};
use program_streams::Input;
use recording_command::RecordingRuntime;
use std::alloc::{AllocError, Global};
use std::fs;
use tree_starts::Start;

/// A night whose last client has ended.
#[derive(Drop)]
pub(crate) struct Ran {
    pub(crate) night: Night,
    pub(crate) start: Start,
    pub(crate) eras: ErasEnd,
}

/// The clients that a request asks for.
fn clients_of(
    alloc: Global,
    request: &TestRequest<'_>,
    root: &FileHandle,
) -> Result<Vec<Client>, AllocError> {
    let words = request.clients;
    let mix = mix_of(words.mix).unwrap_or(Mix::Turns);
    let mut clients = Vec::new(alloc);
    for number in 0..words.clients {
        let handle = FileHandle::from_slice(alloc, root.as_slice())?;
        let mut client = Client::new(alloc, words.seed, number, words.clients, handle, mix);
        client.ask_pages_from(words.least_page);
        clients.push(client)?;
    }
    Ok(clients)
}

/// How the night that a request asks for goes.
fn plan_of(request: &TestRequest<'_>) -> ErasPlan {
    ErasPlan {
        server: request.server,
        rounds: request.crashes.rounds,
        calls: request.clients.calls_each(),
        seconds: request.clients.seconds,
        up_seconds: request.crashes.up_seconds,
        is_quiet: request.is_quiet,
    }
}

/// How the clients call.
fn settings_of(request: &TestRequest<'_>, reserved: usize) -> Option<Settings> {
    Some(Settings {
        server: request.server,
        depth: Depth::new(request.clients.depth)?,
        reply_seconds: request.limits.reply_seconds,
        credential: request.clients.credential,
        reserved,
    })
}

/// The orders of a file that is written to, or of a named pipe.
fn file_orders<R: RecordingRuntime>(
    rt: &R,
    path: &str,
    seconds: u32,
) -> Result<Orders, AllocError> {
    match fs::metadata(rt, path) {
        Ok(about) if about.is_file() => Orders::from_file(rt.alloc(), seconds),
        _ => Orders::new(rt.alloc(), true, Some(seconds)),
    }
}

/// Has the clients call over the crashes that the orders tell of.
fn run_ordered<R: RecordingRuntime, I: Input>(
    rt: &R,
    request: &TestRequest<'_>,
    night: &Night,
    clients: Vec<Client>,
    input: &mut I,
) -> Result<ErasEnd, AllocError> {
    let plan = plan_of(request);
    match request.crashes.orders {
        Some(path) => {
            let mut orders = file_orders(rt, path, request.crashes.order_seconds)?;
            let mut file = GrowingFile::new(rt, path);
            Ok(run_eras(rt, night, clients, &plan, &mut orders, &mut file))
        }
        None => {
            let mut orders = Orders::new(rt.alloc(), false, None)?;
            Ok(run_eras(rt, night, clients, &plan, &mut orders, input))
        }
    }
}

/// Has the clients of a night call until its end.
pub(crate) fn run_night<R: RecordingRuntime, I: Input>(
    rt: &R,
    request: &TestRequest<'_>,
    opened: Opened,
    input: &mut I,
) -> Result<Ran, AllocError>
    ensures { IfOk result (λ ran. ran.start ≡ opened.start) }
{
    let Opened {
        root,
        start,
        log,
        reserved,
    } = opened;
    let Some(settings) = settings_of(request, reserved) else {
        return Err(AllocError);
    };
    let clients = clients_of(rt.alloc(), request, &root)?;
    let night = Night::new(rt.alloc(), log, settings)?;
    let eras = run_ordered(rt, request, &night, clients, input)?;
    Ok(Ran { night, start, eras })
}
