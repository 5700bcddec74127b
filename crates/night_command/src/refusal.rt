//! Why there is no night.

use export_walk::WalkEnd;
use mount_client::MountFault;
use std::alloc::{AllocError, Global};
use std::io::ErrorKind;

/// Why there is no night: nothing was judged.
#[derive(Drop)]
pub(crate) enum NightRefusal {
    /// The folder can't be made.
    Folder(ErrorKind),
    /// The orders can't be read.
    Orders,
    /// Orders are named, and no crash is asked for.
    NoRounds,
    /// The clients would make more events than a history has.
    TooManyCalls,
    /// Nothing answers NULL at the port of NFS within this many seconds.
    NotUp(u32),
    /// The export isn't mounted.
    Mount(MountFault),
    /// The export can't be a start.
    Walk(WalkEnd),
    /// The starting objects take more bytes than a history has.
    StartTooLarge,
    /// What was recorded is over the limits of a history.
    HistoryTooLarge,
    /// A file of the folder can't be written.
    CannotWrite,
    /// Memory ran out.
    NoMemory,
}

impl From<AllocError> for NightRefusal {
    fn from(_error: AllocError) -> NightRefusal {
        NightRefusal::NoMemory
    }
}

/// Why a folder can't be made.
fn folder_words(kind: ErrorKind) -> &'static str {
    match kind {
        ErrorKind::AlreadyExists => {
            "the folder of --out is there already: name one that isn't, so that no night's files are lost"
        }
        ErrorKind::NotFound => "the folder of --out can't be made: what it lies in isn't there",
        ErrorKind::PermissionDenied => "the folder of --out can't be made: permission denied",
        _ => "the folder of --out can't be made",
    }
}

impl NightRefusal {
    /// Why, without a line feed. An `Err` means that memory ran out.
    pub(crate) fn reason(&self, alloc: Global) -> Result<String, AllocError> {
        match self {
            NightRefusal::Folder(kind) => String::from_str(alloc, folder_words(*kind)),
            NightRefusal::Orders => String::from_str(
                alloc,
                "the file of --orders can't be read: make it before the night begins",
            ),
            NightRefusal::NoRounds => String::from_str(
                alloc,
                "--orders needs --rounds: say how many crashes the orders tell of",
            ),
            NightRefusal::TooManyCalls => String::from_str(
                alloc,
                "a history has at most 1000000 events: --clients, --calls and --rounds make more",
            ),
            NightRefusal::NotUp(seconds) => format!(in alloc;
                "nothing answers NULL of NFS version 3 at --port within {seconds} seconds: is the server up, and is it nfsd's port?"
            ),
            NightRefusal::Mount(fault) => fault.to_string(alloc),
            NightRefusal::Walk(end) => end.to_string(alloc),
            NightRefusal::StartTooLarge => String::from_str(
                alloc,
                "what the export holds takes more bytes than a history has (268435456)",
            ),
            NightRefusal::HistoryTooLarge => String::from_str(
                alloc,
                "what was recorded is over the limits of a history: make fewer calls by --calls",
            ),
            NightRefusal::CannotWrite => String::from_str(
                alloc,
                "a file can't be written into the folder of --out: is its disk full?",
            ),
            NightRefusal::NoMemory => Err(AllocError),
        }
    }
}
