//! The handle of the export's root.

ghost use Rattle.std.specs.Prelude.{◌≡◌, IfOk, Err};
ghost use Rattle.hex.specs.Hex.{encode_lower};
ghost use Rattle.recording_command.specs.Tap.{IsNoRoot};
ghost use Rattle.recording_command.specs.declared.tap_end.TapEnd.{TapEnd};

use crate::runtime::RecordingRuntime;
use crate::tap_end::TapEnd;
use crate::tap_words::RootWords;
use mount_client::{MountFault, mount};
use nfs3_types::{FileHandle, HANDLE_LIMIT};
use program_streams::{DigitsFault, decode_digits};
use rpc_client::Credential;
use std::alloc::{AllocError, Global};
use std::net::SocketAddr;
use std::time::Duration;

/// How many seconds the MOUNT service may take.
const MOUNT_SECONDS: u64 = 30;

/// Who mounts.
const WHO: Credential = Credential { uid: 0, gid: 0 };

/// The root's handle: the bytes that the text spells in lower case hex, at most 64.
fn read_root(alloc: Global, text: &str) -> Result<FileHandle, TapEnd>
    ensures spelled { IfOk result (λ root. text.now ≡ encode_lower root) }
    ensures bad { result ≡ Err TapEnd.BadRoot → IsNoRoot text.now }
{
    match decode_digits(alloc, text.as_bytes()) {
        Ok(bytes) if bytes.len() > HANDLE_LIMIT => Err(TapEnd::BadRoot),
        Ok(bytes) => match FileHandle::from_slice(alloc, bytes.as_slice()) {
            Ok(root) => Ok(root),
            Err(AllocError) => Err(TapEnd::NoMemory),
        },
        Err(DigitsFault::Malformed) => Err(TapEnd::BadRoot),
        Err(DigitsFault::NoMemory) => Err(TapEnd::NoMemory),
    }
}

/// The root's handle as the words give it. What is wrong with them is said on standard error.
fn handle_of<R: RecordingRuntime>(rt: &R, text: &str) -> Result<FileHandle, TapEnd> {
    let root = read_root(rt.alloc(), text);
    if matches!(root, Err(TapEnd::BadRoot)) {
        let _ = eprintln!(rt;
            "--root takes at most 64 bytes in hexadecimal: two digits each, of 0 to 9 and a to f"
        );
    } else if text.is_empty() {
        let _ = eprintln!(rt; "the root's handle has no byte: is --root empty by mistake?");
    }
    root
}

/// The root's handle as a MOUNT service tells it. Why it doesn't is said on standard error.
fn mounted_root<R: RecordingRuntime>(
    rt: &R,
    server: &SocketAddr,
    export: &str,
) -> Result<FileHandle, TapEnd> {
    let patience = Duration::from_secs(MOUNT_SECONDS);
    match mount(rt, server, export.as_bytes(), WHO, patience) {
        Ok(root) => Ok(root),
        Err(MountFault::NoMemory) => Err(TapEnd::NoMemory),
        Err(fault) => {
            let _ = rt.eprintln(fault);
            Err(TapEnd::CannotMount)
        }
    }
}

/// The handle of the export's root, which the words give or the MOUNT service tells.
pub(crate) fn root_of<R: RecordingRuntime>(
    rt: &R,
    words: RootWords<'_>,
) -> Result<FileHandle, TapEnd> {
    match words {
        RootWords::Handle(text) => handle_of(rt, text),
        RootWords::Mounted(server, export) => mounted_root(rt, &server, export),
    }
}
