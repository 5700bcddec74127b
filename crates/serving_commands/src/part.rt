//! What a server recorded, on disk while it serves: whatever ends the process, it can be read.

use crate::lanes::SimServer;
use nfs_relay::RelayRuntime;
use recording_command::{Part, RecordingRuntime};
use std::sync::atomic::{AtomicBool, Ordering};
use std::thread;
use std::time::Duration;

/// How many milliseconds are between two looks at what was recorded.
const PAUSE: u64 = 100;

/// The file that grows beside a history, which begins with these bytes. Where it can't be made, that is said, and the server serves.
pub(crate) fn make_part<R: RecordingRuntime>(rt: &R, path: &str, head: &[u8]) -> Option<Part> {
    match Part::make(rt, path, head) {
        Ok(part) => Some(part),
        Err(_) => {
            let _ = eprintln!(rt;
                "what is recorded isn't kept on disk meanwhile: {path} can't be written"
            );
            None
        }
    }
}

/// Appends what was recorded since. Whether that could be done.
fn catch_up<R: RelayRuntime>(rt: &R, server: &SimServer, part: &mut Part) -> bool {
    for _ in rt.forever() {
        let from = part.events();
        let count = match server.put_events(rt, part.text(), from) {
            Ok(0) => return true,
            Ok(count) => count,
            Err(_) => return false,
        };
        if part.append(count).is_err() {
            return false;
        }
    }
    unreachable!()
}

/// Appends what is recorded, until the connections have ended and each event is there. Where it can't, it is said, and the server serves.
pub(crate) fn follow<R: RelayRuntime>(
    rt: &R,
    server: &SimServer,
    mut part: Part,
    has_ended: &AtomicBool,
) {
    for _ in rt.forever() {
        let is_last = has_ended.load(Ordering::SeqCst);
        if !catch_up(rt, server, &mut part) {
            let _ = eprintln!(rt; "what is recorded isn't kept on disk any more: a write failed");
            return;
        }
        if is_last {
            return;
        }
        thread::sleep(rt, Duration::from_millis(PAUSE));
    }
}
