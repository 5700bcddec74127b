//! What ends a recording, beside its connections and standard input.

use crate::guard::is_past;
use crate::recorder::{Recorder, tell_unfinished, tell_unreadable};
use crate::runtime::RecordingRuntime;
use crate::tap_words::EndWords;
use nfs_relay::{Order, OrderReader, Relay};
use program_streams::READ_SIZE;
use std::alloc::AllocError;
use std::fs::File;
use std::io::{ErrorKind, Read, Seek, SeekFrom};
use std::thread;
use std::time::{Duration, Instant};

/// How many milliseconds are between two looks.
const PAUSE: u64 = 20;

/// Does what the lines say of which the bytes are a piece. Whether the recording is to end.
fn take_orders<R: RecordingRuntime>(
    rt: &R,
    recorder: &Recorder,
    orders: &mut OrderReader,
    bytes: &[u8],
) -> Result<bool, AllocError> {
    for byte in bytes {
        match recorder.take_byte(rt, orders, *byte)? {
            Some(Order::Crash) => recorder.crash(rt),
            Some(Order::End) => return Ok(true),
            Some(Order::Up | Order::Unknown) => {
                recorder.relay.miss_order(rt);
                let _ = eprintln!(rt; "an order is unknown: crash and end are known");
            }
            None => {}
        }
    }
    Ok(false)
}

/// A file of orders that is read as it grows, from where it ends when the recording begins.
#[derive(Drop)]
pub(crate) struct OrderFile {
    file: File,
    /// How many bytes of it were there, or are read.
    read: u64,
}

impl OrderFile {
    /// The file at a path; why it can't be opened is said on standard error. What it has by now isn't of this recording.
    pub(crate) fn open<R: RecordingRuntime>(rt: &R, path: &str) -> Option<OrderFile> {
        let mut file = match File::open(rt, path) {
            Ok(file) => file,
            Err(error) => {
                let _ = eprintln!(rt; "nfsbench: {path}: {error}");
                return None;
            }
        };
        let read = file.seek(SeekFrom::End(0)).unwrap_or(0);
        if read > 0 {
            let _ = eprintln!(rt;
                "the orders had {read} bytes before the recording began, which aren't read"
            );
        }
        Some(OrderFile { file, read })
    }

    /// Whether it has fewer bytes than were read: it was written over. It is read from its beginning then.
    fn is_written_over(&mut self) -> bool {
        let is_shorter =
            matches!(self.file.metadata(), Ok(known) if known.is_file() && known.len() < self.read);
        if is_shorter {
            let _ = self.file.seek(SeekFrom::Start(0));
            self.read = 0;
        }
        is_shorter
    }
}

/// What the orders are read with.
#[derive(Drop)]
struct Orders {
    file: Option<OrderFile>,
    reader: OrderReader,
    buffer: Vec<u8>,
}

impl Orders {
    /// Does what was written since. Whether the recording is to end.
    fn look<R: RecordingRuntime>(
        &mut self,
        rt: &R,
        recorder: &Recorder,
    ) -> Result<bool, AllocError> {
        let Some(orders) = self.file.as_mut() else {
            return Ok(false);
        };
        if orders.is_written_over() {
            recorder.relay.miss_order(rt);
            let _ = eprintln!(rt; "the orders were written over: append to them, by >>");
        }
        match orders.file.read(self.buffer.as_mut_slice()) {
            Ok(count) => {
                orders.read = orders.read.saturating_add(count as u64);
                let bytes = self.buffer.get(..count).unwrap_or(&[]);
                take_orders(rt, recorder, &mut self.reader, bytes)
            }
            Err(error) if error.kind() == ErrorKind::Interrupted => Ok(false),
            Err(_) => {
                self.file = None;
                tell_unreadable(rt, &recorder.relay);
                Ok(false)
            }
        }
    }
}

/// Since when nothing was noted.
#[derive(Clone, Copy)]
struct Idle {
    events: usize,
    since: Option<Instant>,
}

impl Idle {
    /// Whether nothing was noted for so many seconds.
    fn is_long<R: RecordingRuntime>(
        &mut self,
        rt: &R,
        relay: &Relay,
        seconds: Option<u32>,
    ) -> bool {
        let events = relay.log().lock(rt).events().len();
        if events != self.events {
            *self = Idle {
                events,
                since: Instant::now(rt).ok(),
            };
        }
        is_past(rt, self.since, seconds)
    }
}

/// Waits until one of the ends comes, or the relay has ended.
pub(crate) fn await_end<R: RecordingRuntime>(
    rt: &R,
    recorder: &Recorder,
    ends: &EndWords<'_>,
    orders: Option<OrderFile>,
) -> Result<(), AllocError> {
    let begun = Instant::now(rt).ok();
    let relay = &recorder.relay;
    let mut idle = Idle {
        events: 0,
        since: begun,
    };
    let mut orders = Orders {
        file: orders,
        reader: OrderReader::new(rt.alloc()),
        buffer: vec![in rt.alloc(); 0; READ_SIZE]?,
    };
    for _ in rt.forever() {
        let is_over = relay.has_ended(rt)
            || orders.look(rt, recorder)?
            || is_past(rt, begun, ends.seconds)
            || idle.is_long(rt, relay, ends.idle);
        if is_over {
            break;
        }
        thread::sleep(rt, Duration::from_millis(PAUSE));
    }
    tell_unfinished(rt, relay, &orders.reader);
    Ok(())
}
