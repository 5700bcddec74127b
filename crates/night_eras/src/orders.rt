//! The orders of whoever kills the server and starts it again, one a line: `crash` and `up`, in turn.

use nfs_relay::{Order, OrderReader};
use night_verdict::NightEnd;
use program_streams::Input;
use std::alloc::{AllocError, Global};
use std::io::ErrorKind;
use std::sync::Wait;
use std::thread;
use std::thread::Threads;
use std::time::{Clock, Duration, Instant};

/// How many bytes are read at a time.
const PIECE: usize = 256;

/// How many milliseconds are between two looks at a file that may grow.
const PAUSE: u64 = 20;

/// How often an input is looked at behind the last order at most.
const LOOKS: u32 = 1_000_000;

/// Where orders come from. They are read one at a time, as they are due.
#[derive(Drop)]
pub struct Orders {
    /// Whether the input may go on after its end, as a file does that is written to.
    may_grow: bool,
    /// How many seconds an order may take, if that is limited.
    seconds: Option<u32>,
    /// Whether a read of the input never waits, as one of a regular file.
    never_waits: bool,
    reader: OrderReader,
    buffer: Vec<u8>,
    /// What of the buffer was read and not yet taken.
    from: usize,
    to: usize,
}

/// What comes of one look at the input.
enum Look {
    Order(Order),
    /// The input has no more bytes now.
    End,
    /// There may be more.
    More,
}

impl Orders {
    /// The orders of an input that nothing was read of. One that may grow is a file that is written to.
    pub fn new(alloc: Global, may_grow: bool, seconds: Option<u32>) -> Result<Orders, AllocError> {
        Ok(Orders {
            may_grow,
            seconds,
            never_waits: false,
            reader: OrderReader::new(alloc),
            buffer: vec![in alloc; 0; PIECE]?,
            from: 0,
            to: 0,
        })
    }

    /// The same, of an input of which no read waits, as of a regular file. So it is looked at behind the last order too.
    pub fn from_file(alloc: Global, seconds: u32) -> Result<Orders, AllocError> {
        let mut orders = Orders::new(alloc, true, Some(seconds))?;
        orders.never_waits = true;
        Ok(orders)
    }

    /// The next order in the bytes that were read.
    fn take(&mut self) -> Result<Option<Order>, AllocError> {
        let (from, to) = (self.from, self.to);
        for index in from..to {
            self.from = index.saturating_add(1);
            let Some(byte) = self.buffer.get(index) else {
                break;
            };
            if let Some(order) = self.reader.take(*byte)? {
                return Ok(Some(order));
            }
        }
        Ok(None)
    }

    /// Takes the next order, or reads a piece.
    fn look<I: Input>(&mut self, input: &mut I, crash: u32) -> Result<Look, NightEnd> {
        if let Some(order) = self.look_back()? {
            return Ok(Look::Order(order));
        }
        match input.read(self.buffer.as_mut_slice()) {
            Ok(0) => Ok(Look::End),
            Ok(count) => {
                self.from = 0;
                self.to = count;
                Ok(Look::More)
            }
            Err(error) if error.kind() == ErrorKind::Interrupted => Ok(Look::More),
            Err(_) => Err(NightEnd::Unreadable(crash)),
        }
    }

    /// Takes the next order of those that were read. Nothing is read.
    fn look_back(&mut self) -> Result<Option<Order>, NightEnd> {
        match self.take() {
            Ok(order) => Ok(order),
            Err(AllocError) => Err(NightEnd::NoMemory),
        }
    }

    /// Why no order comes, where the input is at its end now; or nothing, where it may go on.
    fn end_at<R: Wait + Clock + Threads>(
        &self,
        rt: &R,
        crash: u32,
        since: Option<Instant>,
    ) -> Option<NightEnd> {
        if !self.may_grow {
            return Some(NightEnd::OrdersEnded(crash));
        }
        let seconds = self.seconds?;
        match (since, Instant::now(rt)) {
            (Some(since), Ok(now))
                if now.duration_since(since) < Duration::from_secs(u64::from(seconds)) => None,
            _ => Some(NightEnd::NoOrder(crash, seconds)),
        }
    }

    /// Waits for the order that is due at the crash of this number.
    pub(crate) fn await_order<R: Wait + Clock + Threads, I: Input>(
        &mut self,
        rt: &R,
        input: &mut I,
        due: Order,
        crash: u32,
    ) -> Result<(), NightEnd> {
        let since = Instant::now(rt).ok();
        for _ in rt.forever() {
            match self.look(input, crash)? {
                Look::Order(order) if order == due => return Ok(()),
                Look::Order(_) => return Err(NightEnd::OtherOrder(crash)),
                Look::More => {}
                Look::End => {
                    if let Some(end) = self.end_at(rt, crash, since) {
                        return Err(end);
                    }
                    thread::sleep(rt, Duration::from_millis(PAUSE));
                }
            }
        }
        unreachable!()
    }

    /// Whether another order is there behind the last one, as far as a look doesn't wait: of an input that may wait only what was read already
    /// is looked at.
    fn has_more<I: Input>(&mut self, input: &mut I, crash: u32) -> Result<bool, NightEnd> {
        if !self.never_waits {
            return Ok(self.look_back()?.is_some());
        }
        for _ in 0..LOOKS {
            match self.look(input, crash)? {
                Look::Order(_) => return Ok(true),
                Look::More => {}
                Look::End => return Ok(false),
            }
        }
        Ok(true)
    }

    /// How a night of so many crashes ends, whose last era is over: whole, unless another order came.
    pub(crate) fn end_after<I: Input>(&mut self, input: &mut I, crashes: u32) -> NightEnd {
        if crashes == 0 {
            return NightEnd::Whole;
        }
        match self.has_more(input, crashes) {
            Ok(false) => NightEnd::Whole,
            Ok(true) => NightEnd::MoreOrders(crashes),
            Err(end) => end,
        }
    }
}
