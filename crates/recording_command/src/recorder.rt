//! What a recording is made by, and what its orders do.

use crate::guard::Guard;
use crate::refusals::Refusals;
use crate::saving::Beginning;
use nfs_relay::{Order, OrderReader, Relay, RelayRuntime};
use std::alloc::AllocError;
use std::thread;
use std::time::Duration;

/// How many milliseconds an order waits for memory before it is tried again, and how often it is.
const PAUSE: u64 = 20;

const TRIES: u32 = 500;

/// What a recording is made by.
#[derive(Drop)]
pub(crate) struct Recorder {
    pub(crate) relay: Relay,
    /// What the server held at first, if it is told.
    pub(crate) beginning: Option<Beginning>,
    /// A connection of its own to the server.
    pub(crate) guard: Guard,
    /// The calls that have the history refused.
    pub(crate) refusals: Refusals,
}

impl Recorder {
    /// The server is said to have gone down.
    pub(crate) fn crash<R: RelayRuntime>(&self, rt: &R) {
        self.guard.take_crash(rt);
        self.relay.crash(rt);
    }

    /// Takes a byte of the orders. Where there is no memory for it, it waits, so that no order is lost; but one that came late may be noted
    /// behind what came about later, so it counts as missed.
    pub(crate) fn take_byte<R: RelayRuntime>(
        &self,
        rt: &R,
        orders: &mut OrderReader,
        byte: u8,
    ) -> Result<Option<Order>, AllocError> {
        if let Ok(order) = orders.take(byte) {
            return Ok(order);
        }
        self.relay.miss_order(rt);
        let _ = eprintln!(rt; "an order waits: out of memory");
        for _try in 0..TRIES {
            thread::sleep(rt, Duration::from_millis(PAUSE));
            if let Ok(order) = orders.take(byte) {
                return Ok(order);
            }
        }
        Err(AllocError)
    }
}

/// Says that the last order has no end, which may be a part of one.
pub(crate) fn tell_unfinished<R: RelayRuntime>(rt: &R, relay: &Relay, orders: &OrderReader) {
    if orders.is_amid_line() {
        relay.miss_order(rt);
        let _ = eprintln!(rt; "the last order isn't done: it has no line feed");
    }
}

/// Says that the orders can't be read any more.
pub(crate) fn tell_unreadable<R: RelayRuntime>(rt: &R, relay: &Relay) {
    relay.miss_order(rt);
    let _ = eprintln!(rt; "the orders can't be read any more");
}
