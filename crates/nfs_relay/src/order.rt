//! What whoever records has to say, line by line.

ghost use Rattle.std.specs.Prelude.{◌≡◌, ◌≢◌, ◌++◌, ◌∷◌, [], ◌↔◌, IfOk, OnOk, OnErr, IsTrue, Some, take, codes};

use std::alloc::{AllocError, Global};
use std::marker::Model;

/// The line that tells of a crash.
const CRASH: &[u8] = b"crash";

/// The line that tells that the server was started again.
const UP: &[u8] = b"up";

/// The line that ends the recording.
const END: &[u8] = b"end";

/// What a line says.
#[derive(Clone, Copy)]
pub enum Order {
    /// The server went down.
    Crash,
    /// The server was started again. A recorder needs no word of that.
    Up,
    /// The recording is to end.
    End,
    /// Another line, which isn't empty.
    Unknown,
}

/// Reads lines, a byte at a time. Contracts see it as the front of the line that has begun, of six bytes at most.
#[derive(Drop)]
pub struct OrderReader {
    line: Vec<u8>,
}

impl Model for OrderReader {
    ghost use Rattle.std.specs.Prelude.{ℕ, List, ◌≤◌, length};

    ghost Value = { List ℕ };

    ghost view = { λ reader. reader.line.items };

    ghost invariant = { λ reader. length reader.line.items ≤ 6 };
}

impl OrderReader {
    /// At the beginning of a line.
    pub fn new(alloc: Global) -> OrderReader
        ensures { result ≡ [] }
    {
        OrderReader {
            line: Vec::new(alloc),
        }
    }

    /// Takes a byte, and says what the line is where it ends with it.
    pub fn take(&mut self, byte: u8) -> Result<Option<Order>, AllocError>
        ensures crash { IfOk result (λ order. (order ≡ Some Order.Crash) ↔ ((byte ≡ 10) × (self.old ≡ codes "crash"))) }
        ensures up { IfOk result (λ order. (order ≡ Some Order.Up) ↔ ((byte ≡ 10) × (self.old ≡ codes "up"))) }
        ensures end { IfOk result (λ order. (order ≡ Some Order.End) ↔ ((byte ≡ 10) × (self.old ≡ codes "end"))) }
        ensures unknown { IfOk result (λ order. (order ≡ Some Order.Unknown)
            ↔ ((byte ≡ 10) × (self.old ≢ []) × (self.old ≢ codes "crash") × (self.old ≢ codes "up") × (self.old ≢ codes "end"))) }
        ensures begun { OnOk result (byte ≡ 10 → self.new ≡ []) }
        ensures line { OnOk result (byte ≢ 10 → self.new ≡ take 6 (self.old ++ byte ∷ [])) }
        ensures kept { OnErr result (self.new ≡ self.old) }
    {
        if byte == b'\n' {
            let order = order_of(self.line.as_slice());
            self.line.clear();
            return Ok(order);
        }
        if self.line.len() < 6 {
            self.line.push(byte)?;
        }
        Ok(None)
    }

    /// Whether a line has begun.
    pub fn is_amid_line(&self) -> bool
        ensures { IsTrue result ↔ (self.now ≢ []) }
    {
        !self.line.is_empty()
    }
}

/// What a line says, of which this is the front.
fn order_of(line: &[u8]) -> Option<Order>
    ensures crash { (result ≡ Some Order.Crash) ↔ (line.now ≡ codes "crash") }
    ensures up { (result ≡ Some Order.Up) ↔ (line.now ≡ codes "up") }
    ensures end { (result ≡ Some Order.End) ↔ (line.now ≡ codes "end") }
    ensures unknown { (result ≡ Some Order.Unknown)
        ↔ ((line.now ≢ []) × (line.now ≢ codes "crash") × (line.now ≢ codes "up") × (line.now ≢ codes "end")) }
{
    if line.is_empty() {
        return None;
    }
    if line == CRASH {
        return Some(Order::Crash);
    }
    if line == UP {
        return Some(Order::Up);
    }
    if line == END {
        return Some(Order::End);
    }
    Some(Order::Unknown)
}
