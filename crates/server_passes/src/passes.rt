//! What clients know of what was asked and answered.

ghost use Rattle.std.specs.Prelude.{◌≡◌, ◌++◌, ◌∷◌, [], ◌≤◌, ◌+◌, ◌↔◌, IsTrue, IfOk, OnOk, OnErr};

use std::alloc::{AllocError, Global};
use std::marker::Model;

/// One recorded call of a pass, and the reply that it was given: both as they went over the wire, without record marking.
pub struct Exchange {
    message: Vec<u8>,
    reply: Vec<u8>,
}

impl Drop for Exchange {
    fn drop(self) {
        let Exchange { message, reply } = self;
        drop(message);
        drop(reply);
    }
}

impl Model for Exchange {
    ghost use Rattle.server_passes.specs.PassValue.{ExchangeValue};

    ghost Value = { ExchangeValue };

    ghost view = { λ e. record { message = e.message.items; reply = e.reply.items } };
}

impl Exchange {
    /// The exchange of this call's message and this reply.
    pub fn new(message: Vec<u8>, reply: Vec<u8>) -> Exchange
        ensures { result ≡ record { message = message.items; reply = reply.items } }
    {
        Exchange { message, reply }
    }

    /// The exchange of copies of these bytes.
    pub fn from_slices(alloc: Global, message: &[u8], reply: &[u8]) -> Result<Exchange, AllocError>
        ensures { IfOk result (λ exchange. exchange ≡ record { message = message.now; reply = reply.now }) }
    {
        let message = Vec::from_slice(alloc, message)?;
        let reply = Vec::from_slice(alloc, reply)?;
        Ok(Exchange::new(message, reply))
    }

    /// The message of the call.
    pub fn message(&self) -> &[u8]
        ensures { result.now ≡ self.now.message }
    {
        self.message.as_slice()
    }

    /// The message of its reply.
    pub fn reply(&self) -> &[u8]
        ensures { result.now ≡ self.now.reply }
    {
        self.reply.as_slice()
    }
}

/// What one client knows: its lane, and its answered calls in order.
pub struct Pass {
    lane: u32,
    exchanges: Vec<Exchange>,
}

impl Drop for Pass {
    fn drop(self) {
        let Pass { lane: _, exchanges } = self;
        drop(exchanges);
    }
}

impl Model for Pass {
    ghost use Rattle.std.specs.Prelude.{◌-◌, vec_len, vec_capacity};
    ghost use Rattle.server_passes.specs.PassValue.{PassValue};

    ghost Value = { PassValue };

    ghost view = { λ p. record { lane = p.lane; exchanges = p.exchanges.items; room = vec_capacity p.exchanges - vec_len p.exchanges } };
}

impl Pass {
    /// The pass of a client that knows of no answered call.
    pub fn new(alloc: Global, lane: u32) -> Pass
        ensures lane { result.lane ≡ lane }
        ensures none { result.exchanges ≡ [] }
    {
        Pass {
            lane,
            exchanges: Vec::new(alloc),
        }
    }

    /// The lane on which it sent its calls.
    pub fn lane(&self) -> u32
        ensures { result ≡ self.now.lane }
    {
        self.lane
    }

    /// Its answered calls, in the order in which they were noted.
    pub fn exchanges(&self) -> &[Exchange]
        ensures { result.now ≡ self.now.exchanges }
    {
        self.exchanges.as_slice()
    }

    /// Sets room aside for one exchange.
    pub fn reserve(&mut self) -> Result<(), AllocError>
        ensures room { OnOk result (1 ≤ self.new.room) }
        ensures lane { self.new.lane ≡ self.old.lane }
        ensures exchanges { self.new.exchanges ≡ self.old.exchanges }
        // Else it stays as it was.
        ensures kept { OnErr result (self.new ≡ self.old) }
    {
        self.exchanges.reserve(1)
    }

    /// Whether there is room for one.
    pub fn has_room(&self) -> bool
        ensures { IsTrue result ↔ (1 ≤ self.now.room) }
    {
        self.exchanges.len() < self.exchanges.capacity()
    }

    /// Puts an exchange behind the others, where room was set aside.
    pub fn push_reserved(&mut self, exchange: Exchange)
        requires { 1 ≤ self.old.room }
        ensures lane { self.new.lane ≡ self.old.lane }
        ensures behind { self.new.exchanges ≡ self.old.exchanges ++ exchange ∷ [] }
        ensures room { self.old.room ≤ self.new.room + 1 }
    {
        self.exchanges.push(exchange).unwrap();
    }

    /// Puts an exchange behind the others.
    pub fn note(&mut self, message: Vec<u8>, reply: Vec<u8>) -> Result<(), AllocError>
        ensures lane { self.new.lane ≡ self.old.lane }
        ensures behind { OnOk result (self.new.exchanges ≡ self.old.exchanges ++ record { message = message.items; reply = reply.items } ∷ []) }
        ensures kept { OnErr result (self.new ≡ self.old) }
    {
        self.reserve()?;
        self.push_reserved(Exchange::new(message, reply));
        Ok(())
    }
}
