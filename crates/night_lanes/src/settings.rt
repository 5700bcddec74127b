//! What the clients of a night are told.

ghost use Rattle.std.specs.Prelude.{◌≡◌, ◌≤◌, ◌⊎◌, ◌<◌, ◌*◌, max, MatchOption};
ghost use Rattle.std.specs.Duration.{as_nanos};

use rpc_client::Credential;
use std::net::SocketAddr;
use std::time::{Duration, Instant};

/// How many calls of a client may be on their way: 1 to 64.
#[derive(Clone, Copy)]
pub struct Depth {
    calls: u32,
    ghost allowed: { (1 ≤ calls) × (calls ≤ 64) },
}

impl Depth {
    /// This number of calls, if it is allowed.
    pub fn new(calls: u32) -> Option<Depth>
        ensures { MatchOption result ((calls < 1) ⊎ (64 < calls)) (λ depth. depth.calls ≡ calls) }
    {
        if calls == 0 || calls > 64 {
            return None;
        }
        Some(Depth { calls })
    }

    /// How many.
    pub fn calls(self) -> u32
        ensures is { result ≡ self.calls }
        ensures allowed { (1 ≤ result) × (result ≤ 64) }
    {
        self.calls
    }
}

/// How the clients of a night call.
#[derive(Clone, Copy)]
pub struct Settings {
    pub server: SocketAddr,
    pub depth: Depth,
    /// How many seconds a reply may take; 0 is taken for 1.
    pub reply_seconds: u32,
    pub credential: Credential,
    /// How many bytes of the history's file are taken by what the server held at first.
    pub reserved: usize,
}

impl Settings {
    /// How long a reply may take.
    pub fn patience(&self) -> Duration
        ensures { as_nanos result ≡ max self.now.reply_seconds 1 * 1_000_000_000 }
    {
        Duration::from_secs(u64::from(self.reply_seconds.max(1)))
    }
}

/// How much each client calls in an era: at most this number of calls, and none after this moment.
#[derive(Clone, Copy)]
pub struct Quota {
    pub calls: u64,
    pub until: Option<Instant>,
}
