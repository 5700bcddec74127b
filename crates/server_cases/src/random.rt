//! Numbers that look as if they came by chance.

ghost use Rattle.std.specs.Prelude.{◌≤◌};

/// Gives the same numbers for the same seed (splitmix64).
#[derive(Clone, Copy)]
pub struct Random {
    state: u64,
}

impl Random {
    /// From this seed on.
    pub fn new(seed: u64) -> Random {
        Random { state: seed }
    }

    /// The next number, below the bound, or 0.
    pub fn below(&mut self, bound: u64) -> u64
        ensures { result ≤ bound }
    {
        self.state = self.state.wrapping_add(0x9e37_79b9_7f4a_7c15);
        let first = (self.state ^ (self.state >> 30)).wrapping_mul(0xbf58_476d_1ce4_e5b9);
        let second = (first ^ (first >> 27)).wrapping_mul(0x94d0_49bb_1331_11eb);
        if bound == 0 {
            0
        } else {
            (second ^ (second >> 31)) % bound
        }
    }
}
