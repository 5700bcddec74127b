//! Numbers that look as if they came by chance.

ghost use Rattle.std.specs.Prelude.{◌<◌, ◌≤◌};

/// Gives the same numbers for the same seed (splitmix64).
#[derive(Clone, Copy)]
pub struct Random {
    state: u64,
}

impl Random {
    /// Those of one client in a night.
    pub fn new(seed: u64, client: u32) -> Random {
        let mut random = Random { state: seed };
        let spread = random.next();
        Random {
            state: spread.wrapping_add(u64::from(client).wrapping_mul(0xd134_2543_de82_ef95)),
        }
    }

    /// The next number.
    fn next(&mut self) -> u64 {
        self.state = self.state.wrapping_add(0x9e37_79b9_7f4a_7c15);
        let first = (self.state ^ (self.state >> 30)).wrapping_mul(0xbf58_476d_1ce4_e5b9);
        let second = (first ^ (first >> 27)).wrapping_mul(0x94d0_49bb_1331_11eb);
        second ^ (second >> 31)
    }

    /// The next number, below the bound, or 0.
    pub fn below(&mut self, bound: u64) -> u64
        ensures within { result ≤ bound }
        ensures below { 0 < bound → result < bound }
    {
        if bound == 0 { 0 } else { self.next() % bound }
    }

    /// The next number of 32 bits, below the bound, or 0.
    pub fn small(&mut self, bound: u32) -> u32
        ensures within { result ≤ bound }
        ensures below { 0 < bound → result < bound }
    {
        self.below(u64::from(bound)) as u32
    }

    /// Whether what comes once in so many times comes now.
    pub fn once_in(&mut self, times: u64) -> bool {
        self.below(times) == 0
    }
}
