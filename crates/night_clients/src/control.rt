//! What the threads of a night share beside its log: which era runs, and which lanes were given.

ghost use Rattle.std.specs.Prelude.{◌≡◌, ◌≢◌, ◌<◌, ◌+◌, ◌-◌, ◌↔◌, true, false, IsTrue, IsSome, IfSome, IfNone};

/// Which era runs, and which lanes were given.
#[derive(Drop)]
pub(crate) struct Control {
    /// How many lanes were given.
    lanes: u32,
    /// How many clients of the era haven't ended.
    running: usize,
    /// How often the server went down.
    era: u64,
    /// Whether the clients of the era that ended are being ended.
    is_crashing: bool,
}

impl Control {
    /// No lane was given.
    pub(crate) fn new() -> Control
        ensures { (result.lanes ≡ 0) × (result.running ≡ 0) × (result.era ≡ 0) × (result.is_crashing ≡ false) }
    {
        Control {
            lanes: 0,
            running: 0,
            era: 0,
            is_crashing: false,
        }
    }

    /// This number of clients begin; their era.
    pub(crate) fn begin(&mut self, clients: usize) -> u64
        ensures { (result ≡ self.old.era) × (self.new ≡ record self.old { running = clients }) }
    {
        self.running = clients;
        self.era
    }

    /// Gives a client of an era the next lane, if that era runs.
    pub(crate) fn take_lane(&mut self, era: u64) -> Option<u32>
        // No lane is given twice.
        ensures next { IfSome result (λ lane. (lane ≡ self.old.lanes + 1) × (self.new ≡ record self.old { lanes = lane })) }
        ensures may { IsSome result → self.old.era ≡ era }
        ensures gives { self.old.era ≡ era → self.old.lanes < 4294967295 → IsSome result }
        ensures kept { IfNone result (self.new ≡ self.old) }
    {
        if self.era != era || self.lanes == u32::MAX {
            return None;
        }
        self.lanes += 1;
        Some(self.lanes)
    }

    /// A client of the era ended.
    pub(crate) fn leave(&mut self)
        ensures { self.new ≡ record self.old { running = self.old.running - 1 } }
    {
        self.running = self.running.saturating_sub(1);
    }

    /// The server went down: the era's clients end, and no lane is given to them.
    pub(crate) fn begin_crash(&mut self) -> u64
        ensures { (result ≢ self.old.era) × (self.new ≡ record self.old { era = result; is_crashing = true }) }
    {
        self.era = self.era.wrapping_add(1);
        self.is_crashing = true;
        self.era
    }

    /// The crash is noted.
    pub(crate) fn end_crash(&mut self)
        ensures { self.new ≡ record self.old { is_crashing = false } }
    {
        self.is_crashing = false;
    }

    /// Whether an era runs.
    pub(crate) fn runs(&self, era: u64) -> bool
        ensures { IsTrue result ↔ (self.now.era ≡ era) }
    {
        self.era == era
    }

    pub(crate) fn running(&self) -> usize
        ensures { result ≡ self.now.running }
    {
        self.running
    }

    pub(crate) fn is_crashing(&self) -> bool
        ensures { result ≡ self.now.is_crashing }
    {
        self.is_crashing
    }
}
