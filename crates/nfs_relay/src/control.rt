//! What the threads of a relay share beside its log: which connections may come, and why no more do.

ghost use Rattle.std.specs.Prelude.{◌≡◌, ◌≢◌, ◌+◌, ◌-◌, ◌<◌, ◌≤◌, ◌⊎◌, ◌↔◌, Some, None, IsTrue, IfSome, IfNone, IsSome, true, false};
ghost use Rattle.std.specs.Option.{option_map, option_or};

/// How many connections may be open at once.
const OPEN_LIMIT: u32 = 1_024;

/// Why a relay takes no more connections, and ends those that it has.
#[derive(Clone, Copy)]
pub enum Halt {
    /// It was told to.
    Told,
    /// The log has no room for a record within the limits of a history's file.
    LogFull,
    /// Memory ran out.
    NoMemory,
    /// The server couldn't be reached.
    CannotConnect,
    /// A thread couldn't be made.
    NoThread,
}

/// A connection's number, and in which era of the server it is.
#[derive(Clone, Copy)]
pub(crate) struct Lane {
    pub(crate) number: u32,
    pub(crate) era: u64,
}

/// What becomes of a connection that comes.
#[derive(Clone, Copy)]
pub(crate) enum Admission {
    Admitted,
    /// Too many are open.
    Refused,
    /// No more are taken.
    Over,
}

/// Which connections there are and may be.
#[derive(Drop)]
pub(crate) struct Control {
    /// How many lanes were given.
    lanes: u32,
    /// How many of them are relayed now.
    relayed: u32,
    /// How many connections came and haven't ended.
    present: u32,
    /// How many more may come, where that is limited.
    left: Option<u32>,
    /// How often the server went down.
    era: u64,
    /// Whether the connections of the era that ended are being ended.
    is_crashing: bool,
    halt: Option<Halt>,
    // No more are relayed than lanes were given.
    ghost given: { relayed ≤ lanes },
}

impl Control {
    /// No connection has come, and so many may.
    pub(crate) fn new(left: Option<u32>) -> Control
        ensures lanes { (result.lanes ≡ 0) × (result.relayed ≡ 0) × (result.present ≡ 0) }
        ensures left { (result.left ≡ left) × (result.halt ≡ None) }
    {
        Control {
            lanes: 0,
            relayed: 0,
            present: 0,
            left,
            era: 0,
            is_crashing: false,
            halt: None,
        }
    }

    /// Whether no more connections are taken.
    pub(crate) fn is_over(&self) -> bool
        ensures { IsTrue result ↔ ((self.now.halt ≢ None) ⊎ (self.now.left ≡ Some 0)) }
    {
        self.halt.is_some() || self.left == Some(0)
    }

    /// Takes a connection that came, if it may.
    pub(crate) fn admit(&mut self) -> Admission
        ensures admitted { result ≡ Admission.Admitted → (self.old.halt ≡ None) × (self.old.left ≢ Some 0) × (self.old.present < 1024)
            × (self.new.present ≡ self.old.present + 1) × (self.new.left ≡ option_map (λ n. n - 1) self.old.left) }
        ensures refused { result ≢ Admission.Admitted
            → (self.new.present ≡ self.old.present) × (self.new.left ≡ self.old.left) }
        ensures lanes { (self.new.lanes ≡ self.old.lanes) × (self.new.relayed ≡ self.old.relayed) }
        ensures halt { self.new.halt ≡ self.old.halt }
        ensures era { (self.new.era ≡ self.old.era) × (self.new.is_crashing ≡ self.old.is_crashing) }
        // One that may come is taken.
        ensures over { (self.old.halt ≢ None) ⊎ (self.old.left ≡ Some 0) → result ≡ Admission.Over }
        ensures taken { self.old.halt ≡ None → self.old.left ≢ Some 0 → self.old.present < 1024 → result ≡ Admission.Admitted }
    {
        if self.is_over() {
            return Admission::Over;
        }
        if self.present >= OPEN_LIMIT {
            return Admission::Refused;
        }
        self.present += 1;
        self.left = match self.left {
            Some(left) => Some(left.saturating_sub(1)),
            None => None,
        };
        Admission::Admitted
    }

    /// A connection that was taken ended.
    pub(crate) fn leave(&mut self)
        ensures present { self.new.present ≡ self.old.present - 1 }
        ensures lanes { (self.new.lanes ≡ self.old.lanes) × (self.new.relayed ≡ self.old.relayed) }
        ensures halt { (self.new.left ≡ self.old.left) × (self.new.halt ≡ self.old.halt) }
        ensures era { (self.new.era ≡ self.old.era) × (self.new.is_crashing ≡ self.old.is_crashing) }
    {
        self.present = self.present.saturating_sub(1);
    }

    /// Gives a connection the next lane, unless no more are relayed.
    pub(crate) fn take_lane(&mut self) -> Option<Lane>
        // No lane is given twice.
        ensures next { IfSome result (λ lane. (lane.number ≡ self.old.lanes + 1) × (self.new.lanes ≡ lane.number)) }
        ensures relayed { IfSome result (λ lane. (self.new.relayed ≡ self.old.relayed + 1) × (lane.era ≡ self.old.era)) }
        ensures may { IsSome result → (self.old.halt ≡ None) × (self.old.is_crashing ≡ false) }
        ensures kept { IfNone result ((self.new.lanes ≡ self.old.lanes) × (self.new.relayed ≡ self.old.relayed)) }
        ensures halt { (self.new.left ≡ self.old.left) × (self.new.halt ≡ self.old.halt) × (self.new.present ≡ self.old.present) }
        ensures era { (self.new.era ≡ self.old.era) × (self.new.is_crashing ≡ self.old.is_crashing) }
        // Where one may be given, it is.
        ensures gives { self.old.halt ≡ None → self.old.is_crashing ≡ false → self.old.lanes < 4294967295 → IsSome result }
    {
        if self.halt.is_some() || self.is_crashing || self.lanes == u32::MAX {
            return None;
        }
        self.lanes += 1;
        self.relayed += 1;
        Some(Lane {
            number: self.lanes,
            era: self.era,
        })
    }

    /// A lane ended.
    pub(crate) fn leave_lane(&mut self)
        ensures relayed { self.new.relayed ≡ self.old.relayed - 1 }
        ensures lanes { (self.new.lanes ≡ self.old.lanes) × (self.new.present ≡ self.old.present) }
        ensures halt { (self.new.left ≡ self.old.left) × (self.new.halt ≡ self.old.halt) }
        ensures era { (self.new.era ≡ self.old.era) × (self.new.is_crashing ≡ self.old.is_crashing) }
    {
        self.relayed = self.relayed.saturating_sub(1);
    }

    /// Whether the lanes of an era are relayed on.
    pub(crate) fn runs(&self, era: u64) -> bool
        ensures { IsTrue result ↔ ((self.now.halt ≡ None) × (self.now.era ≡ era)) }
    {
        self.halt.is_none() && self.era == era
    }

    /// Ends the connections, for this reason where there was none.
    pub(crate) fn halt(&mut self, reason: Halt)
        ensures first { self.new.halt ≡ option_or self.old.halt (Some reason) }
        ensures lanes { (self.new.lanes ≡ self.old.lanes) × (self.new.relayed ≡ self.old.relayed) }
        ensures present { (self.new.present ≡ self.old.present) × (self.new.left ≡ self.old.left) }
        ensures era { (self.new.era ≡ self.old.era) × (self.new.is_crashing ≡ self.old.is_crashing) }
    {
        if self.halt.is_none() {
            self.halt = Some(reason);
        }
    }

    /// Why the connections end.
    pub(crate) fn reason(&self) -> Option<Halt>
        ensures { result ≡ self.now.halt }
    {
        self.halt
    }

    /// Ends the era: its lanes end, and none is given.
    pub(crate) fn begin_crash(&mut self)
        ensures era { (self.new.era ≢ self.old.era) × (self.new.is_crashing ≡ true) }
        ensures lanes { (self.new.lanes ≡ self.old.lanes) × (self.new.relayed ≡ self.old.relayed) }
        ensures halt { (self.new.left ≡ self.old.left) × (self.new.halt ≡ self.old.halt) × (self.new.present ≡ self.old.present) }
    {
        self.era = self.era.wrapping_add(1);
        self.is_crashing = true;
    }

    /// Begins the next era.
    pub(crate) fn end_crash(&mut self)
        ensures era { (self.new.era ≡ self.old.era) × (self.new.is_crashing ≡ false) }
        ensures lanes { (self.new.lanes ≡ self.old.lanes) × (self.new.relayed ≡ self.old.relayed) }
        ensures halt { (self.new.left ≡ self.old.left) × (self.new.halt ≡ self.old.halt) × (self.new.present ≡ self.old.present) }
    {
        self.is_crashing = false;
    }

    /// Whether the lanes of an era that ended are being ended.
    pub(crate) fn is_crashing(&self) -> bool
        ensures { result ≡ self.now.is_crashing }
    {
        self.is_crashing
    }

    /// How many lanes are relayed.
    pub(crate) fn relayed(&self) -> u32
        ensures { result ≡ self.now.relayed }
    {
        self.relayed
    }

    /// How many connections are open.
    pub(crate) fn present(&self) -> u32
        ensures { result ≡ self.now.present }
    {
        self.present
    }
}
