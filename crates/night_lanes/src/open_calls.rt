//! The calls of a lane that are on their way.

ghost use Rattle.std.specs.Prelude.{ℕ, ◌≡◌, ◌<◌, ◌+◌, ◌++◌, ◌∷◌, [], length, remove, IfOk, IfSome, IfNone, OnOk, OnErr, slice_get};
ghost use Rattle.night_lanes.specs.Standing.{place_of, standing_of};
ghost use Rattle.night_lanes.specs.declared.open_calls.Standing.TheVariants as standings;

use nfs3_types::NfsCall;
use std::alloc::{AllocError, Global};

/// A call that is on its way.
pub struct OpenCall {
    /// Its transaction number.
    pub xid: u32,
    /// How many calls its client drew before it.
    pub number: u32,
    /// What it asks for.
    pub call: NfsCall,
    /// How many nanoseconds had passed on its lane when it was noted.
    pub since: u64,
}

impl Drop for OpenCall {
    fn drop(self) {
        let OpenCall {
            xid: _,
            number: _,
            call,
            since: _,
        } = self;
        drop(call);
    }
}

/// The calls of a lane that are on their way, the oldest first. Their transaction numbers are 1, 2, 3, .. in the order in which they
/// were sent.
#[derive(Drop)]
pub struct OpenCalls {
    /// The last transaction number that was given, or 0.
    last: u32,
    calls: Vec<OpenCall>,
}

/// What a transaction number is to a lane.
#[derive(Clone, Copy)]
pub enum Standing {
    /// That of the open call at this place.
    Open(usize),
    /// That of a call that isn't open any more.
    Answered,
    /// That of no call.
    Unknown,
}

impl OpenCalls {
    /// None was sent.
    pub fn new(alloc: Global) -> OpenCalls
        ensures { (result.last ≡ 0) × (result.calls.items ≡ []) }
    {
        OpenCalls {
            last: 0,
            calls: Vec::new(alloc),
        }
    }

    /// The open calls, the oldest first.
    pub fn calls(&self) -> &[OpenCall]
        ensures { result.now ≡ self.now.calls.items }
    {
        self.calls.as_slice()
    }

    /// The next transaction number, of which there are 4,294,967,295, with room for its call.
    pub fn next_xid(&mut self) -> Result<Option<u32>, AllocError>
        ensures next { IfOk result (λ xid. IfSome xid (λ n. n ≡ self.old.last + 1)) }
        ensures kept { (self.new.last ≡ self.old.last) × (self.new.calls.items ≡ self.old.calls.items) }
    {
        self.calls.reserve(1)?;
        if self.last == u32::MAX {
            return Ok(None);
        }
        Ok(Some(self.last + 1))
    }

    /// A call was noted under the next transaction number.
    pub fn open(&mut self, opened: OpenCall) -> Result<(), AllocError>
        ensures opened { OnOk result ((self.new.last ≡ opened.xid) × (self.new.calls.items ≡ self.old.calls.items ++ opened ∷ [])) }
        ensures kept { OnErr result ((self.new.last ≡ self.old.last) × (self.new.calls.items ≡ self.old.calls.items)) }
    {
        let xid = opened.xid;
        self.calls.push(opened)?;
        self.last = xid;
        Ok(())
    }

    /// The place of the open call with a transaction number.
    fn place_of(&self, xid: u32) -> Option<usize>
        ensures is { result ≡ place_of self.now.calls.items xid }
        ensures bound { IfSome result (λ place. place < length self.now.calls.items) }
    {
        self.calls.iter().position(|sent| sent.xid == xid)
    }

    /// What a transaction number is.
    pub fn standing(&self, xid: u32) -> Standing
        ensures is { result ≡ standing_of self.now xid }
        ensures bound { (place : ℕ) → result ≡ standings.Open place → place < length self.now.calls.items }
    {
        match self.place_of(xid) {
            Some(place) => Standing::Open(place),
            None if xid == 0 || xid > self.last => Standing::Unknown,
            None => Standing::Answered,
        }
    }

    /// Takes out the call at a place.
    pub fn close(&mut self, place: usize) -> Option<OpenCall>
        ensures taken { IfSome result (λ sent. slice_get self.old.calls.items place ≡ Some sent) }
        ensures left { IfSome result (λ _. self.new.calls.items ≡ remove self.old.calls.items place) }
        ensures none { IfNone result (self.new.calls.items ≡ self.old.calls.items) }
        ensures last { self.new.last ≡ self.old.last }
    {
        if place < self.calls.len() {
            Some(self.calls.remove(place))
        } else {
            None
        }
    }
}
