//! Which events of a history are shown, and how.

ghost use Rattle.std.specs.Prelude.{◌≡◌, ◌+◌, ◌^◌, true, false, MatchBool};
ghost use Rattle.history_lines.specs.Shown.{is_none};

use crate::short::{ShortHandle, short_of};
use nfs3_types::Procedure;

/// Which events are shown. What the server held at first is shown before the first event, where nothing narrows the choice.
#[derive(Clone, Copy)]
pub struct Selection {
    /// The number of the first event.
    pub from: u64,
    /// The number of the last event.
    pub to: u64,
    /// Where it is there, of these events only the call of this number and the reply to it.
    pub call: Option<u64>,
    /// Where it is there, only the events of this connection, and crashes.
    pub lane: Option<u32>,
    /// Where it is there, only calls of this procedure of NFS, and the replies to them.
    pub procedure: Option<Procedure>,
}

/// A handle that is looked for.
#[derive(Drop)]
pub enum SoughtHandle {
    Whole(Vec<u8>),
    Short(ShortHandle),
}

/// What a call or its reply has to name, so that it is shown.
#[derive(Drop)]
pub struct Sought {
    pub handle: Option<SoughtHandle>,
    /// A name in a directory: of an argument, or an entry of a listing.
    pub name: Option<Vec<u8>>,
}

/// Calls whose lines are marked, which a verdict names.
#[derive(Clone, Copy)]
pub struct Marks {
    /// The call at fault.
    pub fault: Option<u64>,
    /// The call that it is at fault with.
    pub other: Option<u64>,
}

/// Which events are shown, and how.
#[derive(Drop)]
pub struct Look {
    pub selection: Selection,
    pub sought: Sought,
    pub marks: Marks,
    /// Whether handles are written by their short form.
    pub has_short_handles: bool,
}

/// What an event is of.
#[derive(Clone, Copy)]
pub(crate) struct About {
    pub(crate) call: Option<u64>,
    pub(crate) lane: Option<u32>,
    pub(crate) procedure: Option<Procedure>,
}

/// What of that which is looked for a line names.
#[derive(Clone, Copy)]
pub(crate) struct Found {
    pub(crate) has_handle: bool,
    pub(crate) has_name: bool,
}

/// Whether a number is the one that is asked for, where one is.
fn is_asked_number(asked: Option<u64>, number: Option<u64>) -> bool
    ensures { is_none asked ≡ true → result ≡ true }
{
    match asked {
        Some(_) => number == asked,
        None => true,
    }
}

/// Whether a procedure is the one that is asked for, where one is.
fn is_asked_procedure(asked: Option<Procedure>, procedure: Option<Procedure>) -> bool
    ensures { is_none asked ≡ true → result ≡ true }
{
    match asked {
        Some(_) => procedure == asked,
        None => true,
    }
}

impl Selection {
    ghost use Rattle.history_lines.specs.Shown.{IsAsked, is_wide};

    /// All events.
    pub fn all() -> Selection
        ensures from { result.from ≡ 1 }
        ensures to { result.to + 1 ≡ 2 ^ 64 }
        ensures wide { is_wide result ≡ true }
    {
        Selection {
            from: 1,
            to: u64::MAX,
            call: None,
            lane: None,
            procedure: None,
        }
    }

    /// Whether nothing but their numbers says which events are shown.
    pub(crate) fn is_wide(&self) -> bool
        ensures { result ≡ is_wide self.now }
    {
        self.call.is_none() && self.lane.is_none() && self.procedure.is_none()
    }

    /// Whether an event that is of this may be shown.
    pub(crate) fn has(&self, event: u64, about: About) -> bool
        ensures { MatchBool result (IsAsked self.now event) (is_wide self.now ≡ true → ¬ IsAsked self.now event) }
    {
        if event < self.from || self.to < event {
            return false;
        }
        is_asked_number(self.call, about.call)
            && is_asked_number(self.lane.map(u64::from), about.lane.map(u64::from))
            && is_asked_procedure(self.procedure, about.procedure)
    }
}

impl SoughtHandle {
    /// Whether it is this handle.
    pub(crate) fn is(&self, handle: &[u8]) -> bool {
        match self {
            SoughtHandle::Whole(bytes) => bytes.as_slice() == handle,
            SoughtHandle::Short(short) => *short == short_of(handle),
        }
    }
}

impl Sought {
    ghost use Rattle.history_lines.specs.Shown.{is_nothing};

    /// Nothing is looked for.
    pub fn nothing() -> Sought
        ensures { is_nothing result ≡ true }
    {
        Sought {
            handle: None,
            name: None,
        }
    }

    /// Whether nothing is looked for.
    pub(crate) fn is_nothing(&self) -> bool
        ensures { result ≡ is_nothing self.now }
    {
        self.handle.is_none() && self.name.is_none()
    }

    /// Whether this handle is looked for.
    pub(crate) fn is_handle(&self, handle: &[u8]) -> bool {
        match &self.handle {
            Some(sought) => sought.is(handle),
            None => false,
        }
    }

    /// Whether this name is looked for.
    pub(crate) fn is_name(&self, name: &[u8]) -> bool {
        match &self.name {
            Some(sought) => sought.as_slice() == name,
            None => false,
        }
    }

    /// Whether a line names what is looked for.
    pub(crate) fn is_met(&self, found: Found) -> bool
        ensures { is_nothing self.now ≡ true → result ≡ true }
    {
        (self.handle.is_none() || found.has_handle) && (self.name.is_none() || found.has_name)
    }
}

impl Look {
    ghost use Rattle.history_lines.specs.Shown.{is_nothing, marks_none};
    ghost use Rattle.history_lines.specs.StartShown.{asks_start};

    /// The events of a selection, as they are.
    pub fn at(selection: Selection) -> Look
        ensures selection { result.selection ≡ selection }
        ensures sought { is_nothing result.sought ≡ true }
        ensures marks { marks_none result.marks ≡ true }
        ensures whole { result.has_short_handles ≡ false }
    {
        Look {
            selection,
            sought: Sought::nothing(),
            marks: Marks {
                fault: None,
                other: None,
            },
            has_short_handles: false,
        }
    }

    /// Whether what the server held at first is shown.
    pub(crate) fn has_start(&self) -> bool
        ensures { result ≡ asks_start self.now }
    {
        self.selection.is_wide() && self.sought.is_nothing() && self.selection.from <= 1
    }
}
