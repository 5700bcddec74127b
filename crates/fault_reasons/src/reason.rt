//! Reasons.

ghost use Rattle.std.specs.Prelude.{◌≡◌};
ghost use Rattle.fault_reasons.specs.Reason.{fault_of};

use file_tree::FileTree;
use nfs3_types::{NfsCall, NfsReply, Outcome};
use witness_check::Fault;

/// The place of a call that can't have come out so there. Eras, positions and calls are numbered from 1.
pub struct IllegalPlace {
    /// The era in which the call is placed.
    pub era: u64,
    /// Its position among the places of that era.
    pub position: u64,
    /// The call's number.
    pub number: u64,
    /// The call.
    pub call: NfsCall,
    /// How it came out: with the reply that the history has, or as taken.
    pub outcome: Outcome,
    /// The tree there.
    pub tree: FileTree,
    /// A reply under which the place would be legal. What the tree doesn't judge in it, such as times, cookies and verifiers, is 0.
    pub right: Option<NfsReply>,
}

impl Drop for IllegalPlace {
    fn drop(self) {
        let IllegalPlace {
            era: _,
            position: _,
            number: _,
            call,
            outcome,
            tree,
            right,
        } = self;
        drop(call);
        drop(outcome);
        drop(tree);
        drop(right);
    }
}

/// A call with its events.
#[derive(Clone, Copy)]
pub struct CallSpan {
    /// The call's number.
    pub number: u64,
    /// The number of its event.
    pub begun: u64,
    /// The number of the event of its reply, where one came.
    pub ended: Option<u64>,
}

/// A place that a crash may not take away, and that the cut of its era loses.
#[derive(Clone, Copy)]
pub struct LostPlace {
    /// The era.
    pub era: u64,
    /// How many places the cut keeps.
    pub cut: u64,
    /// The position of the place.
    pub position: u64,
    /// The number of its call.
    pub number: u64,
}

/// Why a certificate is no witness of a history.
#[derive(Drop)]
pub enum Reason {
    /// A call can't have come out so at its place.
    Illegal(IllegalPlace),
    /// A call is placed ahead of another one, which had ended when it began.
    Early {
        /// The call that is placed too early.
        call: CallSpan,
        /// The other call.
        other: CallSpan,
    },
    /// A cut loses a place that may not be lost.
    ShortCut(LostPlace),
    /// Another fault, of which no more is told.
    Other(Fault),
}

impl Reason {
    /// The fault that it is the reason of.
    pub fn fault(&self) -> Fault
        ensures { result ≡ fault_of self.now }
    {
        match self {
            Reason::Illegal(place) => Fault::Illegal(place.number),
            Reason::Early { call, other } => Fault::Early {
                call: call.number,
                ended: other.number,
            },
            Reason::ShortCut(lost) => Fault::ShortCut {
                era: lost.era,
                needed: lost.position,
            },
            Reason::Other(fault) => *fault,
        }
    }
}
