//! What hindered the calls.

ghost use Rattle.std.specs.Prelude.{◌≡◌, ◌<◌, ◌≤◌, ◌+◌, ◌-◌, ◌^◌, ◌++◌, ◌∷◌, [], min, length, None, Some, IfOk};
ghost use Rattle.std.specs.Vec.{vec_capacity};

use crate::notes::Unnoted;
use nfs_tap::NoteFault;
use nfs3_msgs::Kind;
use rpc_client::Refusal;
use rpc_reader::RpcFault;
use std::alloc::{AllocError, Global};
use std::fmt;

/// How many troubles are kept.
const KEPT: usize = 128;

/// What hindered a call, or a connection.
#[derive(Clone, Copy, PartialEq, Eq)]
pub enum TroubleKind {
    /// The server takes no connection.
    CannotConnect,
    /// The server ended the connection, or reset it, and didn't crash.
    Ended,
    /// No reply came in time.
    NoReply,
    /// A reply came to a call that has one.
    SecondReply,
    /// A reply came to no call.
    UnknownReply,
    /// A record came that is longer than 2,097,152 bytes.
    RecordTooLong,
    /// A record came that is no reply of RPC.
    NotRpc(RpcFault),
    /// The result isn't in the grammar of RFC 1813: the first item at fault, by its offset.
    BadResult(usize, Kind),
    /// RPC refused the call.
    Refused(Refusal),
    /// The log refuses the event. The fault is never `NoMemory`.
    LogRefuses(NoteFault),
    /// The log has no room for the event.
    LogFull,
    /// This side can't make a connection, such as for want of descriptors.
    NoSocket,
    /// Memory ran out here, not at the server.
    NoMemory,
}

impl fmt::Display for TroubleKind {
    ghost use Rattle.std.specs.Prelude.{Some};
    ghost use Rattle.night_lanes.specs.Words.{kind_of_trouble_words};

    ghost output = { λ kind. Some (kind_of_trouble_words kind) };

    fn fmt<W: fmt::Write>(&self, f: &mut fmt::Formatter<W>) -> fmt::Result {
        match self {
            TroubleKind::CannotConnect => f.write_str("the server takes no connection"),
            TroubleKind::Ended => f.write_str("the server ended the connection"),
            TroubleKind::NoReply => f.write_str("no reply came in time"),
            TroubleKind::SecondReply => f.write_str("a second reply came"),
            TroubleKind::UnknownReply => f.write_str("a reply came to no call"),
            TroubleKind::RecordTooLong => f.write_str("a record is too long"),
            TroubleKind::NotRpc(fault) => write!(f, "a record is no RPC reply: {fault}"),
            TroubleKind::BadResult(at, kind) => {
                write!(
                    f,
                    "the result isn't in the grammar of RFC 1813, at byte {at}: {kind}"
                )
            }
            TroubleKind::Refused(refusal) => write!(f, "RPC refused the call: {refusal}"),
            TroubleKind::LogRefuses(fault) => write!(f, "the log refuses the event: {fault}"),
            TroubleKind::LogFull => f.write_str("the log is full"),
            TroubleKind::NoSocket => f.write_str("no connection can be made here"),
            TroubleKind::NoMemory => f.write_str("out of memory"),
        }
    }
}

impl From<Unnoted> for TroubleKind {
    fn from(reason: Unnoted) -> TroubleKind {
        match reason {
            Unnoted::Refused(fault) => TroubleKind::LogRefuses(fault),
            Unnoted::NoRoom => TroubleKind::LogFull,
            Unnoted::NoMemory => TroubleKind::NoMemory,
        }
    }
}

/// What hindered a call, or a connection, and where.
#[derive(Clone, Copy, PartialEq, Eq)]
pub struct Trouble {
    /// The client's number, if it is of one.
    pub client: Option<u32>,
    /// The lane, if it is of one.
    pub lane: Option<u32>,
    /// The transaction number, if it is of one.
    pub xid: Option<u32>,
    /// How many calls the client drew before the call, if it is of one.
    pub call: Option<u32>,
    pub kind: TroubleKind,
}

impl Trouble {
    /// A trouble of the whole night.
    pub fn of_night(kind: TroubleKind) -> Trouble
        ensures { result ≡ record { client = None; lane = None; xid = None; call = None; kind = kind } }
    {
        Trouble {
            client: None,
            lane: None,
            xid: None,
            call: None,
            kind,
        }
    }

    /// A trouble of a client that has no lane.
    pub fn of_client(client: u32, kind: TroubleKind) -> Trouble
        ensures { result ≡ record { client = Some client; lane = None; xid = None; call = None; kind = kind } }
    {
        Trouble {
            client: Some(client),
            lane: None,
            xid: None,
            call: None,
            kind,
        }
    }
}

impl fmt::Display for Trouble {
    ghost use Rattle.std.specs.Prelude.{Some};
    ghost use Rattle.night_lanes.specs.Words.{trouble_words};

    ghost output = { λ trouble. Some (trouble_words trouble) };

    fn fmt<W: fmt::Write>(&self, f: &mut fmt::Formatter<W>) -> fmt::Result {
        let client = Numbered {
            what: "client ",
            number: self.client,
        };
        let lane = Numbered {
            what: "lane ",
            number: self.lane,
        };
        let transaction = Numbered {
            what: "transaction ",
            number: self.xid,
        };
        let call = Numbered {
            what: "call ",
            number: self.call,
        };
        let kind = self.kind;
        write!(f, "{client}{lane}{transaction}{call}{kind}")
    }
}

/// What a number is of, and the number, if there is one.
#[derive(Clone, Copy)]
struct Numbered {
    what: &'static str,
    number: Option<u32>,
}

impl fmt::Display for Numbered {
    ghost use Rattle.std.specs.Prelude.{Some};
    ghost use Rattle.night_lanes.specs.Words.{number_words};

    ghost output = { λ numbered. Some (number_words numbered.what.now numbered.number) };

    fn fmt<W: fmt::Write>(&self, f: &mut fmt::Formatter<W>) -> fmt::Result {
        let what = self.what;
        match self.number {
            Some(number) => write!(f, "{what}{number}: "),
            None => Ok(()),
        }
    }
}

/// What hindered the calls of a night, in the order in which it was told: the first of them, and how many more there were.
pub struct Troubles {
    kept: Vec<Trouble>,
    more: u64,
    // There is room for all that are kept.
    ghost room: { 128 ≤ vec_capacity kept },
}

impl Drop for Troubles {
    fn drop(self) {
        let Troubles { kept, more: _ } = self;
        drop(kept);
    }
}

impl Troubles {
    /// None.
    pub fn new(alloc: Global) -> Result<Troubles, AllocError>
        ensures { IfOk result (λ troubles. (troubles.kept.items ≡ []) × (troubles.more ≡ 0)) }
    {
        Ok(Troubles {
            kept: Vec::with_capacity(alloc, KEPT)?,
            more: 0,
        })
    }

    /// One more, which is counted alone where 128 are kept.
    pub fn tell(&mut self, trouble: Trouble)
        ensures kept { length self.old.kept.items < 128
            → (self.new.kept.items ≡ self.old.kept.items ++ trouble ∷ []) × (self.new.more ≡ self.old.more) }
        ensures counted { 128 ≤ length self.old.kept.items
            → (self.new.kept.items ≡ self.old.kept.items) × (self.new.more ≡ min (self.old.more + 1) (2 ^ 64 - 1)) }
    {
        if self.kept.len() < KEPT {
            self.kept.push(trouble).unwrap();
        } else {
            self.more = self.more.saturating_add(1);
        }
    }

    /// Those that are kept.
    pub fn kept(&self) -> &[Trouble]
        ensures { result.now ≡ self.now.kept.items }
    {
        self.kept.as_slice()
    }

    /// How many more there were.
    pub fn more(&self) -> u64
        ensures { result ≡ self.now.more }
    {
        self.more
    }
}
