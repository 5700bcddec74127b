//! What is known of a night when its last client has ended.

ghost use Rattle.std.specs.Prelude.{◌≡◌};
ghost use Rattle.night_verdict.specs.Verdict.{has_trouble_of_server, is_of_server, is_astray, is_of_crash, is_blamed};

use night_lanes::{Trouble, TroubleKind, Troubles};

/// How the eras of a night ended.
#[derive(Clone, Copy, PartialEq, Eq)]
pub enum NightEnd {
    /// Each era and each crash that was asked for came about.
    Whole,
    /// After the crash of this number, from 1, and the order `up`, the server didn't answer NULL within this many seconds.
    NotUp(u32, u32),
    /// After the crash of this number and the order `up`, the server answered on a connection from before that crash: it wasn't killed.
    NotDown(u32),
    /// The orders end before that crash, or the word that the server is up after it.
    OrdersEnded(u32),
    /// No order came for that crash within this many seconds.
    NoOrder(u32, u32),
    /// The order for that crash is another than was due.
    OtherOrder(u32),
    /// The orders for that crash can't be read.
    Unreadable(u32),
    /// Another order came after those of that crash, which was the last that was asked for.
    MoreOrders(u32),
    /// No thread can be made.
    NoThread,
    /// Memory ran out.
    NoMemory,
}

/// Calls that a server never answered, though it went on behind them.
#[derive(Clone, Copy)]
pub struct LeftAside {
    /// How many there are.
    pub count: u64,
    /// The lane of the first.
    pub lane: u32,
    /// Its transaction number.
    pub xid: u32,
}

/// What is known of a night, beside its history.
#[derive(Clone, Copy)]
pub struct NightFacts<'a> {
    /// What hindered the calls.
    pub troubles: &'a Troubles,
    /// How its eras ended.
    pub end: NightEnd,
    /// How many judged calls of the history had to be answered at least, those of the walk among them.
    pub at_least: u64,
    /// How many of them a night is wanted to have before a yes is said, though fewer aren't the server's fault.
    pub wanted: u64,
    /// How many calls of the history are the walk's.
    pub walked: u64,
    /// The calls that were left aside, if any were: a crash excuses what waits for its reply, but not for long.
    pub left_aside: Option<LeftAside>,
    /// How many objects and names that clients knew before the last crash they didn't look at behind it, so that nobody saw whether they survived.
    pub unread: u64,
}

/// Whether the server made a trouble. The others are this side's: its log, and its memory.
pub fn is_of_server(kind: TroubleKind) -> bool
    ensures { result ≡ is_of_server kind }
{
    !matches!(
        kind,
        TroubleKind::LogRefuses(_)
            | TroubleKind::LogFull
            | TroubleKind::NoSocket
            | TroubleKind::NoMemory
    )
}

/// Whether the orders went astray, so that the server may have been killed and nothing told of it, or wasn't though they told of it.
pub(crate) fn is_astray(end: NightEnd) -> bool
    ensures { result ≡ is_astray end }
{
    matches!(
        end,
        NightEnd::NotDown(_)
            | NightEnd::OrdersEnded(_)
            | NightEnd::NoOrder(_, _)
            | NightEnd::OtherOrder(_)
            | NightEnd::Unreadable(_)
            | NightEnd::MoreOrders(_)
    )
}

/// Whether clients see such a trouble where the server was killed.
fn is_of_crash(kind: TroubleKind) -> bool
    ensures { result ≡ is_of_crash kind }
{
    matches!(
        kind,
        TroubleKind::CannotConnect | TroubleKind::Ended | TroubleKind::NoReply
    )
}

/// Whether the server is blamed for a trouble: one that it made, and that no crash explains of which nothing told.
fn is_blamed(end: NightEnd, kind: TroubleKind) -> bool
    ensures { result ≡ is_blamed end kind }
{
    is_of_server(kind) && !(is_astray(end) && is_of_crash(kind))
}

/// Whether the server is blamed for one of these troubles.
pub(crate) fn has_trouble_of_server(end: NightEnd, troubles: &[Trouble]) -> bool
    ensures { result ≡ has_trouble_of_server end troubles.now }
{
    troubles.iter().any(|trouble| is_blamed(end, trouble.kind))
}

/// The first trouble that the server is blamed for.
pub(crate) fn first_of_server(end: NightEnd, troubles: &[Trouble]) -> Option<&Trouble> {
    troubles.iter().find(|trouble| is_blamed(end, trouble.kind))
}
