//! What is said of a night.

ghost use Rattle.std.specs.Prelude.{◌≡◌, ◌↔◌, IsTrue, Some, nat_lt};
ghost use Rattle.night_verdict.specs.Verdict.{verdict_of, verdict_in_health, unless_doubt, unless_few, little_by, little_of, first_doubt, health_of, doubt_of, is_astray, is_few, is_mostly_excused, is_not_up, is_whole};

use crate::facts::{NightEnd, NightFacts, has_trouble_of_server, is_astray};
use crate::judging::Answered;
use deciding_command::FileDecision;
use night_answers::is_idle;

/// Why the server is at fault.
#[derive(Clone, Copy, PartialEq, Eq)]
pub enum Cause {
    /// It hindered a call or a connection: the first such trouble is the cause.
    Trouble,
    /// It didn't answer NULL in time after a crash.
    NotUp,
    /// Fewer judged calls were answered than had to be.
    TooFew,
    /// No order of the calls explains the history.
    NoWitness,
}

/// Why nothing is said of the server.
#[derive(Clone, Copy)]
pub enum Doubt {
    /// What was recorded is no history.
    BadHistory,
    /// The eras ended before they were to.
    Ended,
    /// This side hindered the calls.
    Trouble,
    /// Over a quarter of the replies are failures that may answer any call.
    Excused,
    /// Too many of the answers, or of those to one procedure, did nothing.
    Idle,
    /// Calls were never answered, though the server went on behind them.
    LeftAside,
    /// Not all that clients knew before the last crash was looked at behind it.
    Unread,
    /// Fewer judged calls were answered than a night is wanted to have.
    Few,
    /// It isn't decided whether some order explains the history.
    Undecided,
}

/// What is said of a night.
#[derive(Clone, Copy)]
pub enum NightVerdict {
    /// Some order explains the history, and the server was in health.
    Yes,
    /// The server is at fault.
    No(Cause),
    /// Neither.
    Doubt(Doubt),
}

fn is_not_up(end: NightEnd) -> bool
    ensures { result ≡ is_not_up end }
{
    matches!(end, NightEnd::NotUp(_, _))
}

fn is_whole(end: NightEnd) -> bool
    ensures { result ≡ is_whole end }
{
    matches!(end, NightEnd::Whole)
}

/// Whether the server was in health; else the first cause.
pub(crate) fn health_of(facts: &NightFacts<'_>) -> Option<Cause>
    ensures { result ≡ health_of facts.now.troubles.now facts.now.end }
{
    if has_trouble_of_server(facts.end, facts.troubles.kept()) {
        return Some(Cause::Trouble);
    }
    if is_not_up(facts.end) {
        return Some(Cause::NotUp);
    }
    None
}

/// What is in doubt where some order explains the history.
pub(crate) fn doubt_of(facts: &NightFacts<'_>) -> Option<Doubt>
    ensures { result ≡ doubt_of facts.now.troubles.now facts.now.end }
{
    if is_astray(facts.end) {
        return Some(Doubt::Ended);
    }
    if !facts.troubles.kept().is_empty() {
        return Some(Doubt::Trouble);
    }
    if !is_whole(facts.end) {
        return Some(Doubt::Ended);
    }
    None
}

/// What is said where some order explains the history, and the server was in health.
fn unless_doubt(doubt: Option<Doubt>) -> NightVerdict
    ensures { result ≡ unless_doubt doubt }
{
    match doubt {
        Some(doubt) => NightVerdict::Doubt(doubt),
        None => NightVerdict::Yes,
    }
}

/// What is said unless too few calls were answered.
fn unless_few(few: bool, verdict: NightVerdict) -> NightVerdict
    ensures { result ≡ unless_few few verdict }
{
    if few {
        NightVerdict::No(Cause::TooFew)
    } else {
        verdict
    }
}

/// Why a night in which too little was done gets no yes, if it was.
fn little_by(excused: bool, idle: bool, aside: bool, unread: bool, short: bool) -> Option<Doubt>
    ensures { result ≡ little_by excused idle aside unread short }
{
    if excused {
        return Some(Doubt::Excused);
    }
    if idle {
        return Some(Doubt::Idle);
    }
    if aside {
        return Some(Doubt::LeftAside);
    }
    if unread {
        return Some(Doubt::Unread);
    }
    if short {
        return Some(Doubt::Few);
    }
    None
}

/// Why a night whose answers come to this gets no yes, if too little was done.
pub(crate) fn little_of(facts: &NightFacts<'_>, answered: Answered) -> Option<Doubt>
    ensures { result ≡ little_of facts.now answered }
{
    little_by(
        is_mostly_excused(answered),
        is_idle(answered.all, answered.idleness),
        facts.left_aside.is_some(),
        facts.unread > 0,
        answered.all < facts.wanted,
    )
}

/// The first of two doubts, if there is one.
fn first_doubt(one: Option<Doubt>, other: Option<Doubt>) -> Option<Doubt>
    ensures { result ≡ first_doubt one other }
{
    match one {
        Some(doubt) => Some(doubt),
        None => other,
    }
}

/// What is said of a night in health, by what is decided of its history, whether too few calls were answered, and whether too little was done.
fn verdict_in_health(
    facts: &NightFacts<'_>,
    few: bool,
    little: Option<Doubt>,
    decision: &FileDecision,
) -> NightVerdict
    ensures { result ≡ verdict_in_health facts.now.troubles.now facts.now.end few little decision.now }
{
    match decision {
        FileDecision::BadHistory(_) => NightVerdict::Doubt(Doubt::BadHistory),
        FileDecision::NoWitness { .. } => unless_few(few, NightVerdict::No(Cause::NoWitness)),
        FileDecision::Undecided(_) => unless_few(few, NightVerdict::Doubt(Doubt::Undecided)),
        FileDecision::Yes(_) => {
            unless_few(few, unless_doubt(first_doubt(little, doubt_of(facts))))
        }
    }
}

/// Whether too few calls were answered, which is the server's fault where the orders didn't go astray.
pub(crate) fn is_few(facts: &NightFacts<'_>, answered: u64) -> bool
    ensures { result ≡ is_few (is_astray facts.now.end) (nat_lt answered facts.now.at_least) }
{
    !is_astray(facts.end) && answered < facts.at_least
}

/// Whether over a quarter of the answers are failures that may answer any call.
fn is_mostly_excused(answered: Answered) -> bool
    ensures { result ≡ is_mostly_excused answered.all answered.excused }
{
    answered.all / 4 < answered.excused
}

/// What is said of a night: the server's health first, then how many calls were answered, then what is decided of the history.
pub(crate) fn verdict_of(
    facts: &NightFacts<'_>,
    answered: Answered,
    decision: &FileDecision,
) -> NightVerdict
    ensures { result ≡ verdict_of facts.now answered decision.now }
{
    match health_of(facts) {
        Some(cause) => NightVerdict::No(cause),
        None => verdict_in_health(
            facts,
            is_few(facts, answered.all),
            little_of(facts, answered),
            decision,
        ),
    }
}
