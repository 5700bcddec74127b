//! The decision.

ghost use Rattle.std.specs.Prelude.{◌≡◌, ◌+◌, ℕ, List, IfOk, IfSome};
ghost use Rattle.certificate.specs.declared.plan.Certificate.{Certificate};
ghost use Rattle.witness_check.specs.Witness.{IsWitness};
ghost use Rattle.nfs_history.specs.declared.knowing.KnownCalls.{KnownCalls};
ghost use Rattle.nfs_history.specs.History.{recording_of};
ghost use Rattle.decision_walk.specs.decision_law_specs.Times.{AreTimed, era_start};
ghost use Rattle.decide.specs.Decision.{Says, Walks, TellsOf};
ghost use Rattle.decide.specs.Marking.{AreNeverLost};

use crate::certifying::certificate_of;
use crate::decision::{Decision, Refusal, Undecided};
use crate::leaving_out::LeavingOut;
use crate::marking::marks_of;
use crate::spans::{crash_marks, spans_of};
use crate::verifiers::second_verifier;
use certificate::Certificate;
use decision_core::{Event, Stop, Walked, Watch, timeline};
use decision_walk::{HistoryMachine, WalkState, Why};
use nfs_history::History;
use std::alloc::{AllocError, Global};
use witness_check::{Verdict, check};

/// How many states the quick walk may have at first. In most histories of right servers it has a few, so with more of them a certificate is looked
/// for otherwise before it goes on.
const FEW_STATES: usize = 2_000;

/// Why a walk says nothing.
fn decision_of(stop: Stop<Why>) -> Decision
    ensures { (known : KnownCalls) → Says known result }
{
    match stop {
        Stop::TooManyStates => Decision::Undecided(Undecided::TooManyStates),
        Stop::Ended => Decision::Undecided(Undecided::Ended),
        Stop::NotCovered(why) => Decision::Undecided(Undecided::NotCovered(why)),
        Stop::NoMemory => Decision::NoMemory,
    }
}

/// The events of the calls and crashes, where each has its place.
fn events_of(alloc: Global, history: &History) -> Result<Option<Vec<Event>>, AllocError>
    ensures { IfOk result (λ found. IfSome found (λ events. TellsOf history.now events.items)) }
{
    let marks = crash_marks(alloc, history.events())?;
    if marks.len() as u64 != history.eras() {
        return Ok(None);
    }
    let spans = spans_of(alloc, history, marks.as_slice())?;
    timeline(alloc, spans.as_slice(), history.events().len() + 1)
}

/// A certificate, if it is a witness.
fn if_witness(
    alloc: Global,
    history: &History,
    certificate: Certificate,
) -> Result<Option<Certificate>, AllocError>
    ensures { IfOk result (λ found. IfSome found (IsWitness history.now.known)) }
{
    match check(alloc, history, &certificate)? {
        Verdict::Yes => Ok(Some(certificate)),
        Verdict::No(_fault) => Ok(None),
    }
}

/// Whether a certificate binds a handle of no bytes, which its text can't name (docs/FORMATS.md).
fn binds_no_bytes(certificate: &Certificate) -> bool {
    let mut binds = certificate.binds.as_slice().iter();
    binds.any(|bind| bind.handle.as_slice().is_empty())
}

/// The certificate of a state, if it is a witness that a text can say.
fn accepted(
    alloc: Global,
    history: &History,
    state: &WalkState,
) -> Result<Option<Certificate>, AllocError>
    ensures { IfOk result (λ found. IfSome found (IsWitness history.now.known)) }
{
    let certificate = certificate_of(alloc, state, history.eras())?;
    if binds_no_bytes(&certificate) {
        return Ok(None);
    }
    if_witness(alloc, history, certificate)
}

/// The first witness that a state gives, from the last state to the first: the last has the fewest open calls placed. The watch may end it.
fn first_accepted<W: Watch>(
    alloc: Global,
    history: &History,
    states: &[WalkState],
    watch: &mut W,
) -> Result<Option<Certificate>, AllocError>
    ensures { IfOk result (λ found. IfSome found (IsWitness history.now.known)) }
{
    for state in states.iter().rev() {
        if watch.is_over() {
            return Ok(None);
        }
        if let Some(certificate) = accepted(alloc, history, state)? {
            return Ok(Some(certificate));
        }
    }
    Ok(None)
}

/// The calls that are open when an event comes, from 1, by their numbers.
pub fn open_calls(alloc: Global, history: &History, event: u64) -> Result<Vec<u64>, AllocError> {
    let mut open = Vec::new(alloc);
    let mut number: u64 = 0;
    for recorded in history.recorded_calls() {
        number = number.saturating_add(1);
        let is_answered = match recorded.end {
            Some(end) => end < event,
            None => false,
        };
        if recorded.begin < event && !is_answered {
            open.push(number)?;
        }
    }
    Ok(open)
}

/// The place where a walk ended, at the event that is so far behind the first.
fn refusal_of(
    alloc: Global,
    history: &History,
    index: usize,
    call: u64,
) -> Result<Refusal, AllocError>
    ensures { IfOk result (λ refusal. (refusal.event ≡ index + 1) × (refusal.call ≡ call)) }
{
    let Some(event) = (index as u64).checked_add(1) else {
        return Err(AllocError);
    };
    let open = open_calls(alloc, history, event)?;
    Ok(Refusal { event, call, open })
}

/// Walks a history by its machine, where these are the events.
fn walk<W: Watch>(
    alloc: Global,
    history: &History,
    machine: &HistoryMachine<'_>,
    events: &[Event],
    most: usize,
    watch: &mut W,
) -> Result<Walked<WalkState>, Stop<Why>>
    requires history { machine.now.history.now ≡ history.now }
    requires marks { AreNeverLost history.now.known machine.now.marks.items }
    requires tells { TellsOf history.now events.now }
    ensures { IfOk result (Walks history.now.known) }
{
    decision_core::decide(alloc, machine, events, most, watch)
}

/// What is decided where states are left and none gives a witness: no, where an era shows two write verifiers.
fn told_by_verifiers(
    alloc: Global,
    history: &History,
    reason: Undecided,
) -> Result<Decision, AllocError>
    requires { AreTimed history.now.known (era_start (recording_of history.now).events) }
    ensures { IfOk result (Says history.now.known) }
{
    match second_verifier(history) {
        Some(shown) => Ok(Decision::No(Refusal {
            event: shown.at,
            call: shown.number,
            open: open_calls(alloc, history, shown.at)?,
        })),
        None => Ok(Decision::Undecided(reason)),
    }
}

/// Why no witness is known where states are left: the watch ended the walk, or none of them gives one.
fn reason_left<W: Watch>(watch: &mut W) -> Undecided {
    if watch.is_over() {
        Undecided::Ended
    } else {
        Undecided::NotAccepted
    }
}

/// What a walk decides.
fn told<W: Watch>(
    alloc: Global,
    history: &History,
    walked: Walked<WalkState>,
    watch: &mut W,
) -> Result<Decision, AllocError>
    requires walks { Walks history.now.known walked }
    requires timed { AreTimed history.now.known (era_start (recording_of history.now).events) }
    ensures { IfOk result (Says history.now.known) }
{
    match walked {
        Walked::NoWitness { event, call } => {
            Ok(Decision::No(refusal_of(alloc, history, event, call)?))
        }
        Walked::Left(states) => match first_accepted(alloc, history, states.as_slice(), watch)? {
            Some(certificate) => Ok(Decision::Yes(certificate)),
            None => told_by_verifiers(alloc, history, reason_left(watch)),
        },
    }
}

/// The first witness that a quick walk comes to, which takes states of one number for the same, tries a call before a reply only where it may matter to it,
/// and leaves out what isn't decided; and whether it gave up.
fn found_quickly<W: Watch>(
    alloc: Global,
    history: &History,
    machine: &HistoryMachine<'_>,
    events: &[Event],
    most: usize,
    watch: &mut W,
) -> Result<(Option<Certificate>, bool), AllocError>
    ensures { IfOk result (λ found. IfSome found.0 (IsWitness history.now.known)) }
{
    let leaving = LeavingOut::new(alloc, machine);
    match decision_core::decide(alloc, &leaving, events, most, watch) {
        Ok(Walked::Left(states)) => {
            let found = first_accepted(alloc, history, states.as_slice(), watch)?;
            Ok((found, false))
        }
        Ok(Walked::NoWitness { event: _, call: _ }) => Ok((None, false)),
        Err(Stop::NoMemory) => Err(AllocError),
        Err(_) => Ok((None, true)),
    }
}

/// What a watch brings, if it is a witness.
fn if_brought(
    alloc: Global,
    history: &History,
    brought: Option<Certificate>,
) -> Result<Option<Certificate>, AllocError>
    ensures { IfOk result (λ found. IfSome found (IsWitness history.now.known)) }
{
    match brought {
        Some(certificate) => if_witness(alloc, history, certificate),
        None => Ok(None),
    }
}

/// A witness by a quick walk, with few states at first, then with as many as there may be; and whether it gave up.
fn sought_quickly<W: WalksWatch>(
    alloc: Global,
    history: &History,
    machine: &HistoryMachine<'_>,
    events: &[Event],
    most: usize,
    watch: &mut W,
) -> Result<(Option<Certificate>, bool), AllocError>
    ensures { IfOk result (λ found. IfSome found.0 (IsWitness history.now.known)) }
{
    let few = most.min(FEW_STATES);
    let (found, gave_up) = found_quickly(alloc, history, machine, events, few, watch)?;
    if found.is_some() || !gave_up || few == most || watch.is_over() {
        return Ok((found, gave_up));
    }
    if let Some(found) = if_brought(alloc, history, watch.again()?)? {
        return Ok((Some(found), false));
    }
    found_quickly(alloc, history, machine, events, most, watch)
}

/// A witness by a quick walk, or else one that the watch brings.
fn sought<W: WalksWatch>(
    alloc: Global,
    history: &History,
    machine: &HistoryMachine<'_>,
    events: &[Event],
    most: usize,
    watch: &mut W,
) -> Result<Option<Certificate>, AllocError>
    ensures { IfOk result (λ found. IfSome found (IsWitness history.now.known)) }
{
    let (found, gave_up) = sought_quickly(alloc, history, machine, events, most, watch)?;
    match found {
        Some(found) => Ok(Some(found)),
        None => if_brought(alloc, history, watch.next_walk(gave_up)?),
    }
}

/// What is decided, with memory: a quick walk looks for a witness, and a walk over all that may be comes after it.
fn decided<W: WalksWatch>(
    alloc: Global,
    history: &History,
    most: usize,
    watch: &mut W,
) -> Result<Decision, AllocError>
    ensures { IfOk result (Says history.now.known) }
{
    let Some(events) = events_of(alloc, history)? else {
        return Ok(Decision::Undecided(Undecided::NoEvents));
    };
    let marks = marks_of(alloc, history)?;
    let machine = HistoryMachine::new(alloc, history, marks);
    let events = events.as_slice();
    if let Some(found) = sought(alloc, history, &machine, events, most, watch)? {
        return Ok(Decision::Yes(found));
    }
    match walk(alloc, history, &machine, events, most, watch) {
        Ok(walked) => told(alloc, history, walked, watch),
        Err(stop) => Ok(decision_of(stop)),
    }
}

/// Sees how far a decision has come, and may end its walks. Nothing that is said depends on it.
pub trait WalksWatch: Watch {
    /// Takes note that the quick walk came to more states than it is given at first, and that it begins anew with as many as there may be. It may
    /// bring a certificate that it found otherwise; that one is judged.
    fn again(&mut self) -> Result<Option<Certificate>, AllocError>;

    /// Takes note that the quick walk found nothing, and that the walk over all that may be comes next. Where the quick walk gave up, it may bring a
    /// certificate that it found otherwise; that one is judged.
    fn next_walk(&mut self, gave_up: bool) -> Result<Option<Certificate>, AllocError>;
}

/// Whether a history has any witness, by walks of so many states at once at most, each of which a watch may end. A yes has one; where the answer is
/// no, no certificate is one.
pub fn decide<W: WalksWatch>(
    alloc: Global,
    history: &History,
    most: usize,
    watch: &mut W,
) -> Decision
    ensures { Says history.now.known result }
{
    match decided(alloc, history, most, watch) {
        Ok(decision) => decision,
        Err(AllocError) => Decision::NoMemory,
    }
}
