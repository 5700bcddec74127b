//! The answers of a history by procedure.

ghost use Rattle.std.specs.Prelude.{◌≡◌, IfOk, map, find};
ghost use Rattle.std.specs.List.{range_with_len};
ghost use Rattle.night_answers.specs.Answers.{idle_procedure, is_idle_procedure, idle_answers, is_idle};
ghost use Rattle.night_answers.specs.Noting.{note_answered, note_of, answered_of, failed_of, idle_of, answers_noted, idle_noted};

use crate::idle::{has_status, is_excused_reply, was_idle};
use nfs_history::{KnownCalls, Meaning, RecordedCall};
use nfs3_types::{Failure, NfsCall, Outcome, Procedure};
use std::alloc::{AllocError, Global};

/// How many calls of a procedure were answered, and how many of the answers did nothing.
#[derive(Clone, Copy)]
pub struct ProcedureAnswers {
    /// Its number (RFC 1813, section 3.3).
    pub procedure: u32,
    /// How many judged calls of it were answered.
    pub answered: u64,
    /// How many of the answers were failures that may answer any call, but for an INVAL to a RENAME.
    pub failed: u64,
    /// How many of the answers did nothing: failures that may answer any call, but for INVAL, and successes that gave or took nothing.
    pub idle: u64,
}

/// How much a server did nothing.
#[derive(Clone, Copy)]
pub struct Idleness {
    /// How many answers did nothing.
    pub idle: u64,
    /// The first procedure that did little.
    pub procedure: Option<ProcedureAnswers>,
}

/// What came of a call.
#[derive(Clone, Copy)]
struct Note {
    procedure: u32,
    is_answered: bool,
    is_failed: bool,
    is_idle: bool,
}

/// The number of every procedure is below this one.
const PROCEDURES: u32 = 22;

/// Of how many answers at least something is said.
const LEAST: u64 = 8;

/// What came of a call that was answered so.
fn note_answered(asked: &NfsCall, outcome: &Outcome) -> Note
    ensures { result ≡ note_answered asked.now outcome.now }
{
    let procedure = asked.procedure().number();
    let (is_failed, is_idle) = match outcome {
        Outcome::Received(reply) => {
            let is_barred = procedure == Procedure::Rename.number()
                && has_status(reply, Failure::Invalid);
            (
                is_excused_reply(reply) && !is_barred,
                was_idle(asked, reply),
            )
        }
        Outcome::Taken(_) => (false, false),
    };
    Note {
        procedure,
        is_answered: true,
        is_failed,
        is_idle,
    }
}

/// What came of a call.
fn note_of(call: &RecordedCall) -> Note
    ensures { result ≡ note_of call.now }
{
    match (&call.meaning, &call.outcome) {
        (Meaning::Judged(asked), Some(outcome)) => note_answered(asked, outcome),
        _ => Note {
            procedure: 0,
            is_answered: false,
            is_failed: false,
            is_idle: false,
        },
    }
}

/// What came of each call.
fn notes_of(alloc: Global, history: &KnownCalls<'_>) -> Result<Vec<Note>, AllocError>
    ensures { IfOk result (λ notes. notes.items ≡ map note_of history.now.calls) }
{
    let count = history.count();
    let mut notes = Vec::with_capacity(alloc, count)?;
    for index in 0..count {
        let Some(call) = history.call(alloc, index as u64 + 1)? else {
            unreachable!();
        };
        notes.push(note_of(&call))?;
    }
    Ok(notes)
}

/// How many of these answers did nothing.
fn idle_noted(notes: &[Note]) -> u64
    ensures { result ≡ idle_noted notes.now }
{
    notes.iter().filter(|note| note.is_idle).count() as u64
}

/// How many calls of a procedure among these were answered.
fn answered_of(notes: &[Note], procedure: u32) -> u64
    ensures { result ≡ answered_of notes.now procedure }
{
    notes
        .iter()
        .filter(|note| note.is_answered && note.procedure == procedure)
        .count() as u64
}

/// How many of them by a failure that may answer any call.
fn failed_of(notes: &[Note], procedure: u32) -> u64
    ensures { result ≡ failed_of notes.now procedure }
{
    notes
        .iter()
        .filter(|note| note.is_failed && note.procedure == procedure)
        .count() as u64
}

/// How many of the answers did nothing.
fn idle_of(notes: &[Note], procedure: u32) -> u64
    ensures { result ≡ idle_of notes.now procedure }
{
    notes
        .iter()
        .filter(|note| note.is_idle && note.procedure == procedure)
        .count() as u64
}

/// The answers to a procedure among these.
fn answers_noted(notes: &[Note], procedure: u32) -> ProcedureAnswers
    ensures { result ≡ answers_noted notes.now procedure }
{
    ProcedureAnswers {
        procedure,
        answered: answered_of(notes, procedure),
        failed: failed_of(notes, procedure),
        idle: idle_of(notes, procedure),
    }
}

/// Whether a procedure did little.
fn is_idle_procedure(answers: ProcedureAnswers) -> bool
    ensures { result ≡ is_idle_procedure answers }
{
    answers.answered >= LEAST
        && (answers.failed == answers.answered || answers.answered / 4 < answers.idle)
}

/// The first procedure that did little, by these notes.
fn first_idle(notes: &[Note]) -> Option<ProcedureAnswers>
    ensures { result ≡ find is_idle_procedure (map (answers_noted notes.now) (range_with_len 0 22)) }
{
    (0..PROCEDURES)
        .map(|procedure| answers_noted(notes, procedure))
        .find(|answers| is_idle_procedure(*answers))
}

/// How many answers of a history did nothing, and the first procedure that did little: of whose answers, eight at least, each is a failure
/// that may answer any call, or over a quarter did nothing. It takes the time of reading each call once more.
pub fn idleness_of(alloc: Global, history: &KnownCalls<'_>) -> Result<Idleness, AllocError>
    ensures all { IfOk result (λ found. found.idle ≡ idle_answers history.now.calls) }
    ensures procedure { IfOk result (λ found. found.procedure ≡ idle_procedure history.now.calls) }
{
    let notes = notes_of(alloc, history)?;
    Ok(Idleness {
        idle: idle_noted(notes.as_slice()),
        procedure: first_idle(notes.as_slice()),
    })
}

/// Whether a server did too little for a yes: a procedure did little, or of all answers, of which there are so many, eight at least and
/// over an eighth did nothing.
pub fn is_idle(answered: u64, found: Idleness) -> bool
    ensures { result ≡ is_idle answered found }
{
    found.procedure.is_some() || found.idle >= LEAST && answered / 8 < found.idle
}
