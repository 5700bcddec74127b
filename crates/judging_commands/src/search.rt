//! What is said of a search in the bytes of a history file.

ghost use Rattle.std.specs.Prelude.{◌≡◌, ◌⊎◌, ◌<◌, ℕ, List, false, IfOk, IsErrAnd};
ghost use Rattle.std.specs.Io.KnownBytes.{Appends};
ghost use Rattle.program_streams.specs.Told.{Tells, memory_line};
ghost use Rattle.nfs_history.specs.declared.fault.HistoryFault.{HistoryFault};
ghost use Rattle.nfs_history.specs.FirstFault.{FirstFault};
ghost use Rattle.witness_check.specs.Witness.{AreAccepted};
ghost use Rattle.json_reports.specs.Words.{miss_line};
ghost use Rattle.judging_commands.specs.Missed.{IsMissed, IsMissedAs, IsMissedAsJson, IsRefusal};

use crate::objects::verdict_object;
use crate::teller::Teller;
use crate::words::{MOST_WORKERS, SearchRequest};
use cert_search::{SearchEnd, SearchGate, SearchRuntime, search_calls};
use certificate::{Certificate, write_certificate};
use decide::{Decision, WalksWatch, Watch, decide};
use first_look::look;
use json_reports::{SearchMiss, found_line, miss_line};
use nfs_history::{HistoryFault, KnownCalls, read_calls, read_history};
use program_streams::{Output, Report, line_of, tell, tell_answer, tell_want_of_memory};
use std::alloc::{AllocError, Global};
use std::time::Clock;
use witness_check::{FileVerdict, check_files};

/// How many states stand at once at most, where a decision is asked after a search found nothing.
const MOST_STATES: usize = 1_000;

/// In how many states calls are placed at most.
const MOST_STEPS: u64 = 200_000;

/// Ends a decision where a search's time is over, and after so many states.
#[derive(Drop)]
struct GateWatch<'g, G> {
    gate: &'g G,
    left: u64,
}

impl<'g, G: SearchGate> Watch for GateWatch<'g, G> {
    fn is_over(&mut self) -> bool {
        if self.left == 0 {
            return true;
        }
        self.left -= 1;
        self.gate.is_over()
    }

    fn see(&mut self, _event: usize, _states: usize) {}
}

impl<'g, G: SearchGate> WalksWatch for GateWatch<'g, G> {
    fn again(&mut self) -> Result<Option<Certificate>, AllocError> {
        Ok(None)
    }

    /// Sweeps were made before.
    fn next_walk(&mut self, _gave_up: bool) -> Result<Option<Certificate>, AllocError> {
        Ok(None)
    }
}

/// Why no certificate is printed.
#[derive(Drop)]
enum Miss {
    /// Nothing more was left to try.
    NotFound,
    /// A worker took as many branches as it may, and some are left.
    OutOfTurns,
    /// The time is over, and some are left.
    OutOfTime,
    /// The bytes are no history file.
    BadHistory(HistoryFault),
    NoMemory,
}

/// The text of a certificate, if `check_files` accepts it.
fn accepted_text(alloc: Global, history: &[u8], certificate: &Certificate) -> Result<Vec<u8>, Miss>
    ensures { IfOk result (λ text. AreAccepted history.now text.items) }
{
    let Ok(text) = write_certificate(alloc, certificate) else {
        return Err(Miss::NoMemory);
    };
    match check_files(alloc, history, text.as_slice()) {
        Ok(FileVerdict::Yes) => Ok(text),
        Ok(_) => Err(Miss::NotFound),
        Err(AllocError) => Err(Miss::NoMemory),
    }
}

/// The text of a certificate that a decision comes to where a search found none; else why the search found none, also where the time
/// is over.
fn decided_text<G: SearchGate>(
    alloc: Global,
    history: &[u8],
    turns: u64,
    gate: &G,
    miss: Miss,
) -> Result<Vec<u8>, Miss>
    ensures { IfOk result (λ text. AreAccepted history.now text.items) }
{
    if gate.is_over() {
        return Err(miss);
    }
    let Ok(known) = read_history(alloc, history) else {
        return Err(miss);
    };
    let mut watch = GateWatch {
        gate,
        left: turns.min(MOST_STEPS),
    };
    match decide(alloc, &known, MOST_STATES, &mut watch) {
        Decision::Yes(certificate) => accepted_text(alloc, history, &certificate),
        Decision::No(_) | Decision::Undecided(_) | Decision::NoMemory => Err(miss),
    }
}

/// The same where a search left branches: then it may have been ended by the time, which is told.
fn left_text<R: Eprint + Clock>(
    alloc: Global,
    history: &[u8],
    turns: u64,
    teller: &Teller<'_, R>,
) -> Result<Vec<u8>, Miss>
    ensures { IfOk result (λ text. AreAccepted history.now text.items) }
{
    if teller.is_over() {
        teller.tell_end();
        return Err(Miss::OutOfTime);
    }
    decided_text(alloc, history, turns, teller, Miss::OutOfTurns)
}

/// The text of a certificate of a history file, of which these are the calls.
fn text_of_calls<R: SearchRuntime + Eprint>(
    rt: &R,
    history: &[u8],
    known: &KnownCalls<'_>,
    request: &SearchRequest<'_>,
    teller: &Teller<'_, R>,
) -> Result<Vec<u8>, Miss>
    ensures { IfOk result (λ text. AreAccepted history.now text.items) }
{
    let alloc = rt.alloc();
    let Ok(seen) = look(alloc, known) else {
        return Err(Miss::NoMemory);
    };
    teller.tell_look(&seen);
    if seen.two_verifiers.is_some() {
        return Err(Miss::NotFound);
    }
    let workers = request.workers.clamp(1, MOST_WORKERS);
    let turns = request.turns;
    match search_calls(rt, known, workers, turns, teller) {
        SearchEnd::Found(certificate) => accepted_text(alloc, history, &certificate),
        SearchEnd::NotFound => decided_text(alloc, history, turns, teller, Miss::NotFound),
        SearchEnd::OutOfTurns => left_text(alloc, history, turns, teller),
        SearchEnd::NoMemory => Err(Miss::NoMemory),
    }
}

/// The text of a certificate of a history file.
fn certificate_of<R: SearchRuntime + Eprint>(
    rt: &R,
    history: &[u8],
    request: &SearchRequest<'_>,
    teller: &Teller<'_, R>,
) -> Result<Vec<u8>, Miss>
    ensures found { IfOk result (λ text. AreAccepted history.now text.items) }
    ensures refused { (fault : HistoryFault) → FirstFault history.now fault → IsErrAnd result IsRefusal }
{
    let known = match read_calls(rt.alloc(), history) {
        Ok(known) => known,
        Err(HistoryFault::NoMemory) => return Err(Miss::NoMemory),
        Err(fault) => return Err(Miss::BadHistory(fault)),
    };
    text_of_calls(rt, history, &known, request, teller)
}

/// What is said of bytes that are no history file.
fn refusal_of(alloc: Global, fault: HistoryFault) -> Result<Report, AllocError>
    ensures { IfOk result (λ report. report.status ≡ 2) }
{
    Ok(Report::new(2, line_of(alloc, "refused: ", &fault)?))
}

/// The same as a JSON object.
fn refusal_object(alloc: Global, fault: HistoryFault) -> Result<Report, AllocError>
    ensures { IfOk result (λ report. report.status ≡ 2) }
{
    verdict_object(alloc, FileVerdict::BadHistory(fault))
}

/// Searches a certificate of a history file, as [`search_history`], and says in lines what comes of it.
fn search_bytes<R: SearchRuntime + Eprint, O: Output>(
    rt: &R,
    history: &[u8],
    request: &SearchRequest<'_>,
    teller: &Teller<'_, R>,
    output: &mut O,
) -> u8
    // What is written with status 0 is a certificate's text with which the bytes are accepted.
    ensures found { result ≡ 0 → (text : List ℕ) × AreAccepted history.now text × Appends (O.contents output.old) (O.contents output.new) text }
    // Without one it is said so.
    ensures missed { result ≡ 1 → IsMissed (O.contents output.old) (O.contents output.new) }
    // Bytes that are no history file are refused, memory aside.
    ensures refused { (fault : HistoryFault) → FirstFault history.now fault → (result ≡ 2) ⊎ Tells result (O.contents output.old) (O.contents output.new) 3 memory_line }
    ensures memory_line { result ≡ 3 → Appends (O.contents output.old) (O.contents output.new) memory_line }
    ensures known { result < 4 }
{
    match certificate_of(rt, history, request, teller) {
        Ok(text) => tell(output, text.as_slice(), 0),
        Err(Miss::NotFound) => tell(output, b"not found\n", 1),
        Err(Miss::OutOfTurns) => tell(output, b"out of turns\n", 1),
        Err(Miss::OutOfTime) => tell(output, b"out of turns\n", 1),
        Err(Miss::BadHistory(fault)) => tell_answer(output, refusal_of(rt.alloc(), fault)),
        Err(Miss::NoMemory) => tell_want_of_memory(output),
    }
}

/// Says what text was found, as a JSON object.
fn tell_found<O: Output>(alloc: Global, text: &[u8], output: &mut O) -> u8
    ensures found { result ≡ 0 → (line : List ℕ) × Appends (O.contents output.old) (O.contents output.new) line }
    ensures memory_line { result ≡ 3 → Appends (O.contents output.old) (O.contents output.new) memory_line }
    ensures known { (result ≡ 0) ⊎ (1 < result) × (result < 4) }
{
    match found_line(alloc, text) {
        Ok(line) => tell(output, line.as_bytes(), 0),
        Err(AllocError) => tell_want_of_memory(output),
    }
}

/// Says why no text was found, as a JSON object.
fn tell_miss<O: Output>(miss: SearchMiss, output: &mut O) -> u8
    ensures { (result ≡ 2) ⊎ Tells result (O.contents output.old) (O.contents output.new) 1 (miss_line miss) }
{
    tell(output, miss_line(miss).as_bytes(), 1)
}

/// Searches a certificate of a history file, as [`search_history`], and says as a JSON object what comes of it.
fn search_to_json<R: SearchRuntime + Eprint, O: Output>(
    rt: &R,
    history: &[u8],
    request: &SearchRequest<'_>,
    teller: &Teller<'_, R>,
    output: &mut O,
) -> u8
    // A line is written with status 0 only where there is a certificate's text with which the bytes are accepted.
    ensures found { result ≡ 0 → (text line : List ℕ) × AreAccepted history.now text × Appends (O.contents output.old) (O.contents output.new) line }
    ensures missed { result ≡ 1 → IsMissedAsJson (O.contents output.old) (O.contents output.new) }
    ensures refused { (fault : HistoryFault) → FirstFault history.now fault → (result ≡ 2) ⊎ Tells result (O.contents output.old) (O.contents output.new) 3 memory_line }
    ensures memory_line { result ≡ 3 → Appends (O.contents output.old) (O.contents output.new) memory_line }
    ensures known { result < 4 }
{
    match certificate_of(rt, history, request, teller) {
        Ok(text) => tell_found(rt.alloc(), text.as_slice(), output),
        Err(Miss::NotFound) => tell_miss(SearchMiss::NotFound, output),
        Err(Miss::OutOfTurns) => tell_miss(SearchMiss::OutOfTurns, output),
        Err(Miss::OutOfTime) => tell_miss(SearchMiss::OutOfTime, output),
        Err(Miss::BadHistory(fault)) => tell_answer(output, refusal_object(rt.alloc(), fault)),
        Err(Miss::NoMemory) => tell_want_of_memory(output),
    }
}

/// Searches a certificate of a history file as it is asked for, and writes its text; or says that none was found. It gives the exit
/// status: 0 with a certificate, 1 without one, 2 for bytes that are no history file and for a failed write, 3 for want of memory.
///
/// That none was found doesn't say that there is none. What is written was judged by `check_files` once more. The threads are those
/// of `search_calls`; unless it is to be quiet, standard error is told what a first look found, and once a second how far the search is.
/// Where the first look found two write verifiers in an era, nothing is searched: no certificate is accepted then.
pub fn search_history<R: SearchRuntime + Eprint, O: Output>(
    rt: &R,
    request: &SearchRequest<'_>,
    history: &[u8],
    output: &mut O,
) -> u8
    // What is written with status 0 is a certificate's text with which the bytes are accepted, or a JSON object where there is such a text.
    ensures found { result ≡ 0 → (text line : List ℕ) × AreAccepted history.now text × (request.now.is_json ≡ false → line ≡ text)
        × Appends (O.contents output.old) (O.contents output.new) line }
    // Without one it is said so.
    ensures missed { result ≡ 1 → IsMissedAs request.now.is_json (O.contents output.old) (O.contents output.new) }
    // Bytes that are no history file are refused, memory aside.
    ensures refused { (fault : HistoryFault) → FirstFault history.now fault → (result ≡ 2) ⊎ Tells result (O.contents output.old) (O.contents output.new) 3 memory_line }
    ensures memory_line { result ≡ 3 → Appends (O.contents output.old) (O.contents output.new) memory_line }
    ensures known { result < 4 }
{
    let teller = Teller::new(rt, request);
    if request.is_json {
        search_to_json(rt, history, request, &teller, output)
    } else {
        search_bytes(rt, history, request, &teller, output)
    }
}
