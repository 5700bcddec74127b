//! The command line.

ghost use Rattle.std.specs.Prelude.{◌≡◌, ◌⊎◌, ◌<◌, ◌≤◌, ℕ, true, false, List, length, Option, IfSome, IfOk, IsOk, OnErr, Ok};
ghost use Rattle.std.specs.Io.KnownBytes.{Appends};
ghost use Rattle.showing_command.specs.judging_commands_specs.Bundle.{IsAcceptedBundle, IsRefutedBundle};
ghost use Rattle.showing_command.specs.judging_commands_specs.Objects.{HasStatusOfRead};
ghost use Rattle.showing_command.specs.judging_commands_specs.Report.{IsSaid, IsSaidOfRead, MayTell, no_line};
ghost use Rattle.showing_command.specs.judging_commands_specs.Reported.{IsReportedOfRead};
ghost use Rattle.program_streams.specs.Streams.{AppendsFront, GivesAll, HasRoom};
ghost use Rattle.program_streams.specs.Told.{Tells, memory_line};
ghost use Rattle.witness_check.specs.declared.fault.Fault.{Fault};

use crate::draw::draw_path;
use crate::explaining::explain_path;
use crate::files::{
    check_paths, check_paths_as_json, read_certificate_file, read_history_file, report_paths,
    report_paths_as_json,
};
use crate::runs::{run_path, serve_words, tell_known};
use clap::ArgMatches;
use clap::error::ErrorKind;
use command_words::program;
use deciding_command::{
    DecideRequest, PrefixRequest, decide_history, decide_request, is_watched, prefix_history,
    prefix_request,
};
use drawing_command::{DrawRequest, draw_request};
use import_command::{ImportRequest, import_request, run_import};
use mending_command::{MendRequest, mend_request, run_mend};
use night_command::explaining_command::{ExplainRequest, explain_request};
use night_command::{TestRequest, run_test, test_request};
use program_streams::{Input, Output, Report, tell, tell_answer, tell_want_of_memory};
use recording_command::{RecordingRuntime, TapRequest, run_tap, tap_request};
use serving_commands::{RunRequest, ServeRequest, run_request, serve_request};
use showing_command::judging_commands::{
    SearchRequest, refused_as_json, run_bundle, search_history, search_request,
};
use showing_command::{LookFault, ShowRequest, look_of, show_bytes, show_judged, show_request};
use std::alloc::{AllocError, Global};
use std::convert::AsStr;
use std::rt::Files;

/// The paths of a history and a certificate, and how they are judged.
#[derive(Clone, Copy)]
struct FilesRequest<'a> {
    history: &'a str,
    certificate: &'a str,
    /// Whether what is said is printed as a JSON object.
    is_json: bool,
}

/// What the words ask for.
#[derive(Clone, Copy)]
enum Request<'a> {
    /// The verdict on the bundle on the input.
    Bundle,
    /// The verdict on two files.
    Check(FilesRequest<'a>),
    /// What a history comes to, and the verdict on two files.
    Report(FilesRequest<'a>),
    /// The events of a history.
    Show(ShowRequest<'a>),
    /// A picture of a history.
    Draw(DrawRequest<'a>),
    /// A certificate.
    Search(SearchRequest<'a>),
    /// Whether there is a certificate.
    Decide(DecideRequest<'a>),
    /// Why a certificate is no witness.
    Explain(ExplainRequest<'a>),
    /// The first events of a history, in a file.
    Prefix(PrefixRequest<'a>),
    /// A history of what a recorder left on disk.
    Mend(MendRequest<'a>),
    /// A history of a capture of packets.
    Import(ImportRequest<'a>),
    /// A recording.
    Tap(TapRequest<'a>),
    /// A run of a plan.
    Run(RunRequest<'a>),
    /// Connections to the bundled server.
    Serve(ServeRequest<'a>),
    /// A night of a server.
    Test(TestRequest<'a>),
}

/// What the words ask for that may wait for other threads, or that says more on standard error.
#[derive(Clone, Copy)]
pub(crate) enum Waiting<'a> {
    Mend(MendRequest<'a>),
    Import(ImportRequest<'a>),
    Search(SearchRequest<'a>),
    Decide(DecideRequest<'a>),
    Explain(ExplainRequest<'a>),
    Tap(TapRequest<'a>),
    Run(RunRequest<'a>),
    Serve(ServeRequest<'a>),
    Test(TestRequest<'a>),
}

/// What the words behind `check` or `report` ask for.
fn files_request<'a>(words: &ArgMatches<'a>) -> FilesRequest<'a> {
    FilesRequest {
        // The parser asks for both paths.
        history: words.get_str("HISTORY").unwrap_or(""),
        certificate: words.get_str("CERTIFICATE").unwrap_or(""),
        is_json: words.get_flag("json"),
    }
}

/// What is wrong with the words after `tap` or `test` that the parser takes.
const NO_HOST: &str = "the value of --host is neither an IP address nor localhost";

/// What the words after `tap` ask for, or what is wrong with them.
fn tap_words<'a>(words: &ArgMatches<'a>) -> Result<Request<'a>, &'static str> {
    match tap_request(words) {
        Some(request) => Ok(Request::Tap(request)),
        None => Err(NO_HOST),
    }
}

/// What the words after `test` ask for, or what is wrong with them.
fn test_words<'a>(words: &ArgMatches<'a>) -> Result<Request<'a>, &'static str> {
    match test_request(words) {
        Some(request) => Ok(Request::Test(request)),
        None => Err(NO_HOST),
    }
}

/// What the words after `show` ask for, or what is wrong with them.
fn show_words<'a>(words: &ArgMatches<'a>) -> Result<Request<'a>, &'static str> {
    match show_request(words) {
        Some(request) => Ok(Request::Show(request)),
        None => Err("the value of --procedure is no procedure of NFS version 3"),
    }
}

/// What the words after a command ask for, or what is wrong with them.
fn words_of<'a>(verb: &str, words: &ArgMatches<'a>) -> Result<Request<'a>, &'static str> {
    match verb {
        "tap" => tap_words(words),
        "test" => test_words(words),
        "mend" => Ok(Request::Mend(mend_request(words))),
        "import" => Ok(Request::Import(import_request(words))),
        "show" => show_words(words),
        "draw" => Ok(Request::Draw(draw_request(words))),
        "search" => Ok(Request::Search(search_request(words))),
        "decide" => Ok(Request::Decide(decide_request(words))),
        "explain" => Ok(Request::Explain(explain_request(words))),
        "prefix" => Ok(Request::Prefix(prefix_request(words))),
        "run" => Ok(Request::Run(run_request(words))),
        "serve" => Ok(Request::Serve(serve_request(words))),
        "report" => Ok(Request::Report(files_request(words))),
        // The parser knows no other word than `check`.
        _ => Ok(Request::Check(files_request(words))),
    }
}

/// What the parser's matches ask for, or what is wrong with them.
fn request_of<'a>(matches: &ArgMatches<'a>) -> Result<Request<'a>, &'static str> {
    match matches.subcommand() {
        Some((verb, words)) => words_of(verb, words),
        None => Ok(Request::Bundle),
    }
}

/// The parser's text of a mistake.
fn mistake(alloc: Global, message: &str) -> Result<clap::Error, AllocError> {
    let mut program = program(alloc)?;
    program.error(ErrorKind::ValueValidation, message)
}

/// What the words ask for, or the parser's text.
fn read_words<'a, S: AsStr>(alloc: Global, words: &'a [S]) -> Result<Request<'a>, clap::Error> {
    let matches = program(alloc)?.try_get_matches_from(words)?;
    match request_of(&matches) {
        Ok(request) => Ok(request),
        Err(message) => Err(mistake(alloc, message)?),
    }
}

/// Writes the parser's text, and gives 2 for a mistake, and 0 for what was asked for.
fn tell_parser<O: Output>(alloc: Global, output: &mut O, error: &clap::Error) -> u8
    ensures memory_line { result ≡ 3
        → Appends (O.contents output.old) (O.contents output.new) memory_line }
    ensures known { result < 4 }
{
    if error.kind() == ErrorKind::OutOfMemory {
        return tell_want_of_memory(output);
    }
    match error.to_string(alloc) {
        Ok(text) => {
            let status = if error.use_stderr() { 2 } else { 0 };
            tell(output, text.as_bytes(), status)
        }
        Err(AllocError) => tell_want_of_memory(output),
    }
}

/// What is said of two files, as a line or as a JSON object.
#[tactic(auto, using(crate::proofs::Objects::known_object, crate::proofs::Objects::known_line))]
fn check_files_at<R: Files + AllocGlobal + Eprint>(
    rt: &R,
    request: &FilesRequest<'_>,
) -> Result<Report, AllocError>
    // The answer is what is said of what was read.
    ensures said { request.now.is_json ≡ false → IfOk result (λ report. (history_read : Option (List ℕ)) × (certificate_read : Option (List ℕ))
        × IsSaidOfRead history_read certificate_read report.status report.line) }
    // As an object too, the status is that of the verdict on what was read.
    ensures object { request.now.is_json ≡ true → IfOk result (λ report. (history_read : Option (List ℕ)) × (certificate_read : Option (List ℕ))
        × HasStatusOfRead history_read certificate_read report.status) }
    ensures known { IfOk result (λ report. report.status < 3) }
{
    if request.is_json {
        check_paths_as_json(rt, request.history, request.certificate)
    } else {
        check_paths(rt, request.history, request.certificate)
    }
}

/// What is reported of two files, as lines or as a JSON object.
#[tactic(auto, using(crate::proofs::Objects::known_object, crate::proofs::Objects::known_report))]
fn report_files_at<R: Files + AllocGlobal + Eprint>(
    rt: &R,
    request: &FilesRequest<'_>,
) -> Result<Report, AllocError>
    // The answer is what is reported of what was read.
    ensures said { request.now.is_json ≡ false → IfOk result (λ report. (history_read : Option (List ℕ)) × (certificate_read : Option (List ℕ))
        × IsReportedOfRead history_read certificate_read report.status report.line) }
    // As an object too, the status is that of the verdict on what was read.
    ensures object { request.now.is_json ≡ true → IfOk result (λ report. (history_read : Option (List ℕ)) × (certificate_read : Option (List ℕ))
        × HasStatusOfRead history_read certificate_read report.status) }
    ensures known { IfOk result (λ report. report.status < 3) }
{
    if request.is_json {
        report_paths_as_json(rt, request.history, request.certificate)
    } else {
        report_paths(rt, request.history, request.certificate)
    }
}

/// Shows the events of a history as [`show_bytes`], or as [`show_judged`] where there is a certificate's text.
fn show_history<O: Output>(
    alloc: Global,
    request: &ShowRequest<'_>,
    history: &[u8],
    certificate: Option<&[u8]>,
    output: &mut O,
) -> u8
    ensures memory_line { result ≡ 3
        → Appends (O.contents output.old) (O.contents output.new) memory_line }
    ensures known { result < 4 }
{
    match look_of(alloc, request) {
        Ok(look) => match certificate {
            Some(text) => show_judged(alloc, history, text, look, output),
            None => show_bytes(alloc, history, look, output),
        },
        Err(LookFault::BadHandle) => tell(output, b"refused: bad handle\n", 2),
        Err(LookFault::NoMemory) => tell_want_of_memory(output),
    }
}

/// Shows the events of the history at a path, as [`show_history`], by the certificate at another where one is said.
fn show_path<R: Files + AllocGlobal + Eprint, O: Output>(
    rt: &R,
    request: &ShowRequest<'_>,
    output: &mut O,
) -> u8
    ensures memory_line { result ≡ 3
        → Appends (O.contents output.old) (O.contents output.new) memory_line }
    ensures known { result < 4 }
{
    let history = match read_history_file(rt, request.history) {
        Ok(Some(bytes)) => bytes,
        Ok(None) => return tell(output, b"refused: unreadable history\n", 2),
        Err(AllocError) => return tell_want_of_memory(output),
    };
    let Some(path) = request.certificate else {
        return show_history(rt.alloc(), request, history.as_slice(), None, output);
    };
    match read_certificate_file(rt, path) {
        Ok(Some(text)) => {
            let certificate = Some(text.as_slice());
            show_history(rt.alloc(), request, history.as_slice(), certificate, output)
        }
        Ok(None) => tell(output, b"refused: unreadable certificate\n", 2),
        Err(AllocError) => tell_want_of_memory(output),
    }
}

/// Writes the first events of the history at a path, as [`prefix_history`].
fn prefix_path<R: Files + AllocGlobal + Eprint, O: Output>(
    rt: &R,
    request: &PrefixRequest<'_>,
    output: &mut O,
) -> u8
    ensures memory_line { result ≡ 3
        → Appends (O.contents output.old) (O.contents output.new) memory_line }
    ensures known { result < 4 }
{
    match read_history_file(rt, request.history) {
        Ok(Some(bytes)) => prefix_history(rt, request, bytes.as_slice(), output),
        Ok(None) => tell(output, b"refused: unreadable history\n", 2),
        Err(AllocError) => tell_want_of_memory(output),
    }
}

/// Says that a history can't be read, as a line or as a JSON object.
fn tell_unreadable<O: Output>(alloc: Global, is_json: bool, output: &mut O) -> u8
    ensures memory_line { result ≡ 3
        → Appends (O.contents output.old) (O.contents output.new) memory_line }
    ensures known { result < 4 }
{
    if is_json {
        tell_known(output, refused_as_json(alloc, "unreadable history"))
    } else {
        tell(output, b"refused: unreadable history\n", 2)
    }
}

/// Searches a certificate of the history at a path, as [`search_history`].
fn search_path<R: RecordingRuntime, O: Output>(
    rt: &R,
    request: &SearchRequest<'_>,
    output: &mut O,
) -> u8
    ensures memory_line { result ≡ 3
        → Appends (O.contents output.old) (O.contents output.new) memory_line }
    ensures known { result < 4 }
{
    match read_history_file(rt, request.history) {
        Ok(Some(bytes)) => search_history(rt, request, bytes.as_slice(), output),
        Ok(None) => tell_unreadable(rt.alloc(), request.is_json, output),
        Err(AllocError) => tell_want_of_memory(output),
    }
}

/// Decides whether the history at a path has any certificate, as [`decide_history`].
fn decide_path<R: RecordingRuntime, O: Output>(
    rt: &R,
    request: &DecideRequest<'_>,
    output: &mut O,
) -> u8
    ensures memory_line { result ≡ 3
        → Appends (O.contents output.old) (O.contents output.new) memory_line }
    ensures known { result < 4 }
{
    let mut request = *request;
    request.effort.is_told = is_watched(rt);
    match read_history_file(rt, request.history) {
        Ok(Some(bytes)) => decide_history(rt, &request, bytes.as_slice(), output),
        Ok(None) => tell(output, b"refused: unreadable history\n", 2),
        Err(AllocError) => tell_want_of_memory(output),
    }
}

/// Does what was asked for; what may wait is handed back, and nothing is read or written for it.
fn judge_request<'a, R: Files + AllocGlobal + Eprint, I: Input, O: Output>(
    rt: &R,
    request: Request<'a>,
    input: &mut I,
    output: &mut O,
) -> Result<u8, Waiting<'a>>
    ensures memory_line { result ≡ Ok 3
        → Appends (O.contents output.old) (O.contents output.new) memory_line }
    ensures known { IfOk result (λ given. given < 4) }
    ensures waiting { OnErr result ((output.new ≡ output.old) × (input.new ≡ input.old)) }
{
    match request {
        Request::Bundle => Ok(run_bundle(rt.alloc(), input, output)),
        Request::Check(request) => Ok(tell_answer(output, check_files_at(rt, &request))),
        Request::Report(request) => Ok(tell_answer(output, report_files_at(rt, &request))),
        Request::Show(request) => Ok(show_path(rt, &request, output)),
        Request::Draw(request) => Ok(draw_path(rt, &request, output)),
        Request::Prefix(request) => Ok(prefix_path(rt, &request, output)),
        Request::Mend(request) => Err(Waiting::Mend(request)),
        Request::Import(request) => Err(Waiting::Import(request)),
        Request::Search(request) => Err(Waiting::Search(request)),
        Request::Decide(request) => Err(Waiting::Decide(request)),
        Request::Explain(request) => Err(Waiting::Explain(request)),
        Request::Tap(request) => Err(Waiting::Tap(request)),
        Request::Run(request) => Err(Waiting::Run(request)),
        Request::Serve(request) => Err(Waiting::Serve(request)),
        Request::Test(request) => Err(Waiting::Test(request)),
    }
}

/// The same of what words ask for that were said; a mistake in them is told.
fn judge_said<'a, R: Files + AllocGlobal + Eprint, S: AsStr, I: Input, O: Output>(
    rt: &R,
    words: &'a [S],
    input: &mut I,
    output: &mut O,
) -> Result<u8, Waiting<'a>>
    ensures memory_line { result ≡ Ok 3
        → Appends (O.contents output.old) (O.contents output.new) memory_line }
    ensures known { IfOk result (λ given. given < 4) }
    ensures waiting { OnErr result ((output.new ≡ output.old) × (input.new ≡ input.old)) }
{
    match read_words(rt.alloc(), words) {
        Ok(request) => judge_request(rt, request, input, output),
        Err(error) => Ok(tell_parser(rt.alloc(), output, &error)),
    }
}

/// Judges what the words of a command line ask for, as [`run_words`]; where they ask for what may wait, that is handed back, and
/// nothing is read or written.
pub(crate) fn judge_words<'a, R: Files + AllocGlobal + Eprint, S: AsStr, I: Input, O: Output>(
    rt: &R,
    words: &'a [S],
    input: &mut I,
    output: &mut O,
) -> Result<u8, Waiting<'a>>
    // Without words, as `run_bundle`.
    ensures bundle { length words.now ≤ 1 → IsOk result }
    ensures bundle_yes { length words.now ≤ 1 → result ≡ Ok 0
        → IfSome (I.remaining input.old) IsAcceptedBundle }
    ensures bundle_no { length words.now ≤ 1 → result ≡ Ok 1
        → (fault : Fault) × IfSome (I.remaining input.old) (IsRefutedBundle fault)
        × Appends (O.contents output.old) (O.contents output.new) (no_line fault) }
    ensures bundle_told { length words.now ≤ 1 → (line : List ℕ) × MayTell (I.remaining input.old) line
        × AppendsFront (O.contents output.old) (O.contents output.new) line }
    ensures bundle_exact { length words.now ≤ 1 → (bytes line : List ℕ) (status : ℕ) → IsSaid bytes status line
        → GivesAll (I.remaining input.old) (I.reads_left input.old) bytes
        → HasRoom (O.room output.old) line → HasRoom (O.room output.old) memory_line
        → IfOk result (λ given. Tells given (O.contents output.old) (O.contents output.new) status line
        ⊎ Tells given (O.contents output.old) (O.contents output.new) 3 memory_line) }

    // With any words.
    ensures memory_line { result ≡ Ok 3
        → Appends (O.contents output.old) (O.contents output.new) memory_line }
    ensures known { IfOk result (λ given. given < 4) }

    // With words that ask for what may wait.
    ensures waiting { OnErr result ((output.new ≡ output.old) × (input.new ≡ input.old)) }
{
    let alloc = rt.alloc();
    if words.len() < 2 {
        return Ok(run_bundle(alloc, input, output));
    }
    judge_said(rt, words, input, output)
}

/// Does what the words of a command line ask for, of which the first is the program's name, and gives the exit status: 0 for a yes,
/// for a text that was asked for, for a certificate that was found, and for a recording; 1 for a no, where no certificate was found,
/// and where the bundled server failed; 2 for a refusal, a fault of the command line or a failed write; 3 for want of memory. What is
/// said goes to the one output, but for what is told while a search, a recording or connections go on, and for what is wrong with a file:
/// that is said on standard error.
///
/// Without further words it is `run_bundle`. With `check` and two paths both files are read, in this order, before
/// anything is judged, and what is said is what `judge_read` gives; with `report` and two paths it is what `report_read`
/// gives; with `show` and a path a line for each event, and the first fault of the history; with `draw` and one path or two what
/// `draw_history` gives; with `prefix`, a path, a number of events and a path to write what `prefix_history` gives; with `mend`, of a file and a path to write, what [`run_mend`] gives, and with
/// `import` what [`run_import`] gives; which words ask for that, which files are opened and what the parser's texts are no clause
/// says. With `search` and a path it is what `search_history` gives, with `decide` and a path what
/// `decide_history` gives; with `explain` and two paths what `explain_read` gives, and with one what `explain_history` gives; with `run`, a
/// path and two paths to write it runs a text, with `serve` it serves connections, with `tap` it records, and with `test` it drives a server,
/// as [`run_test`]: these seven may wait or take long, the last three for as long as they are let.
pub fn run_words<R: RecordingRuntime, S: AsStr, I: Input, O: Output>(
    rt: &R,
    words: &[S],
    input: &mut I,
    output: &mut O,
) -> u8
    // Without words, as `run_bundle`.
    ensures bundle_yes { length words.now ≤ 1 → result ≡ 0
        → IfSome (I.remaining input.old) IsAcceptedBundle }
    ensures bundle_no { length words.now ≤ 1 → result ≡ 1
        → (fault : Fault) × IfSome (I.remaining input.old) (IsRefutedBundle fault)
        × Appends (O.contents output.old) (O.contents output.new) (no_line fault) }
    ensures bundle_told { length words.now ≤ 1 → (line : List ℕ) × MayTell (I.remaining input.old) line
        × AppendsFront (O.contents output.old) (O.contents output.new) line }
    ensures bundle_exact { length words.now ≤ 1 → (bytes line : List ℕ) (status : ℕ) → IsSaid bytes status line
        → GivesAll (I.remaining input.old) (I.reads_left input.old) bytes
        → HasRoom (O.room output.old) line → HasRoom (O.room output.old) memory_line
        → Tells result (O.contents output.old) (O.contents output.new) status line
        ⊎ Tells result (O.contents output.old) (O.contents output.new) 3 memory_line }

    // With any words.
    ensures memory_line { result ≡ 3
        → Appends (O.contents output.old) (O.contents output.new) memory_line }
    ensures known { result < 4 }
{
    match judge_words(rt, words, input, output) {
        Ok(status) => status,
        Err(Waiting::Search(request)) => search_path(rt, &request, output),
        Err(Waiting::Decide(request)) => decide_path(rt, &request, output),
        Err(Waiting::Explain(request)) => explain_path(rt, &request, output),
        Err(Waiting::Mend(request)) => run_mend(rt, &request, output),
        Err(Waiting::Import(request)) => run_import(rt, &request, output),
        Err(Waiting::Tap(request)) => run_tap(rt, &request, input, output),
        Err(Waiting::Run(request)) => run_path(rt, &request, output),
        Err(Waiting::Serve(request)) => serve_words(rt, &request, output),
        Err(Waiting::Test(request)) => run_test(rt, &request, input, output),
    }
}
