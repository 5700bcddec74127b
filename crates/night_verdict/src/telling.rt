//! The last line of a night, and its status.

ghost use Rattle.std.specs.Prelude.{◌≡◌, ◌<◌, ◌++◌, ◌∷◌, [], codes, IfOk, string_bytes};
ghost use Rattle.night_verdict.specs.Words.{night_status, first_line, lead_of, IsLineOf};

use crate::facts::{LeftAside, NightEnd, NightFacts, first_of_server};
use crate::judging::{Answered, Judgement};
use crate::verdict::{Cause, Doubt, NightVerdict};
use deciding_command::{FileDecision, reason_line};
use history_lines::procedure_name;
use nfs3_types::Procedure;
use night_answers::ProcedureAnswers;
use night_lanes::{Trouble, TroubleKind};
use program_streams::Report;
use std::alloc::{AllocError, Global};

/// The words of a trouble, if there is one.
fn trouble_words(alloc: Global, trouble: Option<&Trouble>) -> Result<String, AllocError> {
    match trouble {
        Some(trouble) => trouble.to_string(alloc),
        None => Ok(String::new(alloc)),
    }
}

/// The words of a server that didn't come up.
fn not_up_words(alloc: Global, end: NightEnd) -> Result<String, AllocError> {
    match end {
        NightEnd::NotUp(crash, seconds) => format!(in alloc;
            "after crash {crash} the server didn't answer NULL within {seconds} seconds"
        ),
        _ => Ok(String::new(alloc)),
    }
}

/// The words of a history that no order explains.
fn witness_words(alloc: Global, decision: &FileDecision) -> Result<String, AllocError> {
    match decision {
        FileDecision::NoWitness { event, call } => {
            format!(in alloc; "no witness: event {event} call {call}")
        }
        _ => Ok(String::new(alloc)),
    }
}

/// The words of a cause.
pub(crate) fn cause_words(
    alloc: Global,
    facts: &NightFacts<'_>,
    judged: &Judgement,
    cause: Cause,
) -> Result<String, AllocError> {
    match cause {
        Cause::Trouble => {
            trouble_words(alloc, first_of_server(facts.end, facts.troubles.kept()))
        }
        Cause::NotUp => not_up_words(alloc, facts.end),
        Cause::TooFew => {
            let answered = judged.answered.all.saturating_sub(facts.walked);
            format!(in alloc;
                "only {answered} judged calls of clients were answered, fewer than --at-least says"
            )
        }
        Cause::NoWitness => witness_words(alloc, &judged.decision),
    }
}

/// The words of eras that ended early.
fn end_words(alloc: Global, end: NightEnd) -> Result<String, AllocError> {
    match end {
        NightEnd::Whole | NightEnd::NotUp(_, _) => Ok(String::new(alloc)),
        NightEnd::NotDown(crash) => format!(in alloc;
            "the server answers on a connection from before crash {crash}: kill it before `crash` is written"
        ),
        NightEnd::OrdersEnded(crash) => format!(in alloc;
            "the orders end before crash {crash} and its `up`: write both lines, each with a line feed"
        ),
        NightEnd::NoOrder(crash, seconds) => format!(in alloc;
            "no order came for crash {crash}, or for the server's return, within {seconds} seconds"
        ),
        NightEnd::OtherOrder(crash) => format!(in alloc;
            "another order came than was due at crash {crash}: the orders are `crash` and `up`, in turn"
        ),
        NightEnd::Unreadable(crash) => format!(in alloc;
            "the orders can't be read at crash {crash}"
        ),
        NightEnd::MoreOrders(crash) => format!(in alloc;
            "an order came after crash {crash} and its `up`, which is the last that --rounds says"
        ),
        NightEnd::NoThread => String::from_str(alloc, "no thread can be made"),
        NightEnd::NoMemory => Err(AllocError),
    }
}

/// The words of a trouble on this side, if there is one; that memory ran out is the answer.
fn side_words(alloc: Global, trouble: Option<&Trouble>) -> Result<String, AllocError> {
    match trouble {
        Some(trouble) if trouble.kind == TroubleKind::NoMemory => Err(AllocError),
        _ => trouble_words(alloc, trouble),
    }
}

/// The words of a line, without what it begins with.
fn words_in(alloc: Global, line: &str) -> Result<String, AllocError> {
    let words = line.trim_end();
    String::from_str(alloc, words.strip_prefix("undecided: ").unwrap_or(words))
}

/// The words of what isn't decided of a history.
fn decision_words(alloc: Global, decision: &FileDecision) -> Result<String, AllocError> {
    match decision {
        FileDecision::BadHistory(fault) => {
            format!(in alloc; "the recording is no history: {fault}")
        }
        FileDecision::Undecided(undecided) => {
            let line = reason_line(alloc, undecided.reason)?;
            words_in(alloc, line.as_str())
        }
        _ => Ok(String::new(alloc)),
    }
}

/// The words of a history with too many failures that may answer any call.
fn excused_words(alloc: Global, answered: Answered) -> Result<String, AllocError> {
    let Answered { all, excused, .. } = answered;
    format!(in alloc;
        "{excused} of {all} replies are failures that may answer any call, such as NFS3ERR_ACCES: report.json has them"
    )
}

/// The name of the procedure of a number.
fn name_of(procedure: u32) -> &'static str {
    match Procedure::from_number(procedure) {
        Some(procedure) => procedure_name(procedure),
        None => "",
    }
}

/// The words of a procedure that did little.
fn little_words(alloc: Global, little: ProcedureAnswers) -> Result<String, AllocError> {
    let name = name_of(little.procedure);
    let ProcedureAnswers {
        answered,
        failed,
        idle,
        ..
    } = little;
    if failed == answered {
        return format!(in alloc;
            "no {name} of {answered} succeeded: each failed by a status that may answer any call: report.json has them"
        );
    }
    format!(in alloc;
        "{idle} of {answered} answers to {name} did nothing: they are failures that may answer any call, or gave or took nothing"
    )
}

/// The words of a history of whose answers too many did nothing.
fn idle_words(alloc: Global, answered: Answered) -> Result<String, AllocError> {
    if let Some(little) = answered.idleness.procedure {
        return little_words(alloc, little);
    }
    let (idle, all) = (answered.idleness.idle, answered.all);
    format!(in alloc;
        "{idle} of {all} answers did nothing: they are failures that may answer any call, or gave or took nothing"
    )
}

/// The words of calls that were left aside, if any were.
fn aside_words(alloc: Global, aside: Option<LeftAside>) -> Result<String, AllocError> {
    match aside {
        Some(LeftAside { count, lane, xid }) => format!(in alloc;
            "{count} calls were never answered, though changes asked behind them on their lanes were answered: the first is transaction {xid} of lane {lane}"
        ),
        None => Ok(String::new(alloc)),
    }
}

/// The words of what wasn't looked at behind the last crash.
fn unread_words(alloc: Global, unread: u64) -> Result<String, AllocError> {
    format!(in alloc;
        "{unread} objects or names that clients knew before the last crash weren't looked at behind it: say more --calls, or more --seconds"
    )
}

/// The words of a night of few calls.
fn few_words(alloc: Global, facts: &NightFacts<'_>, all: u64) -> Result<String, AllocError> {
    let answered = all.saturating_sub(facts.walked);
    let wanted = facts.wanted.saturating_sub(facts.walked);
    format!(in alloc;
        "only {answered} judged calls of clients were answered, of {wanted} at least: say by --at-least how many are enough"
    )
}

/// The words of a doubt; of one that memory ran out, that is the answer.
fn doubt_words(
    alloc: Global,
    facts: &NightFacts<'_>,
    judged: &Judgement,
    doubt: Doubt,
) -> Result<String, AllocError> {
    match doubt {
        Doubt::Ended => end_words(alloc, facts.end),
        Doubt::Trouble => side_words(alloc, facts.troubles.kept().first()),
        Doubt::Excused => excused_words(alloc, judged.answered),
        Doubt::Idle => idle_words(alloc, judged.answered),
        Doubt::LeftAside => aside_words(alloc, facts.left_aside),
        Doubt::Unread => unread_words(alloc, facts.unread),
        Doubt::Few => few_words(alloc, facts, judged.answered.all),
        Doubt::BadHistory | Doubt::Undecided => decision_words(alloc, &judged.decision),
    }
}

/// The words up to their first line feed.
fn first_line(words: &str) -> &str
    ensures { result.now ≡ first_line words.now }
{
    match words.split_once('\n') {
        Some((line, _)) => line,
        None => words,
    }
}

/// What the line of a doubt begins with.
fn lead_of(doubt: Doubt) -> &'static str
    ensures { result.now ≡ lead_of doubt }
{
    match doubt {
        Doubt::BadHistory => "refused: ",
        _ => "undecided: ",
    }
}

/// The line of a doubt, without its line feed.
pub(crate) fn doubt_text(
    alloc: Global,
    facts: &NightFacts<'_>,
    judged: &Judgement,
    doubt: Doubt,
) -> Result<String, AllocError> {
    let words = doubt_words(alloc, facts, judged, doubt)?;
    let (lead, words) = (lead_of(doubt), words.as_str());
    format!(in alloc; "{lead}{words}")
}

/// The line of a doubt.
fn doubt_line(alloc: Global, doubt: Doubt, words: &str) -> Result<String, AllocError>
    ensures { IfOk result (λ line. string_bytes line ≡ lead_of doubt ++ (first_line words.now ++ 10 ∷ [])) }
{
    let (lead, line) = (lead_of(doubt), first_line(words));
    format!(in alloc; "{lead}{line}\n")
}

/// The line of a no.
fn no_line(alloc: Global, words: &str) -> Result<String, AllocError>
    ensures { IfOk result (λ line. string_bytes line ≡ codes "no: " ++ (first_line words.now ++ 10 ∷ [])) }
{
    let line = first_line(words);
    format!(in alloc; "no: {line}\n")
}

/// The last line of a night, and its status: 0 after `yes`, 1 after `no: ..`, 2 after `undecided: ..` and `refused: ..`.
pub fn verdict_report(
    alloc: Global,
    facts: &NightFacts<'_>,
    judged: &Judgement,
) -> Result<Report, AllocError>
    ensures status { IfOk result (λ report. report.status ≡ night_status judged.now.verdict) }
    ensures line { IfOk result (λ report. IsLineOf judged.now.verdict report.line) }
    ensures known { IfOk result (λ report. report.status < 3) }
{
    match judged.verdict {
        NightVerdict::Yes => Ok(Report::new(0, String::from_str(alloc, "yes\n")?)),
        NightVerdict::No(cause) => {
            let words = cause_words(alloc, facts, judged, cause)?;
            Ok(Report::new(1, no_line(alloc, words.as_str())?))
        }
        NightVerdict::Doubt(doubt) => {
            let words = doubt_words(alloc, facts, judged, doubt)?;
            Ok(Report::new(2, doubt_line(alloc, doubt, words.as_str())?))
        }
    }
}
