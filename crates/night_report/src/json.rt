//! A night as an object of JSON.

use crate::coverage::{
    Row, is_met, judged_procedures, met_procedures, met_results, procedure_numbers, row_of,
    status_numbers,
};
use crate::hints::rights_hint;
use crate::report::{NightReport, Numbers, Request};
use failure_causes::{CauseCounts, cause_name};
use history_lines::status_name;
use night_lanes::{Counts, Trouble, TroubleKind, Troubles};
use serde::{Described, Serialize, Serializer};
use std::alloc::{AllocError, Global};
use tree_answers::causes;

/// The whole object.
#[derive(Clone, Copy, Serialize)]
struct Whole<'n, 'a> {
    verdict: Verdict<'n, 'a>,
    request: Request<'a>,
    numbers: Numbers,
    coverage: Coverage<'n>,
    denied: u64,
    too_weak: u64,
    hint: Option<&'static str>,
    procedures: Procedures<'n>,
    troubles: TroubleList<'n>,
    more_troubles: u64,
}

#[derive(Clone, Copy, Serialize)]
struct Verdict<'n, 'a> {
    status: u8,
    line: &'a str,
    reasons: Reasons<'n>,
}

/// Lines.
#[derive(Clone, Copy)]
struct Reasons<'n>(&'n [String]);

impl Described for Reasons<'_> {}

impl Serialize for Reasons<'_> {
    fn serialize<S: Serializer>(&self, out: &mut S) -> Result<(), S::Error> {
        out.begin_seq(None)?;
        for reason in self.0 {
            out.str(reason.as_str())?;
        }
        out.end_seq()
    }
}

#[derive(Clone, Copy, Serialize)]
struct Coverage<'n> {
    procedures: u64,
    of: u64,
    missing: Missing<'n>,
    statuses: Statuses<'n>,
    results: u64,
    causes: Option<MetCauses>,
}

/// How often each cause made a call fail, of those that did.
#[derive(Clone, Copy)]
struct MetCauses(CauseCounts);

impl Described for MetCauses {}

impl Serialize for MetCauses {
    fn serialize<S: Serializer>(&self, out: &mut S) -> Result<(), S::Error> {
        out.begin_map(None)?;
        for cause in causes() {
            let count = self.0.of(cause);
            if count > 0 {
                out.key(cause_name(cause))?;
                out.u64(count)?;
            }
        }
        out.end_map()
    }
}

/// The names of the judged procedures that gave no result.
#[derive(Clone, Copy)]
struct Missing<'n>(&'n Counts);

impl Described for Missing<'_> {}

impl Serialize for Missing<'_> {
    fn serialize<S: Serializer>(&self, out: &mut S) -> Result<(), S::Error> {
        out.begin_seq(None)?;
        for number in procedure_numbers() {
            if let Some(row) = row_of(self.0, number) {
                if row.results() == 0 {
                    out.str(row.name)?;
                }
            }
        }
        out.end_seq()
    }
}

/// The names of the statuses that were met.
#[derive(Clone, Copy)]
struct Statuses<'n>(&'n Counts);

impl Described for Statuses<'_> {}

impl Serialize for Statuses<'_> {
    fn serialize<S: Serializer>(&self, out: &mut S) -> Result<(), S::Error> {
        out.begin_seq(None)?;
        for number in status_numbers() {
            if let Some(name) = status_name(number) {
                if is_met(self.0, number) {
                    out.str(name)?;
                }
            }
        }
        out.end_seq()
    }
}

/// Each judged procedure with what was counted of it.
#[derive(Clone, Copy)]
struct Procedures<'n>(&'n Counts);

impl Described for Procedures<'_> {}

impl Serialize for Procedures<'_> {
    fn serialize<S: Serializer>(&self, out: &mut S) -> Result<(), S::Error> {
        out.begin_map(None)?;
        for number in procedure_numbers() {
            if let Some(row) = row_of(self.0, number) {
                out.key(row.name)?;
                let shown = CountsOf {
                    calls: row.counts.calls,
                    replies: row.counts.replies,
                    statuses: StatusCounts(row),
                };
                shown.serialize(out)?;
            }
        }
        out.end_map()
    }
}

#[derive(Clone, Copy, Serialize)]
struct CountsOf<'n> {
    calls: u64,
    replies: u64,
    statuses: StatusCounts<'n>,
}

/// How often each status came that a procedure gave.
#[derive(Clone, Copy)]
struct StatusCounts<'n>(Row<'n>);

impl Described for StatusCounts<'_> {}

impl Serialize for StatusCounts<'_> {
    fn serialize<S: Serializer>(&self, out: &mut S) -> Result<(), S::Error> {
        out.begin_map(None)?;
        for number in status_numbers() {
            let count = self.0.count_of(number);
            if let Some(name) = status_name(number) {
                if count > 0 {
                    out.key(name)?;
                    out.u64(count)?;
                }
            }
        }
        out.end_map()
    }
}

/// What hindered the calls.
#[derive(Clone, Copy)]
struct TroubleList<'n>(&'n Troubles);

impl Described for TroubleList<'_> {}

impl Serialize for TroubleList<'_> {
    fn serialize<S: Serializer>(&self, out: &mut S) -> Result<(), S::Error> {
        out.begin_seq(None)?;
        for trouble in self.0.kept() {
            trouble_in_json(trouble).serialize(out)?;
        }
        out.end_seq()
    }
}

#[derive(Clone, Copy, Serialize)]
struct TroubleInJson {
    client: Option<u32>,
    lane: Option<u32>,
    transaction: Option<u32>,
    call: Option<u32>,
    what: Words,
}

fn trouble_in_json(trouble: &Trouble) -> TroubleInJson {
    TroubleInJson {
        client: trouble.client,
        lane: trouble.lane,
        transaction: trouble.xid,
        call: trouble.call,
        what: Words(trouble.kind),
    }
}

/// The words of a trouble.
#[derive(Clone, Copy)]
struct Words(TroubleKind);

impl Described for Words {}

impl Serialize for Words {
    fn serialize<S: Serializer>(&self, out: &mut S) -> Result<(), S::Error> {
        out.collect_str(&self.0)
    }
}

fn verdict_of<'n, 'a>(night: &'n NightReport<'a>) -> Verdict<'n, 'a> {
    Verdict {
        status: night.status,
        line: night.line,
        reasons: Reasons(night.reasons),
    }
}

fn coverage_of(counts: &Counts, causes: Option<CauseCounts>) -> Coverage<'_> {
    Coverage {
        procedures: met_procedures(counts),
        of: judged_procedures(counts),
        missing: Missing(counts),
        statuses: Statuses(counts),
        results: met_results(counts),
        causes: causes.map(MetCauses),
    }
}

fn whole_of<'n, 'a>(night: &'n NightReport<'a>) -> Whole<'n, 'a> {
    let counts = night.counts;
    Whole {
        verdict: verdict_of(night),
        request: night.request,
        numbers: night.numbers,
        coverage: coverage_of(counts, night.causes),
        denied: counts.denied(),
        too_weak: counts.too_weak(),
        hint: rights_hint(counts),
        procedures: Procedures(counts),
        troubles: TroubleList(night.troubles),
        more_troubles: night.troubles.more(),
    }
}

/// A night as an object of JSON, in lines that are indented by two spaces. The keys are in a fixed order.
pub fn report_json(alloc: Global, night: &NightReport<'_>) -> Result<String, AllocError> {
    let Ok(mut text) = serde_json::to_string_pretty(alloc, &whole_of(night)) else {
        // Each value here can be written, so that this is for memory.
        return Err(AllocError);
    };
    text.push('\n')?;
    Ok(text)
}

/// The same object on one line, which ends in a line feed.
pub fn json_line(alloc: Global, night: &NightReport<'_>) -> Result<String, AllocError> {
    let Ok(mut text) = serde_json::to_string(alloc, &whole_of(night)) else {
        return Err(AllocError);
    };
    text.push('\n')?;
    Ok(text)
}
