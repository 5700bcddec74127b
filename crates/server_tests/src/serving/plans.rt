//! Texts of plans, the first bad line of those that are none, and runs of plans, whose histories are explained.

use crash_harness::run_plan;
use history_report::report_of;
use plan_text::{PlanFault, Step, read_plan};
use std::alloc::{AllocError, Global};
use std::sync::Wait;
use std::test::Fail;
use std::thread::Threads;
use witness_check::{Verdict, check};

/// Two files, four WRITEs side by side, and two crashes.
const STEPS: &str = "lane 1 create a\nlane 1 create b\ngo\n\
    lane 1 write a 0 one U\nlane 2 write a 0 two U\nlane 3 write b 0 three U\nlane 4 write b 0 four U\ngo\n\
    crash 2\nlane 1 create e\nlane 1 create f\ngo\ncrash 0\nlane 1 lookup e\ngo\nend\n";

/// What becomes of a text.
#[derive(Clone, Copy, PartialEq)]
enum Came {
    /// A plan with so many steps, of which so many are crashes.
    Plan(usize, usize),
    /// This line is the first bad one.
    Bad(u64),
    NoMemory,
}

/// Texts, and what becomes of them.
const TEXTS: [(&str, Came); 7] = [
    ("plan 1\nend\n", Came::Plan(0, 0)),
    ("", Came::Bad(1)),
    ("plan 1\nlane 65 create a\n", Came::Bad(2)),
    ("plan 1\nlane 1 create a\nend\n", Came::Bad(3)),
    ("plan 1\nfault append 0\nend\n", Came::Bad(2)),
    ("plan 1\ngo\nlane 1 drop a\n", Came::Bad(3)),
    ("plan 1\nend", Came::Bad(2)),
];

/// What becomes of a text.
fn came_of(alloc: Global, text: &str) -> Came {
    match read_plan(alloc, text.as_bytes()) {
        Ok(plan) => {
            let steps = plan.steps.as_slice();
            let crashes = steps.iter().filter(|step| matches!(step, Step::Crash(_)));
            Came::Plan(steps.len(), crashes.count())
        }
        Err(PlanFault::BadPlan(line)) => Came::Bad(line),
        Err(PlanFault::NoMemory) => Came::NoMemory,
    }
}

/// What becomes of a plan of so many lines, all but the first and the last `go`.
fn came_of_lines(alloc: Global, lines: usize) -> Result<Came, AllocError> {
    let mut text = String::from_str(alloc, "plan 1\n")?;
    for _ in 2..lines {
        text.push_str("go\n")?;
    }
    text.push_str("end\n")?;
    Ok(came_of(alloc, text.as_str()))
}

#[test]
fn a_plan_is_read_or_its_first_bad_line_is_named(rt: HostRuntime) -> Result<(), Fail> {
    let alloc = rt.alloc();
    for (text, want) in TEXTS {
        assert!(rt; came_of(alloc, text) == want, "{text}");
    }
    let crashes = format!(in alloc; "plan 1\nfault barrier 3\n{STEPS}")?;
    assert!(rt; came_of(alloc, crashes.as_str()) == Came::Plan(15, 2));
    assert!(rt; came_of_lines(alloc, 10_000)? == Came::Plan(9_998, 0));
    assert!(rt; came_of_lines(alloc, 10_001)? == Came::Bad(10_000));
    Ok(())
}

/// How many eras, calls and answered calls there are in a history of the steps over a device that fails so, if its certificate is a witness of it.
fn count_explained<R: Threads + Wait + Sync>(
    rt: &R,
    alloc: Global,
    kind: &str,
    at: u64,
) -> Option<[u64; 3]> {
    let text = format!(in alloc; "plan 1\nfault {kind} {at}\n{STEPS}").ok()?;
    let plan = read_plan(alloc, text.as_bytes()).ok()?;
    let closed = run_plan(rt, alloc, &plan).ok()?;
    match check(alloc, &closed.history, &closed.certificate) {
        Ok(Verdict::Yes) => {
            let report = report_of(&closed.history);
            Some([report.eras, report.calls, report.answered])
        }
        _ => None,
    }
}

/// Where the third barrier fails, the first CREATE after the first crash gets no answer, and the one after it isn't begun.
#[test]
fn runs_over_failing_devices_are_explained(rt: HostRuntime) {
    let alloc = rt.alloc();
    for at in 2..=8 {
        assert!(rt; count_explained(&rt, alloc, "append", at).is_some());
    }
    for at in [2, 4] {
        assert!(rt; count_explained(&rt, alloc, "barrier", at).is_some());
    }
    assert!(rt; count_explained(&rt, alloc, "append", 1) == Some([3, 4, 3]));
    assert!(rt; count_explained(&rt, alloc, "barrier", 1) == Some([3, 4, 3]));
    assert!(rt; count_explained(&rt, alloc, "barrier", 3) == Some([3, 12, 11]));
}
