//! A plan's text, read line by line in one pass.

ghost use Rattle.std.specs.Prelude.{◌≡◌, ◌∷◌, ◌++◌, [], IfOk, codes, ◌⊎◌, ℕ, false, Ok, Err, MatchResult};
ghost use Rattle.plan_text.specs.PlanText.{PlanText, line, IsFault, HasNumbers};
ghost use Rattle.plan_text.specs.Line.{IsFit, text_of};
ghost use Rattle.plan_text.specs.declared.line.Line.TheVariants as lines;
ghost use Rattle.plan_text.specs.declared.plan.Plan.{Plan};
ghost use Rattle.plan_text.specs.declared.reading.PlanFault.TheVariants.{BadPlan, NoMemory};
ghost use Rattle.plan_text.specs.BadLine.{IsBadLine, FaultHolds};
ghost use Rattle.plan_text.specs.Draft.{IsDraft, Takes, TakesLine, lines_in};

use crate::line::{Line, is_crash, is_lane, read_line};
use crate::plan::{Plan, Step};
use crate::words::WordFault;
use nfs3_types::ItemList;
use std::alloc::{AllocError, Global};
use std::fmt;
use text_words::{behind, split_at_byte};
use thiserror::Error;

/// The most lines of a plan, all counted.
const LINE_LIMIT: u64 = 10_000;

/// Why a text is no plan.
#[derive(Clone, Copy, Debug, Error)]
pub enum PlanFault {
    /// The first line, from 1, with which the text so far begins no plan: or it is missing, or has no line feed.
    BadPlan(u64),
    /// Memory ran out.
    NoMemory,
}

impl fmt::Display for PlanFault {
    ghost use Rattle.std.specs.Prelude.{Some};
    ghost use Rattle.plan_text.specs.FaultText.{plan_fault_words};

    ghost output = { λ fault. Some (plan_fault_words fault) };

    fn fmt<W: fmt::Write>(&self, f: &mut fmt::Formatter<W>) -> fmt::Result {
        match self {
            PlanFault::BadPlan(line) => write!(f, "BadPlan {line}"),
            PlanFault::NoMemory => f.write_str("out of memory"),
        }
    }
}

impl From<AllocError> for PlanFault {
    ghost use Rattle.std.specs.Prelude.{◌≡◌};
    ghost use Rattle.plan_text.specs.declared.reading.PlanFault.TheVariants.{NoMemory};

    ghost from_gives = { λ _ e. e ≡ NoMemory };

    fn from(_error: AllocError) -> PlanFault {
        PlanFault::NoMemory
    }
}

/// What has been read.
#[derive(Drop)]
struct Draft {
    append_fault: Option<u64>,
    barrier_fault: Option<u64>,
    steps: Vec<Step>,
    /// Whether the last line is a lane's, which awaits `go`.
    waiting: bool,
    /// How many lines there are.
    lines: u64,
}

/// What becomes of a draft with the next line.
#[derive(Clone, Copy)]
enum Progress {
    GoesOn,
    Ends,
    Refuses,
}

impl Draft {
    /// A plan's first line.
    fn new(alloc: Global) -> Draft
        ensures is { IsDraft result }
        ensures lines { lines_in result ≡ [] }
    {
        Draft {
            append_fault: None,
            barrier_fault: None,
            steps: Vec::new(alloc),
            waiting: false,
            lines: 1,
        }
    }

    fn take_append_fault(&mut self, at: u64) -> Progress
        requires draft { IsDraft self.old }
        requires fault { IsFault at }
        ensures { Takes (lines.AppendFault at) self.old self.new result }
    {
        if self.append_fault.is_some() || self.barrier_fault.is_some() || !self.steps.is_empty() {
            return Progress::Refuses;
        }
        self.append_fault = Some(at);
        self.lines += 1;
        Progress::GoesOn
    }

    fn take_barrier_fault(&mut self, at: u64) -> Progress
        requires draft { IsDraft self.old }
        requires fault { IsFault at }
        ensures { Takes (lines.BarrierFault at) self.old self.new result }
    {
        if self.barrier_fault.is_some() || !self.steps.is_empty() {
            return Progress::Refuses;
        }
        self.barrier_fault = Some(at);
        self.lines += 1;
        Progress::GoesOn
    }

    fn take_step(&mut self, step: Step) -> Result<Progress, AllocError>
        requires draft { IsDraft self.old }
        requires numbers { HasNumbers step }
        ensures { IfOk result (Takes (lines.Step step) self.old self.new) }
    {
        let lane = is_lane(&step);
        let behind: u64 = if lane { 2 } else { 1 };
        if self.waiting && is_crash(&step) || self.lines + 1 + behind > LINE_LIMIT {
            return Ok(Progress::Refuses);
        }
        self.steps.push(step)?;
        self.waiting = lane;
        self.lines += 1;
        Ok(Progress::GoesOn)
    }

    fn take_end(&self) -> Progress
        requires { IsDraft self.now }
        ensures { Takes lines.End self.now self.now result }
    {
        if self.waiting {
            Progress::Refuses
        } else {
            Progress::Ends
        }
    }

    fn take(&mut self, line: Line) -> Result<Progress, AllocError>
        requires draft { IsDraft self.old }
        requires fit { IsFit line }
        ensures { IfOk result (Takes line self.old self.new) }
    {
        match line {
            Line::First => Ok(Progress::Refuses),
            Line::AppendFault(at) => Ok(self.take_append_fault(at)),
            Line::BarrierFault(at) => Ok(self.take_barrier_fault(at)),
            Line::Step(step) => self.take_step(step),
            Line::End => Ok(self.take_end()),
        }
    }

    fn take_line(&mut self, alloc: Global, words: &[u8]) -> Result<Progress, AllocError>
        requires { IsDraft self.old }
        ensures { IfOk result (TakesLine words.now self.old self.new) }
    {
        match read_line(alloc, words) {
            Ok(line) => self.take(line),
            Err(WordFault::NotOne) => Ok(Progress::Refuses),
            Err(WordFault::NoMemory) => Err(AllocError),
        }
    }

    /// The plan that a last line ends.
    fn finish(self) -> Plan
        requires draft { IsDraft self }
        requires ran { self.waiting ≡ false }
        ensures { PlanText (text_of (lines.First ∷ lines_in self) ++ line (codes "end")) result }
    {
        let Draft {
            append_fault,
            barrier_fault,
            steps,
            waiting: _,
            lines: _,
        } = self;
        Plan {
            append_fault,
            barrier_fault,
            steps: ItemList::new(steps),
        }
    }
}

/// Goes over the text line by line; that no other answer is right is said at `read_plan`.
fn read_lines(alloc: Global, text: &[u8]) -> Result<Plan, PlanFault>
    ensures { MatchResult result (PlanText text.now) (FaultHolds text.now) }
{
    let Some(mut rest) = behind(text, b"plan 1\n") else {
        return Err(PlanFault::BadPlan(1));
    };
    let mut draft = Draft::new(alloc);
    while let Some((words, after)) = split_at_byte(rest, b'\n') {
        let number = draft.lines + 1;
        match draft.take_line(alloc, words)? {
            Progress::GoesOn => rest = after,
            Progress::Ends if after.is_empty() => return Ok(draft.finish()),
            Progress::Ends => return Err(PlanFault::BadPlan(number + 1)),
            Progress::Refuses => return Err(PlanFault::BadPlan(number)),
        }
    }
    Err(PlanFault::BadPlan(draft.lines + 1))
}

/// The plan that the text spells, or the line at which the text stops being one.
pub fn read_plan(alloc: Global, text: &[u8]) -> Result<Plan, PlanFault>
    ensures found { IfOk result (PlanText text.now) }
    ensures only { (p : Plan) → PlanText text.now p → (result ≡ Ok p) ⊎ (result ≡ Err NoMemory) }
    ensures bad_line { (k : ℕ) → result ≡ Err (BadPlan k) → IsBadLine text.now k }
    ensures named { (k : ℕ) → IsBadLine text.now k → (result ≡ Err (BadPlan k)) ⊎ (result ≡ Err NoMemory) }
{
    read_lines(alloc, text)
}
