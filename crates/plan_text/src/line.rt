//! One line of a plan.

ghost use Rattle.std.specs.Prelude.{◌≡◌, ℕ, ◌++◌, codes, decimal, MatchOption};
ghost use Rattle.plan_text.specs.Line.{Tells, IsLine, IsStep, awaits_step, crashes};
ghost use Rattle.plan_text.specs.PlanText.{IsFault};

use crate::operation::read_operation;
use crate::plan::{LaneStep, Step};
use crate::words::WordFault;
use std::alloc::Global;
use text_words::{behind, count_of, number_of, split_at_byte};

/// The greatest lane.
const LANE_LIMIT: u32 = 64;

/// What a line says.
#[derive(Drop)]
pub enum Line {
    /// `plan 1`, the first line.
    First,
    /// `fault append K`: the device fails at its append K, counted from 1.
    AppendFault(u64),
    /// `fault barrier K`: the device fails at its barrier K, counted from 1.
    BarrierFault(u64),
    /// `lane L OPERATION`, `go` or `crash K`.
    Step(Step),
    /// `end`, the last line.
    End,
}

/// The number of a fault, from 1.
fn fault_of(digits: &[u8]) -> Option<u64>
    ensures { MatchOption result ((at : ℕ) → IsFault at → digits.now ≡ decimal at → ⊥) (λ at. (digits.now ≡ decimal at) × IsFault at) }
{
    let number = number_of(digits)?;
    if number == 0 { None } else { Some(number) }
}

/// The step that the words behind `lane` give.
fn lane_of(alloc: Global, words: &[u8]) -> Result<Step, WordFault>
    ensures { Tells (IsStep (codes "lane " ++ words.now)) result }
{
    let Some((lane, words)) = split_at_byte(words, b' ') else {
        return Err(WordFault::NotOne);
    };
    let Some(lane) = count_of(lane) else {
        return Err(WordFault::NotOne);
    };
    if lane == 0 || lane > LANE_LIMIT {
        return Err(WordFault::NotOne);
    }
    let operation = read_operation(alloc, words)?;
    Ok(Step::Lane(LaneStep { lane, operation }))
}

fn read_step(alloc: Global, words: &[u8]) -> Result<Step, WordFault>
    ensures { Tells (IsStep words.now) result }
{
    if words == b"go".as_slice() {
        return Ok(Step::Go);
    }
    if let Some(digits) = behind(words, b"crash ") {
        return match number_of(digits) {
            Some(kept) => Ok(Step::Crash(kept)),
            None => Err(WordFault::NotOne),
        };
    }
    if let Some(words) = behind(words, b"lane ") {
        return lane_of(alloc, words);
    }
    Err(WordFault::NotOne)
}

/// What a line without its line feed says, where it is one that a plan may have.
pub fn read_line(alloc: Global, words: &[u8]) -> Result<Line, WordFault>
    ensures { Tells (IsLine words.now) result }
{
    if words == b"plan 1".as_slice() {
        return Ok(Line::First);
    }
    if words == b"end".as_slice() {
        return Ok(Line::End);
    }
    if let Some(digits) = behind(words, b"fault append ") {
        return match fault_of(digits) {
            Some(at) => Ok(Line::AppendFault(at)),
            None => Err(WordFault::NotOne),
        };
    }
    if let Some(digits) = behind(words, b"fault barrier ") {
        return match fault_of(digits) {
            Some(at) => Ok(Line::BarrierFault(at)),
            None => Err(WordFault::NotOne),
        };
    }
    Ok(Line::Step(read_step(alloc, words)?))
}

/// Whether the step is a lane's, which awaits `go`.
pub fn is_lane(step: &Step) -> bool
    ensures { result ≡ awaits_step step.now }
{
    matches!(step, Step::Lane(_))
}

/// Whether the step is a crash.
pub fn is_crash(step: &Step) -> bool
    ensures { result ≡ crashes step.now }
{
    matches!(step, Step::Crash(_))
}
