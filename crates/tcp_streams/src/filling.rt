//! Runs that wait, in order, and what one run more adds to them.

ghost use Rattle.std.specs.Prelude.{◌≡◌, ◌≤◌, ◌++◌, ◌∷◌, [], ℕ, min, max, take, drop, length, IfOk, OnOk};
ghost use Rattle.tcp_streams.specs.Places.{place_in};
ghost use Rattle.tcp_streams.specs.Orders.{IsBehind, Stops, or_none};
ghost use Rattle.tcp_streams.specs.Streams.{IsChain};

use crate::span::Span;
use std::alloc::{AllocError, Global};

/// What of a run stands below a number.
fn part_below(span: Span, limit: u64) -> Span
    ensures { result ≡ record span { «end» = min span.«end» limit } }
{
    Span {
        end: span.end.min(limit),
        ..span
    }
}

/// What of a run stands from a number on.
pub fn part_from(span: Span, limit: u64) -> Span
    ensures { result ≡ record span { at = max span.at limit } }
{
    Span {
        at: span.at.max(limit),
        ..span
    }
}

/// Puts a run behind others, if it has a byte.
fn put_run(runs: &mut Vec<Span>, span: Span) -> Result<(), AllocError>
    ensures { OnOk result (runs.new.items ≡ runs.old.items ++ or_none span) }
{
    if span.at < span.end {
        runs.push(span)?;
    }
    Ok(())
}

/// The runs that wait, and what of one more stands in none of them.
pub fn fill(alloc: Global, waiting: &[Span], span: Span) -> Result<Vec<Span>, AllocError>
    ensures places { IfOk result (λ runs. (low n : ℕ) → IsBehind low waiting.now → low ≤ span.at
        → place_in runs.items n ≡ place_in (waiting.now ++ span ∷ []) n) }
    ensures order { IfOk result (λ runs. (low : ℕ) → IsBehind low waiting.now → low ≤ span.at
        → IsBehind low runs.items) }
{
    let mut runs = Vec::new(alloc);
    let mut rest = span;
    for run in waiting {
        put_run(&mut runs, part_below(rest, run.at))?;
        runs.push(*run)?;
        rest = part_from(rest, run.end);
    }
    put_run(&mut runs, rest)?;
    Ok(runs)
}

/// How many of the runs stand one behind the other from `next` on, and the number behind them.
pub fn chained(runs: &[Span], next: u64) -> (usize, u64)
    ensures within { result.0 ≤ length runs.now }
    ensures chain { IsBehind next runs.now → IsChain next result.1 (take result.0 runs.now) }
    ensures gap { IsBehind next runs.now → Stops result.1 (drop result.0 runs.now) }
{
    let mut end = next;
    for index in 0..runs.len() {
        if runs[index].at != end {
            return (index, end);
        }
        end = runs[index].end;
    }
    (runs.len(), end)
}
