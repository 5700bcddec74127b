//! A search, and what is found judged.

ghost use Rattle.std.specs.Prelude.{◌≡◌, ◌≤◌, IfOk, IfSome, IsSome};
ghost use Rattle.certificate.specs.declared.plan.Certificate.{Certificate};
ghost use Rattle.witness_check.specs.Witness.{IsWitness};
ghost use Rattle.reply_order.specs.ReplyOrder.{IsReplyOrder};
ghost use Rattle.cert_search.specs.End.{IsFoundOnly, IsFoundOrNoMemory};

use crate::end::SearchEnd;
use certificate::Certificate;
use nfs_history::{History, KnownCalls};
use reply_order::reply_order;
use search_workers::{Lack, SearchGate, SearchRuntime, run_workers, sweep_over_calls};
use std::alloc::{AllocError, Global};
use witness_check::{Verdict, check_calls};

/// How many branches each worker takes ahead of the sweeps, at most.
const FIRST_BRANCHES: u64 = 1_000;

/// A plan, if it is a witness.
fn if_witness(
    alloc: Global,
    known: &KnownCalls<'_>,
    plan: Certificate,
) -> Result<Option<Certificate>, AllocError>
    ensures found { IfOk result (λ found. IfSome found (λ plan. IsWitness known.now plan)) }
    ensures only { IsWitness known.now plan → IfOk result (λ found. IsSome found) }
{
    match check_calls(alloc, known, &plan)? {
        Verdict::Yes => Ok(Some(plan)),
        Verdict::No(_) => Ok(None),
    }
}

/// The plan that at most so many sweeps over the history come to, if it is a witness.
fn sweep_over<R: SearchRuntime, G: SearchGate>(
    rt: &R,
    known: &KnownCalls<'_>,
    turns: u64,
    gate: &G,
) -> Result<Option<Certificate>, AllocError>
    ensures { IfOk result (λ found. IfSome found (λ plan. IsWitness known.now plan)) }
{
    match sweep_over_calls(rt, known, turns, gate)? {
        Some(plan) => if_witness(rt.alloc(), known, plan),
        None => Ok(None),
    }
}

/// The plan that the workers found, or the one that follows the replies, if it is a witness.
fn settle(
    alloc: Global,
    known: &KnownCalls<'_>,
    found: Option<Certificate>,
) -> Result<Option<Certificate>, AllocError>
    ensures found { IfOk result (λ found. IfSome found (λ plan. IsWitness known.now plan)) }
    ensures follows { (plan : Certificate) → IsReplyOrder known.now plan → IsWitness known.now plan → IfOk result (λ found. IsSome found) }
{
    if let Some(plan) = found {
        if let Some(plan) = if_witness(alloc, known, plan)? {
            return Ok(Some(plan));
        }
    }
    let plan = reply_order(alloc, known)?;
    if_witness(alloc, known, plan)
}

/// Searches a certificate of the history that these calls are of, with so many workers, each of which takes so many branches at most.
/// A worker works in a thread of its own, or on the caller's where none can be made. Where the workers end without a witness, the
/// plan that follows the replies is judged.
pub fn search_by_branches<R: SearchRuntime, G: SearchGate + Sync>(
    rt: &R,
    known: &KnownCalls<'_>,
    workers: u32,
    turns: u64,
    gate: &G,
) -> SearchEnd
    requires { (1 ≤ workers) × (workers ≤ 64) }
    // What is found is a witness.
    ensures found { IsFoundOnly result (λ plan. IsWitness known.now plan) }
    // Where the plan that follows the replies is a witness, one is found, memory aside.
    ensures follows { (plan : Certificate) → IsReplyOrder known.now plan → IsWitness known.now plan → IsFoundOrNoMemory result }
{
    let (found, lack) = match run_workers(rt, known, workers, turns, gate) {
        Ok(ended) => ended,
        Err(AllocError) => (None, Lack::Memory),
    };
    match settle(rt.alloc(), known, found) {
        Ok(Some(plan)) => SearchEnd::Found(plan),
        Ok(None) => match lack {
            Lack::Branches => SearchEnd::NotFound,
            Lack::Turns => SearchEnd::OutOfTurns,
            Lack::Memory => SearchEnd::NoMemory,
        },
        Err(AllocError) => SearchEnd::NoMemory,
    }
}

/// Searches a certificate by sweeps over the history, no more than `turns`, and where these come to none by branches.
fn search_on<R: SearchRuntime, G: SearchGate + Sync>(
    rt: &R,
    known: &KnownCalls<'_>,
    workers: u32,
    turns: u64,
    gate: &G,
) -> SearchEnd
    requires { (1 ≤ workers) × (workers ≤ 64) }
    ensures found { IsFoundOnly result (λ plan. IsWitness known.now plan) }
    ensures follows { (plan : Certificate) → IsReplyOrder known.now plan → IsWitness known.now plan → IsFoundOrNoMemory result }
{
    match sweep_over(rt, known, turns, gate) {
        Ok(Some(passed)) => SearchEnd::Found(passed),
        Ok(None) | Err(AllocError) => search_by_branches(rt, known, workers, turns, gate),
    }
}

/// How many branches each of so many workers takes ahead of the sweeps: in all five for each four calls, but no more than half of its
/// turns, and 1,000.
fn first_turns(turns: u64, calls: u64, workers: u32) -> u64 {
    let share = calls.checked_div(u64::from(workers)).unwrap_or(calls);
    let fair = share.saturating_add(share / 4).saturating_add(1);
    fair.min(turns / 2).min(FIRST_BRANCHES)
}

/// Searches a certificate of the history that these calls are of: by branches, as many as five for each four calls; then by sweeps
/// over the history; then by branches with the turns that are left, as [`search_by_branches`].
pub fn search_calls<R: SearchRuntime, G: SearchGate + Sync>(
    rt: &R,
    known: &KnownCalls<'_>,
    workers: u32,
    turns: u64,
    gate: &G,
) -> SearchEnd
    requires { (1 ≤ workers) × (workers ≤ 64) }
    // What is found is a witness.
    ensures found { IsFoundOnly result (λ plan. IsWitness known.now plan) }
    // Where the plan that follows the replies is a witness, one is found, memory aside.
    ensures follows { (plan : Certificate) → IsReplyOrder known.now plan → IsWitness known.now plan → IsFoundOrNoMemory result }
{
    let first = first_turns(turns, known.count() as u64, workers);
    match search_by_branches(rt, known, workers, first, gate) {
        SearchEnd::OutOfTurns => search_on(rt, known, workers, turns.saturating_sub(first), gate),
        end => end,
    }
}

/// Searches a certificate of a history, as [`search_calls`].
pub fn search<R: SearchRuntime, G: SearchGate + Sync>(
    rt: &R,
    history: &History,
    workers: u32,
    turns: u64,
    gate: &G,
) -> SearchEnd
    requires { (1 ≤ workers) × (workers ≤ 64) }
    // What is found is a witness.
    ensures found { IsFoundOnly result (λ plan. IsWitness history.now.known plan) }
    // Where the plan that follows the replies is a witness, one is found, memory aside.
    ensures follows { (plan : Certificate) → IsReplyOrder history.now.known plan → IsWitness history.now.known plan → IsFoundOrNoMemory result }
{
    match history.lend_calls(rt.alloc()) {
        Ok(known) => search_calls(rt, &known, workers, turns, gate),
        Err(AllocError) => SearchEnd::NoMemory,
    }
}
