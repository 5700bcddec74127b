//! The verdict on a history and a plan, and its parts.

use anyhow::{Context, Result, bail};
use certificate::{Certificate, read_certificate};
use cut_check::{check_cuts, check_verifiers};
use nfs_history::{History, read_history};
use nfsbench_engine::judge;
use order_check::{check_order, check_shape};
use std::alloc::Global;
use std::io::Write;
use witness_check::{Fault, Verdict, check};

// Asks each part of the verdict by itself, of a history that owns its events: the first fault that one names.
fn ask_parts(alloc: Global, history: &History, plan: &Certificate) -> Result<()> {
    check_shape(alloc, history, plan)?;
    check_order(history, plan)?;
    // What else the verdict names is what the other parts name.
    if let Verdict::No(Fault::Illegal(call)) = check(alloc, history, plan)? {
        bail!("Illegal {call}");
    }
    check_cuts(alloc, history, plan)?;
    check_verifiers(alloc, history, plan)?;
    Ok(())
}

// What the parts of the verdict come to, in the words of its line.
fn words_of_parts(alloc: Global, bundle: &str) -> Result<String> {
    let (digits, text) = bundle.split_once('\n').context("no line")?;
    let file = hex::decode(alloc, digits)?;
    let history = read_history(alloc, file.as_slice())?;
    let plan = read_certificate(alloc, text.as_bytes())?;
    match ask_parts(alloc, &history, &plan) {
        Ok(()) => Ok(String::from_str(alloc, "yes\n")?),
        Err(fault) => Ok(format!(in alloc; "no: {fault}\n")?),
    }
}

/// Says the line of the verdict on a bundle, and in another line what its parts come to, if that is something else.
pub fn put_verdict(alloc: Global, answer: &mut Vec<u8>, bundle: &str) -> Result<()> {
    let report = judge(alloc, bundle.as_bytes())?;
    let line = report.line();
    write!(answer, " {line}")?;
    // What is refused has no verdict.
    if line.starts_with("refused") {
        return Ok(());
    }
    let words = words_of_parts(alloc, bundle)?;
    let words = words.as_str();
    if words != line {
        write!(answer, "its parts: {words}")?;
    }
    Ok(())
}
