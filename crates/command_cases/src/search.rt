//! How the search of a certificate ends.

use anyhow::{Result, bail};
use cert_search::{OpenSearch, SearchEnd, SearchRuntime, search_calls};
use nfs_history::{KnownCalls, read_calls};
use std::alloc::Global;
use std::io::Write;
use witness_check::{Verdict, check_calls};

// How a search ended; of a certificate that was found, whether it is a witness.
fn words_of(alloc: Global, known: &KnownCalls<'_>, end: SearchEnd) -> Result<&'static str> {
    match end {
        SearchEnd::Found(plan) => match check_calls(alloc, known, &plan)? {
            Verdict::Yes => Ok("found"),
            Verdict::No(_) => Ok("found what is no witness"),
        },
        SearchEnd::NotFound => Ok("not found"),
        SearchEnd::OutOfTurns => Ok("out of turns"),
        SearchEnd::NoMemory => bail!("out of memory"),
    }
}

/// Says how the search of a certificate of a history file ends.
pub fn put_search<R: SearchRuntime>(
    rt: &R,
    answer: &mut Vec<u8>,
    text: &str,
    numbers: [u64; 3],
) -> Result<()> {
    let alloc = rt.alloc();
    let file = hex::decode(alloc, text)?;
    let known = read_calls(alloc, file.as_slice())?;
    let workers = u32::try_from(numbers[0])?.clamp(1, 64);
    let end = search_calls(rt, &known, workers, numbers[1], &OpenSearch);
    let words = words_of(alloc, &known, end)?;
    writeln!(answer, " {words}")?;
    Ok(())
}
