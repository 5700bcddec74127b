//! What claimers are told by the table of seen states, one alone and on threads, and fingerprints.
ghost use Rattle.std.specs.Prelude.{◌≡◌, ◌<◌};
ghost use Rattle.std.specs.Thread.{IsSync};
ghost use Rattle.seen_states.specs.Handles.{IsOf};

use seen_states::{Claim, Claimer, SeenTable, fingerprint};
use std::test::Fail;
use std::thread::{Threads, join};

/// How often each answer came.
#[derive(Clone, Copy)]
struct Tally {
    new: u64,
    seen: u64,
    full: u64,
}

/// Claims the numbers from the first up to the last, without it.
fn claim_all(table: &SeenTable, mut claimer: Claimer, first: u64, last: u64) -> (Claimer, Tally)
    requires claimer { IsOf claimer table.now }
    requires first { 0 < first }
    ensures { IsOf result.0 table.now }
{
    let mut tally = Tally {
        new: 0,
        seen: 0,
        full: 0,
    };
    for number in first..last {
        match table.claim(&mut claimer, number) {
            Claim::New => tally.new += 1,
            Claim::Seen => tally.seen += 1,
            Claim::Full => tally.full += 1,
        }
    }
    (claimer, tally)
}

/// Claims these numbers by each of 2^depth threads, and counts the answers of all.
fn claim_by_threads<R: Threads + Sync>(
    rt: &R,
    table: &SeenTable,
    mut claimer: Claimer,
    first: u64,
    last: u64,
    depth: u32,
) -> (Claimer, Tally)
    requires claimer { IsOf claimer table.now }
    requires first { 0 < first }
    ensures { IsOf result.0 table.now }
{
    if depth == 0 {
        return claim_all(table, claimer, first, last);
    }
    let below = depth - 1;
    let other = table.split(&mut claimer);
    let (one, two) = join(
        rt,
        move || -> (Claimer, Tally)
            requires { IsSync R.row × IsOf claimer table.now × (0 < first) }
            ensures { IsOf result.0 table.entry.now }
        { claim_by_threads(rt, table, claimer, first, last, below) },
        move || -> (Claimer, Tally)
            requires { IsSync R.row × IsOf other table.now × (0 < first) }
            ensures { IsOf result.0 table.entry.now }
        { claim_by_threads(rt, table, other, first, last, below) },
    );
    let tally = Tally {
        new: one.1.new.saturating_add(two.1.new),
        seen: one.1.seen.saturating_add(two.1.seen),
        full: one.1.full.saturating_add(two.1.full),
    };
    (table.join(one.0, two.0), tally)
}

/// Whether so many claims are told New, so many Seen, and none that the table is full.
fn is_tally(tally: Tally, new: u64, seen: u64) -> bool {
    tally.new == new && tally.seen == seen && tally.full == 0
}

#[test]
fn of_two_threads_one_is_told_new(rt: HostRuntime) -> Result<(), Fail> {
    let (table, claimer) = SeenTable::new(rt.alloc(), 1)?;
    let (mut claimer, tally) = claim_by_threads(&rt, &table, claimer, 5, 6, 1);
    let next = table.claim(&mut claimer, 6) == Claim::New;
    let full = table.claim(&mut claimer, 7) == Claim::Full;
    let seen = table.claim(&mut claimer, 5) == Claim::Seen;
    assert!(rt; is_tally(tally, 1, 1) && next && full && seen);
    Ok(())
}

#[test]
fn of_four_threads_one_is_told_new_of_each(rt: HostRuntime) -> Result<(), Fail> {
    let (table, claimer) = SeenTable::new(rt.alloc(), 10)?;
    let (_, tally) = claim_by_threads(&rt, &table, claimer, 1, 1001, 2);
    assert!(rt; is_tally(tally, 1000, 3000));
    Ok(())
}

#[test]
fn one_word_holds_one_fingerprint(rt: HostRuntime) -> Result<(), Fail> {
    let (table, mut claimer) = SeenTable::new(rt.alloc(), 0)?;
    let first = table.claim(&mut claimer, 5) == Claim::New;
    let another = table.claim(&mut claimer, 6) == Claim::Full;
    assert!(rt; first && another && table.claim(&mut claimer, 5) == Claim::Seen);
    Ok(())
}

#[test]
fn a_claimer_that_was_split_off_and_joined_claims_on(rt: HostRuntime) -> Result<(), Fail> {
    let (table, mut first) = SeenTable::new(rt.alloc(), 1)?;
    let mut second = table.split(&mut first);
    let new = table.claim(&mut first, u64::MAX) == Claim::New;
    let seen = table.claim(&mut second, u64::MAX) == Claim::Seen;
    let mut both = table.join(first, second);
    let next = table.claim(&mut both, 1) == Claim::New;
    assert!(rt; new && seen && next && table.claim(&mut both, 2) == Claim::Full);
    Ok(())
}

/// The first eight bytes of the digests of FIPS 180-4's examples of SHA-256.
#[test]
fn a_fingerprint_begins_the_digest(rt: HostRuntime) {
    assert!(rt; fingerprint(b"") == 0xe3b0_c442_98fc_1c14);
    assert!(rt; fingerprint(b"abc") == 0xba78_16bf_8f01_cfea);
}
