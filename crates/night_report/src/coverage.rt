//! Which procedures and statuses were met.

use history_lines::procedure_name;
use nfs3_types::{Failure, Procedure};
use night_lanes::{Counts, ProcedureCounts};
use std::iter::Chain;
use std::ops::Range;

/// What was counted of a judged procedure.
#[derive(Clone, Copy)]
pub(crate) struct Row<'a> {
    /// The procedure's name.
    pub(crate) name: &'static str,
    pub(crate) counts: &'a ProcedureCounts,
}

impl Row<'_> {
    /// How often a status came.
    pub(crate) fn count_of(self, status: u32) -> u64 {
        if status == 0 {
            return self.counts.done;
        }
        match Failure::from_number(status) {
            Some(failure) => self.counts.count_of(failure),
            None => 0,
        }
    }

    /// How many statuses came.
    pub(crate) fn results(self) -> u64 {
        let mut sum = 0u64;
        for status in status_numbers() {
            sum = sum.saturating_add(u64::from(self.count_of(status) > 0));
        }
        sum
    }
}

/// All numbers of procedures (RFC 1813, section 3.3).
pub(crate) fn procedure_numbers() -> Range<u32> {
    0..22
}

/// All numbers of statuses (RFC 1813, section 2.6) in order, among others that are none.
pub(crate) fn status_numbers() -> Chain<Range<u32>, Range<u32>> {
    (0..72u32).chain(10_001..10_009)
}

/// What was counted of the procedure of this number, if it is a judged one.
pub(crate) fn row_of(counts: &Counts, number: u32) -> Option<Row<'_>> {
    let procedure = Procedure::from_number(number)?;
    if !procedure.is_judged() {
        return None;
    }
    let name = procedure_name(procedure);
    let counts = counts.of(procedure)?;
    Some(Row { name, counts })
}

/// How many procedures are judged.
pub(crate) fn judged_procedures(counts: &Counts) -> u64 {
    let mut sum = 0u64;
    for number in procedure_numbers() {
        sum = sum.saturating_add(u64::from(row_of(counts, number).is_some()));
    }
    sum
}

/// How many judged procedures gave a result.
pub(crate) fn met_procedures(counts: &Counts) -> u64 {
    let mut sum = 0u64;
    for number in procedure_numbers() {
        if let Some(row) = row_of(counts, number) {
            sum = sum.saturating_add(u64::from(row.results() > 0));
        }
    }
    sum
}

/// How many pairs of a judged procedure and a status were met.
pub(crate) fn met_results(counts: &Counts) -> u64 {
    let mut sum = 0u64;
    for number in procedure_numbers() {
        if let Some(row) = row_of(counts, number) {
            sum = sum.saturating_add(row.results());
        }
    }
    sum
}

/// Whether some judged procedure gave this status.
pub(crate) fn is_met(counts: &Counts, status: u32) -> bool {
    for number in procedure_numbers() {
        if let Some(row) = row_of(counts, number) {
            if row.count_of(status) > 0 {
                return true;
            }
        }
    }
    false
}
