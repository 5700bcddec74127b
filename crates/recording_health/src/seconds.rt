//! How long something took in a recording, of which it was noted once a second how many events there were.

/// How many of these moments came behind the event of an index and not behind another event: so many seconds went by between them, within one.
pub(crate) fn seconds_between(moments: &[usize], from: usize, to: usize) -> usize {
    let until = moments.partition_point(|events| *events <= to);
    let before = moments.partition_point(|events| *events <= from);
    until.saturating_sub(before)
}
