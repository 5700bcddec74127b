//! What came of a stream.

ghost use Rattle.std.specs.Prelude.{◌≡◌, ◌⊎◌, ◌+◌, [], IfSome, IfNone};
ghost use Rattle.xdr_records.specs.Feed.{TakesFirst};

use crate::room::Room;
use xdr_records::RecordFeed;

/// The bytes that came of a stream, how many of its records may still be answered, and what a history has room for.
#[derive(Drop)]
pub(crate) struct Intake<'a> {
    pub(crate) feed: RecordFeed,
    pub(crate) left: u64,
    pub(crate) room: &'a Room,
}

impl Intake<'_> {
    /// The next record that is to be answered.
    pub(crate) fn next(&mut self) -> Option<Vec<u8>>
        ensures some { IfSome result (λ content. TakesFirst self.old.feed content.items self.new.feed × (self.old.left ≡ self.new.left + 1)) }
        ensures none { IfNone result (((self.old.left ≡ 0) ⊎ (self.old.feed.waiting ≡ [])) × (self.new ≡ self.old)) }
    {
        if self.left == 0 {
            return None;
        }
        let content = self.feed.take()?;
        self.left -= 1;
        Some(content)
    }
}
