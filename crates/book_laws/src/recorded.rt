//! The records of books.

ghost use Rattle.book_laws.specs.Recorded.{ItsRecordsAreItsChanges};

/// After each step of a book its device holds the records of the calls that changed the tree and were kept over the crashes, or
/// placed since, in the serial order.
pub fn its_records_are_its_changes()
    ensures { ItsRecordsAreItsChanges }
{}
