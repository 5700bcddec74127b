//! The trees of books.

ghost use Rattle.book_laws.specs.Alone.{AJournalAloneGivesTheTree};

/// After each step of a book the records of its device alone lead to its tree: what `rebuild` of `journal` gives of them is
/// that tree, memory aside.
pub fn a_journal_alone_gives_the_tree()
    ensures { AJournalAloneGivesTheTree }
{}
