//! The replies of books.

ghost use Rattle.book_laws.specs.ServedPlan.{EveryReplyIsServed};

/// After each step of a book, each reply of its certificate is one that a server which serves as fully as it can may give to the call in
/// the tree ahead of its place.
pub fn every_reply_is_served()
    ensures { EveryReplyIsServed }
{}
