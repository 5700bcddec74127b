//! The law of a book.

ghost use Rattle.book_laws.specs.Explained.{EveryBookIsExplained};

/// Whatever steps a book takes, its certificate is a witness of its history, after each of them.
pub fn every_book_is_explained()
    ensures { EveryBookIsExplained }
{}
