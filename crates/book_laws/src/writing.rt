//! The certificates of books.

ghost use Rattle.book_laws.specs.Writing.{EveryCertificateCanBeWritten};

/// After each step of a book its certificate is one that can be written and is read back: its handles rise, each has 1 to 64 bytes,
/// and each era but the last has a cut.
pub fn every_certificate_can_be_written()
    ensures { EveryCertificateCanBeWritten }
{}
