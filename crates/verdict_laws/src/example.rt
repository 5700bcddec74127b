//! Histories that the laws speak of.

ghost use Rattle.verdict_laws.specs.Example.{LawsApply};

/// The laws' premises are met: a history over two crashes has a witness, in which a WRITE is read after both, and each crash
/// took a WRITE; and so has one without a crash. One of a server that held a file at first, which is judged strictly, has a witness too: in
/// it that file is read and its attributes are asked for, and both replies give attributes.
pub fn the_premises_are_met()
    ensures { LawsApply }
{}
