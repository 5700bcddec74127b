//! A book that the laws speak of.

ghost use Rattle.book_laws.specs.Example.{PremisesAreMet};

/// The laws' premises are met, those of `every_book_is_explained` too: a call begins, is placed, is put on stable
/// storage and is answered.
pub fn the_premises_are_met()
    ensures { PremisesAreMet }
{}
