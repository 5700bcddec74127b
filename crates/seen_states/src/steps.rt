//! What each atomic step does to the view of the claimer that takes it, and what it tells.

use crate::view::View;
use atomic_table::{Join, Play, Split};
use std::marker::{Brand, PhantomData};

/// What a claim asks of a word: the fingerprint, the word's place in its order, and how many words there are. For contracts alone;
/// a call at `Brand` picks it.
pub trait Asked {
    ghost use Rattle.std.specs.Prelude.{ℕ};

    ghost fingerprint: { ℕ };

    ghost place: { ℕ };

    ghost count: { ℕ };
}

impl Asked for Brand {
    ghost fingerprint = { 1 };

    ghost place = { 0 };

    ghost count = { 1 };
}

/// A load of the word.
pub struct Look<A> {
    asked: PhantomData<A>,
}

impl<A: Asked> Play<(), View> for Look<A> {
    ghost use Rattle.seen_states.specs.Steps.{TellsLook};

    ghost then = { λ _ before found after. TellsLook A.count A.fingerprint A.place before found after };
}

/// An exchange of the word, where it is free, for the fingerprint.
pub struct Take<A> {
    asked: PhantomData<A>,
}

impl<A: Asked> Play<(), View> for Take<A> {
    ghost use Rattle.seen_states.specs.Steps.{TellsTake};

    ghost then = { λ _ before found after. TellsTake A.count A.fingerprint A.place before found after };
}

/// A load by a claimer that took another one's answers in.
pub struct Compare;

impl Play<(), View> for Compare {
    ghost use Rattle.seen_states.specs.Steps.{TellsCompare};

    ghost then = { λ _ before _ after. TellsCompare before after };
}

/// A claimer beside one that stays as it is.
pub struct Beside;

impl Split<View> for Beside {
    ghost use Rattle.seen_states.specs.Seen.{fresh};

    ghost left = { λ view. view };

    ghost right = { λ _. fresh };
}

/// One claimer in the place of two.
pub struct Together;

impl Join<View> for Together {
    ghost use Rattle.seen_states.specs.Seen.{fresh, together};

    ghost both = { together };

    ghost spent = { fresh };
}
