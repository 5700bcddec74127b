//! The words of a line.

ghost use Rattle.std.specs.Prelude.{◌≡◌, ◌↔◌, MatchOption, IsTrue};
ghost use Rattle.std.specs.List.{All};
ghost use Rattle.plan_text.specs.Line.{Tells};
ghost use Rattle.plan_text.specs.PlanText.{IsName, IsNameByte, level_word};
ghost use Rattle.nfs3_types.specs.declared.calls.StableHow.{StableHow};

use crate::plan::{NAME_LIMIT, PlanName};
use nfs3_types::StableHow;
use std::alloc::{AllocError, Global};

/// Why words aren't read.
#[derive(Clone, Copy)]
pub enum WordFault {
    /// They say nothing that may stand there.
    NotOne,
    /// Memory ran out.
    NoMemory,
}

impl From<AllocError> for WordFault {
    ghost use Rattle.std.specs.Prelude.{◌≡◌};
    ghost use Rattle.plan_text.specs.declared.words.WordFault.TheVariants.{NoMemory};

    ghost from_gives = { λ _ e. e ≡ NoMemory };

    fn from(_error: AllocError) -> WordFault {
        WordFault::NoMemory
    }
}

fn are_name_bytes(bytes: &[u8]) -> bool
    ensures { IsTrue result ↔ All IsNameByte bytes.now }
{
    bytes
        .iter()
        .all(|byte| matches!(*byte, b'a'..=b'z' | b'0'..=b'9'))
}

/// The name of these bytes, where they are one.
pub fn name_of(alloc: Global, bytes: &[u8]) -> Result<PlanName, WordFault>
    ensures { Tells (λ n. (n ≡ bytes.now) × IsName n) result }
{
    if bytes.is_empty() || bytes.len() > NAME_LIMIT || !are_name_bytes(bytes) {
        return Err(WordFault::NotOne);
    }
    Ok(PlanName::from_slice(alloc, bytes)?)
}

/// The level that a letter names.
pub fn level_of(word: &[u8]) -> Option<StableHow>
    ensures { MatchOption result ((l : StableHow) → word.now ≡ level_word l → ⊥) (λ l. word.now ≡ level_word l) }
{
    if word == b"U".as_slice() {
        return Some(StableHow::Unstable);
    }
    if word == b"D".as_slice() {
        return Some(StableHow::DataSync);
    }
    if word == b"F".as_slice() {
        return Some(StableHow::FileSync);
    }
    None
}
