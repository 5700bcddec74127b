//! One line of a certificate.

ghost use Rattle.std.specs.Prelude.{◌≡◌, ℕ, ◌++◌, List, codes, IfOk, MatchOption, Ok};
ghost use Rattle.hex.specs.Hex.{decode_of};
ghost use Rattle.certificate.specs.declared.plan.Bind.{Bind};
ghost use Rattle.certificate.specs.declared.plan.Place.{Place};
ghost use Rattle.certificate.specs.declared.line.Line.{Line};
ghost use Rattle.certificate.specs.Line.{IsLine, WritesHandle};
ghost use Rattle.certificate.specs.declared.line.Line.TheVariants as lines;

use crate::plan::{Bind, Place};
use hex::FromHexError;
use nfs3_types::{FileHandle, HANDLE_LIMIT};
use std::alloc::{AllocError, Global};
use text_words::{behind, count_of, number_of, split_at_byte};

/// What a line says.
#[derive(Drop)]
pub enum Line {
    /// `witness 1`, the first line.
    Witness,
    /// `bind HANDLE OBJECT`.
    Bind(Bind),
    /// `place N`, `take N` or `take N COUNT`.
    Place(Place),
    /// `cut K`: the era ends, and its first K places survived.
    Cut(u64),
    /// `end`: the last era ends.
    End,
}

/// The bytes that hexadecimal digits write.
fn bytes_of(alloc: Global, text: &[u8]) -> Result<Option<Vec<u8>>, AllocError>
    ensures { IfOk result (λ o. MatchOption o ((h : List ℕ) → decode_of text.now ≡ Ok h → ⊥) (λ bytes. decode_of text.now ≡ Ok bytes.items)) }
{
    match hex::decode(alloc, text) {
        Ok(bytes) => Ok(Some(bytes)),
        Err(error) => match error {
            FromHexError::OutOfMemory => Err(AllocError),
            _ => Ok(None),
        },
    }
}

/// The handle that the text writes in lower case hexadecimal, where it has 1 to 64 bytes.
fn handle_of(alloc: Global, text: &[u8]) -> Result<Option<FileHandle>, AllocError>
    ensures { IfOk result (λ o. MatchOption o ((h : List ℕ) → WritesHandle text.now h → ⊥) (WritesHandle text.now)) }
{
    if text.len() > 2 * HANDLE_LIMIT {
        return Ok(None);
    }
    let Some(bytes) = bytes_of(alloc, text)? else {
        return Ok(None);
    };
    if bytes.is_empty() || bytes.len() > HANDLE_LIMIT {
        return Ok(None);
    }
    if hex::encode(alloc, bytes.as_slice())?.as_bytes() != text {
        return Ok(None);
    }
    Ok(Some(FileHandle::from_slice(alloc, bytes.as_slice())?))
}

/// The bind that the words behind `bind` give.
fn bind_of(alloc: Global, words: &[u8]) -> Result<Option<Bind>, AllocError>
    ensures { IfOk result (λ o. MatchOption o ((b : Bind) → IsLine (codes "bind " ++ words.now) (lines.Bind b) → ⊥) (λ b. IsLine (codes "bind " ++ words.now) (lines.Bind b))) }
{
    let Some((handle, object)) = split_at_byte(words, b' ') else {
        return Ok(None);
    };
    let Some(object) = number_of(object) else {
        return Ok(None);
    };
    match handle_of(alloc, handle)? {
        Some(handle) => Ok(Some(Bind { handle, object })),
        None => Ok(None),
    }
}

/// The place that the words behind `take` give.
fn taken_of(words: &[u8]) -> Option<Place>
    ensures { MatchOption result ((p : Place) → IsLine (codes "take " ++ words.now) (lines.Place p) → ⊥) (λ p. IsLine (codes "take " ++ words.now) (lines.Place p)) }
{
    match split_at_byte(words, b' ') {
        Some((number, count)) => Some(Place::Taken(number_of(number)?, Some(count_of(count)?))),
        None => Some(Place::Taken(number_of(words)?, None)),
    }
}

/// What a line without its line feed says, where it is one that a certificate may have.
pub fn read_line(alloc: Global, words: &[u8]) -> Result<Option<Line>, AllocError>
    ensures { IfOk result (λ o. MatchOption o ((l : Line) → IsLine words.now l → ⊥) (IsLine words.now)) }
{
    if words == b"witness 1".as_slice() {
        return Ok(Some(Line::Witness));
    }
    if words == b"end".as_slice() {
        return Ok(Some(Line::End));
    }
    if let Some(words) = behind(words, b"bind ") {
        return match bind_of(alloc, words)? {
            Some(bind) => Ok(Some(Line::Bind(bind))),
            None => Ok(None),
        };
    }
    if let Some(digits) = behind(words, b"place ") {
        return match number_of(digits) {
            Some(number) => Ok(Some(Line::Place(Place::Answered(number)))),
            None => Ok(None),
        };
    }
    if let Some(words) = behind(words, b"take ") {
        return match taken_of(words) {
            Some(place) => Ok(Some(Line::Place(place))),
            None => Ok(None),
        };
    }
    if let Some(digits) = behind(words, b"cut ") {
        return match number_of(digits) {
            Some(kept) => Ok(Some(Line::Cut(kept))),
            None => Ok(None),
        };
    }
    Ok(None)
}
