//! A certificate's text, read line by line in one pass.

ghost use Rattle.std.specs.Prelude.{◌≡◌, [], IfOk, Some, None, codes, decimal, ◌++◌, ◌<◌, ◌^◌, ◌↔◌, ◌⊎◌, ℕ, Ok, Err, MatchResult, IsTrue};
ghost use Rattle.certificate.specs.CertificateText.{CertificateText, line, bind_words, place_words, HasHandle, HasNumbers};
ghost use Rattle.certificate.specs.declared.line.Line.TheVariants as lines;
ghost use Rattle.certificate.specs.Line.{Follows, last_of, bind_list};
ghost use Rattle.certificate.specs.declared.plan.Certificate.{Certificate};
ghost use Rattle.certificate.specs.declared.reading.TextFault.TheVariants.{BadLine, NoMemory};
ghost use Rattle.certificate.specs.BadLine.{IsBadLine, FaultHolds};
ghost use Rattle.certificate.specs.Draft.{TakesLine, AreBinds, ArePlaces, spelled_by};

use crate::line::{Line, read_line};
use crate::plan::{Bind, Certificate, EraPlan, Place};
use nfs3_types::ItemList;
use std::alloc::{AllocError, Global};
use std::{fmt, mem};
use text_words::{behind, split_at_byte};
use thiserror::Error;

/// Why a text is no certificate.
#[derive(Clone, Copy, Debug, PartialEq, Eq, Error)]
pub enum TextFault {
    /// The first line, from 1, with which the text so far begins no certificate: or it is missing, or has no
    /// line feed.
    BadLine(u64),
    /// Memory ran out.
    NoMemory,
}

impl fmt::Display for TextFault {
    ghost use Rattle.std.specs.Prelude.{Some};
    ghost use Rattle.certificate.specs.FaultText.{text_fault_words};

    ghost output = { λ fault. Some (text_fault_words fault) };

    fn fmt<W: fmt::Write>(&self, f: &mut fmt::Formatter<W>) -> fmt::Result {
        match self {
            TextFault::BadLine(line) => write!(f, "BadLine {line}"),
            TextFault::NoMemory => f.write_str("out of memory"),
        }
    }
}

impl From<AllocError> for TextFault {
    ghost use Rattle.std.specs.Prelude.{◌≡◌};
    ghost use Rattle.certificate.specs.declared.reading.TextFault.TheVariants.{NoMemory};

    ghost from_gives = { λ _ e. e ≡ NoMemory };

    fn from(_error: AllocError) -> TextFault {
        TextFault::NoMemory
    }
}

/// The binds that have been read, the eras that a cut has ended, and the places behind them.
#[derive(Drop)]
struct Draft {
    binds: Vec<Bind>,
    eras: Vec<EraPlan>,
    places: Vec<Place>,
}

/// What becomes of a draft with the next line.
#[derive(Clone, Copy)]
enum Step {
    GoesOn,
    Ends,
    Refuses,
}

impl Draft {
    fn new(alloc: Global) -> Draft
        ensures { (result.binds.items ≡ []) × (result.eras.items ≡ []) × (result.places.items ≡ []) }
    {
        Draft {
            binds: Vec::new(alloc),
            eras: Vec::new(alloc),
            places: Vec::new(alloc),
        }
    }

    /// Whether a bind's handle is above those that there are.
    fn rises_with(&self, bind: &Bind) -> bool
        ensures { IsTrue result ↔ Follows (last_of lines.Witness (bind_list self.now.binds.items)) (lines.Bind bind.now) }
    {
        match self.binds.last() {
            Some(last) => last.handle.as_slice() < bind.handle.as_slice(),
            None => true,
        }
    }

    fn take_bind(&mut self, bind: Bind) -> Result<Step, AllocError>
        requires { HasHandle bind }
        ensures { IfOk result (TakesLine (bind_words bind) self.old self.new) }
    {
        if !self.eras.is_empty() || !self.places.is_empty() || !self.rises_with(&bind) {
            return Ok(Step::Refuses);
        }
        self.binds.push(bind)?;
        Ok(Step::GoesOn)
    }

    fn take_place(&mut self, place: Place) -> Result<Step, AllocError>
        requires { HasNumbers place }
        ensures { IfOk result (TakesLine (place_words place) self.old self.new) }
    {
        self.places.push(place)?;
        Ok(Step::GoesOn)
    }

    fn take_cut(&mut self, alloc: Global, kept: u64) -> Result<Step, AllocError>
        requires { kept < 2 ^ 64 }
        ensures { IfOk result (TakesLine (codes "cut " ++ decimal kept) self.old self.new) }
    {
        let places = mem::replace(&mut self.places, Vec::new(alloc));
        self.eras.push(EraPlan {
            places: ItemList::new(places),
            cut: Some(kept),
        })?;
        Ok(Step::GoesOn)
    }

    fn take_line(&mut self, alloc: Global, words: &[u8]) -> Result<Step, AllocError>
        ensures { IfOk result (TakesLine words.now self.old self.new) }
    {
        let Some(line) = read_line(alloc, words)? else {
            return Ok(Step::Refuses);
        };
        match line {
            Line::Witness => Ok(Step::Refuses),
            Line::Bind(bind) => self.take_bind(bind),
            Line::Place(place) => self.take_place(place),
            Line::Cut(kept) => self.take_cut(alloc, kept),
            Line::End => Ok(Step::Ends),
        }
    }

    /// The certificate whose last era has the places behind the last cut.
    fn finish(self) -> Result<Certificate, AllocError>
        requires binds { AreBinds self.binds.items }
        requires places { ArePlaces self.eras.items self.places.items }
        ensures { IfOk result (CertificateText (spelled_by self.binds.items self.eras.items self.places.items ++ line (codes "end"))) }
    {
        let Draft {
            binds,
            mut eras,
            places,
        } = self;
        eras.push(EraPlan {
            places: ItemList::new(places),
            cut: None,
        })?;
        Ok(Certificate {
            binds: ItemList::new(binds),
            eras: ItemList::new(eras),
        })
    }
}

/// Goes over the text line by line; that no other answer is right is said at `read_certificate`.
fn read_lines(alloc: Global, text: &[u8]) -> Result<Certificate, TextFault>
    ensures { MatchResult result (CertificateText text.now) (FaultHolds text.now) }
{
    let Some(mut rest) = behind(text, b"witness 1\n") else {
        return Err(TextFault::BadLine(1));
    };
    let mut draft = Draft::new(alloc);
    let mut number: u64 = 1;
    while let Some((words, after)) = split_at_byte(rest, b'\n') {
        number += 1;
        match draft.take_line(alloc, words)? {
            Step::GoesOn => rest = after,
            Step::Ends if after.is_empty() => return Ok(draft.finish()?),
            Step::Ends => return Err(TextFault::BadLine(number + 1)),
            Step::Refuses => return Err(TextFault::BadLine(number)),
        }
    }
    Err(TextFault::BadLine(number + 1))
}

/// The certificate that the text spells, or the line at which the text stops being one.
pub fn read_certificate(alloc: Global, text: &[u8]) -> Result<Certificate, TextFault>
    ensures found { IfOk result (CertificateText text.now) }
    ensures only { (c : Certificate) → CertificateText text.now c → (result ≡ Ok c) ⊎ (result ≡ Err NoMemory) }
    ensures bad_line { (k : ℕ) → result ≡ Err (BadLine k) → IsBadLine text.now k }
    ensures named { (k : ℕ) → IsBadLine text.now k → (result ≡ Err (BadLine k)) ⊎ (result ≡ Err NoMemory) }
{
    read_lines(alloc, text)
}
