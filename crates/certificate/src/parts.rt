//! A certificate of its parts.

ghost use Rattle.std.specs.Prelude.{◌≡◌, ℕ, Some, None, Ok, Err, IfNone, IfOk};
ghost use Rattle.std.specs.List.{AllByRecursion};
ghost use Rattle.certificate.specs.declared.parts.CertificateFault.TheVariants.{BadBind, BadEra};
ghost use Rattle.certificate.specs.CertificateText.{AreRising, HasHandle, IsCertificate};
ghost use Rattle.certificate.specs.Parts.{InRange, first_bad_bind, first_wrong_cut, first_bad_era};

use crate::plan::{Bind, Certificate, EraPlan};
use nfs3_types::ItemList;
use std::fmt;
use thiserror::Error;

/// Why binds and eras make no certificate.
#[derive(Clone, Copy, Debug, PartialEq, Eq, Error)]
pub enum CertificateFault {
    /// The first bind, from 1, whose handle is empty or not above the one before.
    BadBind(u64),
    /// The first era, from 1, that is the last and has a cut, or isn't and has none; 1 where there is no era.
    BadEra(u64),
}

impl fmt::Display for CertificateFault {
    ghost use Rattle.std.specs.Prelude.{Some};
    ghost use Rattle.certificate.specs.FaultText.{certificate_fault_words};

    ghost output = { λ fault. Some (certificate_fault_words fault) };

    fn fmt<W: fmt::Write>(&self, f: &mut fmt::Formatter<W>) -> fmt::Result {
        match self {
            CertificateFault::BadBind(number) => write!(f, "BadBind {number}"),
            CertificateFault::BadEra(number) => write!(f, "BadEra {number}"),
        }
    }
}

fn handle_of(bind: &Bind) -> &[u8]
    ensures value { result.now ≡ bind.now.handle }
    ensures range { InRange bind.now }
{
    let handle = bind.handle.as_slice();
    let _object = bind.object;
    handle
}

fn bad_bind(binds: &[Bind]) -> Option<u64>
    ensures first { result ≡ first_bad_bind binds.now }
    ensures kept { IfNone result (AreRising binds.now × AllByRecursion HasHandle binds.now) }
{
    let mut ahead: &[u8] = &[];
    let mut number: u64 = 0;
    for bind in binds {
        number += 1;
        let handle = handle_of(bind);
        if !(ahead < handle) {
            return Some(number);
        }
        ahead = handle;
    }
    None
}

fn wrong_cut(eras: &[EraPlan]) -> Option<u64>
    ensures { result ≡ first_wrong_cut eras.now }
{
    let mut number: usize = 0;
    for era in eras {
        number += 1;
        if era.cut.is_some() == (number == eras.len()) {
            return Some(number as u64);
        }
    }
    None
}

fn bad_era(eras: &[EraPlan]) -> Option<u64>
    ensures { result ≡ first_bad_era eras.now }
{
    if eras.is_empty() {
        return Some(1);
    }
    wrong_cut(eras)
}

impl Certificate {
    /// The certificate of these binds and eras, with the checks that the fields by themselves don't have.
    pub fn new(binds: Vec<Bind>, eras: Vec<EraPlan>) -> Result<Certificate, CertificateFault>
        ensures bad_bind { (i : ℕ) → first_bad_bind binds.items ≡ Some i → result ≡ Err (BadBind i) }
        ensures bad_era { (e : ℕ) → first_bad_bind binds.items ≡ None → first_bad_era eras.items ≡ Some e → result ≡ Err (BadEra e) }
        ensures ok { first_bad_bind binds.items ≡ None → first_bad_era eras.items ≡ None → result ≡ Ok (record { binds = binds.items; eras = eras.items }) }
        // So what is written of it is read back.
        ensures kept { IfOk result IsCertificate }
    {
        if let Some(number) = bad_bind(binds.as_slice()) {
            return Err(CertificateFault::BadBind(number));
        }
        if let Some(number) = bad_era(eras.as_slice()) {
            return Err(CertificateFault::BadEra(number));
        }
        Ok(Certificate {
            binds: ItemList::new(binds),
            eras: ItemList::new(eras),
        })
    }
}
