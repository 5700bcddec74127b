//! A certificate as text.

ghost use Rattle.std.specs.Prelude.{◌≡◌, ◌++◌, ◌<◌, ◌^◌, decimal, codes, IfOk, IfSome, OnOk};
ghost use Rattle.std.specs.List.{flat_map, AllByRecursion};
ghost use Rattle.certificate.specs.CertificateText.{line, bind_words, place_words, bind_lines, place_lines, cut_lines, era_lines, spelling, HasNumbers, HasNumbersInEra, IsCertificate, CertificateText};

use crate::plan::{Bind, Certificate, EraPlan, Place};
use itoa::Buffer;
use std::alloc::{AllocError, Global};

fn put_number(out: &mut Vec<u8>, number: u64) -> Result<(), AllocError>
    ensures { OnOk result (out.new.items ≡ out.old.items ++ decimal number) }
{
    let mut buffer = Buffer::new();
    out.extend_from_slice(buffer.format(number).as_bytes())
}

fn put_answered(out: &mut Vec<u8>, number: u64) -> Result<(), AllocError>
    ensures { OnOk result (out.new.items ≡ out.old.items ++ line (codes "place " ++ decimal number)) }
{
    out.extend_from_slice(b"place ")?;
    put_number(out, number)?;
    out.extend_from_slice(b"\n")
}

fn put_taken(out: &mut Vec<u8>, number: u64) -> Result<(), AllocError>
    ensures { OnOk result (out.new.items ≡ out.old.items ++ line (codes "take " ++ decimal number)) }
{
    out.extend_from_slice(b"take ")?;
    put_number(out, number)?;
    out.extend_from_slice(b"\n")
}

fn put_counted(out: &mut Vec<u8>, number: u64, count: u32) -> Result<(), AllocError>
    ensures { OnOk result (out.new.items ≡ out.old.items ++ line (codes "take " ++ (decimal number ++ (codes " " ++ decimal count)))) }
{
    out.extend_from_slice(b"take ")?;
    put_number(out, number)?;
    out.extend_from_slice(b" ")?;
    put_number(out, u64::from(count))?;
    out.extend_from_slice(b"\n")
}

fn put_place(out: &mut Vec<u8>, place: Place) -> Result<(), AllocError>
    ensures text { OnOk result (out.new.items ≡ out.old.items ++ line (place_words place)) }
    ensures numbers { HasNumbers place }
{
    match place {
        Place::Answered(number) => put_answered(out, number),
        Place::Taken(number, None) => put_taken(out, number),
        Place::Taken(number, Some(count)) => put_counted(out, number, count),
    }
}

fn put_bind(out: &mut Vec<u8>, bind: &Bind) -> Result<(), AllocError>
    ensures { OnOk result (out.new.items ≡ out.old.items ++ line (bind_words bind.now)) }
{
    let handle = hex::encode(*out.allocator(), bind.handle.as_slice())?;
    out.extend_from_slice(b"bind ")?;
    out.extend_from_slice(handle.as_bytes())?;
    out.extend_from_slice(b" ")?;
    put_number(out, bind.object)?;
    out.extend_from_slice(b"\n")
}

fn put_cut(out: &mut Vec<u8>, cut: Option<u64>) -> Result<(), AllocError>
    ensures text { OnOk result (out.new.items ≡ out.old.items ++ cut_lines cut) }
    ensures number { IfSome cut (λ kept. kept < 2 ^ 64) }
{
    let Some(kept) = cut else {
        return Ok(());
    };
    out.extend_from_slice(b"cut ")?;
    put_number(out, kept)?;
    out.extend_from_slice(b"\n")
}

fn put_binds(out: &mut Vec<u8>, binds: &[Bind]) -> Result<(), AllocError>
    ensures { OnOk result (out.new.items ≡ out.old.items ++ bind_lines binds.now) }
{
    for bind in binds {
        put_bind(out, bind)?;
    }
    Ok(())
}

fn put_places(out: &mut Vec<u8>, places: &[Place]) -> Result<(), AllocError>
    ensures text { OnOk result (out.new.items ≡ out.old.items ++ place_lines places.now) }
    ensures numbers { OnOk result (AllByRecursion HasNumbers places.now) }
{
    for place in places {
        put_place(out, *place)?;
    }
    Ok(())
}

fn put_era(out: &mut Vec<u8>, era: &EraPlan) -> Result<(), AllocError>
    ensures text { OnOk result (out.new.items ≡ out.old.items ++ era_lines era.now) }
    ensures numbers { OnOk result (HasNumbersInEra era.now) }
{
    put_places(out, era.places.as_slice())?;
    put_cut(out, era.cut)
}

fn put_eras(out: &mut Vec<u8>, eras: &[EraPlan]) -> Result<(), AllocError>
    ensures text { OnOk result (out.new.items ≡ out.old.items ++ flat_map era_lines eras.now) }
    ensures numbers { OnOk result (AllByRecursion HasNumbersInEra eras.now) }
{
    for era in eras {
        put_era(out, era)?;
    }
    Ok(())
}

/// The text that spells the certificate, whether or not it keeps to what a certificate keeps to.
pub fn write_certificate(alloc: Global, certificate: &Certificate) -> Result<Vec<u8>, AllocError>
    ensures spelled { IfOk result (λ text. text.items ≡ spelling certificate.now) }
    // One that keeps to it is read back.
    ensures text { IsCertificate certificate.now → IfOk result (λ text. CertificateText text.items certificate.now) }
{
    let mut out = Vec::new(alloc);
    out.extend_from_slice(b"witness 1\n")?;
    put_binds(&mut out, certificate.binds.as_slice())?;
    put_eras(&mut out, certificate.eras.as_slice())?;
    out.extend_from_slice(b"end\n")?;
    Ok(out)
}
