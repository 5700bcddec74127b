//! The end of a server.

ghost use Rattle.std.specs.Prelude.{◌≡◌, ℕ, IfOk, IfErr};
ghost use Rattle.recorder.specs.book_laws_specs.Plan.{plan_of};
ghost use Rattle.certificate.specs.CertificateText.{IsCertificate};
ghost use Rattle.witness_check.specs.Witness.{IsWitness};
ghost use Rattle.recorder.specs.book_laws_specs.ServedPlan.{EachServed};
ghost use Rattle.server_passes.specs.Matching.{IsTold, AreCovered, IsLeastTorn, IsCloseFault, IsFineOrNoMemory, IsThatOrNoMemory};
ghost use Rattle.server_passes.specs.declared.fault.CloseFault.TheVariants.{Torn};

use crate::gate::Gate;
use crate::server::Server;
use certificate::Certificate;
use nfs_history::History;
use recorder::{Book, JournalDevice};
use server_passes::{CloseFault, Pass, match_passes};
use std::alloc::Global;

/// What a server recorded, and the commit order that explains it.
pub struct Closed {
    /// What was recorded: the calls, the replies, the closes and the crashes.
    pub history: History,
    /// The commit order, which is a witness of the history.
    pub certificate: Certificate,
}

impl Drop for Closed {
    fn drop(self) {
        let Closed {
            history,
            certificate,
        } = self;
        drop(history);
        drop(certificate);
    }
}

impl Closed {
    /// The history, and the certificate.
    pub fn into_parts(self) -> (History, Certificate)
        ensures history { result.0 ≡ self.history }
        ensures certificate { result.1 ≡ self.certificate }
    {
        let Closed {
            history,
            certificate,
        } = self;
        (history, certificate)
    }
}

/// What a book recorded, with its certificate, where the passes tell of all calls that were answered.
pub fn close_book<D: JournalDevice>(
    alloc: Global,
    book: Book<D>,
    passes: &[Pass],
) -> Result<Closed, CloseFault>
    // It is this book's history,
    ensures known { IfOk result (λ closed. closed.history.known ≡ book.history.known) }
    ensures events { IfOk result (λ closed. closed.history.events ≡ book.history.events) }
    // and the book's own commit order.
    ensures plan { IfOk result (λ closed. closed.certificate ≡ plan_of book) }
    ensures explains { IfOk result (λ closed. IsWitness closed.history.known closed.certificate) }
    ensures serves { IfOk result (λ closed. EachServed closed.history.known closed.certificate) }
    ensures written { IfOk result (λ closed. IsCertificate closed.certificate) }
    ensures told { IfOk result (λ closed. IsTold closed.history passes.now) }
    ensures covered { IfOk result (λ closed. AreCovered closed.history passes.now) }
    // What is told so is closed, memory aside; else the first fault of the passes is told.
    ensures only { IsTold book.history passes.now → IsFineOrNoMemory result }
    ensures fault { IfErr result (IsCloseFault book.history passes.now) }
    ensures torn { (lane : ℕ) → IsLeastTorn book.history passes.now lane → IsThatOrNoMemory (Torn lane) result }
{
    match match_passes(alloc, book.history(), passes) {
        Ok(()) => {}
        Err(fault) => return Err(fault),
    }
    let certificate = book.certificate()?;
    Ok(Closed {
        history: book.into_history(),
        certificate,
    })
}

impl<G: Gate, D: JournalDevice> Server<G, D> {
    /// The book alone.
    fn into_book(self) -> Book<D> {
        let Server {
            alloc: _,
            gate,
            profile: _,
            objects,
            desk,
        } = self;
        drop(gate);
        drop(objects);
        desk.into_inner().into_book()
    }

    /// Ends the server, and returns what it recorded, with its certificate. The passes have to tell of all calls that were answered: a
    /// pass without an answered call may be left out. An `Err` says what the passes tell that wasn't recorded, or the least lane that
    /// they leave out, or that memory ran out; the server is gone in any case.
    pub fn close(self, passes: Vec<Pass>) -> Result<Closed, CloseFault>
        // The certificate is a witness of the history.
        ensures explains { IfOk result (λ closed. IsWitness closed.history.known closed.certificate) }
        // Each reply that was given is as full as can be, in the tree ahead of its place.
        ensures serves { IfOk result (λ closed. EachServed closed.history.known closed.certificate) }
        // The certificate can be written as a text, and is read back.
        ensures written { IfOk result (λ closed. IsCertificate closed.certificate) }
        // Each pass tells of the answered calls of its lane, with their replies, and the passes tell of all that was answered.
        ensures told { IfOk result (λ closed. IsTold closed.history passes.items) }
        ensures covered { IfOk result (λ closed. AreCovered closed.history passes.items) }
    {
        let alloc = self.alloc;
        close_book(alloc, self.into_book(), passes.as_slice())
    }
}
