//! What a server that closed has recorded, as the texts of two files.

ghost use Rattle.std.specs.Prelude.{◌≡◌, IfOk, IsTrue};
ghost use Rattle.tree_starts.specs.Head.{plain_head};
ghost use Rattle.nfs_history.specs.History.{IsCallsFile};
ghost use Rattle.certificate.specs.CertificateText.{IsCertificate};
ghost use Rattle.order_check.specs.Shape.{HasShape};
ghost use Rattle.witness_check.specs.Witness.{IsWitness};
ghost use Rattle.serving_commands.specs.Recording.{AreCountsOf, IsRecordingOf};

use crate::fault::RunFault;
use certificate::{Certificate, write_certificate};
use crash_harness::journal_server::Closed;
use history_report::{lost_of, report_of};
use nfs_history::{History, Profile, WriteFault, write_history, write_history_from};
use std::alloc::Global;

/// What a run comes to in numbers.
#[derive(Clone, Copy)]
pub struct Counts {
    /// One more than the server went down.
    pub eras: u64,
    /// The calls that were recorded.
    pub calls: u64,
    /// Those of them that were answered.
    pub answered: u64,
    /// The changes that crashes took away.
    pub lost: u64,
}

/// The texts of a run's history and certificate, and what they come to in numbers.
pub struct RunTexts {
    /// The history's file.
    pub history: Vec<u8>,
    /// The certificate's text.
    pub certificate: Vec<u8>,
    /// How many eras, calls, answered calls and lost changes there are.
    pub counts: Counts,
}

impl Drop for RunTexts {
    fn drop(self) {
        let RunTexts {
            history,
            certificate,
            counts: _,
        } = self;
        drop(history);
        drop(certificate);
    }
}

/// What a history and its certificate come to in numbers.
fn counts_of(history: &History, certificate: &Certificate) -> Counts
    requires { HasShape history.now.known.eras history.now.known.calls certificate.now.eras }
    ensures { AreCountsOf history.now.known certificate.now result }
{
    let report = report_of(history);
    Counts {
        eras: report.eras,
        calls: report.calls,
        answered: report.answered,
        lost: lost_of(history, certificate),
    }
}

/// Whether nothing stood at first, and attributes aren't judged.
fn is_plain(history: &History) -> bool
    ensures { IsTrue result → history.now.known.head ≡ plain_head history.now.known.head.root }
{
    history.start().objects().is_empty() && history.profile() == Profile::Plain
}

/// The file of a history: of version 1 where nothing stood at first and attributes aren't judged, else of version 2.
fn file_of(alloc: Global, history: &History) -> Result<Vec<u8>, WriteFault>
    ensures { IfOk result (λ text. IsCallsFile text.items history.now.known) }
{
    let root = history.root().as_slice();
    if is_plain(history) {
        return write_history(alloc, root, history.events());
    }
    let profile = history.profile();
    write_history_from(alloc, root, profile, history.start(), history.events())
}

/// The texts of a history and of its certificate.
fn recorded_of(
    alloc: Global,
    history: &History,
    certificate: &Certificate,
) -> Result<RunTexts, RunFault>
    requires { IsWitness history.now.known certificate.now × IsCertificate certificate.now }
    ensures { IfOk result (IsRecordingOf history.now.known certificate.now) }
{
    Ok(RunTexts {
        history: file_of(alloc, history)?,
        certificate: write_certificate(alloc, certificate)?,
        counts: counts_of(history, certificate),
    })
}

/// The texts of what a server recorded.
pub(crate) fn record_closed(alloc: Global, closed: Closed) -> Result<RunTexts, RunFault>
    requires { IsWitness closed.history.known closed.certificate × IsCertificate closed.certificate }
    ensures { IfOk result (IsRecordingOf closed.history.known closed.certificate) }
{
    let (history, certificate) = closed.into_parts();
    recorded_of(alloc, &history, &certificate)
}
