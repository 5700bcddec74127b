//! What is told of a red night to whoever has to look at it.

use crate::escaping::Line;
use crate::hints::rights_hint;
use crate::report::NightReport;
use night_lanes::Troubles;
use std::alloc::{AllocError, Global};
use std::fmt;

/// Why it isn't a yes.
#[derive(Clone, Copy)]
struct Reasons<'n>(&'n [String]);

impl fmt::Display for Reasons<'_> {
    fn fmt<W: fmt::Write>(&self, f: &mut fmt::Formatter<W>) -> fmt::Result {
        if self.0.is_empty() {
            return Ok(());
        }
        f.write_str("\nReasons:\n")?;
        for reason in self.0 {
            let reason = Line(reason.as_str());
            writeln!(f, "  {reason}")?;
        }
        Ok(())
    }
}

/// What hindered the calls.
#[derive(Clone, Copy)]
struct TroubleLines<'n>(&'n Troubles);

impl fmt::Display for TroubleLines<'_> {
    fn fmt<W: fmt::Write>(&self, f: &mut fmt::Formatter<W>) -> fmt::Result {
        let kept = self.0.kept();
        if kept.is_empty() {
            return Ok(());
        }
        f.write_str("\nWhat hindered the calls:\n")?;
        for trouble in kept {
            writeln!(f, "  {trouble}")?;
        }
        match self.0.more() {
            0 => Ok(()),
            more => writeln!(f, "  and {more} more"),
        }
    }
}

/// What to change at the server.
#[derive(Clone, Copy)]
struct Hint(Option<&'static str>);

impl fmt::Display for Hint {
    fn fmt<W: fmt::Write>(&self, f: &mut fmt::Formatter<W>) -> fmt::Result {
        match self.0 {
            Some(hint) => writeln!(f, "\nAbout rights:\n  {hint}"),
            None => Ok(()),
        }
    }
}

/// What to look at, in the folder.
#[derive(Clone, Copy)]
struct Steps<'a>(Line<'a>);

impl fmt::Display for Steps<'_> {
    fn fmt<W: fmt::Write>(&self, f: &mut fmt::Formatter<W>) -> fmt::Result {
        let folder = self.0;
        f.write_str("\nWhat to do next:\n")?;
        writeln!(f, "  nfsbench show {folder}/history")?;
        f.write_str("    prints each call and each reply, with the number of its event\n")?;
        writeln!(f, "  nfsbench draw {folder}/history > picture.html")?;
        f.write_str(
            "    draws them as a page for a browser; --call N and --from N choose where\n",
        )?;
        writeln!(f, "  nfsbench decide {folder}/history --go-on 3")?;
        f.write_str(
            "    names the event that no order explains, leaves its call out, and goes on, three times\n",
        )?;
        writeln!(f, "  {folder}/report.json")?;
        f.write_str("    has the procedures and statuses that were met, and each trouble\n")
    }
}

/// All that is told.
#[derive(Clone, Copy)]
struct Whole<'n, 'a>(&'n NightReport<'a>);

impl fmt::Display for Whole<'_, '_> {
    fn fmt<W: fmt::Write>(&self, f: &mut fmt::Formatter<W>) -> fmt::Result {
        let night = self.0;
        let verdict = Line(night.line);
        let reasons = Reasons(night.reasons);
        let troubles = TroubleLines(night.troubles);
        let hint = Hint(rights_hint(night.counts));
        let steps = Steps(Line(night.folder));
        write!(f, "{verdict}\n{reasons}{troubles}{hint}{steps}")
    }
}

/// What is told of a red night, as plain text: the last line, why, what hindered the calls, and what to look at next.
pub fn explanation(alloc: Global, night: &NightReport<'_>) -> Result<String, AllocError> {
    let told = Whole(night);
    format!(in alloc; "{told}")
}
