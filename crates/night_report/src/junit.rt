//! A night as a suite of tests, in the XML of JUnit that Jenkins and GitLab read.

use crate::escaping::Xml;
use crate::report::{Finding, NightReport};
use std::alloc::{AllocError, Global};
use std::fmt;

/// One question about a night, as a test.
#[derive(Clone, Copy)]
struct TestCase<'n, 'a> {
    name: &'static str,
    finding: Finding<'a>,
    reasons: &'n [String],
}

impl fmt::Display for TestCase<'_, '_> {
    fn fmt<W: fmt::Write>(&self, f: &mut fmt::Formatter<W>) -> fmt::Result {
        let name = self.name;
        let (element, why) = match self.finding {
            Finding::Yes => {
                return writeln!(
                    f,
                    "    <testcase classname=\"nfsbench test\" name=\"{name}\"/>"
                );
            }
            Finding::No(why) => ("failure", Xml(why)),
            Finding::Unknown(why) => ("error", Xml(why)),
        };
        let reasons = Reasons(self.reasons);
        writeln!(
            f,
            "    <testcase classname=\"nfsbench test\" name=\"{name}\">"
        )?;
        writeln!(
            f,
            "      <{element} message=\"{why}\">{reasons}</{element}>"
        )?;
        f.write_str("    </testcase>\n")
    }
}

/// Reasons, a line each.
#[derive(Clone, Copy)]
struct Reasons<'n>(&'n [String]);

impl fmt::Display for Reasons<'_> {
    fn fmt<W: fmt::Write>(&self, f: &mut fmt::Formatter<W>) -> fmt::Result {
        for reason in self.0 {
            let reason = Xml(reason.as_str());
            write!(f, "\n{reason}")?;
        }
        Ok(())
    }
}

/// All questions about a night.
#[derive(Clone, Copy)]
struct Suite<'n, 'a>(&'n NightReport<'a>);

/// How many tests failed, and how many couldn't be carried out.
#[derive(Clone, Copy)]
struct Sums {
    failures: u8,
    errors: u8,
}

impl fmt::Display for Sums {
    fn fmt<W: fmt::Write>(&self, f: &mut fmt::Formatter<W>) -> fmt::Result {
        let failures = self.failures;
        let errors = self.errors;
        write!(f, "tests=\"3\" failures=\"{failures}\" errors=\"{errors}\"")
    }
}

impl<'n, 'a> Suite<'n, 'a> {
    fn sums(self) -> Sums {
        let mut sums = Sums {
            failures: 0,
            errors: 0,
        };
        for finding in [self.0.health, self.0.order, self.0.enough] {
            match finding {
                Finding::Yes => {}
                Finding::No(_) => sums.failures = sums.failures.saturating_add(1),
                Finding::Unknown(_) => sums.errors = sums.errors.saturating_add(1),
            }
        }
        sums
    }

    fn test_case(self, name: &'static str, finding: Finding<'a>) -> TestCase<'n, 'a> {
        TestCase {
            name,
            finding,
            reasons: self.0.reasons,
        }
    }
}

impl fmt::Display for Suite<'_, '_> {
    fn fmt<W: fmt::Write>(&self, f: &mut fmt::Formatter<W>) -> fmt::Result {
        let sums = self.sums();
        let health = self.test_case("the server was in health", self.0.health);
        let order = self.test_case("some order explains the history", self.0.order);
        let enough = self.test_case("enough calls were answered", self.0.enough);
        f.write_str("<?xml version=\"1.0\" encoding=\"UTF-8\"?>\n")?;
        writeln!(f, "<testsuites {sums}>")?;
        writeln!(f, "  <testsuite name=\"nfsbench test\" {sums}>")?;
        write!(f, "{health}{order}{enough}")?;
        f.write_str("  </testsuite>\n</testsuites>\n")
    }
}

/// A night as a suite of three tests, in the XML of JUnit. Reasons stand in each test that doesn't pass.
pub fn junit_xml(alloc: Global, night: &NightReport<'_>) -> Result<String, AllocError> {
    let suite = Suite(night);
    format!(in alloc; "{suite}")
}
