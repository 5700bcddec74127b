//! Texts that are written by hand.

use nfs3_types::{Answer, Failure, NfsReply, Optional, Procedure, WccData};
use night_lanes::{Counts, Trouble, TroubleKind, Troubles};
use night_report::{
    Finding, NightReport, Numbers, Request, explanation, junit_xml, report_json, rights_hint,
};
use std::alloc::{AllocError, Global};
use std::test::Fail;

/// What is asked for.
#[derive(Clone, Copy)]
enum Text {
    Json,
    Junit,
    Explanation,
}

/// A reply to SETATTR that succeeded.
fn done() -> NfsReply {
    NfsReply::SetAttr(Answer::Done(WccData {
        before: Optional::none(),
        after: Optional::none(),
    }))
}

/// A reply to GETATTR that failed so.
fn failed(failure: Failure) -> NfsReply {
    NfsReply::GetAttr(Answer::Failed(failure, ()))
}

/// Two SETATTR and four GETATTR, of which the fourth and the first COMMIT have no reply.
fn sample_counts(alloc: Global) -> Result<Counts, AllocError> {
    let mut counts = Counts::new(alloc)?;
    for _ in 0..2 {
        counts.count_call(Procedure::SetAttr);
        counts.count_reply(Procedure::SetAttr);
        counts.count_result(&done())?;
    }
    for failure in [Failure::Stale, Failure::Access, Failure::Access] {
        counts.count_call(Procedure::GetAttr);
        counts.count_reply(Procedure::GetAttr);
        counts.count_result(&failed(failure))?;
    }
    counts.count_call(Procedure::GetAttr);
    counts.count_call(Procedure::Commit);
    Ok(counts)
}

/// So many troubles of one call.
fn sample_troubles(alloc: Global, count: u32) -> Result<Troubles, AllocError> {
    let mut troubles = Troubles::new(alloc)?;
    for _ in 0..count {
        troubles.tell(Trouble {
            client: Some(1),
            lane: Some(5),
            xid: Some(17),
            call: None,
            kind: TroubleKind::NoReply,
        });
    }
    Ok(troubles)
}

/// A night of these counts and troubles: a green one if there is no reason, else a red one.
fn sample_of<'a>(
    reasons: &'a [String],
    number: u64,
    counts: &'a Counts,
    troubles: &'a Troubles,
) -> NightReport<'a> {
    let (line, status, health, order) = if reasons.is_empty() {
        ("yes", 0, Finding::Yes, Finding::Yes)
    } else {
        (
            "no: the server wasn't in health",
            1,
            Finding::No("2 < 3 & \"so\"\r\n"),
            Finding::Unknown("\0"),
        )
    };
    NightReport {
        folder: "night/7",
        request: Request {
            seed: 7,
            clients: 4,
            calls: 1000,
            depth: 2,
            mix: "shared",
            uid: 0,
            gid: 65534,
            rounds: 2,
            profile: "plain",
        },
        numbers: Numbers {
            start_objects: 3,
            eras: 3,
            calls: 7,
            replies: 5,
            judged_and_answered: 5,
            troubles: number,
        },
        counts,
        causes: None,
        troubles,
        status,
        line,
        reasons,
        health,
        order,
        enough: Finding::Yes,
    }
}

/// Whether the text of a night is as wanted. A green one has no reason; a red one has two, of odd bytes, and so many troubles.
fn is_told(
    alloc: Global,
    reasons: &[String],
    troubles: u32,
    text: Text,
    wanted: &str,
) -> Result<bool, AllocError> {
    let counts = sample_counts(alloc)?;
    let kept = sample_troubles(alloc, troubles)?;
    let night = sample_of(reasons, u64::from(troubles), &counts, &kept);
    let told = match text {
        Text::Json => report_json(alloc, &night),
        Text::Junit => junit_xml(alloc, &night),
        Text::Explanation => explanation(alloc, &night),
    }?;
    Ok(told.as_str() == wanted)
}

/// The same of a red night with two reasons of odd bytes.
fn is_red_told(alloc: Global, troubles: u32, text: Text, wanted: &str) -> Result<bool, AllocError> {
    let mut reasons = Vec::new(alloc);
    reasons.push(String::from_str(alloc, "a \"<&>\" b")?)?;
    reasons.push(String::from_str(alloc, "\u{1b}[0m\t\u{7f}\u{fffe}é\n")?)?;
    is_told(alloc, reasons.as_slice(), troubles, text, wanted)
}

#[test]
fn a_green_night_in_junit(rt: HostRuntime) -> Result<(), Fail> {
    let wanted = "<?xml version=\"1.0\" encoding=\"UTF-8\"?>
<testsuites tests=\"3\" failures=\"0\" errors=\"0\">
  <testsuite name=\"nfsbench test\" tests=\"3\" failures=\"0\" errors=\"0\">
    <testcase classname=\"nfsbench test\" name=\"the server was in health\"/>
    <testcase classname=\"nfsbench test\" name=\"some order explains the history\"/>
    <testcase classname=\"nfsbench test\" name=\"enough calls were answered\"/>
  </testsuite>
</testsuites>
";
    assert!(rt; is_told(rt.alloc(), &[], 0, Text::Junit, wanted)?);
    Ok(())
}

#[test]
fn a_red_night_in_junit(rt: HostRuntime) -> Result<(), Fail> {
    let wanted = "<?xml version=\"1.0\" encoding=\"UTF-8\"?>
<testsuites tests=\"3\" failures=\"1\" errors=\"1\">
  <testsuite name=\"nfsbench test\" tests=\"3\" failures=\"1\" errors=\"1\">
    <testcase classname=\"nfsbench test\" name=\"the server was in health\">
      <failure message=\"2 &lt; 3 &amp; &quot;so&quot;&#13;&#10;\">
a &quot;&lt;&amp;&gt;&quot; b
\\u{1b}[0m&#9;\\u{7f}\\u{fffe}é&#10;</failure>
    </testcase>
    <testcase classname=\"nfsbench test\" name=\"some order explains the history\">
      <error message=\"\\u{0}\">
a &quot;&lt;&amp;&gt;&quot; b
\\u{1b}[0m&#9;\\u{7f}\\u{fffe}é&#10;</error>
    </testcase>
    <testcase classname=\"nfsbench test\" name=\"enough calls were answered\"/>
  </testsuite>
</testsuites>
";
    assert!(rt; is_red_told(rt.alloc(), 0, Text::Junit, wanted)?);
    Ok(())
}

#[test]
fn a_red_night_explained(rt: HostRuntime) -> Result<(), Fail> {
    let wanted = "no: the server wasn't in health

Reasons:
  a \"<&>\" b
  \\u{1b}[0m\\u{9}\\u{7f}\\u{fffe}é\\u{a}

What hindered the calls:
  client 1: lane 5: transaction 17: no reply came in time

About rights:
  More than a quarter of the replies are NFS3ERR_PERM or NFS3ERR_ACCES. Export with no_root_squash in /etc/exports, or with Squash = No_Root_Squash in nfs-ganesha's EXPORT, or call as the owner of the export by --uid and --gid.

What to do next:
  nfsbench show night/7/history
    prints each call and each reply, with the number of its event
  nfsbench draw night/7/history > picture.html
    draws them as a page for a browser; --call N and --from N choose where
  nfsbench decide night/7/history --go-on 3
    names the event that no order explains, leaves its call out, and goes on, three times
  night/7/report.json
    has the procedures and statuses that were met, and each trouble
";
    assert!(rt; is_red_told(rt.alloc(), 1, Text::Explanation, wanted)?);
    Ok(())
}

/// The procedures of which no call was made, but for COMMIT.
const IDLE: &str =
    "LOOKUP READLINK READ WRITE CREATE MKDIR SYMLINK REMOVE RMDIR RENAME READDIR READDIRPLUS";

/// A red night in JSON, up to the procedures that are missing.
const JSON_FRONT: &str = "{
  \"verdict\": {
    \"status\": 1,
    \"line\": \"no: the server wasn't in health\",
    \"reasons\": [
      \"a \\\"<&>\\\" b\",
      \"\\u001b[0m\\t\u{7f}\u{fffe}é\\n\"
    ]
  },
  \"request\": {
    \"seed\": 7,
    \"clients\": 4,
    \"calls\": 1000,
    \"depth\": 2,
    \"mix\": \"shared\",
    \"uid\": 0,
    \"gid\": 65534,
    \"rounds\": 2,
    \"profile\": \"plain\"
  },
  \"numbers\": {
    \"start_objects\": 3,
    \"eras\": 3,
    \"calls\": 7,
    \"replies\": 5,
    \"judged_and_answered\": 5,
    \"troubles\": 1
  },
  \"coverage\": {
    \"procedures\": 2,
    \"of\": 15,
    \"missing\": [
";

/// What comes after these but for COMMIT, up to the procedures of which no call was made.
const JSON_MIDDLE: &str = "      \"COMMIT\"
    ],
    \"statuses\": [
      \"NFS3_OK\",
      \"NFS3ERR_ACCES\",
      \"NFS3ERR_STALE\"
    ],
    \"results\": 3,
    \"causes\": null
  },
  \"denied\": 2,
  \"too_weak\": 0,
  \"hint\": \"More than a quarter of the replies are NFS3ERR_PERM or NFS3ERR_ACCES. Export with no_root_squash in /etc/exports, or with Squash = No_Root_Squash in nfs-ganesha's EXPORT, or call as the owner of the export by --uid and --gid.\",
  \"procedures\": {
    \"GETATTR\": {
      \"calls\": 4,
      \"replies\": 3,
      \"statuses\": {
        \"NFS3ERR_ACCES\": 2,
        \"NFS3ERR_STALE\": 1
      }
    },
    \"SETATTR\": {
      \"calls\": 2,
      \"replies\": 2,
      \"statuses\": {
        \"NFS3_OK\": 2
      }
    },
";

/// What comes after these.
const JSON_BACK: &str = "    \"COMMIT\": {
      \"calls\": 1,
      \"replies\": 0,
      \"statuses\": {}
    }
  },
  \"troubles\": [
    {
      \"client\": 1,
      \"lane\": 5,
      \"transaction\": 17,
      \"call\": null,
      \"what\": \"no reply came in time\"
    }
  ],
  \"more_troubles\": 0
}
";

/// What a procedure of which no call was made has after its name.
const NO_CALLS: &str =
    "\": {\n      \"calls\": 0,\n      \"replies\": 0,\n      \"statuses\": {}\n    },\n";

fn put_all(text: &mut String, parts: &[&str]) -> Result<(), AllocError> {
    for part in parts {
        text.push_str(part)?;
    }
    Ok(())
}

/// The whole of it.
fn put_json(text: &mut String) -> Result<(), AllocError> {
    text.push_str(JSON_FRONT)?;
    for name in IDLE.split(' ') {
        put_all(text, &["      \"", name, "\",\n"])?;
    }
    text.push_str(JSON_MIDDLE)?;
    for name in IDLE.split(' ') {
        put_all(text, &["    \"", name, NO_CALLS])?;
    }
    text.push_str(JSON_BACK)
}

#[test]
fn a_red_night_in_json(rt: HostRuntime) -> Result<(), Fail> {
    let mut wanted = String::new(rt.alloc());
    put_json(&mut wanted)?;
    assert!(rt; is_red_told(rt.alloc(), 1, Text::Json, wanted.as_str())?);
    Ok(())
}

/// Whether there is a hint about rights where so many of seven replies are denials.
fn is_hinted(alloc: Global, denied: u32) -> Result<bool, AllocError> {
    let mut counts = Counts::new(alloc)?;
    for number in 0..7 {
        counts.count_reply(Procedure::GetAttr);
        if number < denied {
            counts.count_result(&failed(Failure::Access))?;
        }
    }
    Ok(rights_hint(&counts).is_some())
}

#[test]
fn over_a_quarter_of_denials_hint_at_rights(rt: HostRuntime) -> Result<(), Fail> {
    assert!(rt; !is_hinted(rt.alloc(), 1)?);
    assert!(rt; is_hinted(rt.alloc(), 2)?);
    Ok(())
}
