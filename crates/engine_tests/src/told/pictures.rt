//! Pictures whose pages are written by hand.

use crate::histories::Happened::{Asked, Crashed, Done};
use crate::histories::{AA, Exchange, GIVES_AA, Happened, PLAIN, file};
use certificate::read_certificate;
use drawing_command::{DrawRequest, Wanted, draw_history};
use history_picture::{
    Bar, Mark, Page, Picture, Request, Window, escape, picture_of, picture_page,
};
use nfs_history::read_calls;
use std::alloc::{AllocError, Global};
use std::test::Fail;

/// CREATE of `<` in the root, which gives the handle aa.
const CREATE: Exchange = Exchange(8, &[1, 0, 1, 0x3c00_0000, 0, 0, 0, 0, 0, 0, 0], GIVES_AA);

/// WRITE of `abc` to it.
const WRITE: Exchange = Exchange(
    7,
    &[1, AA, 0, 0, 3, 2, 3, 0x6162_6300],
    &[0, 0, 0, 3, 2, 0, 1],
);

/// READ of ten bytes of it, which gives these.
const READ: Exchange = Exchange(6, &[1, AA, 0, 0, 10], &[0, 0, 3, 1, 3, 0x6162_6300]);

const HISTORY: &[Happened] = &[Done(1, 1, CREATE), Done(1, 2, WRITE), Done(2, 3, READ)];

/// The same with a crash in place of the reply to WRITE.
const CRASHED: &[Happened] = &[
    Done(1, 1, CREATE),
    Asked(1, 2, WRITE),
    Crashed,
    Done(2, 3, READ),
];

/// The order in which the calls were made.
const WITNESS: &[u8] = b"witness 1\nbind aa 1\nplace 1\nplace 2\nplace 3\nend\n";

/// The READ before the WRITE, which was answered before the READ was sent.
const EARLY: &[u8] = b"witness 1\nbind aa 1\nplace 1\nplace 3\nplace 2\nend\n";

/// A certificate by which a crash took the WRITE away.
const LOSING: &[u8] = b"witness 1\nplace 1\nplace 2\ncut 1\nplace 3\nend\n";

/// The picture in the page of three calls, after the first tag's name.
const THREE_CALLS: &str = "class=\"names\" width=\"96\" height=\"80\" viewBox=\"0 0 96 80\">
<g id=\"names\">
<rect class=\"odd\" x=\"0\" y=\"28\" width=\"96\" height=\"26\"/>
<rect class=\"lane\" x=\"0\" y=\"54\" width=\"96\" height=\"26\"/>
<text class=\"lane\" x=\"6\" y=\"45\">lane 1</text>
<text class=\"lane\" x=\"6\" y=\"71\">lane 7</text>
</g>
</svg>
<svg class=\"again\" width=\"96\" height=\"80\" viewBox=\"0 0 96 80\">
<use href=\"#names\"/>
</svg>
<svg class=\"strip\" width=\"1104\" height=\"80\" viewBox=\"0 0 1104 80\">
<defs><pattern id=\"hatch\" width=\"6\" height=\"6\" patternUnits=\"userSpaceOnUse\" patternTransform=\"rotate(45)\"><rect class=\"hatch\" width=\"2\" height=\"6\"/></pattern></defs>
<rect class=\"odd\" x=\"0\" y=\"28\" width=\"1104\" height=\"26\"/>
<rect class=\"lane\" x=\"0\" y=\"54\" width=\"1104\" height=\"26\"/>
<line class=\"tick\" x1=\"14\" y1=\"22\" x2=\"14\" y2=\"80\"/>
<text class=\"tick\" x=\"14\" y=\"18\">1</text>
<line class=\"tick\" x1=\"173\" y1=\"22\" x2=\"173\" y2=\"80\"/>
<text class=\"tick\" x=\"173\" y=\"18\">3</text>
<g class=\"crash\"><title>crash, event 6</title>
<line class=\"crash\" x1=\"215\" y1=\"22\" x2=\"215\" y2=\"80\"/>
</g>
<g class=\"plain\"><title>asked &quot;1&quot;
answered</title>
<rect class=\"bar\" x=\"14\" y=\"32\" width=\"14\" height=\"18\"/>
<text class=\"label\" x=\"33\" y=\"45\"><tspan class=\"place\">1</tspan> CREATE a&lt;b</text>
</g>
<g class=\"fault\"><title>asked &quot;1&quot;
answered</title>
<rect class=\"bar\" x=\"173\" y=\"32\" width=\"28\" height=\"18\"/>
<rect class=\"lost\" x=\"173\" y=\"32\" width=\"28\" height=\"18\"/>
<text class=\"label\" x=\"206\" y=\"45\"><tspan class=\"place\">2</tspan> WRITE </text>
</g>
<g class=\"explains\"><title>asked &quot;1&quot;
</title>
<path class=\"unanswered\" d=\"M215 58H187V76H215\"/>
<text class=\"label\" x=\"220\" y=\"71\">READ </text>
</g>
</svg>
</div>
<table>
<thead><tr><th>Call</th><th>Lane</th><th>Events</th><th>Procedure</th><th>Name or handle</th><th>Reply</th><th>Place</th><th>Mark</th></tr></thead>
<tbody>
<tr class=\"plain\"><td>1</td><td>1</td><td>1 to 2</td><td>CREATE</td><td>a&lt;b</td><td>NFS3_OK</td><td>1</td><td></td></tr>
<tr class=\"fault\"><td>2</td><td>1</td><td>3 to 5</td><td>WRITE</td><td></td><td>NFS3_OK</td><td>2, lost</td><td>at fault</td></tr>
<tr class=\"explains\"><td>3</td><td>7</td><td>4</td><td>READ</td><td></td><td>no reply</td><td></td><td>explains it</td></tr>
</tbody>
</table>
</body>
</html>
";

/// What differs between calls: number, lane, events, procedure, name, place and mark.
#[derive(Clone, Copy)]
struct Sample(
    u64,
    u32,
    (u64, Option<u64>),
    &'static str,
    &'static [u8],
    Option<u64>,
    Mark,
);

/// A call with a reply, one that is lost, and one that has no reply up to a crash.
const SAMPLES: [Sample; 3] = [
    Sample(1, 1, (1, Some(2)), "CREATE", b"a<b", Some(1), Mark::Plain),
    Sample(2, 1, (3, Some(5)), "WRITE", b"", Some(2), Mark::AtFault),
    Sample(3, 7, (4, None), "READ", b"", None, Mark::Explains),
];

/// The bar of a call, with this name.
fn bar_of(alloc: Global, sample: Sample, name: &[u8]) -> Result<Bar, AllocError> {
    let Sample(number, lane, (first, last), procedure, _, place, mark) = sample;
    let answered = match last {
        Some(_) => "answered",
        None => "",
    };
    Ok(Bar {
        number,
        lane,
        first,
        last,
        procedure,
        name: Vec::from_slice(alloc, name)?,
        reply: "NFS3_OK",
        asked: Vec::from_slice(alloc, b"asked \"1\"")?,
        answered: Vec::from_slice(alloc, answered.as_bytes())?,
        place,
        is_lost: mark == Mark::AtFault,
        mark,
    })
}

/// A picture without calls, of these events.
fn empty_picture(alloc: Global, last: u64) -> Result<Picture, AllocError> {
    Ok(Picture {
        caption: Vec::from_slice(alloc, b"no: Illegal 2 & more")?,
        first: 1,
        last,
        events: last,
        left_out: 0,
        lanes: Vec::new(alloc),
        bars: Vec::new(alloc),
        crashes: Vec::new(alloc),
    })
}

/// Whether the page of three calls is as wanted.
fn are_three_calls_drawn(alloc: Global) -> Result<bool, AllocError> {
    let mut picture = empty_picture(alloc, 6)?;
    picture.lanes.push(1)?;
    picture.lanes.push(7)?;
    picture.crashes.push(6)?;
    for sample in SAMPLES {
        picture.bars.push(bar_of(alloc, sample, sample.4)?)?;
    }
    let page = picture_page(alloc, &picture)?;
    match str::from_utf8(page.as_slice())
        .unwrap_or("")
        .split_once("<svg ")
    {
        Some((_, drawn)) => Ok(drawn == THREE_CALLS),
        None => Ok(false),
    }
}

#[test]
fn calls_are_drawn(rt: HostRuntime) -> Result<(), Fail> {
    assert!(rt; are_three_calls_drawn(rt.alloc())?);
    Ok(())
}

/// Whether bytes that are text have all of some words.
fn has_all(page: &[u8], all: &[&str]) -> bool {
    let Ok(text) = str::from_utf8(page) else {
        return false;
    };
    for words in all {
        if !text.contains(*words) {
            return false;
        }
    }
    true
}

/// Names that are a part so many times, and the text that is shown in the bar and listed, so many times, with these words after it. 32 and 160
/// bytes are 16 and 80 characters of two bytes; a sixth of them is 5 and 26 references of six bytes.
const NAMES: [((&str, usize), &str, (usize, usize), &str); 3] = [
    (("é", 16), "é", (16, 16), ""),
    (("é", 200), "é", (16, 80), ".."),
    (("\"", 200), "&quot;", (5, 26), ".."),
];

/// Whether a name is shown in the bar, and listed, as a text so many times with these words after it.
fn is_name_shown(
    alloc: Global,
    name: (&str, usize),
    text: &str,
    counts: (usize, usize),
    end: &str,
) -> Result<bool, AllocError> {
    let name = name.0.repeat(alloc, name.1)?;
    let mut picture = empty_picture(alloc, 2)?;
    picture.lanes.push(1)?;
    let bar = bar_of(alloc, SAMPLES[0], name.as_bytes())?;
    picture.bars.push(bar)?;
    let page = picture_page(alloc, &picture)?;
    let label = format!(in alloc;
        "</tspan> CREATE {}{end}</text>",
        text.repeat(alloc, counts.0)?
    )?;
    let cell = format!(in alloc; "<td>{}{end}</td>", text.repeat(alloc, counts.1)?)?;
    Ok(has_all(page.as_slice(), &[label.as_str(), cell.as_str()]))
}

#[test]
fn long_names_are_cut(rt: HostRuntime) -> Result<(), Fail> {
    for (name, text, counts, end) in NAMES {
        assert!(rt; is_name_shown(rt.alloc(), name, text, counts, end)?);
    }
    Ok(())
}

/// How many events a picture without calls has, and words of its page.
const EVENTS: [(u64, &str); 4] = [
    (0, "<p>Events 0 of 0.</p>"),
    (1, "<title>no: Illegal 2 &amp; more</title>"),
    (2_000, "<p>Events 1 to 2000 of 2000.</p>"),
    (
        2_001,
        "<p>Events 1 to 2000 of 2001. A picture has at most 2,000 events: not drawn are those up to 2001.</p>",
    ),
];

/// Whether the page of a picture without calls has such words.
fn is_told_of_events(alloc: Global, last: u64, words: &str) -> Result<bool, AllocError> {
    let picture = empty_picture(alloc, last)?;
    let page = picture_page(alloc, &picture)?;
    Ok(has_all(page.as_slice(), &[words]))
}

#[test]
fn the_events_are_told(rt: HostRuntime) -> Result<(), Fail> {
    for (last, words) in EVENTS {
        assert!(rt; is_told_of_events(rt.alloc(), last, words)?);
    }
    Ok(())
}

const WHOLE: Window = Window::Events {
    first: 0,
    last: u64::MAX,
};

/// One event around the second call.
const AROUND_2: Window = Window::Around {
    first: 2,
    last: 2,
    events: 1,
};

const FROM_2_TO_4: Wanted = Wanted::Events {
    from: 2,
    to: Some(4),
};

/// The page of a history with `LOSING`.
fn history_page(
    alloc: Global,
    happened: &[Happened],
    window: Window,
) -> Result<Option<Page>, AllocError> {
    let file = file(alloc, PLAIN, happened)?;
    let Ok(certificate) = read_certificate(alloc, LOSING) else {
        return Ok(None);
    };
    let Ok(known) = read_calls(alloc, &file) else {
        return Ok(None);
    };
    let request = Request {
        caption: b"history",
        window,
        asked: Some(2),
        fault: Some(3),
        explaining: &[1],
    };
    match picture_of(alloc, &file, &known, Some(&certificate), &request) {
        Ok(picture) => Ok(Some(picture_page(alloc, &picture)?)),
        Err(_) => Ok(None),
    }
}

/// Whether the page of a history with `LOSING` has all of some words.
fn is_drawn(
    alloc: Global,
    happened: &[Happened],
    window: Window,
    all: &[&str],
) -> Result<bool, AllocError> {
    match history_page(alloc, happened, window)? {
        Some(page) => Ok(has_all(page.as_slice(), all)),
        None => Ok(false),
    }
}

#[test]
fn histories_are_drawn(rt: HostRuntime) -> Result<(), Fail> {
    let alloc = rt.alloc();
    let whole = [
        "<p>Events 1 to 6 of 6.</p>",
        "<tr class=\"explains\"><td>1</td><td>1</td><td>1 to 2</td><td>CREATE</td><td>&lt;</td><td>NFS3_OK</td><td>1</td><td>explains it</td></tr>",
        "<tr class=\"asked\"><td>2</td><td>1</td><td>3 to 4</td><td>WRITE</td><td>handle aa</td><td>NFS3_OK</td><td>2, lost</td><td>asked for</td></tr>",
        "<tr class=\"fault\"><td>3</td><td>2</td><td>5 to 6</td><td>READ</td><td>handle aa</td><td>NFS3_OK</td><td>3</td><td>at fault</td></tr>",
        "<title>1 call 1 lane 1 xid 0x00000001 CREATE directory 00 name &quot;&lt;&quot; UNCHECKED\n2 reply to call 1 lane 1 xid 0x00000001 CREATE NFS3_OK object aa</title>",
        "<tspan class=\"place\">1</tspan> CREATE &lt;</text>",
    ];
    let around = [
        "<p>Events 2 to 5 of 6.</p>",
        "<path class=\"cut\" d=\"M0 32H14V50H0\"/>",
        "<title>1 call 1 lane 1 xid 0x00000001 CREATE",
    ];
    assert!(rt; is_drawn(alloc, HISTORY, WHOLE, whole.as_slice())?);
    assert!(rt; is_drawn(alloc, HISTORY, AROUND_2, around.as_slice())?);
    Ok(())
}

#[test]
fn a_call_ends_at_a_crash(rt: HostRuntime) -> Result<(), Fail> {
    let alloc = rt.alloc();
    let from_crash = Window::Events { first: 4, last: 6 };
    let after_crash = Window::Events { first: 5, last: 6 };
    let cut = [
        "<p>Events 4 to 6 of 6.</p>",
        "<path class=\"unanswered\" d=\"M0 32H14V50H0\"/>",
        "<tr class=\"asked\"><td>2</td><td>1</td><td>3</td><td>WRITE</td><td>handle aa</td><td>no reply</td><td>2, lost</td><td>asked for</td></tr>",
    ];
    let later = [
        "<p>Events 5 to 6 of 6.</p>",
        "<tbody>\n<tr class=\"fault\"><td>3</td>",
    ];
    assert!(rt; is_drawn(alloc, CRASHED, from_crash, cut.as_slice())?);
    assert!(rt; is_drawn(alloc, CRASHED, after_crash, later.as_slice())?);
    Ok(())
}

/// Whether the command writes a page of `HISTORY` that has all of some words.
fn is_written(
    alloc: Global,
    certificate: &[u8],
    wanted: Wanted,
    all: &[&str],
) -> Result<bool, AllocError> {
    let file = file(alloc, PLAIN, HISTORY)?;
    let request = DrawRequest {
        history: "<h>",
        certificate: Some("c"),
        wanted,
    };
    let mut page = Vec::new(alloc);
    let status = draw_history(alloc, &request, &file, Some(certificate), &mut page);
    Ok(status == 0 && has_all(&page, all))
}

#[test]
fn the_command_writes_pages(rt: HostRuntime) -> Result<(), Fail> {
    let alloc = rt.alloc();
    let fault = [
        "<title>&lt;h&gt;: no: Early 3 2</title>",
        "<p>Events 1 to 6 of 6.</p>",
        "<tr class=\"fault\"><td>3</td><td>2</td><td>5 to 6</td><td>READ</td>",
        "<tr class=\"explains\"><td>2</td><td>1</td><td>3 to 4</td><td>WRITE</td>",
    ];
    let yes = [
        "<title>&lt;h&gt;: yes</title>",
        "<p>Events 1 to 6 of 6.</p>",
    ];
    let asked = ["<tr class=\"asked\"><td>2</td>"];
    let some = ["<p>Events 2 to 4 of 6.</p>"];
    assert!(rt; is_written(alloc, EARLY, Wanted::Fault, fault.as_slice())?);
    assert!(rt; is_written(alloc, WITNESS, Wanted::Fault, yes.as_slice())?);
    assert!(rt; is_written(alloc, WITNESS, Wanted::Call(2), asked.as_slice())?);
    assert!(rt; is_written(alloc, WITNESS, FROM_2_TO_4, some.as_slice())?);
    Ok(())
}

/// Bytes of others, and the text that is made of them. The last five have no shape, or are beside what has none.
const ESCAPED: &[(&[u8], &[u8])] = &[
    (b"", b""),
    (b"<b a=\"'&", b"&lt;b a=&quot;&#39;&amp;"),
    (b"x>\x00\x1b\x7f\n", b"x&gt;\\x00\\x1b\\x7f\\x0a"),
    (b"\xc3\xa9\xf0\x9f\x98\x80", b"\xc3\xa9\xf0\x9f\x98\x80"),
    (b"\xff\xc3<\xe2\x82", b"\\xff\\xc3&lt;\\xe2\\x82"),
    (b"\xed\xa0\x80", b"\\xed\\xa0\\x80"),
    (b"a\xe2\x80\xaeb\xc2\x85", b"a\\u202eb\\u0085"),
    (b"\xd8\x9c\xef\xbb\xbf", b"\\u061c\\ufeff"),
    (b"\xef\xbf\xbf\xf0\x9f\xbf\xbe", b"\\uffff\\U0001fffe"),
    (b"\xc2\xad\xcd\x8f", b"\\u00ad\\u034f"),
    (b"\xe1\x85\x9f\xef\xbe\xa0", b"\\u115f\\uffa0"),
    (b"\xe1\xa0\x8e\xef\xb8\x8f", b"\\u180e\\ufe0f"),
    (b"\xef\xbf\xb9\xf3\xa0\x81\x81", b"\\ufff9\\U000e0041"),
    (b"\xef\xbf\xbc", b"\xef\xbf\xbc"),
    (b"\xf3\xa1\x80\x80", b"\xf3\xa1\x80\x80"),
];

fn is_escaped(alloc: Global, bytes: &[u8], wanted: &[u8]) -> Result<bool, AllocError> {
    let text = escape(alloc, bytes)?;
    Ok(text.as_slice() == wanted)
}

#[test]
fn bytes_of_others_are_text(rt: HostRuntime) -> Result<(), Fail> {
    for (bytes, wanted) in ESCAPED {
        assert!(rt; is_escaped(rt.alloc(), bytes, wanted)?);
    }
    Ok(())
}
