//! The text of a page that is the program's own.

/// Text that is the same in each page. It begins and ends outside of a tag.
#[derive(Clone, Copy)]
pub enum Fixed {
    /// From the beginning to the title.
    Beginning,
    /// From the title to the heading.
    Style,
    /// From the heading to what bars and colours mean.
    Legend,
    /// Ahead of the first event that is drawn.
    Range,
    /// Between two events.
    To,
    /// Ahead of how many events there are.
    Of,
    /// Ahead of the last event that was asked for.
    NotDrawn,
    /// Ahead of how many calls are left out.
    LeftOut,
    /// From there to the picture.
    EndRange,
    /// Ahead of the names of the lanes.
    Names,
    /// In place of them, where they stand once more.
    NamesAgain,
    /// Behind a strip.
    EndSvg,
    /// What the bars of lost calls are filled with.
    Hatch,
    /// Ahead of what is told when a shape is pointed at.
    Title,
    /// Behind it.
    EndTitle,
    /// Between two lines of it.
    LineFeed,
    /// Ahead of a lane.
    Lane,
    /// Ahead of the number of a call.
    Call,
    /// Ahead of the event of a crash.
    Crash,
    /// Ahead of a call's place.
    Place,
    /// Behind it.
    EndPlace,
    /// Between a procedure and a name.
    Space,
    /// Behind the front of a name.
    Dots,
    /// Behind a label.
    EndLabel,
    /// Behind the shapes of a call or a crash.
    EndGroup,
    /// From the picture to the first row.
    Table,
    /// Between two cells.
    Cell,
    /// In place of a reply.
    NoReply,
    /// Behind the place of a call that a crash took away.
    Lost,
    /// Of the call that is asked for.
    Asked,
    /// Of the call at fault.
    AtFault,
    /// Of a call that explains the fault.
    Explains,
    /// Behind a row.
    EndRow,
    /// From the last row to the end.
    End,
}

const BEGINNING: &str = "<!DOCTYPE html>
<html lang=\"en\">
<head>
<meta charset=\"utf-8\"/>
<meta name=\"viewport\" content=\"width=device-width\"/>
<meta http-equiv=\"Content-Security-Policy\" content=\"default-src 'none'; style-src 'unsafe-inline'\"/>
<title>";

const STYLE: &str = "</title>
<style>
:root { color-scheme: light dark; --page: #ffffff; --ink: #1b1b1b; --rule: #c8c8c8; --band: #f4f4f4;
  --bar: #d7e3ee; --edge: #4d6680; --fault: #f6bdb6; --fault-edge: #b3261e; --explains: #ffe2a6; --explains-edge: #8a5a00; --crash: #7a3ea8; }
@media (prefers-color-scheme: dark) {
  :root { --page: #161616; --ink: #e8e8e8; --rule: #454545; --band: #202020;
    --bar: #2f4357; --edge: #9db6cf; --fault: #6e2620; --fault-edge: #ff8a80; --explains: #5a4306; --explains-edge: #ffc94d; --crash: #c99bff; }
}
body { margin: 1.5rem; background: var(--page); color: var(--ink); font: 14px/1.45 system-ui, sans-serif; }
h1 { font-size: 1.25rem; overflow-wrap: anywhere; }
.scroll { display: flex; overflow-x: auto; border: 1px solid var(--rule); }
.scroll svg { display: block; flex: none; }
.scroll svg.names { position: sticky; left: 0; background: var(--page); }
.scroll svg.again { display: none; }
text { font: 12px ui-monospace, monospace; fill: var(--ink); white-space: pre; }
rect.lane { fill: none; }
rect.odd { fill: var(--band); }
line.tick { stroke: var(--rule); }
line.crash { stroke: var(--crash); stroke-width: 3; }
g.crash text { fill: var(--crash); }
.bar, .cut, .unanswered { fill: var(--bar); stroke: var(--edge); stroke-width: 1.25; }
.unanswered { stroke-dasharray: 4 3; }
.fault .bar, .fault .cut, .fault .unanswered { fill: var(--fault); stroke: var(--fault-edge); stroke-width: 2.5; }
.explains .bar, .explains .cut, .explains .unanswered { fill: var(--explains); stroke: var(--explains-edge); stroke-width: 2; }
.asked .bar, .asked .cut, .asked .unanswered { stroke: var(--ink); stroke-width: 2.5; }
.lost { fill: url(#hatch); }
.hatch { fill: var(--edge); fill-opacity: 0.45; }
.place { font-weight: bold; }
.key { padding: 0 0.5em; border: 1px solid var(--edge); background: var(--bar); }
.key.asked { border: 2px solid var(--ink); }
tr.asked { background: var(--bar); }
.key.fault, tr.fault { background: var(--fault); border-color: var(--fault-edge); }
.key.explains, tr.explains { background: var(--explains); border-color: var(--explains-edge); }
.key.taken { background: repeating-linear-gradient(45deg, var(--rule) 0 2px, transparent 2px 6px); }
.key.down { border: none; border-left: 3px solid var(--crash); background: none; }
.key.waiting { border-style: dashed; border-right: none; }
table { margin-top: 1.5rem; border-collapse: collapse; }
th, td { padding: 0.15rem 0.7rem 0.15rem 0; text-align: left; vertical-align: top; border-bottom: 1px solid var(--rule); }
td { overflow-wrap: anywhere; white-space: pre-wrap; }
@media print {
  @page { size: landscape; }
  :root { color-scheme: light; --page: #ffffff; --ink: #000000; --rule: #a0a0a0; --band: #f4f4f4;
    --bar: #d7e3ee; --edge: #4d6680; --fault: #f6bdb6; --fault-edge: #b3261e; --explains: #ffe2a6; --explains-edge: #8a5a00; --crash: #7a3ea8; }
  body { margin: 0; print-color-adjust: exact; -webkit-print-color-adjust: exact; }
  .scroll { flex-wrap: wrap; overflow: visible; border: none; }
  .scroll svg { height: auto; margin-bottom: 1em; break-inside: avoid; }
  .scroll svg.names { display: none; }
  .scroll svg.again { display: block; width: 8%; }
  .scroll svg.strip { width: 92%; }
  tr { break-inside: avoid; }
}
</style>
</head>
<body>
<h1>";

const LEGEND: &str = "</h1>
<p>A bar is a call, from the event of the call to that of its reply. A label that is too wide for its bar stands behind it. The number in a
label is the place of the call in the order of the certificate. Pointed at, a bar tells the words of <code>nfsbench show</code>.</p>
<p><span class=\"key asked\">asked for</span> <span class=\"key fault\">at fault</span> <span class=\"key explains\">explains it</span>
<span class=\"key down\">crash</span> <span class=\"key taken\">lost in it</span> <span class=\"key waiting\">no reply</span></p>
";

const HATCH: &str =
    "<defs><pattern id=\"hatch\" width=\"6\" height=\"6\" patternUnits=\"userSpaceOnUse\" patternTransform=\"rotate(45)\">\
    <rect class=\"hatch\" width=\"2\" height=\"6\"/></pattern></defs>\n";

const TABLE: &str = "</div>
<table>
<thead><tr><th>Call</th><th>Lane</th><th>Events</th><th>Procedure</th><th>Name or handle</th><th>Reply</th><th>Place</th><th>Mark</th></tr></thead>
<tbody>
";

impl Fixed {
    ghost use Rattle.std.specs.Prelude.{◌≡◌};
    ghost use Rattle.history_picture.specs.Fixed.{fixed_words};

    /// Its words.
    pub fn words(self) -> &'static str
        ensures { result.now ≡ fixed_words self }
    {
        match self {
            Fixed::Beginning => BEGINNING,
            Fixed::Style => STYLE,
            Fixed::Legend => LEGEND,
            Fixed::Range => "<p>Events ",
            Fixed::To => " to ",
            Fixed::Of => " of ",
            Fixed::NotDrawn => {
                ". A picture has at most 2,000 events: not drawn are those up to "
            }
            Fixed::LeftOut => ". Calls that were under way all the time, and aren't drawn: ",
            Fixed::EndRange => ".</p>\n<div class=\"scroll\">\n",
            Fixed::Names => "<g id=\"names\">\n",
            Fixed::NamesAgain => "<use href=\"#names\"/>\n",
            Fixed::EndSvg => "</svg>\n",
            Fixed::Hatch => HATCH,
            Fixed::Title => "<title>",
            Fixed::EndTitle => "</title>\n",
            Fixed::LineFeed => "\n",
            Fixed::Lane => "lane ",
            Fixed::Call => "call ",
            Fixed::Crash => "crash, event ",
            Fixed::Place => "<tspan class=\"place\">",
            Fixed::EndPlace => "</tspan> ",
            Fixed::Space => " ",
            Fixed::Dots => "..",
            Fixed::EndLabel => "</text>\n",
            Fixed::EndGroup => "</g>\n",
            Fixed::Table => TABLE,
            Fixed::Cell => "</td><td>",
            Fixed::NoReply => "no reply",
            Fixed::Lost => ", lost",
            Fixed::Asked => "asked for",
            Fixed::AtFault => "at fault",
            Fixed::Explains => "explains it",
            Fixed::EndRow => "</td></tr>\n",
            Fixed::End => "</tbody>\n</table>\n</body>\n</html>\n",
        }
    }
}
