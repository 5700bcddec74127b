//! The words that ask for a picture.

use clap::ArgMatches;

/// Which events are drawn.
#[derive(Clone, Copy)]
pub enum Wanted {
    /// Those around the fault if there is one, or else those from the first on.
    Fault,
    /// Those from one to another, or else to the last.
    Events { from: u64, to: Option<u64> },
    /// Those around a call.
    Call(u64),
}

/// What is drawn.
#[derive(Clone, Copy)]
pub struct DrawRequest<'a> {
    /// The path of the history, which is told in the page.
    pub history: &'a str,
    /// The path of the certificate, if there is one.
    pub certificate: Option<&'a str>,
    /// Which events are drawn.
    pub wanted: Wanted,
}

/// Which events the words behind `draw` ask for.
fn wanted_by(draw: &ArgMatches<'_>) -> Wanted {
    if let Some(call) = draw.get_one("call") {
        return Wanted::Call(call);
    }
    let from: Option<u64> = draw.get_one("from");
    let to: Option<u64> = draw.get_one("to");
    if from.is_none() && to.is_none() {
        return Wanted::Fault;
    }
    Wanted::Events {
        from: from.unwrap_or(1),
        to,
    }
}

/// What the words behind `draw` ask for.
pub fn draw_request<'a>(draw: &ArgMatches<'a>) -> DrawRequest<'a> {
    DrawRequest {
        // The parser asks for it.
        history: draw.get_str("HISTORY").unwrap_or(""),
        certificate: draw.get_str("CERTIFICATE"),
        wanted: wanted_by(draw),
    }
}
