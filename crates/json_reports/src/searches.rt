//! The objects of `search`.

ghost use Rattle.std.specs.Prelude.{◌≡◌};
ghost use Rattle.json_reports.specs.Words.{miss_line};

use crate::object::{Member, Object};
use std::alloc::{AllocError, Global};

/// Why a search found nothing.
#[derive(Clone, Copy)]
pub enum SearchMiss {
    /// Nothing more was left to try.
    NotFound,
    /// A worker took as many branches as it may, and some were left then.
    OutOfTurns,
    /// The time was over, and some were left then.
    OutOfTime,
}

/// The object of a search that found nothing.
pub fn miss_line(miss: SearchMiss) -> &'static str
    ensures { result.now ≡ miss_line miss }
{
    match miss {
        SearchMiss::NotFound => "{\"result\":\"not found\"}\n",
        SearchMiss::OutOfTurns => "{\"result\":\"out of turns\"}\n",
        SearchMiss::OutOfTime => "{\"result\":\"out of time\"}\n",
    }
}

/// The object of a search that found this certificate's text.
pub fn found_line(alloc: Global, certificate: &[u8]) -> Result<String, AllocError> {
    // Such a text is of ASCII.
    let Ok(certificate) = str::from_utf8(certificate) else {
        return Err(AllocError);
    };
    let mut object = Object::new(alloc);
    object.put(Member::text("result", "found"))?;
    object.put(Member::text("certificate", certificate))?;
    object.line(alloc)
}
