//! The least lane of those that were found.

ghost use Rattle.std.specs.Prelude.{◌≡◌, Some};
ghost use Rattle.server_passes.specs.Least.{least_with, least_of};

/// The lesser of a lane and the least so far.
pub(crate) fn least_with(least: Option<u32>, lane: u32) -> u32
    ensures { result ≡ least_with least lane }
{
    match least {
        Some(other) if other <= lane => other,
        _ => lane,
    }
}

/// The lesser of two lanes, where there are such.
pub(crate) fn least_of(one: Option<u32>, other: Option<u32>) -> Option<u32>
    ensures { result ≡ least_of one other }
{
    match other {
        Some(lane) => Some(least_with(one, lane)),
        None => one,
    }
}
