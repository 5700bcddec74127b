//! Whether a plan respects the order in which calls ended and began.

ghost use Rattle.std.specs.Prelude.{◌≡◌, ◌↔◌, ◌++◌, ◌∷◌, [], List, Some, Err, IsTrue, IsOk, OnOk, IfErr};
ghost use Rattle.nfs_history.specs.Precedence.{Precedes};
ghost use Rattle.certificate.specs.declared.plan.Place.{Place};
ghost use Rattle.certificate.specs.Plan.{call_of};
ghost use Rattle.order_check.specs.declared.fault.OrderFault.{OrderFault};
ghost use Rattle.order_check.specs.Order.{RespectsOrder, EachEraRespectsOrder, BeganLast, BeganLastIfAny, IsEarlyFaultAmong, IsEarlyFault};

use crate::fault::OrderFault;
use certificate::{Certificate, Place};
use nfs_history::{History, LentCalls};

/// Whether the first call ended before the second began.
fn precedes(history: &LentCalls<'_, '_>, first: u64, second: u64) -> bool
    ensures { IsTrue result ↔ Precedes history.now.calls first second }
{
    match history.end(first) {
        Some(end) => end < history.begin(second),
        None => false,
    }
}

/// Which call began last, once one more is placed behind the others.
fn began_last(history: &LentCalls<'_, '_>, latest: Option<u64>, number: u64) -> u64
    ensures { (places : List Place) (place : Place) → call_of place ≡ number
        → BeganLastIfAny history.now.calls places latest → BeganLast history.now.calls (places ++ place ∷ []) result }
{
    match latest {
        Some(other) if history.begin(number) <= history.begin(other) => other,
        _ => number,
    }
}

/// Whether the places of one era respect the order.
fn check_era(history: &LentCalls<'_, '_>, places: &[Place]) -> Result<(), OrderFault>
    ensures ok { OnOk result (RespectsOrder history.now.calls places.now) }
    ensures early { IfErr result (λ fault. IsEarlyFaultAmong history.now.calls places.now fault) }
{
    let mut latest = None;
    for place in places {
        let number = place.number();
        if let Some(other) = latest
            && precedes(history, number, other)
        {
            return Err(OrderFault::Early {
                call: other,
                ended: number,
            });
        }
        latest = Some(began_last(history, latest, number));
    }
    Ok(())
}

/// Whether the plan respects the order in which the history's calls ended and began.
pub fn check_order(history: &History, certificate: &Certificate) -> Result<(), OrderFault>
    ensures ok { OnOk result (EachEraRespectsOrder history.now.known.calls certificate.now.eras) }
    ensures only { EachEraRespectsOrder history.now.known.calls certificate.now.eras → IsOk result }
    // The first early place, and of the calls ahead of it in its era the one that began last.
    ensures early { IfErr result (λ fault. IsEarlyFault history.now.known.calls certificate.now.eras fault) }
    ensures named { (fault : OrderFault) → IsEarlyFault history.now.known.calls certificate.now.eras fault → result ≡ Err fault }
{
    check_order_of_calls(&history.lend(), certificate)
}

/// The same of a history whose calls these are.
pub fn check_order_of_calls(
    calls: &LentCalls<'_, '_>,
    certificate: &Certificate,
) -> Result<(), OrderFault>
    ensures ok { OnOk result (EachEraRespectsOrder calls.now.calls certificate.now.eras) }
    ensures only { EachEraRespectsOrder calls.now.calls certificate.now.eras → IsOk result }
    // The first early place, and of the calls ahead of it in its era the one that began last.
    ensures early { IfErr result (λ fault. IsEarlyFault calls.now.calls certificate.now.eras fault) }
    ensures named { (fault : OrderFault) → IsEarlyFault calls.now.calls certificate.now.eras fault → result ≡ Err fault }
{
    let eras = certificate.eras.as_slice();
    for era in eras {
        check_era(calls, era.places.as_slice())?;
    }
    Ok(())
}
