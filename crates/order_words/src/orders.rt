//! Orders of some of a few calls.

use crate::open::OpenCall;
use std::alloc::{AllocError, Global};

/// An order with one call more at its end, unless it has that call.
fn longer_by(
    alloc: Global,
    order: &[OpenCall],
    call: OpenCall,
) -> Result<Option<Vec<OpenCall>>, AllocError> {
    if order.iter().any(|other| other.number == call.number) {
        return Ok(None);
    }
    let mut longer = Vec::from_slice(alloc, order)?;
    longer.push(call)?;
    Ok(Some(longer))
}

/// The orders that are one call longer than this one, at most so many.
fn longer_than(
    alloc: Global,
    order: &[OpenCall],
    open: &[OpenCall],
    most: usize,
) -> Result<Vec<Vec<OpenCall>>, AllocError> {
    let mut orders = Vec::new(alloc);
    for call in open {
        if orders.len() >= most {
            break;
        }
        if let Some(longer) = longer_by(alloc, order, *call)? {
            orders.push(longer)?;
        }
    }
    Ok(orders)
}

/// The orders of some of these calls, each call at most once, the shorter ones first; at most so many, and always that of no call.
pub(crate) fn orders_of(
    alloc: Global,
    open: &[OpenCall],
    most: usize,
) -> Result<Vec<Vec<OpenCall>>, AllocError> {
    let mut orders = Vec::new(alloc);
    orders.push(Vec::new(alloc))?;
    for index in 0..most {
        let room = most.saturating_sub(orders.len());
        let longer = match orders.get(index) {
            Some(order) => longer_than(alloc, order.as_slice(), open, room)?,
            None => break,
        };
        for order in longer {
            orders.push(order)?;
        }
    }
    Ok(orders)
}

/// How many orders of some of so many calls there are.
pub(crate) fn count_orders(calls: usize) -> u64 {
    let mut count: u64 = 1;
    for number in 0..calls {
        // One of the calls is first, behind it an order of the others; or there is none.
        count = count
            .saturating_mul((number as u64).saturating_add(1))
            .saturating_add(1);
    }
    count
}
