//! What a pass tells, beside what was recorded.

ghost use Rattle.std.specs.Prelude.{◌≡◌, ◌↔◌, IsTrue};
ghost use Rattle.server_passes.specs.Lanes.{exchange_in, exchanges_in};
ghost use Rattle.server_passes.specs.Matching.{message_in, message_at};

use crate::lanes::AnsweredCall;
use crate::passes::Exchange;
use history_file::Event;

/// The message of a call or a reply.
fn message_in(event: &Event) -> &[u8]
    ensures { result.now ≡ message_in event.now }
{
    match event {
        Event::Call { lane: _, message } => message.as_slice(),
        Event::Reply { lane: _, message } => message.as_slice(),
        Event::Close { lane: _ } => &[],
        Event::Crash => &[],
    }
}

/// The message of an event, from 1 on.
fn message_at(events: &[Event], number: u64) -> &[u8]
    ensures { result.now ≡ message_at events.now number }
{
    if number == 0 {
        return &[];
    }
    match events.get(number as usize - 1) {
        Some(event) => message_in(event),
        None => &[],
    }
}

/// Whether this is what was exchanged in a call.
fn is_exchange(events: &[Event], call: &AnsweredCall, exchange: &Exchange) -> bool
    ensures { IsTrue result ↔ (exchange.now ≡ exchange_in events.now call.now) }
{
    exchange.message() == message_at(events, call.begin)
        && exchange.reply() == message_at(events, call.end)
}

/// Whether these are what was exchanged in calls, in order.
pub(crate) fn are_exchanges(
    events: &[Event],
    calls: &[AnsweredCall],
    exchanges: &[Exchange],
) -> bool
    ensures { IsTrue result ↔ (exchanges.now ≡ exchanges_in events.now calls.now) }
{
    if exchanges.len() != calls.len() {
        return false;
    }
    for index in 0..calls.len() {
        if !is_exchange(events, &calls[index], &exchanges[index]) {
            return false;
        }
    }
    true
}
