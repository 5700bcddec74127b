//! Full numbers, whose last 32 bits are a sequence number.

ghost use Rattle.std.specs.Prelude.{◌+◌, ◌^◌, ◌<◌, ◌≤◌};
ghost use Rattle.tcp_streams.specs.Numbers.{IsNearest};

/// The full number nearest to `next` whose last 32 bits are the sequence number.
pub fn nearest(next: u64, sequence: u32) -> u64
    requires low { 2 ^ 32 ≤ next }
    requires high { next < 2 ^ 62 }
    ensures { IsNearest next sequence result }
{
    let low = next % 4_294_967_296;
    let ahead = (u64::from(sequence) + 4_294_967_296 - low) % 4_294_967_296;
    if ahead < 2_147_483_648 {
        next + ahead
    } else {
        next + ahead - 4_294_967_296
    }
}
