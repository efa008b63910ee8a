//! Comparisons of the operators' counts with the channels of a closed station. The counts are compared either with the
//! lengths of the channels' journals, or with the numbers of events that the channels report.

ghost use Rattle.std.specs.Prelude.{◌≡◌, ◌<◌, ◌↔◌, length, IsTrue, All};
ghost use Rattle.tc_station.specs.Balance.{counted_by_all, IsInBalance, AreInBalance, AreInReportedBalance};
ghost use Rattle.tc_channel.specs.Journal.{IsNumberReported};

use crate::operator::Operator;
use tc_channel::{Channel, CountingChannel};

// Returns the number of operations that all operators together have counted for the channel at `place`.
fn count_of_all(operators: &[Operator], place: usize) -> u128
    requires { All (λ o. place < length o.vcids) operators.now }
    ensures { result ≡ counted_by_all place operators.now }
{
    let mut total: u128 = 0;
    for operator in operators {
        total += u128::from(operator.count_at(place));
    }
    total
}

fn is_in_balance(vcids: &[u8], operators: &[Operator], place: usize, channel: &Channel) -> bool
    requires inside { place < length vcids.now }
    requires ours { All (λ o. o.vcids ≡ vcids.now) operators.now }
    ensures { IsTrue result ↔ IsInBalance vcids.now operators.now place channel.now }
{
    channel.settings().vcid == vcids[place]
        && channel.journal().len() as u128 == count_of_all(operators, place)
}

/// Returns whether each channel has the virtual channel id of its place, and as many events as the operators counted
/// for it.
pub(crate) fn are_in_balance(vcids: &[u8], operators: &[Operator], channels: &[Channel]) -> bool
    requires as_many { length channels.now ≡ length vcids.now }
    requires ours { All (λ o. o.vcids ≡ vcids.now) operators.now }
    ensures { IsTrue result ↔ AreInBalance vcids.now operators.now channels.now }
{
    for (place, channel) in channels.iter().enumerate() {
        if !is_in_balance(vcids, operators, place, channel) {
            return false;
        }
    }
    true
}

// Returns whether a channel is in balance and reports the exact number of its events. The largest 64-bit number is
// rejected, since a channel reports it for that many events or more.
fn is_in_reported_balance(
    vcids: &[u8],
    operators: &[Operator],
    place: usize,
    channel: &CountingChannel,
) -> bool
    requires inside { place < length vcids.now }
    requires ours { All (λ o. o.vcids ≡ vcids.now) operators.now }
    ensures { IsTrue result ↔ IsInBalance vcids.now operators.now place channel.now × IsNumberReported channel.now }
{
    let events = channel.events();
    events < u64::MAX
        && channel.settings().vcid == vcids[place]
        && u128::from(events) == count_of_all(operators, place)
}

/// Returns whether each channel reports the exact number of its events, and all channels are in balance.
pub(crate) fn are_in_reported_balance(
    vcids: &[u8],
    operators: &[Operator],
    channels: &[CountingChannel],
) -> bool
    requires as_many { length channels.now ≡ length vcids.now }
    requires ours { All (λ o. o.vcids ≡ vcids.now) operators.now }
    ensures { IsTrue result ↔ AreInReportedBalance vcids.now operators.now channels.now }
{
    for (place, channel) in channels.iter().enumerate() {
        if !is_in_reported_balance(vcids, operators, place, channel) {
            return false;
        }
    }
    true
}
