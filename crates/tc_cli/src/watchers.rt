//! A watcher for each channel of a station.

ghost use Rattle.std.specs.Prelude.{◌≡◌, Contains, IfOk, IfErr};
ghost use Rattle.tc_cli.specs.Watched.{AreWatchersOf, IsOrdered};
ghost use Rattle.tc_station.specs.Moments.{IsWatcherOf};

use std::alloc::Global;
use std::sync::Wait;
use tc_link::Link;
use tc_station::{CountingStation, WatcherFault};
use tc_status::Watcher;
use tc_text::Reason;

/// Link flags that are both 0, because the program has no radio.
pub(crate) const NO_FLAGS: Link = Link {
    no_rf: false,
    no_bit_lock: false,
};

/// Creates a watcher for each of the channels of a station, which have these ids.
pub(crate) fn watch_each(
    rt: &impl Wait,
    alloc: Global,
    station: &CountingStation,
    vcids: &[u8],
) -> Result<Vec<Watcher>, Reason>
    requires all { vcids.now ≡ station.now.vcids }
    requires ordered { IsOrdered station.now }
    ensures watchers { IfOk result (λ watchers. AreWatchersOf station.now watchers.items) }
    ensures reason { IfErr result (λ reason. reason ≡ Reason.NoMemory) }
{
    let Ok(mut watchers) = Vec::with_capacity(alloc, vcids.len()) else {
        return Err(Reason::NoMemory);
    };
    for vcid in vcids {
        watchers.push_reserved(watch_one(rt, station, *vcid)?);
    }
    Ok(watchers)
}

fn watch_one(rt: &impl Wait, station: &CountingStation, vcid: u8) -> Result<Watcher, Reason>
    requires { Contains station.now.vcids vcid }
    ensures own { IfOk result (IsWatcherOf station.now vcid) }
    ensures reason { IfErr result (λ reason. reason ≡ Reason.NoMemory) }
{
    match station.watcher(rt, vcid) {
        Ok(watcher) => Ok(watcher),
        Err(WatcherFault::NoMemory) => Err(Reason::NoMemory),
        Err(WatcherFault::UnknownChannel) => unreachable!(),
    }
}
