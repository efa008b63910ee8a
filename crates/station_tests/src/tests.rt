mod asking;
mod closing;
mod growth;
mod refusals;
mod replay;
mod rows;
mod watching;

ghost use Rattle.std.specs.Prelude.{◌≡◌, ◌∷◌, [], All, length};
ghost use Rattle.tc_station.specs.StationSettings.{vcids_of};
ghost use Rattle.tc_station.specs.Tally.{IsOurs, KnowsDesks};

use std::alloc::Global;
use std::process::Abort;
use std::sync::Wait;
use tc_channel::{Channel, ChannelWith, Event, Items, Journal, Settings};
use tc_station::{CloseFault, Operator, OperatorsFault, Station, StationOf};
use test_parts::{
    FRAME, NEXT, NO_FLAG, UNLOCK, WANTED, Wanted, ad_frame, frame_event, list_of, note, octets_of,
    settings,
};

// Creates settings for this virtual channel, with room for 64 data fields, even if memory is refused once.
fn settings_for(rt: &impl Abort, alloc: Global, vcid: u8) -> Settings
    ensures { result.vcid ≡ vcid }
{
    let wanted = Wanted {
        vcid,
        buffer: 64,
        ..WANTED
    };
    settings(alloc, &wanted).expect(rt, "settings")
}

// Creates a station for spacecraft 42 with virtual channel 1, even if memory is refused once.
fn station_of_one<J: Journal>(rt: &impl Abort, alloc: Global) -> StationOf<J>
    ensures { result.vcids ≡ 1 ∷ [] }
{
    let list = list_of(alloc, settings_for(rt, alloc, 1)).expect(rt, "a list");
    match StationOf::new(alloc, 42, list) {
        Ok(station) => station,
        Err(_) => {
            let list = list_of(alloc, settings_for(rt, alloc, 1)).expect(rt, "a list");
            StationOf::new(alloc, 42, list).expect(rt, "a station")
        }
    }
}

// Creates a station for spacecraft 42 with virtual channels 1 and 2.
fn station_of_two<J: Journal>(rt: &impl Abort, alloc: Global) -> StationOf<J>
    ensures { result.vcids ≡ 1 ∷ 2 ∷ [] }
{
    let first = settings_for(rt, alloc, 1);
    let second = settings_for(rt, alloc, 2);
    let list = vec![in alloc; first, second].expect(rt, "a list");
    StationOf::new(alloc, 42, list).expect(rt, "a station")
}

// Issues `n` operators of a station that has issued none, even if memory is refused once.
fn new_operators<J: Journal>(
    rt: &(impl Abort + Print),
    station: &mut StationOf<J>,
    n: u16,
) -> Vec<Operator>
    ensures ours { All (IsOurs station.new) result.items }
    ensures knows { All (KnowsDesks station.new) result.items }
    ensures number { length result.items ≡ n }
    ensures kept { station.new.vcids ≡ station.old.vcids }
{
    match station.operators(n) {
        Ok(operators) => operators,
        Err(fault) => {
            let _ = println!(rt; "refused: operators");
            assert_eq!(rt; fault, OperatorsFault::NoMemory);
            station.operators(n).expect(rt, "operators")
        }
    }
}

// Closes a station that is in balance with these operators. If memory is refused once, `close` returns the station and
// the operators, and is called again.
fn closed(rt: &(impl Abort + Print), station: Station, operators: Vec<Operator>) -> Vec<Channel>
    requires { All (λ o. o.vcids ≡ station.vcids) operators.items }
{
    match station.close(operators) {
        Ok(channels) => channels,
        Err(CloseFault::NoMemory(station, operators)) => {
            let _ = println!(rt; "refused: close");
            station.close(operators).expect(rt, "channels")
        }
        Err(_) => panic!(rt; "neither closed nor without memory"),
    }
}

// Checks that there are as many channels as counts, and that the number of events of each channel is the count at its
// place.
fn check_events<J: Journal>(rt: &impl Abort, channels: &[ChannelWith<J>], counts: &[u64]) {
    assert_eq!(rt; channels.len(), counts.len());
    for (channel, count) in channels.iter().zip(counts) {
        assert_eq!(rt; channel.events(), *count);
    }
}
