mod gate;
mod sharing;
mod six_threads;
mod texts;
mod together;
mod work;

ghost use Rattle.std.specs.Prelude.{◌≡◌, ◌∷◌, [], All};

use std::alloc::Global;
use std::process::Abort;
use std::sync::Wait;
use tc_channel::{Channel, Event, Items, Journal};
use tc_station::{CloseFault, Operator, Station, StationOf};
use test_parts::{
    NO_FLAG, UNLOCK, WANTED, Wanted, ad_frame, have_texts, is_frame, list_of, octets_of, offer,
    settings,
};

// Virtual channel 1 with room for 64 fields, and a queue of capacity 256 for APID 5.
const CHANNEL: Wanted<'static> = Wanted {
    buffer: 64,
    queues: &[(5, 256)],
    ..WANTED
};

// Creates a station for spacecraft 42 with one channel, which has the settings of `CHANNEL`.
fn station_of_one<J: Journal>(rt: &impl Abort, alloc: Global) -> StationOf<J>
    ensures { result.vcids ≡ 1 ∷ [] }
{
    let list = list_of(alloc, settings(alloc, &CHANNEL).expect(rt, "settings")).expect(
        rt, "a list",
    );
    StationOf::new(alloc, 42, list).expect(rt, "a station")
}

// Creates a station with virtual channels 1 and 2. Each channel has a buffer of this capacity, and a queue for one
// packet.
fn station_of_two(rt: &impl Abort, alloc: Global, buffer: u8) -> Station
    ensures { result.vcids ≡ 1 ∷ 2 ∷ [] }
{
    let first = Wanted { buffer, ..WANTED };
    let second = Wanted { vcid: 2, ..first };
    let first = settings(alloc, &first).expect(rt, "settings");
    let second = settings(alloc, &second).expect(rt, "settings");
    let list = vec![in alloc; first, second].expect(rt, "a list");
    Station::new(alloc, 42, list).expect(rt, "a station")
}

fn closed(rt: &impl Abort, station: Station, operators: Vec<Operator>) -> Vec<Channel>
    requires { All (λ o. o.vcids ≡ station.vcids) operators.items }
{
    station.close(operators).expect(rt, "channels")
}

// Checks that the station can't be closed without the last operator, and closes it with all operators.
fn close(rt: &impl Abort, station: Station, others: Vec<Operator>, last: Operator) -> Vec<Channel>
    requires others { All (λ o. o.vcids ≡ station.vcids) others.items }
    requires last { last.vcids ≡ station.vcids }
{
    let number = others.len();
    let (station, mut operators) = match station.close(others) {
        Err(CloseFault::Missing(station, operators)) => (station, operators),
        _ => panic!(rt; "closed without the last operator"),
    };
    assert_eq!(rt; operators.len(), number);
    operators.push(last).expect(rt, "a list");
    closed(rt, station, operators)
}
