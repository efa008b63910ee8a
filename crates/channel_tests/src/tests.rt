mod faults;
mod growth;
mod limits;
mod queues;
mod reported;
mod rooms;
mod run;
mod steps;
mod storage;

use run::{Run, Step};
use std::alloc::Global;
use std::process::Abort;
use tc_channel::{
    Channel, CountingChannel, Delivery, Event, FrameReply, Items, NoMemory, Octets, ReleaseFault,
    Settings, SettingsFault, TakeFault, TakeUnitFault,
};
use tc_fixed::{
    FixedChannel, Limits, LimitsFault, MapLimit, NoUnitTaken, NothingReleased, NothingTaken,
};
use tc_link::read_frame;
use test_parts::{
    BD_PACKET, BD_UNIT, BEHIND, BUFFERED, DELIVERED, FRAME, Form, NO_ROOM, NOTHING, ONE, PACKET,
    UNIT, WANTED, Wanted, ad_frame, copied, frame_event, have_texts, note, room,
};

// Virtual channel 1 with a queue of capacity 2 for APID 5, and one of two units for MAP 3.
const BOTH: Wanted<'static> = Wanted {
    queues: &[(5, 2)],
    maps: &[(3, 2)],
    ..WANTED
};

// The reply to a Type-BD frame that was accepted (event 6), and whose delivery reports nothing.
const PASSED: FrameReply = FrameReply {
    delivery: NOTHING,
    ..DELIVERED
};

// Creates settings, even if memory is refused once.
fn settings(rt: &impl Abort, alloc: Global, wanted: &Wanted<'_>) -> Settings {
    test_parts::settings(alloc, wanted).expect(rt, "settings")
}

// Creates a channel with the wanted settings, which must be allowed. If memory is refused, prints that, and tries once
// more.
fn new_channel<C: Form>(
    rt: &(impl Abort + Print),
    alloc: Global,
    name: &str,
    wanted: &Wanted<'_>,
) -> C {
    match C::made(alloc, settings(rt, alloc, wanted)) {
        Ok(channel) => channel,
        Err(fault) => {
            let _ = println!(rt; "refused: {name}::new");
            assert_eq!(rt; fault, SettingsFault::NoMemory);
            C::made(alloc, settings(rt, alloc, wanted)).expect(rt, "a channel")
        }
    }
}

// Brings the frame at the front of these octets to a channel, and returns the reply.
fn offer<C: Form>(rt: &impl Abort, channel: &mut C, octets: &[u8]) -> Result<FrameReply, NoMemory> {
    channel.bring(&read_frame(octets).expect(rt, "a frame"))
}
