mod meetings;
mod staffed;
mod threads;
mod together;

use std::alloc::Global;
use std::process::Abort;
use tc_channel::{Channel, Delivery, Event, FrameReply};
use test_parts::{
    BD_UNIT, BUFFERED, DELIVERED, FRAME, NO_FLAG, ONE, UNIT, WANTED, Wanted, frame_event, list_of,
    room, settings,
};

// Virtual channel 1 with a queue of capacity 2 for APID 5, and one of capacity 1 for MAP 3.
const CHANNEL: Wanted<'static> = Wanted {
    queues: &[(5, 2)],
    maps: &[(3, 1)],
    ..WANTED
};
