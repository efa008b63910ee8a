//! Calls on a channel of each form, which may run out of memory. A call that runs out of memory must leave the channel
//! as it was, and is then made again.

use super::Step::{
    Ad, Clcw, Field, Frame, Holds, Lends, NoRelease, NoTake, NoTakeUnit, Release, ReleaseOf, Take,
    TakeUnit,
};
use super::*;

// Settings with room for one field, a queue of capacity 2 for APID 5, one of capacity 1 for each of APIDs 6 and 7, and
// a queue for two units of MAP 3.
const GROWING: Wanted<'static> = Wanted {
    queues: &[(5, 2), (6, 1), (7, 1)],
    maps: &[(3, 2)],
    ..WANTED
};

// Settings like `GROWING`, but without segment headers and therefore without MAPs.
const PLAIN: Wanted<'static> = Wanted {
    segmented: false,
    maps: &[],
    ..GROWING
};

// Plays steps on a new channel, after `earlier` frames that are discarded.
fn play_on<C: Form>(
    rt: &(impl Abort + Print),
    alloc: Global,
    name: &'static str,
    wanted: &Wanted<'_>,
    earlier: usize,
    steps: &[Step<'_>],
) -> Run<C> {
    let mut run = Run::new(alloc, name, new_channel(rt, alloc, name, wanted));
    for _ in 0..earlier {
        run.play(rt, &[Ad(0xff, BEHIND)])
    }
    run.play(rt, steps);
    run
}

// Plays steps on a channel of each form.
fn play(
    rt: &(impl Abort + Print),
    alloc: Global,
    wanted: &Wanted<'_>,
    earlier: usize,
    steps: &[Step<'_>],
) {
    let kept: Run<Channel> = play_on(rt, alloc, "Channel", wanted, earlier, steps);
    kept.check_journal(rt);
    let _counting: Run<CountingChannel> = play_on(
        rt,
        alloc,
        "CountingChannel",
        wanted,
        earlier,
        steps,
    );
    let _fixed: Run<FixedChannel> = play_on(rt, alloc, "FixedChannel", wanted, earlier, steps);
}

static EACH_CALL: [Step<'static>; 9] = [
    Ad(0, BUFFERED),
    Clcw(0x01040001),
    Holds(1, 0, Some(0)),
    Release,
    Clcw(0x01040001),
    Holds(0, 1, Some(0)),
    Take(5, &PACKET),
    Clcw(0x01040001),
    Holds(0, 0, Some(0)),
];

// The calls are played after different numbers of discarded frames. For each call there is a number of frames after
// which the journal's memory grows at this call.
#[test]
fn growth_of_each_call_of_a_channel(rt: HostRuntime) {
    for earlier in 0..5 {
        play(&rt, rt.alloc(), &GROWING, earlier, &EACH_CALL)
    }
}

static WITHOUT_ROOM: [Step<'static>; 7] = [
    Ad(0, BUFFERED),
    Ad(1, NO_ROOM),
    Clcw(0x01041801),
    Holds(1, 0, Some(0)),
    Ad(0, BEHIND),
    Clcw(0x01041801),
    Holds(1, 0, Some(0)),
];

#[test]
fn growth_of_a_frame_without_room(rt: HostRuntime) {
    play(&rt, rt.alloc(), &GROWING, 0, &WITHOUT_ROOM)
}

const TWO: Delivery = Delivery { queued: 2, ..ONE };

const DELIVERED_TWO: FrameReply = FrameReply {
    delivery: TWO,
    ..DELIVERED
};

// A BD frame with two packets for APID 5.
const TWO_PACKETS: [u8; 20] = [
    0x20, 0x2a, 0x04, 0x13, 0x00, 0xc0, 0x10, 0x05, 0xc0, 0x00, 0x00, 0x00, 0xaa, 0x10, 0x05, 0xc0,
    0x01, 0x00, 0x00, 0xbb,
];

// An AD frame with a packet for APID 5, and one for APID 7.
const TWO_APIDS: [u8; 20] = [
    0x00, 0x2a, 0x04, 0x13, 0x00, 0xc0, 0x10, 0x05, 0xc0, 0x00, 0x00, 0x00, 0xaa, 0x10, 0x07, 0xc0,
    0x01, 0x00, 0x00, 0xbb,
];

// The second packets of `TWO_PACKETS` and `TWO_APIDS`.
const SECOND: [u8; 7] = [0x10, 0x05, 0xc0, 0x01, 0x00, 0x00, 0xbb];

const SECOND_APID: [u8; 7] = [0x10, 0x07, 0xc0, 0x01, 0x00, 0x00, 0xbb];

static UNITS_OF_TWO_PACKETS: [Step<'static>; 15] = [
    Frame(&TWO_PACKETS, DELIVERED_TWO),
    Clcw(0x01040200),
    Holds(0, 2, Some(0)),
    Take(5, &PACKET),
    Take(5, &SECOND),
    Clcw(0x01040200),
    Holds(0, 0, Some(0)),
    Frame(&TWO_APIDS, BUFFERED),
    ReleaseOf("two packets", TWO),
    Clcw(0x01040201),
    Holds(0, 1, Some(0)),
    Take(7, &SECOND_APID),
    Take(5, &PACKET),
    Clcw(0x01040201),
    Holds(0, 0, Some(0)),
];

#[test]
fn growth_of_a_unit_of_two_packets(rt: HostRuntime) {
    play(&rt, rt.alloc(), &GROWING, 0, &UNITS_OF_TWO_PACKETS)
}

// AD frames with N(S) 1 and 2, whose segments carry the two parts of `PACKET`.
const FIRST_PART: [u8; 9] = [0x00, 0x2a, 0x04, 0x08, 0x01, 0x40, 0x10, 0x05, 0xc0];

const LAST_PART: [u8; 10] = [0x00, 0x2a, 0x04, 0x09, 0x02, 0x80, 0x00, 0x00, 0x00, 0xaa];

static TWO_SEGMENTS: [Step<'static>; 10] = [
    Ad(0, BUFFERED),
    Release,
    Frame(&FIRST_PART, BUFFERED),
    ReleaseOf("first segment", NOTHING),
    Frame(&LAST_PART, BUFFERED),
    ReleaseOf("two segments", ONE),
    Clcw(0x01040003),
    Holds(0, 2, Some(0)),
    Take(5, &PACKET),
    Take(5, &PACKET),
];

#[test]
fn growth_of_a_unit_of_two_segments(rt: HostRuntime) {
    play(&rt, rt.alloc(), &GROWING, 0, &TWO_SEGMENTS)
}

// `PACKET` without a segment header, in a BD frame and in an AD frame.
const PLAIN_BD: [u8; 12] = [
    0x20, 0x2a, 0x04, 0x0b, 0x00, 0x10, 0x05, 0xc0, 0x00, 0x00, 0x00, 0xaa,
];

const PLAIN_AD: [u8; 12] = [
    0x00, 0x2a, 0x04, 0x0b, 0x00, 0x10, 0x05, 0xc0, 0x00, 0x00, 0x00, 0xaa,
];

static PLAIN_FIELDS: [Step<'static>; 11] = [
    Frame(&PLAIN_BD, DELIVERED),
    Clcw(0x01040200),
    Holds(0, 1, None),
    Frame(&PLAIN_AD, BUFFERED),
    ReleaseOf("plain field", ONE),
    Clcw(0x01040201),
    Holds(0, 2, None),
    Take(5, &PACKET),
    Take(5, &PACKET),
    Clcw(0x01040201),
    Holds(0, 0, None),
];

#[test]
fn growth_of_a_plain_channel(rt: HostRuntime) {
    play(&rt, rt.alloc(), &PLAIN, 0, &PLAIN_FIELDS)
}

// A unit of MAP 3 in two AD frames.
const FIRST_AD: [u8; 7] = [0x00, 0x2a, 0x04, 0x06, 0x00, 0x43, 0xcc];

const LAST_AD: [u8; 7] = [0x00, 0x2a, 0x04, 0x06, 0x01, 0x83, 0xdd];

static CHOSEN_MAP: [Step<'static>; 11] = [
    Frame(&BD_UNIT, DELIVERED),
    Frame(&FIRST_AD, BUFFERED),
    ReleaseOf("first segment of a chosen MAP", NOTHING),
    Frame(&LAST_AD, BUFFERED),
    ReleaseOf("two segments of a chosen MAP", ONE),
    Clcw(0x01040202),
    Holds(0, 0, Some(2)),
    TakeUnit(3, &UNIT),
    TakeUnit(3, &[0xcc, 0xdd]),
    Clcw(0x01040202),
    Holds(0, 0, Some(0)),
];

#[test]
fn growth_of_units_of_a_chosen_map(rt: HostRuntime) {
    play(&rt, rt.alloc(), &GROWING, 0, &CHOSEN_MAP)
}

static TAKE_OF_A_UNIT: [Step<'static>; 2] = [Frame(&BD_UNIT, DELIVERED), TakeUnit(3, &UNIT)];

// The calls are played after different numbers of discarded frames. After one of these numbers, the journal's memory
// grows at the take of the unit.
#[test]
fn growth_of_a_take_of_a_unit(rt: HostRuntime) {
    for earlier in 0..4 {
        play(&rt, rt.alloc(), &GROWING, earlier, &TAKE_OF_A_UNIT)
    }
}

// `SECOND`, unsegmented on MAP 0.
const SECOND_FIELD: [u8; 8] = [0xc0, 0x10, 0x05, 0xc0, 0x01, 0x00, 0x00, 0xbb];

// The reply to a Type-BD frame whose packet or unit was dropped because its queue was full.
const DROPPED: FrameReply = FrameReply {
    delivery: Delivery {
        dropped: 1,
        ..NOTHING
    },
    ..PASSED
};

// The three units of MAP 3 that are taken in these steps have one octet, no octet, and two octets.
static QUEUES: [Step<'static>; 30] = [
    NoRelease,
    NoTake(5, TakeFault::Empty),
    NoTake(8, TakeFault::NoQueue),
    NoTakeUnit(3, TakeUnitFault::Empty),
    NoTakeUnit(4, TakeUnitFault::NoMap),
    Lends(None, None),
    Frame(&BD_PACKET, DELIVERED),
    Lends(Some(&PACKET), None),
    Field(&SECOND_FIELD, DELIVERED),
    Frame(&BD_PACKET, DROPPED),
    Lends(Some(&PACKET), None),
    Field(&[0xc3, 1], DELIVERED),
    Lends(Some(&PACKET), Some(&[1])),
    Field(&[0xc3], DELIVERED),
    Field(&[0xc3, 2, 3], DROPPED),
    Holds(0, 2, Some(2)),
    Lends(Some(&PACKET), Some(&[1])),
    Take(5, &PACKET),
    TakeUnit(3, &[1]),
    Lends(Some(&SECOND), Some(&[])),
    Frame(&BD_PACKET, DELIVERED),
    Field(&[0xc3, 2, 3], DELIVERED),
    Take(5, &SECOND),
    TakeUnit(3, &[]),
    Lends(Some(&PACKET), Some(&[2, 3])),
    Take(5, &PACKET),
    TakeUnit(3, &[2, 3]),
    Lends(None, None),
    NoTake(5, TakeFault::Empty),
    Holds(0, 0, Some(0)),
];

// Items are taken in the order in which they came, from rooms that are used again and again. The item that is lent is
// the one that the next take returns. A queue that is empty or doesn't exist lends nothing. Neither a loan nor a
// refused call is an event.
#[test]
fn packets_and_units_in_their_queues(rt: HostRuntime) {
    play(&rt, rt.alloc(), &GROWING, 0, &QUEUES)
}
