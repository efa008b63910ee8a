//! A unit of many packets on a channel with many queues.

use super::*;

// Creates a channel with 64 queues of capacity 1. The APID of each queue is the number of queues that come after it.
fn channel_of_queues<C: Form>(rt: &(impl Abort + Print), alloc: Global, name: &str) -> C {
    let mut queues = room(alloc, 64).expect(rt, "room");
    for after in (0..64).rev() {
        queues.push((after, 1)).expect(rt, "a queue");
    }
    let wanted = Wanted {
        queues: &queues,
        ..WANTED
    };
    new_channel(rt, alloc, name, &wanted)
}

// Twenty packets, each given as the two octets of its packet identification and the octet of its data. The first packet
// is for APID 0, two are for 62, one is for 63, one is for 2,046, one is a telemetry packet, and fourteen are for 7.
static PACKETS: [(u8, u8, u8); 20] = [
    (0x10, 0, 0),
    (0x10, 62, 1),
    (0x10, 62, 2),
    (0x10, 63, 3),
    (0x17, 0xfe, 4),
    (0x00, 1, 5),
    (0x10, 7, 6),
    (0x10, 7, 7),
    (0x10, 7, 8),
    (0x10, 7, 9),
    (0x10, 7, 10),
    (0x10, 7, 11),
    (0x10, 7, 12),
    (0x10, 7, 13),
    (0x10, 7, 14),
    (0x10, 7, 15),
    (0x10, 7, 16),
    (0x10, 7, 17),
    (0x10, 7, 18),
    (0x10, 7, 19),
];

// Returns a BD frame with one unit, which consists of `PACKETS` and an octet.
fn long_frame(rt: &impl Abort, alloc: Global) -> Vec<u8> {
    let mut frame = room(alloc, 147).expect(rt, "room");
    frame
        .extend_from_slice(&[0x20, 0x2a, 0x04, 146, 0x00, 0xc0])
        .expect(rt, "a header");
    for &(kind, apid, octet) in &PACKETS {
        frame
            .extend_from_slice(&[kind, apid, 0xc0, 0x00, 0x00, 0x00, octet])
            .expect(rt, "a packet");
    }
    frame.push(0xff).expect(rt, "an octet");
    frame
}

// Returns the numbers of packets that wait for APIDs 0, 1, 7, 62 and 63.
fn queued<C: Form>(channel: &C) -> [Option<usize>; 5] {
    [0, 1, 7, 62, 63].map(|apid| channel.packets(apid))
}

// Checks the reply to the long unit. If memory for the unit is refused, checks that the channel stays as it was.
fn check_long_unit<C: Form, T: Abort + Print>(rt: &T, alloc: Global, name: &str) {
    let mut channel: C = channel_of_queues(rt, alloc, name);
    let octets = long_frame(rt, alloc);
    let mut answer = offer(rt, &mut channel, &octets);
    if answer.is_err() {
        let _ = println!(rt; "refused: {name}::frame, long unit among many queues");
        assert_eq!(rt; channel.events_and_fields().0, 0);
        assert_eq!(rt; queued(&channel), [Some(0); 5]);
        answer = offer(rt, &mut channel, &octets);
    }
    let expected = Delivery {
        queued: 4,
        dropped: 16,
        rest: true,
    };
    assert_eq!(rt; answer.expect(rt, "a reply").delivery, expected);
    assert_eq!(rt; queued(&channel), [1, 0, 1, 1, 1].map(Some));
}

#[test]
fn growth_of_a_long_unit_among_many_queues(rt: HostRuntime) {
    check_long_unit::<Channel, HostRuntime>(&rt, rt.alloc(), "Channel");
    check_long_unit::<FixedChannel, HostRuntime>(&rt, rt.alloc(), "FixedChannel");
}
