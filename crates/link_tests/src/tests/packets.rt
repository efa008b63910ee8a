//! Packets, and units that are cut into packets.

use std::alloc::Global;
use std::process::Abort;
use tc_packet::{Cut, NoMemory, Packet, cut, next_packet, read_packet};
use test_parts::{PACKET, made_again};

// Checks that the octets begin with this packet, and that these octets come after it.
fn check_packet(rt: &impl Abort, octets: &[u8], packet: Packet<'_>, rest: &[u8]) {
    assert_eq!(rt; next_packet(octets), Some((packet, rest)));
    assert_eq!(rt; read_packet(octets), Some(packet));
}

static FIRST: Packet<'static> = Packet {
    telecommand: true,
    secondary: false,
    apid: 5,
    flags: 3,
    count: 0,
    octets: &PACKET,
};

static SECOND: Packet<'static> = Packet {
    telecommand: false,
    secondary: true,
    apid: 2_047,
    flags: 1,
    count: 1,
    octets: b"\x0f\xff\x40\x01\x00\x01\xaa\xbb",
};

const TAIL: &[u8] = b"\x0f\xff\x40\x01\x00\x01\xaa\xbb\xff";

#[test]
fn reads_the_packet_at_the_front(rt: HostRuntime) {
    let unit = packets_and(&rt, rt.alloc(), 1, TAIL);
    check_packet(&rt, &unit, FIRST, TAIL);
    check_packet(&rt, TAIL, SECOND, b"\xff");
}

// Checks that the unit is cut into `count` packets like `PACKET` and this rest.
fn check_cut(rt: &impl Abort, cut: &Cut<'_>, count: usize, rest: &[u8]) {
    assert_eq!(rt; cut.packets.len(), count);
    for packet in &cut.packets {
        assert_eq!(rt; packet.octets, PACKET.as_slice());
    }
    assert_eq!(rt; cut.rest, rest);
}

// Returns `count` packets like `PACKET`, and these octets after them.
fn packets_and(rt: &impl Abort, alloc: Global, count: usize, rest: &[u8]) -> Vec<u8> {
    let mut unit = Vec::new(alloc);
    for _ in 0..count {
        unit.extend_from_slice(&PACKET).expect(rt, "a packet");
    }
    unit.extend_from_slice(rest).expect(rt, "a rest");
    unit
}

// Units, each given as its number of packets and the rest after them. The last one is the largest unit.
static CUT: [(usize, &[u8]); 3] = [(0, b""), (1, b"\xff"), (9_363, b"\xff")];

#[test]
fn cuts_packets_and_leaves_the_rest(rt: HostRuntime) {
    for &(count, rest) in &CUT {
        let unit = packets_and(&rt, rt.alloc(), count, rest);
        let made = cut(rt.alloc(), &unit).expect(&rt, "an answer");
        check_cut(&rt, &made, count, rest)
    }
}

#[test]
fn growth_of_a_unit_that_is_cut_into_packets(rt: HostRuntime) {
    let alloc = rt.alloc();
    let packets = [PACKET, PACKET, PACKET, PACKET, PACKET];
    let unit = packets.as_flattened();
    let made = made_again(&rt, "cut", NoMemory, &|| cut(alloc, unit));
    check_cut(&rt, &made.expect(&rt, "an answer"), 5, b"");
}
