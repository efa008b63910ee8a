//! Frames, and FARM-1 by itself with its CLCWs.

use std::alloc::Global;
use std::process::Abort;
use tc_link::{
    Act, Arrival, Command, Farm, Header, Kind, Report, State, Window, WriteFault, clcw_word, kind,
    read_frame, write_frame,
};
use test_parts::{FRAME, NO_FLAG, made_again};

fn window(rt: &impl Abort, width: u8) -> Window {
    Window::new(width).expect(rt, "a width")
}

// Brings a frame to FARM-1, with or without room for it. In S2 there is never room.
fn arrive(farm: &mut Farm, kind: Kind, room: bool) -> Act {
    match farm.report().state {
        State::S2 => farm.step(Arrival::Frame { kind, room: false }),
        State::S1 => farm.step(Arrival::Frame { kind, room }),
        State::S3 => farm.step(Arrival::Frame { kind, room }),
    }
}

fn word(farm: &Farm) -> u32 {
    clcw_word(&farm.report(), 1, NO_FLAG)
}

// An arrival, the act of FARM-1, and the CLCW after it.
type Row = (Arrival, Act, u32);

fn check_rows(rt: &impl Abort, farm: &mut Farm, rows: &[Row]) {
    for &(arrival, act, after) in rows {
        let made = match arrival {
            Arrival::Frame { kind, room } => arrive(farm, kind, room),
            Arrival::Release => farm.step(Arrival::Release),
        };
        assert_eq!(rt; made, act);
        assert_eq!(rt; word(farm), after);
    }
}

const fn ad(ns: u8, room: bool) -> Arrival {
    Arrival::Frame {
        kind: Kind::Ad(ns),
        room,
    }
}

const fn discarded(event: u8) -> Act {
    Act {
        event,
        accepted: false,
    }
}

#[test]
fn a_full_buffer_then_a_lockout_then_an_unlock(rt: HostRuntime) {
    let accepted = Act {
        event: 1,
        accepted: true,
    };
    let unlock = Arrival::Frame {
        kind: Kind::Bc(Command::Unlock),
        room: false,
    };
    let rows = [
        (ad(0, true), accepted, 0x01040001),
        (ad(1, false), discarded(2), 0x01041801),
        (ad(2, false), discarded(3), 0x01041801),
        (ad(6, false), discarded(5), 0x01043801),
        (Arrival::Release, discarded(10), 0x01042801),
        (unlock, discarded(7), 0x01040201),
    ];
    check_rows(&rt, &mut Farm::new(window(&rt, 10), 0), &rows)
}

#[test]
fn farm_1_goes_on_from_its_components(rt: HostRuntime) {
    let report = Report {
        state: State::S2,
        vr: 1,
        lockout: false,
        wait: true,
        retransmit: true,
        farm_b: 3,
    };
    let mut farm = Farm::resumed(window(&rt, 10), report);
    assert_eq!(rt; word(&farm), 0x01041e01);
    let rows = [(Arrival::Release, discarded(10), 0x01040e01)];
    check_rows(&rt, &mut farm, &rows)
}

const HEADER: Header = Header {
    bypass: false,
    control: false,
    scid: 42,
    vcid: 1,
    ns: 0,
};

const FIELD: [u8; 8] = [0xc0, 0x10, 0x05, 0xc0, 0x00, 0x00, 0x00, 0xaa];

#[test]
fn the_longest_frame_is_written_and_read_back(rt: HostRuntime) {
    let field = [0u8; 1019];
    let octets = write_frame(rt.alloc(), &HEADER, &field).expect(&rt, "an answer");
    assert_eq!(rt; octets.len(), 1024);
    assert_eq!(rt; &octets[..5], [0x00, 0x2a, 0x07, 0xff, 0x00].as_slice());
    let frame = read_frame(&octets).expect(&rt, "a frame");
    assert_eq!(rt; kind(&frame), Kind::Ad(0));
    assert_eq!(rt; frame.header(), HEADER);
    assert_eq!(rt; frame.field(), field.as_slice());
}

#[test]
fn growth_of_a_frame_that_is_written(rt: HostRuntime) {
    let alloc = rt.alloc();
    let write = || write_frame(alloc, &HEADER, &FIELD);
    let octets = made_again(&rt, "write_frame", WriteFault::NoMemory, &write);
    assert_eq!(rt; octets.expect(&rt, "a frame").as_slice(), FRAME.as_slice());
}
