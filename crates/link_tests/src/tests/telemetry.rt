//! Telemetry frames, worked out by hand. The check sum is from Python's `binascii.crc_hqx(.., 0xffff)`.

use std::alloc::{AllocError, Global};
use tc_edges::tm::{Counts, ErrorControl, TmFault, TmHeader, write_tm};
use test_parts::made_again;

const HEADER: TmHeader = TmHeader {
    scid: 42,
    vcid: 1,
    master_count: 255,
    channel_count: 7,
};

const CLCW: [u8; 4] = [0x01, 0x04, 0x00, 0x01];

// The bits 00 0000101010 001 1 are the version, the spacecraft id, the virtual channel id and the flag of the
// operational control field. Both counts follow, then the bits 0 0 0 11 11111111110 of the data field status, an idle
// octet and the CLCW.
const FRAME: [u8; 11] = [
    0x02, 0xa3, 0xff, 0x07, 0x1f, 0xfe, 0x55, 0x01, 0x04, 0x00, 0x01,
];

// `FRAME`, and the check sum over it.
const WHOLE: [u8; 13] = [
    0x02, 0xa3, 0xff, 0x07, 0x1f, 0xfe, 0x55, 0x01, 0x04, 0x00, 0x01, 0x73, 0xd2,
];

#[test]
fn growth_of_a_telemetry_frame_that_is_written(rt: HostRuntime) {
    let alloc = rt.alloc();
    let write = || write_tm(alloc, ErrorControl::Absent, &HEADER, CLCW, 11);
    let made = made_again(&rt, "write_tm", TmFault::NoMemory, &write);
    assert!(rt; made.expect(&rt, "a frame").as_slice() == FRAME.as_slice());
    let write = || write_tm(alloc, ErrorControl::Present, &HEADER, CLCW, 13);
    let made = made_again(&rt, "write_tm", TmFault::NoMemory, &write);
    assert!(rt; made.expect(&rt, "a frame").as_slice() == WHOLE.as_slice());
}

// Writes the next frame, and returns both of its counts, or the fault.
fn next_counts(
    counts: &mut Counts,
    alloc: Global,
    scid: u16,
    vcid: u8,
    length: usize,
) -> Result<[u8; 2], TmFault> {
    let frame = counts.next_frame(alloc, ErrorControl::Absent, scid, vcid, CLCW, length)?;
    Ok(match frame.as_slice() {
        [_, _, master, channel, ..] => [*master, *channel],
        _ => [255, 255],
    })
}

// Rows of frames that are written one after the other. Each has the spacecraft, the virtual channel, the length, and
// both counts or the fault that is returned.
static COUNTED: [(u16, u8, usize, Result<[u8; 2], TmFault>); 6] = [
    (42, 1, 11, Ok([0, 0])),
    (42, 2, 11, Ok([1, 0])),
    (42, 1, 11, Ok([2, 1])),
    (43, 1, 11, Ok([0, 0])),
    (42, 1, 10, Err(TmFault::BadLength)),
    (42, 1, 11, Ok([3, 2])),
];

// A frame for which memory ran out isn't counted.
#[test]
fn growth_of_telemetry_frames_counted_by_virtual_channel(rt: HostRuntime) {
    let alloc = rt.alloc();
    let counts = made_again(&rt, "Counts::new", AllocError, &|| Counts::new(alloc));
    let mut counts = counts.expect(&rt, "counts");
    for (scid, vcid, length, expected) in &COUNTED {
        let mut made = next_counts(&mut counts, alloc, *scid, *vcid, *length);
        if made == Err(TmFault::NoMemory) {
            let _ = println!(rt; "refused: Counts::next_frame");
            made = next_counts(&mut counts, alloc, *scid, *vcid, *length);
        }
        assert!(rt; made == *expected);
    }
}
