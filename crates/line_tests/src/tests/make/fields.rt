//! Tests of frames with and without their frame error control field. Python's `binascii.crc_hqx(.., 0xffff)` computed
//! the check sums.

use std::alloc::Global;
use tc_edges::fecf::{FieldFault, with_field, without_field};
use tc_link::FrameFault;

// Pairs of a frame without and with its frame error control field.
const FRAMES: [(&str, &str); 3] = [
    (
        "002a040c00c01005c0000000aa",
        "002a040e00c01005c0000000aa6b6e",
    ),
    ("302a04050000", "302a0407000020e7"),
    ("302a04070082004d", "302a04090082004d88d4"),
];

#[test]
fn a_field_goes_on_and_comes_off(rt: HostRuntime) {
    for (plain, whole) in FRAMES {
        let plain = hex::decode(rt.alloc(), plain).expect(&rt, "octets");
        let whole = hex::decode(rt.alloc(), whole).expect(&rt, "octets");
        let made = with_field(rt.alloc(), &plain).expect(&rt, "a frame");
        assert!(rt; made.as_slice() == whole.as_slice());
        let taken = without_field(rt.alloc(), &whole).expect(&rt, "a frame");
        assert!(rt; taken.as_slice() == plain.as_slice());
    }
}

// Returns a frame of `length` octets for virtual channel 1, all of whose data octets are 0.
fn frame_of(alloc: Global, length: u16) -> Option<Vec<u8>> {
    let [c, d] = 1024u16.wrapping_add(length.wrapping_sub(1)).to_be_bytes();
    let mut octets = vec![in alloc; 0, 42, c, d].ok()?;
    octets.resize(usize::from(length), 0).ok()?;
    Some(octets)
}

#[test]
fn the_longest_and_the_shortest_frame(rt: HostRuntime) {
    for (length, longer) in [(6, Some(8)), (1022, Some(1024)), (1023, None), (1024, None)] {
        let plain = frame_of(rt.alloc(), length).expect(&rt, "a frame");
        let made = with_field(rt.alloc(), &plain);
        assert_eq!(rt;
            made.as_ref().ok().map(|whole| whole.len()),
            longer,
            "{length}"
        );
        assert_eq!(rt;
            made.is_err_and(|fault| fault == FieldFault::TooLong),
            longer.is_none()
        );
    }
}

// Octets from which no frame error control field is removed, each with the fault that is returned.
const REFUSED: [(&str, FieldFault); 8] = [
    ("002a04", FieldFault::NoFrame(FrameFault::Short)),
    (
        "402a040c00c01005c0000000aa",
        FieldFault::NoFrame(FrameFault::Version),
    ),
    (
        "042a040c00c01005c0000000aa",
        FieldFault::NoFrame(FrameFault::Spare),
    ),
    ("002a040400", FieldFault::NoFrame(FrameFault::LengthSmall)),
    (
        "002a040e00c01005c0000000aa6b",
        FieldFault::NoFrame(FrameFault::Truncated),
    ),
    ("002a040e00c01005c0000000aa6b6e00", FieldFault::Fill),
    ("302a04050000", FieldFault::TooShort),
    ("002a040e00c01005c0000000aa6b6f", FieldFault::WrongSum),
];

#[test]
fn each_refusal(rt: HostRuntime) {
    for (digits, fault) in REFUSED {
        let octets = hex::decode(rt.alloc(), digits).expect(&rt, "octets");
        assert_eq!(rt;
            without_field(rt.alloc(), &octets).err(),
            Some(fault),
            "{digits}"
        );
    }
    for (digits, fault) in [REFUSED[0], REFUSED[5]] {
        let octets = hex::decode(rt.alloc(), digits).expect(&rt, "octets");
        assert_eq!(rt;
            with_field(rt.alloc(), &octets).err(),
            Some(fault),
            "{digits}"
        );
    }
}
