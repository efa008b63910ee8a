use super::*;

// The fields of the CLCW from bit 0 on, each with its width in bits and its value. They are control word type 0,
// version 0, status field 0, COP-1 in effect, virtual channel 1, two spare bits, No RF Available, No Bit Lock, Lockout,
// Wait, Retransmit, the FARM-B counter, and then a spare bit and the report value as one entry. The report value is
// V(R) after the frame with N(S) 0 (CCSDS 232.0-B, the communications link control word).
const FIELDS: [(u32, u32); 13] = [
    (1, 0),
    (2, 0),
    (3, 0),
    (2, 1),
    (6, 1),
    (2, 0),
    (1, 0),
    (1, 0),
    (1, 0),
    (1, 0),
    (1, 0),
    (2, 0),
    (9, 1),
];

#[test]
fn one_frame(rt: HostRuntime) {
    let mut word: u32 = 0;
    for (width, value) in FIELDS {
        word = word.wrapping_shl(width) | value;
    }
    let seen = receive(&rt, rt.alloc(), FRAME).expect(&rt, "an answer");
    assert_eq!(rt; seen.word, word);
    assert!(rt; seen.accepted);
    assert_eq!(rt; seen.queued, 1);
    // The events are the frame, its release and the take.
    assert!(rt; seen.events == Some(3));
    assert_eq!(rt;
        seen.packet.as_slice(),
        b"\x10\x05\xc0\x00\x00\x00\xaa".as_slice()
    );
}
