//! Code blocks.

use std::process::Abort;
use tc_edges::cltu::{Fate, Judged, Mode, decode_block, encode_block, judge};

// Seven octets and their code block, computed by long division of integers in Python.
const INFORMATION: [u8; 7] = [0x22, 0xf6, 0x00, 0xff, 0x00, 0x42, 0x1a];

const BLOCK: u64 = 0x22f600ff00421a12;

// Checks the fate of a block in a mode. If the block is corrected, it must become BLOCK.
fn check(rt: &impl Abort, octets: u64, mode: Mode, fate: Fate) {
    let octets = octets.to_be_bytes();
    let (block, information) = match fate {
        Fate::Corrected => (Some(BLOCK.to_be_bytes()), Some(INFORMATION)),
        _ => (None, None),
    };
    assert!(rt; judge(&octets, mode) == Judged { fate, block });
    assert!(rt; decode_block(octets, mode) == information);
}

// One wrong bit among the first 63 is corrected in the mode `Correct`, and detected in the mode `Detect`. Two wrong
// bits are detected in both modes, and three in the mode `Detect`.
#[test]
fn wrong_bits_are_detected_or_corrected(rt: HostRuntime) {
    assert!(rt; encode_block(INFORMATION) == BLOCK.to_be_bytes());
    for first in 1..64u32 {
        let one = BLOCK ^ (1u64 << first);
        check(&rt, one, Mode::Detect, Fate::Rejected);
        check(&rt, one, Mode::Correct, Fate::Corrected);
        for second in 1..first {
            let two = one ^ (1u64 << second);
            check(&rt, two, Mode::Detect, Fate::Rejected);
            check(&rt, two, Mode::Correct, Fate::Rejected);
            for third in 1..second {
                let three = two ^ (1u64 << third);
                check(&rt, three, Mode::Detect, Fate::Rejected);
            }
        }
    }
}
