//! Streams of octets, and the frames that their CLTUs carry.

use std::alloc::{AllocError, Global};
use std::process::Abort;
use tc_edges::cltu::{Decoder, Mode};
use test_parts::made_again;

fn decoder_of(rt: &(impl Abort + Print), alloc: Global, mode: Mode) -> Decoder {
    let new = || Decoder::new(alloc, mode);
    made_again(rt, "Decoder::new", AllocError, &new).expect(rt, "a decoder")
}

// A frame, and the CLTU that carries it.
const FRAME: [u8; 7] = [0x30, 0x2a, 0x04, 0x05, 0x00, 0x00, 0x55];

const CLTU: [u8; 18] = [
    0xeb, 0x90, 0x30, 0x2a, 0x04, 0x05, 0x00, 0x00, 0x55, 0x94, 0xc5, 0xc5, 0xc5, 0xc5, 0xc5, 0xc5,
    0xc5, 0x79,
];

// Feeds the CLTU to the decoder. If memory for the copy of a frame is refused, the frame stays in the decoder, and is
// copied from there. All octets up to the end of the frame have then been decoded, and the earlier frames are kept.
fn feed(
    rt: &(impl Abort + Print),
    alloc: Global,
    decoder: &mut Decoder,
    frames: &mut Vec<Vec<u8>>,
) {
    let count = frames.len();
    if decoder.feed(alloc, frames, &CLTU).is_err() {
        let _ = println!(rt; "refused: Decoder::feed");
        assert!(rt; frames.len() == count);
        let carried = Vec::from_slice(alloc, decoder.carried()).expect(rt, "a frame");
        frames.push(carried).expect(rt, "a frame");
    }
}

#[test]
fn growth_of_the_frames_of_many_cltus(rt: HostRuntime) {
    let mut decoder = decoder_of(&rt, rt.alloc(), Mode::Detect);
    let mut frames = Vec::new(rt.alloc());
    for _ in 0..6 {
        feed(&rt, rt.alloc(), &mut decoder, &mut frames);
    }
    assert!(rt; frames.len() == 6);
    for frame in &frames {
        assert!(rt; frame.as_slice() == FRAME.as_slice());
    }
}

// Feeds a stream to a decoder octet by octet. Returns the number of octets that the first CLTU carries, or `None` if no
// CLTU ends.
fn length_of(rt: &(impl Abort + Print), alloc: Global, stream: &[u8]) -> Option<usize> {
    let mut decoder = decoder_of(rt, alloc, Mode::Correct);
    for octet in stream {
        if decoder.feed_octet(*octet).ended {
            return Some(decoder.carried().len());
        }
    }
    None
}

// Parts of CLTUs, of eight octets each: zeros before a start sequence, a code block of zeros, and the tail sequence.
const BEGIN: [u8; 8] = [0, 0, 0, 0, 0, 0, 0xeb, 0x90];

const ZEROS: [u8; 8] = [0, 0, 0, 0, 0, 0, 0, 0xfe];

const END: [u8; 8] = [0xc5, 0xc5, 0xc5, 0xc5, 0xc5, 0xc5, 0xc5, 0x79];

// A CLTU of 147 code blocks gives the octets that it carries, and a CLTU of 148 code blocks gives none.
#[test]
fn a_cltu_that_is_too_long_gives_nothing(rt: HostRuntime) {
    let mut longest = [ZEROS; 149];
    longest[0] = BEGIN;
    longest[148] = END;
    assert!(rt; length_of(&rt, rt.alloc(), longest.as_flattened()) == Some(1029));
    let mut longer = [ZEROS; 150];
    longer[0] = BEGIN;
    longer[149] = END;
    assert!(rt; length_of(&rt, rt.alloc(), longer.as_flattened()) == None);
}
