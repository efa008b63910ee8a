mod lines;
mod streams;

use std::alloc::Global;
use std::process::Abort;
use tc_live::{FrameCheck, Receiver, answer_lines};
use tc_text::SpacecraftId;

/// Creates a receiver for spacecraft 42.
fn receiver(rt: &impl Abort, alloc: Global, check: FrameCheck) -> Receiver {
    let spacecraft = SpacecraftId::new(42).expect(rt, "a spacecraft id");
    Receiver::new(alloc, spacecraft, check)
}

/// Checks that a receiver answers these lines with `answers`, and with nothing else.
fn check_answers(rt: &impl Abort, alloc: Global, lines: &str, answers: &str) {
    let mut reader = lines.as_bytes();
    let mut written = Vec::new(alloc);
    let receiver = receiver(rt, alloc, FrameCheck::Nothing);
    let served = answer_lines(alloc, receiver, &mut reader, &mut written);
    assert!(rt; served.is_ok());
    let text = str::from_utf8(&written).unwrap_or("no text");
    assert!(rt; text == answers, "{text}");
}
