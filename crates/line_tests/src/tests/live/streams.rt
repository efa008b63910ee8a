//! Tests of streams of lines: reads, writes and flushes that fail, octets after the last line feed, the record of how
//! frames end, and the texts of faults.

use super::receiver;
use std::io::BufReader;
use std::test::Fail;
use tc_live::{FrameCheck, FrameEnds, ServingFault, answer_lines};
use test_parts::{Failing, Watched, have_texts};

#[test]
fn lines_are_answered_and_flushed_one_by_one(rt: HostRuntime) -> Result<(), Fail> {
    let mut reader = b"no\nchannel 1 10 1 0\n\nclcw 1".as_slice();
    let mut writer = Watched::new(rt.alloc(), 0, false);
    let receiver = receiver(&rt, rt.alloc(), FrameCheck::Nothing);
    let served = answer_lines(rt.alloc(), receiver, &mut reader, &mut writer);
    assert_eq!(rt; served, Ok(FrameEnds::NoFrame));
    let text =
        b"bad unknown command: use channel, queue, map, frame, release, take, unit, clcw, link, report, deliver, collect or candidate\nclcw 1 01040000\nfinal 1 01040000 events 0 buffered 0\n".as_slice();
    assert!(rt; writer.kept() == text);
    assert_eq!(rt; writer.flushes(), 5);
    Ok(())
}

#[test]
fn how_frames_end_is_reported(rt: HostRuntime) -> Result<(), Fail> {
    let lines = [
        (
            "channel 1 10 1 0\nframe 302a0407000020e7\nframe 002a040e00c01005c0000000aa6b6e\n",
            FrameEnds::EachWithField,
        ),
        (
            "channel 1 10 1 0\nframe 302a04050000\nframe 302a0407000020e7\n",
            FrameEnds::OneWithout,
        ),
    ];
    for (text, ends) in lines {
        let mut reader = text.as_bytes();
        let mut writer = Watched::new(rt.alloc(), 0, false);
        let receiver = receiver(&rt, rt.alloc(), FrameCheck::Nothing);
        let served = answer_lines(rt.alloc(), receiver, &mut reader, &mut writer);
        assert_eq!(rt; served, Ok(ends));
    }
    Ok(())
}

#[test]
fn a_read_fails_after_a_line(rt: HostRuntime) -> Result<(), Fail> {
    // The reader has 26 octets, and the read after them fails.
    let failing = Failing::new(b"no\nchannel 1 10 1 0\nclcw 1".as_slice(), 3, 10);
    let mut reader = BufReader::new(rt.alloc(), failing)?;
    let mut writer = Watched::new(rt.alloc(), 0, false);
    let receiver = receiver(&rt, rt.alloc(), FrameCheck::Nothing);
    let served = answer_lines(rt.alloc(), receiver, &mut reader, &mut writer);
    assert_eq!(rt; served, Err(ServingFault::Read));
    assert!(rt;
        writer.kept()
            == b"bad unknown command: use channel, queue, map, frame, release, take, unit, clcw, link, report, deliver, collect or candidate\n".as_slice()
    );
    Ok(())
}

#[test]
fn writes_and_flushes_fail(rt: HostRuntime) -> Result<(), Fail> {
    for (fails_at, fails_to_flush) in [(1, false), (2, false), (3, false), (0, true)] {
        let mut reader = b"no\nchannel 1 10 1 0\nclcw 1\n".as_slice();
        let mut writer = Watched::new(rt.alloc(), fails_at, fails_to_flush);
        let receiver = receiver(&rt, rt.alloc(), FrameCheck::Nothing);
        let served = answer_lines(rt.alloc(), receiver, &mut reader, &mut writer);
        assert_eq!(rt; served, Err(ServingFault::Write));
    }
    Ok(())
}

#[test]
fn faults_have_texts(rt: HostRuntime) {
    let faults = [
        (ServingFault::Read, "cannot read"),
        (ServingFault::Write, "cannot write"),
        (ServingFault::NoMemory, "no memory"),
        (ServingFault::Unbalanced, "unbalanced"),
    ];
    assert!(&rt; have_texts(rt.alloc(), faults.as_slice()));
}
