//! Tests of streams of lines: reads, writes and flushes that fail, lines that are too long, and octets after the last
//! line feed.

use std::io;
use std::io::{BufReader, ErrorKind, Read};
use std::test::Fail;
use tc_make::{Ending, MAX_LINE, ServingFault, answer_lines};
use test_parts::{Failing, Watched};

/// A reader that returns at most 1,000 octets at a time. Before each read that returns octets, one read is interrupted.
#[derive(Drop)]
struct Interrupted<'a> {
    rest: &'a [u8],
    was_interrupted: bool,
}

impl Read for Interrupted<'_> {
    fn read(&mut self, buf: &mut [u8]) -> io::Result<usize> {
        self.was_interrupted = !self.was_interrupted;
        if self.was_interrupted {
            return Err(io::Error::from(ErrorKind::Interrupted));
        }
        let count = self.rest.len().min(buf.len()).min(1000);
        let (given, rest) = self.rest.split_at(count);
        buf[..count].copy_from_slice(given);
        self.rest = rest;
        Ok(count)
    }
}

#[test]
fn lines_are_answered_and_flushed_one_by_one(rt: HostRuntime) -> Result<(), Fail> {
    let mut reader = b"packet 5 0 aa\nno\nunlock 42\n\nunlock 42 1".as_slice();
    let mut writer = Watched::new(rt.alloc(), 0, false);
    let served = answer_lines(rt.alloc(), Ending::DataField, &mut reader, &mut writer);
    assert_eq!(rt; served, Ok(()));
    let text =
        b"packet 1005c0000000aa\nbad unknown command: use packet, ad, bd, unlock, setvr, segments, explain, clcw, cltu, random, tm, telemetry, decoder, octets, search or frames\nbad wrong number of words: write unlock SCID VC\nframe 302a04050000\n".as_slice();
    assert!(rt; writer.kept() == text);
    assert_eq!(rt; writer.flushes(), 5);
    Ok(())
}

#[test]
fn a_read_fails_after_a_line(rt: HostRuntime) -> Result<(), Fail> {
    // The reader has 21 octets, and the read after them fails.
    let failing = Failing::new(b"unlock 42 1\nunlock 42".as_slice(), 3, 8);
    let mut reader = BufReader::new(rt.alloc(), failing)?;
    let mut writer = Watched::new(rt.alloc(), 0, false);
    let served = answer_lines(rt.alloc(), Ending::DataField, &mut reader, &mut writer);
    assert_eq!(rt; served, Err(ServingFault::Read));
    assert!(rt; writer.kept() == b"frame 302a04050000\n".as_slice());
    Ok(())
}

#[test]
fn lines_come_in_parts(rt: HostRuntime) -> Result<(), Fail> {
    let mut lines = vec![in rt.alloc(); b' '; MAX_LINE]?;
    lines.extend_from_slice(b"\nunlock 42 1\nunlock 42 1")?;
    let parts = Interrupted {
        rest: lines.as_slice(),
        was_interrupted: false,
    };
    let mut reader = BufReader::new(rt.alloc(), parts)?;
    let mut writer = Watched::new(rt.alloc(), 0, false);
    let served = answer_lines(rt.alloc(), Ending::DataField, &mut reader, &mut writer);
    assert_eq!(rt; served, Ok(()));
    let text = b"bad too long\nframe 302a04050000\nframe 302a04050000\n".as_slice();
    assert!(rt; writer.kept() == text);
    assert_eq!(rt; writer.flushes(), 3);
    Ok(())
}

#[test]
fn a_write_or_a_flush_fails(rt: HostRuntime) -> Result<(), Fail> {
    for (fails_at, fails_to_flush) in [(1, false), (2, false), (0, true)] {
        let mut reader = b"unlock 42 1\n".as_slice();
        let mut writer = Watched::new(rt.alloc(), fails_at, fails_to_flush);
        let served = answer_lines(rt.alloc(), Ending::DataField, &mut reader, &mut writer);
        assert_eq!(rt; served, Err(ServingFault::Write));
    }
    Ok(())
}

#[test]
fn a_line_is_too_long(rt: HostRuntime) -> Result<(), Fail> {
    for (length, feed, text) in [
        (MAX_LINE - 1, true, "frame 302a04050000\n"),
        (MAX_LINE, true, "bad too long\nframe 302a04050000\n"),
        (MAX_LINE, false, "bad too long\n"),
        (3 * MAX_LINE, true, "bad too long\nframe 302a04050000\n"),
    ] {
        let mut lines = vec![in rt.alloc(); b' '; length]?;
        if feed {
            lines.extend_from_slice(b"\nunlock 42 1\n")?;
        }
        let mut reader = lines.as_slice();
        let mut writer = Watched::new(rt.alloc(), 0, false);
        let served = answer_lines(rt.alloc(), Ending::DataField, &mut reader, &mut writer);
        assert_eq!(rt; served, Ok(()));
        assert!(rt; writer.kept() == text.as_bytes(), "{length}");
    }
    Ok(())
}
