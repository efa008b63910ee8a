//! Tests of streams that fail, and of scripts at the limit of their size.

use super::{ANSWERS, REPORT, SCRIPT, Way, run};
use std::io;
use std::io::Read;
use std::process::Abort;
use std::sync::Wait;
use std::thread::Threads;
use tc_cli::{Reason, ScriptFault};
use test_parts::{Failing, Watched};

/// A reader that gives one octet at each read, without end.
#[derive(Drop)]
struct Endless {
    reads: u32,
}

impl Read for Endless {
    fn read(&mut self, buf: &mut [u8]) -> io::Result<usize> {
        self.reads = self.reads.saturating_add(1);
        if buf.is_empty() {
            return Ok(0);
        }
        buf[0] = b'\n';
        Ok(1)
    }
}

// Checks that the whole script is answered, or that the failed read is reported and nothing is answered. Returns
// whether the script was read to its end before the read that fails.
fn is_read<T: Abort + Threads + Wait + Sync + AllocGlobal>(
    rt: &T,
    way: Way,
    expected: &str,
    most: usize,
    fails_at: u32,
) -> bool {
    let mut reader = Failing::new(SCRIPT.as_bytes(), most, fails_at);
    let mut answers: Vec<u8> = Vec::new(rt.alloc());
    let done = run(rt, way, &mut reader, &mut answers);
    let is_read = reader.reads() < fails_at;
    if is_read {
        assert_eq!(rt; done, Ok(()));
        assert_eq!(rt; answers.as_slice(), expected.as_bytes());
    } else {
        assert_eq!(rt; done, Err(ScriptFault::Read));
        assert!(rt; answers.is_empty());
    }
    is_read
}

#[test]
fn a_read_fails(rt: HostRuntime) {
    for (way, expected, most, reads) in [
        (Way::InOrder, ANSWERS, 3, 100),
        (Way::InOrder, ANSWERS, 50, 10),
        (Way::InOrder, ANSWERS, 1000, 5),
        (Way::InParallel, REPORT, 50, 10),
    ] {
        let mut passed = false;
        for fails_at in 1..reads {
            passed = is_read(&rt, way, expected, most, fails_at) || passed;
        }
        assert!(rt; passed, "at {most} octets a read");
    }
}

// Checks that all answers are written, or that the failed write is reported. In that case the text before it must be
// the beginning of the answers. Returns whether all answers were written.
fn is_written<T: Abort + Threads + Wait + Sync + AllocGlobal>(
    rt: &T,
    way: Way,
    expected: &str,
    fails_at: u32,
) -> bool {
    let mut writer = Watched::new(rt.alloc(), fails_at, false);
    let done = run(rt, way, &mut SCRIPT.as_bytes(), &mut writer);
    let is_written = writer.writes() < fails_at;
    if is_written {
        assert_eq!(rt; done, Ok(()));
        assert_eq!(rt; writer.kept(), expected.as_bytes());
    } else {
        assert_eq!(rt; done, Err(ScriptFault::Write));
        assert!(rt; expected.as_bytes().starts_with(writer.kept()));
    }
    is_written
}

#[test]
fn a_write_fails(rt: HostRuntime) {
    for (way, expected, writes) in [(Way::InOrder, ANSWERS, 300), (Way::InParallel, REPORT, 100)] {
        assert!(rt; !is_written(&rt, way, expected, 1));
        let mut passed = false;
        for fails_at in 2..writes {
            passed = is_written(&rt, way, expected, fails_at) || passed;
        }
        assert!(rt; passed);
    }
}

#[test]
fn a_flush_fails(rt: HostRuntime) {
    for (way, script) in [
        (Way::InOrder, SCRIPT),
        (Way::InOrder, ""),
        (Way::InOrder, "channel 1 10 1 0\nclcw 1\nhello\n"),
        (Way::InParallel, SCRIPT),
        (Way::InParallel, ""),
    ] {
        let mut writer = Watched::new(rt.alloc(), 0, true);
        let done = run(&rt, way, &mut script.as_bytes(), &mut writer);
        assert_eq!(rt; done, Err(ScriptFault::Write), "at {script:?}");
    }
}

#[test]
fn reading_ends(rt: HostRuntime) {
    let mut reader = Endless { reads: 0 };
    let mut answers: Vec<u8> = Vec::new(rt.alloc());
    let done = run(&rt, Way::InOrder, &mut reader, &mut answers);
    assert_eq!(rt; done, Err(ScriptFault::TooLong));
    assert_eq!(rt; reader.reads, 1_048_577);
}

// Returns a script of this length: a channel line, and a frame line all of whose digits are 0.
fn long_script<T: Abort + AllocGlobal>(rt: &T, length: usize) -> Vec<u8> {
    let start = b"channel 1 10 1 0\nframe ";
    let mut script = vec![in rt.alloc(); b'0'; length].expect(rt, "a script");
    for (octet, given) in script.iter_mut().zip(start) {
        *octet = *given;
    }
    script
}

// Checks that a script of this length has these answers, and ends in this way.
fn check_long<T: Abort + Threads + Wait + Sync + AllocGlobal>(
    rt: &T,
    length: usize,
    answers: &str,
    ended: Result<(), ScriptFault>,
) {
    let script = long_script(rt, length);
    let mut found: Vec<u8> = Vec::new(rt.alloc());
    let done = run(rt, Way::InOrder, &mut script.as_slice(), &mut found);
    assert_eq!(rt; done, ended, "at {length} octets");
    assert_eq!(rt; found.as_slice(), answers.as_bytes(), "at {length} octets");
}

#[test]
fn lines_of_a_megabyte(rt: HostRuntime) {
    let bad_hex = ScriptFault::Line {
        line: 2,
        reason: Reason::BadHex,
    };
    let answers = "refused length\nfinal 1 01040000 events 0 buffered 0\n";
    check_long(&rt, 1_048_575, answers, Ok(()));
    check_long(&rt, 1_048_576, "", Err(bad_hex));
    check_long(&rt, 1_048_577, "", Err(ScriptFault::TooLong));
}
