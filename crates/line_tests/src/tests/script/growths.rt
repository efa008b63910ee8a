//! Tests of calls that request memory. With ample memory each call succeeds at once. If memory is refused once, the
//! call leaves the state as it was, and the next call succeeds with the same answers.

use super::{ANSWERS, REPORT, SCRIPT, UNITS, UNITS_ANSWERS, UNITS_REPORT, Way, run};
use std::alloc::Global;
use std::process::Abort;
use std::sync::Wait;
use std::thread::Threads;
use tc_cli::{Line, Reason, ScriptFault, parse_line};
use test_parts::{UNLOCK, room};

/// Parses a line, if necessary after memory was refused once.
fn parsed<T: Abort + Print>(rt: &T, alloc: Global, text: &[u8]) -> Line {
    match parse_line(alloc, text) {
        Ok(line) => line,
        Err(reason) => {
            assert_eq!(rt; reason, Reason::NoMemory);
            let _ = println!(rt; "refused: parse_line");
            parse_line(alloc, text).expect(rt, "a line")
        }
    }
}

#[test]
fn parse_line_growth(rt: HostRuntime) {
    match parsed(&rt, rt.alloc(), b"frame 302a04050000") {
        Line::Frame(octets) => assert_eq!(rt; octets.as_slice(), UNLOCK.as_slice()),
        _ => panic!(rt; "the line isn't read"),
    }
}

/// Checks the fault and the answers of a script that ran out of memory. The first `setups` lines have no answer, and
/// each line after them has one.
fn check_refused<T: Abort>(
    rt: &T,
    fault: ScriptFault,
    answers: &[u8],
    expected: &str,
    setups: u32,
    lines: u32,
) {
    let ScriptFault::Line { line, reason } = fault else {
        panic!(rt; "another fault");
    };
    assert_eq!(rt; reason, Reason::NoMemory);
    assert!(rt; line <= lines);
    let answered = answers.iter().filter(|octet| **octet == b'\n').count();
    let before = line.saturating_sub(setups.saturating_add(1)) as usize;
    // The report requests memory after the last line's answer.
    let reported = answered == before || (line == lines && answered == before.saturating_add(1));
    assert!(rt; reported, "{answered} answers at line {line}");
    assert!(rt; expected.as_bytes().starts_with(answers));
}

/// Checks that a script runs to its end, if necessary after memory was refused once. Its first `setups` lines set up
/// channels.
fn check_script<T: Abort + Print + Threads + Wait + Sync + AllocGlobal>(
    rt: &T,
    script: &str,
    expected: &str,
    setups: u32,
    lines: u32,
) {
    // With this room the writer requests no memory later.
    let mut answers = room(rt.alloc(), 1000).expect(rt, "room");
    if let Err(fault) = run(rt, Way::InOrder, &mut script.as_bytes(), &mut answers) {
        let _ = println!(rt; "refused: run_script, {fault}");
        check_refused(rt, fault, answers.as_slice(), expected, setups, lines);
        answers.clear();
        let done = run(rt, Way::InOrder, &mut script.as_bytes(), &mut answers);
        assert_eq!(rt; done, Ok(()));
    }
    assert_eq!(rt; answers.as_slice(), expected.as_bytes());
}

#[test]
fn run_script_growth(rt: HostRuntime) {
    check_script(&rt, SCRIPT, ANSWERS, 2, 11);
}

#[test]
fn run_script_growth_of_units(rt: HostRuntime) {
    check_script(&rt, UNITS, UNITS_ANSWERS, 2, 8);
}

/// The station is created only for the report, which is written after the last line.
#[test]
fn report_growth(rt: HostRuntime) {
    let script = "channel 1 10 1 0\nqueue 1 5 1\nchannel 0 10 1 0\n\n";
    let report =
        "final 0 01000000 events 0 buffered 0\nfinal 1 01040000 events 0 buffered 0\nqueue 1 5 0\n";
    check_script(&rt, script, report, 4, 4);
}

// Checks that a script runs in parallel and writes this report, if necessary after memory was refused once. In that
// case nothing was written at first. The line of the fault is 0 if memory ran out while the script was read, and
// otherwise a line from `first` to `last`.
fn check_parallel<R: Threads + Wait + Sync + Abort + Print + AllocGlobal>(
    rt: &R,
    script: &str,
    report: &str,
    first: u32,
    last: u32,
) {
    let mut found = room(rt.alloc(), 1000).expect(rt, "room");
    if let Err(fault) = run(rt, Way::InParallel, &mut script.as_bytes(), &mut found) {
        let ScriptFault::Line { line, reason } = fault else {
            panic!(rt; "another fault");
        };
        let _ = println!(rt; "refused: parallel_script, {fault}");
        assert_eq!(rt; reason, Reason::NoMemory);
        assert!(rt; line == 0 || (first <= line && line <= last));
        assert!(rt; found.is_empty());
        let done = run(rt, Way::InParallel, &mut script.as_bytes(), &mut found);
        assert_eq!(rt; done, Ok(()));
    }
    assert_eq!(rt; found.as_slice(), report.as_bytes());
}

#[test]
fn parallel_script_growth(rt: HostRuntime) {
    check_parallel(&rt, SCRIPT, REPORT, 1, 11);
}

#[test]
fn parallel_script_growth_of_units(rt: HostRuntime) {
    check_parallel(&rt, UNITS, UNITS_REPORT, 1, 8);
}

/// Comments request no memory, so only the last line can run out of memory.
#[test]
fn parallel_growth_after_comments(rt: HostRuntime) {
    let script = "# one\n# two\n# three\nchannel 1 10 1 0\n";
    check_parallel(&rt, script, "final 1 01040000 events 0 buffered 0\n", 4, 4);
}
