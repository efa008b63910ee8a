//! The text of each reason and each fault.

use tc_cli::{Reason, ScriptFault};
use test_parts::have_texts;

#[test]
fn reasons(rt: HostRuntime) {
    for (reason, text) in [
        (Reason::UnknownCommand, "line 7: unknown command"),
        (Reason::WordCount, "line 7: wrong number of words"),
        (Reason::BadNumber, "line 7: bad number"),
        (Reason::BadHex, "line 7: bad hex"),
        (Reason::TooLate, "line 7: too late"),
        (Reason::NoChannel, "line 7: no channel"),
        (Reason::DoubleChannel, "line 7: double channel"),
        (Reason::UnknownChannel, "line 7: unknown channel"),
        (Reason::BadVcid, "line 7: bad channel"),
        (Reason::BadWindow, "line 7: bad window"),
        (Reason::BadBuffer, "line 7: bad buffer"),
        (Reason::BadApid, "line 7: bad application"),
        (Reason::DoubleApid, "line 7: double application"),
        (Reason::BadCapacity, "line 7: bad capacity"),
        (Reason::NoMemory, "line 7: no memory"),
        (Reason::BadOption, "line 7: bad option"),
        (Reason::BadMap, "line 7: bad map"),
        (Reason::DoubleMap, "line 7: double map"),
        (Reason::BadUnits, "line 7: bad units"),
        (Reason::PlainMap, "line 7: map on plain channel"),
    ] {
        let fault = [(ScriptFault::Line { line: 7, reason }, text)];
        assert!(&rt; have_texts(rt.alloc(), fault.as_slice()));
    }
}

#[test]
fn faults(rt: HostRuntime) {
    let faults = [
        (ScriptFault::Read, "line 0: cannot read"),
        (ScriptFault::TooLong, "line 0: too long"),
        (ScriptFault::Write, "line 0: cannot write"),
        (ScriptFault::Unbalanced, "line 0: unbalanced"),
    ];
    assert!(&rt; have_texts(rt.alloc(), faults.as_slice()));
}
