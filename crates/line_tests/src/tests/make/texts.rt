//! The text of each reason and each fault.

use tc_edges::fecf::FieldFault;
use tc_link::FrameFault;
use tc_make::{Form, Number, Reason, ServingFault};
use test_parts::have_texts;

#[test]
fn reasons_of_bad_lines(rt: HostRuntime) {
    let reasons = [
        (Reason::UnknownCommand, "bad unknown command"),
        (Reason::Marked, "bad unknown command"),
        (Reason::WordCount(Form::Ad), "bad wrong number of words"),
        (Reason::BadNumber(Number::Vr), "bad number"),
        (Reason::BadHex, "bad hex"),
        (Reason::BadMode, "bad mode"),
        (Reason::BadClcw, "bad clcw"),
        (Reason::BadScid, "bad spacecraft"),
        (Reason::BadVcid, "bad channel"),
        (Reason::BadMap, "bad map"),
        (Reason::BadApid, "bad application"),
        (Reason::BadCount, "bad count"),
        (Reason::BadSize, "bad size"),
        (Reason::NoData, "bad no data"),
        (Reason::TooMuchData, "bad too much data"),
        (Reason::NoDecoder, "bad no decoder"),
        (Reason::NoMemory, "bad no memory"),
    ];
    assert!(&rt; have_texts(rt.alloc(), reasons.as_slice()));
}

#[test]
fn faults_of_streams_and_of_fields(rt: HostRuntime) {
    let streams = [
        (ServingFault::Read, "cannot read"),
        (ServingFault::Write, "cannot write"),
        (ServingFault::NoMemory, "no memory"),
    ];
    assert!(&rt; have_texts(rt.alloc(), streams.as_slice()));
    let fields = [
        (
            FieldFault::NoFrame(FrameFault::Short),
            "no frame: fewer than 5 octets",
        ),
        (FieldFault::Fill, "octets after the frame"),
        (FieldFault::TooLong, "more than 1,022 octets"),
        (FieldFault::TooShort, "fewer than 8 octets"),
        (
            FieldFault::WrongSum,
            "the frame error control field is wrong",
        ),
        (FieldFault::NoMemory, "no memory"),
    ];
    assert!(&rt; have_texts(rt.alloc(), fields.as_slice()));
}
