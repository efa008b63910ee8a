//! The text of each fault.

use super::*;
use tc_channel::SettingsFault;
use tc_link::FrameFault;
use tc_station::{
    BringFault, CountingCloseFault, CountingStation, LocateFault, OperatorsFault, ReleaseRefused,
    StationFault, TakeRefused, TakeUnitRefused, WatcherFault, WorkFault,
};

const UNKNOWN: &str = "the station has no such virtual channel";

#[test]
fn faults_of_settings_and_of_octets_have_texts(rt: HostRuntime) {
    let alloc = rt.alloc();
    let settings = [
        (StationFault::BadScid, "the spacecraft id is over 1023"),
        (StationFault::NoChannel, "there is no virtual channel"),
        (
            StationFault::DoubleVcid(7),
            "virtual channel 7 is there twice",
        ),
        (
            StationFault::Settings(64, SettingsFault::BadVcid),
            "virtual channel 64: bad virtual channel identifier",
        ),
        (StationFault::NoMemory, "no memory"),
    ];
    assert!(&rt; have_texts(alloc, settings.as_slice()));
    let places = [
        (LocateFault::Frame(FrameFault::Short), "fewer than 5 octets"),
        (
            LocateFault::OtherSpacecraft,
            "the frame is for another spacecraft",
        ),
        (LocateFault::UnknownChannel, UNKNOWN),
    ];
    assert!(&rt; have_texts(alloc, places.as_slice()));
    let frames = [
        (BringFault::Locate(LocateFault::UnknownChannel), UNKNOWN),
        (BringFault::NoMemory, "no memory"),
    ];
    assert!(&rt; have_texts(alloc, frames.as_slice()))
}

#[test]
fn faults_of_operations_have_texts(rt: HostRuntime) {
    let alloc = rt.alloc();
    let watching = [
        (WatcherFault::UnknownChannel, UNKNOWN),
        (WatcherFault::NoMemory, "no memory"),
    ];
    assert!(&rt; have_texts(alloc, watching.as_slice()));
    let releases = [
        (ReleaseRefused::UnknownChannel, UNKNOWN),
        (ReleaseRefused::Empty, "the buffer is empty"),
        (ReleaseRefused::NoMemory, "no memory"),
    ];
    assert!(&rt; have_texts(alloc, releases.as_slice()));
    check_takes(&rt, alloc);
}

fn check_takes(rt: &impl Abort, alloc: Global) {
    let takes = [
        (TakeRefused::UnknownChannel, UNKNOWN),
        (
            TakeRefused::NoQueue,
            "no queue with that application process identifier",
        ),
        (TakeRefused::Empty, "the queue is empty"),
        (TakeRefused::NoMemory, "no memory"),
    ];
    assert!(rt; have_texts(alloc, takes.as_slice()));
    let units = [
        (TakeUnitRefused::UnknownChannel, UNKNOWN),
        (
            TakeUnitRefused::NoMap,
            "no queue for that multiplexer access point",
        ),
        (TakeUnitRefused::Empty, "the queue is empty"),
        (TakeUnitRefused::NoMemory, "no memory"),
    ];
    assert!(rt; have_texts(alloc, units.as_slice()));
}

// Checks that this fault of a close has this text.
fn check_close_text<F: std::fmt::Display + Drop>(
    rt: &impl Abort,
    alloc: Global,
    fault: F,
    text: &str,
) {
    let written = fault.to_string(alloc).expect(rt, "an answer");
    assert_eq!(rt; written.as_str(), text);
}

#[test]
fn faults_of_operators_have_texts(rt: HostRuntime) {
    let alloc = rt.alloc();
    let issuing = [
        (OperatorsFault::TooMany, "more than 65535 operators"),
        (OperatorsFault::NoMemory, "no memory"),
    ];
    assert!(&rt; have_texts(alloc, issuing.as_slice()));
    let refused = [(WorkFault::NoMemory { line: 12 }, "line 12: no memory")];
    assert!(&rt; have_texts(alloc, refused.as_slice()));
    let station: Station = station_of_one(&rt, alloc);
    let missing = CloseFault::Missing(station, Vec::new(alloc));
    check_close_text(&rt, alloc, missing, "an operator is missing");
    let unbalanced = CloseFault::Unbalanced(Vec::new(alloc), Vec::new(alloc));
    let text = "the operators' counts and the journals differ";
    check_close_text(&rt, alloc, unbalanced, text);
    let station: Station = station_of_one(&rt, alloc);
    let no_memory = CloseFault::NoMemory(station, Vec::new(alloc));
    check_close_text(&rt, alloc, no_memory, "no memory")
}

fn counting_station(rt: &impl Abort, alloc: Global) -> CountingStation {
    station_of_one(rt, alloc)
}

#[test]
fn faults_of_a_counting_close_have_texts(rt: HostRuntime) {
    let alloc = rt.alloc();
    let missing = CountingCloseFault::Missing(counting_station(&rt, alloc), Vec::new(alloc));
    check_close_text(&rt, alloc, missing, "an operator is missing");
    let no_memory = CountingCloseFault::NoMemory(counting_station(&rt, alloc), Vec::new(alloc));
    check_close_text(&rt, alloc, no_memory, "no memory");
    let unbalanced = CountingCloseFault::Unbalanced(Vec::new(alloc), Vec::new(alloc));
    let text = "the operators' counts and the numbers of events differ";
    check_close_text(&rt, alloc, unbalanced, text)
}
