//! Calls that stations must refuse.

use super::asking::OperatorList;
use super::*;
use tc_channel::{Recorded, SettingsFault};
use tc_link::FrameFault;
use tc_station::{
    BringFault, LocateFault, ReleaseRefused, StationFault, TakeRefused, TakeUnitRefused,
    WatcherFault,
};

fn check_fault(rt: &impl Abort, alloc: Global, scid: u16, vcids: &[u8], expected: StationFault) {
    let mut list = Vec::new(alloc);
    for vcid in vcids {
        list.push(settings_for(rt, alloc, *vcid)).expect(rt, "room");
    }
    let station = Station::new(alloc, scid, list);
    assert!(rt; station.err() == Some(expected));
}

#[test]
fn settings_that_make_no_station(rt: HostRuntime) {
    let alloc = rt.alloc();
    check_fault(&rt, alloc, 1024, &[], StationFault::BadScid);
    check_fault(&rt, alloc, 1023, &[], StationFault::NoChannel);
    check_fault(&rt, alloc, 42, &[64, 64], StationFault::DoubleVcid(64));
    let bad = StationFault::Settings(64, SettingsFault::BadVcid);
    check_fault(&rt, alloc, 42, &[64], bad);
}

// Checks that a call for `n` operators has the result `issued`: the number of operators, or the fault.
fn check_issued(
    rt: &impl Abort,
    station: &mut Station,
    n: u16,
    issued: Result<usize, OperatorsFault>,
) {
    match station.operators(n) {
        Ok(operators) => assert!(rt; issued == Ok(operators.len())),
        Err(fault) => assert!(rt; issued == Err(fault)),
    }
}

#[test]
fn more_operators_than_have_numbers(rt: HostRuntime) {
    let mut station = station_of_one(&rt, rt.alloc());
    check_issued(&rt, &mut station, 65535, Ok(65535));
    check_issued(&rt, &mut station, 1, Err(OperatorsFault::TooMany));
    check_issued(&rt, &mut station, 0, Ok(0));
}

// `FRAME` for spacecraft 43, and for spacecraft 43 and virtual channel 2.
const OTHER_SPACECRAFT: [u8; 13] = [
    0x00, 0x2b, 0x04, 0x0c, 0x00, 0xc0, 0x10, 0x05, 0xc0, 0x00, 0x00, 0x00, 0xaa,
];

const OTHER_BOTH: [u8; 13] = [
    0x00, 0x2b, 0x08, 0x0c, 0x00, 0xc0, 0x10, 0x05, 0xc0, 0x00, 0x00, 0x00, 0xaa,
];

// Checks that octets for no channel are refused with this fault when they are located, and when they are brought with
// and without a watcher. None of the calls may be counted for the operator.
fn check_unplaced(
    rt: &(impl Wait + Abort),
    operator_list: &mut OperatorList<Recorded>,
    octets: &[u8],
    fault: LocateFault,
) {
    assert!(rt; operator_list.station.locate(octets).err() == Some(fault));
    assert!(rt; operator_list.bring(rt, octets) == Err(BringFault::Locate(fault)));
    assert!(rt; operator_list.bring_watched(rt, octets) == Err(BringFault::Locate(fault)));
    assert!(rt; operator_list.operator.count(1) == Some(0));
}

#[test]
fn octets_for_no_channel(rt: HostRuntime) {
    let mut operator_list = OperatorList::new(&rt, station_of_one(&rt, rt.alloc()), false);
    let other = LocateFault::OtherSpacecraft;
    check_unplaced(&rt, &mut operator_list, &OTHER_SPACECRAFT, other);
    check_unplaced(&rt, &mut operator_list, &OTHER_BOTH, other);
    check_unplaced(
        &rt,
        &mut operator_list,
        &ad_frame(2, 0),
        LocateFault::UnknownChannel,
    );
    let short = LocateFault::Frame(FrameFault::Short);
    check_unplaced(&rt, &mut operator_list, &FRAME[..3], short);
    let located = operator_list.station.locate(&FRAME).expect(&rt, "a place");
    assert!(rt; located.vcid == 1 && located.frame.octets() == FRAME.as_slice());
}

fn check_refused(rt: &(impl Wait + Abort), operator_list: &mut OperatorList<Recorded>) {
    assert!(rt; operator_list.release(rt, 2) == Err(ReleaseRefused::UnknownChannel));
    assert!(rt; operator_list.release(rt, 1) == Err(ReleaseRefused::Empty));
    assert!(rt; operator_list.take(rt, 2, 5).err() == Some(TakeRefused::UnknownChannel));
    assert!(rt; operator_list.take(rt, 1, 6).err() == Some(TakeRefused::NoQueue));
    assert!(rt; operator_list.take(rt, 1, 5).err() == Some(TakeRefused::Empty));
    assert!(rt; operator_list.take_unit(rt, 2, 3).err() == Some(TakeUnitRefused::UnknownChannel));
    assert!(rt; operator_list.take_unit(rt, 1, 3).err() == Some(TakeUnitRefused::NoMap));
}

#[test]
fn operations_on_no_channel_and_on_none_there(rt: HostRuntime) {
    let mut operator_list = OperatorList::new(&rt, station_of_one(&rt, rt.alloc()), false);
    check_refused(&rt, &mut operator_list);
    let unknown = operator_list.station.watcher(&rt, 2);
    assert_eq!(rt; unknown.err(), Some(WatcherFault::UnknownChannel));
    assert!(rt;
        (
            operator_list.operator.count(1),
            operator_list.operator.count(2)
        ) == (Some(0), None)
    );
}
