//! Settings that create a channel and settings that create none, refused calls on a channel in rooms, and the texts of
//! the faults.

use super::*;
use SettingsFault::{
    BadApid, BadBuffer, BadCapacity, BadMap, BadUnits, BadVcid, BadWindow, DoubleApid, DoubleMap,
    PlainMap,
};

// Each row has a virtual channel id, the width of a window, the capacity of a buffer, the APIDs and capacities of
// queues, and the fault of settings with these values, or `None` if they have no fault.
static FAULTS: [(u8, u8, u8, &[(u16, u16)], Option<SettingsFault>); 12] = [
    (1, 10, 1, &[(5, 1)], None),
    (64, 10, 1, &[(5, 1)], Some(BadVcid)),
    (1, 0, 1, &[(5, 1)], Some(BadWindow)),
    (1, 3, 1, &[(5, 1)], Some(BadWindow)),
    (1, 255, 1, &[(5, 1)], Some(BadWindow)),
    (1, 10, 0, &[(5, 1)], Some(BadBuffer)),
    (1, 10, 65, &[(5, 1)], Some(BadBuffer)),
    (1, 10, 1, &[(2047, 1)], Some(BadApid)),
    (1, 10, 1, &[(5, 1), (5, 1)], Some(DoubleApid)),
    (1, 10, 1, &[(5, 0)], Some(BadCapacity)),
    (1, 10, 1, &[(5, 257)], Some(BadCapacity)),
    (1, 3, 1, &[(5, 0)], Some(BadWindow)),
];

// Checks that settings with this fault create no channel, or that they create one if `fault` is `None`.
fn check_fault(rt: &impl Abort, alloc: Global, wanted: &Wanted<'_>, fault: Option<SettingsFault>) {
    let settings = settings(rt, alloc, wanted);
    assert_eq!(rt; settings.check().err(), fault);
    assert_eq!(rt; Channel::new(alloc, settings).err(), fault);
}

#[test]
fn each_fault_of_settings(rt: HostRuntime) {
    for &(vcid, width, buffer, queues, fault) in &FAULTS {
        let wanted = Wanted {
            vcid,
            width,
            buffer,
            queues,
            ..WANTED
        };
        check_fault(&rt, rt.alloc(), &wanted, fault)
    }
}

// Each row has a flag for segment headers, the chosen MAPs with the capacities of their queues, and the fault of
// settings with these values, or `None` if they have no fault.
static FAULTS_OF_MAPS: [(bool, &[(u8, u16)], Option<SettingsFault>); 7] = [
    (true, &[(63, 256), (0, 1)], None),
    (false, &[], None),
    (true, &[(64, 0), (64, 0)], Some(SettingsFault::BadMap)),
    (false, &[(3, 0), (3, 1)], Some(SettingsFault::DoubleMap)),
    (false, &[(3, 0)], Some(SettingsFault::BadUnits)),
    (true, &[(3, 257)], Some(SettingsFault::BadUnits)),
    (false, &[(3, 1)], Some(SettingsFault::PlainMap)),
];

#[test]
fn each_fault_of_maps(rt: HostRuntime) {
    for &(segmented, maps, fault) in &FAULTS_OF_MAPS {
        let wanted = Wanted {
            segmented,
            maps,
            ..WANTED
        };
        check_fault(&rt, rt.alloc(), &wanted, fault)
    }
}

static TEXTS: [(SettingsFault, &str); 11] = [
    (BadVcid, "bad virtual channel identifier"),
    (BadWindow, "bad window width"),
    (BadBuffer, "bad buffer size"),
    (BadApid, "bad application process identifier"),
    (
        DoubleApid,
        "two queues for one application process identifier",
    ),
    (BadCapacity, "bad queue capacity"),
    (BadMap, "bad multiplexer access point"),
    (DoubleMap, "two queues for one multiplexer access point"),
    (BadUnits, "bad capacity of a unit queue"),
    (
        PlainMap,
        "a multiplexer access point without segment headers",
    ),
    (SettingsFault::NoMemory, "no memory"),
];

static RELEASE_TEXTS: [(ReleaseFault, &str); 2] = [
    (ReleaseFault::Empty, "the buffer is empty"),
    (ReleaseFault::NoMemory, "no memory"),
];

static TAKE_TEXTS: [(TakeFault, &str); 3] = [
    (
        TakeFault::NoQueue,
        "no queue with that application process identifier",
    ),
    (TakeFault::Empty, "the queue is empty"),
    (TakeFault::NoMemory, "no memory"),
];

static TAKE_UNIT_TEXTS: [(TakeUnitFault, &str); 3] = [
    (
        TakeUnitFault::NoMap,
        "no queue for that multiplexer access point",
    ),
    (TakeUnitFault::Empty, "the queue is empty"),
    (TakeUnitFault::NoMemory, "no memory"),
];

static NOTHING_TAKEN: [(NothingTaken, &str); 3] = [
    (
        NothingTaken::NoQueue,
        "no queue with that application process identifier",
    ),
    (NothingTaken::Empty, "the queue is empty"),
    (NothingTaken::NoRoom(7), "no room for the packet"),
];

static NO_UNIT_TAKEN: [(NoUnitTaken, &str); 3] = [
    (
        NoUnitTaken::NoMap,
        "no queue for that multiplexer access point",
    ),
    (NoUnitTaken::Empty, "the queue is empty"),
    (NoUnitTaken::NoRoom(2), "no room for the unit"),
];

static LIMITS_TEXTS: [(LimitsFault, &str); 7] = [
    (
        LimitsFault::Settings(BadVcid),
        "bad virtual channel identifier",
    ),
    (
        LimitsFault::BadOthers,
        "bad limit of the other multiplexer access points",
    ),
    (
        LimitsFault::BadMap,
        "bad multiplexer access point of a limit",
    ),
    (
        LimitsFault::DoubleMap,
        "two limits of one multiplexer access point",
    ),
    (
        LimitsFault::BadLimit,
        "bad limit of a multiplexer access point",
    ),
    (
        LimitsFault::PlainMap,
        "a limit of a multiplexer access point without segment headers",
    ),
    (
        LimitsFault::UnlistedMap,
        "no limit of a chosen multiplexer access point",
    ),
];

#[test]
fn the_text_of_each_fault(rt: HostRuntime) {
    let alloc = rt.alloc();
    assert!(rt; have_texts(alloc, &TEXTS));
    assert!(rt; have_texts(alloc, &RELEASE_TEXTS));
    assert!(rt; have_texts(alloc, &TAKE_TEXTS));
    assert!(rt; have_texts(alloc, &TAKE_UNIT_TEXTS));
    assert!(rt; have_texts(alloc, &[(NoMemory, "no memory")]));
}

#[test]
fn the_text_of_each_fault_in_rooms(rt: HostRuntime) {
    let alloc = rt.alloc();
    assert!(rt; have_texts(alloc, &NOTHING_TAKEN));
    assert!(rt; have_texts(alloc, &NO_UNIT_TAKEN));
    assert!(rt; have_texts(alloc, &[(NothingReleased::Empty, "the buffer is empty")]));
    assert!(rt; have_texts(alloc, &LIMITS_TEXTS));
}

// A buffer into which nothing was copied yet.
const UNTOUCHED: [u8; 8] = [0xee; 8];

// A take into a buffer that is too short takes nothing, and changes no octet of the buffer. Octets behind an item keep
// their values. An item that is dropped is gone.
#[test]
fn takes_into_few_octets_and_drops(rt: HostRuntime) {
    let mut channel: FixedChannel = new_channel(&rt, rt.alloc(), "FixedChannel", &BOTH);
    assert!(rt; !channel.drop_oldest(5) && !channel.drop_oldest(6));
    assert!(rt; !channel.drop_oldest_unit(3) && !channel.drop_oldest_unit(4));
    for frame in [BD_PACKET.as_slice(), &BD_PACKET, &BD_UNIT, &BD_UNIT] {
        assert_eq!(rt; offer(&rt, &mut channel, frame), Ok(DELIVERED));
    }
    let mut octets = UNTOUCHED;
    let taken = channel.take(5, &mut octets[..6]);
    assert_eq!(rt; taken, Err(NothingTaken::NoRoom(7)));
    let taken = channel.take_unit(3, &mut octets[..1]);
    assert_eq!(rt; taken, Err(NoUnitTaken::NoRoom(2)));
    assert_eq!(rt; (octets, channel.events()), (UNTOUCHED, 4));
    assert_eq!(rt; channel.take(5, &mut octets), Ok(7));
    assert!(rt; octets == [0x10, 0x05, 0xc0, 0x00, 0x00, 0x00, 0xaa, 0xee]);
    assert!(rt; channel.drop_oldest(5) && channel.drop_oldest_unit(3));
    assert_eq!(rt; channel.take_unit(3, &mut octets), Ok(2));
    assert!(rt; octets == [0xaa, 0xbb, 0xc0, 0x00, 0x00, 0x00, 0xaa, 0xee]);
    assert_eq!(rt;
        (channel.queued(5), channel.units(3), channel.events()),
        (Some(0), Some(0), 8)
    );
}
