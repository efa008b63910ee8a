//! Limits of units by MAP. Expected values were worked out by hand from CCSDS 232.0-B, 4.4. A unit is either the octets
//! behind the segment header of an unsegmented data field, or the octets that a first segment, any continuing segments
//! and a last segment carry together. On a channel without segment headers, each data field is a unit.

use super::Step::{Field, Frame, Holds, Take, TakeUnit};
use super::*;
use LimitsFault::{BadLimit, BadMap, BadOthers, DoubleMap, PlainMap, UnlistedMap};

const SEVEN_ON_0: MapLimit = MapLimit { map: 0, octets: 7 };

const TWO_ON_3: MapLimit = MapLimit { map: 3, octets: 2 };

// A packet of 8 octets, and the unsegmented data fields that carry it on MAPs 0, 1 and 63.
const EIGHT: [u8; 8] = [0x10, 0x05, 0xc0, 0x00, 0x00, 0x01, 0xaa, 0xbb];

const EIGHT_ON_0: [u8; 9] = [0xc0, 0x10, 0x05, 0xc0, 0x00, 0x00, 0x01, 0xaa, 0xbb];

const EIGHT_ON_1: [u8; 9] = [0xc1, 0x10, 0x05, 0xc0, 0x00, 0x00, 0x01, 0xaa, 0xbb];

const EIGHT_ON_63: [u8; 9] = [0xff, 0x10, 0x05, 0xc0, 0x00, 0x00, 0x01, 0xaa, 0xbb];

// The limit of MAP 0 is 7 octets. `PACKET`, of 7 octets, passes, and the packet of 8 octets is dropped. MAPs 1 and 63
// aren't listed, and have the limit of 8 octets.
static BY_PACKETS: [Step<'static>; 8] = [
    Frame(&BD_PACKET, DELIVERED),
    Field(&EIGHT_ON_0, PASSED),
    Field(&EIGHT_ON_1, DELIVERED),
    Holds(0, 2, Some(0)),
    Take(5, &PACKET),
    Take(5, &EIGHT),
    Field(&EIGHT_ON_63, DELIVERED),
    Take(5, &EIGHT),
];

// The first four octets of a packet, and its last four or three, in a first and a last segment of MAP 0. The packet of
// 8 octets is over the limit of 7 octets, and the packet of 7 octets passes.
static BY_SEGMENTS: [Step<'static>; 6] = [
    Field(&[0x40, 0x10, 0x05, 0xc0, 0x00], PASSED),
    Field(&[0x80, 0x00, 0x01, 0xaa, 0xbb], PASSED),
    Field(&[0x40, 0x10, 0x05, 0xc0, 0x00], PASSED),
    Field(&[0x80, 0x00, 0x00, 0xaa], DELIVERED),
    Holds(0, 1, Some(0)),
    Take(5, &PACKET),
];

// The chosen MAP 3 has a limit of its own. A run of three octets is dropped, and a run of two becomes a unit, whatever
// comes on another MAP. An unsegmented unit of two octets is queued, and one of three is dropped.
static OF_ANOTHER_MAP: [Step<'static>; 11] = [
    Field(&[0x43, 1, 2], PASSED),
    Field(&[0x03, 3], PASSED),
    Field(&[0x83], PASSED),
    Field(&[0x43, 4], PASSED),
    Field(&[0x41, 9], PASSED),
    Field(&[0x83, 5], DELIVERED),
    Field(&[0xc3, 6, 7, 8], PASSED),
    Field(&[0xc3, 6, 7], DELIVERED),
    Holds(0, 0, Some(2)),
    TakeUnit(3, &[4, 5]),
    TakeUnit(3, &[6, 7]),
];

// No unit of one octet or more passes on MAP 1, because MAPs that aren't listed have the limit 0.
static ON_AN_UNLISTED_MAP: [Step<'static>; 4] = [
    Field(&EIGHT_ON_1, PASSED),
    Field(&[0xc1], PASSED),
    Frame(&BD_PACKET, DELIVERED),
    Holds(0, 1, Some(0)),
];

// A plain data field of 7 octets is a unit within the limit for MAPs that aren't listed. A data field of 8 octets is
// over the limit.
static PLAIN_FIELDS: [Step<'static>; 4] = [
    Field(&EIGHT, PASSED),
    Field(&PACKET, DELIVERED),
    Holds(0, 1, None),
    Take(5, &PACKET),
];

// Settings like `BOTH`, but without segment headers and therefore without MAPs.
const PLAIN: Wanted<'static> = Wanted {
    segmented: false,
    maps: &[],
    ..BOTH
};

// Creates limits, even if memory is refused once.
pub(super) fn limits_of(rt: &impl Abort, alloc: Global, others: u32, maps: &[MapLimit]) -> Limits {
    let maps = copied(alloc, maps).expect(rt, "limits");
    Limits {
        others,
        maps: Items::from(maps),
    }
}

// Plays steps on a channel with these settings, with the limits of `maps`, and with the limit `others` for each other
// MAP.
fn play_within(
    rt: &(impl Abort + Print),
    alloc: Global,
    wanted: &Wanted<'_>,
    others: u32,
    maps: &[MapLimit],
    steps: &[Step<'_>],
) {
    let limits = limits_of(rt, alloc, others, maps);
    let channel = FixedChannel::with_limits(alloc, settings(rt, alloc, wanted), limits);
    Run::new(alloc, "FixedChannel", channel.expect(rt, "a channel")).play(rt, steps)
}

#[test]
fn units_of_the_limit_and_longer_ones(rt: HostRuntime) {
    let alloc = rt.alloc();
    let listed = [SEVEN_ON_0, TWO_ON_3];
    for steps in [BY_PACKETS.as_slice(), &BY_SEGMENTS, &OF_ANOTHER_MAP] {
        play_within(&rt, alloc, &BOTH, 8, &listed, steps)
    }
    play_within(&rt, alloc, &BOTH, 0, &listed, &ON_AN_UNLISTED_MAP);
    play_within(&rt, alloc, &PLAIN, 7, &[], &PLAIN_FIELDS)
}

const NO_CHANNEL: Wanted<'static> = Wanted { vcid: 64, ..BOTH };

const HIGH: MapLimit = MapLimit { map: 64, octets: 7 };

const NONE_ON_3: MapLimit = MapLimit { map: 3, octets: 0 };

const OVER_ON_3: MapLimit = MapLimit {
    map: 3,
    octets: 65_543,
};

const BAD_VCID: LimitsFault = LimitsFault::Settings(SettingsFault::BadVcid);

// Each row has settings, the limit of the MAPs that aren't listed, the limits of listed MAPs, and the first fault of
// these settings and limits, or `None`.
static FAULTS: [(Wanted<'static>, u32, &[MapLimit], Option<LimitsFault>); 12] = [
    (NO_CHANNEL, 65_543, &[HIGH], Some(BAD_VCID)),
    (BOTH, 65_543, &[HIGH], Some(BadOthers)),
    (BOTH, 0, &[HIGH, NONE_ON_3, NONE_ON_3], Some(BadMap)),
    (BOTH, 0, &[NONE_ON_3, NONE_ON_3], Some(DoubleMap)),
    (BOTH, 0, &[NONE_ON_3], Some(BadLimit)),
    (BOTH, 0, &[OVER_ON_3], Some(BadLimit)),
    (BOTH, 0, &[SEVEN_ON_0], Some(UnlistedMap)),
    (BOTH, 1, &[SEVEN_ON_0], None),
    (BOTH, 0, &[TWO_ON_3], None),
    (BOTH, 65_542, &[], None),
    (PLAIN, 0, &[], Some(BadOthers)),
    (PLAIN, 7, &[SEVEN_ON_0], Some(PlainMap)),
];

#[test]
fn faults_of_limits(rt: HostRuntime) {
    let alloc = rt.alloc();
    for (wanted, others, maps, fault) in &FAULTS {
        let settings = settings(&rt, alloc, wanted);
        let limits = limits_of(&rt, alloc, *others, maps);
        assert_eq!(&rt; limits.check(&settings).err(), *fault);
        assert_eq!(&rt;
            FixedChannel::with_limits(alloc, settings, limits).err(),
            *fault
        );
    }
}
