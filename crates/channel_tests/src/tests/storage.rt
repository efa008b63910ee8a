//! The number of bytes that are requested, worked out by hand from the sizes on x86-64. A room has 32 bytes beside its
//! octets, a stream has 40 bytes beside its octets, and a queue has 64 bytes.

use super::limits::limits_of;
use super::*;
use tc_fixed::{LentLimits, storage, storage_of_lent, storage_with_lent, storage_with_limits};

// Settings with two queues of 4 packets and a buffer of 4, with segment headers.
const TWO_QUEUES: Wanted<'static> = Wanted {
    buffer: 4,
    queues: &[(5, 4), (6, 4)],
    ..WANTED
};

// Settings like `TWO_QUEUES`, but without segment headers.
const PLAIN_QUEUES: Wanted<'static> = Wanted {
    segmented: false,
    ..TWO_QUEUES
};

// Settings with four queues of 8 packets and a buffer of 8.
const USUAL: Wanted<'static> = Wanted {
    buffer: 8,
    queues: &[(5, 8), (6, 8), (7, 8), (8, 8)],
    ..WANTED
};

// Without segment headers, the buffer takes 4 * (32 + 1,019) bytes, the queues take 2 * 64, and the packets
// 8 * (32 + 1,019). With segment headers, packets have 65,542 octets, and the streams take 128 * (40 + 65,542). The
// queue of a MAP takes as much as any other queue. `BOTH` has a buffer of 1, two queues, and rooms for four items.
static OCTETS: [(Wanted<'static>, u64); 4] = [
    (PLAIN_QUEUES, 12_740),
    (TWO_QUEUES, 8_923_420),
    (BOTH, 8_657_971),
    (USUAL, 10_501_528),
];

// Without limits by MAP, all three functions return the same number, whether the lists are owned or lent.
#[test]
fn octets_without_limits(rt: HostRuntime) {
    let none = Limits::none(rt.alloc());
    for (wanted, octets) in &OCTETS {
        let settings = settings(&rt, rt.alloc(), wanted);
        assert_eq!(&rt; storage(&settings), *octets);
        assert_eq!(&rt; storage_of_lent(settings.lent()), *octets);
        assert_eq!(&rt; storage_with_limits(&settings, &none), *octets);
    }
}

// Units of MAP 0 have at most 1,024 octets, and other MAPs have no units. The buffer then takes 8 * (32 + 1,019) bytes,
// the streams take 128 * 40 + 2 * 1,024, the queues take 4 * 64, and the packets take 32 * (32 + 1,024).
#[test]
fn octets_within_limits(rt: HostRuntime) {
    let settings = settings(&rt, rt.alloc(), &USUAL);
    let maps = [MapLimit {
        map: 0,
        octets: 1_024,
    }];
    let own = limits_of(&rt, rt.alloc(), 0, &maps);
    assert_eq!(&rt; storage_with_limits(&settings, &own), 49_624);
    let lent = LentLimits {
        others: 0,
        maps: &maps,
    };
    assert_eq!(&rt; storage_with_lent(settings.lent(), lent), 49_624);
}
