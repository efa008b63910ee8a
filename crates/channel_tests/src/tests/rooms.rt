//! Rooms of both kinds, which are of a fixed size or grow, and items in rooms.

use super::*;
use tc_packet::{FixedRoom, GrowingRoom, Room};
use tc_queues::Slots;

fn check_room<R: Room, T: Abort>(rt: &T, alloc: Global) {
    let mut room: R = Room::with_size(alloc, 4).expect(rt, "a room");
    assert_eq!(rt; (room.size(), room.as_slice().len()), (4, 0));
    room.fill(&[1, 2, 3]).expect(rt, "octets");
    room.fill(&[4, 5]).expect(rt, "octets");
    room.append(&[6, 7]).expect(rt, "octets");
    assert_eq!(rt; room.as_slice(), [4, 5, 6, 7].as_slice());
    room.cut(3);
    assert_eq!(rt; (room.size(), room.as_slice()), (4, [4, 5, 6].as_slice()));
    room.clear();
    assert_eq!(rt; room.as_slice().len(), 0);
}

#[test]
fn octets_in_a_room(rt: HostRuntime) {
    check_room::<FixedRoom, HostRuntime>(&rt, rt.alloc());
    check_room::<GrowingRoom, HostRuntime>(&rt, rt.alloc());
}

// Two items are put into two rooms. A third item finds no room until the first item is taken out.
#[test]
fn items_in_two_rooms(rt: HostRuntime) {
    let mut slots: Slots<FixedRoom> = Slots::with_capacity(rt.alloc(), 2, 3).expect(&rt, "rooms");
    assert_eq!(&rt; (slots.capacity(), slots.size(), slots.len()), (2, 3, 0));
    assert!(&rt; slots.is_empty());
    assert_eq!(&rt; slots.front(), None);
    assert!(&rt; slots.stage(&[1, 2, 3]).expect(&rt, "an item"));
    assert!(&rt; slots.stage(&[]).expect(&rt, "an item"));
    assert_eq!(&rt; (slots.len(), slots.is_empty()), (0, true));
    slots.commit();
    assert!(&rt; !slots.stage(&[9]).expect(&rt, "an answer"));
    assert_eq!(&rt; (slots.len(), slots.is_empty()), (2, false));
    assert_eq!(&rt; slots.front(), Some([1, 2, 3].as_slice()));
    slots.pop_front();
    assert!(&rt; slots.stage(&[4]).expect(&rt, "an item"));
    slots.commit();
    slots.pop_front();
    assert_eq!(&rt; slots.front(), Some([4].as_slice()));
}

// The first of three items waits, and the others are staged and rolled back. Two more items then find room, and a third
// one finds none.
#[test]
fn items_staged_and_rolled_back(rt: HostRuntime) {
    let mut slots: Slots<GrowingRoom> = Slots::with_capacity(rt.alloc(), 3, 3).expect(&rt, "rooms");
    assert!(&rt; slots.stage(&[1]).expect(&rt, "an item"));
    slots.commit();
    assert!(&rt; slots.stage(&[2]).expect(&rt, "an item"));
    assert!(&rt; slots.stage(&[3]).expect(&rt, "an item"));
    slots.roll_back();
    assert_eq!(&rt; (slots.len(), slots.front()), (1, Some([1].as_slice())));
    assert!(&rt; slots.put(&[4]).expect(&rt, "an item"));
    assert!(&rt; slots.put(&[5]).expect(&rt, "an item"));
    assert!(&rt; !slots.put(&[6]).expect(&rt, "an answer"));
    slots.pop_front();
    assert_eq!(&rt; (slots.len(), slots.front()), (2, Some([4].as_slice())));
}
