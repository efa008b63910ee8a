//! Tests of the report of a new channel, and of copies of octets into the library's type and out of it.

use super::*;

fn check_new<C: Form, T: Abort + Print>(rt: &T, alloc: Global) {
    let wanted = Wanted { first: 7, ..BOTH };
    let channel: C = new_channel(rt, alloc, "a channel", &wanted);
    assert!(rt; *channel.made_with() == settings(rt, alloc, &wanted));
    assert_eq!(rt; channel.state().vr, 7);
    assert_eq!(rt; channel.events_and_fields(), (0, 0));
    assert_eq!(rt; (channel.packets(5), channel.packets(6)), (Some(0), None));
    assert_eq!(rt;
        (channel.whole_units(3), channel.whole_units(4)),
        (Some(0), None)
    );
}

#[test]
fn what_a_new_channel_reports(rt: HostRuntime) {
    check_new::<Channel, HostRuntime>(&rt, rt.alloc());
    check_new::<CountingChannel, HostRuntime>(&rt, rt.alloc());
    check_new::<FixedChannel, HostRuntime>(&rt, rt.alloc());
}

#[test]
fn octets_in_and_out(rt: HostRuntime) {
    let octets = Octets::copied(rt.alloc(), &PACKET).expect(&rt, "an answer");
    assert_eq!(&rt; octets.len(), 7);
    assert!(&rt; !octets.is_empty());
    assert_eq!(&rt; octets.as_slice(), PACKET.as_slice());
    let vec: Vec<u8> = octets.into();
    assert_eq!(&rt; vec.as_slice(), PACKET.as_slice());
}
