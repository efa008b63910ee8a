//! The steps of calls, counted while they run.

use super::*;
use tc_channel::Tick;

// A counter of steps, up to 2^64 - 1.
#[derive(Drop)]
struct Counted {
    steps: u64,
}

impl Tick for Counted {
    ghost use Rattle.std.specs.Prelude.{false};

    ghost taken = { λ c. c.steps };

    ghost counts = { false };

    fn tick(&mut self) {
        self.steps = self.steps.saturating_add(1);
    }
}

// The Type-BD frame takes three steps: the queue of MAP 3 is looked at, the one packet is cut, and the packet's queue
// is found. A frame that is buffered takes no step, and the release of its data field takes three. A take takes one
// step, in which it finds its queue.
#[test]
fn steps_of_each_call(rt: HostRuntime) {
    let settings = settings(&rt, rt.alloc(), &BOTH);
    let mut channel = FixedChannel::new(rt.alloc(), settings).expect(&rt, "a channel");
    let mut count = Counted { steps: 0 };
    let packet = read_frame(&BD_PACKET).expect(&rt, "a frame");
    assert_eq!(rt; channel.frame_with_steps(&packet, &mut count), DELIVERED);
    assert_eq!(rt; count.steps, 3);
    let buffered = read_frame(&FRAME).expect(&rt, "a frame");
    assert_eq!(rt; channel.frame_with_steps(&buffered, &mut count), BUFFERED);
    assert_eq!(rt; count.steps, 3);
    assert_eq!(rt; channel.release_with_steps(&mut count), Ok(ONE));
    assert_eq!(rt; count.steps, 6);
    let mut octets = [0; 16];
    assert_eq!(rt; channel.take_with_steps(5, &mut octets, &mut count), Ok(7));
    assert_eq!(rt; count.steps, 7);
    assert_eq!(rt;
        channel.take_unit_with_steps(3, &mut octets, &mut count),
        Err(NoUnitTaken::Empty)
    );
    assert_eq!(rt; count.steps, 8);
}
