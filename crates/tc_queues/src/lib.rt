//! The settings, the replies and the queues of a channel.
//!
//! [`deliver_ended`] delivers a unit to the packet queues or to the unit queue of its MAP. Both kinds are [`Queues`].
//! Settings and replies are plain data, and [`Tick`] counts the steps that a call takes.
//!
//! The items of a queue lie in rooms that are created at the start or in rooms that grow. One implementation serves
//! both. [`Slots`] are the items of a queue, each in a [`Room`](tc_packet::Room) of its own. In rooms that grow, the
//! packets of a unit are first staged behind the items that wait. Once all of them are staged, they are committed and
//! count ([`Slots::commit`]). If memory runs out before that, they are rolled back ([`Slots::roll_back`]), and
//! everything is as it was before the call. All other items count at once.
//!
//! The rooms of a queue are a ring made of the kit's `circular_buffer`. The type around this ring has no call that
//! grows the ring, and `ring.rt` is the only file whose code could make it grow. If rooms are created at the start,
//! memory is therefore allocated only when they are created, and no other call can run out of memory.
#![tactic(auto)]

mod committing;
mod delivering;
mod items;
mod memory;
mod new_queues;
mod places;
mod queue;
mod queues;
mod reply;
mod ring;
mod settings;
mod slots;
mod staging;
mod steps;
mod taking;

pub use items::{Items, Octets};
pub use memory::{LARGEST_FIELD, QUEUE_WORDS, ROOM_WORDS, RUN_WORDS};
pub use new_queues::{empty_queues, empty_unit_queues};
pub use queue::Queue;
pub use queues::{Queues, deliver_ended, deliver_nothing};
pub use reply::{
    Delivery, FrameReply, NoMemory, NotCopied, ReleaseFault, TakeFault, TakeUnitFault,
};
#[doc(hidden)]
pub use ring::Ring;
pub use settings::{LentSettings, MapSetting, QueueSetting, Settings, SettingsFault};
pub use slots::Slots;
pub use steps::{Steps, Tick};
