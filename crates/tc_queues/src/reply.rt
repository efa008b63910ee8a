//! Replies of a channel's calls.

ghost use Rattle.std.specs.Prelude.{◌≡◌};
ghost use Rattle.tc_queues.specs.declared.reply.ReleaseFault.TheVariants as release_faults;
ghost use Rattle.tc_queues.specs.declared.reply.TakeFault.TheVariants as take_faults;
ghost use Rattle.tc_queues.specs.declared.reply.TakeUnitFault.TheVariants as take_unit_faults;

use std::alloc::AllocError;
use tc_link::Act;
use thiserror::Error;

/// The outcome for the unit that a call completed. The two numbers count the packets of the unit, or the whole unit if
/// its MAP is chosen. If the call completed no unit, they are 0 and `rest` is false.
#[derive(Clone, Copy, Debug, PartialEq, Eq)]
pub struct Delivery {
    /// The number of packets that were queued, or 1 for a unit that was queued whole.
    pub queued: u32,
    /// The number of packets that were dropped because they aren't telecommands, there is no queue with their APID, or
    /// the queue has no room. The number is 1 for a whole unit without room in its queue.
    pub dropped: u32,
    /// Whether octets were left after the last packet. This is never true for a whole unit.
    pub rest: bool,
}

/// The outcome for a frame.
#[derive(Clone, Copy, Debug, PartialEq, Eq)]
pub struct FrameReply {
    /// FARM-1's event, and whether the frame was accepted.
    pub act: Act,
    /// The outcome for the unit that the frame ended. A Type-AD frame ends no unit before its data field is released.
    pub delivery: Delivery,
}

/// A request for memory that failed.
#[derive(Clone, Copy, Debug, PartialEq, Eq, Error)]
#[error("no memory")]
pub struct NoMemory;

/// A reason why no data field was released.
#[derive(Clone, Copy, Debug, PartialEq, Eq, Error)]
pub enum ReleaseFault {
    #[error("the buffer is empty")]
    Empty,
    #[error("no memory")]
    NoMemory,
}

/// A reason why no packet was taken.
#[derive(Clone, Copy, Debug, PartialEq, Eq, Error)]
pub enum TakeFault {
    #[error("no queue with that application process identifier")]
    NoQueue,
    #[error("the queue is empty")]
    Empty,
    #[error("no memory")]
    NoMemory,
}

/// A reason why no unit was taken.
#[derive(Clone, Copy, Debug, PartialEq, Eq, Error)]
pub enum TakeUnitFault {
    #[error("no queue for that multiplexer access point")]
    NoMap,
    #[error("the queue is empty")]
    Empty,
    #[error("no memory")]
    NoMemory,
}

/// A reason why no item was copied out of a queue.
#[derive(Clone, Copy, Debug, PartialEq, Eq)]
pub enum NotCopied {
    /// No queue has that key.
    NoQueue,
    /// No item waits in the queue.
    Empty,
    /// The oldest item is longer than the slice into which it is to be copied. The number is the item's length in
    /// octets. The item still waits.
    NoRoom(usize),
}

impl From<AllocError> for NoMemory {
    fn from(_error: AllocError) -> NoMemory {
        NoMemory
    }
}

impl From<tc_packet::NoMemory> for NoMemory {
    fn from(_error: tc_packet::NoMemory) -> NoMemory {
        NoMemory
    }
}

impl From<AllocError> for ReleaseFault {
    ghost from_gives = { λ _ e. e ≡ release_faults.NoMemory };

    fn from(_error: AllocError) -> ReleaseFault {
        ReleaseFault::NoMemory
    }
}

impl From<NoMemory> for ReleaseFault {
    ghost from_gives = { λ _ e. e ≡ release_faults.NoMemory };

    fn from(_error: NoMemory) -> ReleaseFault {
        ReleaseFault::NoMemory
    }
}

impl From<AllocError> for TakeFault {
    ghost from_gives = { λ _ e. e ≡ take_faults.NoMemory };

    fn from(_error: AllocError) -> TakeFault {
        TakeFault::NoMemory
    }
}

impl From<AllocError> for TakeUnitFault {
    ghost from_gives = { λ _ e. e ≡ take_unit_faults.NoMemory };

    fn from(_error: AllocError) -> TakeUnitFault {
        TakeUnitFault::NoMemory
    }
}
