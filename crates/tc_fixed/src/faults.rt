//! The reasons why a call returns nothing. Running out of memory isn't one of them.

ghost use Rattle.std.specs.Prelude.{◌≡◌};

use tc_channel::NotCopied;
use thiserror::Error;

/// The reason why no data field was released.
#[derive(Clone, Copy, Debug, PartialEq, Eq, Error)]
pub enum NothingReleased {
    #[error("the buffer is empty")]
    Empty,
}

/// The reason why no packet was taken.
#[derive(Clone, Copy, Debug, PartialEq, Eq, Error)]
pub enum NothingTaken {
    #[error("no queue with that application process identifier")]
    NoQueue,
    #[error("the queue is empty")]
    Empty,
    /// The packet has this number of octets, and the place to which it would be copied has fewer. The packet still
    /// waits.
    #[error("no room for the packet")]
    NoRoom(usize),
}

/// The reason why no unit was taken.
#[derive(Clone, Copy, Debug, PartialEq, Eq, Error)]
pub enum NoUnitTaken {
    #[error("no queue for that multiplexer access point")]
    NoMap,
    #[error("the queue is empty")]
    Empty,
    /// The unit has this number of octets, and the place to which it would be copied has fewer. The unit still waits.
    #[error("no room for the unit")]
    NoRoom(usize),
}

/// The conversion of a fault that is common to both kinds of queues into the fault of a packet queue.
impl From<NotCopied> for NothingTaken {
    ghost use Rattle.tc_fixed.specs.Taking.{packet_fault_of};

    ghost from_gives = { λ fault e. e ≡ packet_fault_of fault };

    fn from(fault: NotCopied) -> NothingTaken {
        match fault {
            NotCopied::NoQueue => NothingTaken::NoQueue,
            NotCopied::Empty => NothingTaken::Empty,
            NotCopied::NoRoom(needed) => NothingTaken::NoRoom(needed),
        }
    }
}

/// The conversion of a fault that is common to both kinds of queues into the fault of a MAP's unit queue.
impl From<NotCopied> for NoUnitTaken {
    ghost use Rattle.tc_fixed.specs.Taking.{unit_fault_of};

    ghost from_gives = { λ fault e. e ≡ unit_fault_of fault };

    fn from(fault: NotCopied) -> NoUnitTaken {
        match fault {
            NotCopied::NoQueue => NoUnitTaken::NoMap,
            NotCopied::Empty => NoUnitTaken::Empty,
            NotCopied::NoRoom(needed) => NoUnitTaken::NoRoom(needed),
        }
    }
}
