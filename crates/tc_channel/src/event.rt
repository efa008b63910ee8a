//! Events of a journal.

use tc_queues::Octets;

/// An operation that a channel carried out. An operation that it refused is no event.
#[derive(Debug, Drop, PartialEq, Eq)]
pub enum Event {
    /// The octets of a frame that came in, without fill. They are kept whether or not FARM-1 accepted the frame.
    Frame(Octets),
    /// The release of the oldest data field from the buffer.
    Release,
    /// A take of the oldest packet from the queue with this APID.
    Take(u16),
    /// A take of the oldest unit from the queue of this chosen MAP.
    TakeUnit(u8),
}
