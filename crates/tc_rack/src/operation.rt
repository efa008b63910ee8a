//! Operations on channels.

use tc_channel::Octets;

/// An operation on one of a spacecraft's channels.
#[derive(Drop)]
pub enum Operation {
    /// The octets of a frame, which are brought to the channel that the frame names.
    Frame(Octets),
    /// A release of the oldest data field from the buffer of the channel with this id.
    Release(u8),
    /// A take of a channel's oldest packet with an APID. The fields are the channel's id and the APID.
    Take(u8, u16),
    /// A take of a channel's oldest unit of a MAP. The fields are the channel's id and the MAP's id.
    Unit(u8, u8),
    /// A report of the CLCW of the channel with this id, with the flags of its link.
    Clcw(u8),
}
