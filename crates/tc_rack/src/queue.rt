//! The queues of a channel.

/// The identifier of a queue of a channel.
#[derive(Clone, Copy)]
pub(crate) enum QueueId {
    /// The queue of the packets with an APID.
    Packets(u16),
    /// The queue of the units of a chosen MAP.
    Units(u8),
}
