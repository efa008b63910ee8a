//! An event whose octets are lent.

/// An operation that a channel carried out. Unlike an [`Event`](crate::Event) it borrows its octets, because no journal
/// has kept them yet.
#[derive(Clone, Copy, Debug)]
pub enum LentEvent<'a> {
    /// A frame that came in, as its octets without fill.
    Frame(&'a [u8]),
    /// The release of the oldest data field from the buffer.
    Release,
    /// A take of the oldest packet from the queue with this APID.
    Take(u16),
    /// A take of the oldest unit from the queue of this chosen MAP.
    TakeUnit(u8),
}
