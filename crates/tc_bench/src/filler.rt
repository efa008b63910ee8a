//! A channel, and the frames that are brought to it.

use crate::form::Form;
use anyhow::{Result, anyhow};
use tc_channel::{Delivery, FrameReply};
use tc_link::{Act, read_frame};

/// The sequence flags in a segment header (CCSDS 232.0-B, 4.1.3.2.2), which are its two highest bits.
pub(crate) const CONTINUING: u8 = 0x00;

pub(crate) const FIRST: u8 = 0x40;

pub(crate) const LAST: u8 = 0x80;

pub(crate) const UNSEGMENTED: u8 = 0xc0;

/// The MAP on which packets are sent. No plan chooses it.
pub(crate) const PACKETS: u8 = 63;

/// The largest number of a unit's octets in one segment.
pub(crate) const BODY: u16 = 1_018;

/// The number in the length field of a packet that is the largest unit.
pub(crate) const LARGEST: u16 = 0xffff;

/// A data field: its segment header or `None`, the number in the length field of each packet of its unit, and the
/// number of its octets that belong to the unit.
pub(crate) type Field = (Option<u8>, u16, u16);

/// The numbers of items of a unit that are queued and that are dropped.
pub(crate) type Items = (u32, u32);

pub(crate) const NOTHING: Items = (0, 0);

pub(crate) const ONE: Items = (1, 0);

pub(crate) const DROPPED: Items = (0, 1);

/// A kind of frames, by the way in which FARM-1 treats them (CCSDS 232.0-B, 4.1.2.3).
#[derive(Clone, Copy)]
pub(crate) enum Kind {
    /// The Type-AD frame that is expected, for which there is room.
    Next,
    /// The Type-AD frame that is expected, for which there is room, and whose data field is then released.
    Released,
    /// A Type-AD frame whose N(S) is one less than the expected one. It is discarded.
    Again,
    /// A Type-BD frame.
    Bypassing,
    /// The control command Unlock.
    Unlock,
}

// Returns the reply that FARM-1's table gives for a frame of this kind, with these numbers of items.
fn reply_of(kind: Kind, items: Items) -> FrameReply {
    let (event, accepted, (queued, dropped)) = match kind {
        Kind::Next => (1, true, items),
        Kind::Released => (1, true, NOTHING),
        Kind::Again => (4, false, items),
        Kind::Bypassing => (6, true, items),
        Kind::Unlock => (7, false, items),
    };
    FrameReply {
        act: Act { event, accepted },
        delivery: Delivery {
            queued,
            dropped,
            rest: false,
        },
    }
}

/// A channel, with the state of its sender. The state is the N(S) of the next Type-AD frame, the application of the
/// packets, and the place in the unit at which the next data field begins.
#[derive(Drop)]
pub(crate) struct Filler<F: Form> {
    pub(crate) channel: F,
    pub(crate) ns: u8,
    pub(crate) apid: u16,
    pub(crate) from: usize,
}

impl<F: Form> Filler<F> {
    /// Creates a filler for a channel whose V(R) is 0.
    pub(crate) fn new(channel: F) -> Filler<F> {
        Filler {
            channel,
            ns: 0,
            apid: 0,
            from: 0,
        }
    }

    // Returns the octet at this place of a data field's part of its unit. Octets after the headers of packets are 0.
    fn octet(&self, length: u16, place: usize) -> u8 {
        let [first, second] = (self.apid % 2_048).to_be_bytes();
        let [fifth, sixth] = length.to_be_bytes();
        match self.from.wrapping_add(place) % (7 + usize::from(length)) {
            0 => 0x10 | first,
            1 => second,
            2 => 0xc0,
            4 => fifth,
            5 => sixth,
            _ => 0,
        }
    }

    /// Returns the octets of a frame of this kind for spacecraft 42 and virtual channel 1, and fill after it.
    pub(crate) fn octets(&self, kind: Kind, (header, length, count): Field) -> [u8; 1024] {
        let (flags, ns) = match kind {
            Kind::Next | Kind::Released => (0x00, self.ns),
            Kind::Again => (0x00, self.ns.wrapping_sub(1)),
            Kind::Bypassing => (0x20, 0),
            Kind::Unlock => (0x30, 0),
        };
        let front = if header.is_some() { 6 } else { 5 };
        let end = (front + usize::from(count)).min(1_024);
        let mut octets = [0; 1024];
        octets[0] = flags;
        octets[1] = 42;
        octets[2] = 4 + ((end - 1) / 256) as u8;
        octets[3] = ((end - 1) % 256) as u8;
        octets[4] = ns;
        octets[5] = header.unwrap_or(0);
        for (place, octet) in octets[front..end].iter_mut().enumerate() {
            *octet = self.octet(length, place);
        }
        octets
    }

    /// Brings a frame of this kind, and checks the reply. For `Released`, it then releases the data field. `items` has
    /// the numbers of items of the unit that must be queued and dropped.
    pub(crate) fn bring(&mut self, kind: Kind, field: Field, items: Items) -> Result<()> {
        let octets = self.octets(kind, field);
        let reply = self.channel.bring(&read_frame(&octets)?)?;
        if reply != reply_of(kind, items) {
            return Err(anyhow!("answered {reply:?}"));
        }
        match kind {
            Kind::Next => self.ns = self.ns.wrapping_add(1),
            Kind::Released => {
                self.ns = self.ns.wrapping_add(1);
                self.release(items)?;
            }
            _ => {}
        }
        Ok(())
    }

    /// Releases a data field, and checks the numbers of items of its unit that are queued and dropped.
    pub(crate) fn release(&mut self, items: Items) -> Result<()> {
        let delivery = self.channel.let_out()?;
        if delivery == reply_of(Kind::Bypassing, items).delivery {
            Ok(())
        } else {
            Err(anyhow!("released {delivery:?}"))
        }
    }

    /// Opens a run of 65,542 octets, as many as the largest unit has. The first two segments have 1,024 octets
    /// together. Doubled from there, the room of the run comes to 65,536 octets, which are six too few. So the last
    /// doubling makes the room almost twice as large as necessary.
    pub(crate) fn open(&mut self, kind: Kind, map: u8) -> Result<()> {
        self.bring(kind, (Some(FIRST | map), LARGEST, 6), NOTHING)?;
        for _ in 0..64 {
            self.bring(kind, (Some(CONTINUING | map), LARGEST, BODY), NOTHING)?;
        }
        self.bring(kind, (Some(CONTINUING | map), LARGEST, 384), NOTHING)
    }
}
