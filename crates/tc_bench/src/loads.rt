//! The load of a bare channel in each round.

use crate::filler::{BODY, CONTINUING, FIRST, LAST, UNSEGMENTED};
use crate::sender::SCID;
use crate::station::APID;
use anyhow::Result;
use std::alloc::Global;
use tc_channel::Octets;
use tc_link::{Header, write_frame};

/// The number of packets of seven octets in the data field of a load with small packets.
pub(crate) const PACKETS: usize = 100;

// Appends a packet of the application. `length` is the number in its length field, which is one less than the number of
// octets of its data.
fn add_packet(octets: &mut Vec<u8>, length: u16) -> Result<()> {
    let [high, low] = length.to_be_bytes();
    octets.extend_from_slice(&[0x10, APID as u8, 0xc0, 0, high, low])?;
    for _ in 0..=length {
        octets.push(0xaa)?;
    }
    Ok(())
}

// Returns the Type-BD frame with this data field.
fn bypassing(alloc: Global, field: &[u8]) -> Result<Octets> {
    let header = Header {
        bypass: true,
        control: false,
        scid: SCID,
        vcid: 1,
        ns: 0,
    };
    Ok(Octets::from(write_frame(alloc, &header, field)?))
}

/// Returns the frames that carry the segments of a unit of `packets` packets. `length` is the number in the length
/// field of each packet.
pub(crate) fn frames(alloc: Global, packets: usize, length: u16) -> Result<Vec<Octets>> {
    let mut unit = Vec::new(alloc);
    for _ in 0..packets {
        add_packet(&mut unit, length)?;
    }
    let count = unit.len().div_ceil(usize::from(BODY));
    let mut frames = Vec::with_capacity(alloc, count)?;
    for (place, body) in unit.chunks(usize::from(BODY)).enumerate() {
        let header = match place {
            0 if count == 1 => UNSEGMENTED,
            0 => FIRST,
            _ if place + 1 == count => LAST,
            _ => CONTINUING,
        };
        let mut field = vec![in alloc; header]?;
        field.extend_from_slice(body)?;
        frames.push(bypassing(alloc, &field)?)?;
    }
    Ok(frames)
}
