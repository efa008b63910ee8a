//! Telecommand packets.

ghost use Rattle.std.specs.Prelude.{◌≡◌, ◌<◌, ◌≤◌, None, length, unwrap_or, IfOk, IfErr, OnOk};
ghost use Rattle.tc_make.specs.Packets.{IsMadePacket, packet_reason_of};

use crate::fault::Reason;
use std::alloc::Global;
use tc_edges::write::{PacketHeader, packet_front};

/// Makes the telecommand packet of this application with this sequence count and packet data field (CCSDS 133.0-B,
/// 4.1).
///
/// The packet is unsegmented, and its secondary header flag is 0. Its packet data field must have 1 to 65,536 octets.
/// Only the packet itself is allocated.
pub fn make_packet(alloc: Global, apid: u16, count: u16, octets: &[u8]) -> Result<Vec<u8>, Reason>
    ensures packet { IfOk result (λ packet. IsMadePacket packet.items apid count octets.now) }
    ensures made { OnOk result (packet_reason_of apid count octets.now ≡ None) }
    ensures refused { IfErr result (λ reason. reason ≡ unwrap_or (packet_reason_of apid count octets.now) Reason.NoMemory) }
{
    if apid > 2047 {
        return Err(Reason::BadApid);
    }
    if count > 16_383 {
        return Err(Reason::BadCount);
    }
    if octets.is_empty() {
        return Err(Reason::NoData);
    }
    if octets.len() > 65_536 {
        return Err(Reason::TooMuchData);
    }
    let mut packet = Vec::with_capacity(alloc, octets.len() + 6).map_err(|_| Reason::NoMemory)?;
    let header = PacketHeader {
        telecommand: true,
        secondary: false,
        apid,
        flags: 3,
        count,
    };
    let front = packet_front(&header, octets);
    packet.extend_from_slice(&front).unwrap();
    packet.extend_from_slice(octets).unwrap();
    Ok(packet)
}
