//! Cutting a unit into packets.

ghost use Rattle.std.specs.Prelude.{◌≡◌, ◌<◌, ◌∷◌, [], length, IfOk, IfSome, IfNone};
ghost use Rattle.std.specs.List.{AllByRecursion};
ghost use Rattle.tc_packet.specs.PacketFields.{HasFields, octets_of};
ghost use Rattle.tc_packet.specs.SpacePacket.{IsCut, packets_of, rest_of};

use crate::fault::NoMemory;
use crate::packet::{Cut, Packet, read_packet};
use std::alloc::Global;

/// Cuts packets from the front of a unit until the rest doesn't begin with a packet. Only the list of packets is
/// allocated, and no octet is copied.
pub fn cut(alloc: Global, unit: &[u8]) -> Result<Cut<'_>, NoMemory>
    ensures cut { IfOk result (λ c. IsCut unit.now (octets_of c.packets.items) c.rest.now) }
    ensures fields { IfOk result (λ c. AllByRecursion HasFields c.packets.items) }
{
    let mut packets = Vec::new(alloc);
    let mut rest = unit;
    while let Some(packet) = read_packet(rest) {
        packets.push(packet)?;
        let (_, after) = rest.split_at(packet.octets.len());
        rest = after;
    }
    Ok(Cut { packets, rest })
}

/// Returns the first packet of a unit, and the octets after it. A cut of those octets yields the unit's other packets
/// and its rest. Returns `None` if the unit doesn't begin with a packet, in which case the whole unit is rest. Nothing
/// is allocated.
pub fn next_packet(unit: &[u8]) -> Option<(Packet<'_>, &[u8])>
    ensures packets { IfSome result (λ r. packets_of unit.now ≡ r.0.octets.now ∷ packets_of r.1.now) }
    ensures rest { IfSome result (λ r. rest_of unit.now ≡ rest_of r.1.now) }
    ensures fields { IfSome result (λ r. HasFields r.0) }
    ensures shorter { IfSome result (λ r. length r.1.now < length unit.now) }
    ensures no_packets { IfNone result (packets_of unit.now ≡ []) }
    ensures all_rest { IfNone result (rest_of unit.now ≡ unit.now) }
{
    match read_packet(unit) {
        None => None,
        Some(packet) => {
            let (_, after) = unit.split_at(packet.octets.len());
            Some((packet, after))
        }
    }
}
