//! Space packets (CCSDS 133.0-B, 4.1).

ghost use Rattle.std.specs.Prelude.{◌≡◌, ℕ, length, take, IfSome, IfNone};
ghost use Rattle.tc_packet.specs.PacketFields.{HasFields};
ghost use Rattle.tc_packet.specs.SpacePacket.{IsPacket};

/// A packet: the fields of its primary header, and all of its octets.
#[derive(Clone, Copy, Debug, PartialEq, Eq)]
pub struct Packet<'a> {
    /// Whether the packet is a telecommand packet (by the packet type), rather than a telemetry packet.
    pub telecommand: bool,
    /// The secondary header flag.
    pub secondary: bool,
    /// The application process identifier, at most 2,047. Idle packets have 2,047.
    pub apid: u16,
    /// The sequence flags, at most 3.
    pub flags: u8,
    /// The sequence count or the packet name, at most 16,383.
    pub count: u16,
    /// The whole packet, its primary header included.
    pub octets: &'a [u8],
}

/// The packets at the front of a unit, and the rest of the unit.
#[derive(Debug, Drop, PartialEq, Eq)]
pub struct Cut<'a> {
    pub packets: Vec<Packet<'a>>,
    pub rest: &'a [u8],
}

/// Reads the packet at the front of the octets. Returns `None` if there are fewer than 7 octets, if the version number
/// isn't 0, or if the packet is longer than the octets. The secondary header, the sequence flags and the count aren't
/// checked.
pub fn read_packet(octets: &[u8]) -> Option<Packet<'_>>
    ensures packet { IfSome result (λ p. IsPacket p.octets.now) }
    ensures front { IfSome result (λ p. p.octets.now ≡ take (length p.octets.now) octets.now) }
    ensures fields { IfSome result HasFields }
    ensures none { IfNone result ((n : ℕ) → IsPacket (take n octets.now) → ⊥) }
{
    if octets.len() < 7 {
        return None;
    }
    let first = u16::from_be_bytes([octets[0], octets[1]]);
    let second = u16::from_be_bytes([octets[2], octets[3]]);
    let length = u16::from_be_bytes([octets[4], octets[5]]) as usize + 7;
    if first >> 13 != 0 || length > octets.len() {
        return None;
    }
    Some(Packet {
        telecommand: (first >> 12) & 1 == 1,
        secondary: (first >> 11) & 1 == 1,
        apid: first & 0x7ff,
        flags: (second >> 14) as u8,
        count: second & 0x3fff,
        octets: &octets[..length],
    })
}
