//! Packets.

ghost use Rattle.std.specs.Prelude.{◌≡◌, ◌<◌, ◌≤◌, ◌+◌, ◌++◌, length};
ghost use Rattle.tc_packet.specs.SpacePacket.{version_of, named_length};
ghost use Rattle.tc_edges.specs.Write.Packets.{IsPacketOf, packet_header_of};

/// The fields of a packet's primary header, apart from the version and the length (CCSDS 133.0-B, 4.1.3).
#[derive(Clone, Copy, Debug, PartialEq, Eq)]
pub struct PacketHeader {
    /// Whether the packet is a telecommand packet (by the packet type), rather than a telemetry packet.
    pub telecommand: bool,
    /// The secondary header flag.
    pub secondary: bool,
    /// The application process identifier, at most 2,047. Idle packets have 2,047.
    pub apid: u16,
    /// The sequence flags, at most 3.
    pub flags: u8,
    /// The sequence count or the packet name, at most 16,383.
    pub count: u16,
}

/// Returns the primary header of the packet that has this header and this packet data field (CCSDS 133.0-B, 4.1.3). The
/// packet consists of these six octets and the packet data field, which must have 1 to 65,536 octets.
pub fn packet_front(header: &PacketHeader, field: &[u8]) -> [u8; 6]
    requires apid { header.now.apid < 2048 }
    requires flags { header.now.flags < 4 }
    requires count { header.now.count < 16384 }
    requires least { 1 ≤ length field.now }
    requires most { length field.now ≤ 65536 }
    ensures packet { IsPacketOf (result ++ field.now) header.now field.now }
    ensures six { length result ≡ 6 }
{
    primary_header(header, (field.len() - 1) as u16)
}

// Returns the primary header of a packet whose packet data field has `others` + 1 octets.
fn primary_header(header: &PacketHeader, others: u16) -> [u8; 6]
    requires apid { header.now.apid < 2048 }
    requires flags { header.now.flags < 4 }
    requires count { header.now.count < 16384 }
    ensures six { length result ≡ 6 }
    ensures header { packet_header_of result ≡ header.now }
    ensures version { version_of result ≡ 0 }
    ensures named { named_length result ≡ others + 7 }
{
    let first = u16::from(header.telecommand) * (1 << 12)
        + u16::from(header.secondary) * (1 << 11)
        + header.apid;
    let second = u16::from(header.flags) * (1 << 14) + header.count;
    let [a, b] = first.to_be_bytes();
    let [c, d] = second.to_be_bytes();
    let [e, f] = others.to_be_bytes();
    [a, b, c, d, e, f]
}
