//! Space packets at the front of octets.

ghost use Rattle.std.specs.Prelude.{◌≡◌, ◌≢◌, ℕ, List, length, take};
ghost use Rattle.tc_packet.specs.SpacePacket.{IsPacket};
ghost use Rattle.tc_c_base.specs.Status.{code_of};
ghost use Rattle.tc_c.specs.Packet.{packet_record, no_packet};

use tc_c_base::{Status, code};
use tc_packet::read_packet;

/// The fields of the primary header of the packet at the front of octets (CCSDS 133.0-B, 4.1.3), and its length. Flags
/// are 0 or 1.
#[repr(C)]
#[derive(Clone, Copy)]
pub struct PacketRecord {
    pub status: u32,
    /// The number of octets in the packet, 7 to 65,542, of which the first 6 are its header. It is 0 if the octets
    /// begin with no packet.
    pub length: u32,
    /// The application process identifier, at most 2,047. The identifier 2,047 marks idle packets.
    pub apid: u16,
    /// The sequence count or the name, at most 16,383.
    pub count: u16,
    /// The packet type: 1 for telecommand, 0 for telemetry.
    pub telecommand: u8,
    /// The secondary header flag.
    pub secondary: u8,
    /// The sequence flags, at most 3.
    pub sequence: u8,
}

/// Reads the packet at the front of the octets (CCSDS 133.0-B, 4.1). Octets that follow the packet don't matter.
///
/// The secondary header, the sequence flags and the count aren't checked. If the octets don't begin with a whole packet
/// of version 0, the call fails with NoPacket, and each other number of the record is 0.
#[unsafe(no_mangle)]
pub extern "C" fn tcrx_read_packet_at(octets: &[u8]) -> PacketRecord
    ensures packet { result.status ≡ code_of Status.Done
        → (packet : List ℕ) × IsPacket packet × (packet ≡ take (length packet) octets.now) × (result ≡ packet_record packet) }
    ensures none { result.status ≡ code_of Status.NoPacket → ((n : ℕ) → IsPacket (take n octets.now) → ⊥) × (result ≡ no_packet) }
    ensures status { result.status ≢ code_of Status.Done → result.status ≡ code_of Status.NoPacket }
{
    match read_packet(octets) {
        Some(packet) => PacketRecord {
            status: code(Status::Done),
            length: packet.octets.len() as u32,
            apid: packet.apid,
            count: packet.count,
            telecommand: u8::from(packet.telecommand),
            secondary: u8::from(packet.secondary),
            sequence: packet.flags,
        },
        None => PacketRecord {
            status: code(Status::NoPacket),
            length: 0,
            apid: 0,
            count: 0,
            telecommand: 0,
            secondary: 0,
            sequence: 0,
        },
    }
}
