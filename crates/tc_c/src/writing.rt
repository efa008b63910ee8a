//! Writing packets, the segments of a unit, commands and frame error control fields into the caller's buffer.

ghost use Rattle.std.specs.Prelude.{◌≡◌, ◌<◌, ◌≤◌, ◌+◌, ◌-◌, ◌++◌, Some, length, take, drop, IfSome, IfNone, IfOk, IfErr, MatchResult, Err};
ghost use Rattle.tc_link.specs.Frame.{IsWhole};
ghost use Rattle.tc_edges.specs.Fecf.FrameWithField.{frame_with_field, adding_fault_of, taking_fault_of};
ghost use Rattle.tc_edges.specs.Write.Frames.{IsMadeFrame, IsCommandFrame, command_length};
ghost use Rattle.tc_edges.specs.Write.Packets.{IsPacketOf};
ghost use Rattle.tc_edges.specs.Write.Parts.{segments_needed};
ghost use Rattle.tc_c_base.specs.Written.{no_octets, too_short, taken};
ghost use Rattle.tc_c.specs.Status.{field_status};
ghost use Rattle.tc_c.specs.Writing.{packet_to_write, packet_header_in, segment_to_write, IsSegmentFrame, segment_length, command_to_write};

use crate::buffer::put;
use crate::farm::flag;
use crate::frames::{HeaderRecord, read_header, tcrx_write_frame_at};
use crate::status::field_fault;
use tc_c_base::{Status, WrittenRecord, no_room, not_written, written};
use tc_edges::write::{
    PacketHeader, check_adding, check_taking, later_header, packet_front, piece, segment_count,
    segment_header, write_segment, write_with_field, write_without_field,
};
use tc_link::Header;
use tc_packet::Segment;

/// The fields of a packet's primary header, apart from its version and its length (CCSDS 133.0-B, 4.1.3). Flags are 0
/// or 1.
#[repr(C)]
#[derive(Clone, Copy)]
pub struct PacketHeaderRecord {
    /// The application process identifier, at most 2,047. The identifier 2,047 marks idle packets.
    pub apid: u16,
    /// The sequence count or the name, at most 16,383.
    pub count: u16,
    /// The packet type: 1 for telecommand, 0 for telemetry.
    pub telecommand: u8,
    /// The secondary header flag.
    pub secondary: u8,
    /// The sequence flags, at most 3.
    pub sequence: u8,
}

/// Writes the packet with this header and this packet data field to the front of a buffer (CCSDS 133.0-B, 4.1).
///
/// The packet data field has 1 to 65,536 octets, and the packet has 6 more. The call fails with BadFlag for a flag that
/// is neither 0 nor 1, with BadField for other fields over their bounds, and with EmptyData or LongPacket for packet
/// data fields of other lengths. The returned length is 0 in these cases. Otherwise, if the buffer is too short, the
/// call fails with NoRoom and returns the length that is needed. If the call fails, the buffer stays as it was.
#[unsafe(no_mangle)]
pub extern "C" fn tcrx_write_packet_at(
    header: PacketHeaderRecord,
    field: &[u8],
    octets: &mut [u8],
) -> WrittenRecord
    ensures written { IfOk (packet_to_write header field.now)
        (λ h. 6 + length field.now ≤ length octets.old → result ≡ taken (6 + length field.now)) }
    ensures packet { IfOk (packet_to_write header field.now)
        (λ h. 6 + length field.now ≤ length octets.old → IsPacketOf (take (6 + length field.now) octets.new) h field.now) }
    ensures rest { IfOk (packet_to_write header field.now)
        (λ h. 6 + length field.now ≤ length octets.old
        → drop (6 + length field.now) octets.new ≡ drop (6 + length field.now) octets.old) }
    ensures no_room { IfOk (packet_to_write header field.now)
        (λ h. length octets.old < 6 + length field.now
        → (result ≡ too_short (6 + length field.now)) × (octets.new ≡ octets.old)) }
    ensures refused { IfErr (packet_to_write header field.now) (λ fault. (result ≡ no_octets fault) × (octets.new ≡ octets.old)) }
{
    match front(header, field) {
        Ok(front) => put(&front, field, octets),
        Err(fault) => not_written(fault),
    }
}

// Returns the octets of the header of a packet with this packet data field, or the first reason why the packet can't be
// written.
fn front(header: PacketHeaderRecord, field: &[u8]) -> Result<[u8; 6], Status>
    ensures six { IfOk result (λ front. length front ≡ 6) }
    ensures packet { IfOk result (λ front. IfOk (packet_to_write header field.now) (λ h. IsPacketOf (front ++ field.now) h field.now)) }
    ensures fault { MatchResult result (λ front. IfErr (packet_to_write header field.now) (λ fault. ⊥))
        (λ fault. packet_to_write header field.now ≡ Err fault) }
{
    let header = read_packet_header(header)?;
    if header.apid > 2047 || header.count > 16_383 || header.flags > 3 {
        return Err(Status::BadField);
    }
    if field.is_empty() {
        return Err(Status::EmptyData);
    }
    if field.len() > 65_536 {
        return Err(Status::LongPacket);
    }
    Ok(packet_front(&header, field))
}

fn read_packet_header(header: PacketHeaderRecord) -> Result<PacketHeader, Status>
    ensures { result ≡ packet_header_in header }
{
    Ok(PacketHeader {
        telecommand: flag(header.telecommand)?,
        secondary: flag(header.secondary)?,
        apid: header.apid,
        flags: header.sequence,
        count: header.count,
    })
}

/// Writes the frame that carries segment `place` of a unit, counted from 0, to the front of a buffer (CCSDS 232.0-B,
/// 4.1.3.2.2).
///
/// Each segment carries `size` octets, 1 to 1,018, and the last one carries the octets that are left. The unit has 1 to
/// 65,542 octets. The header is that of the unit's first frame. The N(S) of Type-AD frames counts up from there, modulo
/// 256.
///
/// The call fails with BadFlag for a flag that is neither 0 nor 1. It fails with BadField for the header of a Type-C
/// frame, because such a frame has no segment header. It fails with BadField or BadMap for ids over their bounds, with
/// BadSize for another size, with EmptyData or LongUnit for units of other lengths, and with NoSegment if the unit has
/// no segment `place`. The returned length is 0 in these cases. Otherwise, if the buffer is too short, the call fails
/// with NoRoom and returns the length that is needed. If the call fails, the buffer stays as it was.
#[unsafe(no_mangle)]
pub extern "C" fn tcrx_write_segment_at(
    header: HeaderRecord,
    map: u8,
    size: u16,
    place: u32,
    unit: &[u8],
    octets: &mut [u8],
) -> WrittenRecord
    ensures written { IfOk (segment_to_write header map size place unit.now)
        (λ h. segment_length size place unit.now ≤ length octets.old → result ≡ taken (segment_length size place unit.now)) }
    ensures frame { IfOk (segment_to_write header map size place unit.now)
        (λ h. segment_length size place unit.now ≤ length octets.old
        → IsSegmentFrame (take (segment_length size place unit.now) octets.new) h map size place unit.now) }
    ensures rest { IfOk (segment_to_write header map size place unit.now)
        (λ h. segment_length size place unit.now ≤ length octets.old
        → drop (segment_length size place unit.now) octets.new ≡ drop (segment_length size place unit.now) octets.old) }
    ensures no_room { IfOk (segment_to_write header map size place unit.now)
        (λ h. length octets.old < segment_length size place unit.now
        → (result ≡ too_short (segment_length size place unit.now)) × (octets.new ≡ octets.old)) }
    ensures refused { IfErr (segment_to_write header map size place unit.now) (λ fault. (result ≡ no_octets fault) × (octets.new ≡ octets.old)) }
{
    match header_at(header, map, size, place, unit) {
        Ok(header) => {
            let (size, place) = (usize::from(size), place as usize);
            let segment = segment_header(map, place, segment_count(size, unit.len()));
            put_segment(&header, segment, piece(unit, size, place), octets)
        }
        Err(fault) => not_written(fault),
    }
}

// Returns the header of the frame that carries the segment at this place, or the first reason why this frame can't be
// written.
fn header_at(
    header: HeaderRecord,
    map: u8,
    size: u16,
    place: u32,
    unit: &[u8],
) -> Result<Header, Status>
    ensures header { MatchResult result (λ h. segment_to_write header map size place unit.now ≡ Ok h)
        (λ fault. segment_to_write header map size place unit.now ≡ Err fault) }
    ensures scid { IfOk result (λ h. h.scid < 1024) }
    ensures vcid { IfOk result (λ h. h.vcid < 64) }
    ensures map { IfOk result (λ h. map < 64) }
    ensures some { IfOk result (λ h. 1 ≤ size) }
    ensures size { IfOk result (λ h. size ≤ 1018) }
    ensures unit { IfOk result (λ h. length unit.now ≤ 65542) }
    ensures place { IfOk result (λ h. place < segments_needed size (length unit.now)) }
{
    let header = read_header(header)?;
    if header.control || header.scid > 1023 || header.vcid > 63 {
        return Err(Status::BadField);
    }
    if map > 63 {
        return Err(Status::BadMap);
    }
    if size == 0 || size > 1018 {
        return Err(Status::BadSize);
    }
    if unit.is_empty() {
        return Err(Status::EmptyData);
    }
    if unit.len() > 65_542 {
        return Err(Status::LongUnit);
    }
    if place as usize >= segment_count(usize::from(size), unit.len()) {
        return Err(Status::NoSegment);
    }
    Ok(later_header(&header, place as usize))
}

// Writes the frame whose data field is this segment to the front of a buffer. If the buffer is too short, it stays as
// it was.
fn put_segment(header: &Header, segment: Segment, piece: &[u8], octets: &mut [u8]) -> WrittenRecord
    requires scid { header.now.scid < 1024 }
    requires vcid { header.now.vcid < 64 }
    requires map { segment.map < 64 }
    requires most { length piece.now ≤ 1018 }
    ensures put { length piece.now + 6 ≤ length octets.old → result ≡ taken (length piece.now + 6) }
    ensures frame { length piece.now + 6 ≤ length octets.old
        → IsMadeFrame (take (length piece.now + 6) octets.new) header.now (Some segment) piece.now }
    ensures rest { length piece.now + 6 ≤ length octets.old → drop (length piece.now + 6) octets.new ≡ drop (length piece.now + 6) octets.old }
    ensures no_room { length octets.old < length piece.now + 6 → (result ≡ too_short (length piece.now + 6)) × (octets.new ≡ octets.old) }
{
    let needed = piece.len() + 6;
    if octets.len() < needed {
        return no_room(needed);
    }
    let (frame, _) = octets.split_at_mut(needed);
    write_segment(header, segment, piece, frame);
    written(needed)
}

/// Writes the Type-BC frame with a control command to the front of a buffer (CCSDS 232.0-B, 4.1.3.3). Its N(S) is 0.
///
/// `kind` is 3 for Unlock or 4 for Set V(R), as `tcrx_kind` returns it. `number` is the new V(R), and has no meaning
/// for Unlock. The call fails with BadField for ids over their bounds and with BadCommand for another kind. The
/// returned length is 0 in these cases. Otherwise, if the buffer is too short, the call fails with NoRoom and returns
/// the length that is needed. If the call fails, the buffer stays as it was.
#[unsafe(no_mangle)]
pub extern "C" fn tcrx_write_command_at(
    scid: u16,
    vcid: u8,
    kind: u8,
    number: u8,
    octets: &mut [u8],
) -> WrittenRecord
    ensures written { IfOk (command_to_write scid vcid kind number)
        (λ command. 5 + command_length command ≤ length octets.old → result ≡ taken (5 + command_length command)) }
    ensures frame { IfOk (command_to_write scid vcid kind number)
        (λ command. 5 + command_length command ≤ length octets.old
        → IsCommandFrame (take (5 + command_length command) octets.new) scid vcid command) }
    ensures rest { IfOk (command_to_write scid vcid kind number)
        (λ command. 5 + command_length command ≤ length octets.old
        → drop (5 + command_length command) octets.new ≡ drop (5 + command_length command) octets.old) }
    ensures no_room { IfOk (command_to_write scid vcid kind number)
        (λ command. length octets.old < 5 + command_length command
        → (result ≡ too_short (5 + command_length command)) × (octets.new ≡ octets.old)) }
    ensures refused { IfErr (command_to_write scid vcid kind number) (λ fault. (result ≡ no_octets fault) × (octets.new ≡ octets.old)) }
{
    if scid > 1023 || vcid > 63 {
        return not_written(Status::BadField);
    }
    let header = HeaderRecord {
        scid,
        vcid,
        ns: 0,
        bypass: 1,
        control: 1,
    };
    match kind {
        3 => tcrx_write_frame_at(header, &[0], octets),
        4 => tcrx_write_frame_at(header, &[0x82, 0, number], octets),
        _ => not_written(Status::BadCommand),
    }
}

/// Adds a frame error control field to a frame, and writes the frame to the front of a buffer (CCSDS 232.0-B, 4.1.4).
/// The written frame is two octets longer, and its length field counts them.
///
/// The octets must be one frame of at most 1,022 octets, with nothing after it. For other octets the call fails with a
/// status from Short to Truncated, with Fill or with LongFrame. The returned length is 0 in these cases. Otherwise, if
/// the buffer is too short, the call fails with NoRoom and returns the length that is needed. If the call fails, the
/// buffer stays as it was.
#[unsafe(no_mangle)]
pub extern "C" fn tcrx_add_fecf_at(frame: &[u8], octets: &mut [u8]) -> WrittenRecord
    ensures written { IfNone (adding_fault_of frame.now) (length frame.now + 2 ≤ length octets.old → result ≡ taken (length frame.now + 2)) }
    ensures frame { IfNone (adding_fault_of frame.now)
        (length frame.now + 2 ≤ length octets.old → take (length frame.now + 2) octets.new ≡ frame_with_field frame.now) }
    ensures rest { IfNone (adding_fault_of frame.now)
        (length frame.now + 2 ≤ length octets.old
        → drop (length frame.now + 2) octets.new ≡ drop (length frame.now + 2) octets.old) }
    ensures no_room { IfNone (adding_fault_of frame.now)
        (length octets.old < length frame.now + 2 → (result ≡ too_short (length frame.now + 2)) × (octets.new ≡ octets.old)) }
    ensures refused { IfSome (adding_fault_of frame.now) (λ fault. (result ≡ no_octets (field_status fault)) × (octets.new ≡ octets.old)) }
{
    if let Err(fault) = check_adding(frame) {
        return not_written(field_fault(fault));
    }
    let needed = frame.len() + 2;
    if octets.len() < needed {
        return no_room(needed);
    }
    let (made, _) = octets.split_at_mut(needed);
    write_with_field(frame, made);
    written(needed)
}

/// Checks the frame error control field with which a frame ends, and writes the frame without the field to the front of
/// a buffer (CCSDS 232.0-B, 4.1.4). The written frame is the only one from which `tcrx_add_fecf` makes these octets.
///
/// The octets must be one frame of at least 8 octets, with nothing after it. For other octets the call fails with a
/// status from Short to Truncated, with Fill or with NoFecf. It fails with WrongFecf for a wrong field. The returned
/// length is 0 in these cases. Otherwise, if the buffer is too short, the call fails with NoRoom and returns the length
/// that is needed. If the call fails, the buffer stays as it was.
#[unsafe(no_mangle)]
pub extern "C" fn tcrx_check_fecf_at(frame: &[u8], octets: &mut [u8]) -> WrittenRecord
    ensures written { IfNone (taking_fault_of frame.now) (length frame.now ≤ length octets.old + 2 → result ≡ taken (length frame.now - 2)) }
    ensures frame { IfNone (taking_fault_of frame.now)
        (length frame.now ≤ length octets.old + 2 → frame.now ≡ frame_with_field (take (length frame.now - 2) octets.new)) }
    ensures whole { IfNone (taking_fault_of frame.now) (length frame.now ≤ length octets.old + 2 → IsWhole (take (length frame.now - 2) octets.new)) }
    ensures rest { IfNone (taking_fault_of frame.now)
        (length frame.now ≤ length octets.old + 2
        → drop (length frame.now - 2) octets.new ≡ drop (length frame.now - 2) octets.old) }
    ensures no_room { IfNone (taking_fault_of frame.now)
        (length octets.old + 2 < length frame.now → (result ≡ too_short (length frame.now - 2)) × (octets.new ≡ octets.old)) }
    ensures refused { IfSome (taking_fault_of frame.now) (λ fault. (result ≡ no_octets (field_status fault)) × (octets.new ≡ octets.old)) }
{
    if let Err(fault) = check_taking(frame) {
        return not_written(field_fault(fault));
    }
    let needed = frame.len() - 2;
    if octets.len() < needed {
        return no_room(needed);
    }
    let (plain, _) = octets.split_at_mut(needed);
    write_without_field(frame, plain);
    written(needed)
}
