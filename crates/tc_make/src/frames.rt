//! Frames that carry octets, and frames that carry a control command.

ghost use Rattle.std.specs.Prelude.{◌≡◌, ◌<◌, ◌≤◌, None, length, unwrap_or, IfOk, IfErr, OnOk};
ghost use Rattle.tc_link.specs.Frame.{IsFrame};
ghost use Rattle.tc_link.specs.Command.{command_of};
ghost use Rattle.tc_make.specs.Frames.{IsMadeFrame, IsCommandFrame, frame_reason_of, command_reason_of};

use crate::fault::Reason;
use std::alloc::Global;
use tc_edges::write::segment_octet;
use tc_link::{Command, Header, WriteFault, write_frame};
use tc_packet::Segment;

/// Makes the frame with this header. Its data field carries the octets. If a segment header is given, the data field
/// begins with it (CCSDS 232.0-B, 4.1.2 and 4.1.3).
///
/// The data field, including the segment header, must have 1 to 1,019 octets. Only the frame and, if there is a segment
/// header, the data field are allocated.
pub fn make_frame(
    alloc: Global,
    header: &Header,
    segment: Option<Segment>,
    octets: &[u8],
) -> Result<Vec<u8>, Reason>
    ensures frame { IfOk result (λ frame. IsMadeFrame frame.items header.now segment octets.now) }
    ensures made { OnOk result (frame_reason_of header.now segment octets.now ≡ None) }
    ensures refused { IfErr result (λ reason. reason ≡ unwrap_or (frame_reason_of header.now segment octets.now) Reason.NoMemory) }
{
    if header.scid > 1023 {
        return Err(Reason::BadScid);
    }
    if header.vcid > 63 {
        return Err(Reason::BadVcid);
    }
    match segment {
        Some(segment) => segmented(alloc, header, segment, octets),
        None => framed(alloc, header, octets),
    }
}

// Makes the frame whose data field is a segment.
fn segmented(
    alloc: Global,
    header: &Header,
    segment: Segment,
    octets: &[u8],
) -> Result<Vec<u8>, Reason>
    requires scid { header.now.scid < 1024 }
    requires vcid { header.now.vcid < 64 }
    ensures frame { IfOk result (λ frame. IsMadeFrame frame.items header.now (Some segment) octets.now) }
    ensures made { OnOk result (frame_reason_of header.now (Some segment) octets.now ≡ None) }
    ensures refused { IfErr result (λ reason. reason ≡ unwrap_or (frame_reason_of header.now (Some segment) octets.now) Reason.NoMemory) }
{
    if segment.map > 63 {
        return Err(Reason::BadMap);
    }
    if octets.len() > 1018 {
        return Err(Reason::TooMuchData);
    }
    let mut field = Vec::with_capacity(alloc, octets.len() + 1).map_err(|_| Reason::NoMemory)?;
    field.push(segment_octet(segment)).unwrap();
    field.extend_from_slice(octets).unwrap();
    framed(alloc, header, &field)
}

// Makes the frame with this data field.
fn framed(alloc: Global, header: &Header, field: &[u8]) -> Result<Vec<u8>, Reason>
    requires scid { header.now.scid < 1024 }
    requires vcid { header.now.vcid < 64 }
    ensures frame { IfOk result (λ frame. IsFrame frame.items header.now field.now) }
    ensures made { OnOk result (frame_reason_of header.now None field.now ≡ None) }
    ensures refused { IfErr result (λ reason. reason ≡ unwrap_or (frame_reason_of header.now None field.now) Reason.NoMemory) }
{
    match write_frame(alloc, header, field) {
        Ok(frame) => Ok(frame),
        Err(WriteFault::EmptyData) => Err(Reason::NoData),
        Err(WriteFault::TooLong) => Err(Reason::TooMuchData),
        Err(WriteFault::NoMemory) => Err(Reason::NoMemory),
        Err(WriteFault::BadField) => unreachable!(),
    }
}

/// Makes the Type-BC frame with this control command (CCSDS 232.0-B, 4.1.3.3). Its N(S) is 0.
///
/// Only the frame itself is allocated.
pub fn make_command(alloc: Global, scid: u16, vcid: u8, command: Command) -> Result<Vec<u8>, Reason>
    ensures frame { IfOk result (λ frame. IsCommandFrame frame.items scid vcid command) }
    ensures made { OnOk result (command_reason_of scid vcid ≡ None) }
    ensures refused { IfErr result (λ reason. reason ≡ unwrap_or (command_reason_of scid vcid) Reason.NoMemory) }
{
    if scid > 1023 {
        return Err(Reason::BadScid);
    }
    if vcid > 63 {
        return Err(Reason::BadVcid);
    }
    let header = Header {
        bypass: true,
        control: true,
        scid,
        vcid,
        ns: 0,
    };
    match command {
        Command::Unlock => framed(alloc, &header, &[0]),
        Command::SetVr(vr) => framed(alloc, &header, &[0x82, 0, vr]),
    }
}
