//! Reading transfer frames at the front of octets, and writing them into a buffer.

ghost use Rattle.std.specs.Prelude.{◌≡◌, ◌<◌, ◌≤◌, ◌+◌, ◌++◌, ℕ, List, length, take, drop, IfSome, IfNone, IfOk, IfErr, MatchResult, Err};
ghost use Rattle.tc_link.specs.Frame.{IsFrame, BeginsWith, header_of, fault_of};
ghost use Rattle.tc_link.specs.Command.{kind_of};
ghost use Rattle.tc_c_base.specs.Status.{code_of};
ghost use Rattle.tc_c.specs.Status.{frame_status};
ghost use Rattle.tc_c.specs.Frame.{header_record, frame_record, no_frame, kind_record, no_kind, header_in, header_to_write};

use crate::buffer::put;
use crate::farm::flag;
use crate::status::{frame_fault, write_fault};
use tc_c_base::{Status, WrittenRecord, code, not_written};
use tc_link::{Command, Header, Kind, kind, read_frame, written_header};

/// The fields of a frame's primary header, apart from the fixed ones and the frame length (CCSDS 232.0-B, 4.1.2).
/// Flags are 0 or 1.
#[repr(C)]
#[derive(Clone, Copy)]
pub struct HeaderRecord {
    /// The spacecraft id, 0 to 1,023.
    pub scid: u16,
    /// The virtual channel id, 0 to 63.
    pub vcid: u8,
    /// The frame sequence number N(S).
    pub ns: u8,
    /// The bypass flag, which is set in Type-B frames.
    pub bypass: u8,
    /// The control command flag, which is set in Type-C frames.
    pub control: u8,
}

/// The header and the length of the frame at the front of octets.
#[repr(C)]
#[derive(Clone, Copy)]
pub struct FrameRecord {
    pub status: u32,
    pub header: HeaderRecord,
    /// The number of octets in the frame, 6 to 1,024, of which the first 5 are its header. It is 0 if the octets begin
    /// with no frame.
    pub length: u16,
}

/// The kind of the frame at the front of octets.
#[repr(C)]
#[derive(Clone, Copy)]
pub struct KindRecord {
    pub status: u32,
    /// The number of the kind: 1 is Type-AD, 2 is Type-BD, 3 is Unlock, 4 is Set V(R), 5 is invalid. It is 0 if the
    /// octets begin with no frame.
    pub kind: u8,
    /// The N(S) of a Type-AD frame, the new V(R) of a Set V(R), or 0 for other kinds.
    pub number: u8,
}

/// Reads the frame at the front of the octets (CCSDS 232.0-B, 4.1). Octets that follow the frame are fill, whatever
/// they are.
///
/// If the octets begin with no frame, the call fails with their first fault, which is Short, Version, Spare,
/// LengthSmall or Truncated. Each other number of the record is then 0.
#[unsafe(no_mangle)]
pub extern "C" fn tcrx_read_frame_at(octets: &[u8]) -> FrameRecord
    ensures frame { IfNone (fault_of octets.now) ((frame : List ℕ) × BeginsWith octets.now frame × (result ≡ frame_record frame)) }
    ensures fault { IfSome (fault_of octets.now) (λ fault. result ≡ no_frame (frame_status fault)) }
{
    match read_frame(octets) {
        Ok(frame) => FrameRecord {
            status: code(Status::Done),
            header: reported(frame.header()),
            length: frame.octets().len() as u16,
        },
        Err(fault) => FrameRecord {
            status: code(frame_fault(fault)),
            header: HeaderRecord {
                scid: 0,
                vcid: 0,
                ns: 0,
                bypass: 0,
                control: 0,
            },
            length: 0,
        },
    }
}

fn reported(header: Header) -> HeaderRecord
    ensures { result ≡ header_record header }
{
    HeaderRecord {
        scid: header.scid,
        vcid: header.vcid,
        ns: header.ns,
        bypass: u8::from(header.bypass),
        control: u8::from(header.control),
    }
}

/// Returns the kind of the frame at the front of the octets, by its two flags and its data field (CCSDS 232.0-B,
/// 4.1.2.3).
///
/// `tcrx_farm_step` takes the kind and the number as they are returned. If the octets begin with no frame, the call
/// fails as `tcrx_read_frame` does.
#[unsafe(no_mangle)]
pub extern "C" fn tcrx_kind_at(octets: &[u8]) -> KindRecord
    ensures kind { IfNone (fault_of octets.now)
        ((frame : List ℕ) × BeginsWith octets.now frame × (result ≡ kind_record (kind_of (header_of frame) (drop 5 frame)))) }
    ensures fault { IfSome (fault_of octets.now) (λ fault. result ≡ no_kind (frame_status fault)) }
{
    match read_frame(octets) {
        Ok(frame) => kind_reported(kind(&frame)),
        Err(fault) => KindRecord {
            status: code(frame_fault(fault)),
            kind: 0,
            number: 0,
        },
    }
}

fn kind_reported(kind: Kind) -> KindRecord
    ensures { result ≡ kind_record kind }
{
    let (kind, number) = match kind {
        Kind::Ad(ns) => (1, ns),
        Kind::Bd => (2, 0),
        Kind::Bc(Command::Unlock) => (3, 0),
        Kind::Bc(Command::SetVr(vr)) => (4, vr),
        Kind::Invalid => (5, 0),
    };
    KindRecord {
        status: code(Status::Done),
        kind,
        number,
    }
}

/// Writes the frame with this header and this data field to the front of a buffer (CCSDS 232.0-B, 4.1).
///
/// The data field has 1 to 1,019 octets, and the frame has 5 more. The call fails with BadFlag for a flag that is
/// neither 0 nor 1, with BadField for ids over their bounds, and with EmptyData or TooLong for data fields of other
/// lengths. The returned length is 0 in these cases. Otherwise, if the buffer is too short, the call fails with NoRoom
/// and returns the length that is needed. If the call fails, the buffer stays as it was.
#[unsafe(no_mangle)]
pub extern "C" fn tcrx_write_frame_at(
    header: HeaderRecord,
    field: &[u8],
    octets: &mut [u8],
) -> WrittenRecord
    ensures written { IfOk (header_to_write header field.now)
        (λ h. 5 + length field.now ≤ length octets.old
        → result ≡ record { status = code_of Status.Done; length = 5 + length field.now }) }
    ensures frame { IfOk (header_to_write header field.now)
        (λ h. 5 + length field.now ≤ length octets.old → IsFrame (take (5 + length field.now) octets.new) h field.now) }
    ensures rest { IfOk (header_to_write header field.now)
        (λ h. 5 + length field.now ≤ length octets.old
        → drop (5 + length field.now) octets.new ≡ drop (5 + length field.now) octets.old) }
    ensures no_room { IfOk (header_to_write header field.now)
        (λ h. length octets.old < 5 + length field.now
        → (result ≡ record { status = code_of Status.NoRoom; length = 5 + length field.now }) × (octets.new ≡ octets.old)) }
    ensures refused { IfErr (header_to_write header field.now)
        (λ fault. (result ≡ record { status = code_of fault; length = 0 }) × (octets.new ≡ octets.old)) }
{
    match front(header, field) {
        Ok(front) => put(&front, field, octets),
        Err(fault) => not_written(fault),
    }
}

// Returns the octets of the header of a frame with this data field, or the first reason why the frame can't be written.
fn front(header: HeaderRecord, field: &[u8]) -> Result<[u8; 5], Status>
    ensures five { IfOk result (λ front. length front ≡ 5) }
    ensures frame { IfOk result (λ front. IfOk (header_to_write header field.now) (λ h. IsFrame (front ++ field.now) h field.now)) }
    ensures fault { MatchResult result (λ front. IfErr (header_to_write header field.now) (λ fault. ⊥))
        (λ fault. header_to_write header field.now ≡ Err fault) }
{
    let header = read_header(header)?;
    match written_header(&header, field) {
        Ok(front) => Ok(front),
        Err(fault) => Err(write_fault(fault)),
    }
}

pub(crate) fn read_header(header: HeaderRecord) -> Result<Header, Status>
    ensures { result ≡ header_in header }
{
    Ok(Header {
        bypass: flag(header.bypass)?,
        control: flag(header.control)?,
        scid: header.scid,
        vcid: header.vcid,
        ns: header.ns,
    })
}
