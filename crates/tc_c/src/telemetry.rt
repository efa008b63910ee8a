//! Telemetry frames that carry a CLCW, written into the caller's buffer and read from octets.

ghost use Rattle.std.specs.Prelude.{◌≡◌, ◌<◌, ◌≤◌, length, take, drop, Ok, Err, IfOk, IfErr, MatchResult};
ghost use Rattle.tc_edges.specs.Tm.TmFrame.{primary_header as primary, before_sum, tm_frame, least_length};
ghost use Rattle.tc_c_base.specs.Written.{no_octets, too_short, taken};
ghost use Rattle.tc_c.specs.Telemetry.{error_given, tm_header_in, tm_header_record, tm_allowed, tm_read_status, tm_to_write, tm_frame_carrying, tm_to_read, tm_record, no_tm};

use crate::farm::flag;
use tc_c_base::{Status, WrittenRecord, code, no_room, not_written, written};
use tc_edges::fecf::checksum;
use tc_edges::tm::{ErrorControl, TmFields, TmHeader, TmReadFault, read_tm};

/// The ids and the frame counts in a telemetry frame's primary header (CCSDS 132.0-B, 4.1.2).
#[repr(C)]
#[derive(Clone, Copy)]
pub struct TmHeaderRecord {
    /// The spacecraft id, 0 to 1,023.
    pub scid: u16,
    /// The virtual channel id, 0 to 7.
    pub vcid: u8,
    /// The master channel frame count: the number of frames of the spacecraft that came before, modulo 256.
    pub master_count: u8,
    /// The virtual channel frame count: the number of frames of the virtual channel that came before, modulo 256.
    pub channel_count: u8,
}

/// The fields of a telemetry frame with an operational control field.
#[repr(C)]
#[derive(Clone, Copy)]
pub struct TmFieldsRecord {
    pub status: u32,
    /// The operational control field, which is a CLCW, as a word whose first bit is the most significant one.
    pub clcw: u32,
    pub header: TmHeaderRecord,
    /// The first header pointer. The value 2,046 means that all data are idle, and 2,047 means that no packet begins.
    pub pointer: u16,
}

/// Writes the telemetry frame of `size` octets whose operational control field is this CLCW to the front of a buffer
/// (CCSDS 132.0-B, 4.1). All other data are idle.
///
/// The frame has 11 to 2,048 octets, or at least 13 with a frame error control field. The call fails with BadFlag if
/// the flag for that field is neither 0 nor 1, with BadField for ids over their bounds, and with BadLength for other
/// lengths. The returned length is 0 in these cases. Otherwise, if the buffer is too short, the call fails with NoRoom
/// and returns the length that is needed. If the call fails, the buffer stays as it was.
#[unsafe(no_mangle)]
pub extern "C" fn tcrx_write_tm_at(
    header: TmHeaderRecord,
    fecf: u8,
    clcw: u32,
    size: u16,
    octets: &mut [u8],
) -> WrittenRecord
    ensures written { IfOk (tm_to_write header fecf size) (λ error. size ≤ length octets.old → result ≡ taken size) }
    ensures frame { IfOk (tm_to_write header fecf size)
        (λ error. size ≤ length octets.old → take size octets.new ≡ tm_frame_carrying error header clcw size) }
    ensures rest { IfOk (tm_to_write header fecf size) (λ error. size ≤ length octets.old → drop size octets.new ≡ drop size octets.old) }
    ensures no_room { IfOk (tm_to_write header fecf size)
        (λ error. length octets.old < size → (result ≡ too_short size) × (octets.new ≡ octets.old)) }
    ensures refused { IfErr (tm_to_write header fecf size) (λ fault. (result ≡ no_octets fault) × (octets.new ≡ octets.old)) }
{
    match allowed(header, fecf, usize::from(size)) {
        Ok(error) => put_tm(error, header, clcw, usize::from(size), octets),
        Err(fault) => not_written(fault),
    }
}

// Returns the error control that the flag `fecf` stands for, or the first reason why the frame can't be written.
fn allowed(header: TmHeaderRecord, fecf: u8, size: usize) -> Result<ErrorControl, Status>
    ensures error { MatchResult result (λ error. tm_to_write header fecf size ≡ Ok error) (λ fault. tm_to_write header fecf size ≡ Err fault) }
    ensures scid { IfOk result (λ error. header.scid < 1024) }
    ensures vcid { IfOk result (λ error. header.vcid < 8) }
    ensures least { IfOk result (λ error. least_length error ≤ size) }
{
    let error = read_error(fecf)?;
    let least = match error {
        ErrorControl::Absent => 11,
        ErrorControl::Present => 13,
    };
    if header.scid > 1023 || header.vcid > 7 {
        return Err(Status::BadField);
    }
    if size < least || size > 2048 {
        return Err(Status::BadLength);
    }
    Ok(error)
}

fn read_error(fecf: u8) -> Result<ErrorControl, Status>
    ensures { result ≡ error_given fecf }
{
    if flag(fecf)? {
        Ok(ErrorControl::Present)
    } else {
        Ok(ErrorControl::Absent)
    }
}

// Writes the frame to the front of a buffer. A buffer that is too short stays as it was.
fn put_tm(
    error: ErrorControl,
    header: TmHeaderRecord,
    clcw: u32,
    size: usize,
    octets: &mut [u8],
) -> WrittenRecord
    requires scid { header.scid < 1024 }
    requires vcid { header.vcid < 8 }
    requires least { least_length error ≤ size }
    ensures put { size ≤ length octets.old → result ≡ taken size }
    ensures frame { size ≤ length octets.old → take size octets.new ≡ tm_frame_carrying error header clcw size }
    ensures rest { size ≤ length octets.old → drop size octets.new ≡ drop size octets.old }
    ensures no_room { length octets.old < size → (result ≡ too_short size) × (octets.new ≡ octets.old) }
{
    if octets.len() < size {
        return no_room(size);
    }
    let (frame, _) = octets.split_at_mut(size);
    write_frame(error, header, clcw.to_be_bytes(), frame);
    written(size)
}

// Writes the frame over a slice of its length.
fn write_frame(error: ErrorControl, header: TmHeaderRecord, control: [u8; 4], frame: &mut [u8])
    requires scid { header.scid < 1024 }
    requires vcid { header.vcid < 8 }
    requires least { least_length error ≤ length frame.old }
    ensures { frame.new ≡ tm_frame error (tm_header_in header) control (length frame.old) }
{
    match error {
        ErrorControl::Absent => write_before_sum(header, control, frame),
        ErrorControl::Present => {
            let (before, sum) = frame.split_at_mut(frame.len() - 2);
            write_before_sum(header, control, before);
            sum.copy_from_slice(&checksum(before).to_be_bytes());
        }
    }
}

// Writes the part of the frame before the error control field over a slice of the part's length.
fn write_before_sum(header: TmHeaderRecord, control: [u8; 4], octets: &mut [u8])
    requires scid { header.scid < 1024 }
    requires vcid { header.vcid < 8 }
    requires least { 10 ≤ length octets.old }
    ensures { octets.new ≡ before_sum (tm_header_in header) control (length octets.old) }
{
    let (front, rest) = octets.split_at_mut(6);
    let (idle, end) = rest.split_at_mut(rest.len() - 4);
    front.copy_from_slice(&primary_header(header));
    idle.fill(0x55);
    end.copy_from_slice(&control);
}

// Returns the six octets of the primary header.
fn primary_header(header: TmHeaderRecord) -> [u8; 6]
    requires scid { header.scid < 1024 }
    requires vcid { header.vcid < 8 }
    ensures { result ≡ primary (tm_header_in header) }
{
    let [a, b] = (header.scid * 16 + u16::from(header.vcid) * 2 + 1).to_be_bytes();
    [a, b, header.master_count, header.channel_count, 0x1f, 0xfe]
}

/// Reads octets that are one telemetry frame (CCSDS 132.0-B, 4.1). All octets belong to the frame, because the physical
/// channel fixes the length of frames. A secondary header and packets aren't looked at.
///
/// `fecf` is 1 if frames end with a frame error control field, otherwise 0. The call fails with BadFlag if `fecf` is
/// neither 0 nor 1. It fails with BadLength for more than 2,048 octets and for fewer than 11, or fewer than 13 if
/// `fecf` is 1. It fails with Version for another version, with NoControl for a frame without an operational control
/// field, and with WrongFecf for a wrong frame error control field. If it fails, each number of the record except
/// `status` is 0.
#[unsafe(no_mangle)]
pub extern "C" fn tcrx_read_tm_at(fecf: u8, octets: &[u8]) -> TmFieldsRecord
    ensures fields { IfOk (tm_to_read fecf octets.now) (λ fields. result ≡ tm_record fields) }
    ensures refused { IfErr (tm_to_read fecf octets.now) (λ fault. result ≡ no_tm fault) }
{
    match read_fields(fecf, octets) {
        Ok(fields) => TmFieldsRecord {
            status: code(Status::Done),
            clcw: u32::from_be_bytes(fields.control),
            header: reported(fields.header),
            pointer: fields.pointer,
        },
        Err(fault) => TmFieldsRecord {
            status: code(fault),
            clcw: 0,
            header: TmHeaderRecord {
                scid: 0,
                vcid: 0,
                master_count: 0,
                channel_count: 0,
            },
            pointer: 0,
        },
    }
}

fn reported(header: TmHeader) -> TmHeaderRecord
    ensures { result ≡ tm_header_record header }
{
    TmHeaderRecord {
        scid: header.scid,
        vcid: header.vcid,
        master_count: header.master_count,
        channel_count: header.channel_count,
    }
}

fn read_fields(fecf: u8, octets: &[u8]) -> Result<TmFields, Status>
    ensures { result ≡ tm_to_read fecf octets.now }
{
    let error = read_error(fecf)?;
    if octets.len() > 2048 {
        return Err(Status::BadLength);
    }
    match read_tm(error, octets) {
        Ok(fields) => Ok(fields),
        Err(fault) => Err(read_fault(fault)),
    }
}

fn read_fault(fault: TmReadFault) -> Status
    ensures { result ≡ tm_read_status fault }
{
    match fault {
        TmReadFault::Short => Status::BadLength,
        TmReadFault::Version => Status::Version,
        TmReadFault::NoControl => Status::NoControl,
        TmReadFault::WrongSum => Status::WrongFecf,
    }
}
