//! Writing telemetry frames.

ghost use Rattle.std.specs.Prelude.{◌≡◌, ◌<◌, ◌≤◌, None, vec_len, vec_capacity, unwrap_or, IfOk, IfErr, OnOk};
ghost use Rattle.tc_edges.specs.Tm.TmFrame.{primary_header as primary, before_sum, tm_frame, least_length as least_of, tm_fault_of};

use crate::fecf::checksum;
use std::alloc::{AllocError, Global};
use thiserror::Error;

/// The presence or absence of a frame error control field at the end of each frame. This is a property of the whole
/// physical channel (CCSDS 132.0-B, 4.1.6).
#[derive(Clone, Copy, Debug, PartialEq, Eq)]
pub enum ErrorControl {
    Absent,
    Present,
}

/// The fields of a primary header that identify a frame: its spacecraft, its virtual channel and its frame counts
/// (CCSDS 132.0-B, 4.1.2).
#[derive(Clone, Copy, Debug, PartialEq, Eq)]
pub struct TmHeader {
    /// The spacecraft id, 0 to 1,023.
    pub scid: u16,
    /// The virtual channel id, 0 to 7.
    pub vcid: u8,
    /// The master channel frame count: the number of the spacecraft's frames before this one, modulo 256.
    pub master_count: u8,
    /// The virtual channel frame count: the number of the virtual channel's frames before this one, modulo 256.
    pub channel_count: u8,
}

/// The first reason, in this order, why a frame isn't written.
#[derive(Clone, Copy, Debug, PartialEq, Eq, Error)]
pub enum TmFault {
    #[error("the spacecraft id is over 1,023")]
    BadScid,
    #[error("the virtual channel id is over 7")]
    BadVcid,
    /// The frames of this crate have 11 to 2,048 octets, or 13 to 2,048 with a frame error control field.
    #[error("the frame length is out of bounds")]
    BadLength,
    #[error("no memory")]
    NoMemory,
}

/// Writes the telemetry frame of `length` octets with this header. Its operational control field is `control`, the four
/// octets of a CLCW. All other data are idle octets, 0x55 (CCSDS 132.0-B, 4.1). If no frame has this header and this
/// length, the call returns the first fault.
///
/// The only allocation is the frame.
pub fn write_tm(
    alloc: Global,
    error: ErrorControl,
    header: &TmHeader,
    control: [u8; 4],
    length: usize,
) -> Result<Vec<u8>, TmFault>
    ensures frame { IfOk result (λ frame. frame.items ≡ tm_frame error header.now control length) }
    ensures written { OnOk result (tm_fault_of error header.now.scid header.now.vcid length ≡ None) }
    ensures refused { IfErr result (λ fault. fault ≡ unwrap_or (tm_fault_of error header.now.scid header.now.vcid length) TmFault.NoMemory) }
{
    if header.scid > 1023 {
        return Err(TmFault::BadScid);
    }
    if header.vcid > 7 {
        return Err(TmFault::BadVcid);
    }
    if length < least_length(error) || length > 2048 {
        return Err(TmFault::BadLength);
    }
    let Ok(frame) = ended(alloc, error, header, control, length) else {
        return Err(TmFault::NoMemory);
    };
    Ok(frame)
}

// Returns the length of the shortest frame, which has one octet of idle data.
pub(crate) fn least_length(error: ErrorControl) -> usize
    ensures { result ≡ least_of error }
{
    match error {
        ErrorControl::Absent => 11,
        ErrorControl::Present => 13,
    }
}

// Writes the frame, with its error control field or without one.
fn ended(
    alloc: Global,
    error: ErrorControl,
    header: &TmHeader,
    control: [u8; 4],
    length: usize,
) -> Result<Vec<u8>, AllocError>
    requires scid { header.now.scid < 1024 }
    requires vcid { header.now.vcid < 8 }
    requires least { least_of error ≤ length }
    ensures { IfOk result (λ frame. frame.items ≡ tm_frame error header.now control length) }
{
    match error {
        ErrorControl::Absent => idle_frame(alloc, header, control, length, length),
        ErrorControl::Present => {
            let mut frame = idle_frame(alloc, header, control, length - 2, length)?;
            let sum = checksum(&frame).to_be_bytes();
            frame.extend_from_slice(&sum).unwrap();
            Ok(frame)
        }
    }
}

// Writes the `end` octets before the error control field. The memory that is allocated has room for `room` octets.
fn idle_frame(
    alloc: Global,
    header: &TmHeader,
    control: [u8; 4],
    end: usize,
    room: usize,
) -> Result<Vec<u8>, AllocError>
    requires scid { header.now.scid < 1024 }
    requires vcid { header.now.vcid < 8 }
    requires least { 10 ≤ end }
    requires most { end ≤ room }
    ensures octets { IfOk result (λ frame. frame.items ≡ before_sum header.now control end) }
    ensures len { IfOk result (λ frame. vec_len frame ≡ end) }
    ensures room { IfOk result (λ frame. room ≤ vec_capacity frame) }
{
    let mut frame = Vec::with_capacity(alloc, room)?;
    frame.extend_from_slice(&primary_header(header)).unwrap();
    for idle in 0..end - 10 {
        frame.push(0x55).unwrap();
    }
    frame.extend_from_slice(&control).unwrap();
    Ok(frame)
}

// Returns the six octets of the primary header.
fn primary_header(header: &TmHeader) -> [u8; 6]
    requires scid { header.now.scid < 1024 }
    requires vcid { header.now.vcid < 8 }
    ensures { result ≡ primary header.now }
{
    let [a, b] = (header.scid * 16 + u16::from(header.vcid) * 2 + 1).to_be_bytes();
    [a, b, header.master_count, header.channel_count, 0x1f, 0xfe]
}
