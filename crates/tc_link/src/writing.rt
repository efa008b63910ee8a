//! Writing transfer frames.

ghost use Rattle.std.specs.Prelude.{◌≡◌, ◌<◌, ◌≤◌, ◌++◌, None, Some, MatchResult, length, unwrap_or, IfOk, IfErr, OnOk};
ghost use Rattle.tc_link.specs.Frame.{IsFrame, IsOctets, header_of, version_of, spare_of, named_length, write_fault_of};

use crate::frame::Header;
use std::alloc::Global;
use thiserror::Error;

/// The first reason, in this order, why a frame isn't written.
#[derive(Clone, Copy, Debug, PartialEq, Eq, Error)]
pub enum WriteFault {
    #[error("a field of the header is over its bound")]
    BadField,
    #[error("the data field is empty")]
    EmptyData,
    #[error("the data field has more than 1,019 octets")]
    TooLong,
    #[error("no memory")]
    NoMemory,
}

/// Returns the primary header of the frame that has this header and this data field (CCSDS 232.0-B, 4.1.2). The frame
/// consists of these five octets and the data field.
///
/// The bypass flag and the control command flag may have any values. If no frame has this header and this data field,
/// the call returns the first fault. Nothing is allocated, and `NoMemory` is never returned.
pub fn written_header(header: &Header, field: &[u8]) -> Result<[u8; 5], WriteFault>
    ensures frame { IfOk result (λ front. IsFrame (front ++ field.now) header.now field.now) }
    ensures five { IfOk result (λ front. length front ≡ 5) }
    ensures fault { MatchResult result (λ _. write_fault_of header.now field.now ≡ None) (λ fault. write_fault_of header.now field.now ≡ Some fault) }
{
    if header.scid > 1023 || header.vcid > 63 {
        return Err(WriteFault::BadField);
    }
    if field.is_empty() {
        return Err(WriteFault::EmptyData);
    }
    if field.len() > 1019 {
        return Err(WriteFault::TooLong);
    }
    Ok(primary_header(header, field.len() as u16 + 5))
}

/// Writes the frame that has this header and this data field.
///
/// The bypass flag and the control command flag may have any values. If no frame has this header and this data field,
/// the call returns the first fault. Only the frame itself is allocated.
pub fn write_frame(alloc: Global, header: &Header, field: &[u8]) -> Result<Vec<u8>, WriteFault>
    ensures frame { IfOk result (λ octets. IsFrame octets.items header.now field.now) }
    ensures written { OnOk result (write_fault_of header.now field.now ≡ None) }
    ensures refused { IfErr result (λ fault. fault ≡ unwrap_or (write_fault_of header.now field.now) WriteFault.NoMemory) }
{
    let front = written_header(header, field)?;
    let Ok(mut octets) = Vec::with_capacity(alloc, field.len() + 5) else {
        return Err(WriteFault::NoMemory);
    };
    octets.extend_from_slice(&front).unwrap();
    octets.extend_from_slice(field).unwrap();
    Ok(octets)
}

// Returns the primary header of a frame of `total` octets.
fn primary_header(header: &Header, total: u16) -> [u8; 5]
    requires scid { header.now.scid < 1024 }
    requires vcid { header.now.vcid < 64 }
    requires least { 1 ≤ total }
    requires most { total ≤ 1024 }
    ensures five { length result ≡ 5 }
    ensures octets { IsOctets result }
    ensures header { header_of result ≡ header.now }
    ensures version { version_of result ≡ 0 }
    ensures spare { spare_of result ≡ 0 }
    ensures named { named_length result ≡ total }
{
    let first = u16::from(header.bypass) * (1 << 13)
        + u16::from(header.control) * (1 << 12)
        + header.scid;
    let second = u16::from(header.vcid) * (1 << 10) + (total - 1);
    let [a, b] = first.to_be_bytes();
    let [c, d] = second.to_be_bytes();
    [a, b, c, d, header.ns]
}
