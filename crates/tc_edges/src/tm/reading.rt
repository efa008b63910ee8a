//! Reading telemetry frames.

ghost use Rattle.std.specs.Prelude.{◌≡◌, ◌≤◌, None, length, IfOk, MatchResult};
ghost use Rattle.tc_edges.specs.Tm.TmFrame.{fields_before_sum, tm_fields_of, read_fault_of};

use crate::fecf::passes;
use crate::tm::frame::{ErrorControl, TmHeader, least_length};
use thiserror::Error;

/// The fields of a telemetry frame with an operational control field (CCSDS 132.0-B, 4.1).
#[derive(Clone, Copy, Debug, PartialEq, Eq)]
pub struct TmFields {
    pub header: TmHeader,
    /// The first header pointer: the place in the data field at which the first packet begins. The value 2,046 means
    /// that all data are idle, and 2,047 that no packet begins.
    pub pointer: u16,
    /// The operational control field.
    pub control: [u8; 4],
}

/// The first reason, in this order, why octets aren't read as a telemetry frame.
#[derive(Clone, Copy, Debug, PartialEq, Eq, Error)]
pub enum TmReadFault {
    /// There are fewer than 11 octets, or fewer than 13 if frames have a frame error control field.
    #[error("too few octets")]
    Short,
    #[error("the version isn't 0")]
    Version,
    #[error("there is no operational control field")]
    NoControl,
    #[error("the frame error control field is wrong")]
    WrongSum,
}

/// Reads octets as one telemetry frame, or returns the first fault. All octets belong to the frame, whose length the
/// physical channel fixes. A secondary header and packets aren't interpreted.
///
/// Nothing is allocated.
pub fn read_tm(error: ErrorControl, octets: &[u8]) -> Result<TmFields, TmReadFault>
    ensures fields { IfOk result (λ fields. fields ≡ tm_fields_of error octets.now) }
    ensures fault { MatchResult result (λ _. read_fault_of error octets.now ≡ None) (λ fault. read_fault_of error octets.now ≡ Some fault) }
{
    if octets.len() < least_length(error) {
        return Err(TmReadFault::Short);
    }
    let first = u16::from_be_bytes([octets[0], octets[1]]);
    if first >> 14 != 0 {
        return Err(TmReadFault::Version);
    }
    if first & 1 == 0 {
        return Err(TmReadFault::NoControl);
    }
    match error {
        ErrorControl::Absent => Ok(read_fields(octets)),
        ErrorControl::Present => {
            if !passes(octets) {
                return Err(TmReadFault::WrongSum);
            }
            Ok(read_fields(&octets[..octets.len() - 2]))
        }
    }
}

// Reads the fields of a frame that has no error control field, or whose error control field was cut off.
fn read_fields(octets: &[u8]) -> TmFields
    requires { 11 ≤ length octets.now }
    ensures { result ≡ fields_before_sum octets.now }
{
    let first = u16::from_be_bytes([octets[0], octets[1]]);
    let status = u16::from_be_bytes([octets[4], octets[5]]);
    let mut control = [0; 4];
    control.copy_from_slice(&octets[octets.len() - 4..]);
    TmFields {
        header: TmHeader {
            scid: (first >> 4) & 0x3ff,
            vcid: ((first >> 1) & 7) as u8,
            master_count: octets[2],
            channel_count: octets[3],
        },
        pointer: status & 0x7ff,
        control,
    }
}
