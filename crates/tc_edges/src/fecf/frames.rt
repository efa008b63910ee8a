//! Frames with and without the field.

ghost use Rattle.std.specs.Prelude.{◌≡◌, ◌<◌, ◌≤◌, Some, None, length, unwrap_or, IfOk, IfErr, OnOk, MatchResult};
ghost use Rattle.tc_link.specs.Frame.{IsWhole};
ghost use Rattle.tc_edges.specs.Fecf.FrameWithField.{frame_with_field, frame_fault_of, adding_fault_of, taking_fault_of};

use crate::fecf::sum::{checksum, passes};
use std::alloc::Global;
use tc_link::{Frame, FrameFault, read_frame};
use thiserror::Error;

/// The first reason, in this order, why a field isn't added to a frame or isn't removed from it.
#[derive(Clone, Copy, Debug, PartialEq, Eq, Error)]
pub enum FieldFault {
    /// The octets don't begin with a frame.
    #[error("no frame: {0}")]
    NoFrame(FrameFault),
    /// Octets follow the frame. The frame error control field has to be the last two octets, so no fill may follow it.
    #[error("octets after the frame")]
    Fill,
    /// The frame has more than 1,022 octets. With a field it would have more than 1,024.
    #[error("more than 1,022 octets")]
    TooLong,
    /// The frame has fewer than 8 octets. It has no octet between the primary header and a field.
    #[error("fewer than 8 octets")]
    TooShort,
    #[error("the frame error control field is wrong")]
    WrongSum,
    #[error("no memory")]
    NoMemory,
}

/// Returns the frame with its frame error control field. Its frame length counts two octets more than before, and the
/// frame error control field covers all octets before it.
///
/// The octets must be one frame of at most 1,022 octets, with nothing after it. The only allocation is the new frame.
pub fn with_field(alloc: Global, octets: &[u8]) -> Result<Vec<u8>, FieldFault>
    ensures frame { IfOk result (λ made. made.items ≡ frame_with_field octets.now) }
    ensures whole { IfOk result (λ made. IsWhole made.items) }
    ensures added { OnOk result (adding_fault_of octets.now ≡ None) }
    ensures refused { IfErr result (λ fault. fault ≡ unwrap_or (adding_fault_of octets.now) FieldFault.NoMemory) }
{
    whole_frame(octets)?;
    if octets.len() > 1022 {
        return Err(FieldFault::TooLong);
    }
    let Ok(mut made) = Vec::with_capacity(alloc, octets.len() + 2) else {
        return Err(FieldFault::NoMemory);
    };
    let [c, d] = (u16::from_be_bytes([octets[2], octets[3]]) + 2).to_be_bytes();
    made.extend_from_slice(&[octets[0], octets[1], c, d])
        .unwrap();
    made.extend_from_slice(&octets[4..]).unwrap();
    let sum = checksum(&made).to_be_bytes();
    made.extend_from_slice(&sum).unwrap();
    Ok(made)
}

/// Returns the frame without its frame error control field, if that field is right. The result is the only frame that
/// [`with_field`] turns into these octets.
///
/// The octets must be one frame of at least 8 octets, with nothing after it. The only allocation is the new frame.
pub fn without_field(alloc: Global, octets: &[u8]) -> Result<Vec<u8>, FieldFault>
    ensures frame { IfOk result (λ plain. octets.now ≡ frame_with_field plain.items) }
    ensures whole { IfOk result (λ plain. IsWhole plain.items) }
    ensures taken { OnOk result (taking_fault_of octets.now ≡ None) }
    ensures refused { IfErr result (λ fault. fault ≡ unwrap_or (taking_fault_of octets.now) FieldFault.NoMemory) }
{
    whole_frame(octets)?;
    if octets.len() < 8 {
        return Err(FieldFault::TooShort);
    }
    if !passes(octets) {
        return Err(FieldFault::WrongSum);
    }
    let end = octets.len() - 2;
    let Ok(mut plain) = Vec::with_capacity(alloc, end) else {
        return Err(FieldFault::NoMemory);
    };
    let [c, d] = (u16::from_be_bytes([octets[2], octets[3]]) - 2).to_be_bytes();
    plain
        .extend_from_slice(&[octets[0], octets[1], c, d])
        .unwrap();
    plain.extend_from_slice(&octets[4..end]).unwrap();
    Ok(plain)
}

/// Checks that the octets are one frame, with nothing after it.
pub(crate) fn whole_frame(octets: &[u8]) -> Result<(), FieldFault>
    ensures whole { OnOk result (IsWhole octets.now) }
    ensures right { OnOk result (frame_fault_of octets.now ≡ None) }
    ensures fault { IfErr result (λ fault. frame_fault_of octets.now ≡ Some fault) }
{
    let frame = read_frame(octets).map_err(FieldFault::NoFrame)?;
    if frame.octets().len() < octets.len() {
        return Err(FieldFault::Fill);
    }
    Ok(())
}
