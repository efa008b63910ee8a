//! The frame error control field.

ghost use Rattle.std.specs.Prelude.{◌≡◌, ◌≤◌, ◌+◌, Some, None, length, IfErr, OnOk};
ghost use Rattle.tc_link.specs.Frame.{IsWhole};
ghost use Rattle.tc_edges.specs.Fecf.Changes.{Passes};
ghost use Rattle.tc_edges.specs.Fecf.FrameWithField.{frame_with_field, adding_fault_of, taking_fault_of};

use crate::fecf::{FieldFault, checksum, passes, whole_frame};

/// Checks whether a field can be added to octets, which must be one frame of at most 1,022 octets, with nothing after
/// it. If it can't, the call returns the first fault.
pub fn check_adding(octets: &[u8]) -> Result<(), FieldFault>
    ensures whole { OnOk result (IsWhole octets.now) }
    ensures most { OnOk result (length octets.now ≤ 1022) }
    ensures right { OnOk result (adding_fault_of octets.now ≡ None) }
    ensures fault { IfErr result (λ fault. adding_fault_of octets.now ≡ Some fault) }
{
    whole_frame(octets)?;
    if octets.len() > 1022 {
        return Err(FieldFault::TooLong);
    }
    Ok(())
}

/// Writes the frame with its field into `made`, as [`with_field`](crate::fecf::with_field) does. `made` must be two
/// octets longer than the frame.
pub fn write_with_field(octets: &[u8], made: &mut [u8])
    requires whole { IsWhole octets.now }
    requires most { length octets.now ≤ 1022 }
    requires all { length made.old ≡ length octets.now + 2 }
    ensures { made.new ≡ frame_with_field octets.now }
{
    let [c, d] = (u16::from_be_bytes([octets[2], octets[3]]) + 2).to_be_bytes();
    let (before, field) = made.split_at_mut(octets.len());
    before.copy_from_slice(octets);
    before[2] = c;
    before[3] = d;
    field.copy_from_slice(&checksum(before).to_be_bytes());
}

/// Checks whether octets are one frame of at least 8 octets, with nothing after it, that ends with a right field. If
/// they aren't, the call returns the first fault.
pub fn check_taking(octets: &[u8]) -> Result<(), FieldFault>
    ensures whole { OnOk result (IsWhole octets.now) }
    ensures least { OnOk result (8 ≤ length octets.now) }
    ensures passes { OnOk result (Passes octets.now) }
    ensures right { OnOk result (taking_fault_of octets.now ≡ None) }
    ensures fault { IfErr result (λ fault. taking_fault_of octets.now ≡ Some fault) }
{
    whole_frame(octets)?;
    if octets.len() < 8 {
        return Err(FieldFault::TooShort);
    }
    if !passes(octets) {
        return Err(FieldFault::WrongSum);
    }
    Ok(())
}

/// Writes the frame in `octets`, without its frame error control field, into `plain`. The octets must have passed
/// `check_taking`, and `plain` must be two octets shorter.
pub fn write_without_field(octets: &[u8], plain: &mut [u8])
    requires whole { IsWhole octets.now }
    requires least { 8 ≤ length octets.now }
    requires passes { Passes octets.now }
    requires all { length plain.old + 2 ≡ length octets.now }
    ensures frame { octets.now ≡ frame_with_field plain.new }
    ensures whole { IsWhole plain.new }
{
    let [c, d] = (u16::from_be_bytes([octets[2], octets[3]]) - 2).to_be_bytes();
    let (before, _) = octets.split_at(plain.len());
    plain.copy_from_slice(before);
    plain[2] = c;
    plain[3] = d;
}
