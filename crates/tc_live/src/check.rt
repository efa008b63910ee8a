//! The check of frames before they are brought to a channel.

ghost use Rattle.std.specs.Prelude.{◌≡◌, ◌↔◌, IfOk, IfErr, IsTrue, MatchOption};
ghost use Rattle.tc_live.specs.Check.{IsPassed, FailsCheck, IsFieldOff, HasWrongField, IsCandidatePassed, FailsCandidate, CarriesMore};

use std::alloc::Global;
use tc_channel::Octets;
use tc_edges::fecf::{FieldFault, delimit, is_fill, without_field};
use tc_text::{Line, Reason};

/// The check that octets must pass, which depends on whether frames end with a frame error control field.
#[derive(Clone, Copy, Debug, PartialEq, Eq)]
pub enum FrameCheck {
    /// No check, since frames have no frame error control field. All octets are brought to their channels.
    Nothing,
    /// A check of the frame error control field at the end of each frame (CCSDS 232.0-B, 4.1.4). Octets that aren't one
    /// whole frame with the right field are refused, and no channel sees them.
    ErrorControl,
}

impl FrameCheck {
    /// Returns the line to carry out, or `None` if the line doesn't pass the check. If frames are checked, a frame is
    /// copied to a new list without its field. Any other line is returned as it is. The only error is `NoMemory`.
    pub fn pass(self, alloc: Global, line: Line) -> Result<Option<Line>, Reason>
        ensures passed { IfOk result (λ passed. MatchOption passed (FailsCheck self line) (IsPassed self line)) }
        ensures reason { IfErr result (λ reason. reason ≡ Reason.NoMemory) }
    {
        match self {
            FrameCheck::Nothing => Ok(Some(line)),
            FrameCheck::ErrorControl => match line {
                Line::Frame(octets) => take_field_off(alloc, octets.as_slice()),
                other => Ok(Some(other)),
            },
        }
    }

    /// Returns the line to carry out for the octets that a CLTU carried, or `None` if they don't pass the check. If
    /// frames are checked, the frame ends where its length field says. It is copied to a new list without its frame
    /// error control field. The only error is `NoMemory`.
    pub fn pass_candidate(self, alloc: Global, octets: Octets) -> Result<Option<Line>, Reason>
        ensures passed { IfOk result (λ passed. MatchOption passed (FailsCandidate self octets) (IsCandidatePassed self octets)) }
        ensures reason { IfErr result (λ reason. reason ≡ Reason.NoMemory) }
    {
        match self {
            FrameCheck::Nothing => Ok(Some(Line::Frame(octets))),
            FrameCheck::ErrorControl => take_frame_off(alloc, octets.as_slice()),
        }
    }
}

/// Returns whether the octets that a CLTU carried begin with a frame, and more than fill follows it. The call allocates
/// nothing.
pub fn carries_more(octets: &[u8]) -> bool
    ensures { IsTrue result ↔ CarriesMore octets.now }
{
    match delimit(octets) {
        Ok(found) => !is_fill(found.rest),
        Err(_) => false,
    }
}

// Returns the line of the frame at the front of the octets, without the frame error control field. Returns `None` if
// this field is wrong, or if the octets don't begin with a frame.
fn take_frame_off(alloc: Global, octets: &[u8]) -> Result<Option<Line>, Reason>
    ensures passed { IfOk result (λ passed. MatchOption passed (FailsCandidate FrameCheck.ErrorControl octets.now)
        (IsCandidatePassed FrameCheck.ErrorControl octets.now)) }
    ensures reason { IfErr result (λ reason. reason ≡ Reason.NoMemory) }
{
    match delimit(octets) {
        Ok(found) => take_field_off(alloc, found.frame),
        Err(_) => Ok(None),
    }
}

// Returns the line of the frame `octets`, without its frame error control field. Returns `None` if the octets aren't
// one frame with the right field at its end.
fn take_field_off(alloc: Global, octets: &[u8]) -> Result<Option<Line>, Reason>
    ensures passed { IfOk result (λ passed. MatchOption passed (HasWrongField octets.now) (IsFieldOff octets.now)) }
    ensures reason { IfErr result (λ reason. reason ≡ Reason.NoMemory) }
{
    match without_field(alloc, octets) {
        Ok(plain) => Ok(Some(Line::Frame(Octets::from(plain)))),
        Err(FieldFault::NoMemory) => Err(Reason::NoMemory),
        Err(_) => Ok(None),
    }
}
