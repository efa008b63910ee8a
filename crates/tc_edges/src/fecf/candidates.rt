//! Taking frames out of the octets that a CLTU carried.

ghost use Rattle.std.specs.Prelude.{◌≡◌, Some, None, IfOk, MatchResult};
ghost use Rattle.tc_link.specs.Frame.{fault_of};
ghost use Rattle.tc_edges.specs.Fecf.Candidate.{IsDelimited, is_fill};

use tc_link::{FrameFault, read_frame};

/// A frame at the front of the octets that a CLTU carried, and the octets after it.
#[derive(Clone, Copy, Debug, PartialEq, Eq)]
pub struct Delimited<'a> {
    /// The frame, which has the 6 to 1,024 octets that its length field names.
    pub frame: &'a [u8],
    /// The octets after the frame. They are fill, or begin with the next frame, or belong to no frame.
    pub rest: &'a [u8],
}

/// Takes the frame off the front of the octets that a CLTU carried, by its length field alone (frame delimiting and
/// fill removal, CCSDS 232.0-B). A frame is delimited before its frame error control field is checked, since that field
/// is at the end of the frame. If the octets don't begin with a frame, the call returns the first fault.
///
/// Nothing is allocated.
pub fn delimit(octets: &[u8]) -> Result<Delimited<'_>, FrameFault>
    ensures frame { IfOk result (λ found. IsDelimited octets.now found.frame.now found.rest.now) }
    ensures fault { MatchResult result (λ _. fault_of octets.now ≡ None) (λ fault. fault_of octets.now ≡ Some fault) }
{
    let frame = read_frame(octets)?.octets();
    let (_, rest) = octets.split_at(frame.len());
    Ok(Delimited { frame, rest })
}

/// Returns whether the octets after a frame can be the fill of the last code block: at most six octets, which don't
/// begin with a frame. If they can't, the CLTU carried more: another frame, or more than six other octets.
///
/// Nothing is allocated.
pub fn is_fill(rest: &[u8]) -> bool
    ensures { result ≡ is_fill rest.now }
{
    rest.len() <= 6 && read_frame(rest).is_err()
}
