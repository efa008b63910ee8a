//! A record of whether frames that aren't checked end with a frame error control field.

ghost use Rattle.std.specs.Prelude.{◌≡◌};
ghost use Rattle.tc_live.specs.Ends.{ends_after, has_field};

use tc_edges::fecf::passes;
use tc_link::read_frame;

/// A record of whether each frame of the `frame` lines so far ended with a frame error control field. The record is
/// kept only if frames aren't checked, and serves for a hint to the user.
#[derive(Clone, Copy, Debug, PartialEq, Eq)]
pub enum FrameEnds {
    /// No frame has come yet.
    NoFrame,
    /// Each frame was whole and ended with its field.
    EachWithField,
    /// At least one frame wasn't whole, or didn't end with its field.
    OneWithout,
}

impl FrameEnds {
    // Returns the record after one more frame, which consists of these octets. Once a frame ended without the field, no
    // later frame is examined.
    pub(crate) fn after(self, octets: &[u8]) -> FrameEnds
        ensures { result ≡ ends_after self octets.now }
    {
        match self {
            FrameEnds::OneWithout => FrameEnds::OneWithout,
            _ if ends_with_field(octets) => FrameEnds::EachWithField,
            _ => FrameEnds::OneWithout,
        }
    }
}

// Returns whether the octets are one frame with the right field at its end.
fn ends_with_field(octets: &[u8]) -> bool
    ensures { result ≡ has_field octets.now }
{
    match read_frame(octets) {
        Ok(frame) => frame.octets().len() == octets.len() && octets.len() >= 8 && passes(octets),
        Err(_) => false,
    }
}
