//! The explanation of a frame.

ghost use Rattle.tc_make.specs.Explanation.{Explains};

use tc_link::{Frame, Header, Kind, kind};

/// The fields of a frame, and the octets that follow it.
#[derive(Clone, Copy, Debug, PartialEq, Eq)]
pub struct Explanation<'a> {
    pub header: Header,
    pub kind: Kind,
    /// The data field.
    pub field: &'a [u8],
    /// The number of octets of the frame.
    pub length: usize,
    /// The octets that follow the frame.
    pub rest: &'a [u8],
}

/// Explains a frame that is followed by the octets `rest`. The call allocates nothing.
pub fn explain<'a>(frame: &Frame<'a>, rest: &'a [u8]) -> Explanation<'a>
    ensures { Explains frame.now rest.now result }
{
    Explanation {
        header: frame.header(),
        kind: kind(frame),
        field: frame.field(),
        length: frame.octets().len(),
        rest,
    }
}
