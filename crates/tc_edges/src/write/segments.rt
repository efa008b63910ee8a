//! Frames whose data field is a segment.

ghost use Rattle.std.specs.Prelude.{◌≡◌, ◌<◌, ◌≤◌, ◌+◌, Some, length};
ghost use Rattle.tc_packet.specs.Segment.{segment_of};
ghost use Rattle.tc_edges.specs.Write.Frames.{IsMadeFrame};

use tc_link::{Header, written_header};
use tc_packet::{Part, Segment};

/// Returns the octet of this segment header (CCSDS 232.0-B, 4.1.3.2.2).
pub fn segment_octet(segment: Segment) -> u8
    requires { segment.map < 64 }
    ensures { segment_of result ≡ segment }
{
    let flags = match segment.part {
        Part::Continuing => 0,
        Part::First => 1,
        Part::Last => 2,
        Part::Unsegmented => 3,
    };
    flags * 64 + segment.map
}

/// Writes the frame with this header into `frame`, which must have the frame's length. The data field is the segment
/// header and these octets.
pub fn write_segment(header: &Header, segment: Segment, octets: &[u8], frame: &mut [u8])
    requires scid { header.now.scid < 1024 }
    requires vcid { header.now.vcid < 64 }
    requires map { segment.map < 64 }
    requires most { length octets.now ≤ 1018 }
    requires all { length frame.old ≡ length octets.now + 6 }
    ensures { IsMadeFrame frame.new header.now (Some segment) octets.now }
{
    let (front, field) = frame.split_at_mut(5);
    let (first, body) = field.split_at_mut(1);
    first.copy_from_slice(&[segment_octet(segment)]);
    body.copy_from_slice(octets);
    front.copy_from_slice(&written_header(header, field).unwrap());
}
