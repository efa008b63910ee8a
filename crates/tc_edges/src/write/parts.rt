//! The segments of a unit, place by place.

ghost use Rattle.std.specs.Prelude.{◌≡◌, ◌<◌, ◌≤◌, length};
ghost use Rattle.tc_edges.specs.Write.Frames.{header_later};
ghost use Rattle.tc_edges.specs.Write.Parts.{segments_needed, part_at, piece_at};

use tc_link::Header;
use tc_packet::{Part, Segment};

/// Returns the number of segments that carry a unit of `octets` octets. Each segment but the last carries `size`
/// octets, and the last one carries the rest.
pub fn segment_count(size: usize, octets: usize) -> usize
    requires some { 1 ≤ size }
    requires few { size ≤ 1018 }
    requires most { octets ≤ 65542 }
    ensures { result ≡ segments_needed size octets }
{
    (octets + size - 1) / size
}

/// Returns the header of the segment at this place, counted from 0, out of `count` segments.
pub fn segment_header(map: u8, place: usize, count: usize) -> Segment
    requires { place < count }
    ensures { result ≡ record { part = part_at place count; map = map } }
{
    let part = if count == 1 {
        Part::Unsegmented
    } else if place == 0 {
        Part::First
    } else if place == count - 1 {
        Part::Last
    } else {
        Part::Continuing
    };
    Segment { part, map }
}

/// Returns the octets of the unit that the segment at this place, counted from 0, carries. There are `size` of them, or
/// fewer in the last segment.
pub fn piece(unit: &[u8], size: usize, place: usize) -> &[u8]
    requires some { 1 ≤ size }
    requires most { length unit.now ≤ 65542 }
    requires there { place < segments_needed size (length unit.now) }
    ensures { result.now ≡ piece_at size unit.now place }
{
    let (_, rest) = unit.split_at(place * size);
    if rest.len() > size {
        &rest[..size]
    } else {
        rest
    }
}

/// Returns the header of the frame that carries the segment at this place. `first` is the header of the frame that
/// carries the first segment. The N(S) of Type-AD frames counts up modulo 256.
pub fn later_header(first: &Header, place: usize) -> Header
    ensures { result ≡ header_later first.now place }
{
    if first.bypass {
        return *first;
    }
    Header {
        ns: first.ns.wrapping_add((place % 256) as u8),
        ..*first
    }
}
