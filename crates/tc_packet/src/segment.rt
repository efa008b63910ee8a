//! Segment headers (CCSDS 232.0-B, 4.1.3.2.2).

ghost use Rattle.std.specs.Prelude.{◌≡◌, ◌<◌};
ghost use Rattle.tc_packet.specs.Segment.{part_by, segment_of};

/// The part of a unit that a segment carries.
#[derive(Clone, Copy, Debug, PartialEq, Eq)]
pub enum Part {
    First,
    Continuing,
    Last,
    Unsegmented,
}

/// The fields of a segment header. A MAP id is at most 63.
#[derive(Clone, Copy, Debug, PartialEq, Eq)]
pub struct Segment {
    pub part: Part,
    pub map: u8,
}

/// Reads the sequence flags and the MAP id of a segment header.
pub fn read_segment(octet: u8) -> Segment
    ensures { result ≡ segment_of octet }
{
    Segment {
        part: part_of(octet >> 6),
        map: octet & 0x3f,
    }
}

fn part_of(sequence_flags: u8) -> Part
    requires { sequence_flags < 4 }
    ensures { result ≡ part_by sequence_flags }
{
    match sequence_flags {
        0 => Part::Continuing,
        1 => Part::First,
        2 => Part::Last,
        _ => Part::Unsegmented,
    }
}
