//! A law about the segments of a unit.

ghost use Rattle.std.specs.Prelude.{ℕ, ◌≤◌, List, length};
ghost use Rattle.tc_edges.specs.Write.Segments.{AreSegments, MakeUnit};

/// Data fields that carry the segments of a unit of 1 to 65,542 octets make that unit, by the definition of reassembly
/// in tc_packet.
pub fn the_segments_of_a_unit_make_the_unit()
    ensures { (map size : ℕ) (unit : List ℕ) (fields : List (List ℕ)) → 1 ≤ size → 1 ≤ length unit → length unit ≤ 65542
        → AreSegments map size unit fields → MakeUnit fields unit }
{}
