//! Laws about the definitions of this crate.

ghost use Rattle.std.specs.Prelude.{◌≡◌, ◌<◌, ◌≤◌, ◌↔◌, ◌∷◌, [], ◌++◌, ℕ, true, false, List, length, Option, Some, None, take};
ghost use Rattle.tc_packet.specs.declared.service.Service.{Service};
ghost use Rattle.tc_packet.specs.Reassembly.{IsLeftByFields, IsOpenRun, IsUnit, IsWithinLimit, largest_unit, open_run, place_of, run_left, stream_count, unit_at, unit_ended};
ghost use Rattle.tc_packet.specs.Runs.{next_run};
ghost use Rattle.tc_packet.specs.Segment.{header_of, body_of, segment_of};
ghost use Rattle.tc_packet.specs.PacketFields.{HasFields};
ghost use Rattle.tc_packet.specs.declared.packet.Packet.{Packet};
ghost use Rattle.tc_packet.specs.declared.segment.Part.TheVariants as parts;
ghost use Rattle.tc_packet.specs.SpacePacket.{IsCut, IsPacket, packets_of, rest_of};

/// States examples worked out by hand: the sequence flags and the MAP id of segment headers, the fields of a primary
/// header, and units with the packets and the rest that they are cut into.
pub fn segments_and_packets_are_so()
    ensures unsegmented { segment_of 0xc0 ≡ record { part = parts.Unsegmented; map = 0 } }
    ensures first { segment_of 0x41 ≡ record { part = parts.First; map = 1 } }
    ensures continuing { segment_of 0x3f ≡ record { part = parts.Continuing; map = 63 } }
    ensures last { segment_of 0x80 ≡ record { part = parts.Last; map = 0 } }
    ensures telecommand { (p : Packet) → HasFields p → p.octets.now ≡ 0x10 ∷ 0x05 ∷ 0xc0 ∷ 0x00 ∷ 0x00 ∷ 0x00 ∷ 0xaa ∷ []
        → (p.telecommand ≡ true) × (p.secondary ≡ false) × (p.apid ≡ 5) × (p.flags ≡ 3) × (p.count ≡ 0) }
    ensures telemetry { (p : Packet) → HasFields p → p.octets.now ≡ 0x0f ∷ 0xff ∷ 0x40 ∷ 0x01 ∷ 0x00 ∷ 0x01 ∷ 0xaa ∷ 0xbb ∷ []
        → (p.telecommand ≡ false) × (p.secondary ≡ true) × (p.apid ≡ 2047) × (p.flags ≡ 1) × (p.count ≡ 1) }
    ensures packets { packets_of (0x10 ∷ 0x05 ∷ 0xc0 ∷ 0x00 ∷ 0x00 ∷ 0x00 ∷ 0xaa ∷ 0x0f ∷ 0xff ∷ 0x40 ∷ 0x01 ∷ 0x00 ∷ 0x01 ∷ 0xaa ∷ 0xbb ∷ 0xff ∷ [])
        ≡ (0x10 ∷ 0x05 ∷ 0xc0 ∷ 0x00 ∷ 0x00 ∷ 0x00 ∷ 0xaa ∷ []) ∷ (0x0f ∷ 0xff ∷ 0x40 ∷ 0x01 ∷ 0x00 ∷ 0x01 ∷ 0xaa ∷ 0xbb ∷ []) ∷ [] }
    ensures rest { rest_of (0x10 ∷ 0x05 ∷ 0xc0 ∷ 0x00 ∷ 0x00 ∷ 0x00 ∷ 0xaa ∷ 0x10 ∷ 0x05 ∷ []) ≡ 0x10 ∷ 0x05 ∷ [] }
    ensures other_version { packets_of (0x30 ∷ 0x05 ∷ 0xc0 ∷ 0x00 ∷ 0x00 ∷ 0x00 ∷ 0xaa ∷ []) ≡ [] }
    ensures cut_short { packets_of (0x10 ∷ 0x05 ∷ 0xc0 ∷ 0x00 ∷ 0x00 ∷ 0x01 ∷ 0xaa ∷ []) ≡ [] }
{}

/// A unit has exactly one cut, which `packets_of` and `rest_of` compute.
pub fn each_unit_has_one_cut()
    ensures cut { (unit : List ℕ) → IsCut unit (packets_of unit) (rest_of unit) }
    ensures only { (unit : List ℕ) (ps : List (List ℕ)) (rest : List ℕ) → IsCut unit ps rest → (ps ≡ packets_of unit) × (rest ≡ rest_of unit) }
{}

/// A list of octets begins with at most one packet.
pub fn each_input_begins_with_one_packet_at_most()
    ensures { (octets : List ℕ) (n m : ℕ) → IsPacket (take n octets) → IsPacket (take m octets) → take n octets ≡ take m octets }
{}

/// A stream has an open run exactly when its fields end with a first segment and any number of continuing segments, and
/// the joined bodies of these segments are within the limit. The run consists of the joined bodies.
pub fn an_open_run_looks_back_over_its_stream()
    ensures { (fields : List (List ℕ)) (octets : List ℕ) → (open_run fields ≡ Some octets) ↔ IsOpenRun fields octets }
{}

/// A field completes a unit in two cases. The body of an unsegmented field is a unit. The open run and the body of a
/// last segment together are a unit. In both cases the unit must be within the limit.
pub fn a_unit_looks_back_over_its_stream()
    ensures { (fields : List (List ℕ)) (field octets : List ℕ) → (unit_at fields field ≡ Some octets) ↔ IsUnit fields field octets }
{}

/// On each MAP, each run within the limit is the open run after some list of fields. No fields leave a run beyond the
/// limit open, and none complete a unit beyond the limit.
pub fn each_run_within_the_limit_is_left_by_fields()
    ensures left { (map : ℕ) (run : Option (List ℕ)) → map < 64 → IsWithinLimit run → IsLeftByFields map run }
    ensures only { (fields : List (List ℕ)) → IsWithinLimit (open_run fields) }
    ensures units { (fields : List (List ℕ)) (field : List ℕ) → IsWithinLimit (unit_at fields field) }
{}

/// The run after one more field depends only on the run before that field, and on the field's part and body. A first
/// segment begins a run, and a continuing segment extends the open run. If the run would then be over the limit, no run
/// is open. After any other segment no run is open either.
pub fn one_more_field_moves_its_run_on()
    ensures { (fields : List (List ℕ)) (field : List ℕ)
        → open_run (fields ++ field ∷ []) ≡ next_run (header_of field).part (open_run fields) (body_of field) }
{}

/// Without segment headers, no run is ever open, and a field is a unit by itself exactly when it is within the limit.
pub fn a_plain_field_is_a_unit_by_itself()
    ensures unit { (fields : List (List ℕ)) (field octets : List ℕ)
        → (unit_ended false fields field ≡ Some octets) ↔ ((octets ≡ field) × (length field ≤ largest_unit)) }
    ensures run { (fields : List (List ℕ)) → run_left false fields ≡ None }
{}

/// Each stream has its own place among the open runs.
pub fn each_stream_has_a_place_of_its_own()
    ensures within { (service : Service) (map : ℕ) → map < 64 → place_of service map < stream_count }
    ensures own { (service other : Service) (map id : ℕ) → map < 64 → id < 64 → place_of service map ≡ place_of other id
        → (service ≡ other) × (map ≡ id) }
{}
