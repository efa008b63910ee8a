//! Laws about telemetry frames that are written and read, and about their frame counts.

ghost use Rattle.std.specs.Prelude.{◌≡◌, ◌≤◌, ◌∷◌, [], ℕ, List, Some, None, length, replicate};
ghost use Rattle.tc_edges.specs.Tm.TmFrame.{IsTmHeader, primary_header, tm_frame, only_idle, least_length, tm_fault_of, tm_fields_of, read_fault_of};
ghost use Rattle.tc_edges.specs.Tm.Counting.{none_yet, next_header, frame_counted};
ghost use Rattle.tc_edges.specs.declared.tm.frame.ErrorControl.{ErrorControl};
ghost use Rattle.tc_edges.specs.declared.tm.frame.ErrorControl.TheVariants.{Absent, Present};
ghost use Rattle.tc_edges.specs.declared.tm.frame.TmFault.TheVariants.{BadScid, BadVcid, BadLength};
ghost use Rattle.tc_edges.specs.declared.tm.frame.TmHeader.{TmHeader};
ghost use Rattle.tc_edges.specs.declared.tm.reading.TmReadFault.TheVariants.{Short, Version, NoControl, WrongSum};
ghost use Rattle.tc_edges.specs.Tm.Examples as example;

/// A written frame has the requested length. Its fields read back as the values from which it was written.
pub fn a_written_frame_reads_back()
    ensures long { (error : ErrorControl) (header : TmHeader) (control : List ℕ) (n : ℕ) → length control ≡ 4 → least_length error ≤ n
        → length (tm_frame error header control n) ≡ n }
    ensures read { (error : ErrorControl) (header : TmHeader) (control : List ℕ) (n : ℕ) → IsTmHeader header → length control ≡ 4
        → least_length error ≤ n
        → read_fault_of error (tm_frame error header control n) ≡ None }
    ensures fields { (error : ErrorControl) (header : TmHeader) (control : List ℕ) (n : ℕ) → IsTmHeader header
        → length control ≡ 4 → least_length error ≤ n
        → tm_fields_of error (tm_frame error header control n) ≡ record { header = header; pointer = only_idle; control = control } }
{}

/// States an example of a telemetry frame, worked out by hand: its primary header, with the first header pointer for
/// only idle data, an idle octet, the operational control field, and the error control field.
#[tactic(auto, unfolding(crate::specs::Fecf::Checksum::octet_bits, crate::specs::Fecf::Checksum::times_x))]
pub fn a_telemetry_frame_is_so()
    ensures header { primary_header example.header ≡ 0x02 ∷ 0xa3 ∷ 0xff ∷ 0x07 ∷ 0x1f ∷ 0xfe ∷ [] }
    ensures frame { tm_frame Absent example.header example.control 11 ≡ example.frame }
    ensures with_sum { tm_frame Present example.header example.control 13 ≡ example.frame_with_sum }
    ensures two_idle_octets { tm_frame Absent example.header example.control 12
        ≡ 0x02 ∷ 0xa3 ∷ 0xff ∷ 0x07 ∷ 0x1f ∷ 0xfe ∷ 0x55 ∷ 0x55 ∷ example.control }
    ensures read { tm_fields_of Absent example.frame ≡ example.fields }
    ensures read_with_sum { tm_fields_of Present example.frame_with_sum ≡ example.fields }
    ensures readable { read_fault_of Absent example.frame ≡ None }
    ensures right { read_fault_of Present example.frame_with_sum ≡ None }
{}

/// States examples, worked out by hand, of the bounds of telemetry frames, and of octets that don't read as a telemetry
/// frame.
#[tactic(auto, unfolding(crate::specs::Fecf::Checksum::octet_bits, crate::specs::Fecf::Checksum::times_x))]
pub fn telemetry_frames_are_bounded_so()
    ensures longest { tm_fault_of Present 1023 7 2048 ≡ None }
    ensures shortest { tm_fault_of Absent 0 0 11 ≡ None }
    ensures shortest_with_sum { tm_fault_of Present 0 0 13 ≡ None }
    ensures scid { tm_fault_of Present 1024 8 10 ≡ Some BadScid }
    ensures vcid { tm_fault_of Present 1023 8 10 ≡ Some BadVcid }
    ensures too_short { tm_fault_of Absent 1023 7 10 ≡ Some BadLength }
    ensures too_short_with_sum { tm_fault_of Present 1023 7 12 ≡ Some BadLength }
    ensures too_long { tm_fault_of Absent 1023 7 2049 ≡ Some BadLength }
    ensures few_octets { read_fault_of Absent (0x42 ∷ 0xa2 ∷ 0xff ∷ 0x07 ∷ 0x1f ∷ 0xfe ∷ example.control) ≡ Some Short }
    ensures version { read_fault_of Absent (0x42 ∷ 0xa2 ∷ 0xff ∷ 0x07 ∷ 0x1f ∷ 0xfe ∷ 0x55 ∷ example.control) ≡ Some Version }
    ensures no_control { read_fault_of Absent (0x02 ∷ 0xa2 ∷ 0xff ∷ 0x07 ∷ 0x1f ∷ 0xfe ∷ 0x55 ∷ example.control) ≡ Some NoControl }
    ensures wrong_sum { read_fault_of Present
        (0x02 ∷ 0xa3 ∷ 0xff ∷ 0x07 ∷ 0x1f ∷ 0xfe ∷ 0x55 ∷ 0x01 ∷ 0x04 ∷ 0x00 ∷ 0x01 ∷ 0x73 ∷ 0xd3 ∷ []) ≡ Some WrongSum }
{}

/// States examples, worked out by hand, of the counts of telemetry frames. The frames are counted for each spacecraft
/// and for each virtual channel. After 255 a count continues with 0.
#[tactic(auto, unfolding(crate::specs::Tm::Counting::none_yet))]
pub fn telemetry_frames_are_counted_so()
    ensures first { next_header none_yet 42 1 ≡ record { scid = 42; vcid = 1; master_count = 0; channel_count = 0 } }
    ensures next { next_header (frame_counted none_yet 42 1) 42 1 ≡ record { scid = 42; vcid = 1; master_count = 1; channel_count = 1 } }
    ensures other_channel { next_header (frame_counted none_yet 42 1) 42 2 ≡ record { scid = 42; vcid = 2; master_count = 1; channel_count = 0 } }
    ensures from_255 { next_header (frame_counted (record { masters = replicate 43 255; channels = replicate 338 255 }) 42 1) 42 1
        ≡ record { scid = 42; vcid = 1; master_count = 0; channel_count = 0 } }
    ensures other_spacecraft { next_header (frame_counted none_yet 42 1) 43 1 ≡ record { scid = 43; vcid = 1; master_count = 0; channel_count = 0 } }
{}
