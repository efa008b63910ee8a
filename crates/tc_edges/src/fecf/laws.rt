//! Laws about the frame error control field, and about the changes of bits that it detects.

ghost use Rattle.std.specs.Prelude.{◌≡◌, ◌≢◌, ◌⊎◌, ◌<◌, ◌≤◌, ◌+◌, ◌%◌, ◌++◌, ◌↔◌, ℕ, List, None, true, length, drop};
ghost use Rattle.std.specs.List.{concat, AllByRecursion};
ghost use Rattle.tc_link.specs.Frame.{IsOctets, IsWhole, IsFrame, header_of};
ghost use Rattle.tc_edges.specs.Fecf.Checksum.{checksum_of, bits_of};
ghost use Rattle.tc_edges.specs.Fecf.Division.{IsRemainder};
ghost use Rattle.tc_edges.specs.Fecf.Changes.{SameOctets, SameBits, Passes, differences};
ghost use Rattle.tc_edges.specs.Fecf.Candidate.{IsDelimited, AreDelimited, is_fill};
ghost use Rattle.tc_edges.specs.Fecf.FrameWithField.{spelled, octets_before_field, frame_with_field, frame_fault_of, adding_fault_of, taking_fault_of};

/// The field over octets is the remainder of the polynomial division, and that division has no other remainder.
pub fn the_field_is_the_remainder()
    ensures remainder { (octets : List ℕ) → IsRemainder (checksum_of octets) (bits_of octets) }
    ensures only { (r s : ℕ) (bits : List ℕ) → IsRemainder r bits → IsRemainder s bits → r ≡ s }
{}

/// Octets followed by the field over them pass the check. Adding the field to a frame of at most 1,022 octets yields a
/// frame with the same header fields, which ends with the field over all octets before it. Adding the field to two
/// different frames yields two different frames.
pub fn a_field_comes_off_as_it_went_on()
    ensures passes { (octets : List ℕ) → Passes (octets ++ spelled (checksum_of octets)) }
    ensures frame { (frame : List ℕ) → IsWhole frame → length frame ≤ 1022
        → IsFrame (frame_with_field frame) (header_of frame) (drop 5 frame ++ spelled (checksum_of (octets_before_field frame))) }
    ensures right { (frame : List ℕ) → Passes (frame_with_field frame) }
    ensures one { (one other : List ℕ) → IsWhole one → IsWhole other → frame_with_field one ≡ frame_with_field other → one ≡ other }
{}

/// Octets have no fault for adding a field exactly when they are one frame of at most 1,022 octets. They have no fault
/// for removing a field exactly when they are one frame of at least 8 octets that passes.
pub fn just_frames_with_room_for_the_field_have_no_fault()
    ensures frame { (octets : List ℕ) → IsOctets octets → (frame_fault_of octets ≡ None) ↔ IsWhole octets }
    ensures adding { (octets : List ℕ) → IsOctets octets → (adding_fault_of octets ≡ None) ↔ (IsWhole octets × (length octets ≤ 1022)) }
    ensures taking { (octets : List ℕ) → IsOctets octets → (taking_fault_of octets ≡ None) ↔ (IsWhole octets × (8 ≤ length octets) × Passes octets) }
{}

/// Two lists with the same number of octets that differ only within 16 consecutive bits don't both pass.
///
/// Each change of one bit and each burst of up to 16 bits is therefore detected.
pub fn a_burst_of_16_bits_is_detected()
    ensures { (one other : List ℕ) (i : ℕ) → SameOctets one other → SameBits one other (λ k. (k < i) ⊎ (i + 16 ≤ k)) → Passes one
        → Passes other → one ≡ other }
{}

/// Two lists with the same number of octets that differ in two bits, less than 32,767 bits apart, don't both pass. Any
/// two bits of a frame are closer than that, since a frame has at most 8,192 bits.
pub fn a_change_of_two_bits_is_detected()
    ensures { (one other : List ℕ) (i j : ℕ) → j < i + 32767 → i < j + 32767 → SameOctets one other → SameBits one other (λ k. (k ≢ i) × (k ≢ j))
        → Passes one → Passes other → one ≡ other }
{}

/// Two lists with the same number of octets that differ in three bits, all less than 32,767 bits apart, don't both
/// pass.
pub fn a_change_of_three_bits_is_detected()
    ensures { (one other : List ℕ) (i j k : ℕ) → i < j → j < k → k < i + 32767 → SameOctets one other
        → SameBits one other (λ p. (p ≢ i) × (p ≢ j) × (p ≢ k))
        → Passes one → Passes other → one ≡ other }
{}

/// Two lists with the same number of octets that differ in an odd number of bits don't both pass.
pub fn a_change_of_an_odd_number_of_bits_is_detected()
    ensures { (one other : List ℕ) → SameOctets one other → differences (bits_of one) (bits_of other) % 2 ≡ 1 → Passes one → Passes other → ⊥ }
{}

/// The octets that a CLTU carried divide into frames and a rest in only one way. If at most `most` whole frames stand
/// in front of fill, exactly these frames are found.
pub fn each_candidate_is_delimited_in_one_way()
    ensures one { (octets frame other rest behind : List ℕ) → IsDelimited octets frame rest → IsDelimited octets other behind
        → (frame ≡ other) × (rest ≡ behind) }
    ensures only { (most : ℕ) (octets rest behind : List ℕ) (frames others : List (List ℕ)) → AreDelimited most octets frames rest
        → AreDelimited most octets others behind → (frames ≡ others) × (rest ≡ behind) }
    ensures filled { (most : ℕ) (rest : List ℕ) (frames : List (List ℕ)) → AllByRecursion IsWhole frames → length frames ≤ most → is_fill rest ≡ true
        → AreDelimited most (concat frames ++ rest) frames rest }
{}
