//! Laws about the definitions of this crate.

ghost use Rattle.std.specs.Prelude.{◌≡◌, ◌≢◌, ◌⊎◌, ◌<◌, ◌≤◌, ◌+◌, ◌%◌, ◌^◌, ◌++◌, ◌↔◌, ◌∷◌, [], ℕ, Bool, List, Some, None, true, false, IsSome, IsTrue, replicate};
ghost use Rattle.tc_link.specs.declared.frame.Header.{Header};
ghost use Rattle.tc_link.specs.declared.command.Kind.{Kind};
ghost use Rattle.tc_link.specs.declared.farm.Report.{Report};
ghost use Rattle.tc_link.specs.declared.farm.State.TheVariants.{S1, S2, S3};
ghost use Rattle.tc_link.specs.declared.clcw.Link.{Link};
ghost use Rattle.tc_link.specs.Frame.{IsFrame, IsHeader, IsField, IsOctets, IsWhole, BeginsWith, header_of, named_length, fault_of, write_fault_of};
ghost use Rattle.tc_link.specs.declared.frame.FrameFault.TheVariants as faults;
ghost use Rattle.tc_link.specs.declared.writing.WriteFault.TheVariants as writing;
ghost use Rattle.tc_link.specs.Window.{some_of_first};
ghost use Rattle.tc_link.specs.Farm.{Row, E1, E7, E8, E10, entry, frame_row, after};
ghost use Rattle.tc_link.specs.Clcw.{IsClcw, word_of, fields_of, reported};

/// A list of octets begins with at most one frame.
pub fn each_input_begins_with_one_frame_at_most()
    ensures { (octets one other : List ℕ) → BeginsWith octets one → BeginsWith octets other → one ≡ other }
{}

/// A header and a data field make a frame exactly when each field of the header fits its bits and the data field has 1
/// to 1,019 octets. They never make two different frames.
///
/// If fill follows a frame, the octets begin with that frame and with no other.
pub fn each_header_and_field_have_one_frame()
    ensures some { (header : Header) (field : List ℕ) → IsHeader header → IsField field → (frame : List ℕ) × IsFrame frame header field }
    ensures only { (one other field : List ℕ) (header : Header) → IsFrame one header field → IsFrame other header field → one ≡ other }
    ensures header { (frame field : List ℕ) (header : Header) → IsFrame frame header field → IsHeader header }
    ensures field { (frame field : List ℕ) (header : Header) → IsFrame frame header field → IsField field }
    ensures filled { (frame fill : List ℕ) → IsWhole frame → BeginsWith (frame ++ fill) frame }
    ensures no_other { (frame fill other : List ℕ) → IsWhole frame → BeginsWith (frame ++ fill) other → other ≡ frame }
{}

/// States examples of transfer frames, worked out by hand: the fields and the lengths that headers spell, octets with
/// and without a fault, and headers and data fields with and without a write fault.
pub fn frames_are_so()
    ensures header { header_of (0x00 ∷ 0x2a ∷ 0x04 ∷ 0x0c ∷ 0x05 ∷ []) ≡ record { bypass = false; control = false; scid = 42; vcid = 1; ns = 5 } }
    ensures largest { header_of (0x33 ∷ 0xff ∷ 0xff ∷ 0xff ∷ 0xff ∷ []) ≡ record { bypass = true; control = true; scid = 1023; vcid = 63; ns = 255 } }
    ensures bypass { header_of (0x22 ∷ 0x00 ∷ 0x80 ∷ 0x05 ∷ 0x00 ∷ []) ≡ record { bypass = true; control = false; scid = 512; vcid = 32; ns = 0 } }
    ensures length { named_length (0x00 ∷ 0x2a ∷ 0x04 ∷ 0x0c ∷ 0x00 ∷ []) ≡ 13 }
    ensures longest { named_length (0x00 ∷ 0x2a ∷ 0x07 ∷ 0xff ∷ 0x00 ∷ []) ≡ 1024 }
    ensures right { fault_of (0x00 ∷ 0x2a ∷ 0x04 ∷ 0x05 ∷ 0x00 ∷ 0xaa ∷ []) ≡ None }
    ensures short { fault_of (0x40 ∷ 0x2a ∷ 0x04 ∷ 0x05 ∷ []) ≡ Some faults.Short }
    ensures version { fault_of (0x44 ∷ 0x2a ∷ 0x04 ∷ 0x04 ∷ 0x00 ∷ []) ≡ Some faults.Version }
    ensures spare { fault_of (0x04 ∷ 0x2a ∷ 0x04 ∷ 0x04 ∷ 0x00 ∷ []) ≡ Some faults.Spare }
    ensures other_spare { fault_of (0x08 ∷ 0x2a ∷ 0x04 ∷ 0x04 ∷ 0x00 ∷ []) ≡ Some faults.Spare }
    ensures length_small { fault_of (0x00 ∷ 0x2a ∷ 0x04 ∷ 0x04 ∷ 0x00 ∷ []) ≡ Some faults.LengthSmall }
    ensures truncated { fault_of (0x00 ∷ 0x2a ∷ 0x04 ∷ 0x06 ∷ 0x00 ∷ 0xaa ∷ []) ≡ Some faults.Truncated }
    ensures fits { write_fault_of (record { bypass = false; control = false; scid = 1023; vcid = 63; ns = 0 }) (replicate 1019 0) ≡ None }
    ensures scid { write_fault_of (record { bypass = false; control = false; scid = 1024; vcid = 63; ns = 0 }) [] ≡ Some writing.BadField }
    ensures vcid { write_fault_of (record { bypass = false; control = false; scid = 1023; vcid = 64; ns = 0 }) (0xaa ∷ []) ≡ Some writing.BadField }
    ensures empty { write_fault_of (record { bypass = false; control = false; scid = 42; vcid = 1; ns = 0 }) [] ≡ Some writing.EmptyData }
    ensures too_long { write_fault_of (record { bypass = false; control = false; scid = 42; vcid = 1; ns = 0 }) (replicate 1020 0)
        ≡ Some writing.TooLong }
{}

/// A header and a data field have no write fault exactly when both fit a frame. N(S) and each octet must be below 256,
/// as their types ensure.
pub fn just_what_fits_a_frame_has_no_write_fault()
    ensures { (header : Header) (field : List ℕ) → header.ns < 256 → IsOctets field
        → (write_fault_of header field ≡ None) ↔ (IsHeader header × IsField field) }
{}

/// `some_of_first n passes` is true exactly when `passes` is true of some number from 1 to `n`.
pub fn some_of_the_first_is_some_number()
    ensures { (n : ℕ) (passes : ℕ → Bool) → IsTrue (some_of_first n passes) ↔ ((k : ℕ) × (1 ≤ k) × (k ≤ n) × IsTrue (passes k)) }
{}

/// If every Type-AD frame that comes in S2 finds no room, the table has an entry for every arrival.
pub fn each_arrival_has_an_entry()
    ensures frame { (width : ℕ) (r : Report) (kind : Kind) (room : Bool) → ((ns : ℕ) → kind ≡ Kind.Ad ns → r.state ≡ S2 → room ≡ false)
        → IsSome (entry (frame_row width r.vr kind room) r) }
    ensures release { (r : Report) → IsSome (entry E10 r) }
{}

/// V(R) changes in two cases only. An expected frame that finds room in S1 raises V(R) by one, modulo 256. A Set V(R)
/// that comes in S1 or S2 sets V(R) to the command's number.
pub fn v_r_changes_by_acceptance_and_set_v_r_alone()
    ensures { (row : Row) (r : Report) → (after row r).vr ≢ r.vr
        → ((row ≡ E1) × (r.state ≡ S1) × ((after row r).vr ≡ (r.vr + 1) % 256))
        ⊎ ((x : ℕ) × (row ≡ E8 x) × (r.state ≢ S3) × ((after row r).vr ≡ x)) }
{}

/// A written CLCW reads back as the values from which it was written.
pub fn a_written_clcw_reads_back()
    ensures fits { (r : Report) (vcid : ℕ) (link : Link) → vcid < 64 → r.farm_b < 4 → r.vr < 256 → word_of r vcid link < 2 ^ 32 }
    ensures clcw { (r : Report) (vcid : ℕ) (link : Link) → vcid < 64 → r.farm_b < 4 → r.vr < 256 → IsClcw (word_of r vcid link) }
    ensures fields { (r : Report) (vcid : ℕ) (link : Link) → vcid < 64 → r.farm_b < 4 → r.vr < 256
        → fields_of (word_of r vcid link) ≡ reported r vcid link }
{}

/// States examples of CLCWs, worked out by hand: the words that report some components, the fields of two words, a word
/// that is a CLCW, and words that aren't.
pub fn clcws_are_so()
    ensures plain { word_of (record { state = S1; vr = 1; lockout = false; wait = false; retransmit = false; farm_b = 0 }) 1
        (record { no_rf = false; no_bit_lock = false }) ≡ 0x01040001 }
    ensures no_rf { word_of (record { state = S1; vr = 0; lockout = false; wait = false; retransmit = false; farm_b = 0 }) 1
        (record { no_rf = true; no_bit_lock = false }) ≡ 0x01048000 }
    ensures no_bit_lock { word_of (record { state = S1; vr = 0; lockout = false; wait = false; retransmit = false; farm_b = 0 }) 1
        (record { no_rf = false; no_bit_lock = true }) ≡ 0x01044000 }
    ensures lockout { word_of (record { state = S3; vr = 0; lockout = true; wait = false; retransmit = false; farm_b = 0 }) 63
        (record { no_rf = false; no_bit_lock = false }) ≡ 0x01fc2000 }
    ensures wait { word_of (record { state = S2; vr = 255; lockout = false; wait = true; retransmit = true; farm_b = 3 }) 1
        (record { no_rf = false; no_bit_lock = false }) ≡ 0x01041eff }
    ensures retransmit { word_of (record { state = S1; vr = 0; lockout = false; wait = false; retransmit = true; farm_b = 0 }) 1
        (record { no_rf = false; no_bit_lock = false }) ≡ 0x01040800 }
    ensures fields { fields_of 0x01041801 ≡ record {
      status = 0;
      vcid = 1;
      link = record { no_rf = false; no_bit_lock = false };
      lockout = false;
      wait = true;
      retransmit = true;
      farm_b = 0;
      vr = 1;
    } }
    ensures status { fields_of 0x0504a6ff ≡ record {
      status = 1;
      vcid = 1;
      link = record { no_rf = true; no_bit_lock = false };
      lockout = true;
      wait = false;
      retransmit = false;
      farm_b = 3;
      vr = 255;
    } }
    ensures clcw { IsClcw 0x0504a6ff }
    ensures kind { IsClcw 0x81040000 → ⊥ }
    ensures version { IsClcw 0x21040000 → ⊥ }
    ensures cop { IsClcw 0x00040000 → ⊥ }
    ensures spare { IsClcw 0x01050000 → ⊥ }
    ensures last_spare { IsClcw 0x01040100 → ⊥ }
{}

/// An Unlock followed by a Set V(R) to `x` leads to S1 with V(R) at `x` and no flag set. The components before may be
/// any in which Lockout is set only in S3 and Wait is never set in S1.
pub fn unlock_and_set_v_r_open_farm_1()
    ensures { (r : Report) (x : ℕ) → (r.lockout ≡ true → r.state ≡ S3) → (r.wait ≡ true → r.state ≢ S1)
        → after (E8 x) (after E7 r) ≡ record {
          state = S1;
          vr = x;
          lockout = false;
          wait = false;
          retransmit = false;
          farm_b = ((r.farm_b + 1) % 4 + 1) % 4;
        } }
{}
