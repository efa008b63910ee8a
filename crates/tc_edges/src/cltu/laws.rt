//! Laws about the definitions of this crate.

ghost use Rattle.std.specs.Prelude.{◌≡◌, ◌*◌, ◌<◌, ◌≤◌, ◌++◌, ◌∷◌, [], ℕ, List, Some, None, true, replicate, take, length};
ghost use Rattle.std.specs.List.{concat, AllByRecursion};
ghost use Rattle.tc_link.specs.Frame.{IsOctets, IsWhole};
ghost use Rattle.tc_edges.specs.Fecf.Checksum.{bits_of};
ghost use Rattle.tc_edges.specs.Fecf.Candidate.{AreDelimited, is_fill};
ghost use Rattle.tc_edges.specs.Fecf.Changes.{differences};
ghost use Rattle.tc_edges.specs.Cltu.Division.{IsBlockRemainder};
ghost use Rattle.tc_edges.specs.Cltu.CodeBlock.{block_remainder, IsInformation, code_block, word, errors, flipped};
ghost use Rattle.tc_edges.specs.Cltu.Cltu.{cltu, filled, fill, most_octets, cltu_fault_of};
ghost use Rattle.tc_edges.specs.Cltu.Reception.{Reception, Searching, fate_in, state_after, frames_of, HasNoStart, IsSearching, IsReception, idle};
ghost use Rattle.tc_edges.specs.Cltu.Randomiser.{randomised, random_octets, random_bits};
ghost use Rattle.tc_edges.specs.declared.cltu.block.Mode.{Mode};
ghost use Rattle.tc_edges.specs.declared.cltu.block.Mode.TheVariants.{Detect, Correct};
ghost use Rattle.tc_edges.specs.declared.cltu.block.Fate.TheVariants.{Right, Tail, Rejected};
ghost use Rattle.tc_edges.specs.declared.cltu.writer.CltuFault.TheVariants.{Empty, TooLong};

/// The parity bits are by definition the complement of a register. This register ends with the remainder of the
/// polynomial division, and that division has only one remainder.
pub fn the_parity_is_the_remainder()
    ensures remainder { (information : List ℕ) → IsBlockRemainder (block_remainder 0 (bits_of information)) (bits_of information) }
    ensures only { (r s : ℕ) (bits : List ℕ) → IsBlockRemainder r bits → IsBlockRemainder s bits → r ≡ s }
{}

/// States examples of code blocks, worked out by hand or by a long division in another language. A code block is seven
/// octets, the parity bits, and a filler bit 0, which is ignored. No mode accepts the tail sequence or the idle
/// sequence.
///
/// G is x^7 + x^6 + x^2 + 1, and the octets are a polynomial M, which is multiplied by x^7 and divided by G:
///
/// - 0 leaves 0, that is 0000000. So the parity bits are 1111111, and the octet with the filler bit 0 is fe.
/// - x^7, for M = 1, leaves x^7 - G = x^6 + x^2 + 1, that is 1000101. Its complement is 0111010.
/// - x^8 + x^7, for M = x + 1, leaves x^8 + x^7 - x G = x^3 + x, that is 0001010. Its complement is 1110101.
/// - x^9, for M = x^2, leaves x^9 - x^2 G = x^8 + x^4 + x^2. Subtracting x G leaves x^7 + x^4 + x^3 + x^2 + x, and
///   subtracting G leaves x^6 + x^4 + x^3 + x + 1, that is 1011011. Its complement is 0100100.
#[tactic(auto, unfolding(crate::specs::Cltu::CodeBlock::block_times_x, crate::specs::Cltu::CodeBlock::decoded, crate::specs::Fecf::Checksum::octet_bits))]
pub fn code_blocks_are_so()
    ensures zero { code_block (0x00 ∷ 0x00 ∷ 0x00 ∷ 0x00 ∷ 0x00 ∷ 0x00 ∷ 0x00 ∷ []) ≡ 0x00 ∷ 0x00 ∷ 0x00 ∷ 0x00 ∷ 0x00 ∷ 0x00 ∷ 0x00 ∷ 0xfe ∷ [] }
    ensures one { code_block (0x00 ∷ 0x00 ∷ 0x00 ∷ 0x00 ∷ 0x00 ∷ 0x00 ∷ 0x01 ∷ []) ≡ 0x00 ∷ 0x00 ∷ 0x00 ∷ 0x00 ∷ 0x00 ∷ 0x00 ∷ 0x01 ∷ 0x74 ∷ [] }
    ensures three { code_block (0x00 ∷ 0x00 ∷ 0x00 ∷ 0x00 ∷ 0x00 ∷ 0x00 ∷ 0x03 ∷ []) ≡ 0x00 ∷ 0x00 ∷ 0x00 ∷ 0x00 ∷ 0x00 ∷ 0x00 ∷ 0x03 ∷ 0xea ∷ [] }
    ensures four { code_block (0x00 ∷ 0x00 ∷ 0x00 ∷ 0x00 ∷ 0x00 ∷ 0x00 ∷ 0x04 ∷ []) ≡ 0x00 ∷ 0x00 ∷ 0x00 ∷ 0x00 ∷ 0x00 ∷ 0x00 ∷ 0x04 ∷ 0x48 ∷ [] }
    ensures first_bit { code_block (0x80 ∷ 0x00 ∷ 0x00 ∷ 0x00 ∷ 0x00 ∷ 0x00 ∷ 0x00 ∷ [])
        ≡ 0x80 ∷ 0x00 ∷ 0x00 ∷ 0x00 ∷ 0x00 ∷ 0x00 ∷ 0x00 ∷ 0x3a ∷ [] }
    ensures ones { code_block (0xff ∷ 0xff ∷ 0xff ∷ 0xff ∷ 0xff ∷ 0xff ∷ 0xff ∷ []) ≡ 0xff ∷ 0xff ∷ 0xff ∷ 0xff ∷ 0xff ∷ 0xff ∷ 0xff ∷ 0x86 ∷ [] }
    ensures idle { code_block (0x55 ∷ 0x55 ∷ 0x55 ∷ 0x55 ∷ 0x55 ∷ 0x55 ∷ 0x55 ∷ []) ≡ 0x55 ∷ 0x55 ∷ 0x55 ∷ 0x55 ∷ 0x55 ∷ 0x55 ∷ 0x55 ∷ 0xd6 ∷ [] }
    ensures mixed { code_block (0x22 ∷ 0xf6 ∷ 0x00 ∷ 0xff ∷ 0x00 ∷ 0x42 ∷ 0x1a ∷ []) ≡ 0x22 ∷ 0xf6 ∷ 0x00 ∷ 0xff ∷ 0x00 ∷ 0x42 ∷ 0x1a ∷ 0x12 ∷ [] }
    ensures filler_bit { fate_in Detect (0x22 ∷ 0xf6 ∷ 0x00 ∷ 0xff ∷ 0x00 ∷ 0x42 ∷ 0x1a ∷ 0x13 ∷ []) ≡ Right }
    ensures tail { fate_in Detect (0xc5 ∷ 0xc5 ∷ 0xc5 ∷ 0xc5 ∷ 0xc5 ∷ 0xc5 ∷ 0xc5 ∷ 0x79 ∷ []) ≡ Tail }
    ensures tail_in_correction { fate_in Correct (0xc5 ∷ 0xc5 ∷ 0xc5 ∷ 0xc5 ∷ 0xc5 ∷ 0xc5 ∷ 0xc5 ∷ 0x79 ∷ []) ≡ Tail }
    ensures idle_sequence { fate_in Correct (0x55 ∷ 0x55 ∷ 0x55 ∷ 0x55 ∷ 0x55 ∷ 0x55 ∷ 0x55 ∷ 0x55 ∷ []) ≡ Rejected }
{}

/// Two code blocks that differ in at most three of their 63 bits carry equal octets.
pub fn code_blocks_differ_in_four_places()
    ensures { (one other : List ℕ) → IsInformation one → IsInformation other
        → differences (word (code_block one)) (word (code_block other)) ≤ 3 → one ≡ other }
{}

/// One inverted bit among the 63 bits of a code block is one error, two are two errors, and three are three.
pub fn each_turned_bit_is_an_error()
    ensures one { (information : List ℕ) (i : ℕ) → IsInformation information → i < 63 → errors (flipped (code_block information) i) information ≡ 1 }
    ensures two { (information : List ℕ) (i j : ℕ) → IsInformation information → i < j → j < 63
        → errors (flipped (flipped (code_block information) i) j) information ≡ 2 }
    ensures three { (information : List ℕ) (i j k : ℕ) → IsInformation information → i < j → j < k → k < 63
        → errors (flipped (flipped (flipped (code_block information) i) j) k) information ≡ 3 }
{}

/// States examples of CLTUs, worked out by hand: the start sequence, code blocks with their parity bits and any fill,
/// and the tail sequence. Two of the CLTUs carry frames, namely an Unlock and a frame with a packet. The last three
/// clauses state that a CLTU can carry 1,029 octets, but neither 1,030 nor none.
#[tactic(auto, unfolding(crate::specs::Cltu::CodeBlock::block_times_x, crate::specs::Fecf::Checksum::octet_bits))]
pub fn a_cltu_is_so()
    ensures one_block { cltu (0x00 ∷ 0x00 ∷ 0x00 ∷ 0x00 ∷ 0x00 ∷ 0x00 ∷ 0x01 ∷ [])
        ≡ 0xeb ∷ 0x90 ∷ 0x00 ∷ 0x00 ∷ 0x00 ∷ 0x00 ∷ 0x00 ∷ 0x00 ∷ 0x01 ∷ 0x74 ∷ 0xc5 ∷ 0xc5 ∷ 0xc5 ∷ 0xc5 ∷ 0xc5 ∷ 0xc5 ∷ 0xc5
        ∷ 0x79 ∷ [] }
    ensures one_octet { cltu (0x00 ∷ []) ≡ 0xeb ∷ 0x90 ∷ 0x00 ∷ 0x55 ∷ 0x55 ∷ 0x55 ∷ 0x55 ∷ 0x55 ∷ 0x55 ∷ 0x68 ∷ 0xc5 ∷ 0xc5
        ∷ 0xc5 ∷ 0xc5 ∷ 0xc5 ∷ 0xc5 ∷ 0xc5 ∷ 0x79 ∷ [] }
    ensures unlock { cltu (0x30 ∷ 0x2a ∷ 0x04 ∷ 0x05 ∷ 0x00 ∷ 0x00 ∷ [])
        ≡ 0xeb ∷ 0x90 ∷ 0x30 ∷ 0x2a ∷ 0x04 ∷ 0x05 ∷ 0x00 ∷ 0x00 ∷ 0x55 ∷ 0x94 ∷ 0xc5 ∷ 0xc5 ∷ 0xc5 ∷ 0xc5 ∷ 0xc5 ∷ 0xc5 ∷ 0xc5
        ∷ 0x79 ∷ [] }
    ensures two_blocks { cltu (0x00 ∷ 0x2a ∷ 0x04 ∷ 0x0c ∷ 0x00 ∷ 0xc0 ∷ 0x10 ∷ 0x05 ∷ 0xc0 ∷ 0x00 ∷ 0x00 ∷ 0x00 ∷ 0xaa ∷ [])
        ≡ 0xeb ∷ 0x90 ∷ 0x00 ∷ 0x2a ∷ 0x04 ∷ 0x0c ∷ 0x00 ∷ 0xc0 ∷ 0x10 ∷ 0xaa ∷ 0x05 ∷ 0xc0 ∷ 0x00 ∷ 0x00 ∷ 0x00 ∷ 0xaa ∷ 0x55
        ∷ 0xe0 ∷ 0xc5 ∷ 0xc5 ∷ 0xc5 ∷ 0xc5 ∷ 0xc5 ∷ 0xc5 ∷ 0xc5 ∷ 0x79 ∷ [] }
    ensures longest { cltu_fault_of (replicate 1029 0) ≡ None }
    ensures too_long { cltu_fault_of (replicate 1030 0) ≡ Some TooLong }
    ensures empty { cltu_fault_of [] ≡ Some Empty }
{}

/// While a receiving end searches, a CLTU yields the frame that it carries, with its fill, and the search continues
/// after it. In the mode that corrects, this also holds for a CLTU with one wrong bit in its start sequence. Dividing a
/// stream into pieces doesn't change the frames that it yields.
pub fn a_cltu_gives_its_frame()
    ensures given { (mode : Mode) (last : ℕ) (frame rest : List ℕ) → IsOctets frame → cltu_fault_of frame ≡ None
        → frames_of mode most_octets (Searching last) (cltu frame ++ rest) ≡ filled frame ∷ frames_of mode most_octets (Searching 0) rest }
    ensures begun { (last k : ℕ) (frame rest : List ℕ) → k < 16 → IsOctets frame → cltu_fault_of frame ≡ None
        → frames_of Correct most_octets (Searching last) (flipped (cltu frame) k ++ rest)
        ≡ filled frame ∷ frames_of Correct most_octets (Searching 0) rest }
    ensures fill { (frame : List ℕ) → (k : ℕ) × (k < 7) × (filled frame ≡ frame ++ take k fill) }
    ensures pieces { (mode : Mode) (one other : List ℕ) (state : Reception) → frames_of mode most_octets state (one ++ other)
        ≡ frames_of mode most_octets state one ++ frames_of mode most_octets (state_after mode most_octets state one) other }
{}

/// The whole frames that a CLTU carries, at most `most` of them, are found again by their length fields. Only fill
/// follows them.
pub fn a_cltu_gives_its_frames()
    ensures { (mode : Mode) (last most : ℕ) (frames : List (List ℕ)) (rest : List ℕ) → AllByRecursion IsWhole frames
        → 1 ≤ length frames → length frames ≤ most
        → length (concat frames) ≤ most_octets → (fill : List ℕ)
        × (frames_of mode most_octets (Searching last) (cltu (concat frames) ++ rest)
        ≡ (concat frames ++ fill) ∷ frames_of mode most_octets (Searching 0) rest)
        × (is_fill fill ≡ true) × AreDelimited most (concat frames ++ fill) frames fill }
{}

/// Octets in which nothing counts as a start sequence don't hide the CLTU after them. From each state that octets can
/// lead to, 15 octets of the idle sequence lead back to the search. The CLTU after the idle sequence is then found.
pub fn the_next_cltu_is_found()
    ensures quiet { (mode : Mode) (last : ℕ) (before frame rest : List ℕ) → HasNoStart mode last before → IsOctets frame → cltu_fault_of frame ≡ None
        → frames_of mode most_octets (Searching last) (before ++ (cltu frame ++ rest))
        ≡ filled frame ∷ frames_of mode most_octets (Searching 0) rest }
    ensures kept { (mode : Mode) (octets : List ℕ) (state : Reception) → IsReception state → IsReception (state_after mode most_octets state octets) }
    ensures back { (mode : Mode) (state : Reception) → IsReception state → IsSearching (state_after mode most_octets state (idle 15)) }
    ensures found { (mode : Mode) (state : Reception) (before frame rest : List ℕ) → IsReception state → IsOctets frame → cltu_fault_of frame ≡ None
        → frames_of mode most_octets state (before ++ idle 15 ++ (cltu frame ++ rest))
        ≡ frames_of mode most_octets state (before ++ idle 15) ++ filled frame ∷ frames_of mode most_octets (Searching 0) rest }
{}

/// Adding the random sequence twice changes nothing. Added to zeros, it yields the sequence itself. The bits of its
/// octets are the bits that the register produces, one after the other. In the example, the first 40 bits are as the
/// standard prints them. The others were computed from the register, bit by bit, in another language.
pub fn the_random_sequence_comes_off_as_it_went_on()
    ensures twice { (octets : List ℕ) → randomised (randomised octets) ≡ octets }
    ensures zeros { (n : ℕ) → randomised (replicate n 0) ≡ random_octets 0xff n }
    ensures bits { (n : ℕ) → bits_of (random_octets 0xff n) ≡ random_bits 0xff (8 * n) }
    ensures first { random_octets 0xff 16
        ≡ 0xff ∷ 0x39 ∷ 0x9e ∷ 0x5a ∷ 0x68 ∷ 0xe9 ∷ 0x06 ∷ 0xf5 ∷ 0x6c ∷ 0x89 ∷ 0x2f ∷ 0xa1 ∷ 0x31 ∷ 0x5e ∷ 0x08 ∷ 0xc0 ∷ [] }
{}
