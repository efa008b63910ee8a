//! Code blocks.

ghost use Rattle.std.specs.Prelude.{◌≡◌, ◌≢◌, ◌+◌, ◌^◌, ◌<◌, ◌≤◌, ◌++◌, ◌∷◌, [], ℕ, List, Some, None, length, take, bit_xor, IfSome, MatchOption, option_map};
ghost use Rattle.std.specs.Int.{w64, from_le_bytes, to_le_bytes};
ghost use Rattle.tc_link.specs.Frame.{IsOctets};
ghost use Rattle.tc_edges.specs.Cltu.CodeBlock.{parity_of, code_block, decoded, errors, most_errors, IsInformation};
ghost use Rattle.tc_edges.specs.Cltu.Reception.{fate_in, rejected_as, corrections_of, rejections_of, overruns_of};
ghost use Rattle.tc_edges.specs.declared.cltu.block.Mode.{Mode};
ghost use Rattle.tc_edges.specs.declared.cltu.block.Mode.TheVariants.{Detect};

use crate::cltu::tables::{ERRORS, REMAINDERS};
use crate::cltu::writer::TAIL;

/// The treatment of code blocks with wrong bits.
#[derive(Clone, Copy, Debug, PartialEq, Eq)]
pub enum Mode {
    /// No bit is corrected. A block with one to three wrong bits is always rejected (triple error detection).
    Detect,
    /// One wrong bit is corrected. A block with two wrong bits is always rejected (single error correction).
    Correct,
}

/// The fate of a code block.
#[derive(Clone, Copy, Debug, PartialEq, Eq)]
pub enum Fate {
    /// The block is accepted without a correction.
    Right,
    /// The block is accepted with one of its bits corrected.
    Corrected,
    /// The block is rejected, and is the tail sequence.
    Tail,
    /// The block is rejected, and isn't the tail sequence.
    Rejected,
    /// The block isn't kept, because with it the CLTU would carry more than [`MOST_OCTETS`](crate::cltu::MOST_OCTETS).
    Overlong,
}

/// The result of decoding a code block.
#[derive(Clone, Copy, Debug, PartialEq, Eq)]
pub struct Judged {
    pub fate: Fate,
    /// The block with any wrong bit corrected, or `None` if the block is rejected. Its first seven octets are the
    /// octets that it carries.
    pub block: Option<[u8; 8]>,
}

// Returns the seven parity bits over seven octets.
#[inline(always)]
pub(crate) fn parity(octets: &[u8]) -> u8
    requires { length octets.now ≡ 7 }
    ensures bits { result ≡ parity_of octets.now }
    ensures fits { result < 128 }
    ensures each { IsOctets octets.now }
{
    let left = REMAINDERS[6][usize::from(octets[0])]
        ^ (REMAINDERS[5][usize::from(octets[1])]
            ^ (REMAINDERS[4][usize::from(octets[2])]
                ^ (REMAINDERS[3][usize::from(octets[3])]
                    ^ (REMAINDERS[2][usize::from(octets[4])]
                        ^ (REMAINDERS[1][usize::from(octets[5])]
                            ^ REMAINDERS[0][usize::from(octets[6])])))));
    left ^ 0x7f
}

/// Returns the code block that carries seven octets: these octets, the seven parity bits, and a filler bit 0 (CCSDS
/// 231.0-B).
pub fn encode_block(information: [u8; 7]) -> [u8; 8]
    ensures { result ≡ code_block information }
{
    let [a, b, c, d, e, f, g] = information;
    [a, b, c, d, e, f, g, parity(&information) << 1]
}

/// Returns the seven octets whose code block differs from `block` in no more bits than the mode allows, or `None` if
/// there are no such octets.
///
/// The 63 bits before the filler bit are compared, and the filler bit is ignored. A block with one to three wrong bits
/// in [`Mode::Detect`], or with two in [`Mode::Correct`], is always rejected.
pub fn decode_block(block: [u8; 8], mode: Mode) -> Option<[u8; 7]>
    ensures decoded { result ≡ decoded mode block }
    ensures found { IfSome result (λ information. IsInformation information × (errors block information ≤ most_errors mode)) }
    ensures taken { (information : List ℕ) → IsInformation information → errors block information ≤ most_errors mode → result ≡ Some information }
    ensures refused { (information : List ℕ) → IsInformation information → most_errors mode < errors block information
        → errors block information + most_errors mode ≤ 3 → result ≡ None }
{
    let (_, right) = accept(&block, mode)?;
    let [a, b, c, d, e, f, g, _] = right;
    Some([a, b, c, d, e, f, g])
}

/// Returns the fate of a code block and, if it is accepted, the block with any wrong bit corrected.
#[inline(always)]
pub fn judge(block: &[u8; 8], mode: Mode) -> Judged
    ensures fate { result.fate ≡ fate_in mode block.now }
    ensures carried { option_map (λ right. take 7 right) result.block ≡ decoded mode block.now }
{
    let Some(accepted) = accept(block, mode) else {
        return Judged {
            fate: rejection(block),
            block: None,
        };
    };
    let (fate, right) = accepted;
    Judged {
        fate,
        block: Some(right),
    }
}

/// Returns the fate of a code block, and the block with any wrong bit corrected, or `None` if the mode rejects the
/// block. This takes less time than [`judge`], which also finds out whether a rejected block is the tail sequence.
#[inline(always)]
#[tactic(auto, using(crate::proofs::CltuLemmas::Numbers::parts))]
pub fn accept(block: &[u8; 8], mode: Mode) -> Option<(Fate, [u8; 8])>
    ensures fate { MatchOption result (fate_in mode block.now ≡ rejected_as block.now) (λ p. p.0 ≡ fate_in mode block.now) }
    ensures carried { MatchOption result (decoded mode block.now ≡ None) (λ p. decoded mode block.now ≡ Some (take 7 p.1)) }
    ensures parts { (own : List ℕ) × (last : ℕ) × IsInformation own × (block.now ≡ own ++ last ∷ []) }
{
    let [a, b, c, d, e, f, g, last] = *block;
    match error_of(&[a, b, c, d, e, f, g], last, mode)? {
        0 => Some((Fate::Right, *block)),
        error => Some((Fate::Corrected, inverted(block, error))),
    }
}

// Returns the fate of a block that isn't accepted.
fn rejection(block: &[u8; 8]) -> Fate
    ensures { result ≡ rejected_as block.now }
{
    if block.as_slice() == TAIL.as_slice() {
        Fate::Tail
    } else {
        Fate::Rejected
    }
}

// Returns the block with each bit inverted that is set in `bits`. The lowest octet of `bits` is for the first octet.
fn inverted(block: &[u8; 8], bits: u64) -> [u8; 8]
    ensures { result ≡ to_le_bytes w64 (bit_xor (from_le_bytes w64 block.now) bits) }
{
    (u64::from_le_bytes(*block) ^ bits).to_le_bytes()
}

// Finds the wrong bit of the block that consists of `own` and `last`. Returns the number in which only this bit is set,
// or 0 if no bit is wrong. Returns `None` if the mode rejects the block.
#[inline(always)]
#[tactic(auto, using(crate::proofs::CltuLemmas::Taking::wrong_by))]
fn error_of(own: &[u8], last: u8, mode: Mode) -> Option<u64>
    requires { length own.now ≡ 7 }
    ensures taken { MatchOption result (decoded mode (own.now ++ last ∷ []) ≡ None) (λ error. decoded mode (own.now ++ last ∷ [])
        ≡ Some (take 7 (to_le_bytes w64 (bit_xor (from_le_bytes w64 (own.now ++ last ∷ [])) error)))) }
    ensures right { result ≡ Some 0 → (each : Mode) → decoded each (own.now ++ last ∷ []) ≡ Some own.now }
    ensures wrong { result ≢ Some 0 → decoded Detect (own.now ++ last ∷ []) ≡ None }
    ensures each { IsInformation own.now }
{
    let syndrome = parity(own) ^ (last >> 1);
    if syndrome == 0 {
        return Some(0);
    }
    match mode {
        Mode::Detect => None,
        Mode::Correct => {
            let error = ERRORS[usize::from(syndrome)];
            if error == 0 { None } else { Some(error) }
        }
    }
}

/// Three counts: corrected code blocks, rejected code blocks that aren't the tail sequence, and CLTUs that carried more
/// than [`MOST_OCTETS`](crate::cltu::MOST_OCTETS).
#[derive(Clone, Copy, Debug, PartialEq, Eq)]
pub struct Blocks {
    pub corrected: u64,
    pub rejected: u64,
    pub overlong: u64,
}

impl Blocks {
    /// Counts a code block that was corrected, rejected or overlong. Nothing changes for `None`, a right block and the
    /// tail sequence.
    pub fn count(&mut self, fate: Option<Fate>)
        requires corrected { self.old.corrected + 1 < 2 ^ 64 }
        requires rejected { self.old.rejected + 1 < 2 ^ 64 }
        requires overlong { self.old.overlong + 1 < 2 ^ 64 }
        ensures corrected { self.new.corrected ≡ self.old.corrected + corrections_of fate }
        ensures rejected { self.new.rejected ≡ self.old.rejected + rejections_of fate }
        ensures overlong { self.new.overlong ≡ self.old.overlong + overruns_of fate }
    {
        match fate {
            Some(Fate::Corrected) => self.corrected += 1,
            Some(Fate::Rejected) => self.rejected += 1,
            Some(Fate::Overlong) => self.overlong += 1,
            _ => {}
        }
    }
}
