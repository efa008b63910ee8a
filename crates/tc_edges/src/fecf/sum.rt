//! The frame error control field, computed four octets at a time.

ghost use Rattle.std.specs.Prelude.{◌≡◌, ◌↔◌, ◌∷◌, [], IsTrue};
ghost use Rattle.tc_edges.specs.Fecf.Checksum.{remainder, bits_of, octet_bits, checksum_of};
ghost use Rattle.tc_edges.specs.Fecf.Changes.{Passes};

use crate::fecf::table::{SUMS, SUMS_ON, SUMS_THREE_ON, SUMS_TWO_ON};

/// Returns the frame error control field over these octets. The field of a frame is computed over all octets before it
/// (CCSDS 232.0-B, 4.1.4.2).
///
/// Nothing is allocated.
pub fn checksum(octets: &[u8]) -> u16
    ensures { result ≡ checksum_of octets.now }
{
    let mut sum: u16 = 0xffff;
    let mut rest = octets;
    while rest.len() >= 4 {
        let (four, others) = rest.split_at(4);
        sum = with_four(sum, four[0], four[1], four[2], four[3]);
        rest = others;
    }
    for octet in rest {
        sum = with_octet(sum, *octet);
    }
    sum
}

// Adds the eight bits of an octet to the sum in one step.
fn with_octet(sum: u16, octet: u8) -> u16
    ensures { result ≡ remainder sum (octet_bits octet) }
{
    let high = (sum >> 8) ^ u16::from(octet);
    let folded = high ^ (high >> 4);
    (sum << 8) ^ (folded << 12) ^ (folded << 5) ^ folded
}

// Adds the bits of four octets to the sum in one step.
fn with_four(sum: u16, a: u8, b: u8, c: u8, d: u8) -> u16
    ensures { result ≡ remainder sum (bits_of (a ∷ b ∷ c ∷ d ∷ [])) }
{
    let first = SUMS_THREE_ON[usize::from((sum >> 8) as u8 ^ a)];
    let second = SUMS_TWO_ON[usize::from((sum % 256) as u8 ^ b)];
    let third = SUMS_ON[usize::from(c)];
    let fourth = SUMS[usize::from(d)];
    (first ^ second) ^ (third ^ fourth)
}

/// Checks octets that end with a frame error control field. Returns true if the octets, with the field included, leave
/// no remainder (CCSDS 232.0-B, 4.1.4.3).
///
/// The octets needn't be a frame. Nothing is allocated.
pub fn passes(octets: &[u8]) -> bool
    ensures { IsTrue result ↔ Passes octets.now }
{
    checksum(octets) == 0
}
