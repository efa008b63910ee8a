//! Writing CLTUs, and adding the random sequence, into the caller's buffer.

ghost use Rattle.std.specs.Prelude.{◌≡◌, ◌<◌, ◌≤◌, ◌+◌, ◌*◌, ◌/◌, ◌++◌, Some, None, length, take, drop, IfSome, IfNone, IfOk, MatchResult, option_map};
ghost use Rattle.tc_edges.specs.Cltu.CodeBlock.{code_block};
ghost use Rattle.tc_edges.specs.Cltu.Cltu.{cltu, filled, code_blocks, most_octets, cltu_fault_of};
ghost use Rattle.tc_edges.specs.Cltu.Randomiser.{randomised};
ghost use Rattle.tc_c_base.specs.Written.{no_octets, too_short, taken};
ghost use Rattle.tc_c.specs.Cltus.{cltu_status};

use tc_c_base::{Status, WrittenRecord, no_room, not_written, written};
use tc_edges::cltu::{MOST_OCTETS, START, TAIL, encode_block, randomise};

/// Writes the CLTU that carries a frame, or other octets, to the front of a buffer. The CLTU has the start sequence,
/// the code blocks, with fill in the last one if it needs some, and the tail sequence (CCSDS 231.0-B).
///
/// A CLTU carries 1 to 1,029 octets, up to 7 in each code block. It is 10 octets long, and 8 more for each code block.
/// For other numbers of octets the call fails with EmptyData or LongCltu, and the returned length is 0. Otherwise, if
/// the buffer is too short, the call fails with NoRoom and returns the length that is needed. If the call fails, the
/// buffer stays as it was.
#[unsafe(no_mangle)]
pub extern "C" fn tcrx_write_cltu_at(frame: &[u8], octets: &mut [u8]) -> WrittenRecord
    ensures written { IfNone (cltu_fault_of frame.now) (length (cltu frame.now) ≤ length octets.old → result ≡ taken (length (cltu frame.now))) }
    ensures cltu { IfNone (cltu_fault_of frame.now)
        (length (cltu frame.now) ≤ length octets.old → take (length (cltu frame.now)) octets.new ≡ cltu frame.now) }
    ensures rest { IfNone (cltu_fault_of frame.now)
        (length (cltu frame.now) ≤ length octets.old
        → drop (length (cltu frame.now)) octets.new ≡ drop (length (cltu frame.now)) octets.old) }
    ensures no_room { IfNone (cltu_fault_of frame.now)
        (length octets.old < length (cltu frame.now)
        → (result ≡ too_short (length (cltu frame.now))) × (octets.new ≡ octets.old)) }
    ensures refused { IfSome (cltu_fault_of frame.now) (λ fault. (result ≡ no_octets (cltu_status fault)) × (octets.new ≡ octets.old)) }
{
    if let Err(fault) = check_carried(frame) {
        return not_written(fault);
    }
    let needed = cltu_length(frame);
    if octets.len() < needed {
        return no_room(needed);
    }
    let (made, _) = octets.split_at_mut(needed);
    write_over(frame, made);
    written(needed)
}

// Checks that a CLTU can carry these octets.
fn check_carried(octets: &[u8]) -> Result<(), Status>
    ensures fault { MatchResult result (λ _. cltu_fault_of octets.now ≡ None)
        (λ status. option_map cltu_status (cltu_fault_of octets.now) ≡ Some status) }
    ensures most { IfOk result (λ _. length octets.now ≤ most_octets) }
{
    if octets.is_empty() {
        return Err(Status::EmptyData);
    }
    if octets.len() > MOST_OCTETS {
        return Err(Status::LongCltu);
    }
    Ok(())
}

// Returns the number of octets in the CLTU.
fn cltu_length(frame: &[u8]) -> usize
    requires { length frame.now ≤ most_octets }
    ensures { result ≡ length (cltu frame.now) }
{
    8 * ((frame.len() + 6) / 7) + 10
}

// Writes the CLTU over a slice of its length.
fn write_over(frame: &[u8], made: &mut [u8])
    requires most { length frame.now ≤ most_octets }
    requires all { length made.old ≡ length (cltu frame.now) }
    ensures { made.new ≡ cltu frame.now }
{
    let mut at = put_at(made, 0, &START);
    let mut rest = frame;
    while rest.len() >= 7 {
        let (seven, others) = rest.split_at(7);
        at = put_block(made, at, seven);
        rest = others;
    }
    let end = put_last(made, at, rest);
    put_at(made, end, &TAIL);
}

// Writes the code block of the remaining octets, with its fill, if any octets remain. Returns the place behind it.
fn put_last(made: &mut [u8], at: usize, octets: &[u8]) -> usize
    requires few { length octets.now < 7 }
    requires room { at + 8 * ((length octets.now + 6) / 7) ≤ length made.old }
    ensures end { result ≡ at + 8 * ((length octets.now + 6) / 7) }
    ensures front { take result made.new ≡ take at made.old ++ code_blocks (filled octets.now) }
    ensures all { length made.new ≡ length made.old }
{
    if octets.is_empty() {
        return at;
    }
    put_block(made, at, octets)
}

// Writes the code block of one to seven octets, with their fill. Returns the place behind it.
fn put_block(made: &mut [u8], at: usize, octets: &[u8]) -> usize
    requires some { 0 < length octets.now }
    requires few { length octets.now ≤ 7 }
    requires room { at + 8 ≤ length made.old }
    ensures end { result ≡ at + 8 }
    ensures front { take (at + 8) made.new ≡ take at made.old ++ code_block (filled octets.now) }
    ensures all { length made.new ≡ length made.old }
{
    put_at(made, at, &encode_block(with_fill(octets)))
}

// Writes octets from a place on. Returns the place behind them.
fn put_at(made: &mut [u8], at: usize, octets: &[u8]) -> usize
    requires { at + length octets.now ≤ length made.old }
    ensures end { result ≡ at + length octets.now }
    ensures front { take (at + length octets.now) made.new ≡ take at made.old ++ octets.now }
    ensures all { length made.new ≡ length made.old }
{
    let (_, rest) = made.split_at_mut(at);
    let (place, _) = rest.split_at_mut(octets.len());
    place.copy_from_slice(octets);
    at + octets.len()
}

// Returns one to seven octets with fill behind them.
fn with_fill(octets: &[u8]) -> [u8; 7]
    requires some { 0 < length octets.now }
    requires few { length octets.now ≤ 7 }
    ensures octets { result ≡ filled octets.now }
    ensures seven { length result ≡ 7 }
{
    let mut information = [0x55; 7];
    information[..octets.len()].copy_from_slice(octets);
    information
}

/// Adds the random sequence to octets, from its start on, and writes the result to the front of a buffer (CCSDS
/// 231.0-B). A sender calls it with the octets that a CLTU is to carry, and a receiver with each candidate frame.
/// Adding the sequence twice changes nothing.
///
/// `given` has 1 to 1,029 octets, as many as a CLTU can carry. For other numbers of octets the call fails with
/// EmptyData or LongCltu, and the returned length is 0. Otherwise, if the buffer is too short, the call fails with
/// NoRoom and returns the length that is needed. If the call fails, the buffer stays as it was.
#[unsafe(no_mangle)]
pub extern "C" fn tcrx_randomise_at(given: &[u8], octets: &mut [u8]) -> WrittenRecord
    ensures written { IfNone (cltu_fault_of given.now) (length given.now ≤ length octets.old → result ≡ taken (length given.now)) }
    ensures octets { IfNone (cltu_fault_of given.now)
        (length given.now ≤ length octets.old → take (length given.now) octets.new ≡ randomised given.now) }
    ensures rest { IfNone (cltu_fault_of given.now)
        (length given.now ≤ length octets.old → drop (length given.now) octets.new ≡ drop (length given.now) octets.old) }
    ensures no_room { IfNone (cltu_fault_of given.now)
        (length octets.old < length given.now → (result ≡ too_short (length given.now)) × (octets.new ≡ octets.old)) }
    ensures refused { IfSome (cltu_fault_of given.now) (λ fault. (result ≡ no_octets (cltu_status fault)) × (octets.new ≡ octets.old)) }
{
    if let Err(fault) = check_carried(given) {
        return not_written(fault);
    }
    if octets.len() < given.len() {
        return no_room(given.len());
    }
    let (made, _) = octets.split_at_mut(given.len());
    made.copy_from_slice(given);
    randomise(made);
    written(given.len())
}
