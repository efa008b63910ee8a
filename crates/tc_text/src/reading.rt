//! Reading a script, and splitting it into lines.

ghost use Rattle.std.specs.Prelude.{◌≡◌, ◌≤◌, [], vec_len, IfOk, IfErr, IfSome, MatchOption};
ghost use Rattle.tc_text.specs.Reading.{IsFirstLine, IsReadFault};

use crate::fault::{Reason, ScriptFault};
use memchr::memchr;
use std::alloc::Global;
use std::io::Read;

/// The largest number of octets that a script may have.
pub const MAX_OCTETS: usize = 1_048_576;

const CHUNK: usize = 8192;

/// Reads the whole script, until a read returns no octets. Each earlier read returns at least one octet, so there are
/// at most `MAX_OCTETS + 1` reads. The call fails if a read fails, if there are more than `MAX_OCTETS` octets, or if
/// memory runs out.
pub fn read_whole<R: Read>(alloc: Global, reader: &mut R) -> Result<Vec<u8>, ScriptFault>
    ensures within { IfOk result (λ script. vec_len script ≤ MAX_OCTETS) }
    ensures whole { IfOk result (λ script. IfSome (R.remaining reader.old) (λ octets. script.items ≡ octets)) }
    ensures fault { IfErr result (IsReadFault (R.remaining reader.old)) }
{
    let mut script = Vec::new(alloc);
    let mut chunk = [0u8; CHUNK];
    for _read in 0..MAX_OCTETS + 1 {
        let count = reader.read(&mut chunk).map_err(|_| ScriptFault::Read)?;
        if count == 0 {
            return Ok(script);
        }
        if count > MAX_OCTETS - script.len() {
            return Err(ScriptFault::TooLong);
        }
        script
            .extend_from_slice(&chunk[..count])
            .map_err(|_| ScriptFault::Line {
                line: 0,
                reason: Reason::NoMemory,
            })?;
    }
    Err(ScriptFault::TooLong)
}

/// Returns the first line, and the octets after its line feed. Octets after the last line feed are a line, too. Returns
/// `None` if there are no octets.
pub fn next_line(octets: &[u8]) -> Option<(&[u8], &[u8])>
    ensures { MatchOption result (octets.now ≡ []) (λ parts. IsFirstLine octets.now parts.0.now parts.1.now) }
{
    if octets.is_empty() {
        return None;
    }
    match memchr(b'\n', octets) {
        Some(end) => {
            let (line, rest) = octets.split_at(end);
            let (_, after) = rest.split_at(1);
            Some((line, after))
        }
        None => Some((octets, &[])),
    }
}
