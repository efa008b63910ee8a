//! Long scripts that repeat one octet. Their size is at the limit, or one octet over it.

ghost use Rattle.std.specs.Prelude.{◌≡◌, ◌++◌, IfOk, replicate};

use std::alloc::{AllocError, Global};

/// A script without answers.
#[derive(Debug, Drop)]
pub(crate) struct LargeCase {
    pub(crate) name: &'static str,
    pub(crate) fault: &'static str,
    pub(crate) script: Vec<u8>,
}

/// The number of octets that a script may have.
const LIMIT: usize = 1_048_576;

/// Returns the octets of a script: `count` times `octet`, and then the octets of `end`.
fn repeated(alloc: Global, octet: u8, count: usize, end: &[u8]) -> Result<Vec<u8>, AllocError>
    ensures { IfOk result (λ script. script.items ≡ replicate count octet ++ end.now) }
{
    let mut script = vec![in alloc; octet; count]?;
    script.extend_from_slice(end)?;
    Ok(script)
}

pub(crate) fn large_cases(alloc: Global) -> Result<Vec<LargeCase>, AllocError> {
    let mut cases = Vec::new(alloc);
    for (name, fault, octet, count, end) in [
        ("comment-at-the-limit", "", b'#', LIMIT, b"".as_slice()),
        (
            "comment-over-the-limit",
            "line 0: too long",
            b'#',
            LIMIT + 1,
            b"".as_slice(),
        ),
        (
            "lines-at-the-limit",
            "line 1048572: unknown command",
            b'\n',
            LIMIT - 5,
            b"hello".as_slice(),
        ),
    ] {
        let script = repeated(alloc, octet, count, end)?;
        cases.push(LargeCase {
            name,
            fault,
            script,
        })?;
    }
    Ok(cases)
}
