//! Differences between the result of a script and the expected one.

ghost use Rattle.std.specs.Prelude.{◌≡◌, ◌↔◌, IsNone};

use std::fmt;

/// A difference between the result of a script and the expected one.
#[derive(Debug, Drop)]
pub(crate) enum Difference<'a> {
    /// A difference in the answers, with the number of the first line that differs.
    Answers { line: usize },
    Fault { found: &'a str, expected: &'a str },
}

/// Compares the answers to a script, and the text of its fault, with the expected ones. Returns the first difference.
pub(crate) fn compare<'a>(
    answers: &[u8],
    fault: &'a str,
    expected_answers: &[u8],
    expected_fault: &'a str,
) -> Option<Difference<'a>>
    ensures { IsNone result ↔ ((answers.now ≡ expected_answers.now) × (fault.now ≡ expected_fault.now)) }
{
    if answers != expected_answers {
        let line = common_lines(answers, expected_answers).saturating_add(1);
        return Some(Difference::Answers { line });
    }
    if fault.as_bytes() != expected_fault.as_bytes() {
        return Some(Difference::Fault {
            found: fault,
            expected: expected_fault,
        });
    }
    None
}

// Returns the number of whole lines at the front that both texts share.
fn common_lines(found: &[u8], expected: &[u8]) -> usize {
    found
        .iter()
        .zip(expected)
        .take_while(|(found, expected)| found == expected)
        .filter(|(octet, _)| **octet == b'\n')
        .count()
}

impl fmt::Display for Difference<'_> {
    fn fmt<W: fmt::Write>(&self, f: &mut fmt::Formatter<W>) -> fmt::Result {
        match self {
            Difference::Answers { line } => write!(f, "the answers differ from line {line} on"),
            Difference::Fault { found, expected } => {
                write!(
                    f,
                    "the script ends with {found:?}, and not with {expected:?}"
                )
            }
        }
    }
}
