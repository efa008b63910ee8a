//! Cases as the index lists them.

ghost use Rattle.std.specs.Prelude.{◌≤◌, IfSome};

use tc_text::SpacecraftId;

/// A script, and the way in which it must end.
#[derive(Clone, Copy, Debug)]
pub(crate) struct Case<'a> {
    pub(crate) name: &'a str,
    /// The spacecraft id, at most 1,023.
    pub(crate) scid: u16,
    /// The text of the fault. It is empty if the script runs to its end.
    pub(crate) fault: &'a str,
}

/// Parses a line of the index. The line has the name of a case, the spacecraft id, and the fault if there is one.
/// Returns `None` if there is no id after the name, or the id is over 1,023.
pub(crate) fn parse_case(line: &str) -> Option<Case<'_>>
    ensures { IfSome result (λ case. case.scid ≤ 1023) }
{
    let (name, rest) = line.split_once(' ')?;
    let (number, fault) = match rest.split_once(' ') {
        Some(parts) => parts,
        None => (rest, ""),
    };
    let scid = SpacecraftId::new(number.parse::<u16>().ok()?)?.number;
    Some(Case { name, scid, fault })
}
