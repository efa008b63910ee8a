//! Octets as text.

ghost use Rattle.std.specs.Prelude.{◌≤◌, Some, length};
ghost use Rattle.std.specs.Fmt.{WritesOnOk};
ghost use Rattle.tc_lines.specs.Printed.{octets_text};

use std::fmt;

// The number of octets that are turned into digits at a time.
const AT_ONCE: usize = 64;

/// Octets that are written as two hexadecimal digits each. The digits are written for 64 octets at a time, so that no
/// memory is allocated for them, even if there are as many octets as in the largest unit.
#[derive(Clone, Copy, Debug)]
pub struct Digits<'a>(pub &'a [u8]);

impl fmt::Display for Digits<'_> {
    ghost output = { λ digits. Some (octets_text digits.0.now) };

    fn fmt<W: fmt::Write>(&self, f: &mut fmt::Formatter<W>) -> fmt::Result {
        for some in self.0.chunks(AT_ONCE) {
            write_digits(f, some)?;
        }
        Ok(())
    }
}

// Writes the digits of at most [`AT_ONCE`] octets.
fn write_digits<W: fmt::Write>(f: &mut fmt::Formatter<W>, octets: &[u8]) -> fmt::Result
    requires { length octets.now ≤ AT_ONCE }
    ensures { WritesOnOk W.write_str_gives f.old result (octets_text octets.now) f.new }
{
    let mut room = [0u8; 2 * AT_ONCE];
    let digits = &mut room[..2 * octets.len()];
    hex::encode_to_slice(octets, digits).map_err(|_| fmt::Error)?;
    f.write_str(str::from_utf8(digits).map_err(|_| fmt::Error)?)
}
