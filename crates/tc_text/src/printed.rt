//! The parts of answers as text.

ghost use Rattle.std.specs.Prelude.{Some};
ghost use Rattle.tc_text.specs.Printed.{unit_text, word_text, delivery_text};

use std::fmt;
use tc_lines::Digits;
use tc_queues::Delivery;

/// The hexadecimal digits of a unit, or `-` if it has no octets.
#[derive(Clone, Copy, Debug)]
pub struct UnitDigits<'a>(pub &'a [u8]);

impl fmt::Display for UnitDigits<'_> {
    ghost output = { λ digits. Some (unit_text digits.0.now) };

    fn fmt<W: fmt::Write>(&self, f: &mut fmt::Formatter<W>) -> fmt::Result {
        if self.0.is_empty() {
            f.write_str("-")
        } else {
            fmt::Display::fmt(&Digits(self.0), f)
        }
    }
}

/// The eight hexadecimal digits of a control word of four octets.
#[derive(Clone, Copy, Debug)]
pub struct WordDigits(pub u32);

impl fmt::Display for WordDigits {
    ghost output = { λ digits. Some (word_text digits.0) };

    fn fmt<W: fmt::Write>(&self, f: &mut fmt::Formatter<W>) -> fmt::Result {
        let octets = self.0.to_be_bytes();
        let mut digits = [0u8; 8];
        hex::encode_to_slice(octets.as_slice(), &mut digits).map_err(|_| fmt::Error)?;
        f.write_str(str::from_utf8(&digits).map_err(|_| fmt::Error)?)
    }
}

/// The text of a delivery: the numbers of packets or units that were queued and dropped, and a flag that is set if
/// octets were left over.
#[derive(Clone, Copy, Debug)]
pub struct Delivered(pub Delivery);

impl fmt::Display for Delivered {
    ghost output = { λ delivered. Some (delivery_text delivered.0) };

    fn fmt<W: fmt::Write>(&self, f: &mut fmt::Formatter<W>) -> fmt::Result {
        let queued = self.0.queued;
        let dropped = self.0.dropped;
        let rest = u8::from(self.0.rest);
        write!(f, "queued {queued} dropped {dropped} rest {rest}")
    }
}
