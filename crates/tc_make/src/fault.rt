//! The reasons why a line is bad.

ghost use Rattle.std.specs.Prelude.{◌≡◌, Some};
ghost use Rattle.tc_make.specs.Printed.{unmade_text};

use crate::form::{Form, Number};
use std::error::Error;
use std::fmt;

/// A reason why nothing is made from a line. If several apply, the first in this list is reported, with two exceptions:
/// `NoMemory` is reported as soon as memory runs out, and a frame without room for its frame error control field is
/// reported last (as `TooMuchData`).
#[derive(Clone, Copy, Debug, PartialEq, Eq)]
pub enum Reason {
    /// The first word isn't a command.
    UnknownCommand,
    /// The first word isn't a command, and begins with a byte order mark.
    Marked,
    /// The line has more or fewer words than the form of its command.
    WordCount(Form),
    /// A number doesn't consist of 1 to 5 decimal digits, or is over the largest value of its type, 255 or 65,535.
    BadNumber(Number),
    /// Octets aren't given as an even number of hexadecimal digits.
    BadHex,
    /// The mode of a decoder is neither `detect` nor `correct`.
    BadMode,
    /// A CLCW doesn't have 4 octets.
    BadClcw,
    /// The spacecraft id is over 1,023.
    BadScid,
    /// The virtual channel id is over 63, or over 7 for a telemetry frame.
    BadVcid,
    /// The MAP id is over 63.
    BadMap,
    /// The APID is over 2,047.
    BadApid,
    /// The sequence count is over 16,383.
    BadCount,
    /// The size of segments isn't 1 to 1,018 octets, or the size of a telemetry frame isn't 11 to 2,048 octets.
    BadSize,
    /// There are no octets to carry.
    NoData,
    /// There are more octets than a frame, a packet, a unit or a CLTU has room for.
    TooMuchData,
    /// No decoder has the id.
    NoDecoder,
    /// Memory for something that the line needs ran out.
    NoMemory,
}

impl Reason {
    /// Returns the words that report the reason, with which the answer begins.
    pub fn as_str(&self) -> &'static str
        ensures { result.now ≡ unmade_text self.now }
    {
        match self {
            Reason::UnknownCommand => "bad unknown command",
            Reason::Marked => "bad unknown command",
            Reason::WordCount(_) => "bad wrong number of words",
            Reason::BadNumber(_) => "bad number",
            Reason::BadHex => "bad hex",
            Reason::BadMode => "bad mode",
            Reason::BadClcw => "bad clcw",
            Reason::BadScid => "bad spacecraft",
            Reason::BadVcid => "bad channel",
            Reason::BadMap => "bad map",
            Reason::BadApid => "bad application",
            Reason::BadCount => "bad count",
            Reason::BadSize => "bad size",
            Reason::NoData => "bad no data",
            Reason::TooMuchData => "bad too much data",
            Reason::NoDecoder => "bad no decoder",
            Reason::NoMemory => "bad no memory",
        }
    }
}

impl fmt::Display for Reason {
    ghost output = { λ reason. Some (unmade_text reason) };

    fn fmt<W: fmt::Write>(&self, f: &mut fmt::Formatter<W>) -> fmt::Result {
        f.write_str(self.as_str())
    }
}

impl Error for Reason {}
