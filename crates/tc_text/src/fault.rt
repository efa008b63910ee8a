//! The reasons why a script ends early.

ghost use Rattle.std.specs.Prelude.{◌≡◌, Some};
ghost use Rattle.tc_text.specs.Printed.{reason_text, fault_text};
ghost use Rattle.tc_text.specs.Reason.{reason_of};

use std::error::Error;
use std::fmt;
use tc_lines::BadNumber;
use tc_queues::SettingsFault;

/// A reason why a line is bad. If several apply, the first in this list is reported, with two exceptions:
/// `BadOption` comes right before `TooLate`, and `NoMemory` is reported as soon as memory runs out.
#[derive(Clone, Copy, Debug, PartialEq, Eq)]
pub enum Reason {
    /// The first word isn't a command.
    UnknownCommand,
    /// The line has more or fewer words than its command takes.
    WordCount,
    /// A number doesn't consist of 1 to 5 decimal digits, or is over its bound.
    BadNumber,
    /// A frame isn't given as an even number of hexadecimal digits.
    BadHex,
    /// A channel, a queue or a chosen MAP is set up after an operation.
    TooLate,
    /// An operation comes before any channel is set up.
    NoChannel,
    /// A channel with this virtual channel id is already set up.
    DoubleChannel,
    /// A queue or a chosen MAP is for a channel that isn't set up.
    UnknownChannel,
    /// The virtual channel id is over 63.
    BadVcid,
    /// The window's width is odd or 0.
    BadWindow,
    /// The buffer doesn't hold 1 to 64 data fields.
    BadBuffer,
    /// A queue's APID is over 2,046.
    BadApid,
    /// The channel already has a queue for this APID.
    DoubleApid,
    /// A queue doesn't hold 1 to 256 packets.
    BadCapacity,
    /// Memory for something that the line needs ran out.
    NoMemory,
    /// The word after a channel's numbers isn't an option.
    BadOption,
    /// The id of a chosen MAP is over 63.
    BadMap,
    /// The channel has already chosen this MAP.
    DoubleMap,
    /// The queue of a chosen MAP doesn't hold 1 to 256 units.
    BadUnits,
    /// A MAP is chosen on a channel without segment headers. Only a segment header names a MAP.
    PlainMap,
}

impl Reason {
    /// Returns the words that report the reason.
    pub fn as_str(&self) -> &'static str
        ensures { result.now ≡ reason_text self.now }
    {
        match self {
            Reason::UnknownCommand => "unknown command",
            Reason::WordCount => "wrong number of words",
            Reason::BadNumber => "bad number",
            Reason::BadHex => "bad hex",
            Reason::TooLate => "too late",
            Reason::NoChannel => "no channel",
            Reason::DoubleChannel => "double channel",
            Reason::UnknownChannel => "unknown channel",
            Reason::BadVcid => "bad channel",
            Reason::BadWindow => "bad window",
            Reason::BadBuffer => "bad buffer",
            Reason::BadApid => "bad application",
            Reason::DoubleApid => "double application",
            Reason::BadCapacity => "bad capacity",
            Reason::NoMemory => "no memory",
            Reason::BadOption => "bad option",
            Reason::BadMap => "bad map",
            Reason::DoubleMap => "double map",
            Reason::BadUnits => "bad units",
            Reason::PlainMap => "map on plain channel",
        }
    }
}

impl fmt::Display for Reason {
    ghost output = { λ reason. Some (reason_text reason) };

    fn fmt<W: fmt::Write>(&self, f: &mut fmt::Formatter<W>) -> fmt::Result {
        f.write_str(self.as_str())
    }
}

impl Error for Reason {}

impl From<BadNumber> for Reason {
    ghost use Rattle.tc_text.specs.declared.fault.Reason.{Reason};

    ghost from_gives = { λ fault reason. reason ≡ Reason.BadNumber };

    fn from(_: BadNumber) -> Reason {
        Reason::BadNumber
    }
}

impl From<SettingsFault> for Reason {
    ghost from_gives = { λ fault reason. reason ≡ reason_of fault };

    fn from(fault: SettingsFault) -> Reason {
        match fault {
            SettingsFault::BadVcid => Reason::BadVcid,
            SettingsFault::BadWindow => Reason::BadWindow,
            SettingsFault::BadBuffer => Reason::BadBuffer,
            SettingsFault::BadApid => Reason::BadApid,
            SettingsFault::DoubleApid => Reason::DoubleApid,
            SettingsFault::BadCapacity => Reason::BadCapacity,
            SettingsFault::BadMap => Reason::BadMap,
            SettingsFault::DoubleMap => Reason::DoubleMap,
            SettingsFault::BadUnits => Reason::BadUnits,
            SettingsFault::PlainMap => Reason::PlainMap,
            SettingsFault::NoMemory => Reason::NoMemory,
        }
    }
}

/// A fault that ended a script early. Lines are numbered from 1, and the number 0 is for the whole script.
#[derive(Clone, Copy, Debug, PartialEq, Eq)]
pub enum ScriptFault {
    /// The line is bad and had no effect, or memory ran out while it was carried out. If memory ran out while the
    /// script was read, the number is 0. If it ran out at the end of the script, the number is that of the last line.
    /// `run_script` has answered the lines before this one, and `parallel_script` has written nothing.
    Line { line: u32, reason: Reason },
    /// The reader failed. No line was carried out.
    Read,
    /// The script has more octets than a script may have. No line was carried out.
    TooLong,
    /// The writer failed.
    Write,
    /// The channels' journals and the operators' counts differ at the end.
    Unbalanced,
}

impl fmt::Display for ScriptFault {
    ghost output = { λ fault. Some (fault_text fault) };

    fn fmt<W: fmt::Write>(&self, f: &mut fmt::Formatter<W>) -> fmt::Result {
        match self {
            ScriptFault::Line { line, reason } => write!(f, "line {line}: {reason}"),
            ScriptFault::Read => f.write_str("line 0: cannot read"),
            ScriptFault::TooLong => f.write_str("line 0: too long"),
            ScriptFault::Write => f.write_str("line 0: cannot write"),
            ScriptFault::Unbalanced => f.write_str("line 0: unbalanced"),
        }
    }
}

impl Error for ScriptFault {}
