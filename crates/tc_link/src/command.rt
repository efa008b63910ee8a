//! Control commands, and the kinds of frames.

ghost use Rattle.std.specs.Prelude.{◌≡◌};
ghost use Rattle.tc_link.specs.Command.{command_of};

/// A control command (CCSDS 232.0-B, 4.1.3.3).
#[derive(Clone, Copy, Debug, PartialEq, Eq)]
pub enum Command {
    Unlock,
    SetVr(u8),
}

/// The kind of a frame, as the receiver sees it (CCSDS 232.0-B, 4.1.2.3).
///
/// A Type-AD frame comes with its N(S). Type-AC frames, which are reserved, and Type-BC frames whose data field isn't a
/// control command are invalid.
#[derive(Clone, Copy, Debug, PartialEq, Eq)]
pub enum Kind {
    Ad(u8),
    Bd,
    Bc(Command),
    Invalid,
}

/// Reads a data field as a control command. Returns `None` unless the whole field is a control command.
pub fn read_command(field: &[u8]) -> Option<Command>
    ensures { result ≡ command_of field.now }
{
    match field {
        [0] => Some(Command::Unlock),
        [0x82, 0, x] => Some(Command::SetVr(*x)),
        _ => None,
    }
}
