//! The ending of frames, with or without a frame error control field.

use crate::fault::Reason;
use std::alloc::Global;
use tc_edges::fecf::{FieldFault, with_field};

/// The ending of the frames that `tcmake` makes and explains.
#[derive(Clone, Copy, Debug, PartialEq, Eq)]
pub enum Ending {
    /// The data field, without a frame error control field.
    DataField,
    /// A frame error control field after the data field (CCSDS 232.0-B, 4.1.4).
    ErrorControl,
}

impl Ending {
    ghost use Rattle.std.specs.Prelude.{◌≡◌, IfOk, IfErr};
    ghost use Rattle.tc_link.specs.Frame.{IsWhole};
    ghost use Rattle.tc_make.specs.Ending.{ended, ending_reason_of};
    ghost use Rattle.std.specs.Prelude.{None, OnOk, unwrap_or};

    /// Returns the frame with this ending: unchanged, or with its frame error control field appended.
    pub fn end(self, alloc: Global, frame: Vec<u8>) -> Result<Vec<u8>, Reason>
        requires { IsWhole frame.items }
        ensures frame { IfOk result (λ made. made.items ≡ ended self frame.items) }
        ensures made { OnOk result (ending_reason_of self frame.items ≡ None) }
        ensures refused { IfErr result (λ reason. reason ≡ unwrap_or (ending_reason_of self frame.items) Reason.NoMemory) }
    {
        match self {
            Ending::DataField => Ok(frame),
            Ending::ErrorControl => match with_field(alloc, &frame) {
                Ok(made) => Ok(made),
                Err(FieldFault::TooLong) => Err(Reason::TooMuchData),
                Err(FieldFault::NoMemory) => Err(Reason::NoMemory),
                Err(_) => unreachable!(),
            },
        }
    }
}
