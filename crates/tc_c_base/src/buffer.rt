//! The record of a call that writes octets into the caller's buffer.

ghost use Rattle.std.specs.Prelude.{◌≡◌};
ghost use Rattle.tc_c_base.specs.Written.{no_octets, taken, too_short};

use crate::status::{Status, code};

/// A status with a number of octets.
#[repr(C)]
#[derive(Clone, Copy)]
pub struct WrittenRecord {
    pub status: u32,
    /// The number of octets that were written to the front of the buffer. If the buffer is too short, it is the number
    /// that is needed. If nothing was written for another reason, it is 0.
    pub length: usize,
}

/// Returns the record of a call that wrote no octets, with this status and the length 0.
pub fn not_written(fault: Status) -> WrittenRecord
    ensures { result ≡ no_octets fault }
{
    WrittenRecord {
        status: code(fault),
        length: 0,
    }
}

/// Returns the record of a call that wrote `length` octets.
pub fn written(length: usize) -> WrittenRecord
    ensures { result ≡ taken length }
{
    WrittenRecord {
        status: code(Status::Done),
        length,
    }
}

/// Returns the record of a call whose buffer is too short, because the call needs room for `needed` octets.
pub fn no_room(needed: usize) -> WrittenRecord
    ensures { result ≡ too_short needed }
{
    WrittenRecord {
        status: code(Status::NoRoom),
        length: needed,
    }
}
